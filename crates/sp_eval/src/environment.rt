// The values of what is bound, as far as they are known.

ghost use Rattle.std.specs.Prelude.{◌≡◌, IfOk, map, [], ◌∷◌};
ghost use Rattle.sp_term.specs.Bindings.{answer};
ghost use Rattle.sp_law_decide.specs.Deciding.{with_position};
ghost use Rattle.sp_law_decide.specs.Deciding as deciding;
ghost use Rattle.sp_formula.specs.FormulaView.{binder_of};
ghost use Rattle.sp_eval.specs.View.{times_of, environment_of};

use sp_formula::formula::Binder;
use sp_formula::slots::Slot;
use sp_term::term::Never;
use std::alloc::{AllocError, Global};

/// What is bound of messages, the innermost binder first.
#[derive(Drop)]
pub(crate) struct Messages {
    /// the slots
    pub(crate) slots: Vec<Slot<Never>>,
}

/// What is bound, the innermost binder first.
#[derive(Drop)]
pub(crate) struct Environment {
    /// the messages
    pub(crate) messages: Messages,
    /// the times, which are positions of the trace
    pub(crate) times: Vec<Option<u64>>,
}

/// Makes the time at the place this position, if it has no value, and tells whether it is this position.
pub(crate) fn fill_time(times: &mut Vec<Option<u64>>, place: u64, position: u64) -> bool
    ensures { answer result (times_of times.new.items) ≡ with_position place position (times_of times.old.items) }
{
    let index = place as usize;
    if index >= times.len() {
        return 0 == position;
    }
    match times[index] {
        Some(value) => value == position,
        None => {
            times[index] = Some(position);
            true
        }
    }
}

impl Clone for Environment {
    ghost is_clone = { λ e f. environment_of f ≡ environment_of e };

    #[tactic(auto, using(sp_term::proofs::Cloned::cloned))]
    fn clone(&self) -> Result<Environment, AllocError> {
        let slots = self.messages.slots.clone()?;
        let times = Vec::from_slice(*self.times.allocator(), &self.times)?;
        Ok(Environment {
            messages: Messages { slots },
            times,
        })
    }
}

impl Environment {
    /// One more binder, the innermost, without a value.
    fn bind(&mut self, binder: Binder) -> Result<(), AllocError>
        ensures { IfOk result (λ done. environment_of self.new ≡ deciding.entered (binder_of binder ∷ []) (environment_of self.old)) }
    {
        let added = match binder {
            Binder::Message(sort) => {
                let slot = Slot { sort, value: None };
                self.messages.slots.insert(0, slot).is_ok()
            }
            Binder::Time => self.times.insert(0, None).is_ok(),
        };
        if added { Ok(()) } else { Err(AllocError) }
    }
}

/// Within the reach of these binders, the outermost first.
pub(crate) fn entered(
    alloc: Global,
    binders: &Vec<Binder>,
    outside: &Environment,
) -> Result<Environment, AllocError>
    ensures { IfOk result (λ e. environment_of e ≡ deciding.entered (map binder_of binders.now.items) (environment_of outside.now)) }
{
    let mut inside = outside.clone()?;
    for binder in binders {
        inside.bind(*binder)?;
    }
    Ok(inside)
}
