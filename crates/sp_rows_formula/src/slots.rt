// The values of what a quantifier binds, as far as they are found.

ghost use Rattle.std.specs.Prelude.{◌≡◌, [], ◌∷◌, IfOk, map, option_map};
ghost use Rattle.sp_term.specs.View.{view};
ghost use Rattle.sp_formula.specs.FormulaView.{binder_of};
ghost use Rattle.sp_spec_formula.specs.Instances as spec;
ghost use Rattle.sp_rows_formula.specs.SlotsView.{messages_of, slots_of};

use sp_formula::formula::Binder;
use sp_formula::slots::Slot;
use sp_term::term::Term;
use std::alloc::{AllocError, Global};

/// What a quantifier binds of messages, the innermost first.
#[derive(Drop)]
pub struct Messages {
    /// the slots
    pub slots: Vec<Slot>,
}

/// What a quantifier binds, the innermost first.
#[derive(Drop)]
pub struct Slots {
    /// the messages
    pub messages: Messages,
    /// the values of the times, once there are any
    pub times: Vec<Option<u128>>,
}

impl Clone for Messages {
    ghost is_clone = { λ m n. messages_of n ≡ messages_of m };

    #[tactic(auto, using(sp_term::proofs::Cloned::cloned))]
    fn clone(&self) -> Result<Messages, AllocError> {
        let slots = self.slots.clone()?;
        Ok(Messages { slots })
    }
}

/// The values of all, if each has one.
///
/// # Errors
///
/// `AllocError` where memory is wanting.
pub fn all_terms(alloc: Global, messages: &Messages) -> Result<Option<Vec<Term>>, AllocError>
    ensures { IfOk result (λ o. option_map (λ ts. map view ts.items) o ≡ spec.all_terms (messages_of messages.now)) }
{
    let mut made = Vec::with_capacity(alloc, messages.slots.len())?;
    for slot in &messages.slots {
        let Some(value) = &slot.value else {
            return Ok(None);
        };
        made.push(value.clone()?)?;
    }
    Ok(Some(made))
}

/// The values of all, if each has one.
///
/// # Errors
///
/// `AllocError` where memory is wanting.
pub fn all_times(alloc: Global, times: &Vec<Option<u128>>) -> Result<Option<Vec<u128>>, AllocError>
    ensures { IfOk result (λ o. option_map (λ js. js.items) o ≡ spec.all_times times.now.items) }
{
    let mut made = Vec::with_capacity(alloc, times.len())?;
    for time in times {
        let Some(time) = *time else {
            return Ok(None);
        };
        made.push(time)?;
    }
    Ok(Some(made))
}

/// The values with the time as the one at the place, if no other is there.
pub fn put_time(mut times: Vec<Option<u128>>, place: u64, time: u128) -> Option<Vec<Option<u128>>>
    ensures { option_map (λ xs. xs.items) result ≡ spec.put_time times.items place time }
{
    if place >= times.len() as u64 {
        return None;
    }
    let position = place as usize;
    match times[position] {
        Some(other) => { if other == time { Some(times) } else { None } }
        None => {
            times[position] = Some(time);
            Some(times)
        }
    }
}

impl Slots {
    // With one more binder, the innermost.
    fn with(mut self, binder: Binder) -> Result<Slots, AllocError>
        ensures { IfOk result (λ s. slots_of s ≡ spec.empty_slots (binder_of binder ∷ []) (slots_of self)) }
    {
        match binder {
            Binder::Message(sort) => {
                let slot = Slot { sort, value: None };
                self.messages.slots.insert(0, slot)?;
                Ok(self)
            }
            Binder::Time => {
                self.times.insert(0, None)?;
                Ok(self)
            }
        }
    }

    /// No values for what these bind, the innermost last.
    ///
    /// # Errors
    ///
    /// `AllocError` where memory is wanting.
    pub fn empty(alloc: Global, binders: &Vec<Binder>) -> Result<Slots, AllocError>
        ensures { IfOk result (λ s. slots_of s ≡ spec.empty_slots (map binder_of binders.now.items) (record { terms = []; times = [] })) }
    {
        let mut made = Slots {
            messages: Messages {
                slots: Vec::new(alloc),
            },
            times: Vec::new(alloc),
        };
        for binder in binders {
            made = made.with(*binder)?;
        }
        Ok(made)
    }
}
