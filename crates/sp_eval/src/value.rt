// The values of terms and times, where what is bound has its values.

ghost use Rattle.std.specs.Prelude.{◌≡◌, IfOk, []};
ghost use Rattle.sp_spec.specs.Guarded as guarded;
ghost use Rattle.sp_spec.specs.Guarded.{time_in, place_in};
ghost use Rattle.sp_law_decide.specs.Deciding.{nothing, value_or, assignment_of, place_known};
ghost use Rattle.sp_law_decide.specs.Deciding as deciding;
ghost use Rattle.sp_formula.specs.FormulaView.{moment_of};
ghost use Rattle.sp_formula.specs.PlaceView.{place_of};
ghost use Rattle.sp_term.specs.View.{never_of};
ghost use Rattle.sp_fact.specs.GroundView.{ground_of};
ghost use Rattle.sp_eval.specs.View.{messages_of, times_of};

use crate::environment::Messages;
use sp_fact::ground_term::GroundTerm;
use sp_formula::formula::Moment;
use sp_formula::place::Place;
use sp_formula::slots::value_at;
use sp_term::apply::Assigns;
use sp_term::leaves::Tests;
use sp_term::term::{Name, Never, Term};
use std::alloc::{AllocError, Global};

/// What stands for what has no value: the empty public name.
fn empty_name(alloc: Global) -> Result<GroundTerm, AllocError>
    ensures { IfOk result (λ t. ground_of t ≡ nothing) }
{
    let name = Name::new(alloc, "")?;
    Ok(Term::Constant(name))
}

// What a place stands for.
impl Assigns<Place, Never> for Messages {
    ghost From = { guarded.Place };

    ghost To = { ⊥ };

    ghost from_of = { place_of };

    ghost to_of = { never_of };

    ghost value_of = { λ s. place_in (assignment_of (deciding.environment (messages_of s) [])) };

    fn value(&self, alloc: Global, leaf: &Place) -> Result<GroundTerm, AllocError> {
        match leaf {
            Place::Bound(place) => match value_at(&self.slots, *place) {
                Some(value) => value.clone(),
                None => empty_name(alloc),
            },
            Place::Free(_) => empty_name(alloc),
        }
    }
}

// Whether a place has a value.
impl Tests<Place> for Messages {
    ghost Kind = { guarded.Place };

    ghost leaf_of = { place_of };

    ghost test_of = { λ s. place_known (messages_of s) };

    fn passes(&self, leaf: &Place) -> bool {
        match leaf {
            Place::Bound(place) => {
                let index = *place as usize;
                if index >= self.slots.len() {
                    true
                } else {
                    self.slots[index].value.is_some()
                }
            }
            Place::Free(_) => true,
        }
    }
}

/// The position that the time at the place stands for.
fn position_at(place: u64, times: &Vec<Option<u64>>) -> u64
    ensures { result ≡ value_or 0 (times_of times.now.items) place }
{
    let index = place as usize;
    if index >= times.len() {
        return 0;
    }
    match times[index] {
        Some(position) => position,
        None => 0,
    }
}

/// The position that the time stands for.
pub(crate) fn time_value(time: Moment, times: &Vec<Option<u64>>) -> u64
    ensures { result ≡ time_in (assignment_of (deciding.environment [] (times_of times.now.items))) (moment_of time) }
{
    match time {
        Moment::Free(_) => 0,
        Moment::Bound(place) => position_at(place, times),
    }
}
