// Instances of a universal formula, once the actions of its guard have been matched.

ghost use Rattle.std.specs.Prelude.{◌≡◌, IfOk, map, option_map};
ghost use Rattle.sp_formula.specs.FormulaView.{atom_of, formula_of};
ghost use Rattle.sp_spec_formula.specs.Instances as spec;
ghost use Rattle.sp_rows_formula.specs.SlotsView.{messages_of, slots_of};

use crate::matching::{are_settled, by_equalities};
use crate::opening::Values;
use crate::slots::{Messages, Slots, all_terms, all_times};
use sp_formula::formula::{Atom, Formula};
use std::alloc::{AllocError, Global};

// The body with the values, once all are there.
fn body_with(
    alloc: Global,
    messages: &Messages,
    times: &Vec<Option<u128>>,
    body: &Formula,
) -> Result<Option<Formula>, AllocError>
    ensures { IfOk result (λ o. option_map formula_of o ≡ spec.body_with (formula_of body.now) (spec.all_terms (messages_of messages.now)) (spec.all_times times.now.items)) }
{
    let Some(terms) = all_terms(alloc, messages)? else {
        return Ok(None);
    };
    let Some(moments) = all_times(alloc, times)? else {
        return Ok(None);
    };
    let made = Values::innermost_first(terms, moments).in_formula(alloc, body)?;
    Ok(Some(made))
}

/// The instance, once the actions have been matched.
pub(crate) fn instance_by(
    alloc: Global,
    guard: &Vec<Atom>,
    body: &Formula,
    slots: &Slots,
) -> Result<Option<Formula>, AllocError>
    ensures { IfOk result (λ o. option_map formula_of o ≡ spec.instance_by (map atom_of guard.now.items) (formula_of body.now) (slots_of slots.now)) }
{
    let mut messages = slots.messages.clone()?;
    if !by_equalities(alloc, &mut messages, guard)? {
        return Ok(None);
    }
    if !are_settled(alloc, &messages, guard)? {
        return Ok(None);
    }
    let made = body_with(alloc, &messages, &slots.times, body)?;
    Ok(made)
}
