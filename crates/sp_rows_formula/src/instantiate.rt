// Universal formulas, and the formulas that follow from them for the events that a system has.

ghost use Rattle.std.specs.Prelude.{◌≡◌, IfOk, drop, map, option_map};
ghost use Rattle.sp_formula.specs.FormulaView.{atom_of, formula_of, moment_of};
ghost use Rattle.sp_formula.specs.PlaceView.{placed_action};
ghost use Rattle.sp_system.specs.SystemView.{event_of, system_of};
ghost use Rattle.sp_spec_formula.specs.Instantiate as rows;
ghost use Rattle.sp_spec_system.specs.Picked as picked;
ghost use Rattle.sp_rows_formula.specs.MatchesView as found_by;
ghost use Rattle.sp_rows_formula.specs.MatchesView.{finished};
ghost use Rattle.sp_rows_formula.specs.SlotsView.{slots_of};
ghost use Rattle.sp_system.specs.Reduced.{Reduced};

use crate::disjunction::has_formula;
use crate::instances::instance_by;
use crate::matching::matches;
use crate::slots::Slots;
use sp_formula::formula::{Atom, Formula, Moment};
use sp_formula::place::FormulaAction;
use sp_formula::shared::SharedFormula;
use sp_system::system::System;
use std::alloc::{AllocError, Global};

// The instance, if it is neither a formula nor spent.
fn new_by(
    alloc: Global,
    system: &System,
    guard: &Vec<Atom>,
    body: &Formula,
    slots: &Slots,
) -> Result<Option<Formula>, AllocError>
    ensures { IfOk result (λ o. option_map formula_of o ≡ finished (system_of system.now) (map atom_of guard.now.items) (formula_of body.now) (slots_of slots.now)) }
{
    let Some(made) = instance_by(alloc, guard, body, slots)? else {
        return Ok(None);
    };
    if has_formula(system, &made) {
        return Ok(None);
    }
    Ok(Some(made))
}

// The slots with the values of each match of the guard's action at an event of the system.
fn matches_in(
    alloc: Global,
    system: &System,
    slots: &Slots,
    action: &FormulaAction,
    moment: Moment,
) -> Result<Vec<Slots>, AllocError>
    ensures { IfOk result (λ found. map slots_of found.items ≡ found_by.matches (slots_of slots.now) (placed_action action.now) (moment_of moment) (map event_of system.now.events.items)) }
{
    let found = matches(alloc, slots, action, moment, &system.events)?;
    Ok(found)
}

// The first new instance for which the atoms of the guard from this one on are matched.
fn first_match(
    alloc: Global,
    system: &System,
    guard: &Vec<Atom>,
    body: &Formula,
    from: usize,
    slots: &Slots,
) -> Result<Option<Formula>, AllocError>
    ensures { IfOk result (λ o. option_map formula_of o ≡ rows.first_match (map event_of system.now.events.items) (finished (system_of system.now) (map atom_of guard.now.items) (formula_of body.now)) (map atom_of (drop from guard.now.items)) (slots_of slots.now)) }
{
    if from >= guard.len() {
        let made = new_by(alloc, system, guard, body, slots)?;
        return Ok(made);
    }
    let Atom::Acts(action, moment) = &guard[from] else {
        let made = first_match(alloc, system, guard, body, from + 1, slots)?;
        return Ok(made);
    };
    let found = matches_in(alloc, system, slots, action, *moment)?;
    for next in &found {
        if let Some(made) = first_match(alloc, system, guard, body, from + 1, next)? {
            return Ok(Some(made));
        }
    }
    Ok(None)
}

fn new_instance(
    alloc: Global,
    system: &System,
    formula: &Formula,
) -> Result<Option<Formula>, AllocError>
    ensures { IfOk result (λ o. option_map formula_of o ≡ rows.new_instance (system_of system.now) (formula_of formula.now)) }
{
    match formula {
        Formula::ForAll(binders, guard, body) => {
            let slots = Slots::empty(alloc, binders)?;
            let made = first_match(alloc, system, guard, body, 0, &slots)?;
            Ok(made)
        }
        _ => Ok(None),
    }
}

fn first_instance(alloc: Global, system: &System) -> Result<Option<Formula>, AllocError>
    ensures { IfOk result (λ o. option_map formula_of o ≡ picked.first_some (rows.new_instance (system_of system.now)) (map formula_of system.now.formulas.items)) }
{
    for formula in system.formulas.iter() {
        if let Some(made) = new_instance(alloc, system, formula)? {
            return Ok(Some(made));
        }
    }
    Ok(None)
}

/// Appends the first new instance of a universal formula; false if there is none.
///
/// # Errors
///
/// `AllocError` where memory is wanting.
pub fn instantiate(alloc: Global, system: &mut System) -> Result<bool, AllocError>
    ensures { IfOk result (λ b. Reduced b (system_of system.old) (system_of system.new) (rows.instantiate (system_of system.old))) }
{
    let Some(formula) = first_instance(alloc, system)? else {
        return Ok(false);
    };
    let formula = SharedFormula::new(alloc, formula)?;
    system.formulas.push(alloc, formula)?;
    Ok(true)
}
