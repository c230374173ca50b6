// The cases of an action: at its event, or at a new step of some rule, or at a new event at which the adversary does it; in a closed system at some event
// that it has.

ghost use Rattle.std.specs.Prelude.{◌≡◌, ◌++◌, Some, IfOk, map, option_map, slice_get};
ghost use Rattle.sp_fact.specs.View.{action_of};
ghost use Rattle.sp_book.specs.BookView.{book_of};
ghost use Rattle.sp_formula.specs.FormulaView.{formula_of};
ghost use Rattle.sp_system.specs.SystemView.{system_of};
ghost use Rattle.sp_spec_system.specs.MakingOne as rows;
ghost use Rattle.sp_spec_formula.specs.Action as spec;
ghost use Rattle.sp_moves.specs.View.{case_of};

use crate::action::sought;
use crate::at_each::at_each;
use crate::at_event::at_event;
use crate::by_adversary::by_adversary;
use crate::by_rules::by_each;
use sp_book::book::RuleBook;
use sp_fact::fact::Action;
use sp_formula::formula::Formula;
use sp_moves::moves::{Case, formula_at};
use sp_system::at_time::event_at;
use sp_system::system::System;
use std::alloc::{AllocError, Global};

// At a new event.
fn anew(
    alloc: Global,
    rules: &RuleBook,
    system: &System,
    time: u128,
    action: &Action,
) -> Result<Vec<Case>, AllocError>
    ensures { IfOk result (λ cs. map case_of cs.items ≡ spec.by_each (book_of rules.now) (system_of system.now) time (action_of action.now)
        ++ spec.by_adversary (system_of system.now) time (action_of action.now).symbol (action_of action.now).args) }
{
    let mut made = by_each(alloc, rules, system, time, action)?;
    let mut done = by_adversary(alloc, system, time, action)?;
    made.append(&mut done)?;
    Ok(made)
}

fn action_cases(
    alloc: Global,
    rules: &RuleBook,
    system: &System,
    time: u128,
    action: &Action,
) -> Result<Vec<Case>, AllocError>
    ensures { IfOk result (λ cs. map case_of cs.items ≡ spec.action_cases (book_of rules.now) (system_of system.now) time (action_of action.now)
        (rows.event_at time (system_of system.now).events)) }
{
    match event_at(time, &system.events) {
        Some(event) => at_event(alloc, system, action, event.actions()),
        None => {
            if system.closed {
                at_each(alloc, system, time)
            } else {
                anew(alloc, rules, system, time, action)
            }
        }
    }
}

// The cases of the action that the formula is.
#[tactic(auto, using(crate::proofs::ByAction::solves))]
fn solving(
    alloc: Global,
    rules: &RuleBook,
    system: &System,
    formula: &Formula,
) -> Result<Option<Vec<Case>>, AllocError>
    ensures { IfOk result (λ o. option_map (λ cs. map case_of cs.items) o
        ≡ spec.solving_action (book_of rules.now) (system_of system.now) (Some (formula_of formula.now))) }
{
    let Some((time, action)) = sought(alloc, formula)? else {
        return Ok(None);
    };
    let made = action_cases(alloc, rules, system, time, &action)?;
    Ok(Some(made))
}

/// The cases of the action that stands at the place, before they are simplified; none where there is no action to look for.
///
/// # Errors
///
/// `AllocError` where memory is wanting, or no number is left.
pub fn solving_action(
    alloc: Global,
    rules: &RuleBook,
    system: &System,
    place: u128,
) -> Result<Option<Vec<Case>>, AllocError>
    ensures { IfOk result (λ o. option_map (λ cs. map case_of cs.items) o
        ≡ spec.solving_action (book_of rules.now) (system_of system.now) (slice_get (system_of system.now).formulas place)) }
{
    match formula_at(system, place) {
        Some(formula) => solving(alloc, rules, system, formula),
        None => Ok(None),
    }
}
