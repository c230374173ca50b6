// Actions that their event has.

ghost use Rattle.std.specs.Prelude.{◌≡◌, IfOk, map, option_map, is_some};
ghost use Rattle.sp_fact.specs.View.{action_of};
ghost use Rattle.sp_formula.specs.FormulaView.{formula_of};
ghost use Rattle.sp_system.specs.SystemView.{event_of, system_of};
ghost use Rattle.sp_spec_formula.specs.ActionStands as rows;
ghost use Rattle.sp_spec_forms.specs.Alike.{same_action};
ghost use Rattle.sp_rows_formula.specs.RowsView.{position_of};
ghost use Rattle.sp_system.specs.Reduced.{Reduced};

use sp_fact::fact::Action;
use sp_formula::formula::{Atom, Formula, Moment};
use sp_system::event::Event;
use sp_system::freed::freed_action;
use sp_system::spend::spend;
use sp_system::system::System;
use sp_term::term::all_same;
use std::alloc::{AllocError, Global};

/// Whether the actions are the same.
pub fn same_action(a: &Action, b: &Action) -> bool
    ensures { result ≡ same_action (action_of a.now) (action_of b.now) }
{
    a.symbol == b.symbol && all_same(&a.args, &b.args)
}

fn is_among(action: &Action, actions: &Vec<Action>) -> bool
    ensures { result ≡ rows.is_among (action_of action.now) (map action_of actions.now.items) }
{
    for other in actions {
        if same_action(action, other) {
            return true;
        }
    }
    false
}

/// Whether an event of this time has the action.
pub fn has_action(time: u128, action: &Action, events: &Vec<Event>) -> bool
    ensures { result ≡ rows.has_action time (action_of action.now) (map event_of events.now.items) }
{
    for event in events {
        if event.time == time && is_among(action, event.actions()) {
            return true;
        }
    }
    false
}

fn stands(alloc: Global, events: &Vec<Event>, formula: &Formula) -> Result<bool, AllocError>
    ensures { IfOk result (λ b. b ≡ is_some (rows.standing_of (map event_of events.now.items) (formula_of formula.now))) }
{
    match formula {
        Formula::Holds(Atom::Acts(action, Moment::Free(time))) => {
            let stands = match freed_action(alloc, action)? {
                Some(action) => has_action(*time, &action, events),
                None => false,
            };
            Ok(stands)
        }
        _ => Ok(false),
    }
}

fn position_of_standing(alloc: Global, system: &System) -> Result<Option<usize>, AllocError>
    ensures { IfOk result (λ o. o ≡ option_map (λ p. p.0) (position_of (rows.standing_of (map event_of system.now.events.items)) (map formula_of system.now.formulas.items))) }
{
    for (position, formula) in system.formulas.iter().enumerate() {
        if stands(alloc, &system.events, formula)? {
            return Ok(Some(position));
        }
    }
    Ok(None)
}

/// Spends the first formula that says of an event that it has an action, and is right; false if there is none.
///
/// # Errors
///
/// `AllocError` where memory is wanting.
pub fn action_stands(alloc: Global, system: &mut System) -> Result<bool, AllocError>
    ensures { IfOk result (λ b. Reduced b (system_of system.old) (system_of system.new) (rows.action_stands (system_of system.old))) }
{
    let Some(position) = position_of_standing(alloc, system)? else {
        return Ok(false);
    };
    spend(alloc, system, position)?;
    Ok(true)
}
