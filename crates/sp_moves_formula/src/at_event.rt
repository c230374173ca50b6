// An action at an event that the system has.

ghost use Rattle.std.specs.Prelude.{◌≡◌, IfOk, ◌++◌, codes, decimal, map, string_bytes};
ghost use Rattle.sp_fact.specs.View.{action_of};
ghost use Rattle.sp_system.specs.SystemView.{system_of};
ghost use Rattle.sp_spec_formula.specs.Action as spec;
ghost use Rattle.sp_moves.specs.View.{case_of};

use sp_fact::fact::Action;
use sp_moves::moves::Case;
use sp_moves::where_same::where_same;
use sp_system::system::System;
use std::alloc::{AllocError, Global};

fn name_at(alloc: Global, place: usize) -> Result<String, AllocError>
    ensures { IfOk result (λ n. string_bytes n ≡ codes "at_" ++ decimal place) }
{
    let name = format!(in alloc; "at_{place}")?;
    Ok(name)
}

/// Each of the event's actions that may be this one, by its place.
///
/// # Errors
///
/// `AllocError` where memory is wanting.
pub fn at_event(
    alloc: Global,
    system: &System,
    action: &Action,
    actions: &Vec<Action>,
) -> Result<Vec<Case>, AllocError>
    ensures { IfOk result (λ cs. map case_of cs.items ≡ spec.at_event (system_of system.now) (action_of action.now) 0 (map action_of actions.now.items)) }
{
    let mut made = Vec::new(alloc);
    for (place, other) in actions.iter().enumerate() {
        if let Some(system) = where_same(alloc, system, action, other)? {
            let name = name_at(alloc, place)?;
            made.push(Case { name, system })?;
        }
    }
    Ok(made)
}
