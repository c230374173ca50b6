// An action at a time that has no event, in a closed system: the time is that of some event that the system has.

ghost use Rattle.std.specs.Prelude.{◌≡◌, IfOk, ◌++◌, codes, decimal, map, option_map, string_bytes};
ghost use Rattle.sp_spec_system.specs.MakingOne as making_one;
ghost use Rattle.sp_system.specs.SystemView.{event_of, system_of};
ghost use Rattle.sp_spec_formula.specs.Action as spec;
ghost use Rattle.sp_moves.specs.View.{case_of};

use sp_merge::made_one::made_one;
use sp_moves::moves::Case;
use sp_system::system::System;
use std::alloc::{AllocError, Global};

fn name_of_event(alloc: Global, time: u128) -> Result<String, AllocError>
    ensures { IfOk result (λ n. string_bytes n ≡ codes "event_" ++ decimal time) }
{
    let name = format!(in alloc; "event_{time}")?;
    Ok(name)
}

// The system in which the two times are one, if they can be.
fn where_one(
    alloc: Global,
    system: &System,
    first: u128,
    second: u128,
) -> Result<Option<System>, AllocError>
    ensures { IfOk result (λ o. option_map system_of o ≡ making_one.made_one (system_of system.now) (first, second)) }
{
    let mut made = system.clone()?;
    if made_one(alloc, &mut made, first, second)? {
        Ok(Some(made))
    } else {
        Ok(None)
    }
}

/// Each event of the system that may be the one at this time, by its own time.
///
/// # Errors
///
/// `AllocError` where memory is wanting.
pub fn at_each(alloc: Global, system: &System, time: u128) -> Result<Vec<Case>, AllocError>
    ensures { IfOk result (λ cs. map case_of cs.items ≡ spec.at_each (system_of system.now) time (map event_of system.now.events.items)) }
{
    let mut made = Vec::new(alloc);
    for event in system.events.iter() {
        if let Some(one) = where_one(alloc, system, time, event.time)? {
            let name = name_of_event(alloc, event.time)?;
            made.push(Case { name, system: one })?;
        }
    }
    Ok(made)
}
