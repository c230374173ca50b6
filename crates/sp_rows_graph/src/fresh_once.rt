// Events that use one Fr are one.

ghost use Rattle.std.specs.Prelude.{◌≡◌, IfOk};
ghost use Rattle.sp_system.specs.SystemView.{system_of};
ghost use Rattle.sp_spec_graph.specs.FreshOnce as rows;
ghost use Rattle.sp_system.specs.Reduced.{Reduced};

use crate::shared::{Shared, fails_to_be_one, times_of};
use sp_merge::made_one::made_one;
use sp_system::system::System;
use std::alloc::{AllocError, Global};

/// Makes the times of the first two events that use one Fr one; false if there are none, or they can't be one.
///
/// # Errors
///
/// `AllocError` where memory is wanting.
pub fn fresh_once(alloc: Global, system: &mut System) -> Result<bool, AllocError>
    ensures { IfOk result (λ b. Reduced b (system_of system.old) (system_of system.new) (rows.fresh_once (system_of system.old))) }
{
    let Some((first, second)) = times_of(Shared::Fresh, &system.events) else {
        return Ok(false);
    };
    made_one(alloc, system, first, second)
}

/// Whether some two events that use one Fr can't be one.
///
/// # Errors
///
/// `AllocError` where memory is wanting.
pub fn fails_to_merge(alloc: Global, system: &System) -> Result<bool, AllocError>
    ensures { IfOk result (λ b. b ≡ rows.fails_to_merge (system_of system.now)) }
{
    let fails = fails_to_be_one(alloc, Shared::Fresh, system)?;
    Ok(fails)
}
