// Whether a search is at its end without a log: the system is closed, and no other move is left.

ghost use Rattle.std.specs.Prelude.{◌≡◌, IfOk, false, not};
ghost use Rattle.std.specs.List.{list_any};
ghost use Rattle.sp_spec_proof.specs.Finish.{has_instance, is_decided};
ghost use Rattle.sp_spec_proof.specs.Kinds.{pickers_by};
ghost use Rattle.sp_system.specs.SystemView.{system_of};
ghost use Rattle.sp_step.specs.View.{context_of};

use crate::choose::by_kinds;
use crate::context::Context;
use sp_system::system::System;
use std::alloc::{AllocError, Global};

// Whether no kind of moves but the last one has an instance.
fn none_left(alloc: Global, context: &Context, system: &System) -> Result<bool, AllocError>
    ensures { IfOk result (λ b. b ≡ not (list_any (has_instance (context_of context.now) (system_of system.now)) (pickers_by false))) }
{
    let chosen = by_kinds(alloc, context, system)?;
    Ok(chosen.is_none())
}

/// Whether the system is closed and no kind of moves but the last one has an instance.
///
/// # Errors
///
/// `AllocError` where memory is wanting, or no number is left for a new variable.
pub fn is_decided(alloc: Global, context: &Context, system: &System) -> Result<bool, AllocError>
    ensures { IfOk result (λ b. b ≡ is_decided (context_of context.now) (system_of system.now)) }
{
    if system.closed {
        none_left(alloc, context, system)
    } else {
        Ok(false)
    }
}
