// Events that learn one message are one.

ghost use Rattle.std.specs.Prelude.{◌≡◌, IfOk};
ghost use Rattle.sp_system.specs.SystemView.{event_of, system_of};
ghost use Rattle.sp_spec_know.specs.LearnOnce as rows;
ghost use Rattle.sp_system.specs.Reduced.{Reduced};

use crate::shared::{Shared, fails_to_be_one, times_of};
use sp_learnings::learning::is_learning_of;
use sp_merge::made_one::made_one;
use sp_system::event::{Event, What};
use sp_system::system::System;
use std::alloc::{AllocError, Global};

// Whether the events learn one message.
pub(crate) fn learn_same(event: &Event, other: &Event) -> bool
    ensures { result ≡ rows.learn_same (event_of event.now) (event_of other.now) }
{
    match event.what() {
        What::Learn(message, _) => is_learning_of(message, other),
        _ => false,
    }
}

/// Makes the times of the first two events that learn one message one; false if there are none, or they can't be one.
///
/// # Errors
///
/// `AllocError` where memory is wanting.
pub fn learn_once(alloc: Global, system: &mut System) -> Result<bool, AllocError>
    ensures { IfOk result (λ b. Reduced b (system_of system.old) (system_of system.new) (rows.learn_once (system_of system.old))) }
{
    let Some((first, second)) = times_of(Shared::Learnt, &system.events) else {
        return Ok(false);
    };
    made_one(alloc, system, first, second)
}

/// Whether some two events that learn one message can't be one.
///
/// # Errors
///
/// `AllocError` where memory is wanting.
pub fn fails_to_learn(alloc: Global, system: &System) -> Result<bool, AllocError>
    ensures { IfOk result (λ b. b ≡ rows.fails_to_learn (system_of system.now)) }
{
    let fails = fails_to_be_one(alloc, Shared::Learnt, system)?;
    Ok(fails)
}
