// What is sent was learnt before.

ghost use Rattle.std.specs.Prelude.{◌≡◌, IfOk, option_map};
ghost use Rattle.sp_term.specs.View.{view};
ghost use Rattle.sp_system.specs.SystemView.{event_of, system_of};
ghost use Rattle.sp_system.specs.Reduced.{Reduced};
ghost use Rattle.sp_spec_know.specs.SendLearnt as rows;
ghost use Rattle.sp_spec_system.specs.Picked.{first_some};
ghost use Rattle.sp_rows_graph.specs.LearntView.{at_time};

use sp_learnings::learning::{is_unlearnt, learn_before};
use sp_system::event::{Event, What};
use sp_system::system::System;
use sp_term::term::Term;
use std::alloc::{AllocError, Global};

// What is sent at the event.
fn sent(event: &Event) -> Option<&Term>
    ensures { option_map (λ t. view t.now) result ≡ rows.sent (event_of event.now).happening }
{
    match event.what() {
        What::Send(message) => Some(message),
        _ => None,
    }
}

// What is sent at the event, and when, if it was not learnt before.
fn unlearnt_sending(system: &System, event: &Event) -> Result<Option<(Term, u128)>, AllocError>
    ensures { IfOk result (λ o. option_map at_time o ≡ rows.unlearnt_sending (system_of system.now) (event_of event.now)) }
{
    let Some(message) = sent(event) else {
        return Ok(None);
    };
    if !is_unlearnt(system, message, event.time) {
        return Ok(None);
    }
    let message = message.clone()?;
    Ok(Some((message, event.time)))
}

// The first message of all that is sent and was not learnt before.
fn first_unlearnt(system: &System) -> Result<Option<(Term, u128)>, AllocError>
    ensures { IfOk result (λ o. option_map at_time o ≡ first_some (rows.unlearnt_sending (system_of system.now)) (system_of system.now).events) }
{
    for event in system.events.iter() {
        if let Some(found) = unlearnt_sending(system, event)? {
            return Ok(Some(found));
        }
    }
    Ok(None)
}

/// Makes the first message learnt before it is sent of which this is missing; false if there is none.
///
/// # Errors
///
/// `AllocError` where memory is wanting.
pub fn send_learnt(alloc: Global, system: &mut System) -> Result<bool, AllocError>
    ensures { IfOk result (λ b. Reduced b (system_of system.old) (system_of system.new) (rows.send_learnt (system_of system.old))) }
{
    let Some((message, time)) = first_unlearnt(system)? else {
        return Ok(false);
    };
    learn_before(alloc, system, &message, time)?;
    Ok(true)
}
