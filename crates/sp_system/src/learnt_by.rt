// In which way something is learnt at a time.

ghost use Rattle.std.specs.Prelude.{◌≡◌, IfOk, map};
ghost use Rattle.sp_spec_system.specs.MakingOne as making_one;
ghost use Rattle.sp_system.specs.WayView.{way_of};
ghost use Rattle.sp_system.specs.SystemView.{event_of};
ghost use Rattle.sp_system.specs.LearntBy.{learnt_by_one};

use crate::event::Event;
use crate::way::Way;
use sp_shared::copies::Copies;
use std::alloc::{AllocError, Global};

// At the time it is learnt in this way, where something is.
fn learnt_by_one(alloc: Global, time: u128, way: &Way, event: &Event) -> Result<Event, AllocError>
    ensures { IfOk result (λ e. event_of e ≡ learnt_by_one time (way_of way.now) (event_of event.now)) }
{
    if event.time == time {
        let event = event.learnt_by(alloc, way)?;
        Ok(event)
    } else {
        let same = event.copied()?;
        Ok(same)
    }
}

/// The events, at the time of which something is learnt in this way; the others are shared.
///
/// # Errors
///
/// `AllocError` where memory is wanting.
pub fn learnt_by_at(
    alloc: Global,
    time: u128,
    way: &Way,
    events: &Vec<Event>,
) -> Result<Vec<Event>, AllocError>
    ensures { IfOk result (λ es. map event_of es.items ≡ making_one.learnt_by_at time (way_of way.now) (map event_of events.now.items)) }
{
    let mut made = Vec::with_capacity(alloc, events.len())?;
    for event in events {
        made.push(learnt_by_one(alloc, time, way, event)?)?;
    }
    Ok(made)
}
