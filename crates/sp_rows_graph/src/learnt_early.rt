// Messages of a chain that were learnt before what the chain begins with was put out.

ghost use Rattle.std.specs.Prelude.{◌≡◌, map};
ghost use Rattle.sp_term.specs.View.{view};
ghost use Rattle.sp_system.specs.SystemView.{event_of, system_of};
ghost use Rattle.sp_system.specs.WayView.{way_of};
ghost use Rattle.sp_spec_know.specs.LearntEarly as rows;
ghost use Rattle.sp_rows_graph.specs.LearntView.{learns_before};

use sp_learnings::learning::is_learning_of;
use sp_order::order::Order;
use sp_system::event::{Event, What};
use sp_system::system::System;
use sp_system::way::Way;
use sp_term::term::Term;

// Whether the event learns the message, and is before the time.
fn learns_before(order: &Order, time: u128, message: &Term, event: &Event) -> bool
    ensures { result ≡ learns_before order.now time (view message.now) (event_of event.now) }
{
    is_learning_of(message, event) && order.before(event.time, time)
}

// Whether the message is learnt before the time.
fn is_learnt_before(order: &Order, time: u128, message: &Term, events: &Vec<Event>) -> bool
    ensures { result ≡ rows.is_learnt_before order.now time (view message.now) (map event_of events.now.items) }
{
    for event in events {
        if learns_before(order, time, message, event) {
            return true;
        }
    }
    false
}

// Whether one of the messages is.
fn is_one_learnt_before(system: &System, time: u128, messages: &Vec<Term>) -> bool
    ensures { result ≡ rows.is_one_learnt_before (system_of system.now) time (map view messages.now.items) }
{
    for message in messages {
        if is_learnt_before(&system.order, time, message, &system.events) {
            return true;
        }
    }
    false
}

fn is_early_way(system: &System, way: &Way) -> bool
    ensures { result ≡ rows.is_early_way (system_of system.now) (way_of way.now) }
{
    match way {
        Way::ChainBegun(chain) => is_one_learnt_before(system, chain.time, &chain.messages),
        Way::ChainDone(chain) => is_one_learnt_before(system, chain.time, &chain.messages),
        _ => false,
    }
}

fn is_early(system: &System, event: &Event) -> bool
    ensures { result ≡ rows.is_early (system_of system.now) (event_of event.now).happening }
{
    match event.what() {
        What::Learn(_, way) => is_early_way(system, way),
        _ => false,
    }
}

/// Whether a message of some chain was learnt before what the chain begins with was put out.
pub fn has_early(system: &System) -> bool
    ensures { result ≡ rows.has_early (system_of system.now) }
{
    for event in system.events.iter() {
        if is_early(system, event) {
            return true;
        }
    }
    false
}
