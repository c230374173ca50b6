// Events one after the other, each behind those that the order puts before it.

ghost use Rattle.std.specs.Prelude.{◌≡◌, IfOk, map, option_map};
ghost use Rattle.sp_system.specs.SystemView.{event_of};
ghost use Rattle.sp_spec_solved.specs.Listing as spec;
ghost use Rattle.sp_solved.specs.ListingView.{events_of, free_place};

use sp_order::order::Order;
use sp_system::event::Event;
use std::alloc::{AllocError, Global};

/// Whether one of these events is before the time.
fn some_before(order: &Order, events: &Vec<&Event>, time: u128) -> bool
    ensures { result ≡ spec.some_before order.now (events_of events.now.items) time }
{
    for event in events {
        if order.before(event.time, time) {
            return true;
        }
    }
    false
}

/// The place of the first event that none of those left is before.
fn free_place(order: &Order, left: &Vec<&Event>) -> Option<usize>
    ensures { result ≡ free_place order.now (events_of left.now.items) (events_of left.now.items) }
{
    for (place, event) in left.iter().enumerate() {
        if !some_before(order, left, event.time) {
            return Some(place);
        }
    }
    None
}

/// Takes the first event that none of those left is before.
fn take_free<'a>(order: &Order, left: &mut Vec<&'a Event>) -> Option<&'a Event>
    ensures { option_map (λ e. (event_of e.now, events_of left.new.items)) result ≡ spec.first_free order.now (events_of left.old.items) (events_of left.old.items) }
{
    let Some(place) = free_place(order, left) else {
        return None;
    };
    Some(left.remove(place))
}

/// References to the events.
fn all<'a>(alloc: Global, events: &'a Vec<Event>) -> Result<Vec<&'a Event>, AllocError>
    ensures { IfOk result (λ es. events_of es.items ≡ map event_of events.now.items) }
{
    let mut made = Vec::with_capacity(alloc, events.len())?;
    for event in events {
        made.push(event)?;
    }
    Ok(made)
}

/// The events in their order; none where events stand before each other.
///
/// # Errors
///
/// `AllocError` where memory is wanting.
pub fn in_order<'a>(
    alloc: Global,
    order: &Order,
    events: &'a Vec<Event>,
) -> Result<Option<Vec<&'a Event>>, AllocError>
    ensures { IfOk result (λ o. option_map (λ es. events_of es.items) o ≡ spec.in_order order.now (map event_of events.now.items)) }
{
    let mut left = all(alloc, events)?;
    let mut listed = Vec::with_capacity(alloc, events.len())?;
    for _ in 0..events.len() {
        let Some(event) = take_free(order, &mut left) else {
            return Ok(None);
        };
        listed.push(event)?;
    }
    Ok(Some(listed))
}
