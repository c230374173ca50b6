// What is learnt in a system in memory.

ghost use Rattle.std.specs.Prelude.{◌≡◌, [], ◌∷◌, IfOk, OnOk, map, suc};
ghost use Rattle.sp_term.specs.View.{view};
ghost use Rattle.sp_system.specs.SystemView.{event_of, system_of};
ghost use Rattle.sp_spec_system.specs.System as system_spec;
ghost use Rattle.sp_system.specs.WayView.{way_of};
ghost use Rattle.sp_spec_know.specs.Know.{with_way};
ghost use Rattle.sp_spec_know.specs.Learning as spec;
ghost use Rattle.sp_learnings.specs.LearningView.{put_before, with_next_event};

use sp_shared::shared::Shared;
use sp_system::event::{Event, What};
use sp_system::learnt_by::learnt_by_at;
use sp_system::system::System;
use sp_system::way::Way;
use sp_term::term::{Term, same};
use std::alloc::{AllocError, Global};

/// Whether the event learns the message.
pub fn is_learning_of(message: &Term, event: &Event) -> bool
    ensures { result ≡ spec.is_learning_of (view message.now) (event_of event.now).happening }
{
    match event.what() {
        What::Learn(other, _) => same(message, other),
        _ => false,
    }
}

/// The time of the first event that learns the message.
pub fn learning_of(message: &Term, events: &Vec<Event>) -> Option<u128>
    ensures { result ≡ spec.learning_of (view message.now) (map event_of events.now.items) }
{
    for event in events {
        if is_learning_of(message, event) {
            return Some(event.time);
        }
    }
    None
}

/// Whether it is missing that the message is learnt before the time.
pub fn is_unlearnt(system: &System, message: &Term, time: u128) -> bool
    ensures { result ≡ spec.is_unlearnt (system_of system.now) (view message.now) time }
{
    match learning_of(message, &system.events) {
        Some(learnt) => !system.order.before(learnt, time),
        None => true,
    }
}

/// The number after this one; that there is none is want of memory.
///
/// # Errors
///
/// `AllocError` where there is none.
pub fn after(number: u128) -> Result<u128, AllocError>
    ensures { IfOk result (λ n. n ≡ suc number) }
{
    match number.checked_add(1) {
        Some(next) => Ok(next),
        None => Err(AllocError),
    }
}

/// Adds the event, and uses up a number.
///
/// # Errors
///
/// `AllocError` where memory is wanting.
pub fn add_event(alloc: Global, system: &mut System, event: Event) -> Result<(), AllocError>
    ensures { OnOk result (system_of system.new ≡ with_next_event (system_of system.old) (event_of event)) }
{
    let next = after(system.next)?;
    system.events.push(alloc, event)?;
    system.next = next;
    Ok(())
}

// The one time is put before the other, where it isn't yet.
fn put_before(
    alloc: Global,
    system: &mut System,
    first: u128,
    second: u128,
) -> Result<(), AllocError>
    ensures { OnOk result (system_of system.new ≡ put_before (system_of system.old) first second) }
{
    if system.order.before(first, second) {
        return Ok(());
    }
    system.order.add(alloc, first, second)?;
    Ok(())
}

/// The message is learnt anyhow at the next number, before the time.
///
/// # Errors
///
/// `AllocError` where memory is wanting.
pub fn add_learning(
    alloc: Global,
    system: &mut System,
    message: &Term,
    time: u128,
) -> Result<(), AllocError>
    ensures { OnOk result (system_of system.new
        ≡ spec.with_event (system_spec.with_pairs (system_of system.old) ((system.old.next, time) ∷ []))
        (system_spec.learning (view message.now) system_spec.anyhow)) }
{
    let message = message.clone()?;
    let event = Event::learn(alloc, system.next, message, Way::Anyhow)?;
    system.order.add(alloc, system.next, time)?;
    add_event(alloc, system, event)?;
    Ok(())
}

/// The message is learnt before the time: what is missing of it is added.
///
/// # Errors
///
/// `AllocError` where memory is wanting.
pub fn learn_before(
    alloc: Global,
    system: &mut System,
    message: &Term,
    time: u128,
) -> Result<(), AllocError>
    ensures { OnOk result (system_of system.new ≡ spec.learnt_before (view message.now) time (system_of system.old)) }
{
    match learning_of(message, &system.events) {
        Some(learnt) => put_before(alloc, system, learnt, time)?,
        None => add_learning(alloc, system, message, time)?,
    }
    Ok(())
}

/// What is learnt at the time is learnt in this way.
///
/// # Errors
///
/// `AllocError` where memory is wanting.
pub fn learn_by(alloc: Global, system: &mut System, time: u128, way: &Way) -> Result<(), AllocError>
    ensures { OnOk result (system_of system.new ≡ with_way (system_of system.old) time (way_of way.now)) }
{
    let events = learnt_by_at(alloc, time, way, &system.events)?;
    let shared = Shared::new(alloc, events)?;
    system.events = shared;
    Ok(())
}
