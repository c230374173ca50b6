// Two events that share what makes them one.

ghost use Rattle.std.specs.Prelude.{◌≡◌, ◌≤◌, IfOk, drop, length, map, option_map};
ghost use Rattle.sp_system.specs.SystemView.{event_of, system_of};
ghost use Rattle.sp_spec_system.specs.Picked as picked;
ghost use Rattle.sp_rows_graph.specs.SharedView.{both_times, is_learning, may_share, share, stay_two};

use crate::fresh::{may_use_fresh, shares_fresh};
use crate::learn_once::learn_same;
use sp_merge::made_one::stay_apart;
use sp_system::event::{Event, What};
use sp_system::system::System;
use std::alloc::{AllocError, Global};

/// What two events share, so that they have to be one.
#[derive(Clone, Copy, Debug, PartialEq, Eq)]
pub enum Shared {
    /// they use one Fr
    Fresh,
    /// they learn one message
    Learnt,
}

fn share(shared: Shared, event: &Event, other: &Event) -> bool
    ensures { result ≡ share shared (event_of event.now) (event_of other.now) }
{
    match shared {
        Shared::Fresh => shares_fresh(event, other),
        Shared::Learnt => learn_same(event, other),
    }
}

fn is_learning(event: &Event) -> bool
    ensures { result ≡ is_learning (event_of event.now).happening }
{
    matches!(event.what(), What::Learn(_, _))
}

// Whether the event has what it may share; one that hasn't is compared with no other.
fn may_share(shared: Shared, event: &Event) -> bool
    ensures { result ≡ may_share shared (event_of event.now) }
{
    match shared {
        Shared::Fresh => may_use_fresh(event),
        Shared::Learnt => is_learning(event),
    }
}

// The first event from `start` on that shares it with this one.
#[tactic(auto, using(crate::proofs::NothingShared::none_shared))]
fn sharing<'a>(
    shared: Shared,
    event: &Event,
    events: &'a Vec<Event>,
    start: usize,
) -> Option<&'a Event>
    requires { start ≤ length events.now.items }
    ensures { option_map (λ d. (event_of event.now, event_of d.now)) result
        ≡ picked.first_with (share shared) (event_of event.now) (map event_of (drop start events.now.items)) }
{
    if !may_share(shared, event) {
        return None;
    }
    for position in start..events.len() {
        let other = &events[position];
        if share(shared, event, other) {
            return Some(other);
        }
    }
    None
}

/// The times of the first two events that share it.
pub(crate) fn times_of(shared: Shared, events: &Vec<Event>) -> Option<(u128, u128)>
    ensures { result ≡ option_map both_times (picked.first_two (share shared) (map event_of events.now.items)) }
{
    for (position, event) in events.iter().enumerate() {
        if let Some(other) = sharing(shared, event, events, position + 1) {
            return Some((event.time, other.time));
        }
    }
    None
}

fn stay_two(
    alloc: Global,
    shared: Shared,
    system: &System,
    event: &Event,
    other: &Event,
) -> Result<bool, AllocError>
    ensures { IfOk result (λ b. b ≡ stay_two shared (system_of system.now) (event_of event.now) (event_of other.now)) }
{
    if share(shared, event, other) {
        stay_apart(alloc, system, event.time, other.time)
    } else {
        Ok(false)
    }
}

// Whether some event from `start` on shares it with this one, and can't be one with it.
#[tactic(auto, using(crate::proofs::NothingShared::none_apart))]
fn fails_with(
    alloc: Global,
    shared: Shared,
    system: &System,
    event: &Event,
    start: usize,
) -> Result<bool, AllocError>
    requires { start ≤ length system.now.events.items }
    ensures { IfOk result (λ b. b
        ≡ picked.some_with (stay_two shared (system_of system.now)) (event_of event.now) (map event_of (drop start system.now.events.items))) }
{
    if !may_share(shared, event) {
        return Ok(false);
    }
    for position in start..system.events.len() {
        if stay_two(alloc, shared, system, event, &system.events[position])? {
            return Ok(true);
        }
    }
    Ok(false)
}

/// Whether some two events share it, and can't be one.
pub(crate) fn fails_to_be_one(
    alloc: Global,
    shared: Shared,
    system: &System,
) -> Result<bool, AllocError>
    ensures { IfOk result (λ b. b ≡ picked.some_two (stay_two shared (system_of system.now)) (system_of system.now).events) }
{
    for (position, event) in system.events.iter().enumerate() {
        if fails_with(alloc, shared, system, event, position + 1)? {
            return Ok(true);
        }
    }
    Ok(false)
}
