// Times are made one, and with them the events at them, until no more have to be.

ghost use Rattle.std.specs.Prelude.{◌≡◌, ◌<◌, ◌++◌, IfOk, drop, length, map, option_map, suc, take};
ghost use Rattle.sp_spec_system.specs.Equating.{smaller, larger};
ghost use Rattle.sp_spec_system.specs.MakingOne as making_one;
ghost use Rattle.sp_system.specs.WayView.{way_of};
ghost use Rattle.sp_spec_system.specs.System.{with_events};
ghost use Rattle.sp_system.specs.SystemView.{event_of, system_of};
ghost use Rattle.sp_merge.specs.MergingView.{merging_of};
ghost use Rattle.sp_merge.specs.JoiningView.{in_one_time, joining_of, next_joining, with_merging};

use crate::meeting::first_meeting;
use crate::merging::{Merging, happenings_merging};
use sp_shared::copies::copied_all;
use sp_shared::shared::Shared;
use sp_system::event::Event;
use sp_system::learnt_by::learnt_by_at;
use sp_system::system::System;
use sp_system::time::changed_order;
use sp_system::way::Way;
use sp_term::subst::Subst;
use sp_term::term::Term;
use std::alloc::{AllocError, Global};

/// A system, pairs of terms that have to be the same in it, and times that have to be one.
#[derive(Drop)]
pub struct Joining {
    /// the system
    pub system: System,
    /// the pairs of terms
    pub pairs: Vec<(Term, Term)>,
    /// the pairs of times
    pub times: Vec<(u128, u128)>,
}

// The smaller and the larger.
fn ordered(i: u128, j: u128) -> (u128, u128)
    ensures { result ≡ (smaller i j, larger i j) }
{
    if j < i { (j, i) } else { (i, j) }
}

// The event at the position goes, and at the time it is learnt in this way.
fn merged_events(
    alloc: Global,
    mut system: System,
    time: u128,
    position: usize,
    way: &Way,
) -> Result<System, AllocError>
    requires { position < length system.events.items }
    ensures { IfOk result (λ s. system_of s ≡ with_events (system_of system) (making_one.learnt_by_at time (way_of way.now)
        (take position (map event_of system.events.items) ++ drop (suc position) (map event_of system.events.items)))) }
{
    let mut others = copied_all(alloc, &system.events, 0)?;
    others.remove(position);
    let events = learnt_by_at(alloc, time, way, &others)?;
    let shared = Shared::new(alloc, events)?;
    system.events = shared;
    Ok(system)
}

// The event at the position goes, and what is found is to be.
fn with_merging(
    alloc: Global,
    joining: Joining,
    time: u128,
    position: usize,
    mut found: Merging,
) -> Result<Joining, AllocError>
    requires { position < length joining.system.events.items }
    ensures { IfOk result (λ j. joining_of j ≡ with_merging time
        (take position (map event_of joining.system.events.items) ++ drop (suc position) (map event_of joining.system.events.items))
        (merging_of found) (joining_of joining)) }
{
    let Joining {
        system,
        mut pairs,
        mut times,
    } = joining;
    let system = merged_events(alloc, system, time, position, &found.way)?;
    pairs.append(&mut found.pairs)?;
    times.append(&mut found.times)?;
    Ok(Joining {
        system,
        pairs,
        times,
    })
}

// The two times are one.
fn in_one_time(
    alloc: Global,
    joining: Joining,
    first: u128,
    second: u128,
) -> Result<Joining, AllocError>
    ensures { IfOk result (λ j. joining_of j ≡ in_one_time (first, second) (joining_of joining)) }
{
    let (small, large) = ordered(first, second);
    let system = joining
        .system
        .changed(alloc, &Subst::new(alloc), small, large)?;
    let times = changed_order(alloc, small, large, &joining.times)?;
    Ok(Joining {
        system,
        pairs: joining.pairs,
        times,
    })
}

// The two times are one, and the events at them, if these can be.
fn joined(
    alloc: Global,
    joining: Joining,
    first: u128,
    second: u128,
) -> Result<Option<Joining>, AllocError>
    ensures { IfOk result (λ o. option_map joining_of o ≡ making_one.joined (first, second) (joining_of joining)
        (making_one.merging_events (making_one.at_times first second) (map event_of joining.system.events.items))) }
{
    let events: &Vec<Event> = &joining.system.events;
    let Some((left, right)) = first_meeting(first, second, events) else {
        let alone = in_one_time(alloc, joining, first, second)?;
        return Ok(Some(alone));
    };
    let one = &events[left];
    let other = &events[right];
    let Some(found) = happenings_merging(alloc, one, other)? else {
        return Ok(None);
    };
    let time = one.time;
    let merged = with_merging(alloc, joining, time, right, found)?;
    let made = in_one_time(alloc, merged, first, second)?;
    Ok(Some(made))
}

// The first of the times that have to be one are made one.
fn next_joining(alloc: Global, mut joining: Joining) -> Result<Option<Joining>, AllocError>
    ensures { IfOk result (λ o. option_map joining_of o ≡ next_joining (joining_of joining) joining.times.items) }
{
    if joining.times.is_empty() {
        return Ok(Some(joining));
    }
    let (first, second) = joining.times.remove(0);
    let made = joined(alloc, joining, first, second)?;
    Ok(made)
}

/// Makes all times one that have to be, in no more than so many turns, if they can be.
///
/// # Errors
///
/// `AllocError` where memory is wanting.
pub fn all_joined(
    alloc: Global,
    turns: usize,
    mut joining: Joining,
) -> Result<Option<Joining>, AllocError>
    ensures { IfOk result (λ o. option_map joining_of o ≡ making_one.all_joined turns (joining_of joining)) }
{
    for _ in 0..turns {
        if joining.times.is_empty() {
            return Ok(Some(joining));
        }
        let Some(next) = next_joining(alloc, joining)? else {
            return Ok(None);
        };
        joining = next;
    }
    if !joining.times.is_empty() {
        return Ok(None);
    }
    Ok(Some(joining))
}
