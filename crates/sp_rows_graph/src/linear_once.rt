// Links that have one linear source, or lead to one premise, are one.

ghost use Rattle.std.specs.Prelude.{◌≡◌, ◌≤◌, IfOk, drop, length, map};
ghost use Rattle.sp_system.specs.SystemView.{event_of, link_of, system_of};
ghost use Rattle.sp_spec_graph.specs.LinearOnce as rows;
ghost use Rattle.sp_spec_system.specs.MakingOne as making_one;
ghost use Rattle.sp_spec_system.specs.Picked as picked;
ghost use Rattle.sp_system.specs.Reduced.{Reduced};

use crate::links::{Clash, first_two};
use sp_merge::made_one::{made_one, stay_apart};
use sp_system::at_time::premise_at;
use sp_system::event::Event;
use sp_system::system::{Link, System};
use std::alloc::{AllocError, Global};

// Whether the event at the time has a linear premise at the place.
fn is_linear_premise(events: &Vec<Event>, time: u128, place: usize) -> bool
    ensures { result ≡ rows.is_linear (making_one.premise_at (map event_of events.now.items) time place) }
{
    match premise_at(events, time, place) {
        Some(premise) => !premise.persistent,
        None => false,
    }
}

/// Whether the links have one source, which is linear.
pub(crate) fn one_linear_source(events: &Vec<Event>, link: Link, other: Link) -> bool
    ensures { result ≡ rows.one_linear_source (map event_of events.now.items) (link_of link) (link_of other) }
{
    link.same_source(other) && is_linear_premise(events, link.to, link.premise)
}

/// Whether the premises have to be one, while their times differ.
pub(crate) fn premises_clash(events: &Vec<Event>, link: Link, other: Link) -> bool
    ensures { result ≡ rows.premises_clash (map event_of events.now.items) (link_of link) (link_of other) }
{
    one_linear_source(events, link, other) && link.to != other.to
}

/// Whether the sources have to be one, while their times differ.
pub(crate) fn sources_clash(link: Link, other: Link) -> bool
    ensures { result ≡ rows.sources_clash (link_of link) (link_of other) }
{
    link.same_premise(other) && link.from != other.from
}

// The first two times that links make one.
fn times_of_links(events: &Vec<Event>, links: &Vec<Link>) -> Option<(u128, u128)>
    ensures { result ≡ rows.times_of_links (map event_of events.now.items) (map link_of links.now.items) }
{
    if let Some((link, other)) = first_two(Clash::Premises, events, links) {
        return Some((link.to, other.to));
    }
    if let Some((link, other)) = first_two(Clash::Sources, events, links) {
        return Some((link.from, other.from));
    }
    None
}

/// Makes the times one of the first two premises that have one linear source, else those of the first two sources of one premise; false if
/// there are none, or they can't be one.
///
/// # Errors
///
/// `AllocError` where memory is wanting.
pub fn linear_once(alloc: Global, system: &mut System) -> Result<bool, AllocError>
    ensures { IfOk result (λ b. Reduced b (system_of system.old) (system_of system.new) (rows.linear_once (system_of system.old))) }
{
    let Some((first, second)) = times_of_links(&system.events, &system.links) else {
        return Ok(false);
    };
    made_one(alloc, system, first, second)
}

fn cannot_link(alloc: Global, system: &System, link: Link, other: Link) -> Result<bool, AllocError>
    ensures { IfOk result (λ b. b ≡ rows.cannot_link (system_of system.now) (link_of link) (link_of other)) }
{
    if premises_clash(&system.events, link, other)
        && stay_apart(alloc, system, link.to, other.to)?
    {
        return Ok(true);
    }
    if sources_clash(link, other) {
        let apart = stay_apart(alloc, system, link.from, other.from)?;
        return Ok(apart);
    }
    Ok(false)
}

// Whether the link and some other from `start` on make times one that can't be.
fn fails_with(alloc: Global, system: &System, link: Link, start: usize) -> Result<bool, AllocError>
    requires { start ≤ length system.now.links.items }
    ensures { IfOk result (λ b. b ≡ picked.some_with (rows.cannot_link (system_of system.now)) (link_of link) (map link_of (drop start system.now.links.items))) }
{
    for position in start..system.links.len() {
        if cannot_link(alloc, system, link, system.links[position])? {
            return Ok(true);
        }
    }
    Ok(false)
}

/// Whether some two links make times one that can't be.
///
/// # Errors
///
/// `AllocError` where memory is wanting.
pub fn fails_to_link(alloc: Global, system: &System) -> Result<bool, AllocError>
    ensures { IfOk result (λ b. b ≡ rows.fails_to_link (system_of system.now)) }
{
    for (position, link) in system.links.iter().enumerate() {
        if fails_with(alloc, system, *link, position + 1)? {
            return Ok(true);
        }
    }
    Ok(false)
}
