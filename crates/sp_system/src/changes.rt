// The lists of a system, with bound variables replaced and one time in place of another: each is the same list where that changes nothing in it.

ghost use Rattle.std.specs.Prelude.{◌≡◌, [], IfOk, map, true};
ghost use Rattle.sp_spec.specs.Substitution.{bound_to};
ghost use Rattle.sp_spec.specs.Change.{time_replaced};
ghost use Rattle.sp_spec_system.specs.Equating.{event_changed, pair_changed, link_changed, has_link, joined_links};
ghost use Rattle.sp_term.specs.Bindings.{bindings};
ghost use Rattle.sp_unify.specs.View.{pair_view};
ghost use Rattle.sp_system.specs.SystemView.{event_of, link_of};

use crate::event::Event;
use crate::staying::{events_stay, links_stay, pair_stays, pairs_stay};
use crate::system::{Link, UnequalPair};
use sp_shared::shared::Shared;
use sp_term::subst::{Subst, apply};
use std::alloc::{AllocError, Global};

fn each_event_changed(
    alloc: Global,
    subst: &Subst,
    small: u128,
    large: u128,
    events: &Vec<Event>,
) -> Result<Vec<Event>, AllocError>
    ensures { IfOk result (λ es. map event_of es.items ≡ map (event_changed (bound_to (bindings subst.now)) (time_replaced small large)) (map event_of events.now.items)) }
{
    let mut made = Vec::with_capacity(alloc, events.len())?;
    for event in events {
        made.push(event.changed(alloc, subst, small, large)?)?;
    }
    Ok(made)
}

/// The events, changed.
///
/// # Errors
///
/// `AllocError` where memory is wanting.
#[tactic(auto, using(crate::proofs::Kept::events_kept))]
pub(crate) fn changed_events(
    alloc: Global,
    subst: &Subst,
    small: u128,
    large: u128,
    events: &Shared<Vec<Event>>,
) -> Result<Shared<Vec<Event>>, AllocError>
    ensures { IfOk result (λ es. map event_of es.items ≡ map (event_changed (bound_to (bindings subst.now)) (time_replaced small large)) (map event_of events.now.items)) }
{
    if events_stay(subst, small, large, events) {
        let same = events.share()?;
        return Ok(same);
    }
    let made = each_event_changed(alloc, subst, small, large, events)?;
    let shared = Shared::new(alloc, made)?;
    Ok(shared)
}

fn changed_pair(alloc: Global, subst: &Subst, pair: &UnequalPair) -> Result<UnequalPair, AllocError>
    ensures { IfOk result (λ p. pair_view p ≡ pair_changed (bound_to (bindings subst.now)) (pair_view pair.now)) }
{
    if pair_stays(subst, pair) {
        let same = pair.share()?;
        return Ok(same);
    }
    let left = apply(alloc, subst, &pair.0)?;
    let right = apply(alloc, subst, &pair.1)?;
    let shared = Shared::new(alloc, (left, right))?;
    Ok(shared)
}

fn each_pair_changed(
    alloc: Global,
    subst: &Subst,
    pairs: &Vec<UnequalPair>,
) -> Result<Vec<UnequalPair>, AllocError>
    ensures { IfOk result (λ ps. map pair_view ps.items ≡ map (pair_changed (bound_to (bindings subst.now))) (map pair_view pairs.now.items)) }
{
    let mut made = Vec::with_capacity(alloc, pairs.len())?;
    for pair in pairs {
        made.push(changed_pair(alloc, subst, pair)?)?;
    }
    Ok(made)
}

/// The unequal pairs, changed.
///
/// # Errors
///
/// `AllocError` where memory is wanting.
#[tactic(auto, using(crate::proofs::Kept::pairs_kept))]
pub(crate) fn changed_pairs(
    alloc: Global,
    subst: &Subst,
    pairs: &Shared<Vec<UnequalPair>>,
) -> Result<Shared<Vec<UnequalPair>>, AllocError>
    ensures { IfOk result (λ ps. map pair_view ps.items ≡ map (pair_changed (bound_to (bindings subst.now))) (map pair_view pairs.now.items)) }
{
    if pairs_stay(subst, pairs) {
        let same = pairs.share()?;
        return Ok(same);
    }
    let made = each_pair_changed(alloc, subst, pairs)?;
    let shared = Shared::new(alloc, made)?;
    Ok(shared)
}

fn has_link(links: &[Link], link: Link) -> bool
    ensures { result ≡ has_link (map link_of links.now) (link_of link) }
{
    for other in links {
        if other.same_source(link) && other.same_premise(link) {
            return true;
        }
    }
    false
}

// Whether no two of the links are equal.
fn are_apart(links: &[Link]) -> bool
    ensures { result ≡ true → joined_links [] (map link_of links.now) ≡ map link_of links.now }
{
    for (position, link) in links.iter().enumerate() {
        if has_link(&links[..position], *link) {
            return false;
        }
    }
    true
}

// Links that become equal are one.
fn each_link_changed(
    alloc: Global,
    small: u128,
    large: u128,
    links: &Vec<Link>,
) -> Result<Vec<Link>, AllocError>
    ensures { IfOk result (λ ls. map link_of ls.items ≡ joined_links [] (map (link_changed (time_replaced small large)) (map link_of links.now.items))) }
{
    let mut made = Vec::with_capacity(alloc, links.len())?;
    for link in links {
        let link = link.changed(small, large);
        if !has_link(&made, link) {
            made.push(link)?;
        }
    }
    Ok(made)
}

/// The links, changed; those that become equal are one.
///
/// # Errors
///
/// `AllocError` where memory is wanting.
#[tactic(auto, using(crate::proofs::Kept::links_kept))]
pub(crate) fn changed_links(
    alloc: Global,
    small: u128,
    large: u128,
    links: &Shared<Vec<Link>>,
) -> Result<Shared<Vec<Link>>, AllocError>
    ensures { IfOk result (λ ls. map link_of ls.items ≡ joined_links [] (map (link_changed (time_replaced small large)) (map link_of links.now.items))) }
{
    if links_stay(small, large, links) && are_apart(links) {
        let same = links.share()?;
        return Ok(same);
    }
    let made = each_link_changed(alloc, small, large, links)?;
    let shared = Shared::new(alloc, made)?;
    Ok(shared)
}
