// What makes two happenings one.

ghost use Rattle.std.specs.Prelude.{◌≡◌, ◌∷◌, [], IfOk, length, map, nat_lt, option_map};
ghost use Rattle.sp_term.specs.View.{view};
ghost use Rattle.sp_fact.specs.View.{facts_of};
ghost use Rattle.sp_spec_system.specs.Equating as equating;
ghost use Rattle.sp_system.specs.WayView.{begun_of, done_of, way_of};
ghost use Rattle.sp_unify.specs.View.{pair_view};
ghost use Rattle.sp_system.specs.SystemView.{event_of};
ghost use Rattle.sp_merge.specs.MergingView.{merging_of, facts_merging};

use crate::pairing::{action_pairs, fact_pairs};
use sp_fact::fact::Facts;
use sp_system::event::{Event, What};
use sp_system::way::{Chain, Way};
use sp_term::term::{Term, copied};
use std::alloc::{AllocError, Global};

/// What makes two happenings one.
#[derive(Drop)]
pub struct Merging {
    /// the pairs of terms that have to be the same
    pub pairs: Vec<(Term, Term)>,
    /// the pairs of times that have to be one
    pub times: Vec<(u128, u128)>,
    /// how what then happens is learnt, where something is
    pub way: Way,
}

// The pairs that make the facts of two steps the same.
fn step_pairs(
    alloc: Global,
    left: &Facts,
    right: &Facts,
) -> Result<Option<Vec<(Term, Term)>>, AllocError>
    ensures { IfOk result (λ o. option_map (λ ps. map pair_view ps.items) o ≡ facts_merging (facts_of left.now) (facts_of right.now)) }
{
    let Some(mut made) = fact_pairs(alloc, &left.premises, &right.premises)? else {
        return Ok(None);
    };
    let Some(mut actions) = action_pairs(alloc, &left.actions, &right.actions)? else {
        return Ok(None);
    };
    let Some(mut conclusions) = fact_pairs(alloc, &left.conclusions, &right.conclusions)? else {
        return Ok(None);
    };
    made.append(&mut actions)?;
    made.append(&mut conclusions)?;
    Ok(Some(made))
}

// The messages that two chains both have.
fn common_pairs(
    alloc: Global,
    left: &Vec<Term>,
    right: &Vec<Term>,
) -> Result<Vec<(Term, Term)>, AllocError>
    ensures { IfOk result (λ ps. map pair_view ps.items ≡ equating.common_pairs (map view left.now.items) (map view right.now.items)) }
{
    let mut made = Vec::new(alloc);
    for (t, u) in left.iter().zip(right) {
        let first = t.clone()?;
        let second = u.clone()?;
        made.push((first, second))?;
    }
    Ok(made)
}

// Nothing has to be the same, and what happens is learnt in this way.
fn same_way(alloc: Global, way: &Way) -> Result<Option<Merging>, AllocError>
    ensures { IfOk result (λ o. option_map merging_of o ≡ equating.same_way (way_of way.now)) }
{
    let way = way.clone()?;
    Ok(Some(Merging {
        pairs: Vec::new(alloc),
        times: Vec::new(alloc),
        way,
    }))
}

// Two chains are one, if they fit, in that their steps are and what both have.
fn chains_merging(
    alloc: Global,
    fits: bool,
    left: &Chain,
    right: &Chain,
    way: Way,
) -> Result<Option<Merging>, AllocError>
    ensures { IfOk result (λ o. option_map merging_of o ≡ equating.chains_merging fits (left.now.time, right.now.time)
        (map view left.now.messages.items) (map view right.now.messages.items) (way_of way)) }
{
    if !fits {
        return Ok(None);
    }
    let pairs = common_pairs(alloc, &left.messages, &right.messages)?;
    let mut times = Vec::with_capacity(alloc, 1)?;
    times.push((left.time, right.time))?;
    Ok(Some(Merging { pairs, times, way }))
}

// Whether the left chain has more messages than the right one.
fn is_longer(left: &Chain, right: &Chain) -> bool
    ensures { result ≡ nat_lt (length (map view right.now.messages.items)) (length (map view left.now.messages.items)) }
{
    right.messages.len() < left.messages.len()
}

// The messages of the longer chain.
fn longer<'a>(left: &'a Chain, right: &'a Chain) -> &'a Vec<Term>
    ensures { map view result.now.items ≡ equating.longer (map view left.now.messages.items) (map view right.now.messages.items) }
{
    if is_longer(right, left) {
        &right.messages
    } else {
        &left.messages
    }
}

// Two beginnings: the longer one stays.
fn both_begun(alloc: Global, left: &Chain, right: &Chain) -> Result<Option<Merging>, AllocError>
    ensures { IfOk result (λ o. option_map merging_of o ≡ equating.ways_merging (begun_of left.now) (begun_of right.now)) }
{
    let fits = left.conclusion == right.conclusion;
    let messages = copied(longer(left, right))?;
    let way = Way::ChainBegun(Chain {
        time: left.time,
        conclusion: left.conclusion,
        messages,
    });
    chains_merging(alloc, fits, left, right, way)
}

// A beginning and a chain that is done, which is no shorter, and stays.
fn begun_and_done(alloc: Global, left: &Chain, right: &Chain) -> Result<Option<Merging>, AllocError>
    ensures { IfOk result (λ o. option_map merging_of o ≡ equating.ways_merging (begun_of left.now) (done_of right.now)) }
{
    let fits = left.conclusion == right.conclusion && !is_longer(left, right);
    let done = right.clone()?;
    chains_merging(alloc, fits, left, right, Way::ChainDone(done))
}

// The same, with the chain that is done on the left.
fn done_and_begun(alloc: Global, left: &Chain, right: &Chain) -> Result<Option<Merging>, AllocError>
    ensures { IfOk result (λ o. option_map merging_of o ≡ equating.ways_merging (done_of left.now) (begun_of right.now)) }
{
    let fits = left.conclusion == right.conclusion && !is_longer(right, left);
    let done = left.clone()?;
    chains_merging(alloc, fits, left, right, Way::ChainDone(done))
}

// Two chains that are done have as many messages.
fn both_done(alloc: Global, left: &Chain, right: &Chain) -> Result<Option<Merging>, AllocError>
    ensures { IfOk result (λ o. option_map merging_of o ≡ equating.ways_merging (done_of left.now) (done_of right.now)) }
{
    let fits = left.conclusion == right.conclusion && left.messages.len() == right.messages.len();
    let done = left.clone()?;
    chains_merging(alloc, fits, left, right, Way::ChainDone(done))
}

/// What makes two ways of learning one, if they can be.
///
/// # Errors
///
/// `AllocError` where memory is wanting.
pub fn ways_merging(alloc: Global, left: &Way, right: &Way) -> Result<Option<Merging>, AllocError>
    ensures { IfOk result (λ o. option_map merging_of o ≡ equating.ways_merging (way_of left.now) (way_of right.now)) }
{
    match (left, right) {
        (Way::Anyhow, way) => same_way(alloc, way),
        (way, Way::Anyhow) => same_way(alloc, way),
        (Way::PublicName, Way::PublicName) => same_way(alloc, left),
        (Way::OwnName, Way::OwnName) => same_way(alloc, left),
        (Way::Constructed, Way::Constructed) => same_way(alloc, left),
        (Way::ChainBegun(chain), Way::ChainBegun(other)) => both_begun(alloc, chain, other),
        (Way::ChainBegun(chain), Way::ChainDone(other)) => begun_and_done(alloc, chain, other),
        (Way::ChainDone(chain), Way::ChainBegun(other)) => done_and_begun(alloc, chain, other),
        (Way::ChainDone(chain), Way::ChainDone(other)) => both_done(alloc, chain, other),
        _ => Ok(None),
    }
}

// Nothing is learnt, and these pairs have to be the same.
fn of_pairs(alloc: Global, pairs: Vec<(Term, Term)>) -> Merging
    ensures { merging_of result ≡ equating.of_pairs (map pair_view pairs.items) }
{
    Merging {
        pairs,
        times: Vec::new(alloc),
        way: Way::Anyhow,
    }
}

fn one_pair(alloc: Global, left: &Term, right: &Term) -> Result<Vec<(Term, Term)>, AllocError>
    ensures { IfOk result (λ ps. map pair_view ps.items ≡ (view left.now, view right.now) ∷ []) }
{
    let left = left.clone()?;
    let right = right.clone()?;
    let mut made = Vec::with_capacity(alloc, 1)?;
    made.push((left, right))?;
    Ok(made)
}

// Two messages have to be the same too.
fn with_pair(
    alloc: Global,
    left: &Term,
    right: &Term,
    mut found: Merging,
) -> Result<Merging, AllocError>
    ensures { IfOk result (λ m. merging_of m ≡ equating.with_pair (view left.now, view right.now) (merging_of found)) }
{
    let mut pairs = one_pair(alloc, left, right)?;
    pairs.append(&mut found.pairs)?;
    Ok(Merging {
        pairs,
        times: found.times,
        way: found.way,
    })
}

// What makes two steps of one rule one.
fn steps_merging(alloc: Global, left: &Facts, right: &Facts) -> Result<Option<Merging>, AllocError>
    ensures { IfOk result (λ o. option_map merging_of o ≡ option_map equating.of_pairs (facts_merging (facts_of left.now) (facts_of right.now))) }
{
    let Some(pairs) = step_pairs(alloc, left, right)? else {
        return Ok(None);
    };
    Ok(Some(of_pairs(alloc, pairs)))
}

/// What makes what happens at two events one, if it can be.
///
/// # Errors
///
/// `AllocError` where memory is wanting.
pub fn happenings_merging(
    alloc: Global,
    left: &Event,
    right: &Event,
) -> Result<Option<Merging>, AllocError>
    ensures { IfOk result (λ o. option_map merging_of o ≡ equating.merging (event_of left.now).happening (event_of right.now).happening) }
{
    match (left.what(), right.what()) {
        (What::Rule(rule), What::Rule(other)) => {
            if *rule == *other {
                steps_merging(alloc, left.facts(), right.facts())
            } else {
                Ok(None)
            }
        }
        (What::Send(message), What::Send(other)) => {
            let pairs = one_pair(alloc, message, other)?;
            Ok(Some(of_pairs(alloc, pairs)))
        }
        (What::Learn(message, way), What::Learn(other, by)) => {
            let Some(found) = ways_merging(alloc, way, by)? else {
                return Ok(None);
            };
            let found = with_pair(alloc, message, other, found)?;
            Ok(Some(found))
        }
        _ => Ok(None),
    }
}
