// The search for links: the side messages of a destruction among the messages learnt.

ghost use Rattle.std.specs.Prelude.{◌≡◌, IfOk, map, option_and_then, option_map};
ghost use Rattle.sp_law_equal.specs.Matching.{matched};
ghost use Rattle.sp_term.specs.View.{view, view_all};
ghost use Rattle.sp_fact.specs.GroundView.{ground_of};
ghost use Rattle.sp_norm.specs.Bounds.{bounds};
ghost use Rattle.sp_destruct.specs.View.{destruction_of};
ghost use Rattle.sp_destruct.specs.Links as spec;
ghost use Rattle.sp_destruct.specs.LinkView.{link_of};

use crate::destruction::Destruction;
use crate::link::Link;
use sp_fact::ground_term::GroundTerm;
use sp_term::matching::extend;
use sp_term::subst::Values;
use sp_term::term::Term;
use std::alloc::{AllocError, Global};

// The same bindings.
fn copied(alloc: Global, values: &Values) -> Result<Values, AllocError>
    ensures { IfOk result (λ v. bounds v ≡ bounds values.now) }
{
    let mut made = Values::new(alloc);
    for binding in &values.bindings {
        made.push(binding.variable, binding.term.clone()?)?;
    }
    Ok(made)
}

// The least places at which messages match the side messages, beside these bindings.
#[cycle(sides)]
fn sides_from(
    alloc: Global,
    sides: &[Term],
    learnt: &Vec<GroundTerm>,
    found: &Values,
) -> Result<Option<Vec<usize>>, AllocError>
    ensures { IfOk result (λ o. option_map (λ places. places.items) o
        ≡ spec.sides_from (view_all sides.now) (map ground_of learnt.now.items) (bounds found.now)) }
{
    let Some((side, others)) = sides.split_first() else {
        return Ok(Some(Vec::new(alloc)));
    };
    for (place, message) in learnt.iter().enumerate() {
        if let Some(mut places) = sides_after(alloc, side, message, others, learnt, found)? {
            places.insert(0, place)?;
            return Ok(Some(places));
        }
    }
    Ok(None)
}

// Those for the other side messages, where this message matches this one.
#[cycle(sides)]
fn sides_after(
    alloc: Global,
    side: &Term,
    message: &GroundTerm,
    others: &[Term],
    learnt: &Vec<GroundTerm>,
    found: &Values,
) -> Result<Option<Vec<usize>>, AllocError>
    ensures { IfOk result (λ o. option_map (λ places. places.items) o
        ≡ option_and_then (λ cs. spec.sides_from (view_all others.now) (map ground_of learnt.now.items) cs)
        (matched (view side.now) (ground_of message.now) (bounds found.now))) }
{
    let mut tried = copied(alloc, found)?;
    if !extend(side, message, &mut tried)? {
        return Ok(None);
    }
    sides_from(alloc, others, learnt, &tried)
}

/// The least places of messages learnt that are the side messages, if by the destruction the one message leads to the other.
///
/// # Errors
///
/// `AllocError` where memory is wanting.
pub fn link_by(
    alloc: Global,
    destruction: &Destruction,
    learnt: &Vec<GroundTerm>,
    from: &GroundTerm,
    to: &GroundTerm,
) -> Result<Option<Vec<usize>>, AllocError>
    ensures { IfOk result (λ o. option_map (λ places. places.items) o
        ≡ spec.link_by (destruction_of destruction.now) (map ground_of learnt.now.items) (ground_of from.now) (ground_of to.now)) }
{
    let mut found = Values::new(alloc);
    if !extend(&destruction.pattern, from, &mut found)? {
        return Ok(None);
    }
    if !extend(&destruction.result, to, &mut found)? {
        return Ok(None);
    }
    sides_from(alloc, &destruction.sides, learnt, &found)
}

/// The least of the destructions by which the one message leads to the other, and its least places, if there is one.
///
/// # Errors
///
/// `AllocError` where memory is wanting.
pub fn link(
    alloc: Global,
    destructions: &Vec<Destruction>,
    learnt: &Vec<GroundTerm>,
    from: &GroundTerm,
    to: &GroundTerm,
) -> Result<Option<Link>, AllocError>
    ensures { IfOk result (λ o. option_map link_of o
        ≡ spec.link (map destruction_of destructions.now.items) (map ground_of learnt.now.items) (ground_of from.now) (ground_of to.now)) }
{
    for (number, destruction) in destructions.iter().enumerate() {
        if let Some(places) = link_by(alloc, destruction, learnt, from, to)? {
            return Ok(Some(Link {
                destruction: number,
                places,
            }));
        }
    }
    Ok(None)
}
