// How a chain goes on.

ghost use Rattle.std.specs.Prelude.{◌≡◌, ◌+◌, [], ◌∷◌, ◌++◌, IfOk, codes, decimal, map, option_map, string_bytes};
ghost use Rattle.sp_spec.specs.Term.{app};
ghost use Rattle.sp_spec.specs.Destruction.{destructions};
ghost use Rattle.sp_spec.specs.Unifier as unifying;
ghost use Rattle.sp_term.specs.Bindings.{bindings};
ghost use Rattle.sp_term.specs.View.{name_of, view, view_all};
ghost use Rattle.sp_fact.specs.GroundView.{signature_of};
ghost use Rattle.sp_destruct.specs.View.{destruction_of};
ghost use Rattle.sp_spec_system.specs.System as system_spec;
ghost use Rattle.sp_spec_system.specs.Cases as cases;
ghost use Rattle.sp_system.specs.SystemView.{event_of, system_of};
ghost use Rattle.sp_system.specs.WayView as ways;
ghost use Rattle.sp_spec_know.specs.Know.{with_way};
ghost use Rattle.sp_spec_know.specs.Chain as spec;
ghost use Rattle.sp_moves.specs.View.{case_of};
ghost use Rattle.sp_moves_know.specs.BegunView.{begun_of};
ghost use Rattle.sp_moves_know.specs.Linking.{by_destruction, with_longer};

use crate::know::{with_learnings, with_way};
use crate::link::{ChainLink, new_link};
use sp_destruct::destruction::{Destruction, chains_of};
use sp_fact::signature::Signature;
use sp_moves::moves::Case;
use sp_system::at_time::event_at;
use sp_system::event::{Event, What};
use sp_system::system::System;
use sp_system::way::{Chain, Way};
use sp_term::subst::Subst;
use sp_term::term::{Name, Sort, Term};
use sp_unify::unify::mgu;
use std::alloc::{AllocError, Global};

/// A chain that has begun.
#[derive(Clone, Copy)]
pub struct Begun<'a> {
    /// what is learnt by it
    pub message: &'a Term,
    /// where it begins, and what it has passed
    pub chain: &'a Chain,
    /// the last message that it has passed
    pub last: &'a Term,
}

// The chain by which the message is learnt, if it has passed a message.
#[tactic(auto, using(crate::proofs::Begun::begun_there, crate::proofs::Begun::not_begun))]
fn begun_by<'a>(message: &'a Term, chain: &'a Chain) -> Option<Begun<'a>>
    ensures { option_map begun_of result ≡ spec.begun (system_spec.learning (view message.now) (ways.begun_of chain.now)) }
{
    match chain.messages.last() {
        Some(last) => Some(Begun {
            message,
            chain,
            last,
        }),
        None => None,
    }
}

/// The chain that has begun at the event, if it has passed a message.
pub fn begun_in(event: &Event) -> Option<Begun<'_>>
    ensures { option_map begun_of result ≡ spec.begun (event_of event.now).happening }
{
    match event.what() {
        What::Learn(message, Way::ChainBegun(chain)) => begun_by(message, chain),
        _ => None,
    }
}

fn begun_at(system: &System, time: u128) -> Option<Begun<'_>>
    ensures { option_map begun_of result ≡ spec.begun_at (system_of system.now) time }
{
    match event_at(time, &system.events) {
        Some(event) => begun_in(event),
        None => None,
    }
}

// What makes the terms the same, if they have a unifier.
fn unifier(alloc: Global, left: &Term, right: &Term) -> Result<Option<Subst>, AllocError>
    ensures { IfOk result (λ o. option_map bindings o ≡ unifying.mgu ((view left.now, view right.now) ∷ [])) }
{
    let mut pairs = Vec::new(alloc);
    pairs.push((left.clone()?, right.clone()?))?;
    let subst = mgu(alloc, &pairs)?;
    Ok(subst)
}

// Whether the symbol over these arguments is a pair.
#[tactic(auto, using(crate::proofs::Ends::pair_of_two, crate::proofs::Ends::not_two))]
fn is_pair(symbol: &Name, args: &Vec<Term>) -> bool
    ensures { result ≡ spec.is_no_end (app (name_of symbol.now) (view_all args.now.items)) }
{
    args.len() == 2 && symbol.text.as_str() == "pair"
}

// Whether no chain leads to the message.
fn is_no_end(message: &Term) -> bool
    ensures { result ≡ spec.is_no_end (view message.now) }
{
    match message {
        Term::Var(variable) => matches!(variable.sort, Sort::Pub),
        Term::Constant(_) => true,
        Term::FreshName(_) => false,
        Term::App(symbol, args, _) => is_pair(symbol, args),
    }
}

// The system in which the chain is done, if its last message may be the one that is learnt.
fn done(
    alloc: Global,
    system: &System,
    time: u128,
    begun: &Begun<'_>,
) -> Result<Option<System>, AllocError>
    ensures { IfOk result (λ o. option_map system_of o ≡ spec.with_same
        (with_way (system_of system.now) time (ways.done_of begun.now.chain.now))
        (view begun.now.last.now) (view begun.now.message.now)) }
{
    let Some(subst) = unifier(alloc, begun.last, begun.message)? else {
        return Ok(None);
    };
    let way = Way::ChainDone(begun.chain.clone()?);
    let ended = with_way(alloc, system, time, &way)?;
    let made = ended.with_terms(alloc, &subst)?;
    Ok(Some(made))
}

// The system as a case of this name, if there is one.
fn case_if(alloc: Global, name: String, system: Option<System>) -> Result<Vec<Case>, AllocError>
    ensures { IfOk result (λ cs. map case_of cs.items ≡ cases.case_if (string_bytes name) (option_map system_of system)) }
{
    let mut made = Vec::new(alloc);
    if let Some(system) = system {
        made.push(Case { name, system })?;
    }
    Ok(made)
}

// The case in which the chain is done, if it can be.
fn done_case(
    alloc: Global,
    system: &System,
    time: u128,
    begun: &Begun<'_>,
) -> Result<Vec<Case>, AllocError>
    ensures { IfOk result (λ cs. map case_of cs.items ≡ spec.done_case (system_of system.now) time (begun_of begun.now)) }
{
    if is_no_end(begun.last) {
        return Ok(Vec::new(alloc));
    }
    let name = String::from_str(alloc, "done")?;
    let system = done(alloc, system, time, begun)?;
    case_if(alloc, name, system)
}

// The chain, begun with one message more.
fn longer(chain: &Chain, message: &Term) -> Result<Way, AllocError>
    ensures { IfOk result (λ w. ways.way_of w
        ≡ system_spec.chain_begun chain.now.time chain.now.conclusion (map view chain.now.messages.items ++ view message.now ∷ [])) }
{
    let mut made = chain.clone()?;
    made.messages.push(message.clone()?)?;
    Ok(Way::ChainBegun(made))
}

// The system in which the chain has the link too, whose side messages are learnt before.
fn with_link(
    alloc: Global,
    system: &System,
    time: u128,
    chain: &Chain,
    link: &ChainLink,
) -> Result<System, AllocError>
    ensures { IfOk result (λ s. system_of s ≡ with_longer (system_of system.now) time chain.now.time chain.now.conclusion (map view chain.now.messages.items)
        (view_all link.now.sides.items) (view link.now.message) link.now.next) }
{
    let way = longer(chain, &link.message)?;
    let mut made = with_way(alloc, system, time, &way)?;
    made.next = link.next;
    with_learnings(alloc, &mut made, time, &link.sides)?;
    Ok(made)
}

// The system in which the chain goes on by the destruction, if its last message may be what is destructed.
fn by_destruction(
    alloc: Global,
    system: &System,
    time: u128,
    begun: &Begun<'_>,
    destruction: &Destruction,
) -> Result<Option<System>, AllocError>
    ensures { IfOk result (λ o. option_map system_of o
        ≡ by_destruction (system_of system.now) time (begun_of begun.now) (destruction_of destruction.now)) }
{
    let link = new_link(alloc, system.next, destruction)?;
    let Some(subst) = unifier(alloc, begun.last, &link.pattern)? else {
        return Ok(None);
    };
    let linked = with_link(alloc, system, time, begun.chain, &link)?;
    let made = linked.with_terms(alloc, &subst)?;
    Ok(Some(made))
}

fn link_name(alloc: Global, number: usize) -> Result<String, AllocError>
    ensures { IfOk result (λ n. string_bytes n ≡ codes "chain_" ++ decimal number) }
{
    let name = format!(in alloc; "chain_{number}")?;
    Ok(name)
}

// The case of this number, in which the chain goes on by the destruction, if it can.
fn link_case(
    alloc: Global,
    system: &System,
    time: u128,
    begun: &Begun<'_>,
    number: usize,
    destruction: &Destruction,
) -> Result<Vec<Case>, AllocError>
    ensures { IfOk result (λ cs. map case_of cs.items ≡ cases.case_if (codes "chain_" ++ decimal number)
        (by_destruction (system_of system.now) time (begun_of begun.now) (destruction_of destruction.now))) }
{
    let name = link_name(alloc, number)?;
    let system = by_destruction(alloc, system, time, begun, destruction)?;
    case_if(alloc, name, system)
}

// A case for each of the destructions, numbered from 1, by which the chain may go on.
fn by_destructions(
    alloc: Global,
    system: &System,
    time: u128,
    begun: &Begun<'_>,
    destructions: &Vec<Destruction>,
) -> Result<Vec<Case>, AllocError>
    ensures { IfOk result (λ cs. map case_of cs.items
        ≡ spec.by_destructions (system_of system.now) time (begun_of begun.now) 1 (map destruction_of destructions.now.items)) }
{
    let mut made = Vec::new(alloc);
    for (place, destruction) in destructions.iter().enumerate() {
        let mut cases = link_case(alloc, system, time, begun, place + 1, destruction)?;
        made.append(&mut cases)?;
    }
    Ok(made)
}

/// The ways in which the chain may go on that has begun at the time, before they are simplified: it is done with what it passed last, or goes on by a
/// destruction of the equations; none where no chain has begun there.
///
/// # Errors
///
/// `AllocError` where memory is wanting, or no number is left.
pub fn chain_cases(
    alloc: Global,
    signature: &Signature,
    system: &System,
    time: u128,
) -> Result<Option<Vec<Case>>, AllocError>
    ensures { IfOk result (λ o. option_map (λ cs. map case_of cs.items) o
        ≡ spec.chain_cases (destructions (signature_of signature.now)) (system_of system.now) time) }
{
    let Some(begun) = begun_at(system, time) else {
        return Ok(None);
    };
    let destructions = chains_of(alloc, signature)?;
    let mut made = done_case(alloc, system, time, &begun)?;
    let mut linked = by_destructions(alloc, system, time, &begun, &destructions)?;
    made.append(&mut linked)?;
    Ok(Some(made))
}
