// Events that use the Fr of a term come before those that have the term.

ghost use Rattle.std.specs.Prelude.{◌≡◌, IfOk, map, option_map, option_and_then};
ghost use Rattle.sp_spec.specs.Same.{is_part, is_part_of_one};
ghost use Rattle.sp_term.specs.View.{view, view_all};
ghost use Rattle.sp_fact.specs.View.{fact_of};
ghost use Rattle.sp_system.specs.SystemView.{event_of, system_of};
ghost use Rattle.sp_spec_graph.specs.Fresh.{fresh_terms};
ghost use Rattle.sp_spec_know.specs.FreshFirst as rows;
ghost use Rattle.sp_rows_graph.specs.FreshView.{fresh_one, missing_with};
ghost use Rattle.sp_spec_system.specs.Picked.{first_some};
ghost use Rattle.sp_system.specs.Reduced.{Reduced};

use crate::fresh::{fresh_term, own_name};
use sp_fact::fact::Fact;
use sp_learnings::premise::is_fresh;
use sp_order::order::Order;
use sp_system::event::{Event, What};
use sp_system::system::System;
use sp_term::term::{Term, same};
use std::alloc::{AllocError, Global};

// Whether the sought term stands in this one.
#[cycle(occurs)]
fn has_term(term: &Term, sought: &Term) -> bool
    ensures { result ≡ is_part (view sought.now) (view term.now) }
{
    match term {
        Term::App(_, terms, _) => same(sought, term) || have_term(terms, sought),
        _ => same(sought, term),
    }
}

#[cycle(occurs)]
fn have_term(terms: &Vec<Term>, sought: &Term) -> bool
    ensures { result ≡ is_part_of_one (view sought.now) (view_all terms.now.items) }
{
    for term in terms {
        if has_term(term, sought) {
            return true;
        }
    }
    false
}

// Whether the term stands in one of the premises that is no Fr.
fn has_taken(term: &Term, premises: &Vec<Fact>) -> bool
    ensures { result ≡ rows.has_taken (view term.now) (map fact_of premises.now.items) }
{
    for premise in premises {
        if !is_fresh(premise) && have_term(&premise.args, term) {
            return true;
        }
    }
    false
}

// Whether the event learns a message with the term.
fn has_learnt(term: &Term, event: &Event) -> bool
    ensures { result ≡ rows.has_learnt (view term.now) (event_of event.now).happening }
{
    match event.what() {
        What::Learn(message, _) => has_term(message, term),
        _ => false,
    }
}

// Whether the event takes the term, or learns it at another time.
fn comes_later(time: u128, term: &Term, event: &Event) -> bool
    ensures { result ≡ rows.comes_later time (view term.now) (event_of event.now) }
{
    has_taken(term, event.premises()) || has_learnt(term, event) && event.time != time
}

// Whether the event has the term later, and the time isn't before it; the order is asked first, as it goes down no term.
#[tactic(auto, using(crate::proofs::Sides::swapped))]
fn is_missing(order: &Order, time: u128, term: &Term, event: &Event) -> bool
    ensures { result ≡ rows.is_missing order.now time (view term.now) (event_of event.now) }
{
    match event.what() {
        What::Send(_) => false,
        _ => !order.before(time, event.time) && comes_later(time, term, event),
    }
}

// The pairs that put the time before each event that has the term later.
fn missing_pairs(
    alloc: Global,
    system: &System,
    time: u128,
    term: &Term,
) -> Result<Vec<(u128, u128)>, AllocError>
    ensures { IfOk result (λ ps. ps.items ≡ rows.missing_pairs (system_of system.now).order time (view term.now) (system_of system.now).events) }
{
    let mut made = Vec::new(alloc);
    for event in system.events.iter() {
        if is_missing(&system.order, time, term, event) {
            made.push((time, event.time))?;
        }
    }
    Ok(made)
}

// The same, if some are missing.
fn missing_for(
    alloc: Global,
    system: &System,
    time: u128,
    term: &Term,
) -> Result<Option<Vec<(u128, u128)>>, AllocError>
    ensures { IfOk result (λ o. option_map (λ ps. ps.items) o ≡ missing_with (system_of system.now) time (view term.now)) }
{
    let pairs = missing_pairs(alloc, system, time, term)?;
    if pairs.is_empty() {
        return Ok(None);
    }
    Ok(Some(pairs))
}

// The same for the Fr that the premise is, if it is one.
fn missing_for_premise(
    alloc: Global,
    system: &System,
    time: u128,
    premise: &Fact,
) -> Result<Option<Vec<(u128, u128)>>, AllocError>
    ensures { IfOk result (λ o. option_map (λ ps. ps.items) o ≡ option_and_then (missing_with (system_of system.now) time) (fresh_one (fact_of premise.now))) }
{
    let Some(term) = fresh_term(premise) else {
        return Ok(None);
    };
    let pairs = missing_for(alloc, system, time, term)?;
    Ok(pairs)
}

// The pairs that are missing for the first Fr of the premises for which some are.
#[tactic(auto, using(crate::proofs::FreshTerms::first_of_fact))]
fn missing_for_premises(
    alloc: Global,
    system: &System,
    time: u128,
    premises: &Vec<Fact>,
) -> Result<Option<Vec<(u128, u128)>>, AllocError>
    ensures { IfOk result (λ o. option_map (λ ps. ps.items) o
        ≡ first_some (missing_with (system_of system.now) time) (fresh_terms (map fact_of premises.now.items))) }
{
    for premise in premises {
        if let Some(pairs) = missing_for_premise(alloc, system, time, premise)? {
            return Ok(Some(pairs));
        }
    }
    Ok(None)
}

// The pairs that are missing for the first Fr of the event for which some are.
#[tactic(auto, using(crate::proofs::FreshTerms::missing_seen, crate::proofs::FreshTerms::first_alone))]
fn missing_behind(
    alloc: Global,
    system: &System,
    event: &Event,
) -> Result<Option<Vec<(u128, u128)>>, AllocError>
    ensures { IfOk result (λ o. option_map (λ ps. ps.items) o ≡ rows.missing_behind (system_of system.now) (event_of event.now)) }
{
    match own_name(event) {
        Some(name) => {
            let pairs = missing_for(alloc, system, event.time, name)?;
            Ok(pairs)
        }
        None => {
            let pairs = missing_for_premises(alloc, system, event.time, event.premises())?;
            Ok(pairs)
        }
    }
}

// The pairs that are missing for the first event for which some are.
fn first_missing(alloc: Global, system: &System) -> Result<Option<Vec<(u128, u128)>>, AllocError>
    ensures { IfOk result (λ o. option_map (λ ps. ps.items) o
        ≡ first_some (rows.missing_behind (system_of system.now)) (map event_of system.now.events.items)) }
{
    for event in system.events.iter() {
        if let Some(pairs) = missing_behind(alloc, system, event)? {
            return Ok(Some(pairs));
        }
    }
    Ok(None)
}

/// Puts the first event that uses an Fr before each event that has its term in another premise, or learns it; false if it is there already.
///
/// # Errors
///
/// `AllocError` where memory is wanting.
pub fn fresh_first(alloc: Global, system: &mut System) -> Result<bool, AllocError>
    ensures { IfOk result (λ b. Reduced b (system_of system.old) (system_of system.new) (rows.fresh_first (system_of system.old))) }
{
    let Some(pairs) = first_missing(alloc, system)? else {
        return Ok(false);
    };
    system.order.add_all(alloc, &pairs)?;
    Ok(true)
}
