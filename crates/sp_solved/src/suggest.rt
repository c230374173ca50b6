// The log that a system suggests.

ghost use Rattle.std.specs.Prelude.{◌≡◌, ◌&&◌, not, IfOk, map, option_map};
ghost use Rattle.sp_spec.specs.Term.{valued};
ghost use Rattle.sp_spec.specs.Log as spec_log;
ghost use Rattle.sp_spec.specs.Rule.{facts_at};
ghost use Rattle.sp_term.specs.View.{name_of, view};
ghost use Rattle.sp_fact.specs.View.{fact_of, facts_of};
ghost use Rattle.sp_formula.specs.FormulaView.{formula_of};
ghost use Rattle.sp_law_equal.specs.Matching.{value_in};
ghost use Rattle.sp_fact.specs.GroundView.{ground_of};
ghost use Rattle.sp_norm.specs.Bounds.{bounds};
ghost use Rattle.sp_system.specs.SystemView.{event_of, link_of, system_of};
ghost use Rattle.sp_system.specs.WayView.{way_of, done_of};
ghost use Rattle.sp_log.specs.View as steps;
ghost use Rattle.sp_log.specs.View.{source_of};
ghost use Rattle.sp_learn.specs.View.{entries_of, entry_of, how_of};
ghost use Rattle.sp_solved.specs.ListingView.{events_of};
ghost use Rattle.sp_spec_solved.specs.Candidate as spec;

use crate::listing::in_order;
use crate::naming::named;
use sp_fact::fact::{Fact, Facts};
use sp_fact::ground_term::GroundTerm;
use sp_formula::formula::{Atom, Formula, Moment};
use sp_formula::shared::SharedFormula;
use sp_learn::log::{Entry, How, Log};
use sp_log::log::{Entry as StepEntry, Source};
use sp_norm::instance::{facts_value, value};
use sp_system::event::{Event, What};
use sp_system::system::{Link, System};
use sp_system::way::{Chain, Way};
use sp_term::subst::Values;
use sp_term::term::{Name, Sort, Term};
use std::alloc::{AllocError, Global};

/// Whether one of the events is at the time.
fn has_event(events: &Vec<Event>, time: u128) -> bool
    ensures { result ≡ spec.has_event (map event_of events.now.items) time }
{
    for event in events {
        if event.time == time {
            return true;
        }
    }
    false
}

/// Whether the time of the formula, if it says that an action happens, is that of an event.
fn has_place(events: &Vec<Event>, formula: &Formula) -> bool
    ensures { result ≡ spec.has_place (map event_of events.now.items) (formula_of formula.now) }
{
    match formula {
        Formula::Holds(Atom::Acts(_, Moment::Free(time))) => has_event(events, *time),
        _ => true,
    }
}

/// Whether each action among the formulas has an event at its time.
fn have_places(events: &Vec<Event>, formulas: &Vec<SharedFormula>) -> bool
    ensures { result ≡ spec.have_places (map event_of events.now.items) (map formula_of formulas.now.items) }
{
    for formula in formulas {
        if !has_place(events, formula) {
            return false;
        }
    }
    true
}

/// Whether the premise is an Fr, or the first link to it is from the time of an event.
fn is_sourced(
    events: &Vec<Event>,
    links: &Vec<Link>,
    time: u128,
    premise: usize,
    fact: &Fact,
) -> bool
    ensures { result ≡ spec.is_sourced (map event_of events.now.items) (map link_of links.now.items) time premise (fact_of fact.now) }
{
    if fact.symbol.text.as_str() == "Fr" && !fact.persistent {
        return true;
    }
    match first_link(links, time, premise) {
        Some(link) => has_event(events, link.from),
        None => false,
    }
}

/// Whether it is so with each of the premises of the event at the time.
fn are_sourced(events: &Vec<Event>, links: &Vec<Link>, time: u128, premises: &Vec<Fact>) -> bool
    ensures { result ≡ spec.are_sourced (map event_of events.now.items) (map link_of links.now.items) time 0 (map fact_of premises.now.items) }
{
    for (premise, fact) in premises.iter().enumerate() {
        if !is_sourced(events, links, time, premise, fact) {
            return false;
        }
    }
    true
}

/// Whether it is so with each premise of each event.
fn all_sourced(events: &Vec<Event>, links: &Vec<Link>) -> bool
    ensures { result ≡ spec.all_sourced (map event_of events.now.items) (map link_of links.now.items) (map event_of events.now.items) }
{
    for event in events {
        if !are_sourced(events, links, event.time, event.premises()) {
            return false;
        }
    }
    true
}

/// Whether the message is a public name, or a variable for which one may stand.
fn may_be_public(message: &Term) -> bool
    ensures { result ≡ spec.may_be_public (view message.now) }
{
    match message {
        Term::Var(variable) => variable.sort != Sort::Fresh,
        Term::Constant(_) => true,
        Term::FreshName(_) | Term::App(..) => false,
    }
}

/// Whether it is settled how the message is learnt.
fn is_settled_way(message: &Term, way: &Way) -> bool
    ensures { result ≡ spec.is_settled_way (view message.now) (way_of way.now) }
{
    match way {
        Way::Anyhow => may_be_public(message),
        Way::ChainBegun(_) => false,
        Way::PublicName | Way::OwnName | Way::Constructed | Way::ChainDone(_) => true,
    }
}

/// Whether it is settled how the event's message is learnt, if it learns one.
fn is_settled(event: &Event) -> bool
    ensures { result ≡ spec.is_settled (event_of event.now).happening }
{
    match event.what() {
        What::Rule(_) | What::Send(_) => true,
        What::Learn(message, way) => is_settled_way(message, way),
    }
}

/// Whether it is settled how each message is learnt.
fn are_settled(events: &Vec<Event>) -> bool
    ensures { result ≡ spec.are_settled (map event_of events.now.items) }
{
    for event in events {
        if !is_settled(event) {
            return false;
        }
    }
    true
}

/// Whether the system suggests a log. That premises have sources is asked early: most systems that are asked have an open one.
fn is_ready(system: &System) -> bool
    ensures { result ≡ spec.is_ready (system_of system.now) }
{
    are_settled(&system.events)
        && have_places(&system.events, &system.formulas)
        && all_sourced(&system.events, &system.links)
        && !system.order.has_cycle()
}

/// The place among the events of the first one at the time.
fn place_of(events: &Vec<&Event>, time: u128) -> Option<usize>
    ensures { result ≡ spec.place_of time (events_of events.now.items) }
{
    for (place, event) in events.iter().enumerate() {
        if event.time == time {
            return Some(place);
        }
    }
    None
}

/// The first link to the premise of this place at the time.
fn first_link(links: &Vec<Link>, time: u128, premise: usize) -> Option<Link>
    ensures { option_map link_of result ≡ spec.first_link (map link_of links.now.items) time premise }
{
    for link in links {
        if link.to == time && link.premise == premise {
            return Some(*link);
        }
    }
    None
}

/// The source that a link says of the premise: a conclusion of one of the listed events.
fn linked_source(
    listed: &Vec<&Event>,
    links: &Vec<Link>,
    time: u128,
    premise: usize,
) -> Option<Source>
    ensures { option_map source_of result ≡ spec.linked_source (events_of listed.now.items) (map link_of links.now.items) time premise }
{
    let link = first_link(links, time, premise)?;
    let place = place_of(listed, link.from)?;
    Some(Source::Conclusion(place, link.conclusion))
}

/// Where a premise comes from: the fresh rule for an Fr, and what its link says for any other.
fn source(
    listed: &Vec<&Event>,
    links: &Vec<Link>,
    time: u128,
    premise: usize,
    fact: &Fact,
) -> Option<Source>
    ensures { option_map source_of result ≡ spec.source_of (events_of listed.now.items) (map link_of links.now.items) time premise (fact_of fact.now) }
{
    if fact.symbol.text.as_str() == "Fr" && !fact.persistent {
        return Some(Source::FreshRule);
    }
    linked_source(listed, links, time, premise)
}

/// The sources of the premises of the event at the time, if each has one.
fn sources(
    alloc: Global,
    listed: &Vec<&Event>,
    links: &Vec<Link>,
    time: u128,
    premises: &Vec<Fact>,
) -> Result<Option<Vec<Source>>, AllocError>
    ensures { IfOk result (λ o. option_map (λ ss. map source_of ss.items) o
        ≡ spec.sources_from (events_of listed.now.items) (map link_of links.now.items) time 0 (map fact_of premises.now.items)) }
{
    let mut made = Vec::with_capacity(alloc, premises.len())?;
    for (premise, fact) in premises.iter().enumerate() {
        let Some(source) = source(listed, links, time, premise, fact) else {
            return Ok(None);
        };
        made.push(source)?;
    }
    Ok(Some(made))
}

/// The sources of the event's premises, if each has one.
fn event_sources(
    alloc: Global,
    listed: &Vec<&Event>,
    links: &Vec<Link>,
    event: &Event,
) -> Result<Option<Vec<Source>>, AllocError>
    ensures { IfOk result (λ o. option_map (λ ss. map source_of ss.items) o ≡ spec.event_sources (events_of listed.now.items) (map link_of links.now.items) (event_of event.now)) }
{
    let made = sources(alloc, listed, links, event.time, event.premises())?;
    Ok(made)
}

/// The position that the event at the time has among the listed ones, 0 where none has this time.
fn position_of(listed: &Vec<&Event>, time: u128) -> usize
    ensures { result ≡ spec.position_of (events_of listed.now.items) time }
{
    place_of(listed, time).unwrap_or(0)
}

/// The values of the messages.
fn messages_value(
    alloc: Global,
    values: &Values,
    messages: &Vec<Term>,
) -> Result<Vec<GroundTerm>, AllocError>
    ensures { IfOk result (λ ts. map ground_of ts.items ≡ map (valued (value_in (bounds values.now))) (map view messages.now.items)) }
{
    let mut made = Vec::with_capacity(alloc, messages.len())?;
    for message in messages {
        made.push(value(alloc, values, message)?)?;
    }
    Ok(made)
}

/// The chain with the values of its messages, from the position of its step.
fn by_chain(
    alloc: Global,
    listed: &Vec<&Event>,
    values: &Values,
    chain: &Chain,
) -> Result<How, AllocError>
    ensures { IfOk result (λ h. how_of h ≡ spec.how_at (events_of listed.now.items) (value_in (bounds values.now)) (done_of chain.now)) }
{
    let messages = messages_value(alloc, values, &chain.messages)?;
    Ok(How::Chain {
        step: position_of(listed, chain.time),
        conclusion: chain.conclusion,
        messages,
    })
}

/// The way of learning under these values.
fn how_learnt(
    alloc: Global,
    listed: &Vec<&Event>,
    values: &Values,
    way: &Way,
) -> Result<How, AllocError>
    ensures { IfOk result (λ h. how_of h ≡ spec.how_at (events_of listed.now.items) (value_in (bounds values.now)) (way_of way.now)) }
{
    match way {
        Way::Anyhow | Way::PublicName => Ok(How::PublicName),
        Way::OwnName => Ok(How::OwnName),
        Way::Constructed => Ok(How::Constructed),
        Way::ChainBegun(chain) => by_chain(alloc, listed, values, chain),
        Way::ChainDone(chain) => by_chain(alloc, listed, values, chain),
    }
}

/// The step of the rule under these values, with these sources.
fn step(
    alloc: Global,
    values: &Values,
    rule: &Name,
    facts: &Facts,
    sources: Vec<Source>,
) -> Result<StepEntry, AllocError>
    ensures { IfOk result (λ e. steps.entry_of e
        ≡ spec_log.step (name_of rule.now) (facts_at (value_in (bounds values.now)) (facts_of facts.now)) (map source_of sources.items)) }
{
    let rule = rule.clone()?;
    let facts = facts_value(alloc, values, facts)?;
    Ok(StepEntry {
        rule,
        facts,
        sources,
    })
}

/// The entry of what happens at the event under these values, with these sources of its premises.
fn entry(
    alloc: Global,
    listed: &Vec<&Event>,
    values: &Values,
    event: &Event,
    sources: Vec<Source>,
) -> Result<Entry, AllocError>
    ensures { IfOk result (λ e. entry_of e
        ≡ spec.entry_at (events_of listed.now.items) (value_in (bounds values.now)) (event_of event.now).happening (map source_of sources.items)) }
{
    match event.what() {
        What::Rule(rule) => {
            let step = step(alloc, values, rule, event.facts(), sources)?;
            Ok(Entry::Step(step))
        }
        What::Send(message) => {
            let message = value(alloc, values, message)?;
            Ok(Entry::Send(message))
        }
        What::Learn(message, way) => {
            let message = value(alloc, values, message)?;
            let how = how_learnt(alloc, listed, values, way)?;
            Ok(Entry::Learn(message, how))
        }
    }
}

/// The entries of the events, if each of their premises has a source.
fn entries(
    alloc: Global,
    constants: &Vec<Name>,
    links: &Vec<Link>,
    events: &Vec<&Event>,
) -> Result<Option<Vec<Entry>>, AllocError>
    ensures { IfOk result (λ o. option_map (λ es. map entry_of es.items) o ≡ spec.logged (map name_of constants.now.items) (map link_of links.now.items) (events_of events.now.items)) }
{
    let values = named(alloc, constants, events)?;
    let mut made = Vec::with_capacity(alloc, events.len())?;
    for event in events {
        let Some(sources) = event_sources(alloc, events, links, event)? else {
            return Ok(None);
        };
        made.push(entry(alloc, events, &values, event, sources)?)?;
    }
    Ok(Some(made))
}

/// The log that the system suggests, if it suggests one; its names aren't among the constants.
///
/// # Errors
///
/// `AllocError` where memory is wanting.
pub fn candidate(
    alloc: Global,
    constants: &Vec<Name>,
    system: &System,
) -> Result<Option<Log>, AllocError>
    ensures { IfOk result (λ o. option_map entries_of o ≡ spec.candidate (map name_of constants.now.items) (system_of system.now)) }
{
    if !is_ready(system) {
        return Ok(None);
    }
    let Some(events) = in_order(alloc, &system.order, &system.events)? else {
        return Ok(None);
    };
    let Some(entries) = entries(alloc, constants, &system.links, &events)? else {
        return Ok(None);
    };
    Ok(Some(Log { entries }))
}
