// What a premise In takes is sent before.

ghost use Rattle.std.specs.Prelude.{◌≡◌, IfOk, OnOk, map, option_map};
ghost use Rattle.sp_fact.specs.View.{fact_of};
ghost use Rattle.sp_system.specs.SystemView.{event_of, link_of, system_of};
ghost use Rattle.sp_system.specs.Reduced.{Reduced};
ghost use Rattle.sp_spec_know.specs.SendInput as rows;
ghost use Rattle.sp_spec_system.specs.Picked.{first_some};
ghost use Rattle.sp_rows_graph.specs.InputView.{input_of};

use sp_fact::fact::Fact;
use sp_learnings::learning::add_event;
use sp_learnings::premise::{is_linked, is_received};
use sp_system::event::Event;
use sp_system::picked::only_term;
use sp_system::system::{Link, System};
use sp_term::term::Term;
use std::alloc::{AllocError, Global};

/// A premise In, and its message.
#[derive(Drop)]
pub struct Input {
    /// the time of its event
    pub time: u128,
    /// its place there, from 0
    pub premise: usize,
    /// what it takes
    pub message: Term,
}

// The premise at the place, if it is an In without a link.
fn input_at(
    links: &Vec<Link>,
    time: u128,
    place: usize,
    fact: &Fact,
) -> Result<Option<Input>, AllocError>
    ensures { IfOk result (λ o. option_map input_of o ≡ rows.input_at (map link_of links.now.items) time place (fact_of fact.now)) }
{
    if !is_received(fact) || is_linked(links, time, place) {
        return Ok(None);
    }
    let Some(term) = only_term(&fact.args) else {
        return Ok(None);
    };
    let message = term.clone()?;
    Ok(Some(Input {
        time,
        premise: place,
        message,
    }))
}

// The first of the premises that is an In without a link.
fn first_input(
    links: &Vec<Link>,
    time: u128,
    premises: &Vec<Fact>,
) -> Result<Option<Input>, AllocError>
    ensures { IfOk result (λ o. option_map input_of o ≡ rows.input_from (map link_of links.now.items) time 0 (map fact_of premises.now.items)) }
{
    for (place, fact) in premises.iter().enumerate() {
        if let Some(input) = input_at(links, time, place, fact)? {
            return Ok(Some(input));
        }
    }
    Ok(None)
}

fn open_input(links: &Vec<Link>, event: &Event) -> Result<Option<Input>, AllocError>
    ensures { IfOk result (λ o. option_map input_of o ≡ rows.open_input (map link_of links.now.items) (event_of event.now)) }
{
    let input = first_input(links, event.time, event.premises())?;
    Ok(input)
}

// The first premise of all that is an In without a link.
fn first_open(system: &System) -> Result<Option<Input>, AllocError>
    ensures { IfOk result (λ o. option_map input_of o ≡ first_some (rows.open_input (system_of system.now).links) (system_of system.now).events) }
{
    for event in system.events.iter() {
        if let Some(input) = open_input(&system.links, event)? {
            return Ok(Some(input));
        }
    }
    Ok(None)
}

// The message is sent at the next number, before it is taken.
fn add_sending(alloc: Global, system: &mut System, input: Input) -> Result<(), AllocError>
    ensures { OnOk result (system_of system.new ≡ rows.with_sending (system_of system.old) (input_of input)) }
{
    let Input {
        time,
        premise,
        message,
    } = input;
    let from = system.next;
    let event = Event::send(alloc, from, message)?;
    let link = Link {
        from,
        conclusion: 0,
        to: time,
        premise,
    };
    system.links.push(alloc, link)?;
    system.order.add(alloc, from, time)?;
    add_event(alloc, system, event)?;
    Ok(())
}

/// Sends what the first premise takes that is an In without a link; false if there is none.
///
/// # Errors
///
/// `AllocError` where memory is wanting.
pub fn send_input(alloc: Global, system: &mut System) -> Result<bool, AllocError>
    ensures { IfOk result (λ b. Reduced b (system_of system.old) (system_of system.new) (rows.send_input (system_of system.old))) }
{
    let Some(input) = first_open(system)? else {
        return Ok(false);
    };
    add_sending(alloc, system, input)?;
    Ok(true)
}
