// Messages of which it is known in which way they are learnt.

ghost use Rattle.std.specs.Prelude.{◌≡◌, IfOk, OnOk, map, option_map};
ghost use Rattle.sp_term.specs.View.{view};
ghost use Rattle.sp_fact.specs.GroundView.{symbol_of};
ghost use Rattle.sp_system.specs.SystemView.{event_of, system_of};
ghost use Rattle.sp_system.specs.Reduced.{Reduced};
ghost use Rattle.sp_spec_know.specs.SettleLearn as rows;
ghost use Rattle.sp_spec_system.specs.Picked.{first_some};
ghost use Rattle.sp_learnings.specs.SettlingView.{settling_of};

use sp_fact::signature::Symbol;
use sp_learnings::learning::{learn_before, learn_by};
use sp_learnings::settling::{Settling, settling_at};
use sp_system::event::{Event, What};
use sp_system::system::System;
use sp_system::way::Way;
use sp_term::term::Term;
use std::alloc::{AllocError, Global};

// What is learnt anyhow at the event, if it is known in which way.
fn settled_event(
    alloc: Global,
    symbols: &Vec<Symbol>,
    event: &Event,
) -> Result<Option<Settling>, AllocError>
    ensures { IfOk result (λ o. option_map settling_of o ≡ rows.settled_event (map symbol_of symbols.now.items) (event_of event.now)) }
{
    match event.what() {
        What::Learn(message, Way::Anyhow) => settling_at(alloc, symbols, event.time, message),
        _ => Ok(None),
    }
}

fn first_settled(
    alloc: Global,
    symbols: &Vec<Symbol>,
    events: &Vec<Event>,
) -> Result<Option<Settling>, AllocError>
    ensures { IfOk result (λ o. option_map settling_of o ≡ first_some (rows.settled_event (map symbol_of symbols.now.items)) (map event_of events.now.items)) }
{
    for event in events {
        if let Some(found) = settled_event(alloc, symbols, event)? {
            return Ok(Some(found));
        }
    }
    Ok(None)
}

// The parts are learnt before the time, one after the other.
fn learn_each_before(
    alloc: Global,
    system: &mut System,
    time: u128,
    parts: &Vec<Term>,
) -> Result<(), AllocError>
    ensures { OnOk result (system_of system.new ≡ rows.each_learnt_before time (map view parts.now.items) (system_of system.old)) }
{
    for part in parts {
        learn_before(alloc, system, part, time)?;
    }
    Ok(())
}

fn settle(alloc: Global, system: &mut System, found: Settling) -> Result<(), AllocError>
    ensures { OnOk result (system_of system.new ≡ rows.with_settling (system_of system.old) (settling_of found)) }
{
    let Settling { time, way, parts } = found;
    learn_by(alloc, system, time, &way)?;
    learn_each_before(alloc, system, time, &parts)?;
    Ok(())
}

/// Settles in which way the first message is learnt of which this is known; false if there is none.
///
/// # Errors
///
/// `AllocError` where memory is wanting.
pub fn settle_learn(
    alloc: Global,
    symbols: &Vec<Symbol>,
    system: &mut System,
) -> Result<bool, AllocError>
    ensures { IfOk result (λ b. Reduced b (system_of system.old) (system_of system.new)
        (rows.settle_learn (map symbol_of symbols.now.items) (system_of system.old))) }
{
    let Some(found) = first_settled(alloc, symbols, &system.events)? else {
        return Ok(false);
    };
    settle(alloc, system, found)?;
    Ok(true)
}
