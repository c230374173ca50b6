// The kinds of moves at events, on premises and on messages, and the first of their moves that is an instance.

ghost use Rattle.std.specs.Prelude.{◌≡◌, IfOk, is_some, map, option_map};
ghost use Rattle.sp_fact.specs.View.{fact_of};
ghost use Rattle.sp_spec_graph.specs.Premise as premise_spec;
ghost use Rattle.sp_spec_proof.specs.Choice.{first_instance};
ghost use Rattle.sp_spec_proof.specs.Kinds.{at_each_event, places_from, premises_of};
ghost use Rattle.sp_spec_system.specs.Move as spec;
ghost use Rattle.sp_spec_system.specs.Picked.{first_some};
ghost use Rattle.sp_step.specs.Events.{at_events, first_of, moves_of};
ghost use Rattle.sp_step.specs.View.{context_of, move_of};
ghost use Rattle.sp_system.specs.SystemView.{event_of, system_of};

use crate::context::Context;
use crate::learning::{LearningKind, first_at};
use sp_fact::fact::Fact;
use sp_moves::moves::Move;
use sp_moves_graph::premise::{Premise, open_premise};
use sp_system::event::Event;
use sp_system::system::System;
use std::alloc::{AllocError, Global};

/// A kind of moves at events.
#[derive(Clone, Copy)]
pub enum EventKind {
    /// on a premise
    Premise,
    /// on a message that is learnt
    Learning(LearningKind),
}

/// The kinds of moves at events, in the order in which they are asked.
pub const EVENT_KINDS: [EventKind; 5] = [
    EventKind::Learning(LearningKind::Chain),
    EventKind::Premise,
    EventKind::Learning(LearningKind::Fresh),
    EventKind::Learning(LearningKind::Application),
    EventKind::Learning(LearningKind::VariableChain),
];

fn is_open(system: &System, time: u128, place: usize) -> bool
    ensures { result ≡ is_some (premise_spec.open_premise (system_of system.now) time place) }
{
    open_premise(system, Premise { time, place }).is_some()
}

// On the first of the premises at the time whose source can be looked for.
fn first_among(system: &System, time: u128, premises: &Vec<Fact>) -> Option<Move>
    ensures { (context : spec.Context) → option_map move_of result
        ≡ first_instance context (system_of system.now) (map (spec.premise time) (places_from 0 (map fact_of premises.now.items))) }
{
    for (place, _premise) in premises.iter().enumerate() {
        if is_open(system, time, place) {
            return Some(Move::Premise(time, place as u128));
        }
    }
    None
}

fn first_premise(system: &System, event: &Event) -> Option<Move>
    ensures { (context : spec.Context) → option_map move_of result ≡ first_instance context (system_of system.now) (premises_of (event_of event.now)) }
{
    first_among(system, event.time, event.premises())
}

// The first of the kind's moves at the event that is an instance.
fn first_of_kind(
    alloc: Global,
    context: &Context,
    system: &System,
    event: &Event,
    kind: EventKind,
) -> Result<Option<Move>, AllocError>
    ensures { IfOk result (λ o. option_map move_of o
        ≡ first_of (context_of context.now) (system_of system.now) (event_of event.now) kind) }
{
    match kind {
        EventKind::Premise => Ok(first_premise(system, event)),
        EventKind::Learning(kind) => first_at(alloc, context, system, event, kind),
    }
}

// The first instance at the event of the first of these kinds that has one there.
fn first_at_event(
    alloc: Global,
    context: &Context,
    system: &System,
    event: &Event,
    kinds: &[EventKind],
) -> Result<Option<Move>, AllocError>
    ensures { IfOk result (λ o. option_map move_of o
        ≡ first_some (first_of (context_of context.now) (system_of system.now) (event_of event.now)) kinds.now) }
{
    for kind in kinds {
        if let Some(chosen) = first_of_kind(alloc, context, system, event, *kind)? {
            return Ok(Some(chosen));
        }
    }
    Ok(None)
}

/// The same at the first event that has one.
///
/// # Errors
///
/// `AllocError` where memory is wanting.
pub fn first_at_events(
    alloc: Global,
    context: &Context,
    system: &System,
    kinds: &[EventKind],
) -> Result<Option<Move>, AllocError>
    ensures { IfOk result (λ o. option_map move_of o
        ≡ first_instance (context_of context.now) (system_of system.now) (at_events kinds.now (system_of system.now).events)) }
{
    for event in system.events.iter() {
        if let Some(chosen) = first_at_event(alloc, context, system, event, kinds)? {
            return Ok(Some(chosen));
        }
    }
    Ok(None)
}

/// The first instance of the kind's moves.
///
/// # Errors
///
/// `AllocError` where memory is wanting.
pub fn first_of_one_kind(
    alloc: Global,
    context: &Context,
    system: &System,
    kind: EventKind,
) -> Result<Option<Move>, AllocError>
    ensures { IfOk result (λ o. option_map move_of o
        ≡ first_instance (context_of context.now) (system_of system.now) (at_each_event (moves_of kind) (context_of context.now) (system_of system.now))) }
{
    let chosen = first_at_events(alloc, context, system, &[kind])?;
    Ok(chosen)
}
