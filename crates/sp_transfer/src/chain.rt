// Along a chain: from each message to the next one, up the way of the destruction by which there is a link.

ghost use Rattle.std.specs.Prelude.{◌≡◌, ◌++◌, [], IfOk, OnOk, map, slice_get, unwrap_or};
ghost use Rattle.sp_spec.specs.Lists.{newest_first};
ghost use Rattle.sp_law_log_execution.specs.Executed as spec;
ghost use Rattle.sp_fact.specs.GroundView.{ground_of, step_of};
ghost use Rattle.sp_transfer.specs.Executing.{linking_in};

use crate::raising::raise;
use crate::way::Linking;
use sp_destruct::search::link;
use sp_fact::ground_term::GroundTerm;
use sp_fact::step::Step;
use std::alloc::{AllocError, Global};

// The messages at these places.
fn messages_at(
    alloc: Global,
    learnt: &Vec<GroundTerm>,
    places: &Vec<usize>,
) -> Result<Vec<GroundTerm>, AllocError>
    ensures { IfOk result (λ ms. map ground_of ms.items ≡ spec.messages_at (map ground_of learnt.now.items) places.now.items) }
{
    let mut found = Vec::with_capacity(alloc, places.len())?;
    for place in places {
        if let Some(message) = learnt.get(*place) {
            found.push(message.clone()?)?;
        }
    }
    Ok(found)
}

// Adds the steps up the way of the number, if there is one, beside these messages.
fn add_way(
    alloc: Global,
    linking: &Linking,
    number: usize,
    messages: &Vec<GroundTerm>,
    end: &GroundTerm,
    steps: &mut Vec<Step>,
) -> Result<(), AllocError>
    ensures { OnOk result (map step_of steps.new.items ≡ map step_of steps.old.items
        ++ newest_first (spec.raising (unwrap_or (slice_get (linking_in linking.now).ways number) []) (map ground_of messages.now.items) (ground_of end.now))) }
{
    if let Some(way) = linking.ways.get(number) {
        raise(alloc, way, messages, end, steps)?;
    }
    Ok(())
}

// Adds the steps from a message to the next one.
fn add_link(
    alloc: Global,
    linking: &Linking,
    learnt: &Vec<GroundTerm>,
    from: &GroundTerm,
    to: &GroundTerm,
    steps: &mut Vec<Step>,
) -> Result<(), AllocError>
    ensures { OnOk result (map step_of steps.new.items ≡ map step_of steps.old.items
        ++ newest_first (spec.link_steps (linking_in linking.now) (map ground_of learnt.now.items) (ground_of from.now) (ground_of to.now))) }
{
    if let Some(found) = link(alloc, &linking.destructions, learnt, from, to)? {
        let messages = messages_at(alloc, learnt, &found.places)?;
        add_way(alloc, linking, found.destruction, &messages, from, steps)?;
    }
    Ok(())
}

/// Adds the steps from a message through these.
pub fn add_chain(
    alloc: Global,
    linking: &Linking,
    learnt: &Vec<GroundTerm>,
    first: &GroundTerm,
    messages: &[GroundTerm],
    steps: &mut Vec<Step>,
) -> Result<(), AllocError>
    ensures { OnOk result (map step_of steps.new.items ≡ map step_of steps.old.items
        ++ newest_first (spec.chain_steps (linking_in linking.now) (map ground_of learnt.now.items) (ground_of first.now) (map ground_of messages.now))) }
{
    let mut from = first;
    for next in messages {
        add_link(alloc, linking, learnt, from, next, steps)?;
        from = next;
    }
    Ok(())
}
