// The traces of learning logs.

ghost use Rattle.std.specs.Prelude.{◌≡◌, ◌∷◌, [], ◌++◌, IfOk, OnOk, map};
ghost use Rattle.sp_spec.specs.Log.{entry_actions, log_trace, visible_trace};
ghost use Rattle.sp_spec.specs.Rule.{learns, sends};
ghost use Rattle.sp_fact.specs.GroundView.{ground_action, ground_of, trace_of};
ghost use Rattle.sp_learn.specs.View.{entry_of, log_of};

use crate::log::{Entry, Log};
use sp_fact::fact::Action;
use sp_fact::ground_fact::{GroundAction, Trace};
use sp_fact::ground_term::GroundTerm;
use sp_term::term::Name;
use std::alloc::{AllocError, Global};

// The action of sending a message.
fn sending(alloc: Global, message: &GroundTerm) -> Result<GroundAction, AllocError>
    ensures { IfOk result (λ a. ground_action a ≡ sends (ground_of message.now)) }
{
    let symbol = Name::new(alloc, "K")?;
    let mut args = Vec::with_capacity(alloc, 1)?;
    args.push(message.clone()?)?;
    Ok(Action { symbol, args })
}

// The action of learning it.
fn learning(alloc: Global, message: &GroundTerm) -> Result<GroundAction, AllocError>
    ensures { IfOk result (λ a. ground_action a ≡ learns (ground_of message.now)) }
{
    let symbol = Name::new(alloc, "KU")?;
    let mut args = Vec::with_capacity(alloc, 1)?;
    args.push(message.clone()?)?;
    Ok(Action { symbol, args })
}

// The actions of an entry.
#[tactic(auto, using(sp_term::proofs::Cloned::cloned))]
fn actions_of(alloc: Global, entry: &Entry) -> Result<Vec<GroundAction>, AllocError>
    ensures { IfOk result (λ xs. map ground_action xs.items ≡ entry_actions (entry_of entry.now)) }
{
    match entry {
        Entry::Step(step) => {
            let actions = step.facts.actions.clone()?;
            Ok(actions)
        }
        Entry::Send(message) => {
            let mut actions = Vec::with_capacity(alloc, 1)?;
            actions.push(sending(alloc, message)?)?;
            Ok(actions)
        }
        Entry::Learn(message, _) => {
            let mut actions = Vec::with_capacity(alloc, 1)?;
            actions.push(learning(alloc, message)?)?;
            Ok(actions)
        }
    }
}

/// The trace of a log: the actions of each of its entries, even where there are none.
///
/// # Errors
///
/// `AllocError` where memory is wanting.
pub fn whole_trace(alloc: Global, log: &Log) -> Result<Trace, AllocError>
    ensures { IfOk result (λ t. trace_of t ≡ log_trace (log_of log.now)) }
{
    let mut entries = Vec::with_capacity(alloc, log.entries.len())?;
    for entry in &log.entries {
        entries.push(actions_of(alloc, entry)?)?;
    }
    Ok(Trace { entries })
}

// Adds what is shown of the entry.
fn show(
    alloc: Global,
    entry: &Entry,
    entries: &mut Vec<Vec<GroundAction>>,
) -> Result<(), AllocError>
    ensures { OnOk result (map (λ entry. map ground_action entry.items) entries.new.items
        ≡ map (λ entry. map ground_action entry.items) entries.old.items ++ visible_trace (entry_of entry.now ∷ [])) }
{
    match entry {
        Entry::Learn(_, _) => Ok(()),
        _ => {
            let actions = actions_of(alloc, entry)?;
            if !actions.is_empty() {
                entries.push(actions)?;
            }
            Ok(())
        }
    }
}

/// The visible trace of a log: the actions of its steps and sends, where they have some.
///
/// # Errors
///
/// `AllocError` where memory is wanting.
pub fn visible_trace(alloc: Global, log: &Log) -> Result<Trace, AllocError>
    ensures { IfOk result (λ t. trace_of t ≡ visible_trace (log_of log.now)) }
{
    let mut entries = Vec::new(alloc);
    for entry in &log.entries {
        show(alloc, entry, &mut entries)?;
    }
    Ok(Trace { entries })
}
