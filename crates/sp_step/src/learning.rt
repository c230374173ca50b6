// The moves on messages that are learnt.

ghost use Rattle.std.specs.Prelude.{◌≡◌, IfOk, option_map};
ghost use Rattle.sp_spec_proof.specs.Choice.{first_instance};
ghost use Rattle.sp_spec_proof.specs.Kinds.{passed_last};
ghost use Rattle.sp_term.specs.View.{view};
ghost use Rattle.sp_system.specs.SystemView.{event_of, system_of};
ghost use Rattle.sp_step.specs.View.{context_of, move_of};
ghost use Rattle.sp_step.specs.Learning.{listed, moves_at};

use crate::context::Context;
use sp_moves::moves::Move;
use sp_moves_know::apply::why_not;
use sp_moves_know::chain::begun_in;
use sp_moves_know::know::{is_message_variable, learnt_anyhow};
use sp_system::event::Event;
use sp_system::system::System;
use sp_term::term::{Sort, Term};
use std::alloc::{AllocError, Global};

/// A kind of moves on messages that are learnt.
#[derive(Clone, Copy)]
pub enum LearningKind {
    /// on a chain whose last message is no message variable
    Chain,
    /// on a fresh variable
    Fresh,
    /// on an application
    Application,
    /// on a chain whose last message is a message variable
    VariableChain,
}

// The last message of the chain that has begun at the event.
fn passed_last(event: &Event) -> Option<&Term>
    ensures { option_map (λ t. view t.now) result ≡ passed_last (event_of event.now).happening }
{
    match begun_in(event) {
        Some(begun) => Some(begun.last),
        None => None,
    }
}

// The kind's move at the event, if the message there is of the kind.
fn offered(event: &Event, kind: LearningKind) -> Option<Move>
    ensures { listed (option_map move_of result) ≡ moves_at kind (event_of event.now) }
{
    match kind {
        LearningKind::Chain => match passed_last(event) {
            Some(message) if !is_message_variable(message) => Some(Move::Chain(event.time)),
            _ => None,
        },
        LearningKind::Fresh => match learnt_anyhow(event) {
            Some(Term::Var(x)) if x.sort == Sort::Fresh => Some(Move::Know(event.time)),
            _ => None,
        },
        LearningKind::Application => match learnt_anyhow(event) {
            Some(Term::App(..)) => Some(Move::Know(event.time)),
            _ => None,
        },
        LearningKind::VariableChain => match passed_last(event) {
            Some(message) if is_message_variable(message) => Some(Move::Chain(event.time)),
            _ => None,
        },
    }
}

/// The kind's move at the event, if the message there is of the kind, and the move an instance.
///
/// # Errors
///
/// `AllocError` where memory is wanting.
pub fn first_at(
    alloc: Global,
    context: &Context,
    system: &System,
    event: &Event,
    kind: LearningKind,
) -> Result<Option<Move>, AllocError>
    ensures { IfOk result (λ o. option_map move_of o
        ≡ first_instance (context_of context.now) (system_of system.now) (moves_at kind (event_of event.now))) }
{
    let Some(chosen) = offered(event, kind) else {
        return Ok(None);
    };
    let clause = why_not(alloc, &context.sought.signature.symbols, system, &chosen)?;
    if clause.is_some() {
        return Ok(None);
    }
    Ok(Some(chosen))
}
