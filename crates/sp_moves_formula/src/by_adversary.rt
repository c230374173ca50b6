// An action that the adversary does, at a new event.

ghost use Rattle.std.specs.Prelude.{◌≡◌, [], ◌∷◌, ◌++◌, IfOk, codes, map};
ghost use Rattle.sp_term.specs.View.{name_of, view, view_all};
ghost use Rattle.sp_spec_system.specs.System as system_spec;
ghost use Rattle.sp_system.specs.SystemView.{event_of, system_of};
ghost use Rattle.sp_spec_formula.specs.Action as spec;
ghost use Rattle.sp_moves.specs.View.{case_of};
ghost use Rattle.sp_moves_formula.specs.Sought.{by_message};

use sp_fact::fact::Action;
use sp_moves::moves::Case;
use sp_system::event::Event;
use sp_system::picked::only_term;
use sp_system::system::System;
use sp_system::way::Way;
use sp_term::term::{Name, Term};
use std::alloc::{AllocError, Global};

// The case of this name, in which the system has the event too.
fn with_event(alloc: Global, system: &System, name: &str, event: Event) -> Result<Case, AllocError>
    ensures { IfOk result (λ c. case_of c
        ≡ record { name = name.now; system = system_spec.with_events (system_of system.now) ((system_of system.now).events ++ event_of event ∷ []) }) }
{
    let mut made = system.clone()?;
    made.events.push(alloc, event)?;
    let name = String::from_str(alloc, name)?;
    Ok(Case { name, system: made })
}

fn sent(alloc: Global, system: &System, time: u128, message: &Term) -> Result<Case, AllocError>
    ensures { IfOk result (λ c. case_of c ≡ spec.done_there (codes "Send") (system_of system.now) time (system_spec.sending (view message.now))) }
{
    let event = Event::send(alloc, time, message.clone()?)?;
    let made = with_event(alloc, system, "Send", event)?;
    Ok(made)
}

fn learnt(alloc: Global, system: &System, time: u128, message: &Term) -> Result<Case, AllocError>
    ensures { IfOk result (λ c. case_of c ≡ spec.done_there (codes "Learn") (system_of system.now) time (system_spec.learning (view message.now) system_spec.anyhow)) }
{
    let event = Event::learn(alloc, time, message.clone()?, Way::Anyhow)?;
    let made = with_event(alloc, system, "Learn", event)?;
    Ok(made)
}

fn by_message(
    alloc: Global,
    system: &System,
    time: u128,
    symbol: &Name,
    message: &Term,
) -> Result<Vec<Case>, AllocError>
    ensures { IfOk result (λ cs. map case_of cs.items ≡ by_message (system_of system.now) time (name_of symbol.now) (view message.now)) }
{
    let mut made = Vec::new(alloc);
    if symbol.text.as_str() == "K" {
        made.push(sent(alloc, system, time, message)?)?;
    } else if symbol.text.as_str() == "KU" {
        made.push(learnt(alloc, system, time, message)?)?;
    }
    Ok(made)
}

/// The case in which the adversary does this at the time, if it may be the adversary's.
///
/// # Errors
///
/// `AllocError` where memory is wanting.
#[tactic(auto, using(crate::proofs::ByMessage::by_argument))]
pub fn by_adversary(
    alloc: Global,
    system: &System,
    time: u128,
    action: &Action,
) -> Result<Vec<Case>, AllocError>
    ensures { IfOk result (λ cs. map case_of cs.items ≡ spec.by_adversary (system_of system.now) time (name_of action.now.symbol) (view_all action.now.args.items)) }
{
    match only_term(&action.args) {
        Some(message) => by_message(alloc, system, time, &action.symbol, message),
        None => Ok(Vec::new(alloc)),
    }
}
