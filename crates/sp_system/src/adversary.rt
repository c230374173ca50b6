// The facts of what the adversary does.

ghost use Rattle.std.specs.Prelude.{◌≡◌, [], ◌∷◌, IfOk, map};
ghost use Rattle.sp_spec.specs.Term.{none, more};
ghost use Rattle.sp_spec.specs.Rule.{in_of};
ghost use Rattle.sp_term.specs.View.{view};
ghost use Rattle.sp_fact.specs.View.{action_of, fact_of, facts_of};
ghost use Rattle.sp_spec_system.specs.System as system_spec;
ghost use Rattle.sp_system.specs.EventFacts.{action_on};

use sp_fact::fact::{Action, Fact, Facts};
use sp_term::term::{Name, Term};
use std::alloc::{AllocError, Global};

fn only(alloc: Global, message: &Term) -> Result<Vec<Term>, AllocError>
    ensures { IfOk result (λ ts. map view ts.items ≡ view message.now ∷ []) }
{
    let mut args = Vec::with_capacity(alloc, 1)?;
    args.push(message.clone()?)?;
    Ok(args)
}

fn one_action(alloc: Global, symbol: &str, message: &Term) -> Result<Vec<Action>, AllocError>
    ensures { IfOk result (λ xs. map action_of xs.items ≡ action_on symbol.now (view message.now) ∷ []) }
{
    let symbol = Name::new(alloc, symbol)?;
    let args = only(alloc, message)?;
    let mut made = Vec::with_capacity(alloc, 1)?;
    made.push(Action { symbol, args })?;
    Ok(made)
}

fn one_input(alloc: Global, message: &Term) -> Result<Vec<Fact>, AllocError>
    ensures { IfOk result (λ fs. map fact_of fs.items ≡ in_of (view message.now) ∷ []) }
{
    let symbol = Name::new(alloc, "In")?;
    let args = only(alloc, message)?;
    let mut made = Vec::with_capacity(alloc, 1)?;
    made.push(Fact {
        symbol,
        persistent: false,
        args,
    })?;
    Ok(made)
}

/// The facts of sending the message.
///
/// # Errors
///
/// `AllocError` where memory is wanting.
pub(crate) fn sending_facts(alloc: Global, message: &Term) -> Result<Facts, AllocError>
    ensures { IfOk result (λ f. facts_of f ≡ system_spec.happening_facts (system_spec.sending (view message.now))) }
{
    let actions = one_action(alloc, "K", message)?;
    let conclusions = one_input(alloc, message)?;
    Ok(Facts {
        premises: Vec::new(alloc),
        actions,
        conclusions,
    })
}

/// The facts of learning the message.
///
/// # Errors
///
/// `AllocError` where memory is wanting.
pub(crate) fn learning_facts(alloc: Global, message: &Term) -> Result<Facts, AllocError>
    ensures { IfOk result (λ f. facts_of f ≡ system_spec.happening_facts (system_spec.learning (view message.now) system_spec.anyhow)) }
{
    let actions = one_action(alloc, "KU", message)?;
    Ok(Facts {
        premises: Vec::new(alloc),
        actions,
        conclusions: Vec::new(alloc),
    })
}
