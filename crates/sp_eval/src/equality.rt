// Equalities of a guard, which give values.

ghost use Rattle.std.specs.Prelude.{◌≡◌, IfOk, map, option_map, option_to_list};
ghost use Rattle.sp_law_decide.specs.Deciding as deciding;
ghost use Rattle.sp_formula.specs.FormulaView.{atom_of, binder_of};
ghost use Rattle.sp_formula.specs.PlaceView.{placed_term};
ghost use Rattle.sp_term.specs.Bindings.{answer};
ghost use Rattle.sp_fact.specs.GroundView.{trace_of};
ghost use Rattle.sp_eval.specs.View.{messages_of, environment_of, environments_of};

use crate::environment::{Environment, Messages, entered};
use crate::matching::{add, by_actions};
use sp_fact::ground_fact::Trace;
use sp_formula::formula::{Atom, Binder};
use sp_formula::place::{FormulaTerm, Place};
use sp_term::apply::apply;
use sp_term::leaves::each_leaf;
use sp_term::matching::Binds;
use sp_term::term::Term;
use std::alloc::{AllocError, Global};

/// Gives the first term the value of the second, if it is a bound message and the second is known, and tells whether it may have it.
fn give(
    alloc: Global,
    target: &FormulaTerm,
    source: &FormulaTerm,
    messages: &mut Messages,
) -> Result<bool, AllocError>
    ensures { IfOk result (λ b. answer b (messages_of messages.new) ≡ deciding.given_to (placed_term target.now) (placed_term source.now) (messages_of messages.old)) }
{
    match target {
        Term::Var(Place::Bound(place)) => {
            if !each_leaf(messages, source) {
                return Ok(true);
            }
            let value = apply(alloc, messages, source)?;
            messages.bind(&Place::Bound(*place), &value)
        }
        _ => Ok(true),
    }
}

/// Gives the sides of an equality their values, and tells whether they may have them.
fn by_atom(alloc: Global, atom: &Atom, messages: &mut Messages) -> Result<bool, AllocError>
    ensures { IfOk result (λ b. answer b (messages_of messages.new) ≡ deciding.by_atom (atom_of atom.now) (messages_of messages.old)) }
{
    match atom {
        Atom::Same(left, right) => {
            if !give(alloc, left, right, messages)? {
                return Ok(false);
            }
            give(alloc, right, left, messages)
        }
        _ => Ok(true),
    }
}

/// The same of each equality of the guard, in their order.
fn by_equalities(
    alloc: Global,
    guard: &Vec<Atom>,
    messages: &mut Messages,
) -> Result<bool, AllocError>
    ensures { IfOk result (λ b. answer b (messages_of messages.new) ≡ deciding.by_equalities (map atom_of guard.now.items) (messages_of messages.old)) }
{
    for atom in guard {
        if !by_atom(alloc, atom, messages)? {
            return Ok(false);
        }
    }
    Ok(true)
}

/// The environment with what the equalities give, if they may.
fn completed(
    alloc: Global,
    guard: &Vec<Atom>,
    env: Environment,
) -> Result<Option<Environment>, AllocError>
    ensures { IfOk result (λ o. option_to_list (option_map environment_of o) ≡ deciding.with_times (environment_of env).times (deciding.by_equalities (map atom_of guard.now.items) (environment_of env).messages)) }
{
    let mut made = env;
    if by_equalities(alloc, guard, &mut made.messages)? {
        Ok(Some(made))
    } else {
        Ok(None)
    }
}

/// The environments with what the equalities give.
#[tactic(auto, using(crate::proofs::Traces::each_more))]
fn each_completed(
    alloc: Global,
    guard: &Vec<Atom>,
    envs: Vec<Environment>,
) -> Result<Vec<Environment>, AllocError>
    ensures { IfOk result (λ es. environments_of es.items ≡ deciding.each_by_equalities (map atom_of guard.now.items) (environments_of envs.items)) }
{
    let mut found = Vec::new(alloc);
    for env in envs {
        let one = completed(alloc, guard, env)?;
        add(&mut found, one)?;
    }
    Ok(found)
}

/// The environments that may make the guard true.
pub(crate) fn candidates(
    alloc: Global,
    trace: &Trace,
    binders: &Vec<Binder>,
    guard: &Vec<Atom>,
    env: &Environment,
) -> Result<Vec<Environment>, AllocError>
    ensures { IfOk result (λ es. environments_of es.items ≡ deciding.candidates (trace_of trace.now) (map binder_of binders.now.items) (map atom_of guard.now.items) (environment_of env.now)) }
{
    let inside = entered(alloc, binders, env)?;
    let acted = by_actions(alloc, trace, guard, inside)?;
    let found = each_completed(alloc, guard, acted)?;
    Ok(found)
}
