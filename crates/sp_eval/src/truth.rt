// The truth of formulas.

ghost use Rattle.std.specs.Prelude.{◌≡◌, IfOk, map};
ghost use Rattle.sp_law_decide.specs.Deciding as deciding;
ghost use Rattle.sp_law_decide.specs.Deciding.{decided, empty};
ghost use Rattle.sp_law_decide.specs.Laws.{TellsTruth};
ghost use Rattle.sp_spec.specs.Guarded.{guardeds_of};
ghost use Rattle.sp_formula.specs.FormulaView.{atom_of, formula_of};
ghost use Rattle.sp_fact.specs.GroundView.{trace_of};
ghost use Rattle.sp_eval.specs.View.{environment_of};
ghost use Rattle.sp_eval.specs.Found.{for_one, for_each};

use crate::atom::{atom_false, atom_true, atoms_true};
use crate::environment::{Environment, Messages};
use crate::equality::candidates;
use sp_fact::ground_fact::Trace;
use sp_formula::formula::{Atom, Binder, Formula};
use std::alloc::{AllocError, Global};

/// Whether the formula holds over the trace. Over a trace in normal form, for a formula that is guarded and has no destructors, this is
/// its truth.
///
/// # Errors
///
/// `AllocError` where memory is wanting.
pub fn holds(alloc: Global, formula: &Formula, trace: &Trace) -> Result<bool, AllocError>
    ensures exact { IfOk result (λ b. b ≡ decided (trace_of trace.now) empty (formula_of formula.now)) }
    ensures means { IfOk result (TellsTruth (trace_of trace.now) (formula_of formula.now)) }
{
    let nothing = Environment {
        messages: Messages {
            slots: Vec::new(alloc),
        },
        times: Vec::new(alloc),
    };
    let answer = holds_in(formula, alloc, trace, &nothing)?;
    Ok(answer)
}

/// Whether the formula holds where the environment gives the values of what is bound outside.
#[cycle(holds)]
fn holds_in(
    formula: &Formula,
    alloc: Global,
    trace: &Trace,
    env: &Environment,
) -> Result<bool, AllocError>
    ensures { IfOk result (λ b. b ≡ decided (trace_of trace.now) (environment_of env.now) (formula_of formula.now)) }
{
    match formula {
        Formula::Truth => Ok(true),
        Formula::Falsity => Ok(false),
        Formula::Holds(atom) => atom_true(alloc, trace, env, atom),
        Formula::Fails(atom) => atom_false(alloc, trace, env, atom),
        Formula::AllOf(parts) => each_holds(parts, alloc, trace, env),
        Formula::OneOf(parts) => one_holds(parts, alloc, trace, env),
        Formula::Exists(binders, guard, body) => {
            let found = candidates(alloc, trace, binders, guard, env)?;
            for_one(body, alloc, trace, guard, &found)
        }
        Formula::ForAll(binders, guard, body) => {
            let found = candidates(alloc, trace, binders, guard, env)?;
            for_each(body, alloc, trace, guard, &found)
        }
    }
}

/// Whether each of the formulas holds.
#[cycle(holds)]
fn each_holds(
    parts: &Vec<Formula>,
    alloc: Global,
    trace: &Trace,
    env: &Environment,
) -> Result<bool, AllocError>
    ensures { IfOk result (λ b. b ≡ deciding.each_decided (trace_of trace.now) (environment_of env.now) (guardeds_of (map formula_of parts.now.items))) }
{
    for part in parts {
        if !holds_in(part, alloc, trace, env)? {
            return Ok(false);
        }
    }
    Ok(true)
}

/// Whether one of the formulas holds.
#[cycle(holds)]
fn one_holds(
    parts: &Vec<Formula>,
    alloc: Global,
    trace: &Trace,
    env: &Environment,
) -> Result<bool, AllocError>
    ensures { IfOk result (λ b. b ≡ deciding.one_decided (trace_of trace.now) (environment_of env.now) (guardeds_of (map formula_of parts.now.items))) }
{
    for part in parts {
        if holds_in(part, alloc, trace, env)? {
            return Ok(true);
        }
    }
    Ok(false)
}

/// Whether one of the environments makes the guard true, and the body.
#[cycle(holds)]
fn for_one(
    body: &Formula,
    alloc: Global,
    trace: &Trace,
    guard: &Vec<Atom>,
    found: &Vec<Environment>,
) -> Result<bool, AllocError>
    ensures { IfOk result (λ b. b ≡ for_one (trace_of trace.now) (map atom_of guard.now.items) (formula_of body.now) (map environment_of found.now.items)) }
{
    for env in found {
        if atoms_true(alloc, trace, env, guard)? && holds_in(body, alloc, trace, env)? {
            return Ok(true);
        }
    }
    Ok(false)
}

/// Whether each of the environments that makes the guard true makes the body true.
#[cycle(holds)]
fn for_each(
    body: &Formula,
    alloc: Global,
    trace: &Trace,
    guard: &Vec<Atom>,
    found: &Vec<Environment>,
) -> Result<bool, AllocError>
    ensures { IfOk result (λ b. b ≡ for_each (trace_of trace.now) (map atom_of guard.now.items) (formula_of body.now) (map environment_of found.now.items)) }
{
    for env in found {
        if atoms_true(alloc, trace, env, guard)? && !holds_in(body, alloc, trace, env)? {
            return Ok(false);
        }
    }
    Ok(true)
}
