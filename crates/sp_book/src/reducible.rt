// Terms inside of which an equation could be used.

ghost use Rattle.std.specs.Prelude.{◌≡◌, IfOk, map};
ghost use Rattle.std.specs.List.{list_all, list_any};
ghost use Rattle.sp_term.specs.View.{view, view_all};
ghost use Rattle.sp_fact.specs.View.{action_of, fact_of, facts_of};
ghost use Rattle.sp_fact.specs.GroundView.{equation_of};
ghost use Rattle.sp_spec_forms.specs.Reducible as spec;

use sp_fact::fact::{Action, Fact, Facts};
use sp_fact::signature::Equation;
use sp_term::found::matches;
use sp_term::term::Term;
use std::alloc::{AllocError, Global};

// Whether the left side of one of the equations matches the term.
fn some_matches(alloc: Global, equations: &Vec<Equation>, term: &Term) -> Result<bool, AllocError>
    ensures { IfOk result (λ b. b ≡ list_any (spec.is_matched (view term.now)) (map equation_of equations.now.items)) }
{
    for equation in equations {
        if matches(alloc, &equation.left, term)?.is_some() {
            return Ok(true);
        }
    }
    Ok(false)
}

/// Whether no left side matches a term inside this one.
///
/// # Errors
///
/// `AllocError` where memory is wanting.
#[cycle(irreducible)]
pub fn irreducible(
    alloc: Global,
    equations: &Vec<Equation>,
    term: &Term,
) -> Result<bool, AllocError>
    ensures { IfOk result (λ b. b ≡ spec.irreducible (map equation_of equations.now.items) (view term.now)) }
{
    match term {
        Term::App(_, terms, _) => {
            if !irreducible_all(alloc, equations, terms)? {
                return Ok(false);
            }
            let matched = some_matches(alloc, equations, term)?;
            Ok(!matched)
        }
        _ => Ok(true),
    }
}

/// The same of each of the terms.
///
/// # Errors
///
/// `AllocError` where memory is wanting.
#[cycle(irreducible)]
pub fn irreducible_all(
    alloc: Global,
    equations: &Vec<Equation>,
    terms: &Vec<Term>,
) -> Result<bool, AllocError>
    ensures { IfOk result (λ b. b ≡ spec.irreducible_all (map equation_of equations.now.items) (view_all terms.now.items)) }
{
    for term in terms {
        if !irreducible(alloc, equations, term)? {
            return Ok(false);
        }
    }
    Ok(true)
}

// The same of the arguments of each fact.
fn of_facts(alloc: Global, equations: &Vec<Equation>, facts: &Vec<Fact>) -> Result<bool, AllocError>
    ensures { IfOk result (λ b. b ≡ list_all (spec.irreducible_all (map equation_of equations.now.items)) (map (λ f. f.args) (map fact_of facts.now.items))) }
{
    for fact in facts {
        if !irreducible_all(alloc, equations, &fact.args)? {
            return Ok(false);
        }
    }
    Ok(true)
}

// The same of the arguments of each action.
fn of_actions(
    alloc: Global,
    equations: &Vec<Equation>,
    actions: &Vec<Action>,
) -> Result<bool, AllocError>
    ensures { IfOk result (λ b. b ≡ list_all (spec.irreducible_all (map equation_of equations.now.items)) (map (λ a. a.args) (map action_of actions.now.items))) }
{
    for action in actions {
        if !irreducible_all(alloc, equations, &action.args)? {
            return Ok(false);
        }
    }
    Ok(true)
}

/// Whether no left side matches a term in the facts.
///
/// # Errors
///
/// `AllocError` where memory is wanting.
#[tactic(auto, using(crate::proofs::Facts::all_of))]
pub fn irreducible_facts(
    alloc: Global,
    equations: &Vec<Equation>,
    facts: &Facts,
) -> Result<bool, AllocError>
    ensures { IfOk result (λ b. b ≡ spec.irreducible_facts (map equation_of equations.now.items) (facts_of facts.now)) }
{
    if !of_facts(alloc, equations, &facts.premises)? {
        return Ok(false);
    }
    if !of_actions(alloc, equations, &facts.actions)? {
        return Ok(false);
    }
    let conclusions = of_facts(alloc, equations, &facts.conclusions)?;
    Ok(conclusions)
}
