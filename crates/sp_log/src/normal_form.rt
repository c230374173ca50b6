// Whether facts are in normal form.

ghost use Rattle.std.specs.Prelude.{◌≡◌, IfOk, map};
ghost use Rattle.std.specs.List.{list_all};
ghost use Rattle.sp_fact.specs.GroundView.{equation_of, ground_action, ground_fact, ground_facts, grounds_of};
ghost use Rattle.sp_log.specs.Checking as spec;

use sp_fact::ground_fact::{GroundAction, GroundFact, GroundFacts};
use sp_fact::ground_term::GroundTerm;
use sp_fact::signature::Equation;
use sp_norm::normal::normal_all;
use sp_term::term::all_same;
use std::alloc::{AllocError, Global};

// Whether each term is its own normal form.
fn stay(
    alloc: Global,
    equations: &Vec<Equation>,
    terms: &Vec<GroundTerm>,
) -> Result<bool, AllocError>
    ensures { IfOk result (λ b. b ≡ spec.stay (map equation_of equations.now.items) (grounds_of terms.now.items)) }
{
    let normal_forms = normal_all(alloc, equations, terms)?;
    Ok(all_same(&normal_forms, terms))
}

fn facts_stay(
    alloc: Global,
    equations: &Vec<Equation>,
    facts: &Vec<GroundFact>,
) -> Result<bool, AllocError>
    ensures { IfOk result (λ b. b
        ≡ list_all (spec.stay (map equation_of equations.now.items)) (map (λ f. f.args) (map ground_fact facts.now.items))) }
{
    for fact in facts {
        if !stay(alloc, equations, &fact.args)? {
            return Ok(false);
        }
    }
    Ok(true)
}

fn actions_stay(
    alloc: Global,
    equations: &Vec<Equation>,
    actions: &Vec<GroundAction>,
) -> Result<bool, AllocError>
    ensures { IfOk result (λ b. b
        ≡ list_all (spec.stay (map equation_of equations.now.items)) (map (λ a. a.args) (map ground_action actions.now.items))) }
{
    for action in actions {
        if !stay(alloc, equations, &action.args)? {
            return Ok(false);
        }
    }
    Ok(true)
}

/// Whether each term of the facts is its own normal form.
pub fn are_in_normal_form(
    alloc: Global,
    equations: &Vec<Equation>,
    facts: &GroundFacts,
) -> Result<bool, AllocError>
    ensures { IfOk result (λ b. b ≡ spec.are_in_normal_form (map equation_of equations.now.items) (ground_facts facts.now)) }
{
    if !facts_stay(alloc, equations, &facts.premises)? {
        return Ok(false);
    }
    if !actions_stay(alloc, equations, &facts.actions)? {
        return Ok(false);
    }
    facts_stay(alloc, equations, &facts.conclusions)
}
