// Normal forms of ground terms and facts, from the leaves up.

ghost use Rattle.std.specs.Prelude.{◌≡◌, IfOk, map};
ghost use Rattle.sp_law_equal.specs.Normal.{normal, normal_action, normal_all, normal_fact, normal_facts, reduced};
ghost use Rattle.sp_fact.specs.GroundView.{equation_of, ground_action, ground_fact, ground_facts, ground_of, grounds_of};

use crate::instance::value;
use sp_fact::fact::{Action, Fact, Facts};
use sp_fact::ground_fact::{GroundAction, GroundFact, GroundFacts};
use sp_fact::ground_term::GroundTerm;
use sp_fact::signature::Equation;
use sp_term::found::matches;
use sp_term::term::{Term, nesting_over};
use std::alloc::{AllocError, Global};
use std::rc::Rc;

// By the first equation whose left side matches.
fn reduced(
    alloc: Global,
    equations: &Vec<Equation>,
    term: &GroundTerm,
) -> Result<GroundTerm, AllocError>
    ensures { IfOk result (λ t. ground_of t ≡ reduced (map equation_of equations.now.items) (ground_of term.now)) }
{
    for equation in equations {
        if let Some(values) = matches(alloc, &equation.left, term)? {
            let made = value(alloc, &values, &equation.right)?;
            return Ok(made);
        }
    }
    term.clone()
}

/// The normal form of a term.
#[cycle(normal)]
pub fn normal(
    alloc: Global,
    equations: &Vec<Equation>,
    term: &GroundTerm,
) -> Result<GroundTerm, AllocError>
    ensures { IfOk result (λ t. ground_of t ≡ normal (map equation_of equations.now.items) (ground_of term.now)) }
{
    match term {
        Term::Var(never) => match never.leaf {},
        Term::Constant(name) => Ok(Term::Constant(name.clone()?)),
        Term::FreshName(n) => Ok(Term::FreshName(*n)),
        Term::App(symbol, terms, _) => {
            let name = symbol.clone()?;
            let made = normal_all(alloc, equations, terms)?;
            let nesting = nesting_over(&made)?;
            let shared = Rc::new(alloc, made)?;
            let whole = Term::App(name, shared, nesting);
            reduced(alloc, equations, &whole)
        }
    }
}

/// The normal forms of terms.
#[cycle(normal)]
pub fn normal_all(
    alloc: Global,
    equations: &Vec<Equation>,
    terms: &Vec<GroundTerm>,
) -> Result<Vec<GroundTerm>, AllocError>
    ensures { IfOk result (λ ts. grounds_of ts.items ≡ normal_all (map equation_of equations.now.items) (grounds_of terms.now.items)) }
{
    let mut made = Vec::with_capacity(alloc, terms.len())?;
    for term in terms {
        made.push(normal(alloc, equations, term)?)?;
    }
    Ok(made)
}

/// The fact with its arguments in normal form.
pub fn normal_fact(
    alloc: Global,
    equations: &Vec<Equation>,
    fact: &GroundFact,
) -> Result<GroundFact, AllocError>
    ensures { IfOk result (λ f. ground_fact f ≡ normal_fact (map equation_of equations.now.items) (ground_fact fact.now)) }
{
    let symbol = fact.symbol.clone()?;
    let args = normal_all(alloc, equations, &fact.args)?;
    Ok(Fact {
        symbol,
        persistent: fact.persistent,
        args,
    })
}

/// The action with its arguments in normal form.
pub fn normal_action(
    alloc: Global,
    equations: &Vec<Equation>,
    action: &GroundAction,
) -> Result<GroundAction, AllocError>
    ensures { IfOk result (λ a. ground_action a ≡ normal_action (map equation_of equations.now.items) (ground_action action.now)) }
{
    let symbol = action.symbol.clone()?;
    let args = normal_all(alloc, equations, &action.args)?;
    Ok(Action { symbol, args })
}

fn each_normal_fact(
    alloc: Global,
    equations: &Vec<Equation>,
    facts: &Vec<GroundFact>,
) -> Result<Vec<GroundFact>, AllocError>
    ensures { IfOk result (λ fs. map ground_fact fs.items ≡ map (normal_fact (map equation_of equations.now.items)) (map ground_fact facts.now.items)) }
{
    let mut made = Vec::with_capacity(alloc, facts.len())?;
    for fact in facts {
        made.push(normal_fact(alloc, equations, fact)?)?;
    }
    Ok(made)
}

fn each_normal_action(
    alloc: Global,
    equations: &Vec<Equation>,
    actions: &Vec<GroundAction>,
) -> Result<Vec<GroundAction>, AllocError>
    ensures { IfOk result (λ xs. map ground_action xs.items ≡ map (normal_action (map equation_of equations.now.items)) (map ground_action actions.now.items)) }
{
    let mut made = Vec::with_capacity(alloc, actions.len())?;
    for action in actions {
        made.push(normal_action(alloc, equations, action)?)?;
    }
    Ok(made)
}

/// The facts with their arguments in normal form.
pub fn normal_facts(
    alloc: Global,
    equations: &Vec<Equation>,
    facts: &GroundFacts,
) -> Result<GroundFacts, AllocError>
    ensures { IfOk result (λ f. ground_facts f ≡ normal_facts (map equation_of equations.now.items) (ground_facts facts.now)) }
{
    let premises = each_normal_fact(alloc, equations, &facts.premises)?;
    let actions = each_normal_action(alloc, equations, &facts.actions)?;
    let conclusions = each_normal_fact(alloc, equations, &facts.conclusions)?;
    Ok(Facts {
        premises,
        actions,
        conclusions,
    })
}
