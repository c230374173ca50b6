// The variables of a written rule, and their sorts.

ghost use Rattle.std.specs.Prelude.{◌≡◌, IfOk, OnOk, map, ◌++◌};
ghost use Rattle.sp_spec.specs.Term.{Fresh, Pub};
ghost use Rattle.sp_spec.specs.Written.{in_actions, in_facts, in_term, in_terms};
ghost use Rattle.sp_spec.specs.Written as written;
ghost use Rattle.sp_read_parts.specs.Views as view;
ghost use Rattle.sp_read_parts.specs.Views.{facts_of, fact_of};
ghost use Rattle.sp_term.specs.View.{sort_of};

use crate::facts::is_fr;
use sp_read_parts::{Mark, WrittenAction, WrittenFact, WrittenRule, WrittenTerm, WrittenVariable};
use sp_term::term::{Sort, Term};
use std::alloc::{AllocError, Global};

/// Puts the variables of a term at the end.
#[cycle(gather)]
fn gather_term<'a>(
    found: &mut Vec<WrittenVariable<'a>>,
    term: &WrittenTerm<'a>,
) -> Result<(), AllocError>
    ensures { OnOk result (map view.variable found.new.items ≡ map view.variable found.old.items ++ in_term (view.term term.now)) }
{
    match term {
        Term::Var(variable) => {
            found.push(*variable)?;
            Ok(())
        }
        Term::Constant(_) | Term::FreshName(_) => Ok(()),
        Term::App(_, terms, _) => gather(found, terms),
    }
}

/// Puts the variables of terms at the end.
#[cycle(gather)]
fn gather<'a>(
    found: &mut Vec<WrittenVariable<'a>>,
    terms: &Vec<WrittenTerm<'a>>,
) -> Result<(), AllocError>
    ensures { OnOk result (map view.variable found.new.items ≡ map view.variable found.old.items ++ in_terms (view.terms terms.now.items)) }
{
    for term in terms {
        gather_term(found, term)?;
    }
    Ok(())
}

/// Puts the variables of facts at the end.
pub fn gather_facts<'a>(
    found: &mut Vec<WrittenVariable<'a>>,
    facts: &Vec<WrittenFact<'a>>,
) -> Result<(), AllocError>
    ensures { OnOk result (map view.variable found.new.items ≡ map view.variable found.old.items ++ in_facts (facts_of facts.now.items)) }
{
    for fact in facts {
        gather(found, &fact.args)?;
    }
    Ok(())
}

/// Puts the variables of actions at the end.
pub fn gather_actions<'a>(
    found: &mut Vec<WrittenVariable<'a>>,
    actions: &Vec<WrittenAction<'a>>,
) -> Result<(), AllocError>
    ensures { OnOk result (map view.variable found.new.items ≡ map view.variable found.old.items ++ in_actions (map view.action_of actions.now.items)) }
{
    for action in actions {
        gather(found, &action.args)?;
    }
    Ok(())
}

/// The variables of a rule as they stand in its premises, actions and conclusions, from left to right.
#[tactic(auto, using(crate::proofs::Gathered::gathered))]
pub fn occurrences<'a>(
    alloc: Global,
    rule: &WrittenRule<'a>,
) -> Result<Vec<WrittenVariable<'a>>, AllocError>
    ensures { IfOk result (λ xs. map view.variable xs.items ≡ written.occurrences (view.rule rule.now).facts) }
{
    let mut found = Vec::new(alloc);
    gather_facts(&mut found, &rule.facts.premises)?;
    gather_actions(&mut found, &rule.facts.actions)?;
    gather_facts(&mut found, &rule.facts.conclusions)?;
    Ok(found)
}

/// Whether the fact's one argument is the variable of this name.
#[tactic(auto, using(crate::proofs::Gathered::not_one))]
fn is_argument(name: &str, fact: &WrittenFact) -> bool
    ensures { result ≡ written.is_argument name.now (fact_of fact.now).args }
{
    if fact.args.len() != 1 {
        return false;
    }
    match &fact.args[0] {
        Term::Var(variable) => variable.name == name,
        _ => false,
    }
}

/// Whether a premise Fr has the variable of this name.
pub fn is_fr_argument(name: &str, premises: &Vec<WrittenFact>) -> bool
    ensures { result ≡ written.is_fr_argument name.now (facts_of premises.now.items) }
{
    for fact in premises {
        if is_fr(fact) && is_argument(name, fact) {
            return true;
        }
    }
    false
}

/// Whether a variable is written with the sort's own mark.
fn is_marked(sort: Sort, mark: Mark) -> bool
    ensures { result ≡ written.is_marked (sort_of sort) (view.mark mark) }
{
    match (sort, mark) {
        (Sort::Fresh, Mark::Fresh) => true,
        (Sort::Pub, Mark::Public) => true,
        _ => false,
    }
}

/// Whether a variable of this name is written with the sort's own mark.
fn is_written(sort: Sort, name: &str, variables: &Vec<WrittenVariable>) -> bool
    ensures { result ≡ written.is_written (sort_of sort) name.now (map view.variable variables.now.items) }
{
    for variable in variables {
        if variable.name == name && is_marked(sort, variable.mark) {
            return true;
        }
    }
    false
}

/// The sort of a name in a rule with these occurrences.
#[tactic(auto, using(crate::proofs::Sorts::among))]
pub fn sort_in(rule: &WrittenRule, variables: &Vec<WrittenVariable>, name: &str) -> Sort
    requires { map view.variable variables.now.items ≡ written.occurrences (view.rule rule.now).facts }
    ensures { sort_of result ≡ written.sort_in (view.rule rule.now).facts name.now }
{
    if is_fr_argument(name, &rule.facts.premises) || is_written(Sort::Fresh, name, variables) {
        Sort::Fresh
    } else if is_written(Sort::Pub, name, variables) {
        Sort::Pub
    } else {
        Sort::Msg
    }
}
