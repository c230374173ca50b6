// Variables numbered as they are first seen.

ghost use Rattle.std.specs.Prelude.{◌≡◌, ◌∷◌, [], IfOk, OnOk};
ghost use Rattle.std.specs.List.{flat_map, list_any};
ghost use Rattle.sp_spec.specs.Term as terms;
ghost use Rattle.sp_spec.specs.Term.{in_term, in_terms};
ghost use Rattle.sp_spec.specs.Same.{same_variable};
ghost use Rattle.sp_spec.specs.Rule.{occurrences};
ghost use Rattle.sp_term.specs.View.{variable_of, view, view_all};
ghost use Rattle.sp_fact.specs.View.{facts_of};
ghost use Rattle.sp_spec_forms.specs.Numbering as spec;
ghost use Rattle.sp_book.specs.View.{form_of};
ghost use Rattle.sp_variant.specs.View.{list_by};
ghost use Rattle.sp_variant.specs.Adding.{added_after};

use crate::arguments::HasArguments;
use sp_book::form::Form;
use sp_fact::fact::Facts;
use sp_term::apply::{Assigns, apply_all};
use sp_term::term::{Term, Variable};
use std::alloc::{AllocError, Global};

/// Whether the variable is one of these.
fn is_seen(seen: &Vec<Variable>, variable: Variable) -> bool
    ensures { result ≡ list_any (λ x. same_variable x (variable_of variable)) (list_by variable_of seen.now) }
{
    for x in seen {
        if *x == variable {
            return true;
        }
    }
    false
}

/// Puts the variable at the end, unless it is there.
fn see(seen: &mut Vec<Variable>, variable: Variable) -> Result<(), AllocError>
    ensures { OnOk result (list_by variable_of seen.new ≡ added_after same_variable (list_by variable_of seen.old) (variable_of variable ∷ [])) }
{
    if !is_seen(seen, variable) {
        seen.push(variable)?;
    }
    Ok(())
}

/// Puts the variables of the term at the end, from left to right, each unless it is there.
///
/// # Errors
///
/// `AllocError` where memory is wanting.
#[cycle(see)]
pub fn see_term(seen: &mut Vec<Variable>, term: &Term) -> Result<(), AllocError>
    ensures { OnOk result (list_by variable_of seen.new ≡ added_after same_variable (list_by variable_of seen.old) (in_term (view term.now))) }
{
    match term {
        Term::Var(variable) => see(seen, *variable),
        Term::Constant(_) | Term::FreshName(_) => Ok(()),
        Term::App(_, terms, _) => see_terms(seen, terms),
    }
}

/// Puts the variables of the terms at the end, from left to right, each unless it is there.
///
/// # Errors
///
/// `AllocError` where memory is wanting.
#[cycle(see)]
pub fn see_terms(seen: &mut Vec<Variable>, terms: &Vec<Term>) -> Result<(), AllocError>
    ensures { OnOk result (list_by variable_of seen.new ≡ added_after same_variable (list_by variable_of seen.old) (in_terms (view_all terms.now.items))) }
{
    for term in terms {
        see_term(seen, term)?;
    }
    Ok(())
}

/// The same of the variables of their arguments, from left to right.
fn see_arguments<T: HasArguments>(seen: &mut Vec<Variable>, all: &Vec<T>) -> Result<(), AllocError>
    ensures { OnOk result (list_by variable_of seen.new
        ≡ added_after same_variable (list_by variable_of seen.old) (flat_map (λ x. in_terms (T.args_of x)) (list_by T.kind_of all.now))) }
{
    for one in all {
        see_terms(seen, one.arguments())?;
    }
    Ok(())
}

/// Each variable of the facts, as it is first seen.
fn seen_in_facts(alloc: Global, facts: &Facts) -> Result<Vec<Variable>, AllocError>
    ensures { IfOk result (λ xs. list_by variable_of xs ≡ spec.without_repeats same_variable (occurrences (facts_of facts.now))) }
{
    let mut seen = Vec::new(alloc);
    see_arguments(&mut seen, &facts.premises)?;
    see_arguments(&mut seen, &facts.actions)?;
    see_arguments(&mut seen, &facts.conclusions)?;
    Ok(seen)
}

/// How many of these stand before the variable.
pub fn place(variables: &Vec<Variable>, variable: Variable) -> usize
    ensures { result ≡ spec.place (list_by variable_of variables.now) (variable_of variable) }
{
    for (place, x) in variables.iter().enumerate() {
        if *x == variable {
            return place;
        }
    }
    variables.len()
}

/// Variables, as they are numbered by their places among these.
#[derive(Clone, Copy)]
struct Places<'a> {
    variables: &'a Vec<Variable>,
}

impl<'a> Assigns<Variable, Variable> for Places<'a> {
    ghost From = { terms.Variable };

    ghost To = { terms.Variable };

    ghost from_of = { variable_of };

    ghost to_of = { variable_of };

    ghost value_of = { λ p. spec.renumbered (list_by variable_of p.variables.now) };

    fn value(&self, _alloc: Global, leaf: &Variable) -> Result<Term, AllocError> {
        let sort = leaf.sort;
        let number = place(self.variables, *leaf) as u128;
        Ok(Term::Var(Variable { sort, number }))
    }
}

/// The facts and the terms with their variables numbered from 0 on, as they are first seen.
///
/// # Errors
///
/// `AllocError` where memory is wanting.
pub fn numbered(alloc: Global, facts: &Facts, kept: &Vec<Term>) -> Result<Form, AllocError>
    ensures { IfOk result (λ f. form_of f ≡ spec.numbered (facts_of facts.now) (view_all kept.now.items)) }
{
    let mut variables = seen_in_facts(alloc, facts)?;
    let count = variables.len();
    see_terms(&mut variables, kept)?;
    let places = Places {
        variables: &variables,
    };
    let facts = facts.changed(alloc, &places)?;
    let kept = apply_all(alloc, &places, kept)?;
    Ok(Form { facts, count, kept })
}
