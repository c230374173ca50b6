// The forms of a rule: all results of narrowing, in normal form, each once.

ghost use Rattle.std.specs.Prelude.{◌≡◌, ◌++◌, IfOk, OnOk, map};
ghost use Rattle.std.specs.List.{filter};
ghost use Rattle.sp_fact.specs.View.{declared_of, facts_of, rule_of};
ghost use Rattle.sp_fact.specs.GroundView.{equation_of};
ghost use Rattle.sp_unify.specs.View.{pair_view};
ghost use Rattle.sp_spec.specs.Unifier.{mgu};
ghost use Rattle.sp_spec_forms.specs.Numbering.{without_repeats};
ghost use Rattle.sp_spec_forms.specs.Forms as spec;
ghost use Rattle.sp_book.specs.View.{form_of};
ghost use Rattle.sp_variant.specs.View.{list_by, terms_in};

use crate::alike::add;
use crate::arguments::HasArguments;
use crate::facts::narrow_facts;
use crate::narrowing::{Chosen, Way, sum};
use crate::numbering::numbered;
use sp_book::form::Form;
use sp_book::reducible::irreducible_facts;
use sp_conv::above_all;
use sp_fact::fact::Facts;
use sp_fact::rule::{Declared, Rule};
use sp_fact::signature::Equation;
use sp_term::apply::apply_all;
use sp_term::term::{Term, Variable};
use sp_unify::unify::mgu;
use std::alloc::{AllocError, Global};

// ---- the results of all choices

/// The sum of what stands above the variables of each one's arguments.
fn above_each<T: HasArguments>(all: &Vec<T>) -> Result<u128, AllocError>
    ensures { IfOk result (λ n. n ≡ spec.above_each (map T.args_of (list_by T.kind_of all.now))) }
{
    let mut number = 0;
    for one in all {
        number = sum(number, above_all(one.arguments())?)?;
    }
    Ok(number)
}

/// A number above that of each variable of the rule.
fn start(rule: &Rule) -> Result<u128, AllocError>
    ensures { IfOk result (λ n. n ≡ spec.start (rule_of rule.now)) }
{
    let premises = above_each(&rule.facts.premises)?;
    let actions = above_each(&rule.facts.actions)?;
    let conclusions = above_each(&rule.facts.conclusions)?;
    let behind = sum(actions, conclusions)?;
    let all = sum(premises, behind)?;
    let number = sum(rule.variables.len() as u128, all)?;
    Ok(number)
}

/// The rule's variables, numbered from 0 on.
fn rule_variables(alloc: Global, declared: &Vec<Declared>) -> Result<Vec<Term>, AllocError>
    ensures { IfOk result (λ ts. terms_in ts ≡ spec.rule_variables 0 (map declared_of declared.now.items)) }
{
    let mut made = Vec::with_capacity(alloc, declared.len())?;
    for (place, variable) in declared.iter().enumerate() {
        let sort = variable.sort;
        let number = place as u128;
        made.push(Term::Var(Variable { sort, number }))?;
    }
    Ok(made)
}

/// Puts at the end what the facts are with all that was chosen on the way, numbered anew.
fn push_form(
    alloc: Global,
    forms: &mut Vec<Form>,
    kept: &Vec<Term>,
    way: &Way<Facts>,
) -> Result<(), AllocError>
    ensures { OnOk result (list_by form_of forms.new
        ≡ list_by form_of forms.old ++ spec.form_by (terms_in kept.now) (facts_of way.now.value) (mgu (map pair_view way.now.chosen.pairs.items))) }
{
    let Some(unifier) = mgu(alloc, &way.chosen.pairs)? else {
        return Ok(());
    };
    let facts = way.value.changed(alloc, &unifier)?;
    let kept = apply_all(alloc, &unifier, kept)?;
    forms.push(numbered(alloc, &facts, &kept)?)?;
    Ok(())
}

/// The results of all choices, in their order.
fn results(alloc: Global, equations: &Vec<Equation>, rule: &Rule) -> Result<Vec<Form>, AllocError>
    ensures { IfOk result (λ fs. list_by form_of fs ≡ spec.results (map equation_of equations.now.items) (rule_of rule.now)) }
{
    let kept = rule_variables(alloc, &rule.variables)?;
    let pairs = Vec::new(alloc);
    let next = start(rule)?;
    let ways = narrow_facts(alloc, equations, &rule.facts, &Chosen { pairs, next })?;
    let mut forms = Vec::new(alloc);
    for way in &ways {
        push_form(alloc, &mut forms, &kept, way)?;
    }
    Ok(forms)
}

// ---- those in normal form

/// Those of these that are in normal form, each once.
#[tactic(auto, using(crate::proofs::Once::forms_once))]
fn once(alloc: Global, equations: &Vec<Equation>, all: Vec<Form>) -> Result<Vec<Form>, AllocError>
    ensures { IfOk result (λ fs. list_by form_of fs
        ≡ without_repeats spec.alike_form (filter (spec.is_normal_form (map equation_of equations.now.items)) (list_by form_of all))) }
{
    let mut forms = Vec::new(alloc);
    for form in all {
        if irreducible_facts(alloc, equations, &form.facts)? {
            add(&mut forms, form)?;
        }
    }
    Ok(forms)
}

/// The forms of the rule over these equations: the results of narrowing that are in normal form, in their order, each once.
///
/// # Errors
///
/// `AllocError` where memory is wanting, or a number of a new variable doesn't fit.
pub fn forms(alloc: Global, equations: &Vec<Equation>, rule: &Rule) -> Result<Vec<Form>, AllocError>
    ensures { IfOk result (λ fs. map form_of fs.items ≡ spec.forms (map equation_of equations.now.items) (rule_of rule.now)) }
{
    let all = results(alloc, equations, rule)?;
    let forms = once(alloc, equations, all)?;
    Ok(forms)
}
