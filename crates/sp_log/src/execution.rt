// The steps that an entry of a log stands for.

ghost use Rattle.std.specs.Prelude.{◌≡◌, ◌++◌, [], IfOk, OnOk, map, option_map, unwrap_or};
ghost use Rattle.sp_spec.specs.Execution.{make_fresh};
ghost use Rattle.sp_spec.specs.Log.{fresh_of};
ghost use Rattle.sp_spec.specs.Term as spec_term;
ghost use Rattle.sp_spec.specs.Term.{valued_all};
ghost use Rattle.sp_spec_forms.specs.Forms as spec;
ghost use Rattle.sp_law_equal.specs.Normal.{normal_all};
ghost use Rattle.sp_law_log_steps.specs.Found as found;
ghost use Rattle.sp_term.specs.View.{name_of, never_of, sort_of, variable_of};
ghost use Rattle.sp_fact.specs.GroundView.{equation_of, given_of, ground_fact, ground_facts, ground_of, grounds_of, step_of};
ghost use Rattle.sp_spec.specs.Lists.{newest_first};
ghost use Rattle.sp_norm.specs.Bounds.{bounds};
ghost use Rattle.sp_fact.specs.View.{declared_of};
ghost use Rattle.sp_book.specs.View.{form_of, rule_forms_of};
ghost use Rattle.sp_log.specs.View.{entry_of};

use crate::instance::matched_values;
use crate::log::Entry;
use crate::names::fresh_names;
use sp_book::form::{Form, RuleForms};
use sp_fact::ground_fact::{GroundFact, GroundFacts};
use sp_fact::ground_term::GroundTerm;
use sp_fact::rule::Declared;
use sp_fact::signature::Equation;
use sp_fact::step::{Given, Step};
use sp_norm::normal::normal_all;
use sp_term::apply::{Assigns, apply_all};
use sp_term::subst::Values;
use sp_term::term::{Name, Never, Sort, Term, Variable};
use std::alloc::{AllocError, Global};

// What is given to a variable that stands in no fact, and may be written.
fn stand_in(alloc: Global, sort: Sort) -> Result<GroundTerm, AllocError>
    ensures { IfOk result (λ t. ground_of t ≡ found.stand_in (sort_of sort)) }
{
    match sort {
        Sort::Fresh => Ok(Term::FreshName(1)),
        Sort::Msg | Sort::Pub => {
            let name = Name::new(alloc, "a1")?;
            Ok(Term::Constant(name))
        }
    }
}

fn bound_or_any(
    alloc: Global,
    values: &Values,
    variable: Variable,
) -> Result<GroundTerm, AllocError>
    ensures { IfOk result (λ t. ground_of t ≡ found.bound_or_any (bounds values.now) (variable_of variable)) }
{
    match values.get(variable) {
        Some(value) => value.clone(),
        None => stand_in(alloc, variable.sort),
    }
}

// The values of an instance, as they are put for variables.
#[derive(Clone, Copy)]
struct Giving<'a> {
    values: &'a Values,
}

impl<'a> Assigns<Variable, Never> for Giving<'a> {
    ghost From = { spec_term.Variable };

    ghost To = { ⊥ };

    ghost from_of = { variable_of };

    ghost to_of = { never_of };

    ghost value_of = { λ s. found.bound_or_any (bounds s.values.now) };

    fn value(&self, alloc: Global, leaf: &Variable) -> Result<GroundTerm, AllocError> {
        bound_or_any(alloc, self.values, *leaf)
    }
}

// The terms that the form has for the variables of its rule, in normal form.
fn kept_values(
    alloc: Global,
    equations: &Vec<Equation>,
    form: &Form,
    values: &Values,
) -> Result<Vec<GroundTerm>, AllocError>
    ensures { IfOk result (λ ts. grounds_of ts.items
        ≡ normal_all (map equation_of equations.now.items) (valued_all (found.bound_or_any (bounds values.now)) (form_of form.now).kept)) }
{
    let kept = apply_all(alloc, &Giving { values }, &form.kept)?;
    let normal_forms = normal_all(alloc, equations, &kept)?;
    Ok(normal_forms)
}

// Each of the names with its value.
fn given_to(
    alloc: Global,
    variables: &Vec<Declared>,
    values: &Vec<GroundTerm>,
) -> Result<Vec<Given>, AllocError>
    ensures { IfOk result (λ gs. map given_of gs.items ≡ found.given_to (map declared_of variables.now.items) (grounds_of values.now.items)) }
{
    let mut given = Vec::with_capacity(alloc, variables.len())?;
    for (declared, value) in variables.iter().zip(values) {
        let variable = declared.name.clone()?;
        let value = value.clone()?;
        given.push(Given { variable, value })?;
    }
    Ok(given)
}

// What an instance of the form gives to the variables of its rule, if the facts are one.
fn given_by_form(
    alloc: Global,
    equations: &Vec<Equation>,
    rule: &RuleForms,
    form: &Form,
    facts: &GroundFacts,
) -> Result<Option<Vec<Given>>, AllocError>
    ensures { IfOk result (λ o. option_map (λ gs. map given_of gs.items) o
        ≡ option_map (found.given_of (map equation_of equations.now.items) (rule_forms_of rule.now) (form_of form.now))
        (found.matched_instance (form_of form.now).facts (ground_facts facts.now))) }
{
    match matched_values(alloc, &form.facts, facts)? {
        Some(values) => {
            let terms = kept_values(alloc, equations, form, &values)?;
            let given = given_to(alloc, &rule.variables, &terms)?;
            Ok(Some(given))
        }
        None => Ok(None),
    }
}

// What is given by the first form of the rule of which the facts are an instance.
fn given_by_first(
    alloc: Global,
    equations: &Vec<Equation>,
    rule: &RuleForms,
    facts: &GroundFacts,
) -> Result<Option<Vec<Given>>, AllocError>
    ensures { IfOk result (λ o. option_map (λ gs. map given_of gs.items) o
        ≡ found.given_by_first (map equation_of equations.now.items) (rule_forms_of rule.now) (map form_of rule.now.forms.items) (ground_facts facts.now)) }
{
    for form in &rule.forms {
        if let Some(given) = given_by_form(alloc, equations, rule, form, facts)? {
            return Ok(Some(given));
        }
    }
    Ok(None)
}

// The first rule of the name.
fn forms_named<'a>(rules: &'a Vec<RuleForms>, name: &Name) -> Option<&'a RuleForms>
    ensures { option_map (λ r. rule_forms_of r.now) result ≡ spec.forms_named (name_of name.now) (map rule_forms_of rules.now.items) }
{
    for rule in rules {
        if rule.name == *name {
            return Some(rule);
        }
    }
    None
}

// What the facts give to the variables of the rule of the name; nothing where they are no instance of it.
fn given_by(
    alloc: Global,
    equations: &Vec<Equation>,
    rules: &Vec<RuleForms>,
    name: &Name,
    facts: &GroundFacts,
) -> Result<Vec<Given>, AllocError>
    ensures { IfOk result (λ gs. map given_of gs.items ≡ unwrap_or
        (found.given_by (map equation_of equations.now.items) (map rule_forms_of rules.now.items) (name_of name.now) (ground_facts facts.now)) []) }
{
    let Some(rule) = forms_named(rules, name) else {
        return Ok(Vec::new(alloc));
    };
    match given_by_first(alloc, equations, rule, facts)? {
        Some(given) => Ok(given),
        None => Ok(Vec::new(alloc)),
    }
}

// Makes the names whose Fr the premises use.
fn make_names(
    alloc: Global,
    premises: &Vec<GroundFact>,
    steps: &mut Vec<Step>,
) -> Result<(), AllocError>
    ensures { OnOk result (map step_of steps.new.items
        ≡ map step_of steps.old.items ++ map make_fresh (fresh_of (map ground_fact premises.now.items))) }
{
    let names = fresh_names(alloc, premises)?;
    for name in &names {
        steps.push(Step::MakeFresh(name.clone()?))?;
    }
    Ok(())
}

/// Adds the steps of the entry, which are the same whatever stands before it.
///
/// # Errors
///
/// `AllocError` where memory is wanting.
pub fn add_steps(
    alloc: Global,
    equations: &Vec<Equation>,
    rules: &Vec<RuleForms>,
    entry: &Entry,
    steps: &mut Vec<Step>,
) -> Result<(), AllocError>
    ensures { OnOk result (map step_of steps.new.items
        ≡ map step_of steps.old.items ++ newest_first (found.entry_steps (map equation_of equations.now.items) (map rule_forms_of rules.now.items) (entry_of entry.now))) }
{
    make_names(alloc, &entry.facts.premises, steps)?;
    let name = entry.rule.clone()?;
    let given = given_by(alloc, equations, rules, &entry.rule, &entry.facts)?;
    steps.push(Step::UseRule(name, given))?;
    Ok(())
}
