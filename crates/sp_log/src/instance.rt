// Whether facts are an instance of a form of a rule, by the values that they give to its variables.

ghost use Rattle.std.specs.Prelude.{◌≡◌, IfOk, map, option_map};
ghost use Rattle.sp_law_log_steps.specs.Found.{matched_actions, matched_facts, matched_instance};
ghost use Rattle.sp_term.specs.View.{name_of};
ghost use Rattle.std.specs.List.{list_any};
ghost use Rattle.sp_book.specs.View.{form_of, rule_forms_of};
ghost use Rattle.sp_fact.specs.View.{action_of, fact_of, facts_of};
ghost use Rattle.sp_fact.specs.GroundView.{ground_action, ground_fact, ground_facts, signature_of};
ghost use Rattle.sp_norm.specs.Bounds.{answer, bound_of, bounds};
ghost use Rattle.sp_log.specs.Checking as spec;

use sp_book::form::{Form, RuleForms};
use sp_fact::fact::{Action, Fact, Facts};
use sp_fact::ground_fact::{GroundAction, GroundFact, GroundFacts};
use sp_fact::signature::Signature;
use sp_norm::over::is_over;
use sp_term::matching::extend_all;
use sp_term::subst::{Binding, Values};
use sp_term::term::{Name, Never, has_sort};
use std::alloc::{AllocError, Global};

// Adds the bindings that the patterns want beside the facts.
fn extend_facts(
    patterns: &Vec<Fact>,
    facts: &Vec<GroundFact>,
    found: &mut Values,
) -> Result<bool, AllocError>
    ensures { IfOk result (λ b. answer b (bounds found.new)
        ≡ matched_facts (map fact_of patterns.now.items) (map ground_fact facts.now.items) (bounds found.old)) }
{
    if patterns.len() != facts.len() {
        return Ok(false);
    }
    for (pattern, fact) in patterns.iter().zip(facts) {
        if !extend_all(&pattern.args, &fact.args, found)? {
            return Ok(false);
        }
    }
    Ok(true)
}

fn extend_actions(
    patterns: &Vec<Action>,
    actions: &Vec<GroundAction>,
    found: &mut Values,
) -> Result<bool, AllocError>
    ensures { IfOk result (λ b. answer b (bounds found.new)
        ≡ matched_actions (map action_of patterns.now.items) (map ground_action actions.now.items) (bounds found.old)) }
{
    if patterns.len() != actions.len() {
        return Ok(false);
    }
    for (pattern, action) in patterns.iter().zip(actions) {
        if !extend_all(&pattern.args, &action.args, found)? {
            return Ok(false);
        }
    }
    Ok(true)
}

/// The values that the facts give to the variables of the pattern, if some do.
pub fn matched_values(
    alloc: Global,
    pattern: &Facts,
    facts: &GroundFacts,
) -> Result<Option<Values>, AllocError>
    ensures { IfOk result (λ r. option_map bounds r ≡ matched_instance (facts_of pattern.now) (ground_facts facts.now)) }
{
    let mut found = Values::new(alloc);
    if !extend_facts(&pattern.premises, &facts.premises, &mut found)? {
        return Ok(None);
    }
    if !extend_actions(&pattern.actions, &facts.actions, &mut found)? {
        return Ok(None);
    }
    if !extend_facts(&pattern.conclusions, &facts.conclusions, &mut found)? {
        return Ok(None);
    }
    Ok(Some(found))
}

fn alike_facts(patterns: &Vec<Fact>, facts: &Vec<GroundFact>) -> bool
    ensures { result ≡ spec.alike_facts (map fact_of patterns.now.items) (map ground_fact facts.now.items) }
{
    if patterns.len() != facts.len() {
        return false;
    }
    for (pattern, fact) in patterns.iter().zip(facts) {
        if pattern.symbol != fact.symbol || pattern.persistent != fact.persistent {
            return false;
        }
    }
    true
}

fn alike_actions(patterns: &Vec<Action>, actions: &Vec<GroundAction>) -> bool
    ensures { result ≡ spec.alike_actions (map action_of patterns.now.items) (map ground_action actions.now.items) }
{
    if patterns.len() != actions.len() {
        return false;
    }
    for (pattern, action) in patterns.iter().zip(actions) {
        if pattern.symbol != action.symbol {
            return false;
        }
    }
    true
}

// Whether the facts have the names of the pattern's, one beside each.
fn are_alike(pattern: &Facts, facts: &GroundFacts) -> bool
    ensures { result ≡ spec.are_alike (facts_of pattern.now) (ground_facts facts.now) }
{
    alike_facts(&pattern.premises, &facts.premises)
        && alike_actions(&pattern.actions, &facts.actions)
        && alike_facts(&pattern.conclusions, &facts.conclusions)
}

// Whether the value is of its variable's sort, and over the symbols.
fn is_value(signature: &Signature, bound: &Binding<Never>) -> bool
    ensures { result ≡ spec.is_value (signature_of signature.now) (bound_of bound.now) }
{
    has_sort(bound.variable.sort, &bound.term) && is_over(&signature.symbols, &bound.term)
}

fn are_values(signature: &Signature, values: &Values) -> bool
    ensures { result ≡ spec.are_values (signature_of signature.now) (bounds values.now) }
{
    for bound in &values.bindings {
        if !is_value(signature, bound) {
            return false;
        }
    }
    true
}

fn is_instance(
    alloc: Global,
    signature: &Signature,
    form: &Form,
    facts: &GroundFacts,
) -> Result<bool, AllocError>
    ensures { IfOk result (λ b. b ≡ spec.is_instance (signature_of signature.now) (form_of form.now) (ground_facts facts.now)) }
{
    if !are_alike(&form.facts, facts) {
        return Ok(false);
    }
    match matched_values(alloc, &form.facts, facts)? {
        Some(values) => Ok(are_values(signature, &values)),
        None => Ok(false),
    }
}

fn is_instance_of_form(
    alloc: Global,
    signature: &Signature,
    forms: &Vec<Form>,
    facts: &GroundFacts,
) -> Result<bool, AllocError>
    ensures { IfOk result (λ b. b
        ≡ list_any (λ form. spec.is_instance (signature_of signature.now) form (ground_facts facts.now)) (map form_of forms.now.items)) }
{
    for form in forms {
        if is_instance(alloc, signature, form, facts)? {
            return Ok(true);
        }
    }
    Ok(false)
}

/// Whether the facts are an instance of some form of a rule of the name.
pub fn is_instance_of_any(
    alloc: Global,
    signature: &Signature,
    rules: &Vec<RuleForms>,
    name: &Name,
    facts: &GroundFacts,
) -> Result<bool, AllocError>
    ensures { IfOk result (λ b. b
        ≡ spec.is_instance_of_any (signature_of signature.now) (map rule_forms_of rules.now.items) (name_of name.now) (ground_facts facts.now)) }
{
    for rule in rules {
        if rule.name == *name && is_instance_of_form(alloc, signature, &rule.forms, facts)? {
            return Ok(true);
        }
    }
    Ok(false)
}
