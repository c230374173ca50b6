// The findings on the variables of a rule.

ghost use Rattle.std.specs.Prelude.{◌≡◌, ◌&&◌, not, OnOk, map, if◌then◌else◌};
ghost use Rattle.sp_spec.specs.Term.{Fresh};
ghost use Rattle.sp_spec.specs.Findings as findings;
ghost use Rattle.sp_spec.specs.Written.{in_term, in_terms, in_facts, occurrences};
ghost use Rattle.sp_read_parts.specs.Views as view;
ghost use Rattle.sp_read_parts.specs.Views.{fact_of, facts_of};
ghost use Rattle.sp_term.specs.View.{sort_of};
ghost use Rattle.sp_wf_rules.specs.RuleFindings as spec;
ghost use Rattle.sp_finding.specs.Finding.{lines_after};
ghost use Rattle.sp_wf_rules.specs.Told.{stands_among};
ghost use Rattle.sp_lines.specs.TextsView.{texts_of};

use sp_finding::{Finding, RuleFinding, is_fr, may_be_fresh, occurrences, tell_if};
use sp_lines::Texts;
use sp_read_parts::{Mark, WrittenFact, WrittenRule, WrittenTerm, WrittenVariable};
use sp_term::term::{Sort, Term};
use std::alloc::{AllocError, Global};

/// Whether the fact's one argument is the variable of this name, marked as what may be fresh.
#[tactic(auto, using(crate::proofs::Standing::not_made))]
fn makes_fresh(name: &str, fact: &WrittenFact) -> bool
    ensures { result ≡ spec.makes_fresh name.now (fact_of fact.now).args }
{
    if fact.args.len() != 1 {
        return false;
    }
    match &fact.args[0] {
        Term::Var(variable) => variable.name == name && may_be_fresh(variable.mark),
        _ => false,
    }
}

/// Whether a right premise Fr makes the variable of this name fresh.
fn is_made_fresh(name: &str, premises: &Vec<WrittenFact>) -> bool
    ensures { result ≡ spec.is_made_fresh name.now (facts_of premises.now.items) }
{
    for fact in premises {
        if is_fr(fact) && (!fact.persistent && makes_fresh(name, fact)) {
            return true;
        }
    }
    false
}

/// How the name is marked where it first stands.
fn first_mark(name: &str, variables: &Vec<WrittenVariable>) -> Mark
    ensures { view.mark result ≡ spec.first_mark name.now (map view.variable variables.now.items) }
{
    for variable in variables {
        if variable.name == name {
            return variable.mark;
        }
    }
    Mark::Bare
}

/// The sort that a mark says.
fn sort_of_mark(mark: Mark) -> Sort
    ensures { sort_of result ≡ spec.sort_of_mark (view.mark mark) }
{
    match mark {
        Mark::Fresh => Sort::Fresh,
        Mark::Public => Sort::Pub,
        _ => Sort::Msg,
    }
}

/// The sort of a name in a rule with these variables.
fn first_sort(rule: &WrittenRule, variables: &Vec<WrittenVariable>, name: &str) -> Sort
    requires { map view.variable variables.now.items ≡ occurrences (view.rule rule.now).facts }
    ensures { sort_of result ≡ spec.first_sort (view.rule rule.now).facts name.now }
{
    if is_made_fresh(name, &rule.facts.premises) {
        return Sort::Fresh;
    }
    sort_of_mark(first_mark(name, variables))
}

/// Whether a variable of this sort may be marked so; what is fresh by a premise Fr needs no mark.
fn agrees(by_fr: bool, sort: Sort, mark: Mark) -> bool
    ensures { result ≡ findings.agrees by_fr (sort_of sort) (view.mark mark) }
{
    match (sort, mark) {
        (Sort::Fresh, Mark::Fresh) => true,
        (Sort::Fresh, Mark::Message) => by_fr,
        (Sort::Fresh, Mark::Bare) => by_fr,
        (Sort::Pub, Mark::Public) => true,
        (Sort::Msg, Mark::Message) => true,
        (Sort::Msg, Mark::Bare) => true,
        _ => false,
    }
}

/// Whether the name stands somewhere with another sort.
fn stands_otherwise(by_fr: bool, sort: Sort, name: &str, variables: &Vec<WrittenVariable>) -> bool
    ensures { result ≡ spec.stands_otherwise by_fr (sort_of sort) name.now (map view.variable variables.now.items) }
{
    for variable in variables {
        if variable.name == name && !agrees(by_fr, sort, variable.mark) {
            return true;
        }
    }
    false
}

/// Whether the name stands with two sorts in the rule with these variables.
fn has_other_mark(rule: &WrittenRule, variables: &Vec<WrittenVariable>, name: &str) -> bool
    requires { map view.variable variables.now.items ≡ occurrences (view.rule rule.now).facts }
    ensures { result ≡ spec.has_other_mark (view.rule rule.now).facts name.now }
{
    let by_fr = is_made_fresh(name, &rule.facts.premises);
    let sort = first_sort(rule, variables, name);
    stands_otherwise(by_fr, sort, name, variables)
}

/// Tells of each variable of the rule that stands with two sorts.
#[tactic(auto, using(sp_finding::proofs::Telling::told_on))]
fn tell_two_sorts(
    alloc: Global,
    lines: &mut Texts,
    rule: &WrittenRule,
    variables: &Vec<WrittenVariable>,
) -> Result<(), AllocError>
    requires { map view.variable variables.now.items ≡ occurrences (view.rule rule.now).facts }
    ensures { OnOk result (texts_of lines.new ≡ lines_after (texts_of lines.old) (spec.two_sorted rule.now.name.now (view.rule rule.now).facts (map view.variable variables.now.items))) }
{
    for variable in variables {
        let is_wrong = has_other_mark(rule, variables, variable.name);
        tell_if(
            alloc,
            lines,
            is_wrong,
            Finding::OnRule(rule.name, RuleFinding::TwoSorts(variable.name)),
        )?;
    }
    Ok(())
}

/// Tells of the sorts in a rule.
///
/// # Errors
///
/// `AllocError` where memory is wanting.
pub fn tell_sorts(alloc: Global, lines: &mut Texts, rule: &WrittenRule) -> Result<(), AllocError>
    ensures { OnOk result (texts_of lines.new ≡ lines_after (texts_of lines.old) (spec.sorts_in_rule (view.rule rule.now))) }
{
    let variables = occurrences(alloc, rule)?;
    tell_two_sorts(alloc, lines, rule, &variables)
}

/// Whether a variable of this name stands in the term.
#[cycle(stands)]
fn stands_in(name: &str, term: &WrittenTerm) -> bool
    ensures { result ≡ findings.is_named name.now (in_term (view.term term.now)) }
{
    match term {
        Term::Var(variable) => variable.name == name,
        Term::Constant(_) | Term::FreshName(_) => false,
        Term::App(_, terms, _) => stands_in_one(name, terms),
    }
}

/// Whether a variable of this name stands in one of the terms.
#[cycle(stands)]
fn stands_in_one(name: &str, terms: &Vec<WrittenTerm>) -> bool
    ensures { result ≡ findings.is_named name.now (in_terms (view.terms terms.now.items)) }
{
    for term in terms {
        if stands_in(name, term) {
            return true;
        }
    }
    false
}

/// Whether a variable of this name stands in one of the facts.
fn stands_among(name: &str, facts: &Vec<WrittenFact>) -> bool
    ensures { result ≡ stands_among name.now (facts_of facts.now.items) }
{
    for fact in facts {
        if stands_in_one(name, &fact.args) {
            return true;
        }
    }
    false
}

fn is_public(sort: Sort) -> bool
    ensures { result ≡ findings.is_pub (sort_of sort) }
{
    match sort {
        Sort::Pub => true,
        Sort::Fresh => false,
        Sort::Msg => false,
    }
}

/// Whether the name isn't public and stands in no premise.
#[tactic(auto, using(crate::proofs::Standing::among))]
fn is_unbound(rule: &WrittenRule, variables: &Vec<WrittenVariable>, name: &str) -> bool
    requires { map view.variable variables.now.items ≡ occurrences (view.rule rule.now).facts }
    ensures { result ≡ (not (findings.is_pub (spec.first_sort (view.rule rule.now).facts name.now)) && not (findings.is_named name.now (in_facts (view.rule rule.now).facts.premises))) }
{
    let sort = first_sort(rule, variables, name);
    !is_public(sort) && !stands_among(name, &rule.facts.premises)
}

/// Tells of each of the variables that isn't public and stands in no premise.
#[tactic(auto, using(sp_finding::proofs::Telling::told_on))]
fn tell_unbound_variables(
    alloc: Global,
    lines: &mut Texts,
    rule: &WrittenRule,
    variables: &Vec<WrittenVariable>,
) -> Result<(), AllocError>
    requires { map view.variable variables.now.items ≡ occurrences (view.rule rule.now).facts }
    ensures { OnOk result (texts_of lines.new ≡ lines_after (texts_of lines.old) (spec.unbound rule.now.name.now (view.rule rule.now).facts (map view.variable variables.now.items))) }
{
    for variable in variables {
        let is_wrong = is_unbound(rule, variables, variable.name);
        tell_if(
            alloc,
            lines,
            is_wrong,
            Finding::OnRule(rule.name, RuleFinding::NotBound(variable.name)),
        )?;
    }
    Ok(())
}

/// Tells of each variable of an action or a conclusion that isn't public and stands in no premise.
///
/// # Errors
///
/// `AllocError` where memory is wanting.
pub fn tell_unbound(alloc: Global, lines: &mut Texts, rule: &WrittenRule) -> Result<(), AllocError>
    ensures { OnOk result (texts_of lines.new ≡ lines_after (texts_of lines.old) (spec.unbound_in_rule (view.rule rule.now))) }
{
    let variables = occurrences(alloc, rule)?;
    tell_unbound_variables(alloc, lines, rule, &variables)?;
    Ok(())
}
