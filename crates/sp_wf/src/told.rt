// The findings on each rule and on each restriction and lemma, one kind after the other.

ghost use Rattle.std.specs.Prelude.{◌≡◌, OnOk, map};
ghost use Rattle.sp_declared.specs.WrittenRules.{item_written, rules_written};
ghost use Rattle.sp_written.specs.Views as view;
ghost use Rattle.sp_read_parts.specs.Views as parts;
ghost use Rattle.sp_read_parts.specs.Formulas as written;
ghost use Rattle.sp_finding.specs.Finding.{lines_after, two_sorts};
ghost use Rattle.sp_lines.specs.TextsView.{texts_of};
ghost use Rattle.sp_wf_rules.specs.BindingView.{names_of};
ghost use Rattle.sp_wf_formulas.specs.Statements.{statement, item_statements, statements_in};
ghost use Rattle.sp_wf.specs.ItemFindings as spec;
ghost use Rattle.sp_wf.specs.Told.{on_rule, on_bound, on_statement};

use crate::names::tell_twice;
use sp_fact::signature::Equation;
use sp_finding::{Finding, RuleFinding, tell_if};
use sp_lines::Texts;
use sp_read_parts::{ReadFormula, WrittenRule};
use sp_wf_formulas::{
    Sought, TermFault, tell_formula_destructors, tell_sought, tell_terms_of, tell_unguarded,
};
use sp_wf_rules::{
    BoundNames, tell_arguments, tell_destructors, tell_reserved, tell_sorts, tell_unbound,
    tell_wide,
};
use sp_wf_symbols::tell_wide_symbols;
use sp_written::Item;
use std::alloc::{AllocError, Global};

// ---- rules

/// What may be wrong with a rule, in which values stand for the names that are bound.
#[derive(Clone, Copy)]
pub enum RuleFault<'a> {
    Reserved,
    Arguments,
    /// one of these equations
    Destructor(&'a Vec<Equation>),
    Unbound,
}

fn tell_on_rule(
    alloc: Global,
    lines: &mut Texts,
    fault: RuleFault,
    rule: &WrittenRule,
) -> Result<(), AllocError>
    ensures { OnOk result (texts_of lines.new ≡ lines_after (texts_of lines.old) (on_rule fault.entry (parts.rule rule.now))) }
{
    match fault {
        RuleFault::Reserved => tell_reserved(alloc, lines, rule),
        RuleFault::Arguments => tell_arguments(alloc, lines, rule),
        RuleFault::Destructor(equations) => tell_destructors(alloc, lines, equations, rule),
        RuleFault::Unbound => tell_unbound(alloc, lines, rule),
    }
}

fn tell_if_rule(
    alloc: Global,
    lines: &mut Texts,
    fault: RuleFault,
    item: &Item,
) -> Result<(), AllocError>
    ensures { OnOk result (texts_of lines.new ≡ lines_after (texts_of lines.old) (spec.on_rules (on_rule fault.entry) (item_written (view.item item.now)))) }
{
    match item {
        Item::Rule(bound) => tell_on_rule(alloc, lines, fault, &bound.rule),
        _ => Ok(()),
    }
}

/// Tells of what is looked for, in each rule.
pub fn tell_rules(
    alloc: Global,
    lines: &mut Texts,
    fault: RuleFault,
    items: &Vec<Item>,
) -> Result<(), AllocError>
    ensures { OnOk result (texts_of lines.new ≡ lines_after (texts_of lines.old) (spec.on_rules (on_rule fault.entry) (rules_written (view.items items.now.items)))) }
{
    for item in items {
        tell_if_rule(alloc, lines, fault, item)?;
    }
    Ok(())
}

// ---- rules, with the names that they bind

/// What may be wrong with the names that a rule binds, and with the marks in it.
#[derive(Clone, Copy)]
pub enum BindingFault {
    /// a name is bound twice
    Twice,
    /// a variable stands with two sorts, or a bound name with another mark than its binding's
    Marks,
}

/// Tells of each of these names that it stands with another mark than its binding's.
#[tactic(auto, using(sp_finding::proofs::Telling::told_on))]
fn tell_misused(
    alloc: Global,
    lines: &mut Texts,
    rule: &str,
    bound: &BoundNames,
) -> Result<(), AllocError>
    ensures { OnOk result (texts_of lines.new ≡ lines_after (texts_of lines.old) (map (two_sorts rule.now) (names_of bound.now).misused)) }
{
    for name in &bound.misused {
        let finding = Finding::OnRule(rule, RuleFinding::TwoSorts(*name));
        tell_if(alloc, lines, true, finding)?;
    }
    Ok(())
}

/// Tells of the marks in the rule.
#[tactic(auto, using(sp_finding::proofs::Telling::one_behind))]
fn tell_marks(
    alloc: Global,
    lines: &mut Texts,
    bound: &BoundNames,
    rule: &WrittenRule,
) -> Result<(), AllocError>
    ensures { OnOk result (texts_of lines.new ≡ lines_after (texts_of lines.old) (spec.marks_in_rule (names_of bound.now) (parts.rule rule.now))) }
{
    tell_sorts(alloc, lines, rule)?;
    tell_misused(alloc, lines, rule.name, bound)
}

fn tell_on_bound(
    alloc: Global,
    lines: &mut Texts,
    fault: BindingFault,
    bound: &BoundNames,
    rule: &WrittenRule,
) -> Result<(), AllocError>
    ensures { OnOk result (texts_of lines.new ≡ lines_after (texts_of lines.old) (on_bound fault (names_of bound.now) (parts.rule rule.now))) }
{
    match fault {
        BindingFault::Twice => tell_twice(alloc, lines, rule.name, bound),
        BindingFault::Marks => tell_marks(alloc, lines, bound, rule),
    }
}

fn tell_if_bound(
    alloc: Global,
    lines: &mut Texts,
    fault: BindingFault,
    bound: &BoundNames,
    item: &Item,
) -> Result<(), AllocError>
    ensures { OnOk result (texts_of lines.new ≡ lines_after (texts_of lines.old) (spec.on_rules (on_bound fault (names_of bound.now)) (item_written (view.item item.now)))) }
{
    match item {
        Item::Rule(rule) => tell_on_bound(alloc, lines, fault, bound, &rule.rule),
        _ => Ok(()),
    }
}

/// Tells of what is looked for, in each rule with what it binds; these are what the items bind, one for each.
pub fn tell_bound(
    alloc: Global,
    lines: &mut Texts,
    fault: BindingFault,
    bound: &Vec<BoundNames>,
    items: &Vec<Item>,
) -> Result<(), AllocError>
    ensures { OnOk result (texts_of lines.new ≡ lines_after (texts_of lines.old) (spec.with_bound (on_bound fault) (map names_of bound.now.items) (view.items items.now.items))) }
{
    for (place, item) in items.iter().enumerate() {
        if let Some(names) = bound.get(place) {
            tell_if_bound(alloc, lines, fault, names, item)?;
        }
    }
    Ok(())
}

// ---- restrictions and lemmas

/// What may be wrong with the formula of a restriction or a lemma.
#[derive(Clone, Copy)]
pub enum FormulaFault<'a> {
    Unbound,
    /// a variable isn't guarded, in a formula without destructors of these equations
    Unguarded(&'a Vec<Equation>),
    /// one of these equations
    Destructor(&'a Vec<Equation>),
    OtherSort,
    Mixed,
}

#[tactic(auto, using(sp_wf_formulas::proofs::Formulas::sought_unbound, sp_wf_formulas::proofs::Formulas::sought_other, sp_wf_formulas::proofs::Formulas::sought_mixed))]
fn tell_on_statement<'a>(
    alloc: Global,
    lines: &mut Texts,
    fault: FormulaFault,
    name: &'a str,
    formula: &ReadFormula<'a>,
) -> Result<(), AllocError>
    ensures { OnOk result (texts_of lines.new ≡ lines_after (texts_of lines.old) (on_statement fault.entry (statement name.now (written.formula formula.now)))) }
{
    match fault {
        FormulaFault::Unbound => tell_sought(alloc, lines, Sought::Unbound, name, formula),
        FormulaFault::Unguarded(equations) => {
            tell_unguarded(alloc, lines, equations, name, formula)
        }
        FormulaFault::Destructor(equations) => {
            tell_formula_destructors(alloc, lines, equations, name, formula)
        }
        FormulaFault::OtherSort => tell_sought(alloc, lines, Sought::OtherSort, name, formula),
        FormulaFault::Mixed => tell_sought(alloc, lines, Sought::Mixed, name, formula),
    }
}

#[tactic(auto, using(crate::proofs::ItemKinds::as_statement))]
fn tell_if_statement(
    alloc: Global,
    lines: &mut Texts,
    fault: FormulaFault,
    item: &Item,
) -> Result<(), AllocError>
    ensures { OnOk result (texts_of lines.new ≡ lines_after (texts_of lines.old) (spec.on_lemmas (on_statement fault.entry) (item_statements (view.item item.now)))) }
{
    match item {
        Item::Restriction(restriction) => {
            tell_on_statement(alloc, lines, fault, restriction.name, &restriction.formula)
        }
        Item::Lemma(lemma) => { tell_on_statement(alloc, lines, fault, lemma.name, &lemma.formula) }
        _ => Ok(()),
    }
}

/// Tells of what is looked for, in each restriction and each lemma.
pub fn tell_statements(
    alloc: Global,
    lines: &mut Texts,
    fault: FormulaFault,
    items: &Vec<Item>,
) -> Result<(), AllocError>
    ensures { OnOk result (texts_of lines.new ≡ lines_after (texts_of lines.old) (spec.on_lemmas (on_statement fault.entry) (statements_in (view.items items.now.items)))) }
{
    for item in items {
        tell_if_statement(alloc, lines, fault, item)?;
    }
    Ok(())
}

// ---- too many arguments

fn tell_wide_item(alloc: Global, lines: &mut Texts, item: &Item) -> Result<(), AllocError>
    ensures { OnOk result (texts_of lines.new ≡ lines_after (texts_of lines.old) (spec.wide_in_item (view.item item.now))) }
{
    match item {
        Item::Functions(symbols) => tell_wide_symbols(alloc, lines, symbols),
        Item::Rule(bound) => tell_wide(alloc, lines, &bound.rule),
        Item::Restriction(restriction) => {
            tell_terms_of(alloc, lines, TermFault::Wide, &restriction.formula)
        }
        Item::Lemma(lemma) => tell_terms_of(alloc, lines, TermFault::Wide, &lemma.formula),
        _ => Ok(()),
    }
}

/// Tells of symbols, facts and actions that have too many arguments, in functions, rules, restrictions and lemmas alike.
pub fn tell_arities(alloc: Global, lines: &mut Texts, items: &Vec<Item>) -> Result<(), AllocError>
    ensures { OnOk result (texts_of lines.new ≡ lines_after (texts_of lines.old) (spec.wide_in_items (view.items items.now.items))) }
{
    for item in items {
        tell_wide_item(alloc, lines, item)?;
    }
    Ok(())
}
