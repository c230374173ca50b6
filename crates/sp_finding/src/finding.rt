// Findings, and the lines that say them.

ghost use Rattle.std.specs.Prelude.{◌≡◌, [], IfOk, OnOk, string_bytes};
ghost use Rattle.sp_finding.specs.Finding as spec;
ghost use Rattle.sp_finding.specs.Finding.{lines_after};
ghost use Rattle.sp_finding.specs.View.{finding_of, on_formula, on_rule};
ghost use Rattle.sp_lines.specs.TextsView.{texts_of};

use sp_lines::Texts;
use std::alloc::{AllocError, Global};

/// A fatal finding on a theory.
#[derive(Clone, Copy)]
pub enum Finding<'a> {
    /// no builtin has this name
    BuiltinLeftOut(&'a str),
    /// a symbol of this name is declared in two ways
    DeclaredTwice(&'a str),
    /// no symbol has this name and so many arguments
    UnknownSymbol(&'a str, usize),
    /// a symbol, a fact or an action of this name has more than sixteen arguments
    ArityAbove(&'a str),
    /// the equation of this number isn't of the form that is asked for
    WrongShape(usize),
    /// the right side of the equation of this number is a constant that is private
    PrivateConstant(usize),
    /// the equations of these numbers clash
    Clash(usize, usize),
    /// two rules, or two restrictions or lemmas, have this name
    UsedTwice(&'a str),
    /// one on the rule of this name
    OnRule(&'a str, RuleFinding<'a>),
    /// one on the formula of the restriction or the lemma of this name
    OnFormula(&'a str, FormulaFinding<'a>),
    /// the restriction of this name names the action of learning
    RestrictsLearning(&'a str),
    /// the lemma of this name has an attribute that isn't known, the second
    AttributeLeftOut(&'a str, &'a str),
}

/// What is wrong with a rule.
#[derive(Clone, Copy)]
pub enum RuleFinding<'a> {
    /// a name is bound twice
    BoundTwice(&'a str),
    /// a variable stands with two sorts
    TwoSorts(&'a str),
    /// a fact stands where it may not
    Reserved(&'a str),
    /// the argument of an Fr is no variable that may be fresh
    FrArgument,
    /// a destructor stands in a premise
    Destructor,
    /// a variable of an action or a conclusion stands in no premise
    NotBound(&'a str),
}

/// What is wrong with a formula.
#[derive(Clone, Copy)]
pub enum FormulaFinding<'a> {
    /// a variable has no binder
    NotBound(&'a str),
    /// a variable isn't guarded
    NotGuarded(&'a str),
    /// a destructor stands in it
    Destructor,
    /// a variable is marked with another sort than its binder
    OtherSort(&'a str),
    /// a time stands for a message, or a message for a time
    MixedAt(&'a str),
}

#[tactic(auto, unfolding(crate::specs::Finding::line))]
fn rule_line(alloc: Global, rule: &str, finding: RuleFinding) -> Result<String, AllocError>
    ensures { IfOk result (λ l. string_bytes l ≡ spec.line (on_rule rule.now finding.entry)) }
{
    match finding {
        RuleFinding::BoundTwice(name) => {
            format!(in alloc; "fatal: rule {rule}: let name {name} bound twice")
        }
        RuleFinding::TwoSorts(name) => {
            format!(in alloc; "fatal: rule {rule}: variable {name} has two sorts")
        }
        RuleFinding::Reserved(fact) => {
            format!(in alloc; "fatal: rule {rule}: reserved fact {fact}")
        }
        RuleFinding::FrArgument => format!(in alloc; "fatal: rule {rule}: Fr argument"),
        RuleFinding::Destructor => {
            format!(in alloc; "fatal: rule {rule}: destructor in a premise")
        }
        RuleFinding::NotBound(name) => {
            format!(in alloc; "fatal: rule {rule}: variable {name} not bound")
        }
    }
}

#[tactic(auto, unfolding(crate::specs::Finding::line))]
fn formula_line(alloc: Global, formula: &str, finding: FormulaFinding) -> Result<String, AllocError>
    ensures { IfOk result (λ l. string_bytes l ≡ spec.line (on_formula formula.now finding.entry)) }
{
    match finding {
        FormulaFinding::NotBound(name) => {
            format!(in alloc; "fatal: formula {formula}: variable {name} not bound")
        }
        FormulaFinding::NotGuarded(name) => {
            format!(in alloc; "fatal: formula {formula}: variable {name} not guarded")
        }
        FormulaFinding::Destructor => format!(in alloc; "fatal: formula {formula}: destructor"),
        FormulaFinding::OtherSort(name) => {
            format!(in alloc;
                "fatal: formula {formula}: variable {name} has another sort than its binder"
            )
        }
        FormulaFinding::MixedAt(name) => {
            format!(in alloc; "fatal: formula {formula}: time and message mixed at {name}")
        }
    }
}

#[tactic(auto, unfolding(crate::specs::Finding::line))]
fn attribute_line(alloc: Global, lemma: &str, attribute: &str) -> Result<String, AllocError>
    ensures { IfOk result (λ l. string_bytes l ≡ spec.line (spec.attribute_left_out lemma.now attribute.now)) }
{
    format!(in alloc; "fatal: lemma {lemma}: attribute left out: {attribute}")
}

/// The line of a finding.
#[tactic(auto, unfolding(crate::specs::Finding::line))]
fn line(alloc: Global, finding: Finding) -> Result<String, AllocError>
    ensures { IfOk result (λ l. string_bytes l ≡ spec.line (finding_of finding.entry)) }
{
    match finding {
        Finding::BuiltinLeftOut(name) => format!(in alloc; "fatal: builtin left out: {name}"),
        Finding::DeclaredTwice(name) => format!(in alloc; "fatal: symbol {name} declared twice"),
        Finding::UnknownSymbol(name, count) => {
            format!(in alloc; "fatal: unknown symbol {name}/{count}")
        }
        Finding::ArityAbove(name) => format!(in alloc; "fatal: arity above 16: {name}"),
        Finding::WrongShape(number) => format!(in alloc; "fatal: equation {number}: shape"),
        Finding::PrivateConstant(number) => {
            format!(in alloc; "fatal: equation {number}: private constant")
        }
        Finding::Clash(first, second) => {
            format!(in alloc; "fatal: equations {first} and {second} clash")
        }
        Finding::UsedTwice(name) => format!(in alloc; "fatal: name {name} used twice"),
        Finding::OnRule(rule, finding) => rule_line(alloc, rule, finding),
        Finding::OnFormula(name, finding) => formula_line(alloc, name, finding),
        Finding::RestrictsLearning(name) => {
            format!(in alloc; "fatal: restriction {name} names KU")
        }
        Finding::AttributeLeftOut(lemma, attribute) => attribute_line(alloc, lemma, attribute),
    }
}

/// Puts the finding's line at the end, where the condition holds and the line doesn't stand yet.
///
/// # Errors
///
/// `AllocError` where memory is wanting.
pub fn tell_if(
    alloc: Global,
    lines: &mut Texts,
    holds: bool,
    finding: Finding,
) -> Result<(), AllocError>
    ensures { OnOk result (texts_of lines.new ≡ lines_after (texts_of lines.old) (spec.told holds (finding_of finding.entry) [])) }
{
    if holds {
        let line = line(alloc, finding)?;
        lines.see(line)?;
    }
    Ok(())
}
