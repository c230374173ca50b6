// The lines of steps.

ghost use Rattle.std.specs.Prelude.{◌≡◌, ◌++◌, IfOk, OnOk, codes, map, string_bytes};
ghost use Rattle.sp_spec.specs.Term.{app};
ghost use Rattle.sp_term.specs.View.{name_of};
ghost use Rattle.sp_fact.specs.GroundView.{given_of, ground_of, grounds_of, step_of};
ghost use Rattle.sp_spec_printed.specs.Printed.{given_text, step_text, term_text};
ghost use Rattle.sp_spec.specs.Lists.{Every};
ghost use Rattle.sp_show.specs.Numbers.{HasNames, HaveNames, StepHasNames, numbered_names};
ghost use Rattle.sp_show.specs.Runs.{given_start};

use crate::term::{write_application, write_term};
use sp_fact::ground_term::GroundTerm;
use sp_fact::step::{Given, Step};
use sp_term::term::Name;
use std::alloc::{AllocError, Global};

/// Puts what stands before the value of a variable.
fn write_given_start(out: &mut String, first: bool) -> Result<(), AllocError>
    ensures { OnOk result (string_bytes out.new ≡ string_bytes out.old ++ given_start first) }
{
    if first {
        out.push_str(" ")
    } else {
        out.push_str(", ")
    }
}

/// Puts the value of a variable behind its name.
fn write_one(out: &mut String, given: &Given) -> Result<(), AllocError>
    ensures text { OnOk result (string_bytes out.new ≡ string_bytes out.old ++ (name_of given.now.variable ++ (codes " = " ++ term_text (ground_of given.now.value)))) }
    ensures numbered { OnOk result (HasNames numbered_names (ground_of given.now.value)) }
{
    out.push_str(given.variable.text.as_str())?;
    out.push_str(" = ")?;
    write_term(out, &given.value)
}

/// Puts the values of a rule's variables.
fn write_given(out: &mut String, given: &Vec<Given>) -> Result<(), AllocError>
    ensures text { OnOk result (string_bytes out.new ≡ string_bytes out.old ++ given_text (map given_of given.now.items)) }
    ensures numbered { OnOk result (Every (λ g. HasNames numbered_names g.1) (map given_of given.now.items)) }
{
    let mut first = true;
    for one in given {
        write_given_start(out, first)?;
        write_one(out, one)?;
        first = false;
    }
    Ok(())
}

/// A word and a term.
fn word_line(alloc: Global, word: &str, term: &GroundTerm) -> Result<String, AllocError>
    ensures text { IfOk result (λ text. string_bytes text ≡ word.now ++ term_text (ground_of term.now)) }
    ensures numbered { OnOk result (HasNames numbered_names (ground_of term.now)) }
{
    let mut out = String::from_str(alloc, word)?;
    write_term(&mut out, term)?;
    Ok(out)
}

/// The line of a rule, with the values of its variables.
fn rule_line(alloc: Global, name: &Name, given: &Vec<Given>) -> Result<String, AllocError>
    ensures text { IfOk result (λ text. string_bytes text ≡ codes "rule " ++ (name_of name.now ++ (codes ":" ++ given_text (map given_of given.now.items)))) }
    ensures numbered { OnOk result (Every (λ g. HasNames numbered_names g.1) (map given_of given.now.items)) }
{
    let mut out = String::from_str(alloc, "rule ")?;
    out.push_str(name.text.as_str())?;
    out.push_str(":")?;
    write_given(&mut out, given)?;
    Ok(out)
}

/// The line of a symbol that is applied.
fn symbol_line(alloc: Global, symbol: &Name, terms: &Vec<GroundTerm>) -> Result<String, AllocError>
    ensures text { IfOk result (λ text. string_bytes text ≡ codes "make " ++ term_text (app (name_of symbol.now) (grounds_of terms.now.items))) }
    ensures numbered { OnOk result (HaveNames numbered_names (grounds_of terms.now.items)) }
{
    let mut out = String::from_str(alloc, "make ")?;
    write_application(&mut out, symbol, terms)?;
    Ok(out)
}

/// The line of a step, without its line feed.
///
/// # Errors
///
/// `AllocError` where memory is wanting.
pub fn step_line(alloc: Global, step: &Step) -> Result<String, AllocError>
    ensures text { IfOk result (λ text. string_bytes text ≡ step_text (step_of step.now)) }
    ensures numbered { OnOk result (StepHasNames numbered_names (step_of step.now)) }
{
    match step {
        Step::MakeFresh(term) => word_line(alloc, "fresh ", term),
        Step::UseRule(name, given) => rule_line(alloc, name, given),
        Step::TakeOut(term) => word_line(alloc, "out ", term),
        Step::PutIn(term) => word_line(alloc, "in ", term),
        Step::KnowPublic(term) => word_line(alloc, "pub ", term),
        Step::MakeOwn(term) => word_line(alloc, "own ", term),
        Step::ApplySymbol(symbol, terms) => symbol_line(alloc, symbol, terms),
    }
}
