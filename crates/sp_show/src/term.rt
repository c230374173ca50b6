// The texts of ground terms.

ghost use Rattle.std.specs.Prelude.{◌≡◌, ◌<◌, ◌^◌, ◌++◌, OnOk, true, codes, decimal, string_bytes};
ghost use Rattle.sp_spec.specs.Term.{app};
ghost use Rattle.sp_term.specs.View.{name_of};
ghost use Rattle.sp_fact.specs.GroundView.{ground_of, grounds_of};
ghost use Rattle.sp_spec_printed.specs.Printed.{arguments_text, is_pair, term_text, text_at};
ghost use Rattle.sp_show.specs.Numbers.{HasNames, HaveNames, numbered_names};
ghost use Rattle.sp_show.specs.Runs.{closing, opening, separator, terms_run};

use sp_fact::ground_term::GroundTerm;
use sp_term::term::{Name, Term};
use std::alloc::AllocError;

/// Whether this symbol over these arguments is a pair.
fn is_pair(symbol: &Name, terms: &Vec<GroundTerm>) -> bool
    ensures { result ≡ is_pair (name_of symbol.now) (grounds_of terms.now.items) }
{
    symbol.text.as_str() == "pair" && terms.len() == 2
}

/// Puts what stands before the arguments.
fn write_opening(
    out: &mut String,
    symbol: &Name,
    terms: &Vec<GroundTerm>,
    ends: bool,
) -> Result<(), AllocError>
    ensures { OnOk result (string_bytes out.new ≡ string_bytes out.old ++ opening ends (name_of symbol.now) (grounds_of terms.now.items)) }
{
    if terms.is_empty() {
        return out.push_str(symbol.text.as_str());
    }
    if !is_pair(symbol, terms) {
        out.push_str(symbol.text.as_str())?;
        out.push_str("(")?;
        return Ok(());
    }
    if ends {
        return Ok(());
    }
    out.push_str("<")
}

/// Puts what stands behind the arguments.
fn write_closing(
    out: &mut String,
    symbol: &Name,
    terms: &Vec<GroundTerm>,
    ends: bool,
) -> Result<(), AllocError>
    ensures { OnOk result (string_bytes out.new ≡ string_bytes out.old ++ closing ends (name_of symbol.now) (grounds_of terms.now.items)) }
{
    if terms.is_empty() {
        return Ok(());
    }
    if !is_pair(symbol, terms) {
        out.push_str(")")?;
        return Ok(());
    }
    if ends {
        return Ok(());
    }
    out.push_str(">")
}

/// Puts what stands before an element of a row.
pub fn write_separator(out: &mut String, first: bool) -> Result<(), AllocError>
    ensures { OnOk result (string_bytes out.new ≡ string_bytes out.old ++ separator first) }
{
    if first {
        return Ok(());
    }
    out.push_str(", ")
}

/// Puts the text of a public name.
fn write_constant(out: &mut String, name: &Name) -> Result<(), AllocError>
    ensures { OnOk result (string_bytes out.new ≡ string_bytes out.old ++ (codes "'" ++ (name_of name.now ++ codes "'"))) }
{
    out.push_str("'")?;
    out.push_str(name.text.as_str())?;
    out.push_str("'")
}

/// Puts the text of a fresh name.
fn write_fresh_name(out: &mut String, number: u128) -> Result<(), AllocError>
    ensures number { number < 2 ^ 128 }
    ensures text { OnOk result (string_bytes out.new ≡ string_bytes out.old ++ (codes "~n" ++ decimal number)) }
{
    write!(out, "~n{number}")
}

/// Puts the text of the term, which goes on with a row where it is a pair at its end.
#[cycle(text)]
fn write_at(out: &mut String, term: &GroundTerm, ends: bool) -> Result<(), AllocError>
    ensures text { OnOk result (string_bytes out.new ≡ string_bytes out.old ++ text_at ends (ground_of term.now)) }
    ensures numbered { OnOk result (HasNames numbered_names (ground_of term.now)) }
{
    match term {
        Term::Var(never) => match never.leaf {},
        Term::Constant(name) => write_constant(out, name),
        Term::FreshName(number) => write_fresh_name(out, *number),
        Term::App(symbol, shared, _) => {
            let terms: &Vec<GroundTerm> = shared;
            write_opening(out, symbol, terms, ends)?;
            write_row(out, terms, is_pair(symbol, terms))?;
            write_closing(out, symbol, terms, ends)
        }
    }
}

/// Puts the texts of the terms, with commas between them.
#[cycle(text)]
fn write_row(out: &mut String, terms: &Vec<GroundTerm>, in_pair: bool) -> Result<(), AllocError>
    ensures text { OnOk result (string_bytes out.new ≡ string_bytes out.old ++ terms_run true in_pair (grounds_of terms.now.items)) }
    ensures numbered { OnOk result (HaveNames numbered_names (grounds_of terms.now.items)) }
{
    let mut first = true;
    for term in terms {
        write_separator(out, first)?;
        write_at(out, term, in_pair && !first)?;
        first = false;
    }
    Ok(())
}

/// Puts the text of the term.
pub fn write_term(out: &mut String, term: &GroundTerm) -> Result<(), AllocError>
    ensures text { OnOk result (string_bytes out.new ≡ string_bytes out.old ++ term_text (ground_of term.now)) }
    ensures numbered { OnOk result (HasNames numbered_names (ground_of term.now)) }
{
    write_at(out, term, false)
}

/// Puts the text of the symbol over these arguments.
pub fn write_application(
    out: &mut String,
    symbol: &Name,
    terms: &Vec<GroundTerm>,
) -> Result<(), AllocError>
    ensures text { OnOk result (string_bytes out.new ≡ string_bytes out.old ++ term_text (app (name_of symbol.now) (grounds_of terms.now.items))) }
    ensures numbered { OnOk result (HaveNames numbered_names (grounds_of terms.now.items)) }
{
    write_opening(out, symbol, terms, false)?;
    write_row(out, terms, is_pair(symbol, terms))?;
    write_closing(out, symbol, terms, false)
}

/// Puts the texts of the arguments, with commas between them.
pub fn write_arguments(out: &mut String, terms: &Vec<GroundTerm>) -> Result<(), AllocError>
    ensures { OnOk result (string_bytes out.new ≡ string_bytes out.old ++ arguments_text (grounds_of terms.now.items)) }
{
    write_row(out, terms, false)
}
