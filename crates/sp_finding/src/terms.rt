// Symbols in terms that aren't there, and destructors in terms.

ghost use Rattle.std.specs.Prelude.{◌≡◌, [], not, OnOk, map};
ghost use Rattle.sp_spec.specs.Term.{count};
ghost use Rattle.sp_term.specs.View.{name_of};
ghost use Rattle.sp_fact.specs.GroundView.{equation_of};
ghost use Rattle.sp_conv.specs.Tests.{is_destructor};
ghost use Rattle.sp_read_parts.specs.Views as parts;
ghost use Rattle.sp_finding.specs.Finding.{lines_after, told, unknown_symbol};
ghost use Rattle.sp_finding.specs.KnownView.{symbols_of};
ghost use Rattle.sp_finding.specs.TermFindings as spec;
ghost use Rattle.sp_lines.specs.TextsView.{texts_of};

use crate::finding::{Finding, tell_if};
use crate::known::KnownSymbols;
use sp_conv::form::is_destructor;
use sp_fact::signature::Equation;
use sp_lines::Texts;
use sp_read_parts::WrittenTerm;
use sp_term::term::{Name, Term};
use std::alloc::{AllocError, Global};

/// How many terms there are.
#[tactic(auto, using(crate::proofs::Counted::counted))]
fn count(terms: &Vec<WrittenTerm>) -> usize
    ensures { result ≡ count (parts.terms terms.now.items) }
{
    terms.len()
}

/// Tells of the symbol over these terms where it isn't one of these symbols.
fn tell_symbol(
    alloc: Global,
    lines: &mut Texts,
    symbols: &KnownSymbols,
    symbol: &Name,
    terms: &Vec<WrittenTerm>,
) -> Result<(), AllocError>
    ensures { OnOk result (texts_of lines.new ≡ lines_after (texts_of lines.old) (told (not (spec.has_symbol (symbols_of symbols.now) (name_of symbol.now) (count (parts.terms terms.now.items)))) (unknown_symbol (name_of symbol.now) (count (parts.terms terms.now.items))) [])) }
{
    let count = count(terms);
    let is_unknown = !symbols.has(symbol, count);
    let finding = Finding::UnknownSymbol(symbol.text.as_str(), count);
    tell_if(alloc, lines, is_unknown, finding)
}

/// Tells of each symbol of the term that isn't one of these.
///
/// # Errors
///
/// `AllocError` where memory is wanting.
#[cycle(unknown)]
#[tactic(auto, using(crate::proofs::Telling::told_on))]
pub fn tell_unknown(
    alloc: Global,
    lines: &mut Texts,
    symbols: &KnownSymbols,
    term: &WrittenTerm,
) -> Result<(), AllocError>
    ensures { OnOk result (texts_of lines.new ≡ lines_after (texts_of lines.old) (spec.unknown_in (symbols_of symbols.now) (parts.term term.now))) }
{
    match term {
        Term::App(symbol, terms, _) => {
            tell_symbol(alloc, lines, symbols, symbol, terms)?;
            tell_unknown_in_all(alloc, lines, symbols, terms)?;
            Ok(())
        }
        _ => Ok(()),
    }
}

/// The same in each of the terms.
///
/// # Errors
///
/// `AllocError` where memory is wanting.
#[cycle(unknown)]
pub fn tell_unknown_in_all(
    alloc: Global,
    lines: &mut Texts,
    symbols: &KnownSymbols,
    terms: &Vec<WrittenTerm>,
) -> Result<(), AllocError>
    ensures { OnOk result (texts_of lines.new ≡ lines_after (texts_of lines.old) (spec.unknown_in_all (symbols_of symbols.now) (parts.terms terms.now.items))) }
{
    for term in terms {
        tell_unknown(alloc, lines, symbols, term)?;
    }
    Ok(())
}

/// Whether the symbol over these terms is a destructor.
fn is_destructor_over(equations: &Vec<Equation>, symbol: &Name, terms: &Vec<WrittenTerm>) -> bool
    ensures { result ≡ is_destructor (map equation_of equations.now.items) (name_of symbol.now) (count (parts.terms terms.now.items)) }
{
    is_destructor(equations, symbol, terms.len())
}

/// Whether a destructor stands in the term.
#[cycle(destructors)]
pub fn has_destructor(equations: &Vec<Equation>, term: &WrittenTerm) -> bool
    ensures { result ≡ spec.has_destructor (map equation_of equations.now.items) (parts.term term.now) }
{
    match term {
        Term::App(symbol, terms, _) => {
            is_destructor_over(equations, symbol, terms) || have_destructor(equations, terms)
        }
        _ => false,
    }
}

/// Whether a destructor stands in one of the terms.
#[cycle(destructors)]
pub fn have_destructor(equations: &Vec<Equation>, terms: &Vec<WrittenTerm>) -> bool
    ensures { result ≡ spec.have_destructor (map equation_of equations.now.items) (parts.terms terms.now.items) }
{
    for term in terms {
        if has_destructor(equations, term) {
            return true;
        }
    }
    false
}
