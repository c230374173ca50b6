// Applications of symbols in lines, behind the word of them.

ghost use Rattle.std.specs.Prelude.{◌≡◌, ◌≢◌, ◌&&◌, not, nat_lt, [], ◌∷◌, MatchOption, IfOk, codes, map, option_map};
ghost use Rattle.sp_term.specs.View.{name_of};
ghost use Rattle.sp_fact.specs.GroundView.{ground_of, step_of};
ghost use Rattle.sp_read_steps.specs.Reading as spec;
ghost use Rattle.sp_read_steps.specs.Reading.{NoReading, NoWhole, ReadsRow, ReadsApplication};
ghost use Rattle.sp_read_steps.specs.View.{symbols_of};

use crate::terms::{chain, has_symbol, is_pair, row};
use crate::texts::{behind, is_nothing, name};
use sp_fact::ground_term::GroundTerm;
use sp_fact::signature::Symbol;
use sp_fact::step::Step;
use sp_term::term::{MOST_NESTED, Name};
use std::alloc::{AllocError, Global};

/// The terms in the brackets of an application, of which the closing byte ends the text.
///
/// The application itself is no term in memory, so these may nest as deep as terms may.
fn whole_row(
    alloc: Global,
    symbols: &Vec<Symbol>,
    close: u8,
    text: &[u8],
) -> Result<Option<Vec<GroundTerm>>, AllocError>
    requires { close ≢ 44 }
    ensures { IfOk result (λ o. MatchOption o (NoWhole (ReadsRow (symbols_of symbols.now.items) close) text.now) (λ v. ReadsRow (symbols_of symbols.now.items) close text.now (map ground_of v.items) [])) }
{
    let Some((found, rest)) = row(alloc, symbols, MOST_NESTED + 1, close, text)? else {
        return Ok(None);
    };
    if is_nothing(rest) {
        Ok(Some(found))
    } else {
        Ok(None)
    }
}

/// The application of the symbol to the terms; none where they are a pair, which is written in other brackets.
fn unpaired(symbol: Name, terms: Vec<GroundTerm>) -> Option<Step>
    ensures { option_map step_of result ≡ spec.unpaired (name_of symbol) (map ground_of terms.items) }
{
    if is_pair(symbol.text.as_str(), &terms) {
        None
    } else {
        Some(Step::ApplySymbol(symbol, terms))
    }
}

/// The application of the symbol of pairs to these two.
fn pair_step(alloc: Global, left: GroundTerm, right: GroundTerm) -> Result<Step, AllocError>
    ensures { IfOk result (λ s. step_of s ≡ spec.pair_of (ground_of left) (ground_of right)) }
{
    let mut parts = Vec::new(alloc);
    parts.push(left)?;
    parts.push(right)?;
    let symbol = Name::new(alloc, "pair")?;
    Ok(Step::ApplySymbol(symbol, parts))
}

/// Whether the pair of so many terms has a pair inside of it for which there is no symbol.
fn lacks_pair(symbols: &Vec<Symbol>, count: usize) -> bool
    ensures { result ≡ (nat_lt 2 count && not (spec.has_symbol (symbols_of symbols.now.items) (codes "pair") 2)) }
{
    count > 2 && !has_symbol(symbols, "pair", 2)
}

/// The application that makes the pair of these terms, where they are written as a pair is.
fn pairing(
    alloc: Global,
    symbols: &Vec<Symbol>,
    mut terms: Vec<GroundTerm>,
) -> Result<Option<Step>, AllocError>
    ensures { IfOk result (λ o. option_map step_of o ≡ spec.pairing (symbols_of symbols.now.items) (map ground_of terms.items)) }
{
    if terms.is_empty() || lacks_pair(symbols, terms.len()) {
        return Ok(None);
    }
    let left = terms.remove(0);
    let Some(right) = chain(alloc, terms)? else {
        return Ok(None);
    };
    let made = pair_step(alloc, left, right)?;
    Ok(Some(made))
}

/// The application that makes a pair, behind its bracket and up to the end.
#[tactic(auto, using(crate::proofs::Exits::applications_read))]
fn pair_application(
    alloc: Global,
    symbols: &Vec<Symbol>,
    inside: &[u8],
) -> Result<Option<Step>, AllocError>
    ensures { IfOk result (λ o. MatchOption o (NoReading (ReadsApplication (symbols_of symbols.now.items)) (60 ∷ inside.now)) (λ s. ReadsApplication (symbols_of symbols.now.items) (60 ∷ inside.now) (step_of s) [])) }
{
    let Some(terms) = whole_row(alloc, symbols, b'>', inside)? else {
        return Ok(None);
    };
    let made = pairing(alloc, symbols, terms)?;
    Ok(made)
}

/// The application of a symbol, behind the word of it and up to the end; the symbol may be any name.
#[tactic(auto, using(crate::proofs::Exits::applications_read))]
pub fn application(
    alloc: Global,
    symbols: &Vec<Symbol>,
    text: &[u8],
) -> Result<Option<Step>, AllocError>
    ensures { IfOk result (λ o. MatchOption o (NoReading (ReadsApplication (symbols_of symbols.now.items)) text.now) (λ s. ReadsApplication (symbols_of symbols.now.items) text.now (step_of s) [])) }
{
    if let Some(inside) = behind(b'<', text) {
        let made = pair_application(alloc, symbols, inside)?;
        return Ok(made);
    }
    let Some((found, rest)) = name(text) else {
        return Ok(None);
    };
    let symbol = Name::new(alloc, found)?;
    if is_nothing(rest) {
        return Ok(Some(Step::ApplySymbol(symbol, Vec::new(alloc))));
    }
    let Some(inside) = behind(b'(', rest) else {
        return Ok(None);
    };
    let Some(terms) = whole_row(alloc, symbols, b')', inside)? else {
        return Ok(None);
    };
    Ok(unpaired(symbol, terms))
}
