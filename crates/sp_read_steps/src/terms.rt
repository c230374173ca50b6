// Ground terms in bytes.

ghost use Rattle.std.specs.Prelude.{◌≡◌, ◌≢◌, [], ◌∷◌, ◌++◌, ◌+◌, length, MatchOption, IfSome, IfOk, OnOk, map, option_map};
ghost use Rattle.sp_spec_text.specs.Lex as lex;
ghost use Rattle.sp_spec_text.specs.Bytes as class;
ghost use Rattle.sp_fact.specs.GroundView.{ground_of, row};
ghost use Rattle.std.specs.Rc.{rc_str_bytes};
ghost use Rattle.sp_spec.specs.Signature as signature;
ghost use Rattle.sp_spec_printed.specs.Printed as text_spec;
ghost use Rattle.sp_read_steps.specs.Reading as spec;
ghost use Rattle.sp_read_steps.specs.Reading.{NoReading, NoPrefix, Reads, ReadsRow};
ghost use Rattle.sp_read_steps.specs.View.{symbols_of, head_of};

use crate::parts::Head;
use crate::texts::{
    after, before, behind, bytes_before, number_of, skip_constant, skip_word, split, word,
};
use sp_fact::ground_term::GroundTerm;
use sp_fact::signature::Symbol;
use sp_term::term::{Name, Term, nesting_over};
use std::alloc::{AllocError, Global};
use std::rc::Rc;

/// Whether there is a symbol of this name, over as many arguments.
pub fn has_symbol(symbols: &Vec<Symbol>, name: &str, arity: usize) -> bool
    ensures { result ≡ spec.has_symbol (symbols_of symbols.now.items) name.now arity }
{
    for symbol in symbols {
        if symbol.name.text.as_str() == name && symbol.arity == arity {
            return true;
        }
    }
    false
}

/// Whether these bytes may stand behind a term.
fn ends(rest: &[u8]) -> bool
    ensures { result ≡ spec.ends rest.now }
{
    match split(rest) {
        Some((byte, _)) => byte == b',' || byte == b')' || byte == b'>',
        None => true,
    }
}

/// The term, where it may end before these bytes.
fn ended(term: GroundTerm, rest: &[u8]) -> Head
    ensures { head_of result ≡ spec.ended (ground_of term) rest.now }
{
    if ends(rest) {
        Head::Whole(term, rest)
    } else {
        Head::Nothing
    }
}

/// A constant behind its first quote.
#[tactic(auto, using(sp_lex::proofs::Pieces::pieces))]
fn quoted_head(alloc: Global, body: &[u8]) -> Result<Head, AllocError>
    ensures { IfOk result (λ h. head_of h ≡ spec.quoted_head body.now (lex.skip class.Constant body.now)) }
{
    let rest = skip_constant(body);
    match split(rest) {
        Some((b'\'', behind)) if rest.len() < body.len() => {
            let name = Name::new(alloc, before(body, rest))?;
            let made = ended(Term::Constant(name), behind);
            Ok(made)
        }
        _ => Ok(Head::Nothing),
    }
}

/// A fresh name behind its tilde.
fn numbered_head(body: &[u8]) -> Head
    ensures { head_of result ≡ spec.numbered_head body.now }
{
    let Some((byte, digits)) = split(body) else {
        return Head::Nothing;
    };
    if byte != b'n' {
        return Head::Nothing;
    }
    let rest = skip_word(digits);
    match number_of(bytes_before(digits, rest)) {
        Some(number) => ended(Term::FreshName(number), rest),
        None => Head::Nothing,
    }
}

/// A symbol alone, or before its bracket.
fn symbol_head<'a>(
    alloc: Global,
    symbols: &Vec<Symbol>,
    symbol: &str,
    rest: &'a [u8],
) -> Result<Head<'a>, AllocError>
    ensures { IfOk result (λ h. head_of h ≡ spec.symbol_head (symbols_of symbols.now.items) symbol.now rest.now) }
{
    let name = Name::new(alloc, symbol)?;
    if let Some((b'(', inside)) = split(rest) {
        return Ok(Head::Over(name, inside));
    }
    if !has_symbol(symbols, symbol, 0) {
        return Ok(Head::Nothing);
    }
    let shared = Rc::new(alloc, Vec::new(alloc))?;
    let made = ended(Term::App(name, shared, 1), rest);
    Ok(made)
}

/// How a term begins that begins with no symbol.
fn other_head(alloc: Global, text: &[u8]) -> Result<Head, AllocError>
    ensures { IfOk result (λ h. head_of h ≡ spec.other_head text.now) }
{
    let Some((byte, behind)) = split(text) else {
        return Ok(Head::Nothing);
    };
    if byte == b'\'' {
        let made = quoted_head(alloc, behind)?;
        Ok(made)
    } else if byte == b'~' {
        Ok(numbered_head(behind))
    } else if byte == b'<' {
        Ok(Head::Opened(behind))
    } else {
        Ok(Head::Nothing)
    }
}

/// How the term begins that stands first.
#[tactic(auto, unfolding(crate::specs::Reading::head))]
fn head<'a>(alloc: Global, symbols: &Vec<Symbol>, text: &'a [u8]) -> Result<Head<'a>, AllocError>
    ensures { IfOk result (λ h. head_of h ≡ spec.head (symbols_of symbols.now.items) text.now) }
{
    match word(text) {
        Some((symbol, rest)) => {
            let made = symbol_head(alloc, symbols, symbol, rest)?;
            Ok(made)
        }
        None => {
            let made = other_head(alloc, text)?;
            Ok(made)
        }
    }
}

/// Whether there are two terms.
#[tactic(auto, using(crate::proofs::Pairs::two))]
fn are_two(terms: &Vec<GroundTerm>) -> bool
    ensures { result ≡ text_spec.are_two (row (map ground_of terms.now.items)) }
{
    terms.len() == 2
}

/// Whether the symbol over these terms is a pair.
pub fn is_pair(symbol: &str, terms: &Vec<GroundTerm>) -> bool
    ensures { result ≡ text_spec.is_pair symbol.now (row (map ground_of terms.now.items)) }
{
    symbol == "pair" && are_two(terms)
}

/// Whether the term is a pair.
fn is_pair_term(term: &GroundTerm) -> bool
    ensures { result ≡ spec.is_pair_term (ground_of term.now) }
{
    match term {
        Term::Var(never) => match never.leaf {},
        Term::Constant(_) => false,
        Term::FreshName(_) => false,
        Term::App(symbol, terms, _) => is_pair(symbol.text.as_str(), terms),
    }
}

/// The symbol over these terms, where it may stand so before these bytes.
fn applied(
    alloc: Global,
    symbols: &Vec<Symbol>,
    symbol: Name,
    terms: Vec<GroundTerm>,
    rest: &[u8],
) -> Result<Option<GroundTerm>, AllocError>
    ensures { IfOk result (λ o. option_map ground_of o ≡ spec.applied (symbols_of symbols.now.items) (rc_str_bytes symbol.text) (map ground_of terms.items) rest.now) }
{
    let name = symbol.text.as_str();
    if !has_symbol(symbols, name, terms.len()) || is_pair(name, &terms) || !ends(rest) {
        return Ok(None);
    }
    let nesting = nesting_over(&terms)?;
    let shared = Rc::new(alloc, terms)?;
    Ok(Some(Term::App(symbol, shared, nesting)))
}

/// The pair of two terms.
fn pair(alloc: Global, left: GroundTerm, right: GroundTerm) -> Result<GroundTerm, AllocError>
    ensures { IfOk result (λ t. ground_of t ≡ signature.pair (ground_of left) (ground_of right)) }
{
    let mut parts = Vec::new(alloc);
    parts.push(left)?;
    parts.push(right)?;
    let name = Name::new(alloc, "pair")?;
    let nesting = nesting_over(&parts)?;
    let shared = Rc::new(alloc, parts)?;
    Ok(Term::App(name, shared, nesting))
}

/// Takes the last term.
fn pop(terms: &mut Vec<GroundTerm>) -> Option<GroundTerm>
    ensures value { MatchOption result (map ground_of terms.old.items ≡ []) (λ t. map ground_of terms.old.items ≡ map ground_of terms.new.items ++ ground_of t ∷ []) }
    ensures shorter { IfSome result (λ t. length terms.new.items + 1 ≡ length terms.old.items) }
{
    terms.pop()
}

/// Pairs nested on the right; none where the last of the terms is a pair.
#[tactic(auto, using(crate::proofs::Pairs::chains))]
pub fn chain(alloc: Global, mut terms: Vec<GroundTerm>) -> Result<Option<GroundTerm>, AllocError>
    ensures { IfOk result (λ o. option_map ground_of o ≡ spec.chain (map ground_of terms.items)) }
{
    let Some(last) = pop(&mut terms) else {
        return Ok(None);
    };
    if is_pair_term(&last) {
        return Ok(None);
    }
    let mut made = last;
    while let Some(left) = pop(&mut terms) {
        made = pair(alloc, left, made)?;
    }
    Ok(Some(made))
}

/// The pair of these terms, where it may stand before these bytes.
fn paired(
    alloc: Global,
    symbols: &Vec<Symbol>,
    terms: Vec<GroundTerm>,
    rest: &[u8],
) -> Result<Option<GroundTerm>, AllocError>
    ensures { IfOk result (λ o. option_map ground_of o ≡ spec.paired (symbols_of symbols.now.items) (map ground_of terms.items) rest.now) }
{
    if !has_symbol(symbols, "pair", 2) || !ends(rest) || terms.len() < 2 {
        return Ok(None);
    }
    let made = chain(alloc, terms)?;
    Ok(made)
}

/// Puts a term at the end.
fn push(terms: &mut Vec<GroundTerm>, next: GroundTerm) -> Result<(), AllocError>
    ensures { OnOk result (map ground_of terms.new.items ≡ map ground_of terms.old.items ++ ground_of next ∷ []) }
{
    terms.push(next)?;
    Ok(())
}

/// The term that stands first, and what stands behind it; none where no term stands there that ends.
///
/// # Errors
///
/// `AllocError` where memory is wanting, or brackets stand within brackets more often than there is room for.
#[cycle(term)]
pub fn term<'a>(
    alloc: Global,
    symbols: &Vec<Symbol>,
    room: u32,
    text: &'a [u8],
) -> Result<Option<(GroundTerm, &'a [u8])>, AllocError>
    ensures { IfOk result (λ o. MatchOption o (NoReading (Reads (symbols_of symbols.now.items)) text.now) (λ x. Reads (symbols_of symbols.now.items) text.now (ground_of x.0) x.1.now)) }
{
    match head(alloc, symbols, text)? {
        Head::Whole(found, rest) => Ok(Some((found, rest))),
        Head::Over(symbol, inside) => {
            let Some((terms, rest)) = row(alloc, symbols, room, b')', inside)? else {
                return Ok(None);
            };
            let Some(made) = applied(alloc, symbols, symbol, terms, rest)? else {
                return Ok(None);
            };
            Ok(Some((made, rest)))
        }
        Head::Opened(inside) => {
            let Some((terms, rest)) = row(alloc, symbols, room, b'>', inside)? else {
                return Ok(None);
            };
            let Some(made) = paired(alloc, symbols, terms, rest)? else {
                return Ok(None);
            };
            Ok(Some((made, rest)))
        }
        Head::Nothing => Ok(None),
    }
}

/// Terms with a comma and a space between two, up to a closing byte, and what stands behind that.
#[cycle(term)]
pub fn row<'a>(
    alloc: Global,
    symbols: &Vec<Symbol>,
    room: u32,
    close: u8,
    text: &'a [u8],
) -> Result<Option<(Vec<GroundTerm>, &'a [u8])>, AllocError>
    requires { close ≢ 44 }
    ensures { IfOk result (λ o. MatchOption o (NoReading (ReadsRow (symbols_of symbols.now.items) close) text.now) (λ x. ReadsRow (symbols_of symbols.now.items) close text.now (map ground_of x.0.items) x.1.now)) }
{
    let Some(within) = room.checked_sub(1) else {
        return Err(AllocError);
    };
    let mut found = Vec::new(alloc);
    let mut rest = text;
    loop {
        let Some((next, ahead)) = term(alloc, symbols, within, rest)? else {
            return Ok(None);
        };
        push(&mut found, next)?;
        if let Some(end) = behind(close, ahead) {
            return Ok(Some((found, end)));
        }
        match after(ahead, b", ") {
            Some(more) => rest = more,
            None => return Ok(None),
        }
    }
}
