// Symbols as a text declares them: a name, its arity, and attributes.

ghost use Rattle.std.specs.Prelude.{◌≡◌, ◌*◌, ◌+◌, ◌-◌, true, false, MatchOption, IfSome, IfOk, ◌≤◌, ◌<◌, length};
ghost use Rattle.sp_spec_text.specs.Names as names;
ghost use Rattle.sp_spec_text.specs.Numerals as numerals;
ghost use Rattle.sp_spec_text.specs.Numerals.{value, counted};
ghost use Rattle.sp_spec_text.specs.Lists.{NoReading};
ghost use Rattle.sp_spec_text.specs.Theories.{SpellsAttribute};
ghost use Rattle.sp_read_listings.specs.Listings.{IsArity, AreAttributes, IsPrivacy, IsFunction};
ghost use Rattle.sp_read_listings.specs.Views as view;
ghost use Rattle.sp_read_listings.specs.Views.{seen_from};

use sp_fact::signature::Symbol;
use sp_lex::{Sign, Token};
use sp_read_parts::cursor::{after, word};
use sp_read_parts::terms::name;
use sp_term::term::Name;
use std::alloc::{AllocError, Global};

/// Whether all of them are decimal digits.
fn are_digits(bytes: &[u8]) -> bool
    ensures { result ≡ numerals.are_digits bytes.now }
{
    for byte in bytes {
        if !byte.is_ascii_digit() {
            return false;
        }
    }
    true
}

/// Whether it is a number: digits, of which the first is 0 only where it stands alone.
fn is_numeral(bytes: &[u8]) -> bool
    ensures { result ≡ numerals.is_numeral bytes.now }
{
    match bytes {
        [] => false,
        [digit] => digit.is_ascii_digit(),
        [first, others @ ..] => first.is_ascii_digit() && *first != b'0' && are_digits(others),
    }
}

/// The number with a digit behind it; `usize::MAX` where that is more.
fn with_digit(number: usize, digit: u8) -> usize
    ensures { result ≡ counted (10 * number + (digit - 48)) }
{
    let units = usize::from(digit.saturating_sub(b'0'));
    number.saturating_mul(10).saturating_add(units)
}

/// The number that a word is, or `usize::MAX` where that is more.
fn number(word: &str) -> Option<usize>
    ensures { MatchOption result (numerals.is_numeral word.now ≡ false) (λ n. (numerals.is_numeral word.now ≡ true) × (n ≡ counted (value 0 word.now))) }
{
    let digits = word.as_bytes();
    if !is_numeral(digits) {
        return None;
    }
    let mut number = 0;
    for digit in digits {
        number = with_digit(number, *digit);
    }
    Some(number)
}

/// A name, a slash and a number, and the place behind them.
#[tactic(auto, using(crate::proofs::SymbolParts::arities))]
fn arity<'a>(tokens: &[Token<'a>], at: usize) -> Option<((&'a str, usize), usize)>
    ensures value { MatchOption result (NoReading IsArity (seen_from tokens.now at)) (λ x. IsArity (seen_from tokens.now at) (x.0.0.now, x.0.1) (seen_from tokens.now x.1)) }
    ensures further { IfSome result (λ x. (at < x.1) × (x.1 ≤ length tokens.now)) }
{
    let (found, slash) = name(tokens, at)?;
    let behind = after(Sign::Slash, tokens, slash)?;
    let (digits, rest) = word(tokens, behind)?;
    let arity = number(digits)?;
    Some(((found, arity), rest))
}

/// Whether a function with this attribute is private.
#[tactic(auto, unfolding(sp_spec_text::specs::Names::privacy_of))]
fn privacy_of(word: &str) -> Option<bool>
    ensures { result ≡ names.privacy_of word.now }
{
    if word == "private" {
        Some(true)
    } else if word == "public" || word == "constructor" || word == "destructor" {
        Some(false)
    } else {
        None
    }
}

/// An attribute, which says whether the symbol is private, and the place behind it.
#[tactic(auto, using(crate::proofs::SymbolParts::an_attribute))]
fn attribute<'a>(tokens: &[Token<'a>], at: usize) -> Option<(bool, usize)>
    ensures value { MatchOption result (NoReading SpellsAttribute (seen_from tokens.now at)) (λ x. SpellsAttribute (seen_from tokens.now at) x.0 (seen_from tokens.now x.1)) }
    ensures further { IfSome result (λ x. (at < x.1) × (x.1 ≤ length tokens.now)) }
{
    let (found, rest) = word(tokens, at)?;
    let private = privacy_of(found)?;
    Some((private, rest))
}

/// Attributes up to the bracket that closes them, whether one of them is `private`, and the place behind the bracket.
#[tactic(auto, using(crate::proofs::SymbolParts::several_attributes))]
fn attributes<'a>(tokens: &[Token<'a>], at: usize) -> Option<(bool, usize)>
    ensures value { MatchOption result (NoReading AreAttributes (seen_from tokens.now at)) (λ x. AreAttributes (seen_from tokens.now at) x.0 (seen_from tokens.now x.1)) }
    ensures further { IfSome result (λ x. (at < x.1) × (x.1 ≤ length tokens.now)) }
{
    let mut private = false;
    let mut rest = at;
    loop {
        let (next, ahead) = attribute(tokens, rest)?;
        private |= next;
        if let Some(end) = after(Sign::CloseList, tokens, ahead) {
            return Some((private, end));
        }
        match after(Sign::Comma, tokens, ahead) {
            Some(more) => rest = more,
            None => return None,
        }
    }
}

/// Whether the attributes that may stand here say `private`, and the place behind them.
#[tactic(auto, using(crate::proofs::SymbolParts::privacies))]
fn privacy<'a>(tokens: &[Token<'a>], at: usize) -> Option<(bool, usize)>
    requires { at ≤ length tokens.now }
    ensures value { MatchOption result (NoReading IsPrivacy (seen_from tokens.now at)) (λ x. IsPrivacy (seen_from tokens.now at) x.0 (seen_from tokens.now x.1)) }
    ensures further { IfSome result (λ x. (at ≤ x.1) × (x.1 ≤ length tokens.now)) }
{
    match after(Sign::OpenList, tokens, at) {
        Some(inside) => attributes(tokens, inside),
        None => Some((false, at)),
    }
}

/// A symbol with its arity, and the place behind it.
#[tactic(auto, using(crate::proofs::SymbolParts::declared_symbols))]
pub fn function<'a>(
    alloc: Global,
    tokens: &[Token<'a>],
    at: usize,
) -> Result<Option<(Symbol, usize)>, AllocError>
    ensures value { IfOk result (λ o. MatchOption o (NoReading IsFunction (seen_from tokens.now at)) (λ x. IsFunction (seen_from tokens.now at) (view.symbol_of x.0) (seen_from tokens.now x.1))) }
    ensures further { IfOk result (λ o. IfSome o (λ x. (at < x.1) × (x.1 ≤ length tokens.now))) }
{
    let Some(((text, arity), ahead)) = arity(tokens, at) else {
        return Ok(None);
    };
    let Some((private, rest)) = privacy(tokens, ahead) else {
        return Ok(None);
    };
    let name = Name::new(alloc, text)?;
    Ok(Some((
        Symbol {
            name,
            arity,
            private,
        },
        rest,
    )))
}
