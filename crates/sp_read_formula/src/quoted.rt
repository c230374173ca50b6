ghost use Rattle.std.specs.Prelude.{◌≡◌, [], ◌∷◌, MatchOption, IfSome, IfOk, OnOk, ◌++◌, ◌≤◌, ◌<◌, length, if◌then◌else◌};
ghost use Rattle.std.specs.Bool.{OnTrue, OnFalse};
ghost use Rattle.sp_lex.specs.Views.{lexeme_of, wide_of};
ghost use Rattle.sp_spec_text.specs.Lists.{NoReading};
ghost use Rattle.sp_spec_text.specs.Plain.{plain_to_quote};
ghost use Rattle.sp_spec_text.specs.Plain as spec;
ghost use Rattle.sp_spec_text.specs.Theories.{SpellsQuoted};
ghost use Rattle.sp_read_parts.specs.Views.{seen, seen_from};
ghost use Rattle.sp_read_parts.specs.Formulas as view;

use crate::formulas::{formula, whole};
use sp_lex::{Lexeme, Sign, Token, Wide};
use sp_read_parts::ReadFormula;
use sp_read_parts::cursor::{after, split};
use std::alloc::{AllocError, Global};

/// The text beside a sign of logic.
fn text_beside<'a>(sign: Wide) -> Lexeme<'a>
    ensures { lexeme_of result ≡ spec.text_beside (wide_of sign) }
{
    match sign {
        Wide::All => Lexeme::Word("All"),
        Wide::Ex => Lexeme::Word("Ex"),
        Wide::Both => Lexeme::Sign(Sign::And),
        Wide::Either => Lexeme::Sign(Sign::Or),
        Wide::Not => Lexeme::Word("not"),
        Wide::Then => Lexeme::Sign(Sign::Implies),
        Wide::Same => Lexeme::Sign(Sign::Iff),
        Wide::True => Lexeme::Word("T"),
        Wide::False => Lexeme::Word("F"),
    }
}

/// The token as it is read in a formula: of a sign of logic the text beside it.
pub fn plain<'a>(lexeme: Lexeme<'a>) -> Lexeme<'a>
    ensures { lexeme_of result ≡ spec.plain (lexeme_of lexeme.entry) }
{
    match lexeme {
        Lexeme::Wide(sign) => text_beside(sign),
        Lexeme::Word(_) => lexeme,
        Lexeme::Constant(_) => lexeme,
        Lexeme::Sign(_) => lexeme,
        Lexeme::Solve(_) => lexeme,
        Lexeme::Block => lexeme,
    }
}

/// Whether it is a double quote.
pub fn is_quote(lexeme: Lexeme) -> bool
    ensures { result ≡ spec.is_quote (lexeme_of lexeme.entry) }
{
    match lexeme {
        Lexeme::Sign(sign) => sign == Sign::Quote,
        Lexeme::Word(_) => false,
        Lexeme::Constant(_) => false,
        Lexeme::Solve(_) => false,
        Lexeme::Wide(_) => false,
        Lexeme::Block => false,
    }
}

/// Whether it is read in a formula as it stands.
fn is_plain(lexeme: Lexeme) -> bool
    ensures { OnTrue result (spec.plain (lexeme_of lexeme.entry) ≡ lexeme_of lexeme.entry) }
{
    match lexeme {
        Lexeme::Wide(_) => false,
        Lexeme::Word(_) => true,
        Lexeme::Constant(_) => true,
        Lexeme::Sign(_) => true,
        Lexeme::Solve(_) => true,
        Lexeme::Block => true,
    }
}

/// Whether the tokens up to the first quote are read in a formula as they stand.
#[tactic(auto, using(crate::proofs::Plain::as_they_stand))]
fn are_plain(tokens: &[Token], at: usize) -> bool
    ensures plain { OnTrue result (plain_to_quote (seen_from tokens.now at) ≡ seen_from tokens.now at) }
    ensures within { OnFalse result (at < length tokens.now) }
{
    let mut rest = at;
    while let Some((lexeme, ahead)) = split(tokens, rest) {
        if is_quote(lexeme) {
            return true;
        }
        if !is_plain(lexeme) {
            return false;
        }
        rest = ahead;
    }
    true
}

/// A token of a formula, or one behind its closing quote.
fn as_read<'a>(closed: bool, token: Token<'a>) -> Token<'a>
    ensures { lexeme_of result.lexeme ≡ (if closed then lexeme_of token.entry.lexeme else spec.plain (lexeme_of token.entry.lexeme)) }
{
    if closed {
        return token;
    }
    Token {
        lexeme: plain(token.lexeme),
        start: token.start,
        end: token.end,
    }
}

/// Puts a token at the end.
fn push_token<'a>(found: &mut Vec<Token<'a>>, next: Token<'a>) -> Result<(), AllocError>
    ensures { OnOk result (seen found.new.items ≡ seen found.old.items ++ lexeme_of next.entry.lexeme ∷ []) }
{
    found.push(next)?;
    Ok(())
}

/// The tokens, those before the first quote as they are read in a formula.
#[tactic(auto, using(crate::proofs::Plain::copies))]
fn plain_tokens<'a>(alloc: Global, tokens: &[Token<'a>]) -> Result<Vec<Token<'a>>, AllocError>
    ensures { IfOk result (λ found. seen found.items ≡ plain_to_quote (seen tokens.now)) }
{
    let mut found = Vec::new(alloc);
    let mut closed = false;
    for token in tokens {
        let quote = is_quote(token.lexeme);
        closed = closed || quote;
        push_token(&mut found, as_read(closed, *token))?;
    }
    Ok(found)
}

/// A formula where the tokens up to its closing quote are read as they stand.
#[tactic(auto, using(crate::proofs::Plain::quoted))]
fn formula_as_it_stands<'a>(
    alloc: Global,
    tokens: &[Token<'a>],
    at: usize,
) -> Result<Option<(ReadFormula<'a>, usize)>, AllocError>
    requires { plain_to_quote (seen_from tokens.now at) ≡ seen_from tokens.now at }
    ensures value { IfOk result (λ o. MatchOption o (NoReading SpellsQuoted (seen_from tokens.now at)) (λ x. SpellsQuoted (seen_from tokens.now at) (view.formula x.0) (seen_from tokens.now x.1))) }
    ensures further { IfOk result (λ o. IfSome o (λ x. (at < x.1) × (x.1 ≤ length tokens.now))) }
{
    let Some((found, rest)) = formula(alloc, Sign::Quote, 0, tokens, at)? else {
        return Ok(None);
    };
    Ok(Some((found, rest)))
}

/// A formula in a copy of the tokens from this place on; its closing quote stands in both.
#[tactic(auto, using(crate::proofs::Plain::copied))]
fn formula_in_copy<'a>(
    alloc: Global,
    copy: &[Token<'a>],
    tokens: &[Token<'a>],
    at: usize,
) -> Result<Option<(ReadFormula<'a>, usize)>, AllocError>
    requires within { at ≤ length tokens.now }
    requires plain { seen copy.now ≡ plain_to_quote (seen_from tokens.now at) }
    ensures value { IfOk result (λ o. MatchOption o (NoReading SpellsQuoted (seen_from tokens.now at)) (λ x. SpellsQuoted (seen_from tokens.now at) (view.formula x.0) (seen_from tokens.now x.1))) }
    ensures further { IfOk result (λ o. IfSome o (λ x. (at < x.1) × (x.1 ≤ length tokens.now))) }
{
    let Some((found, ahead)) = whole(alloc, 0, copy, 0)? else {
        return Ok(None);
    };
    let Some(rest) = after(Sign::Quote, tokens, at + ahead) else {
        return Ok(None);
    };
    Ok(Some((Box::into_inner(found), rest)))
}

/// A formula behind its opening quote, with its closing quote, and the place behind that.
///
/// A sign of logic is read as the text beside it. Where one stands, the tokens from this place on are copied.
///
/// # Errors
///
/// There is no memory.
pub fn quoted_formula<'a>(
    alloc: Global,
    tokens: &[Token<'a>],
    at: usize,
) -> Result<Option<(ReadFormula<'a>, usize)>, AllocError>
    // What is read is spelled there, and where nothing is read nothing is spelled.
    ensures value { IfOk result (λ o. MatchOption o (NoReading SpellsQuoted (seen_from tokens.now at)) (λ x. SpellsQuoted (seen_from tokens.now at) (view.formula x.0) (seen_from tokens.now x.1))) }
    ensures further { IfOk result (λ o. IfSome o (λ x. (at < x.1) × (x.1 ≤ length tokens.now))) }
{
    if are_plain(tokens, at) {
        return formula_as_it_stands(alloc, tokens, at);
    }
    let copy = plain_tokens(alloc, &tokens[at..])?;
    let read = formula_in_copy(alloc, &copy, tokens, at)?;
    Ok(read)
}
