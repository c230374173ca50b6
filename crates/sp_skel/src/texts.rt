// The texts of moves.

ghost use Rattle.std.specs.Prelude.{◌≡◌, [], ◌∷◌, ◌++◌, ◌+◌, ◌-◌, ◌*◌, ◌<◌, ◌≤◌, ⊤, length, map, reverse, IfOk, IfSome, IsUtf8, MatchOption, option_map, option_and_then};
ghost use Rattle.std.specs.List.{list_all};
ghost use Rattle.sp_spec_text.specs.Lex as lex;
ghost use Rattle.sp_spec_text.specs.Blanks as blanks;
ghost use Rattle.sp_spec_text.specs.Numerals.{below_limit};
ghost use Rattle.sp_moves.specs.View.{side_of};
ghost use Rattle.sp_step.specs.WordsView.{said_of};
ghost use Rattle.sp_skel.specs.MoveTexts as spec;

use sp_step::words::{Said, Side};
use sp_term::term::Name;
use std::alloc::{AllocError, Global};

fn split(text: &[u8]) -> Option<(u8, &[u8])>
    ensures { MatchOption result (text.now ≡ []) (λ x. text.now ≡ x.0 ∷ x.1.now) }
{
    match text {
        [first, rest @ ..] => Some((*first, rest)),
        [] => None,
    }
}

fn split_last(text: &[u8]) -> Option<(&[u8], u8)>
    ensures { MatchOption result (text.now ≡ []) (λ x. text.now ≡ x.0.now ++ x.1 ∷ []) }
{
    match text {
        [front @ .., last] => Some((front, *last)),
        [] => None,
    }
}

fn is_blank(b: u8) -> bool
    ensures { result ≡ lex.is_blank b }
{
    b == b' ' || b == b'\t' || b == b'\n' || b == b'\r'
}

fn is_constant_byte(b: u8) -> bool
    ensures { result ≡ lex.is_constant_byte b }
{
    32 <= b && b <= 126 && b != b'\''
}

/// The text without the blanks before it.
#[tactic(auto, unfolding(sp_spec_text::specs::Blanks::unblanked))]
fn unblanked(text: &[u8]) -> &[u8]
    ensures { result.now ≡ blanks.unblanked text.now }
{
    let mut rest = text;
    while let Some((byte, behind)) = split(rest) {
        if !is_blank(byte) {
            return rest;
        }
        rest = behind;
    }
    rest
}

/// The text without the blanks behind it.
#[tactic(auto, unfolding(sp_spec_text::specs::Blanks::unblanked))]
fn unblanked_behind(text: &[u8]) -> &[u8]
    ensures { result.now ≡ reverse (blanks.unblanked (reverse text.now)) }
{
    let mut rest = text;
    while let Some((front, last)) = split_last(rest) {
        if !is_blank(last) {
            return rest;
        }
        rest = front;
    }
    rest
}

/// The text without the blanks around it.
pub fn trimmed(text: &[u8]) -> &[u8]
    ensures { result.now ≡ blanks.trimmed text.now }
{
    unblanked_behind(unblanked(text))
}

/// The first word, and what stands behind the space behind it, where more words follow.
#[tactic(auto, unfolding(crate::specs::MoveTexts::words_from))]
fn first_word(text: &[u8]) -> (&[u8], Option<&[u8]>)
    ensures words { spec.words text.now ≡ result.0.now ∷ spec.words_behind (option_map (λ x. x.now) result.1) }
    ensures shorter { MatchOption result.1 ⊤ (λ rest. length rest.now < length text.now) }
{
    let mut quoted = false;
    for (place, byte) in text.iter().enumerate() {
        if *byte == b' ' && !quoted {
            return (&text[..place], Some(&text[place + 1..]));
        }
        if *byte == b'\'' {
            quoted = !quoted;
        }
    }
    (text, None)
}

/// The words of a text.
pub fn words(alloc: Global, text: &[u8]) -> Result<Vec<&[u8]>, AllocError>
    ensures { IfOk result (λ ws. map (λ w. w.now) ws.items ≡ spec.words text.now) }
{
    let mut words = Vec::new(alloc);
    let mut rest = Some(text);
    while let Some(here) = rest {
        let (word, behind) = first_word(here);
        words.push(word)?;
        rest = behind;
    }
    Ok(words)
}

/// Whether a zero stands before other digits.
fn has_leading_zero(word: &[u8]) -> bool
    ensures { result ≡ spec.has_leading_zero word.now }
{
    match split(word) {
        Some((byte, behind)) => byte == b'0' && !behind.is_empty(),
        None => false,
    }
}

/// The number of decimal digits, if it is one of the program's numbers and has no leading zero.
#[tactic(auto, using(sp_spec_text::proofs::Numerals::numbers), unfolding(crate::specs::MoveTexts::number_of))]
fn number_of(word: &[u8]) -> Option<u128>
    ensures { result ≡ spec.number_of word.now }
{
    if word.is_empty() || has_leading_zero(word) {
        return None;
    }
    let mut number: u128 = 0;
    let mut rest = word;
    while let Some((byte, behind)) = split(rest) {
        if !byte.is_ascii_digit() {
            return None;
        }
        number = with_digit(number, byte)?;
        rest = behind;
    }
    Some(number)
}

/// The number with a digit behind it.
fn with_digit(number: u128, digit: u8) -> Option<u128>
    requires { 48 ≤ digit }
    ensures { result ≡ below_limit (10 * number + (digit - 48)) }
{
    let tens = number.checked_mul(10)?;
    tens.checked_add(u128::from(digit - b'0'))
}

// ---- sides

/// Whether each byte is one of a constant.
fn are_constant(bytes: &[u8]) -> bool
    ensures { result ≡ list_all lex.is_constant_byte bytes.now }
{
    for byte in bytes {
        if !is_constant_byte(*byte) {
            return false;
        }
    }
    true
}

/// The bytes of a constant, before the quote with which the text ends.
#[tactic(auto, using(crate::proofs::Constants::constants))]
fn unquoted(text: &[u8]) -> Option<&[u8]>
    ensures value { option_map (λ x. x.now) result ≡ spec.unquoted text.now }
    ensures utf8 { IfSome result (λ x. IsUtf8 x.now) }
{
    let (body, last) = split_last(text)?;
    if last == b'\'' && are_constant(body) {
        Some(body)
    } else {
        None
    }
}

/// These bytes as text.
fn as_text(bytes: &[u8]) -> &str
    requires { IsUtf8 bytes.now }
    ensures { result.now ≡ bytes.now }
{
    match str::from_utf8(bytes) {
        Ok(text) => text,
        Err(_) => unreachable!(),
    }
}

/// The constant of which the first quote stands before this text.
fn constant_of(alloc: Global, text: &[u8]) -> Result<Option<Side>, AllocError>
    ensures { IfOk result (λ o. option_map side_of o ≡ option_and_then spec.constant_of (spec.unquoted text.now)) }
{
    match unquoted(text) {
        Some(body) if !body.is_empty() => {
            let name = Name::new(alloc, as_text(body))?;
            Ok(Some(Side::Constant(name)))
        }
        _ => Ok(None),
    }
}

/// `~N`, `$N`, or a constant in quotes.
fn side(alloc: Global, word: &[u8]) -> Result<Option<Side>, AllocError>
    ensures { IfOk result (λ o. option_map side_of o ≡ spec.side_of word.now) }
{
    match split(word) {
        Some((b'~', digits)) => Ok(number_of(digits).map(Side::Fresh)),
        Some((b'$', digits)) => Ok(number_of(digits).map(Side::Public)),
        Some((b'\'', behind)) => constant_of(alloc, behind),
        _ => Ok(None),
    }
}

// ---- what stands behind the word of a move

/// A side, or else a number.
fn said_by(alloc: Global, word: &[u8]) -> Result<Option<Said>, AllocError>
    ensures { IfOk result (λ o. option_map said_of o ≡ spec.said_by word.now) }
{
    match side(alloc, word)? {
        Some(side) => Ok(Some(Said::Named(side))),
        None => Ok(number_of(word).map(Said::Digits)),
    }
}

/// What all words say, if each says something.
pub fn all_said(alloc: Global, words: &[&[u8]]) -> Result<Option<Vec<Said>>, AllocError>
    ensures { IfOk result (λ o. option_map (λ xs. map said_of xs.items) o ≡ spec.all_said (map (λ w. w.now) words.now)) }
{
    let mut said = Vec::with_capacity(alloc, words.len())?;
    for word in words {
        let Some(one) = said_by(alloc, word)? else {
            return Ok(None);
        };
        said.push(one)?;
    }
    Ok(Some(said))
}
