// Words, constants and numbers in bytes.

ghost use Rattle.std.specs.Prelude.{◌≡◌, [], ◌∷◌, ◌++◌, ◌+◌, ◌-◌, ◌*◌, ◌≤◌, length, reverse, MatchBool, MatchOption, IfSome, option_map, IsUtf8};
ghost use Rattle.sp_spec_text.specs.Lex as lex;
ghost use Rattle.sp_spec_text.specs.Bytes as class;
ghost use Rattle.sp_spec_text.specs.Blanks as blanks;
ghost use Rattle.sp_spec_text.specs.Numerals.{below_limit};
ghost use Rattle.sp_read_steps.specs.Reading as spec;
ghost use Rattle.sp_read_steps.specs.Reading.{NoPrefix};

use sp_read_parts::words::is_reserved;

/// The first byte, and what stands behind it.
pub fn split(text: &[u8]) -> Option<(u8, &[u8])>
    ensures value { MatchOption result (text.now ≡ []) (λ x. text.now ≡ x.0 ∷ x.1.now) }
    ensures shorter { IfSome result (λ x. length x.1.now + 1 ≡ length text.now) }
{
    match text {
        [first, rest @ ..] => Some((*first, rest)),
        [] => None,
    }
}

fn split_last(text: &[u8]) -> Option<(&[u8], u8)>
    ensures { MatchOption result (text.now ≡ []) (λ x. text.now ≡ x.0.now ++ x.1 ∷ []) }
{
    match text {
        [front @ .., last] => Some((front, *last)),
        [] => None,
    }
}

fn is_blank(b: u8) -> bool
    ensures { result ≡ lex.is_blank b }
{
    b == b' ' || b == b'\t' || b == b'\n' || b == b'\r'
}

fn is_word_byte(b: u8) -> bool
    ensures { result ≡ lex.is_word_byte b }
{
    b.is_ascii_alphanumeric() || b == b'_'
}

fn is_constant_byte(b: u8) -> bool
    ensures { result ≡ lex.is_constant_byte b }
{
    32 <= b && b <= 126 && b != b'\''
}

/// The text without the blanks before it.
#[tactic(auto, unfolding(sp_spec_text::specs::Blanks::unblanked))]
fn unblanked(text: &[u8]) -> &[u8]
    ensures { result.now ≡ blanks.unblanked text.now }
{
    let mut rest = text;
    while let Some((byte, behind)) = split(rest) {
        if !is_blank(byte) {
            return rest;
        }
        rest = behind;
    }
    rest
}

/// The text without the blanks behind it.
#[tactic(auto, unfolding(sp_spec_text::specs::Blanks::unblanked))]
fn unblanked_behind(text: &[u8]) -> &[u8]
    ensures { result.now ≡ reverse (blanks.unblanked (reverse text.now)) }
{
    let mut rest = text;
    while let Some((front, last)) = split_last(rest) {
        if !is_blank(last) {
            return rest;
        }
        rest = front;
    }
    rest
}

/// The text without the blanks around it.
pub fn trimmed(text: &[u8]) -> &[u8]
    ensures { result.now ≡ blanks.trimmed text.now }
{
    unblanked_behind(unblanked(text))
}

/// Whether a digit stands first.
fn begins_with_digit(text: &[u8]) -> bool
    ensures { result ≡ lex.is_first lex.is_digit text.now }
{
    match split(text) {
        Some((byte, _)) => byte.is_ascii_digit(),
        None => false,
    }
}

/// Whether a word goes on with this byte before these.
fn is_in_word(byte: u8, after: &[u8]) -> bool
    ensures { result ≡ lex.is_in class.Word byte after.now }
{
    is_word_byte(byte) || byte == b'.' && begins_with_digit(after)
}

/// From the first byte on with which no word goes on.
pub fn skip_word(text: &[u8]) -> &[u8]
    ensures value { result.now ≡ lex.skip class.Word text.now }
    ensures shorter { length result.now ≤ length text.now }
{
    let mut rest = text;
    while let Some((byte, after)) = split(rest) {
        if !is_in_word(byte, after) {
            return rest;
        }
        rest = after;
    }
    rest
}

/// From the first byte on with which no constant goes on.
pub fn skip_constant(text: &[u8]) -> &[u8]
    ensures value { result.now ≡ lex.skip class.Constant text.now }
    ensures shorter { length result.now ≤ length text.now }
{
    let mut rest = text;
    while let Some((byte, after)) = split(rest) {
        if !is_constant_byte(byte) {
            return rest;
        }
        rest = after;
    }
    rest
}

/// The bytes before these last ones.
pub fn bytes_before<'a>(text: &'a [u8], rest: &[u8]) -> &'a [u8]
    requires { length rest.now ≤ length text.now }
    ensures { result.now ≡ lex.before text.now rest.now }
{
    &text[..text.len() - rest.len()]
}

/// The bytes before these last ones, as text.
pub fn before<'a>(text: &'a [u8], rest: &[u8]) -> &'a str
    requires shorter { length rest.now ≤ length text.now }
    requires utf8 { IsUtf8 (lex.before text.now rest.now) }
    ensures { result.now ≡ lex.before text.now rest.now }
{
    match str::from_utf8(bytes_before(text, rest)) {
        Ok(found) => found,
        Err(_) => unreachable!(),
    }
}

/// The word that stands first, and what stands behind it.
#[tactic(auto, using(sp_lex::proofs::Pieces::pieces))]
pub fn word(text: &[u8]) -> Option<(&str, &[u8])>
    ensures value { option_map (λ x. (x.0.now, x.1.now)) result ≡ spec.word_at text.now }
    ensures shorter { IfSome result (λ x. length x.1.now + 1 ≤ length text.now) }
{
    let (byte, behind) = split(text)?;
    if !byte.is_ascii_alphanumeric() {
        return None;
    }
    let rest = skip_word(behind);
    let found = before(text, rest);
    Some((found, rest))
}

/// The name that stands first, and what stands behind it.
pub fn name(text: &[u8]) -> Option<(&str, &[u8])>
    ensures value { option_map (λ x. (x.0.now, x.1.now)) result ≡ spec.named text.now }
    ensures shorter { IfSome result (λ x. length x.1.now + 1 ≤ length text.now) }
{
    let (found, rest) = word(text)?;
    if is_reserved(found) {
        None
    } else {
        Some((found, rest))
    }
}

/// Whether nothing stands there.
pub fn is_nothing(text: &[u8]) -> bool
    ensures { MatchBool result (text.now ≡ []) (text.now ≡ [] → ⊥) }
{
    match split(text) {
        Some(_) => false,
        None => true,
    }
}

/// What stands behind this text, where it stands first.
pub fn after<'a>(text: &'a [u8], sign: &[u8]) -> Option<&'a [u8]>
    ensures value { MatchOption result (NoPrefix sign.now text.now) (λ x. text.now ≡ sign.now ++ x.now) }
    ensures shorter { IfSome result (λ x. length x.now + length sign.now ≡ length text.now) }
{
    text.strip_prefix(sign)
}

/// What stands behind this byte, where it stands first.
pub fn behind(byte: u8, text: &[u8]) -> Option<&[u8]>
    ensures { MatchOption result (NoPrefix (byte ∷ []) text.now) (λ x. text.now ≡ byte ∷ x.now) }
{
    let found = after(text, &[byte])?;
    Some(found)
}

/// Whether a digit other than zero stands first.
fn begins_number(word: &[u8]) -> bool
    ensures { result ≡ lex.is_first spec.is_leading word.now }
{
    match split(word) {
        Some((byte, _)) => byte.is_ascii_digit() && byte != b'0',
        None => false,
    }
}

/// The number with a digit behind it.
fn with_digit(number: u128, digit: u8) -> Option<u128>
    requires { 48 ≤ digit }
    ensures { result ≡ below_limit (10 * number + (digit - 48)) }
{
    let tens = number.checked_mul(10)?;
    tens.checked_add(u128::from(digit - b'0'))
}

/// The number of decimal digits of which the first is not zero, if it is a number of a fresh name.
#[tactic(auto, using(sp_spec_text::proofs::Numerals::numbers), unfolding(crate::specs::Reading::number_of))]
pub fn number_of(word: &[u8]) -> Option<u128>
    ensures { result ≡ spec.number_of word.now }
{
    if !begins_number(word) {
        return None;
    }
    let mut number: u128 = 0;
    let mut rest = word;
    while let Some((byte, behind)) = split(rest) {
        if !byte.is_ascii_digit() {
            return None;
        }
        number = with_digit(number, byte)?;
        rest = behind;
    }
    Some(number)
}

/// The first line, and what stands behind its line feed.
#[tactic(auto, using(crate::proofs::Cuts::cuts))]
pub fn cut(text: &[u8]) -> (&[u8], Option<&[u8]>)
    ensures value { blanks.lines text.now ≡ spec.then_lines result.0.now (option_map (λ x. x.now) result.1) }
    ensures shorter { IfSome result.1 (λ x. length x.now + 1 ≤ length text.now) }
{
    let rest = to_line_end(text);
    let line = bytes_before(text, rest);
    match split(rest) {
        Some((_, behind)) => (line, Some(behind)),
        None => (line, None),
    }
}

/// From the first line feed on.
#[tactic(auto, unfolding(crate::specs::Reading::to_feed))]
fn to_line_end(text: &[u8]) -> &[u8]
    ensures value { result.now ≡ spec.to_feed text.now }
    ensures shorter { length result.now ≤ length text.now }
{
    let mut rest = text;
    while let Some((byte, behind)) = split(rest) {
        if byte == b'\n' {
            return rest;
        }
        rest = behind;
    }
    rest
}
