ghost use Rattle.std.specs.Prelude.{◌≡◌, [], ◌∷◌, MatchOption, option_map, IsUtf8, false, if◌then◌else◌, drop, length, IfSome, IfOk, OnOk, MatchResult, ◌≤◌, ◌<◌, ◌+◌, ◌++◌, Some, None};
ghost use Rattle.sp_spec_text.specs.Lex as spec;
ghost use Rattle.sp_spec_text.specs.Lex.{begins, close_block, close_constant, first_sign, first_wide, solve_piece, Skips, IsUnclosed, NoBracket, Reads, AreTokens};
ghost use Rattle.sp_spec_text.specs.Bytes as kinds;
ghost use Rattle.sp_lex.specs.Views.{sign_of, wide_of, class_of, mark_of, found, step, Takes, Passes, IsScanned, IsFaultOf, lexeme_of, token_of, tokens_of};

use crate::token::{
    Class, FaultKind, Found, Gap, LexError, LexFault, Lexeme, Mark, Scanned, Sign, Token, Wide,
};
use std::alloc::{AllocError, Global};

fn split(text: &[u8]) -> Option<(u8, &[u8])>
    ensures { MatchOption result (text.now ≡ []) (λ x. text.now ≡ x.0 ∷ x.1.now) }
{
    match text {
        [first, rest @ ..] => Some((*first, rest)),
        [] => None,
    }
}

fn is_blank(b: u8) -> bool
    ensures { result ≡ spec.is_blank b }
{
    b == b' ' || b == b'\t' || b == b'\n' || b == b'\r'
}

fn is_word_byte(b: u8) -> bool
    ensures { result ≡ spec.is_word_byte b }
{
    b.is_ascii_alphanumeric() || b == b'_'
}

fn is_constant_byte(b: u8) -> bool
    ensures { result ≡ spec.is_constant_byte b }
{
    32 <= b && b <= 126 && b != b'\''
}

/// Whether a digit stands first.
fn begins_with_digit(text: &[u8]) -> bool
    ensures { result ≡ spec.is_first spec.is_digit text.now }
{
    match split(text) {
        Some((byte, _)) => byte.is_ascii_digit(),
        None => false,
    }
}

/// Whether a piece of the class goes on with this byte before these.
fn is_in(class: Class, byte: u8, after: &[u8]) -> bool
    ensures { result ≡ spec.is_in (class_of class) byte after.now }
{
    match class {
        Class::Constant => is_constant_byte(byte),
        Class::Line => byte != b'\n',
        Class::Word => is_word_byte(byte) || byte == b'.' && begins_with_digit(after),
    }
}

/// The bytes from the first on with which no piece of the class goes on.
fn skip(class: Class, text: &[u8]) -> &[u8]
    ensures value { result.now ≡ spec.skip (class_of class) text.now }
    ensures shorter { length result.now ≤ length text.now }
{
    let mut rest = text;
    while let Some((byte, after)) = split(rest) {
        if !is_in(class, byte, after) {
            return rest;
        }
        rest = after;
    }
    rest
}

/// The bytes before these last ones.
fn bytes_before<'a>(text: &'a [u8], rest: &[u8]) -> &'a [u8]
    requires { length rest.now ≤ length text.now }
    ensures { result.now ≡ spec.before text.now rest.now }
{
    &text[..text.len() - rest.len()]
}

/// The bytes before these last ones, as text.
fn before<'a>(text: &'a [u8], rest: &[u8]) -> &'a str
    requires shorter { length rest.now ≤ length text.now }
    requires utf8 { IsUtf8 (spec.before text.now rest.now) }
    ensures { result.now ≡ spec.before text.now rest.now }
{
    match str::from_utf8(bytes_before(text, rest)) {
        Ok(found) => found,
        Err(_) => unreachable!(),
    }
}

/// What follows the sign, where it stands first.
fn after<'a>(text: &'a [u8], sign: &[u8]) -> Option<&'a [u8]>
    ensures shorter { IfSome result (λ x. length x.now + length sign.now ≡ length text.now) }
    ensures value { option_map (λ x. x.now) result ≡ (if begins sign.now text.now then Some (drop (length sign.now) text.now) else None) }
{
    if text.starts_with(sign) {
        Some(&text[sign.len()..])
    } else {
        None
    }
}

/// The sign of one byte.
#[tactic(auto, unfolding(sp_spec_text::specs::Lex::short_sign))]
fn short_sign(byte: u8) -> Option<Sign>
    ensures { option_map sign_of result ≡ spec.short_sign byte }
{
    match byte {
        b'(' => Some(Sign::Open),
        b')' => Some(Sign::Close),
        b'[' => Some(Sign::OpenList),
        b']' => Some(Sign::CloseList),
        b',' => Some(Sign::Comma),
        b':' => Some(Sign::Colon),
        b'.' => Some(Sign::Dot),
        b'"' => Some(Sign::Quote),
        b'!' => Some(Sign::Bang),
        b'~' => Some(Sign::Tilde),
        b'$' => Some(Sign::Dollar),
        b'#' => Some(Sign::Hash),
        b'@' => Some(Sign::At),
        b'&' => Some(Sign::And),
        b'|' => Some(Sign::Or),
        b'=' => Some(Sign::Equals),
        b'<' => Some(Sign::Less),
        b'-' => Some(Sign::Dash),
        b'{' => Some(Sign::OpenBrace),
        b'}' => Some(Sign::CloseBrace),
        b'>' => Some(Sign::Greater),
        b'/' => Some(Sign::Slash),
        b'+' => Some(Sign::Plus),
        _ => None,
    }
}

/// The sign of one byte that stands first.
fn first_short(text: &[u8]) -> Found
    ensures value { found result ≡ spec.first_short text.now }
    ensures shorter { Takes result text.now }
{
    match split(text) {
        Some((byte, rest)) => match short_sign(byte) {
            Some(sign) => Found::Token(Lexeme::Sign(sign), rest),
            None => Found::NoToken(FaultKind::NoToken),
        },
        None => Found::NoToken(FaultKind::NoToken),
    }
}

/// The sign that stands first, the longest if there are several.
#[tactic(auto, unfolding(sp_spec_text::specs::Lex::first_sign))]
fn sign(text: &[u8]) -> Found
    ensures value { found result ≡ first_sign text.now }
    ensures shorter { Takes result text.now }
{
    if let Some(rest) = after(text, b"--[") {
        Found::Token(Lexeme::Sign(Sign::OpenArrow), rest)
    } else if let Some(rest) = after(text, b"]->") {
        Found::Token(Lexeme::Sign(Sign::CloseArrow), rest)
    } else if let Some(rest) = after(text, b"-->") {
        Found::Token(Lexeme::Sign(Sign::Arrow), rest)
    } else if let Some(rest) = after(text, b"==>") {
        Found::Token(Lexeme::Sign(Sign::Implies), rest)
    } else if let Some(rest) = after(text, b"<=>") {
        Found::Token(Lexeme::Sign(Sign::Iff), rest)
    } else {
        first_short(text)
    }
}

/// The sign of logic that these bytes are, one of those with three.
#[tactic(auto, unfolding(sp_spec_text::specs::Lex::long_sign))]
fn long_sign(first: u8, second: u8, third: u8) -> Option<Wide>
    ensures { option_map wide_of result ≡ spec.long_sign first second third }
{
    if first != 0xE2 {
        return None;
    }
    match second {
        0x88 => match third {
            0x80 => Some(Wide::All),
            0x83 => Some(Wide::Ex),
            0xA7 => Some(Wide::Both),
            0xA8 => Some(Wide::Either),
            _ => None,
        },
        0x87 => match third {
            0x92 => Some(Wide::Then),
            0x94 => Some(Wide::Same),
            _ => None,
        },
        0x8A => match third {
            0xA4 => Some(Wide::True),
            0xA5 => Some(Wide::False),
            _ => None,
        },
        _ => None,
    }
}

/// The sign of logic of three bytes that stands first.
fn first_long(text: &[u8]) -> Found
    ensures value { found result ≡ spec.first_long text.now }
    ensures shorter { Takes result text.now }
{
    match text {
        [first, second, third, rest @ ..] => match long_sign(*first, *second, *third) {
            Some(sign) => Found::Token(Lexeme::Wide(sign), rest),
            None => Found::NoToken(FaultKind::NoToken),
        },
        _ => Found::NoToken(FaultKind::NoToken),
    }
}

/// The sign of logic that stands first, of two bytes or of three.
#[tactic(auto, unfolding(sp_spec_text::specs::Lex::first_wide))]
fn wide(text: &[u8]) -> Found
    ensures value { found result ≡ first_wide text.now }
    ensures shorter { Takes result text.now }
{
    match after(text, b"\xC2\xAC") {
        Some(rest) => Found::Token(Lexeme::Wide(Wide::Not), rest),
        None => first_long(text),
    }
}

/// What follows the first `*}`, if one is there.
#[tactic(auto, using(crate::proofs::Blocks::blocks), unfolding(sp_spec_text::specs::Lex::after_block))]
fn after_block(text: &[u8]) -> Option<&[u8]>
    ensures value { option_map (λ x. x.now) result ≡ spec.after_block text.now }
    ensures shorter { IfSome result (λ x. length x.now < length text.now) }
{
    let mut rest = text;
    loop {
        let (first, after) = split(rest)?;
        let (second, behind) = split(after)?;
        if first == b'*' && second == b'}' {
            return Some(behind);
        }
        rest = after;
    }
}

/// A block of text behind its `{*`.
fn block(inside: &[u8]) -> Found
    ensures value { found result ≡ close_block (spec.after_block inside.now) }
    ensures shorter { Takes result inside.now }
{
    match after_block(inside) {
        Some(rest) => Found::Token(Lexeme::Block, rest),
        None => Found::NoToken(FaultKind::OpenBlock),
    }
}

/// A constant behind its first quote.
#[tactic(auto, using(crate::proofs::Pieces::pieces))]
fn constant(body: &[u8]) -> Found
    ensures value { found result ≡ close_constant body.now (spec.skip kinds.Constant body.now) }
    ensures shorter { Takes result body.now }
{
    let rest = skip(Class::Constant, body);
    match split(rest) {
        Some((b'\'', behind)) if rest.len() < body.len() => Found::Token(
            Lexeme::Constant(before(body, rest)),
            behind,
        ),
        _ => Found::NoToken(FaultKind::NoConstant),
    }
}

/// The word, constant, block of text or sign that begins here.
#[tactic(auto, using(crate::proofs::Pieces::pieces), unfolding(sp_spec_text::specs::Lex::piece))]
fn piece(text: &[u8]) -> Found
    ensures value { found result ≡ spec.piece text.now }
    ensures shorter { Takes result text.now }
{
    if let Some((byte, behind)) = split(text) {
        if byte.is_ascii_alphanumeric() {
            let rest = skip(Class::Word, behind);
            return Found::Token(Lexeme::Word(before(text, rest)), rest);
        }
        if byte == b'\'' {
            return constant(behind);
        }
        if let Some(inside) = after(text, b"{*") {
            return block(inside);
        }
        if byte == 0xC2 || byte == 0xE2 {
            return wide(text);
        }
    }
    sign(text)
}

/// What two bytes of a comment do to the comments that are open.
fn comment_mark(first: u8, second: u8) -> Mark
    ensures { mark_of result ≡ spec.comment_mark first second }
{
    if first == b'/' && second == b'*' {
        Mark::Opens
    } else if first == b'*' && second == b'/' {
        Mark::Closes
    } else {
        Mark::Neither
    }
}

/// What follows a comment, from behind its first `/*`, if it is closed.
#[tactic(auto, using(crate::proofs::Gaps::comments), unfolding(sp_spec_text::specs::Lex::after_comment))]
fn after_comment(text: &[u8]) -> Option<&[u8]>
    ensures value { option_map (λ x. x.now) result ≡ spec.after_comment 0 text.now }
    ensures shorter { IfSome result (λ x. length x.now ≤ length text.now) }
{
    let mut depth: usize = 0;
    let mut rest = text;
    loop {
        let Some((first, after)) = split(rest) else {
            return None;
        };
        let Some((second, behind)) = split(after) else {
            return None;
        };
        match comment_mark(first, second) {
            Mark::Opens => {
                depth += 1;
                rest = behind;
            }
            Mark::Closes => {
                if depth == 0 {
                    return Some(behind);
                }
                depth -= 1;
                rest = behind;
            }
            Mark::Neither => rest = after,
        }
    }
}

/// The blank or the comment that begins here.
#[tactic(auto, unfolding(sp_spec_text::specs::Lex::gap))]
fn gap(text: &[u8]) -> Gap
    ensures value { step result ≡ spec.gap text.now }
    ensures shorter { Passes result text.now }
{
    if let Some((byte, rest)) = split(text) {
        if is_blank(byte) {
            return Gap::Past(rest);
        }
    }
    if let Some(inside) = after(text, b"//") {
        return Gap::Past(skip(Class::Line, inside));
    }
    match after(text, b"/*") {
        Some(inside) => match after_comment(inside) {
            Some(rest) => Gap::Past(rest),
            None => Gap::Unclosed,
        },
        None => Gap::Nothing,
    }
}

/// The bytes behind all blanks and comments that stand here, or from the comment on that is not closed.
#[tactic(auto, using(crate::proofs::Gaps::gaps))]
fn skip_gaps(text: &[u8]) -> Result<&[u8], &[u8]>
    ensures read { MatchResult result (λ x. Skips text.now x.now) (λ x. IsUnclosed text.now x.now) }
    ensures shorter { MatchResult result (λ x. length x.now ≤ length text.now) (λ x. length x.now ≤ length text.now) }
{
    let mut rest = text;
    loop {
        match gap(rest) {
            Gap::Nothing => return Ok(rest),
            Gap::Past(after) => rest = after,
            Gap::Unclosed => return Err(rest),
        }
    }
}

/// Whether the bytes behind this one stand in a constant.
fn is_quoted(quoted: bool, byte: u8, after: &[u8]) -> bool
    ensures { result ≡ spec.is_quoted quoted byte after.now }
{
    if quoted {
        return byte != b'\'';
    }
    byte == b'\'' && matches!(constant(after), Found::Token(_, _))
}

/// What a byte does to the brackets that are open.
fn bracket(quoted: bool, byte: u8) -> Mark
    ensures { mark_of result ≡ spec.bracket quoted byte }
{
    if quoted {
        Mark::Neither
    } else if byte == b'(' {
        Mark::Opens
    } else if byte == b')' {
        Mark::Closes
    } else {
        Mark::Neither
    }
}

/// The bytes from the bracket on that closes a `solve(`, from behind that, if there is one.
#[tactic(auto, using(crate::proofs::Solve::closings), unfolding(sp_spec_text::specs::Lex::to_closing))]
fn to_closing(text: &[u8]) -> Option<&[u8]>
    ensures value { option_map (λ x. x.now) result ≡ spec.to_closing false 0 text.now }
    ensures shorter { IfSome result (λ x. (0 < length x.now) × (length x.now ≤ length text.now)) }
{
    let mut quoted = false;
    let mut depth: usize = 0;
    let mut rest = text;
    loop {
        let Some((byte, after)) = split(rest) else {
            return None;
        };
        match bracket(quoted, byte) {
            Mark::Opens => {
                depth += 1;
                rest = after;
            }
            Mark::Closes => {
                if depth == 0 {
                    return Some(rest);
                }
                depth -= 1;
                rest = after;
            }
            Mark::Neither => {
                quoted = is_quoted(quoted, byte, after);
                rest = after;
            }
        }
    }
}

/// The goal that stands behind `solve(`.
fn solve(inside: &[u8]) -> Found
    ensures value { found result ≡ solve_piece inside.now }
    ensures shorter { Takes result inside.now }
{
    match to_closing(inside) {
        Some(rest) => Found::Token(Lexeme::Solve(bytes_before(inside, rest)), &rest[1..]),
        None => Found::NoToken(FaultKind::OpenSolve),
    }
}

/// What stands behind a bracket, with blanks and comments before it.
#[tactic(auto, using(crate::proofs::Solve::brackets))]
fn behind_bracket(text: &[u8]) -> Option<&[u8]>
    ensures value { MatchOption result (NoBracket text.now) (λ x. Skips text.now (40 ∷ x.now)) }
    ensures shorter { IfSome result (λ x. length x.now ≤ length text.now) }
{
    match skip_gaps(text) {
        Ok(rest) => {
            let (byte, inside) = split(rest)?;
            if byte == b'(' { Some(inside) } else { None }
        }
        Err(_) => None,
    }
}

/// Whether it is the word `solve`.
fn is_solve(lexeme: Lexeme) -> bool
    ensures { result ≡ spec.is_solve (lexeme_of lexeme.entry) }
{
    match lexeme {
        Lexeme::Word(word) => word == "solve",
        Lexeme::Constant(_) => false,
        Lexeme::Sign(_) => false,
        Lexeme::Solve(_) => false,
        Lexeme::Wide(_) => false,
        Lexeme::Block => false,
    }
}

/// The token that begins here.
#[tactic(auto, using(crate::proofs::Solve::readings))]
fn first_token(text: &[u8]) -> Found
    ensures value { Reads text.now (found result) }
    ensures shorter { Takes result text.now }
{
    match piece(text) {
        Found::Token(lexeme, rest) => {
            if !is_solve(lexeme) {
                return Found::Token(lexeme, rest);
            }
            match behind_bracket(rest) {
                Some(inside) => solve(inside),
                None => Found::Token(lexeme, rest),
            }
        }
        Found::NoToken(kind) => Found::NoToken(kind),
    }
}

/// Whether it is the word `end`.
fn is_end(lexeme: Lexeme) -> bool
    ensures { result ≡ spec.is_end (lexeme_of lexeme.entry) }
{
    match lexeme {
        Lexeme::Word(word) => word == "end",
        Lexeme::Constant(_) => false,
        Lexeme::Sign(_) => false,
        Lexeme::Solve(_) => false,
        Lexeme::Wide(_) => false,
        Lexeme::Block => false,
    }
}

fn push<'a>(found: &mut Vec<Token<'a>>, next: Token<'a>) -> Result<(), AllocError>
    ensures { OnOk result (tokens_of found.new.items ≡ tokens_of found.old.items ++ token_of next.entry ∷ []) }
{
    found.push(next)?;
    Ok(())
}

fn broken<'a>(tokens: Vec<Token<'a>>, kind: FaultKind, place: usize) -> Scanned<'a>
    ensures tokens { tokens_of result.tokens.items ≡ tokens_of tokens.entry.items }
    ensures fault { result.fault ≡ Some (record { kind = kind; place = place }) }
{
    Scanned {
        tokens,
        fault: Some(LexFault { kind, place }),
    }
}

/// The tokens of a text up to its first word `end`, or those before its first fault, and that fault.
///
/// What follows that word is not looked at. A text without it is cut whole.
/// Blanks and comments separate tokens; a comment goes to the end of its line, or is bracketed, and those nest.
///
/// # Errors
///
/// There is no memory.
#[tactic(auto, using(crate::proofs::Runs::runs))]
pub fn scan<'a>(alloc: Global, text: &'a [u8]) -> Result<Scanned<'a>, AllocError>
    ensures { IfOk result (λ c. IsScanned text.now (tokens_of c.tokens.items) c.fault) }
{
    let size = text.len();
    let mut found = Vec::new(alloc);
    let mut rest = text;
    loop {
        let here = match skip_gaps(rest) {
            Ok(here) => here,
            Err(comment) => {
                let made = broken(found, FaultKind::OpenComment, size - comment.len());
                return Ok(made);
            }
        };
        if here.len() == 0 {
            return Ok(Scanned {
                tokens: found,
                fault: None,
            });
        }
        let start = size - here.len();
        match first_token(here) {
            Found::Token(lexeme, after) => {
                let end = size - after.len();
                push(&mut found, Token { lexeme, start, end })?;
                if is_end(lexeme) {
                    return Ok(Scanned {
                        tokens: found,
                        fault: None,
                    });
                }
                rest = after;
            }
            Found::NoToken(kind) => {
                let made = broken(found, kind, start);
                return Ok(made);
            }
        }
    }
}

/// The tokens of a text up to its first word `end`, or its first fault.
pub fn tokens<'a>(alloc: Global, text: &'a [u8]) -> Result<Vec<Token<'a>>, LexError>
    ensures { MatchResult result (λ x. AreTokens (length text.now) text.now (tokens_of x.items)) (IsFaultOf text.now) }
{
    match scan(alloc, text) {
        Ok(made) => match made.fault {
            None => Ok(made.tokens),
            Some(fault) => Err(LexError::Fault(fault)),
        },
        Err(_) => Err(LexError::Memory),
    }
}
