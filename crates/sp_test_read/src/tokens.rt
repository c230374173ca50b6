// Texts are cut into tokens.

use sp_lex::{FaultKind, LexError, Lexeme, Wide, tokens};
use sp_test_make::texts::tokens_in;
use std::alloc::Global;
use std::test::Fail;

/// What a token is.
#[derive(Clone, Copy, PartialEq)]
enum Kind {
    Word,
    Constant,
    Sign,
    Goal,
    Wide(Wide),
    Block,
}

/// What kind a lexeme is of, and its text; a sign and a block show none.
fn shown<'a>(lexeme: &Lexeme<'a>) -> (Kind, &'a [u8]) {
    match *lexeme {
        Lexeme::Word(word) => (Kind::Word, word.as_bytes()),
        Lexeme::Constant(inside) => (Kind::Constant, inside.as_bytes()),
        Lexeme::Sign(_) => (Kind::Sign, b""),
        Lexeme::Solve(inside) => (Kind::Goal, inside),
        Lexeme::Wide(sign) => (Kind::Wide(sign), b""),
        Lexeme::Block => (Kind::Block, b""),
    }
}

/// Whether the text has these tokens: what kind each is, its text, where it begins and ends.
fn has_tokens(
    alloc: Global,
    text: &[u8],
    wanted: &[(Kind, &[u8], usize, usize)],
) -> Result<bool, Fail> {
    let found = tokens_in(alloc, text)?;
    let mut right = found.len() == wanted.len();
    for (token, want) in found.iter().zip(wanted.iter()) {
        let (kind, inside) = shown(&token.lexeme);
        let (start, end) = (token.start, token.end);
        right = right && kind == want.0 && inside == want.1 && start == want.2 && end == want.3;
    }
    Ok(right)
}

/// Texts and their tokens.
static TOKENS: [(&[u8], &[(Kind, &[u8], usize, usize)]); 14] = [
    (
        b"R.1_S.2 'a b'--[x]->.1 end?",
        &[
            (Kind::Word, b"R.1_S.2", 0, 7),
            (Kind::Constant, b"a b", 8, 13),
            (Kind::Sign, b"", 13, 16),
            (Kind::Word, b"x", 16, 17),
            (Kind::Sign, b"", 17, 20),
            (Kind::Sign, b"", 20, 21),
            (Kind::Word, b"1", 21, 22),
            (Kind::Word, b"end", 23, 26),
        ],
    ),
    (
        b"a // end\nb",
        &[(Kind::Word, b"a", 0, 1), (Kind::Word, b"b", 9, 10)],
    ),
    (
        b"/* end */ b end c",
        &[(Kind::Word, b"b", 10, 11), (Kind::Word, b"end", 12, 15)],
    ),
    (
        b"/* /* */ */a/**/b",
        &[(Kind::Word, b"a", 11, 12), (Kind::Word, b"b", 16, 17)],
    ),
    (
        b"//* \xFF ' */\n/* \xFF ' // */ a",
        &[(Kind::Word, b"a", 24, 25)],
    ),
    (
        b"solve( f(x) ')' )x",
        &[
            (Kind::Goal, b" f(x) ')' ", 0, 17),
            (Kind::Word, b"x", 17, 18),
        ],
    ),
    (
        b"solve // (\n /* ( */ ('(\xFF))",
        &[(Kind::Goal, b"'(\xFF)", 0, 26)],
    ),
    (b"solve('a'')", &[(Kind::Goal, b"'a''", 0, 11)]),
    (
        b"solve x solve.1()",
        &[
            (Kind::Word, b"solve", 0, 5),
            (Kind::Word, b"x", 6, 7),
            (Kind::Word, b"solve.1", 8, 15),
            (Kind::Sign, b"", 15, 16),
            (Kind::Sign, b"", 16, 17),
        ],
    ),
    (b"solve", &[(Kind::Word, b"solve", 0, 5)]),
    (
        b"\xE2\x88\x80\xE2\x88\x83 x\xE2\x88\xA7\xE2\x88\xA8\xC2\xAC",
        &[
            (Kind::Wide(Wide::All), b"", 0, 3),
            (Kind::Wide(Wide::Ex), b"", 3, 6),
            (Kind::Word, b"x", 7, 8),
            (Kind::Wide(Wide::Both), b"", 8, 11),
            (Kind::Wide(Wide::Either), b"", 11, 14),
            (Kind::Wide(Wide::Not), b"", 14, 16),
        ],
    ),
    (
        b"\xE2\x87\x92\xE2\x87\x94\xE2\x8A\xA4\xE2\x8A\xA5",
        &[
            (Kind::Wide(Wide::Then), b"", 0, 3),
            (Kind::Wide(Wide::Same), b"", 3, 6),
            (Kind::Wide(Wide::True), b"", 6, 9),
            (Kind::Wide(Wide::False), b"", 9, 12),
        ],
    ),
    (
        b"text{* \xFF ' end /* *}{**} {*} x *}",
        &[
            (Kind::Word, b"text", 0, 4),
            (Kind::Block, b"", 4, 20),
            (Kind::Block, b"", 20, 24),
            (Kind::Block, b"", 25, 33),
        ],
    ),
    (
        b"+,-{ }",
        &[
            (Kind::Sign, b"", 0, 1),
            (Kind::Sign, b"", 1, 2),
            (Kind::Sign, b"", 2, 3),
            (Kind::Sign, b"", 3, 4),
            (Kind::Sign, b"", 5, 6),
        ],
    ),
];

fn token_cases() -> &'static [(
    &'static [u8],
    &'static [(Kind, &'static [u8], usize, usize)],
)] {
    &TOKENS
}

#[test]
fn texts_are_cut(rt: HostRuntime) -> Result<(), Fail> {
    for (text, tokens) in token_cases().iter() {
        assert!(rt; has_tokens(rt.alloc(), text, tokens)?, "{text:?}");
    }
    Ok(())
}

/// The place of the first fault, if there is one, and whether it is of this kind.
fn fault(alloc: Global, text: &[u8], kind: FaultKind) -> Result<Option<(usize, bool)>, Fail> {
    match tokens(alloc, text) {
        Ok(_) => Ok(None),
        Err(LexError::Fault(fault)) => Ok(Some((fault.place, fault.kind == kind))),
        Err(LexError::Memory) => Err("memory".into()),
    }
}

/// Texts, and of which kind and where their first fault is.
static FAULTS: [(&[u8], FaultKind, Option<usize>); 21] = [
    (b"theory T % x", FaultKind::NoToken, Some(9)),
    (b"a \xFF", FaultKind::NoToken, Some(2)),
    (b"a /* b", FaultKind::OpenComment, Some(2)),
    (b"a /* /* */ b", FaultKind::OpenComment, Some(2)),
    (b"solve /*", FaultKind::OpenComment, Some(6)),
    (b"/*/", FaultKind::OpenComment, Some(0)),
    (b"a 'b", FaultKind::NoConstant, Some(2)),
    (b"a ''", FaultKind::NoConstant, Some(2)),
    (b" solve ( (x) ')'", FaultKind::OpenSolve, Some(1)),
    (b"solve( 'a' /* ) /*", FaultKind::OpenComment, Some(16)),
    (b"solve( ') )", FaultKind::NoToken, None),
    (b"a end ''", FaultKind::NoToken, None),
    (b"a b.c \t\r\n// '", FaultKind::NoToken, None),
    (b"a {* b * }", FaultKind::OpenBlock, Some(2)),
    (b"a {*}", FaultKind::OpenBlock, Some(2)),
    (b"a {*", FaultKind::OpenBlock, Some(2)),
    (b"a {* */ *} *", FaultKind::NoToken, Some(11)),
    (b"a \xC2\xAD", FaultKind::NoToken, Some(2)),
    (b"a \xE2\x88\x81", FaultKind::NoToken, Some(2)),
    (b"a \xE2\x87", FaultKind::NoToken, Some(2)),
    (b"a \xC2", FaultKind::NoToken, Some(2)),
];

fn fault_cases() -> &'static [(&'static [u8], FaultKind, Option<usize>)] {
    &FAULTS
}

#[test]
fn the_first_fault_is_found(rt: HostRuntime) -> Result<(), Fail> {
    for (text, kind, place) in fault_cases().iter() {
        let found = fault(rt.alloc(), text, *kind)?;
        assert_eq!(rt; found, place.map(|place| (place, true)), "{text:?}");
    }
    Ok(())
}
