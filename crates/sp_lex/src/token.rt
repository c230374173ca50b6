use thiserror::Error;

/// A sign of the language of theories.
#[derive(Clone, Copy, PartialEq, Eq)]
pub enum Sign {
    /// `(`
    Open,
    /// `)`
    Close,
    /// `[`
    OpenList,
    /// `]`
    CloseList,
    /// `--[`
    OpenArrow,
    /// `]->`
    CloseArrow,
    /// `-->`
    Arrow,
    /// `==>`
    Implies,
    /// `<=>`
    Iff,
    /// `,`
    Comma,
    /// `:`
    Colon,
    /// `.`
    Dot,
    /// `"`
    Quote,
    /// `!`
    Bang,
    /// `~`
    Tilde,
    /// `$`
    Dollar,
    /// `#`
    Hash,
    /// `@`
    At,
    /// `&`
    And,
    /// `|`
    Or,
    /// `=`
    Equals,
    /// `<`
    Less,
    /// `-`
    Dash,
    /// `{`
    OpenBrace,
    /// `}`
    CloseBrace,
    /// `>`
    Greater,
    /// `/`
    Slash,
    /// `+`
    Plus,
}

/// A sign of logic that is longer than a byte; in formulas it is read as the text beside it.
#[derive(Clone, Copy, PartialEq, Eq)]
pub enum Wide {
    /// U+2200, `All`
    All,
    /// U+2203, `Ex`
    Ex,
    /// U+2227, `&`
    Both,
    /// U+2228, `|`
    Either,
    /// U+00AC, `not`
    Not,
    /// U+21D2, `==>`
    Then,
    /// U+21D4, `<=>`
    Same,
    /// U+22A4, `T`
    True,
    /// U+22A5, `F`
    False,
}

/// What a token is: a word, a constant without its quotes, a sign, a goal, a sign of logic, or a block of text.
#[derive(Clone, Copy)]
pub enum Lexeme<'a> {
    Word(&'a str),
    Constant(&'a str),
    Sign(Sign),
    /// What stands between the brackets of `solve( )`, as it is written.
    Solve(&'a [u8]),
    Wide(Wide),
    /// `{*`, any text, and `*}`
    Block,
}

/// A token, the place of its first byte in the text, and the place behind its last.
#[derive(Clone, Copy)]
pub struct Token<'a> {
    pub lexeme: Lexeme<'a>,
    pub start: usize,
    pub end: usize,
}

/// What is wrong at a place of a text.
#[derive(Clone, Copy, Debug, PartialEq, Eq, Error)]
pub enum FaultKind {
    /// A byte that begins no token.
    #[error("no token begins here")]
    NoToken,
    /// A comment that is not closed.
    #[error("the comment is not closed")]
    OpenComment,
    /// A `'` that begins no constant.
    #[error("the quote begins no constant")]
    NoConstant,
    /// A `solve(` whose bracket is not closed.
    #[error("the bracket behind `solve` is not closed")]
    OpenSolve,
    /// A `{*` without `*}` behind it.
    #[error("the text block is not closed")]
    OpenBlock,
}

/// The first fault of a text, and the place of the byte that it begins with.
#[derive(Clone, Copy, Debug, Error)]
#[error("at byte {place}: {kind}")]
pub struct LexFault {
    pub kind: FaultKind,
    pub place: usize,
}

/// A text's tokens up to its first word `end`, or those before its first fault, and that fault.
#[derive(Drop)]
pub struct Scanned<'a> {
    pub tokens: Vec<Token<'a>>,
    pub fault: Option<LexFault>,
}

/// Why a text has no tokens.
#[derive(Clone, Copy, Debug, Error)]
pub enum LexError {
    /// There is no memory for them.
    #[error("out of memory")]
    Memory,
    /// The text has a fault.
    #[error("the text has no tokens, {0}")]
    Fault(LexFault),
}

/// What stands first between two tokens.
pub enum Gap<'a> {
    Nothing,
    Past(&'a [u8]),
    Unclosed,
}

/// What is found where a token is to begin.
#[derive(Clone, Copy)]
pub enum Found<'a> {
    Token(Lexeme<'a>, &'a [u8]),
    NoToken(FaultKind),
}

/// What bytes do to the comments, or to the brackets, that are open.
#[derive(Clone, Copy)]
pub enum Mark {
    Opens,
    Closes,
    Neither,
}

/// The bytes of a piece.
#[derive(Clone, Copy)]
pub enum Class {
    Constant,
    Line,
    Word,
}
