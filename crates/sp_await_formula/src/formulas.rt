// What a token does to the parts of formulas. Of two numbers the first is the nesting of a unit, the second the brackets inside of it that
// are open.

ghost use Rattle.std.specs.Prelude.{◌≡◌, ◌≤◌};
ghost use Rattle.sp_lex.specs.Views.{lexeme_of};
ghost use Rattle.sp_await.specs.Table as spec;
ghost use Rattle.sp_await.specs.Views.{move_of};

use sp_await::awaited::{Awaited, FormulaPart, OneToken, TermPart};
use sp_await::lexemes::{is_constant, is_fact_name, is_mark, is_name, is_sign, is_word};
use sp_await::moves::{Expansion, LIMIT, Move, nests};
use sp_lex::{Lexeme, Sign};

/// The nesting inside of the brackets.
#[tactic(auto, using(crate::proofs::Depth::deep_sum))]
fn deep(n: u32, k: u32) -> u32
    requires { spec.deep n k ≤ LIMIT }
    ensures { result ≡ spec.deep n k }
{
    n + k
}

pub fn negation<'a>(n: u32, k: u32, x: Lexeme<'a>) -> Move
    requires { spec.deep n k ≤ LIMIT }
    ensures { move_of result ≡ spec.negation_move n k (lexeme_of x.entry) }
{
    if is_word("not", x) {
        Move::Takes(Expansion::Two(
            Awaited::Formula(FormulaPart::Unit(deep(n, k), 0)),
            Awaited::Formula(FormulaPart::Closing(n, k)),
        ))
    } else {
        Move::Becomes(Expansion::One(Awaited::Formula(FormulaPart::Unit(n, k))))
    }
}

/// A unit that begins with a word.
fn word<'a>(n: u32, k: u32, x: Lexeme<'a>) -> Move
    requires { spec.deep n k ≤ LIMIT }
    ensures { move_of result ≡ spec.word_move n k (lexeme_of x.entry) }
{
    if is_word("All", x) || is_word("Ex", x) {
        let m = deep(n, k);
        let body = Expansion::Six(
            Awaited::Term(TermPart::Variable),
            Awaited::Term(TermPart::Binders),
            Awaited::Formula(FormulaPart::Negation(m + 1, 0)),
            Awaited::Formula(FormulaPart::More(m + 1)),
            Awaited::Formula(FormulaPart::Twice(m + 1)),
            Awaited::Formula(FormulaPart::Closing(n, k)),
        );
        nests(m, Move::Takes(body))
    } else if is_word("T", x) || is_word("F", x) {
        Move::Takes(Expansion::One(Awaited::Formula(FormulaPart::Truth(n, k))))
    } else if is_fact_name(x) {
        Move::Takes(Expansion::One(Awaited::Formula(FormulaPart::Named(n, k))))
    } else if is_name(x) {
        Move::Takes(Expansion::One(Awaited::Formula(FormulaPart::Bare(n, k))))
    } else {
        Move::Stuck
    }
}

#[tactic(auto, using(crate::proofs::Depth::deep_sum))]
pub fn unit<'a>(n: u32, k: u32, x: Lexeme<'a>) -> Move
    requires { spec.deep n k ≤ LIMIT }
    ensures { move_of result ≡ spec.unit_move n k (lexeme_of x.entry) }
{
    let m = deep(n, k);
    if is_sign(Sign::Open, x) {
        nests(
            m,
            Move::Takes(Expansion::One(Awaited::Formula(FormulaPart::Negation(n, k + 1)))),
        )
    } else if is_sign(Sign::Less, x) {
        let tuple = Expansion::Two(
            Awaited::Term(TermPart::Tuple(m + 1, Sign::Greater)),
            Awaited::Formula(FormulaPart::Side(n, k)),
        );
        nests(m, Move::Takes(tuple))
    } else if is_constant(x) {
        Move::Takes(Expansion::One(Awaited::Formula(FormulaPart::Side(n, k))))
    } else if is_mark(x) {
        Move::Takes(Expansion::Two(
            Awaited::Token(OneToken::Name),
            Awaited::Formula(FormulaPart::Order(n, k)),
        ))
    } else if is_sign(Sign::Bang, x) {
        let persistent = Expansion::Five(
            Awaited::Token(OneToken::FactName),
            Awaited::Term(TermPart::Opened(m)),
            Awaited::Token(OneToken::Exactly(Sign::At)),
            Awaited::Term(TermPart::Variable),
            Awaited::Formula(FormulaPart::Closing(n, k)),
        );
        nests(m, Move::Takes(persistent))
    } else {
        word(n, k, x)
    }
}

fn side_closed(n: u32, k: u32) -> Move
    ensures { move_of result ≡ spec.side_closed n k }
{
    if k == 0 {
        Move::Stuck
    } else {
        Move::Takes(Expansion::One(Awaited::Formula(FormulaPart::Side(n, k - 1))))
    }
}

pub fn side<'a>(n: u32, k: u32, x: Lexeme<'a>) -> Move
    requires { spec.deep n k ≤ LIMIT }
    ensures { move_of result ≡ spec.side_move n k (lexeme_of x.entry) }
{
    if is_sign(Sign::Equals, x) {
        Move::Takes(Expansion::Two(
            Awaited::Term(TermPart::Term(deep(n, k))),
            Awaited::Formula(FormulaPart::Closing(n, k)),
        ))
    } else if is_sign(Sign::Close, x) {
        side_closed(n, k)
    } else {
        Move::Stuck
    }
}

pub fn order<'a>(n: u32, k: u32, x: Lexeme<'a>) -> Move
    ensures { move_of result ≡ spec.order_move n k (lexeme_of x.entry) }
{
    if is_sign(Sign::Less, x) {
        Move::Takes(Expansion::Two(
            Awaited::Term(TermPart::Variable),
            Awaited::Formula(FormulaPart::Closing(n, k)),
        ))
    } else {
        Move::Becomes(Expansion::One(Awaited::Formula(FormulaPart::Side(n, k))))
    }
}

pub fn bare<'a>(n: u32, k: u32, x: Lexeme<'a>) -> Move
    requires { spec.deep n k ≤ LIMIT }
    ensures { move_of result ≡ spec.bare_move n k (lexeme_of x.entry) }
{
    let m = deep(n, k);
    if is_sign(Sign::Colon, x) {
        Move::Takes(Expansion::Two(
            Awaited::Token(OneToken::Sort),
            Awaited::Formula(FormulaPart::Order(n, k)),
        ))
    } else if is_sign(Sign::Open, x) {
        let application = Expansion::Two(
            Awaited::Term(TermPart::Arguments(m + 1)),
            Awaited::Formula(FormulaPart::Side(n, k)),
        );
        nests(m, Move::Takes(application))
    } else if is_sign(Sign::OpenBrace, x) {
        let braced = Expansion::Three(
            Awaited::Term(TermPart::Tuple(m + 1, Sign::CloseBrace)),
            Awaited::Term(TermPart::Term(m + 1)),
            Awaited::Formula(FormulaPart::Side(n, k)),
        );
        nests(m, Move::Takes(braced))
    } else {
        Move::Becomes(Expansion::One(Awaited::Formula(FormulaPart::Order(n, k))))
    }
}

pub fn named<'a>(n: u32, k: u32, x: Lexeme<'a>) -> Move
    requires { spec.deep n k ≤ LIMIT }
    ensures { move_of result ≡ spec.named_move n k (lexeme_of x.entry) }
{
    if is_sign(Sign::Open, x) {
        let m = deep(n, k);
        let arguments = Expansion::Two(
            Awaited::Term(TermPart::Arguments(m + 1)),
            Awaited::Formula(FormulaPart::Shown(n, k)),
        );
        nests(m, Move::Takes(arguments))
    } else {
        Move::Becomes(Expansion::One(Awaited::Formula(FormulaPart::Bare(n, k))))
    }
}

pub fn shown<'a>(n: u32, k: u32, x: Lexeme<'a>) -> Move
    ensures { move_of result ≡ spec.shown_move n k (lexeme_of x.entry) }
{
    if is_sign(Sign::At, x) {
        Move::Takes(Expansion::Two(
            Awaited::Term(TermPart::Variable),
            Awaited::Formula(FormulaPart::Closing(n, k)),
        ))
    } else if is_sign(Sign::OpenList, x) {
        Move::Takes(Expansion::Five(
            Awaited::Token(OneToken::Annotation),
            Awaited::Term(TermPart::MoreAnnotations),
            Awaited::Token(OneToken::Exactly(Sign::At)),
            Awaited::Term(TermPart::Variable),
            Awaited::Formula(FormulaPart::Closing(n, k)),
        ))
    } else {
        Move::Becomes(Expansion::One(Awaited::Formula(FormulaPart::Side(n, k))))
    }
}

pub fn truth<'a>(n: u32, k: u32, x: Lexeme<'a>) -> Move
    ensures { move_of result ≡ spec.truth_move n k (lexeme_of x.entry) }
{
    if is_sign(Sign::Colon, x)
        || is_sign(Sign::Open, x)
        || is_sign(Sign::Less, x)
        || is_sign(Sign::OpenBrace, x)
    {
        Move::Becomes(Expansion::One(Awaited::Formula(FormulaPart::Named(n, k))))
    } else {
        Move::Becomes(Expansion::One(Awaited::Formula(FormulaPart::Both(n, k))))
    }
}

fn both_closed(n: u32, k: u32) -> Move
    ensures { move_of result ≡ spec.both_closed n k }
{
    if k == 0 {
        Move::Becomes(Expansion::One(Awaited::Formula(FormulaPart::Closing(n, 0))))
    } else {
        Move::Takes(Expansion::One(Awaited::Formula(FormulaPart::Both(n, k - 1))))
    }
}

pub fn both<'a>(n: u32, k: u32, x: Lexeme<'a>) -> Move
    ensures { move_of result ≡ spec.both_move n k (lexeme_of x.entry) }
{
    if is_sign(Sign::Equals, x) {
        Move::Becomes(Expansion::One(Awaited::Formula(FormulaPart::Side(n, k))))
    } else if is_sign(Sign::Close, x) {
        both_closed(n, k)
    } else {
        Move::Becomes(Expansion::One(Awaited::Formula(FormulaPart::Closing(n, k))))
    }
}

pub fn closing(n: u32, k: u32) -> Move
    requires { spec.deep n k ≤ LIMIT }
    ensures { move_of result ≡ spec.closing_move n k }
{
    if k == 0 {
        Move::Becomes(Expansion::Zero)
    } else {
        let m = deep(n, k);
        Move::Becomes(Expansion::Four(
            Awaited::Formula(FormulaPart::More(m)),
            Awaited::Formula(FormulaPart::Twice(m)),
            Awaited::Token(OneToken::Exactly(Sign::Close)),
            Awaited::Formula(FormulaPart::Closing(n, k - 1)),
        ))
    }
}

pub fn more<'a>(n: u32, x: Lexeme<'a>) -> Move
    requires { n ≤ LIMIT }
    ensures { move_of result ≡ spec.more_move n (lexeme_of x.entry) }
{
    if is_sign(Sign::And, x) || is_sign(Sign::Or, x) {
        Move::Takes(Expansion::Two(
            Awaited::Formula(FormulaPart::Negation(n, 0)),
            Awaited::Formula(FormulaPart::More(n)),
        ))
    } else if is_sign(Sign::Implies, x) {
        nests(
            n,
            Move::Takes(Expansion::Two(
                Awaited::Formula(FormulaPart::Negation(n + 1, 0)),
                Awaited::Formula(FormulaPart::More(n + 1)),
            )),
        )
    } else {
        Move::Becomes(Expansion::Zero)
    }
}

pub fn twice<'a>(n: u32, x: Lexeme<'a>) -> Move
    ensures { move_of result ≡ spec.twice_move n (lexeme_of x.entry) }
{
    if is_sign(Sign::Iff, x) {
        Move::Takes(Expansion::Two(
            Awaited::Formula(FormulaPart::Negation(n, 0)),
            Awaited::Formula(FormulaPart::More(n)),
        ))
    } else {
        Move::Becomes(Expansion::Zero)
    }
}

/// A formula behind its opening quote.
pub fn quoted() -> Move
    ensures { move_of result ≡ spec.quoted_move }
{
    Move::Opens(Expansion::Four(
        Awaited::Formula(FormulaPart::Negation(0, 0)),
        Awaited::Formula(FormulaPart::More(0)),
        Awaited::Formula(FormulaPart::Twice(0)),
        Awaited::Token(OneToken::Exactly(Sign::Quote)),
    ))
}
