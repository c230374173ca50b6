// What a token does to variables, terms and facts.

ghost use Rattle.std.specs.Prelude.{◌≡◌, [], ◌∷◌, ◌≤◌};
ghost use Rattle.sp_lex.specs.Views.{lexeme_of, sign_of};
ghost use Rattle.sp_await.specs.Table as spec;
ghost use Rattle.sp_await.specs.Views.{move_of};

use sp_await::awaited::{Awaited, OneToken, TermPart};
use sp_await::lexemes::{is_constant, is_fact_name, is_mark, is_name, is_sign};
use sp_await::moves::{Expansion, LIMIT, Move, nests, single};
use sp_lex::{Lexeme, Sign};

pub fn sorted<'a>(x: Lexeme<'a>) -> Move
    ensures { move_of result ≡ spec.sorted_move (lexeme_of x.entry) }
{
    if is_sign(Sign::Colon, x) {
        Move::Takes(Expansion::One(Awaited::Token(OneToken::Sort)))
    } else {
        Move::Becomes(Expansion::Zero)
    }
}

pub fn variable<'a>(x: Lexeme<'a>) -> Move
    ensures { move_of result ≡ spec.variable_move [] (lexeme_of x.entry) }
{
    if is_mark(x) {
        Move::Takes(Expansion::One(Awaited::Token(OneToken::Name)))
    } else if is_name(x) {
        Move::Takes(Expansion::One(Awaited::Term(TermPart::Sorted)))
    } else {
        Move::Stuck
    }
}

pub fn term<'a>(nesting: u32, x: Lexeme<'a>) -> Move
    requires { nesting ≤ LIMIT }
    ensures { move_of result ≡ spec.term_move nesting (lexeme_of x.entry) }
{
    if is_constant(x) {
        Move::Takes(Expansion::Zero)
    } else if is_sign(Sign::Open, x) {
        nests(
            nesting,
            Move::Takes(Expansion::Two(
                Awaited::Term(TermPart::Term(nesting + 1)),
                Awaited::Token(OneToken::Exactly(Sign::Close)),
            )),
        )
    } else if is_sign(Sign::Less, x) {
        nests(
            nesting,
            Move::Takes(Expansion::One(Awaited::Term(TermPart::Tuple(nesting + 1, Sign::Greater)))),
        )
    } else if is_mark(x) {
        Move::Takes(Expansion::One(Awaited::Token(OneToken::Name)))
    } else if is_name(x) {
        Move::Takes(Expansion::One(Awaited::Term(TermPart::Applied(nesting))))
    } else {
        Move::Stuck
    }
}

pub fn applied<'a>(nesting: u32, x: Lexeme<'a>) -> Move
    requires { nesting ≤ LIMIT }
    ensures { move_of result ≡ spec.applied_move nesting (lexeme_of x.entry) }
{
    if is_sign(Sign::Open, x) {
        nests(
            nesting,
            Move::Takes(Expansion::One(Awaited::Term(TermPart::Arguments(nesting + 1)))),
        )
    } else if is_sign(Sign::OpenBrace, x) {
        let braced = Expansion::Two(
            Awaited::Term(TermPart::Tuple(nesting + 1, Sign::CloseBrace)),
            Awaited::Term(TermPart::Term(nesting + 1)),
        );
        nests(nesting, Move::Takes(braced))
    } else {
        Move::Becomes(Expansion::One(Awaited::Term(TermPart::Sorted)))
    }
}

pub fn tuple(nesting: u32, close: Sign) -> Move
    ensures { move_of result ≡ spec.tuple_move nesting (sign_of close) }
{
    Move::Becomes(Expansion::Two(
        Awaited::Term(TermPart::Term(nesting)),
        Awaited::Term(TermPart::MoreTuple(nesting, close)),
    ))
}

pub fn more_tuple<'a>(nesting: u32, close: Sign, x: Lexeme<'a>) -> Move
    requires { nesting ≤ LIMIT }
    ensures { move_of result ≡ spec.more_tuple_move nesting (sign_of close) (lexeme_of x.entry) }
{
    if is_sign(Sign::Comma, x) {
        nests(
            nesting,
            Move::Takes(Expansion::One(Awaited::Term(TermPart::Tuple(nesting + 1, close)))),
        )
    } else {
        single(is_sign(close, x))
    }
}

pub fn arguments<'a>(nesting: u32, x: Lexeme<'a>) -> Move
    ensures { move_of result ≡ spec.arguments_move nesting (lexeme_of x.entry) }
{
    if is_sign(Sign::Close, x) {
        Move::Takes(Expansion::Zero)
    } else {
        Move::Becomes(Expansion::Two(
            Awaited::Term(TermPart::Term(nesting)),
            Awaited::Term(TermPart::MoreArguments(nesting)),
        ))
    }
}

pub fn more_arguments<'a>(nesting: u32, x: Lexeme<'a>) -> Move
    ensures { move_of result ≡ spec.more_arguments_move nesting (lexeme_of x.entry) }
{
    if is_sign(Sign::Comma, x) {
        Move::Takes(Expansion::Two(
            Awaited::Term(TermPart::Term(nesting)),
            Awaited::Term(TermPart::MoreArguments(nesting)),
        ))
    } else if is_sign(Sign::Close, x) {
        Move::Takes(Expansion::Zero)
    } else {
        Move::Stuck
    }
}

pub fn fact<'a>(nesting: u32, x: Lexeme<'a>) -> Move
    ensures { move_of result ≡ spec.fact_move nesting (lexeme_of x.entry) }
{
    if is_sign(Sign::Bang, x) {
        Move::Takes(Expansion::Two(
            Awaited::Token(OneToken::FactName),
            Awaited::Term(TermPart::Opened(nesting)),
        ))
    } else if is_fact_name(x) {
        Move::Takes(Expansion::One(Awaited::Term(TermPart::Opened(nesting))))
    } else {
        Move::Stuck
    }
}

pub fn opened<'a>(nesting: u32, x: Lexeme<'a>) -> Move
    requires { nesting ≤ LIMIT }
    ensures { move_of result ≡ spec.opened_move nesting (lexeme_of x.entry) }
{
    if is_sign(Sign::Open, x) {
        let opened = Expansion::Two(
            Awaited::Term(TermPart::Arguments(nesting + 1)),
            Awaited::Term(TermPart::Annotations),
        );
        nests(nesting, Move::Takes(opened))
    } else {
        Move::Stuck
    }
}

pub fn annotations<'a>(x: Lexeme<'a>) -> Move
    ensures { move_of result ≡ spec.annotations_move (lexeme_of x.entry) }
{
    if is_sign(Sign::OpenList, x) {
        Move::Takes(Expansion::Two(
            Awaited::Token(OneToken::Annotation),
            Awaited::Term(TermPart::MoreAnnotations),
        ))
    } else {
        Move::Becomes(Expansion::Zero)
    }
}

pub fn more_annotations<'a>(x: Lexeme<'a>) -> Move
    ensures { move_of result ≡ spec.more_annotations_move (lexeme_of x.entry) }
{
    if is_sign(Sign::Comma, x) {
        Move::Takes(Expansion::Two(
            Awaited::Token(OneToken::Annotation),
            Awaited::Term(TermPart::MoreAnnotations),
        ))
    } else {
        single(is_sign(Sign::CloseList, x))
    }
}

pub fn binders<'a>(x: Lexeme<'a>) -> Move
    ensures { move_of result ≡ spec.binders_move (lexeme_of x.entry) }
{
    if is_sign(Sign::Dot, x) {
        Move::Takes(Expansion::Zero)
    } else if is_mark(x) {
        Move::Takes(Expansion::Two(
            Awaited::Token(OneToken::Name),
            Awaited::Term(TermPart::Binders),
        ))
    } else if is_name(x) {
        Move::Takes(Expansion::Two(
            Awaited::Term(TermPart::Sorted),
            Awaited::Term(TermPart::Binders),
        ))
    } else {
        Move::Stuck
    }
}
