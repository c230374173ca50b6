// What a token does to the parts of items that are lists.

ghost use Rattle.std.specs.Prelude.{◌≡◌};
ghost use Rattle.sp_lex.specs.Views.{lexeme_of};
ghost use Rattle.sp_await.specs.Table as spec;
ghost use Rattle.sp_await.specs.Views.{all_of, expansion_of, list_of, move_of};

use sp_await::awaited::{Awaited, ItemPart, ListPart, OneToken, TermPart, WordPart};
use sp_await::keywords::ListItem;
use sp_await::lexemes::{is_name, is_sign};
use sp_await::moves::{Expansion, Move, single};
use sp_lex::{Lexeme, Sign};

/// What stands behind the colon of a list.
fn list_parts(list: ListItem) -> Expansion
    ensures { all_of (expansion_of result) ≡ spec.list_parts (list_of list) }
{
    match list {
        ListItem::Builtins => Expansion::Two(
            Awaited::Token(OneToken::Name),
            Awaited::List(ListPart::MoreBuiltins),
        ),
        ListItem::Functions => Expansion::Two(
            Awaited::List(ListPart::Function),
            Awaited::List(ListPart::MoreFunctions),
        ),
        ListItem::Equations => Expansion::Four(
            Awaited::Term(TermPart::Term(0)),
            Awaited::Token(OneToken::Exactly(Sign::Equals)),
            Awaited::Term(TermPart::Term(0)),
            Awaited::List(ListPart::MoreEquations),
        ),
        ListItem::Heuristic => Expansion::Two(
            Awaited::Token(OneToken::Name),
            Awaited::Words(WordPart::SecondWord),
        ),
    }
}

pub fn listing(list: ListItem) -> Move
    ensures { move_of result ≡ spec.becomes (spec.list_parts (list_of list)) }
{
    Move::Becomes(list_parts(list))
}

pub fn more_builtins<'a>(x: Lexeme<'a>) -> Move
    ensures { move_of result ≡ spec.more_builtins_move (lexeme_of x.entry) }
{
    if is_sign(Sign::Dash, x) || is_sign(Sign::Comma, x) {
        Move::Takes(Expansion::Two(
            Awaited::Token(OneToken::Name),
            Awaited::List(ListPart::MoreBuiltins),
        ))
    } else {
        Move::Becomes(Expansion::One(Awaited::Item(ItemPart::Items)))
    }
}

pub fn function<'a>(x: Lexeme<'a>) -> Move
    ensures { move_of result ≡ spec.function_move (lexeme_of x.entry) }
{
    if is_name(x) {
        Move::Takes(Expansion::Three(
            Awaited::Token(OneToken::Exactly(Sign::Slash)),
            Awaited::Token(OneToken::Number),
            Awaited::List(ListPart::Attributes),
        ))
    } else {
        Move::Stuck
    }
}

pub fn attributes<'a>(x: Lexeme<'a>) -> Move
    ensures { move_of result ≡ spec.attributes_move (lexeme_of x.entry) }
{
    if is_sign(Sign::OpenList, x) {
        Move::Takes(Expansion::Two(
            Awaited::Token(OneToken::Attribute),
            Awaited::List(ListPart::MoreAttributes),
        ))
    } else {
        Move::Becomes(Expansion::Zero)
    }
}

pub fn more_attributes<'a>(x: Lexeme<'a>) -> Move
    ensures { move_of result ≡ spec.more_attributes_move (lexeme_of x.entry) }
{
    if is_sign(Sign::Comma, x) {
        Move::Takes(Expansion::Two(
            Awaited::Token(OneToken::Attribute),
            Awaited::List(ListPart::MoreAttributes),
        ))
    } else {
        single(is_sign(Sign::CloseList, x))
    }
}

pub fn more_functions<'a>(x: Lexeme<'a>) -> Move
    ensures { move_of result ≡ spec.more_functions_move (lexeme_of x.entry) }
{
    if is_sign(Sign::Comma, x) {
        Move::Takes(Expansion::Two(
            Awaited::List(ListPart::Function),
            Awaited::List(ListPart::MoreFunctions),
        ))
    } else {
        Move::Becomes(Expansion::One(Awaited::Item(ItemPart::Items)))
    }
}

pub fn more_equations<'a>(x: Lexeme<'a>) -> Move
    ensures { move_of result ≡ spec.more_equations_move (lexeme_of x.entry) }
{
    if is_sign(Sign::Comma, x) {
        Move::Takes(Expansion::Four(
            Awaited::Term(TermPart::Term(0)),
            Awaited::Token(OneToken::Exactly(Sign::Equals)),
            Awaited::Term(TermPart::Term(0)),
            Awaited::List(ListPart::MoreEquations),
        ))
    } else {
        Move::Becomes(Expansion::One(Awaited::Item(ItemPart::Items)))
    }
}
