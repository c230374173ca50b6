// What a token does to the parts of a heuristic, whose words end where an item begins: which words are the item's shows a few tokens later.

ghost use Rattle.std.specs.Prelude.{◌≡◌};
ghost use Rattle.sp_lex.specs.Views.{lexeme_of};
ghost use Rattle.sp_await.specs.Table as spec;
ghost use Rattle.sp_await.specs.Views.{all_of, expansion_of, keyword_of, kind_of, list_of, move_of, named_of};

use crate::items::{bracket_behind, colon_behind, open_behind};
use sp_await::awaited::{
    Awaited, FormulaPart, ItemPart, ListPart, OneToken, ProofPart, TermPart, WordPart,
};
use sp_await::keywords::{Keyword, ListItem, NamedItem, TraceKind};
use sp_await::lexemes::{is_block, is_name, is_sign, is_traces, is_word, keyword};
use sp_await::moves::{Expansion, Move, single};
use sp_lex::{Lexeme, Sign};

pub fn second_word<'a>(x: Lexeme<'a>) -> Move
    ensures { move_of result ≡ spec.second_word_move (lexeme_of x.entry) }
{
    if is_name(x) {
        let words = WordPart::MoreWords(keyword(x), Keyword::Neither);
        Move::Takes(Expansion::One(Awaited::Words(words)))
    } else {
        single(is_word("end", x))
    }
}

/// A colon behind words: the last, or the one before it, begins an item.
fn colon_behind_words(last: Keyword, before: Keyword) -> Move
    ensures { move_of result ≡ spec.words_colon_move (keyword_of last) (keyword_of before) }
{
    match before {
        Keyword::Names(item) => match last {
            Keyword::Lists(list) => {
                Move::Takes(Expansion::One(Awaited::Words(WordPart::Either(list, item))))
            }
            Keyword::Names(_) => Move::Takes(Expansion::One(Awaited::Item(ItemPart::Body(item)))),
            Keyword::Neither => Move::Takes(Expansion::One(Awaited::Item(ItemPart::Body(item)))),
        },
        Keyword::Lists(_) => colon_behind(last),
        Keyword::Neither => colon_behind(last),
    }
}

/// `[` behind words: the one before the last begins an item.
fn bracket_behind_words(before: Keyword) -> Move
    ensures { move_of result ≡ spec.words_bracket_move (keyword_of before) }
{
    match before {
        Keyword::Names(item) => bracket_behind(item),
        Keyword::Lists(_) => Move::Stuck,
        Keyword::Neither => Move::Stuck,
    }
}

pub fn more_words<'a>(last: Keyword, before: Keyword, x: Lexeme<'a>) -> Move
    ensures { move_of result ≡ spec.more_words_move (keyword_of last) (keyword_of before) (lexeme_of x.entry) }
{
    if is_block(x) {
        Move::Takes(Expansion::One(Awaited::Item(ItemPart::Items)))
    } else if is_name(x) {
        let words = WordPart::MoreWords(keyword(x), last);
        Move::Takes(Expansion::One(Awaited::Words(words)))
    } else if is_sign(Sign::Colon, x) {
        colon_behind_words(last, before)
    } else if is_sign(Sign::Open, x) {
        open_behind(last)
    } else if is_sign(Sign::OpenList, x) {
        bracket_behind_words(before)
    } else {
        single(is_word("end", x))
    }
}

/// The list or the item, whichever the token begins behind its colon.
fn one_of(list: ListItem, item: NamedItem, begins_item: bool) -> Move
    ensures { move_of result ≡ spec.one_of (list_of list) (named_of item) begins_item }
{
    if begins_item {
        Move::Becomes(Expansion::One(Awaited::Item(ItemPart::Body(item))))
    } else {
        Move::Becomes(Expansion::One(Awaited::List(ListPart::Listing(list))))
    }
}

fn list_or_lemma<'a>(list: ListItem, x: Lexeme<'a>) -> Move
    ensures { move_of result ≡ spec.list_or_lemma_move (list_of list) (lexeme_of x.entry) }
{
    if is_word("all", x) {
        Move::Takes(Expansion::One(Awaited::Words(WordPart::Joined(list, TraceKind::All))))
    } else if is_word("exists", x) {
        Move::Takes(Expansion::One(Awaited::Words(WordPart::Joined(list, TraceKind::Exists))))
    } else {
        one_of(list, NamedItem::Lemma, is_sign(Sign::Quote, x))
    }
}

pub fn either<'a>(list: ListItem, item: NamedItem, x: Lexeme<'a>) -> Move
    ensures { move_of result ≡ spec.either_move (list_of list) (named_of item) (lexeme_of x.entry) }
{
    match item {
        NamedItem::Rule => one_of(list, item, is_sign(Sign::OpenList, x) || is_word("let", x)),
        NamedItem::Restriction => one_of(list, item, is_sign(Sign::Quote, x)),
        NamedItem::Lemma => list_or_lemma(list, x),
    }
}

/// What stands behind a name with which a list begins.
fn behind_name(list: ListItem) -> Expansion
    ensures { all_of (expansion_of result) ≡ spec.behind_name (list_of list) }
{
    match list {
        ListItem::Builtins => Expansion::One(Awaited::List(ListPart::MoreBuiltins)),
        ListItem::Functions => Expansion::Four(
            Awaited::Token(OneToken::Exactly(Sign::Slash)),
            Awaited::Token(OneToken::Number),
            Awaited::List(ListPart::Attributes),
            Awaited::List(ListPart::MoreFunctions),
        ),
        ListItem::Equations => Expansion::Four(
            Awaited::Term(TermPart::Applied(0)),
            Awaited::Token(OneToken::Exactly(Sign::Equals)),
            Awaited::Term(TermPart::Term(0)),
            Awaited::List(ListPart::MoreEquations),
        ),
        ListItem::Heuristic => Expansion::One(Awaited::Words(WordPart::SecondWord)),
    }
}

/// A dash behind such a name: the name is the word of a kind, if no name of builtins goes on.
fn dash_behind(list: ListItem, kind: TraceKind) -> Move
    ensures { move_of result ≡ spec.dash_move (list_of list) (kind_of kind) }
{
    let lemma = Expansion::Four(
        Awaited::Token(OneToken::Traces(kind)),
        Awaited::Token(OneToken::Exactly(Sign::Quote)),
        Awaited::Formula(FormulaPart::Quoted),
        Awaited::Proof(ProofPart::Below),
    );
    match list {
        ListItem::Builtins => {
            Move::Takes(Expansion::One(Awaited::Words(WordPart::JoinedTraces(kind))))
        }
        ListItem::Functions => Move::Takes(lemma),
        ListItem::Equations => Move::Takes(lemma),
        ListItem::Heuristic => Move::Takes(lemma),
    }
}

pub fn joined<'a>(list: ListItem, kind: TraceKind, x: Lexeme<'a>) -> Move
    ensures { move_of result ≡ spec.joined_move (list_of list) (kind_of kind) (lexeme_of x.entry) }
{
    if is_sign(Sign::Dash, x) {
        dash_behind(list, kind)
    } else {
        Move::Becomes(behind_name(list))
    }
}

pub fn joined_traces<'a>(kind: TraceKind, x: Lexeme<'a>) -> Move
    ensures { move_of result ≡ spec.joined_traces_move (kind_of kind) (lexeme_of x.entry) }
{
    if is_traces(kind, x) {
        Move::Takes(Expansion::One(Awaited::Words(WordPart::JoinedQuote)))
    } else {
        Move::Becomes(Expansion::Two(
            Awaited::Token(OneToken::Name),
            Awaited::List(ListPart::MoreBuiltins),
        ))
    }
}

pub fn joined_quote<'a>(x: Lexeme<'a>) -> Move
    ensures { move_of result ≡ spec.joined_quote_move (lexeme_of x.entry) }
{
    if is_sign(Sign::Quote, x) {
        Move::Takes(Expansion::Two(
            Awaited::Formula(FormulaPart::Quoted),
            Awaited::Proof(ProofPart::Below),
        ))
    } else {
        Move::Becomes(Expansion::One(Awaited::List(ListPart::MoreBuiltins)))
    }
}
