// What a token does to the parts of theories and of items with names.

ghost use Rattle.std.specs.Prelude.{◌≡◌, ◌∷◌, []};
ghost use Rattle.sp_lex.specs.Views.{lexeme_of, sign_of};
ghost use Rattle.sp_await.specs.Table as spec;
ghost use Rattle.sp_await.specs.Views.{all_of, awaited_of, expansion_of, keyword_of, kind_of, move_of, named_of};

use sp_await::awaited::{Awaited, FormulaPart, ItemPart, ListPart, OneToken, ProofPart, TermPart};
use sp_await::keywords::{Keyword, NamedItem, TraceKind};
use sp_await::lexemes::{has_value, is_block, is_mark, is_name, is_sign, is_word, keyword};
use sp_await::moves::{Expansion, Move, single};
use sp_lex::{Lexeme, Sign};

pub fn theory<'a>(x: Lexeme<'a>) -> Move
    ensures { move_of result ≡ spec.theory_move (lexeme_of x.entry) }
{
    if is_word("theory", x) {
        Move::Takes(Expansion::Three(
            Awaited::Token(OneToken::Name),
            Awaited::Token(OneToken::Begin),
            Awaited::Item(ItemPart::Items),
        ))
    } else {
        Move::Stuck
    }
}

pub fn items<'a>(x: Lexeme<'a>) -> Move
    ensures { move_of result ≡ spec.items_move (lexeme_of x.entry) }
{
    if is_name(x) {
        Move::Takes(Expansion::One(Awaited::Item(ItemPart::Item(keyword(x)))))
    } else {
        single(is_word("end", x))
    }
}

/// A name behind the first word of an item.
fn name_behind(first: Keyword) -> Move
    ensures { move_of result ≡ spec.name_move (keyword_of first) }
{
    match first {
        Keyword::Names(item) => {
            Move::Takes(Expansion::One(Awaited::Item(ItemPart::Headed(item))))
        }
        Keyword::Lists(_) => Move::Stuck,
        Keyword::Neither => Move::Stuck,
    }
}

/// A colon behind the first word of an item.
pub fn colon_behind(first: Keyword) -> Move
    ensures { move_of result ≡ spec.colon_move (keyword_of first) }
{
    match first {
        Keyword::Lists(list) => {
            Move::Takes(Expansion::One(Awaited::List(ListPart::Listing(list))))
        }
        Keyword::Names(_) => Move::Stuck,
        Keyword::Neither => Move::Stuck,
    }
}

/// `(` behind the first word of an item.
pub fn open_behind(first: Keyword) -> Move
    ensures { move_of result ≡ spec.open_move (keyword_of first) }
{
    match first {
        Keyword::Names(NamedItem::Rule) => Move::Takes(Expansion::Five(
            Awaited::Token(OneToken::Modulo),
            Awaited::Token(OneToken::Name),
            Awaited::Token(OneToken::Exactly(Sign::Close)),
            Awaited::Token(OneToken::Name),
            Awaited::Item(ItemPart::Headed(NamedItem::Rule)),
        )),
        Keyword::Names(NamedItem::Restriction) => Move::Stuck,
        Keyword::Names(NamedItem::Lemma) => Move::Stuck,
        Keyword::Lists(_) => Move::Stuck,
        Keyword::Neither => Move::Stuck,
    }
}

pub fn item<'a>(first: Keyword, x: Lexeme<'a>) -> Move
    ensures { move_of result ≡ spec.item_move (keyword_of first) (lexeme_of x.entry) }
{
    if is_block(x) {
        Move::Takes(Expansion::One(Awaited::Item(ItemPart::Items)))
    } else if is_name(x) {
        name_behind(first)
    } else if is_sign(Sign::Colon, x) {
        colon_behind(first)
    } else if is_sign(Sign::Open, x) {
        open_behind(first)
    } else {
        Move::Stuck
    }
}

/// `[` behind the name of an item.
pub fn bracket_behind(item: NamedItem) -> Move
    ensures { move_of result ≡ spec.bracket_move (named_of item) }
{
    match item {
        NamedItem::Rule => Move::Takes(Expansion::Three(
            Awaited::Item(ItemPart::Balanced),
            Awaited::Token(OneToken::Exactly(Sign::Colon)),
            Awaited::Item(ItemPart::Body(NamedItem::Rule)),
        )),
        NamedItem::Restriction => Move::Stuck,
        NamedItem::Lemma => Move::Takes(Expansion::Four(
            Awaited::Item(ItemPart::LemmaAttribute),
            Awaited::Item(ItemPart::MoreLemmaAttributes),
            Awaited::Token(OneToken::Exactly(Sign::Colon)),
            Awaited::Item(ItemPart::Body(NamedItem::Lemma)),
        )),
    }
}

pub fn headed<'a>(item: NamedItem, x: Lexeme<'a>) -> Move
    ensures { move_of result ≡ spec.headed_move (named_of item) (lexeme_of x.entry) }
{
    if is_sign(Sign::Colon, x) {
        Move::Takes(Expansion::One(Awaited::Item(ItemPart::Body(item))))
    } else if is_sign(Sign::OpenList, x) {
        bracket_behind(item)
    } else {
        Move::Stuck
    }
}

/// What stands behind the colon of an item with a name.
fn body_parts(item: NamedItem) -> Expansion
    ensures { all_of (expansion_of result) ≡ spec.body_parts (named_of item) }
{
    match item {
        NamedItem::Rule => Expansion::Five(
            Awaited::Item(ItemPart::Let),
            Awaited::Item(ItemPart::FactList),
            Awaited::Item(ItemPart::Arrow),
            Awaited::Item(ItemPart::FactList),
            Awaited::Item(ItemPart::Items),
        ),
        NamedItem::Restriction => Expansion::Three(
            Awaited::Token(OneToken::Exactly(Sign::Quote)),
            Awaited::Formula(FormulaPart::Quoted),
            Awaited::Item(ItemPart::Items),
        ),
        NamedItem::Lemma => Expansion::Three(
            Awaited::Item(ItemPart::Kind),
            Awaited::Formula(FormulaPart::Quoted),
            Awaited::Proof(ProofPart::Below),
        ),
    }
}

pub fn body(item: NamedItem) -> Move
    ensures { move_of result ≡ spec.becomes (spec.body_parts (named_of item)) }
{
    Move::Becomes(body_parts(item))
}

pub fn balanced<'a>(x: Lexeme<'a>) -> Move
    ensures { move_of result ≡ spec.balanced_move (lexeme_of x.entry) }
{
    if is_sign(Sign::CloseList, x) {
        Move::Takes(Expansion::Zero)
    } else if is_sign(Sign::OpenList, x) {
        Move::Takes(Expansion::Two(
            Awaited::Item(ItemPart::Balanced),
            Awaited::Item(ItemPart::Balanced),
        ))
    } else if is_word("end", x) {
        Move::Stuck
    } else {
        Move::Takes(Expansion::One(Awaited::Item(ItemPart::Balanced)))
    }
}

pub fn bindings<'a>(x: Lexeme<'a>) -> Move
    ensures { move_of result ≡ spec.let_move (lexeme_of x.entry) }
{
    if is_word("let", x) {
        Move::Takes(Expansion::Four(
            Awaited::Term(TermPart::Variable),
            Awaited::Token(OneToken::Exactly(Sign::Equals)),
            Awaited::Term(TermPart::Term(0)),
            Awaited::Item(ItemPart::MoreBindings),
        ))
    } else {
        Move::Becomes(Expansion::Zero)
    }
}

/// A binding from a token of its variable on.
fn binding(first: Awaited) -> Expansion
    ensures { all_of (expansion_of result) ≡ awaited_of first ∷ spec.binding_parts }
{
    Expansion::Four(
        first,
        Awaited::Token(OneToken::Exactly(Sign::Equals)),
        Awaited::Term(TermPart::Term(0)),
        Awaited::Item(ItemPart::MoreBindings),
    )
}

pub fn more_bindings<'a>(x: Lexeme<'a>) -> Move
    ensures { move_of result ≡ spec.more_bindings_move (lexeme_of x.entry) }
{
    if is_word("in", x) {
        Move::Takes(Expansion::Zero)
    } else if is_mark(x) {
        Move::Takes(binding(Awaited::Token(OneToken::Name)))
    } else if is_name(x) {
        Move::Takes(binding(Awaited::Term(TermPart::Sorted)))
    } else {
        Move::Stuck
    }
}

pub fn lemma_attribute<'a>(x: Lexeme<'a>) -> Move
    ensures { move_of result ≡ spec.lemma_attribute_move (lexeme_of x.entry) }
{
    if has_value(x) {
        Move::Takes(Expansion::One(Awaited::Item(ItemPart::AttributeValue)))
    } else {
        single(is_name(x))
    }
}

pub fn attribute_value<'a>(x: Lexeme<'a>) -> Move
    ensures { move_of result ≡ spec.attribute_value_move (lexeme_of x.entry) }
{
    if is_sign(Sign::Equals, x) {
        Move::Takes(Expansion::One(Awaited::Token(OneToken::Name)))
    } else {
        Move::Becomes(Expansion::Zero)
    }
}

pub fn more_lemma_attributes<'a>(x: Lexeme<'a>) -> Move
    ensures { move_of result ≡ spec.more_lemma_attributes_move (lexeme_of x.entry) }
{
    if is_sign(Sign::Comma, x) {
        Move::Takes(Expansion::Two(
            Awaited::Item(ItemPart::LemmaAttribute),
            Awaited::Item(ItemPart::MoreLemmaAttributes),
        ))
    } else {
        single(is_sign(Sign::CloseList, x))
    }
}

pub fn fact_list<'a>(x: Lexeme<'a>) -> Move
    ensures { move_of result ≡ spec.fact_list_move (lexeme_of x.entry) }
{
    if is_sign(Sign::OpenList, x) {
        Move::Takes(Expansion::One(Awaited::Item(ItemPart::Facts(Sign::CloseList))))
    } else {
        Move::Stuck
    }
}

pub fn facts<'a>(close: Sign, x: Lexeme<'a>) -> Move
    ensures { move_of result ≡ spec.facts_move (sign_of close) (lexeme_of x.entry) }
{
    if is_sign(close, x) {
        Move::Takes(Expansion::Zero)
    } else {
        Move::Becomes(Expansion::Two(
            Awaited::Term(TermPart::Fact(0)),
            Awaited::Item(ItemPart::MoreFacts(close)),
        ))
    }
}

pub fn more_facts<'a>(close: Sign, x: Lexeme<'a>) -> Move
    ensures { move_of result ≡ spec.more_facts_move (sign_of close) (lexeme_of x.entry) }
{
    if is_sign(Sign::Comma, x) {
        Move::Takes(Expansion::Two(
            Awaited::Term(TermPart::Fact(0)),
            Awaited::Item(ItemPart::MoreFacts(close)),
        ))
    } else {
        single(is_sign(close, x))
    }
}

pub fn arrow<'a>(x: Lexeme<'a>) -> Move
    ensures { move_of result ≡ spec.arrow_move (lexeme_of x.entry) }
{
    if is_sign(Sign::Arrow, x) {
        Move::Takes(Expansion::Zero)
    } else if is_sign(Sign::OpenArrow, x) {
        Move::Takes(Expansion::One(Awaited::Item(ItemPart::Facts(Sign::CloseArrow))))
    } else {
        Move::Stuck
    }
}

/// The dash behind the word of a kind, and what stands behind it up to the quote.
fn kind_parts(kind: TraceKind) -> Move
    ensures { move_of result ≡ spec.takes (spec.kind_parts (kind_of kind)) }
{
    Move::Takes(Expansion::Three(
        Awaited::Token(OneToken::Exactly(Sign::Dash)),
        Awaited::Token(OneToken::Traces(kind)),
        Awaited::Token(OneToken::Exactly(Sign::Quote)),
    ))
}

pub fn kind<'a>(x: Lexeme<'a>) -> Move
    ensures { move_of result ≡ spec.kind_move (lexeme_of x.entry) }
{
    if is_sign(Sign::Quote, x) {
        Move::Takes(Expansion::Zero)
    } else if is_word("all", x) {
        kind_parts(TraceKind::All)
    } else if is_word("exists", x) {
        kind_parts(TraceKind::Exists)
    } else {
        Move::Stuck
    }
}
