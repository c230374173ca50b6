// What a token does to the parts of theories, of their items, and of proofs.
// Below stand sp_await (the parts, their table and the tests on tokens), sp_lex and sp_spec_text; above, sp_place.
// One function for each part, as in sp_await's specs/Table.antt.
// Carried here: that what each function answers is what the table says.
#![tactic(auto)]

mod items;
mod lists;
mod steps;
mod words;

ghost use Rattle.std.specs.Prelude.{◌≡◌};
ghost use Rattle.sp_lex.specs.Views.{lexeme_of};
ghost use Rattle.sp_await.specs.Table as spec;
ghost use Rattle.sp_await.specs.Views.{item_part_of, list_part_of, move_of, proof_part_of, word_part_of};

use sp_await::awaited::{ItemPart, ListPart, ProofPart, WordPart};
use sp_await::moves::Move;
use sp_lex::Lexeme;

/// What the token does to a part of a theory, or of an item with a name.
pub fn next_in_item<'a>(part: ItemPart, x: Lexeme<'a>) -> Move
    ensures { move_of result ≡ spec.next (item_part_of part) (lexeme_of x.entry) }
{
    match part {
        ItemPart::Theory => items::theory(x),
        ItemPart::Items => items::items(x),
        ItemPart::Item(first) => items::item(first, x),
        ItemPart::Headed(item) => items::headed(item, x),
        ItemPart::Body(item) => items::body(item),
        ItemPart::Balanced => items::balanced(x),
        ItemPart::Let => items::bindings(x),
        ItemPart::MoreBindings => items::more_bindings(x),
        ItemPart::LemmaAttribute => items::lemma_attribute(x),
        ItemPart::AttributeValue => items::attribute_value(x),
        ItemPart::MoreLemmaAttributes => items::more_lemma_attributes(x),
        ItemPart::FactList => items::fact_list(x),
        ItemPart::Facts(close) => items::facts(close, x),
        ItemPart::MoreFacts(close) => items::more_facts(close, x),
        ItemPart::Arrow => items::arrow(x),
        ItemPart::Kind => items::kind(x),
    }
}

/// What the token does to a part of an item that is a list.
pub fn next_in_list<'a>(part: ListPart, x: Lexeme<'a>) -> Move
    ensures { move_of result ≡ spec.next (list_part_of part) (lexeme_of x.entry) }
{
    match part {
        ListPart::Listing(list) => lists::listing(list),
        ListPart::MoreBuiltins => lists::more_builtins(x),
        ListPart::Function => lists::function(x),
        ListPart::Attributes => lists::attributes(x),
        ListPart::MoreAttributes => lists::more_attributes(x),
        ListPart::MoreFunctions => lists::more_functions(x),
        ListPart::MoreEquations => lists::more_equations(x),
    }
}

/// What the token does to a part of a heuristic.
pub fn next_in_words<'a>(part: WordPart, x: Lexeme<'a>) -> Move
    ensures { move_of result ≡ spec.next (word_part_of part) (lexeme_of x.entry) }
{
    match part {
        WordPart::SecondWord => words::second_word(x),
        WordPart::MoreWords(last, before) => words::more_words(last, before, x),
        WordPart::Either(list, item) => words::either(list, item, x),
        WordPart::Joined(list, kind) => words::joined(list, kind, x),
        WordPart::JoinedTraces(kind) => words::joined_traces(kind, x),
        WordPart::JoinedQuote => words::joined_quote(x),
    }
}

/// What the token does to a part of a proof.
pub fn next_in_proof<'a>(part: ProofPart, x: Lexeme<'a>) -> Move
    ensures { move_of result ≡ spec.next (proof_part_of part) (lexeme_of x.entry) }
{
    match part {
        ProofPart::Below => steps::below(x),
        ProofPart::BelowSolved => steps::below_solved(x),
        ProofPart::BelowBy => steps::below_by(x),
        ProofPart::BelowMethod => steps::below_method(x),
        ProofPart::Proof => steps::proof(x),
        ProofPart::Behind => steps::behind(x),
        ProofPart::Cases => steps::cases(x),
    }
}
