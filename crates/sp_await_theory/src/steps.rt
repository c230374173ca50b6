// What a token does to the parts of proofs.

ghost use Rattle.std.specs.Prelude.{◌≡◌};
ghost use Rattle.sp_lex.specs.Views.{lexeme_of};
ghost use Rattle.sp_await.specs.Parts as spec_part;
ghost use Rattle.sp_await.specs.Table as spec;
ghost use Rattle.sp_await.specs.Views.{all_of, expansion_of, move_of};

use sp_await::awaited::{Awaited, ItemPart, OneToken, ProofPart};
use sp_await::lexemes::{is_block, is_method_word, is_step, is_word};
use sp_await::moves::{Expansion, Move};
use sp_lex::Lexeme;

pub fn below<'a>(x: Lexeme<'a>) -> Move
    ensures { move_of result ≡ spec.below_move (lexeme_of x.entry) }
{
    if is_word("SOLVED", x) {
        Move::Takes(Expansion::One(Awaited::Proof(ProofPart::BelowSolved)))
    } else if is_word("by", x) {
        Move::Takes(Expansion::One(Awaited::Proof(ProofPart::BelowBy)))
    } else if is_method_word(x) {
        Move::Takes(Expansion::One(Awaited::Proof(ProofPart::BelowMethod)))
    } else if is_step(x) {
        Move::Takes(Expansion::Two(
            Awaited::Proof(ProofPart::Behind),
            Awaited::Item(ItemPart::Items),
        ))
    } else {
        Move::Becomes(Expansion::One(Awaited::Item(ItemPart::Items)))
    }
}

/// A block of text, or these parts.
fn or_block<'a>(parts: Expansion, x: Lexeme<'a>) -> Move
    ensures { move_of result ≡ spec.or_block (all_of (expansion_of parts)) (lexeme_of x.entry) }
{
    if is_block(x) {
        Move::Takes(Expansion::One(Awaited::Item(ItemPart::Items)))
    } else {
        Move::Becomes(parts)
    }
}

pub fn below_solved<'a>(x: Lexeme<'a>) -> Move
    ensures { move_of result ≡ spec.next spec_part.BelowSolved (lexeme_of x.entry) }
{
    or_block(Expansion::One(Awaited::Item(ItemPart::Items)), x)
}

pub fn below_by<'a>(x: Lexeme<'a>) -> Move
    ensures { move_of result ≡ spec.next spec_part.BelowBy (lexeme_of x.entry) }
{
    let parts = Expansion::Two(
        Awaited::Token(OneToken::Method),
        Awaited::Item(ItemPart::Items),
    );
    or_block(parts, x)
}

pub fn below_method<'a>(x: Lexeme<'a>) -> Move
    ensures { move_of result ≡ spec.next spec_part.BelowMethod (lexeme_of x.entry) }
{
    let parts = Expansion::Two(
        Awaited::Proof(ProofPart::Behind),
        Awaited::Item(ItemPart::Items),
    );
    or_block(parts, x)
}

pub fn proof<'a>(x: Lexeme<'a>) -> Move
    ensures { move_of result ≡ spec.proof_move (lexeme_of x.entry) }
{
    if is_word("SOLVED", x) {
        Move::Takes(Expansion::Zero)
    } else if is_word("by", x) {
        Move::Takes(Expansion::One(Awaited::Token(OneToken::Method)))
    } else if is_step(x) {
        Move::Takes(Expansion::One(Awaited::Proof(ProofPart::Behind)))
    } else {
        Move::Stuck
    }
}

pub fn behind<'a>(x: Lexeme<'a>) -> Move
    ensures { move_of result ≡ spec.behind_move (lexeme_of x.entry) }
{
    if is_word("case", x) {
        Move::Takes(Expansion::Three(
            Awaited::Token(OneToken::Name),
            Awaited::Proof(ProofPart::Proof),
            Awaited::Proof(ProofPart::Cases),
        ))
    } else {
        Move::Becomes(Expansion::One(Awaited::Proof(ProofPart::Proof)))
    }
}

pub fn cases<'a>(x: Lexeme<'a>) -> Move
    ensures { move_of result ≡ spec.cases_move (lexeme_of x.entry) }
{
    if is_word("qed", x) {
        Move::Takes(Expansion::Zero)
    } else if is_word("next", x) {
        Move::Takes(Expansion::Four(
            Awaited::Token(OneToken::Case),
            Awaited::Token(OneToken::Name),
            Awaited::Proof(ProofPart::Proof),
            Awaited::Proof(ProofPart::Cases),
        ))
    } else {
        Move::Stuck
    }
}
