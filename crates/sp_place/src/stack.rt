// The parts that a text still has to have, and what a token does to them.

ghost use Rattle.std.specs.Prelude.{◌≡◌, ◌∷◌, ◌++◌, true, IfOk, OnOk, MatchOption, [], MatchBool};
ghost use Rattle.sp_await.specs.Parts as a;
ghost use Rattle.sp_await.specs.Stack.{Fits, Good};
ghost use Rattle.sp_await.specs.Table as spec;
ghost use Rattle.sp_await.specs.Views.{all_of, awaited_of, expansion_of, move_of, one_token_of, parts_of};
ghost use Rattle.sp_lex.specs.Views.{lexeme_of};
ghost use Rattle.sp_place.specs.Remaining.{read_as, remaining_of, stays_open as stays};
ghost use Rattle.sp_place.specs.Texts.{Follows, Refuses};

use sp_await::awaited::{Awaited, ItemPart, OneToken};
use sp_await::lexemes::{
    is_annotation, is_attribute, is_fact_name, is_name, is_numeral, is_sign, is_sort, is_step,
    is_traces, is_word,
};
use sp_await::moves::{Expansion, Move, single};
use sp_await_formula::{next_in_formula, next_in_term};
use sp_await_theory::{next_in_item, next_in_list, next_in_proof, next_in_words};
use sp_lex::Lexeme;
use sp_read_formula::quoted::{is_quote, plain};
use std::alloc::{AllocError, Global};

/// What the token does to a part that is one token.
fn next_token<'a>(part: OneToken, x: Lexeme<'a>) -> Move
    ensures { move_of result ≡ spec.next (one_token_of part) (lexeme_of x.entry) }
{
    match part {
        OneToken::Exactly(sign) => single(is_sign(sign, x)),
        OneToken::Name => single(is_name(x)),
        OneToken::Sort => single(is_sort(x)),
        OneToken::FactName => single(is_fact_name(x)),
        OneToken::Begin => single(is_word("begin", x)),
        OneToken::Modulo => single(is_word("modulo", x)),
        OneToken::Number => single(is_numeral(x)),
        OneToken::Attribute => single(is_attribute(x)),
        OneToken::Annotation => single(is_annotation(x)),
        OneToken::Traces(kind) => single(is_traces(kind, x)),
        OneToken::Case => single(is_word("case", x)),
        OneToken::Method => single(is_step(x)),
    }
}

/// What the token does to this part.
fn next<'a>(part: Awaited, x: Lexeme<'a>) -> Move
    requires { Fits (awaited_of part) true }
    ensures { move_of result ≡ spec.next (awaited_of part) (lexeme_of x.entry) }
{
    match part {
        Awaited::Token(part) => next_token(part, x),
        Awaited::Term(part) => next_in_term(part, x),
        Awaited::Formula(part) => next_in_formula(part, x),
        Awaited::Item(part) => next_in_item(part, x),
        Awaited::List(part) => next_in_list(part, x),
        Awaited::Words(part) => next_in_words(part, x),
        Awaited::Proof(part) => next_in_proof(part, x),
    }
}

/// Puts a part before the others.
fn push(parts: &mut Vec<Awaited>, part: Awaited) -> Result<(), AllocError>
    ensures { OnOk result (parts_of parts.new.items ≡ awaited_of part ∷ parts_of parts.old.items) }
{
    parts.push(part)?;
    Ok(())
}

/// Takes the first part.
fn pop(parts: &mut Vec<Awaited>) -> Option<Awaited>
    ensures { MatchOption result (parts_of parts.old.items ≡ []) (λ p. parts_of parts.old.items ≡ awaited_of p ∷ parts_of parts.new.items) }
{
    parts.pop()
}

fn push_two(parts: &mut Vec<Awaited>, p: Awaited, q: Awaited) -> Result<(), AllocError>
    ensures { OnOk result (parts_of parts.new.items ≡ awaited_of p ∷ awaited_of q ∷ parts_of parts.old.items) }
{
    push(parts, q)?;
    push(parts, p)
}

fn push_four(
    parts: &mut Vec<Awaited>,
    p: Awaited,
    q: Awaited,
    r: Awaited,
    s: Awaited,
) -> Result<(), AllocError>
    ensures { OnOk result (parts_of parts.new.items ≡ awaited_of p ∷ awaited_of q ∷ awaited_of r ∷ awaited_of s ∷ parts_of parts.old.items) }
{
    push_two(parts, r, s)?;
    push_two(parts, p, q)
}

/// Puts parts before the others.
fn put(parts: &mut Vec<Awaited>, expansion: Expansion) -> Result<(), AllocError>
    ensures { OnOk result (parts_of parts.new.items ≡ all_of (expansion_of expansion) ++ parts_of parts.old.items) }
{
    match expansion {
        Expansion::Zero => Ok(()),
        Expansion::One(p) => push(parts, p),
        Expansion::Two(p, q) => push_two(parts, p, q),
        Expansion::Three(p, q, r) => {
            push(parts, r)?;
            push_two(parts, p, q)
        }
        Expansion::Four(p, q, r, s) => push_four(parts, p, q, r, s),
        Expansion::Five(p, q, r, s, t) => {
            push(parts, t)?;
            push_four(parts, p, q, r, s)
        }
        Expansion::Six(p, q, r, s, t, u) => {
            push_two(parts, t, u)?;
            push_four(parts, p, q, r, s)
        }
    }
}

/// The token as it is read where a formula is open, or where none is.
fn read<'a>(in_formula: bool, x: Lexeme<'a>) -> Lexeme<'a>
    ensures { lexeme_of result ≡ read_as in_formula (lexeme_of x.entry) }
{
    if in_formula { plain(x) } else { x }
}

/// Whether a formula is open behind the token.
fn stays_open<'a>(in_formula: bool, x: Lexeme<'a>) -> bool
    ensures { result ≡ stays in_formula (lexeme_of x.entry) }
{
    in_formula && !is_quote(x)
}

/// Takes the token, where a formula is open or none is: what is left are the parts behind it. The answer says whether a formula is open
/// there; it is none where no text goes on with the token.
///
/// # Errors
///
/// There is no memory.
#[tactic(auto, using(crate::proofs::Taking::steps))]
pub fn advance<'a>(
    parts: &mut Vec<Awaited>,
    in_formula: bool,
    x: Lexeme<'a>,
) -> Result<Option<bool>, AllocError>
    requires { Good (parts_of parts.old.items) }
    ensures { IfOk result (λ o. MatchOption o (Refuses (remaining_of parts.old.items in_formula) (lexeme_of x.entry)) (λ b. Follows (remaining_of parts.old.items in_formula) (lexeme_of x.entry) (remaining_of parts.new.items b))) }
{
    let mut open = in_formula;
    loop {
        let Some(part) = pop(parts) else {
            return Ok(None);
        };
        match next(part, read(open, x)) {
            Move::Takes(expansion) => {
                put(parts, expansion)?;
                return Ok(Some(stays_open(open, x)));
            }
            Move::Becomes(expansion) => put(parts, expansion)?,
            Move::Opens(expansion) => {
                put(parts, expansion)?;
                open = true;
            }
            Move::Stuck => return Ok(None),
        }
    }
}

/// A theory, of which nothing is taken yet.
pub fn start(alloc: Global) -> Result<Vec<Awaited>, AllocError>
    ensures { IfOk result (λ parts. parts_of parts.items ≡ a.Theory ∷ []) }
{
    let mut parts = Vec::new(alloc);
    push(&mut parts, Awaited::Item(ItemPart::Theory))?;
    Ok(parts)
}

/// Whether no part is left.
#[tactic(auto, using(crate::proofs::Taking::none_reversed))]
pub fn is_empty(parts: &Vec<Awaited>) -> bool
    ensures { MatchBool result (parts_of parts.now.items ≡ []) (parts_of parts.now.items ≡ [] → ⊥) }
{
    parts.len() == 0
}
