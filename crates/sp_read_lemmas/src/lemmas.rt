// Lemmas with their proofs, and restrictions.

ghost use Rattle.std.specs.Prelude.{◌≡◌, [], ◌∷◌, MatchOption, IfSome, IfOk, OnOk, None, option_map, ◌≤◌, ◌<◌, ◌-◌, length, drop, map, codes};
ghost use Rattle.sp_lex.specs.Views.{tokens_of};
ghost use Rattle.sp_lex.specs.declared.token.Token as lexer;
ghost use Rattle.sp_spec_text.specs.Written.{lemma_item};
ghost use Rattle.sp_spec_text.specs.Lists.{NoReading};
ghost use Rattle.sp_spec_text.specs.Theories.{SpellsRestriction};
ghost use Rattle.sp_read_lemmas.specs.Lemmas.{Dashed, NotDashed, IsKind, IsClaim, IsLemma};
ghost use Rattle.sp_read_lemmas.specs.Items.{IsRestrictionItem, ReadsProofPart, ReadsItem};
ghost use Rattle.sp_spec_text.specs.Spans.{IsBehind};
ghost use Rattle.sp_read_lemmas.specs.Views as view;
ghost use Rattle.sp_read_lemmas.specs.Views.{seen_from};

use crate::attributes::{lemma_head, restriction_head};
use sp_lex::{Sign, Token};
use sp_read_formula::quoted::quoted_formula;
use sp_read_listings::blocks::text_block;
use sp_read_parts::ReadFormula;
use sp_read_parts::cursor::{after, behind};
use sp_read_proof::proof;
use sp_written::{
    Attribute, Item, Span, TraceKind, WrittenLemma, WrittenProof, WrittenRestriction,
};
use std::alloc::{AllocError, Global};

/// The place behind two words with a dash between them and a double quote, if they stand first.
#[tactic(auto, using(crate::proofs::LemmaParts::dashes))]
fn dashed<'a>(first: &str, second: &str, tokens: &[Token<'a>], at: usize) -> Option<usize>
    ensures value { MatchOption result (NotDashed first.now second.now (seen_from tokens.now at)) (λ rest. Dashed first.now second.now (seen_from tokens.now at) (seen_from tokens.now rest)) }
    ensures further { IfSome result (λ rest. (at < rest) × (rest ≤ length tokens.now)) }
{
    let dash = behind(first, tokens, at)?;
    let next = after(Sign::Dash, tokens, dash)?;
    let quote = behind(second, tokens, next)?;
    let rest = after(Sign::Quote, tokens, quote)?;
    Some(rest)
}

/// The kind of a lemma, and the place behind the double quote that opens its formula.
#[tactic(auto, using(crate::proofs::LemmaParts::kinds_of_lemmas))]
fn kind<'a>(tokens: &[Token<'a>], at: usize) -> Option<(TraceKind, usize)>
    ensures value { MatchOption result (NoReading IsKind (seen_from tokens.now at)) (λ x. IsKind (seen_from tokens.now at) (view.kind x.0) (seen_from tokens.now x.1)) }
    ensures further { IfSome result (λ x. (at < x.1) × (x.1 ≤ length tokens.now)) }
{
    if let Some(rest) = after(Sign::Quote, tokens, at) {
        return Some((TraceKind::AllTraces, rest));
    }
    if let Some(rest) = dashed("all", "traces", tokens, at) {
        return Some((TraceKind::AllTraces, rest));
    }
    let rest = dashed("exists", "trace", tokens, at)?;
    Some((TraceKind::ExistsTrace, rest))
}

/// The place in the text behind the token before this one.
fn place_before(tokens: &[Token], rest: usize) -> usize
    requires some { 0 < rest }
    requires inside { rest ≤ length tokens.now }
    ensures { map (λ (t : lexer.Token). t.end) (drop (rest - 1) tokens.now) ≡ result ∷ map (λ (t : lexer.Token). t.end) (drop rest tokens.now) }
{
    tokens[rest - 1].end
}

/// A lemma without its proof.
#[derive(Drop)]
struct Stated<'a> {
    name: &'a str,
    attributes: Vec<Attribute<'a>>,
    kind: TraceKind,
    formula: ReadFormula<'a>,
    /// The place in the text behind it, where its proof is to stand.
    place: usize,
}

/// The kind of a lemma and its formula in double quotes, and the place behind them.
#[tactic(auto, using(crate::proofs::LemmaParts::claims))]
fn claim<'a>(
    alloc: Global,
    tokens: &[Token<'a>],
    at: usize,
) -> Result<Option<(TraceKind, ReadFormula<'a>, usize)>, AllocError>
    ensures value { IfOk result (λ o. MatchOption o (NoReading IsClaim (seen_from tokens.now at)) (λ x. IsClaim (seen_from tokens.now at) (view.kind x.0, view.formula x.1) (seen_from tokens.now x.2))) }
    ensures further { IfOk result (λ o. IfSome o (λ x. (at < x.2) × (x.2 ≤ length tokens.now))) }
{
    let Some((kind, body)) = kind(tokens, at) else {
        return Ok(None);
    };
    let Some((formula, rest)) = quoted_formula(alloc, tokens, body)? else {
        return Ok(None);
    };
    Ok(Some((kind, formula, rest)))
}

/// A lemma without its proof, and the place behind it.
#[tactic(auto, using(crate::proofs::LemmaParts::whole_lemmas, crate::proofs::Suffix::is_behind))]
fn statement<'a>(
    alloc: Global,
    tokens: &[Token<'a>],
    at: usize,
) -> Result<Option<(Stated<'a>, usize)>, AllocError>
    ensures value { IfOk result (λ o. MatchOption o (NoReading IsLemma (seen_from tokens.now at)) (λ x. IsLemma (seen_from tokens.now at) (record { name = x.0.name.now; kind = view.kind x.0.kind; formula = view.formula x.0.formula }, view.attributes x.0.attributes.items) (seen_from tokens.now x.1))) }
    ensures further { IfOk result (λ o. IfSome o (λ x. (at < x.1) × (x.1 ≤ length tokens.now))) }
    ensures place { IfOk result (λ o. IfSome o (λ x. IsBehind (tokens_of (drop at tokens.now)) (tokens_of (drop x.1 tokens.now)) x.0.place)) }
{
    let Some((name, attributes, body)) = lemma_head(alloc, tokens, at)? else {
        return Ok(None);
    };
    let Some((kind, formula, rest)) = claim(alloc, tokens, body)? else {
        return Ok(None);
    };
    let place = place_before(tokens, rest);
    Ok(Some((
        Stated {
            name,
            attributes,
            kind,
            formula,
            place,
        },
        rest,
    )))
}

/// The proof of a lemma, if one begins here and no block of text does, with its span, and the place behind it.
#[tactic(auto, using(crate::proofs::LemmaParts::proof_parts, crate::proofs::Suffix::is_behind))]
fn proof_part<'a>(
    alloc: Global,
    tokens: &[Token<'a>],
    from: usize,
    at: usize,
) -> Result<(Option<WrittenProof<'a>>, Span, usize), AllocError>
    requires { at ≤ length tokens.now }
    ensures value { IfOk result (λ x. ReadsProofPart (tokens_of (drop at tokens.now)) (option_map view.proof x.0) (view.span_of x.1) (tokens_of (drop x.2 tokens.now))) }
    ensures from { IfOk result (λ x. x.1.from ≡ from) }
    ensures further { IfOk result (λ x. (at ≤ x.2) × (x.2 ≤ length tokens.now)) }
{
    if let Some(_) = text_block(tokens, at) {
        return Ok((None, Span { from, to: from }, at));
    }
    match proof(alloc, tokens, at)? {
        Some((found, rest)) => {
            let to = place_before(tokens, rest);
            Ok((Some(found), Span { from, to }, rest))
        }
        None => Ok((None, Span { from, to: from }, at)),
    }
}

/// A lemma with its proof, if one begins behind it, and the place behind both.
///
/// # Errors
///
/// There is no memory.
#[tactic(auto, using(crate::proofs::LemmaParts::proved_lemmas))]
pub fn lemma<'a>(
    alloc: Global,
    tokens: &[Token<'a>],
    at: usize,
) -> Result<Option<(WrittenLemma<'a>, usize)>, AllocError>
    ensures value { IfOk result (λ o. MatchOption o (NoReading IsLemma (seen_from tokens.now at)) (λ x. ReadsItem (tokens_of (drop at tokens.now)) (lemma_item (view.lemma x.0) (view.attributes x.0.attributes.items) (option_map view.proof x.0.proof)) (view.span_of x.0.span ∷ []) (tokens_of (drop x.1 tokens.now)))) }
    ensures further { IfOk result (λ o. IfSome o (λ x. (at < x.1) × (x.1 ≤ length tokens.now))) }
{
    let Some((stated, behind)) = statement(alloc, tokens, at)? else {
        return Ok(None);
    };
    let (proof, span, rest) = proof_part(alloc, tokens, stated.place, behind)?;
    Ok(Some((
        WrittenLemma {
            name: stated.name,
            attributes: stated.attributes,
            kind: stated.kind,
            formula: stated.formula,
            proof,
            span,
        },
        rest,
    )))
}

/// A restriction, and the place behind it.
#[tactic(auto, using(crate::proofs::LemmaParts::whole_restrictions))]
fn restriction<'a>(
    alloc: Global,
    tokens: &[Token<'a>],
    at: usize,
) -> Result<Option<(WrittenRestriction<'a>, usize)>, AllocError>
    ensures value { IfOk result (λ o. MatchOption o (NoReading SpellsRestriction (seen_from tokens.now at)) (λ x. SpellsRestriction (seen_from tokens.now at) (view.restriction x.0) (seen_from tokens.now x.1))) }
    ensures further { IfOk result (λ o. IfSome o (λ x. (at < x.1) × (x.1 ≤ length tokens.now))) }
{
    let Some((name, body)) = restriction_head(tokens, at) else {
        return Ok(None);
    };
    let Some((formula, rest)) = quoted_formula(alloc, tokens, body)? else {
        return Ok(None);
    };
    Ok(Some((WrittenRestriction { name, formula }, rest)))
}

/// The item of a restriction, and the place behind it.
///
/// # Errors
///
/// There is no memory.
#[tactic(auto, using(sp_read_listings::proofs::Making::items_made))]
pub fn restriction_item<'a>(
    alloc: Global,
    tokens: &[Token<'a>],
    at: usize,
) -> Result<Option<(Item<'a>, usize)>, AllocError>
    ensures value { IfOk result (λ o. MatchOption o (NoReading IsRestrictionItem (seen_from tokens.now at)) (λ x. IsRestrictionItem (seen_from tokens.now at) (view.item x.0) (seen_from tokens.now x.1))) }
    ensures spans { IfOk result (λ o. IfSome o (λ x. view.spans (x.0 ∷ []) ≡ [])) }
    ensures further { IfOk result (λ o. IfSome o (λ x. (at < x.1) × (x.1 ≤ length tokens.now))) }
{
    let Some((found, rest)) = restriction(alloc, tokens, at)? else {
        return Ok(None);
    };
    Ok(Some((Item::Restriction(found), rest)))
}
