// The words of a heuristic, which end where the next item begins.

ghost use Rattle.std.specs.Prelude.{◌≡◌, [], ◌∷◌, ◌++◌, map, MatchOption, IfSome, IfOk, OnOk, ◌≤◌, ◌<◌, length};
ghost use Rattle.sp_spec_text.specs.Lists.{NoReading};
ghost use Rattle.sp_read_listings.specs.Heuristics as spec;
ghost use Rattle.sp_read_listings.specs.Heuristics.{AreWords};
ghost use Rattle.sp_read_listings.specs.Views.{seen_from};

use crate::blocks::block;
use sp_lex::{Sign, Token};
use sp_read_parts::cursor::{after, behind, word};
use sp_read_parts::terms::name;
use std::alloc::{AllocError, Global};

/// Whether a dash, a word and a double quote stand first.
#[tactic(auto, using(crate::proofs::Beginnings::dashes))]
fn is_dashed(tokens: &[Token], at: usize) -> bool
    ensures { result ≡ spec.is_dashed (seen_from tokens.now at) }
{
    let Some(next) = after(Sign::Dash, tokens, at) else {
        return false;
    };
    let Some((_, quote)) = word(tokens, next) else {
        return false;
    };
    match after(Sign::Quote, tokens, quote) {
        Some(_) => true,
        None => false,
    }
}

/// Whether the body of a rule, a restriction or a lemma begins here.
#[tactic(auto, using(crate::proofs::Beginnings::bodies))]
fn is_body(tokens: &[Token], at: usize) -> bool
    ensures { result ≡ spec.is_body (seen_from tokens.now at) }
{
    if let Some(_) = after(Sign::OpenList, tokens, at) {
        return true;
    }
    if let Some(_) = after(Sign::Quote, tokens, at) {
        return true;
    }
    if let Some(_) = behind("let", tokens, at) {
        return true;
    }
    let Some((_, rest)) = word(tokens, at) else {
        return false;
    };
    is_dashed(tokens, rest)
}

/// Whether what stands behind the name of a rule, a restriction or a lemma stands here.
#[tactic(auto, using(crate::proofs::Beginnings::behind_names))]
fn is_behind_name(tokens: &[Token], at: usize) -> bool
    ensures { result ≡ spec.is_behind_name (seen_from tokens.now at) }
{
    if let Some(_) = after(Sign::OpenList, tokens, at) {
        return true;
    }
    let Some(body) = after(Sign::Colon, tokens, at) else {
        return false;
    };
    is_body(tokens, body)
}

/// Whether what stands behind the first word of an item stands here.
#[tactic(auto, using(crate::proofs::Beginnings::first_words))]
fn is_behind_word(tokens: &[Token], at: usize) -> bool
    ensures { result ≡ spec.is_behind_word (seen_from tokens.now at) }
{
    if let Some(_) = block(tokens, at) {
        return true;
    }
    if let Some(_) = after(Sign::Open, tokens, at) {
        return true;
    }
    if let Some(body) = after(Sign::Colon, tokens, at) {
        return !is_body(tokens, body);
    }
    let Some((_, rest)) = word(tokens, at) else {
        return false;
    };
    is_behind_name(tokens, rest)
}

/// Whether an item begins here, or the word `end` stands here.
#[tactic(auto, using(crate::proofs::Beginnings::items))]
fn begins_item(tokens: &[Token], at: usize) -> bool
    ensures { result ≡ spec.begins_item (seen_from tokens.now at) }
{
    if let Some(_) = behind("end", tokens, at) {
        return true;
    }
    let Some((_, rest)) = word(tokens, at) else {
        return false;
    };
    is_behind_word(tokens, rest)
}

/// Puts a word at the end.
fn push_word<'a>(found: &mut Vec<&'a str>, next: &'a str) -> Result<(), AllocError>
    ensures { OnOk result (map (λ w. w.now) found.new.items ≡ map (λ w. w.now) found.old.items ++ next.now ∷ []) }
{
    found.push(next)?;
    Ok(())
}

/// The words of a heuristic, and the place behind the last.
#[tactic(auto, using(crate::proofs::Words::words))]
pub fn words<'a>(
    alloc: Global,
    tokens: &[Token<'a>],
    at: usize,
) -> Result<Option<(Vec<&'a str>, usize)>, AllocError>
    ensures value { IfOk result (λ o. MatchOption o (NoReading AreWords (seen_from tokens.now at)) (λ x. AreWords (seen_from tokens.now at) (map (λ w. w.now) x.0.items) (seen_from tokens.now x.1))) }
    ensures further { IfOk result (λ o. IfSome o (λ x. (at < x.1) × (x.1 ≤ length tokens.now))) }
{
    let mut found = Vec::new(alloc);
    let mut rest = at;
    loop {
        let Some((next, ahead)) = name(tokens, rest) else {
            return Ok(None);
        };
        push_word(&mut found, next)?;
        if begins_item(tokens, ahead) {
            return Ok(Some((found, ahead)));
        }
        rest = ahead;
    }
}
