// The heads of lemmas and of restrictions.

ghost use Rattle.std.specs.Prelude.{◌≡◌, [], ◌∷◌, ◌++◌, MatchOption, IfSome, IfOk, OnOk, ◌≤◌, ◌<◌, length, codes};
ghost use Rattle.sp_spec_text.specs.Signs as signs;
ghost use Rattle.sp_spec_text.specs.Lists.{NoReading, AreParts};
ghost use Rattle.sp_spec_text.specs.Attributes as words;
ghost use Rattle.sp_read_lemmas.specs.Lemmas.{IsValued, IsLoneName, IsLemmaAttribute, AreLemmaAttributes, IsLemmaHead, IsRestrictionHead};
ghost use Rattle.sp_read_lemmas.specs.Views as view;
ghost use Rattle.sp_read_lemmas.specs.Views.{seen_from};

use sp_lex::{Sign, Token};
use sp_read_parts::cursor::{after, behind, word};
use sp_read_parts::terms::name;
use sp_written::Attribute;
use std::alloc::{AllocError, Global};

/// The attribute that a word is by itself.
#[tactic(auto, unfolding(sp_spec_text::specs::Attributes::attribute_of))]
fn attribute_of<'a>(word: &'a str) -> Attribute<'a>
    ensures { view.attribute result ≡ words.attribute_of word.now }
{
    if word == "reuse" {
        Attribute::Reused
    } else if word == "sources" || word == "typing" {
        Attribute::OfSources
    } else if word == "use_induction" {
        Attribute::ByInduction
    } else {
        Attribute::Unknown(word)
    }
}

/// The name behind the keyword and `=`, if they stand first, and the place behind it.
#[tactic(auto, using(crate::proofs::LemmaHeads::values))]
fn valued<'a>(keyword: &str, tokens: &[Token<'a>], at: usize) -> Option<(&'a str, usize)>
    ensures value { MatchOption result (NoReading (IsValued keyword.now) (seen_from tokens.now at)) (λ x. IsValued keyword.now (seen_from tokens.now at) x.0.now (seen_from tokens.now x.1)) }
    ensures further { IfSome result (λ x. (at < x.1) × (x.1 ≤ length tokens.now)) }
{
    let sign = behind(keyword, tokens, at)?;
    let named = after(Sign::Equals, tokens, sign)?;
    let (found, rest) = name(tokens, named)?;
    Some((found, rest))
}

/// A name behind which no `=` stands, and the place behind it.
#[tactic(auto, using(crate::proofs::LemmaHeads::lone_names))]
fn lone_name<'a>(tokens: &[Token<'a>], at: usize) -> Option<(&'a str, usize)>
    ensures value { MatchOption result (NoReading IsLoneName (seen_from tokens.now at)) (λ x. IsLoneName (seen_from tokens.now at) x.0.now (seen_from tokens.now x.1)) }
    ensures further { IfSome result (λ x. (at < x.1) × (x.1 ≤ length tokens.now)) }
{
    let (found, rest) = name(tokens, at)?;
    match after(Sign::Equals, tokens, rest) {
        Some(_) => None,
        None => Some((found, rest)),
    }
}

/// An attribute of a lemma, and the place behind it.
#[tactic(auto, using(crate::proofs::LemmaHeads::an_attribute))]
fn attribute<'a>(tokens: &[Token<'a>], at: usize) -> Option<(Attribute<'a>, usize)>
    ensures value { MatchOption result (NoReading IsLemmaAttribute (seen_from tokens.now at)) (λ x. IsLemmaAttribute (seen_from tokens.now at) (view.attribute x.0) (seen_from tokens.now x.1)) }
    ensures further { IfSome result (λ x. (at < x.1) × (x.1 ≤ length tokens.now)) }
{
    if let Some((hidden, rest)) = valued("hide_lemma", tokens, at) {
        return Some((Attribute::Hiding(hidden), rest));
    }
    if let Some((ranking, rest)) = valued("heuristic", tokens, at) {
        return Some((Attribute::RankedBy(ranking), rest));
    }
    let (found, rest) = lone_name(tokens, at)?;
    Some((attribute_of(found), rest))
}

/// Puts an attribute at the end.
fn push_attribute<'a>(found: &mut Vec<Attribute<'a>>, next: Attribute<'a>) -> Result<(), AllocError>
    ensures { OnOk result (view.attributes found.new.items ≡ view.attributes found.old.items ++ view.attribute next.entry ∷ []) }
{
    found.push(next)?;
    Ok(())
}

/// Attributes with commas, up to the bracket that closes them, and the place behind it.
#[tactic(auto, using(sp_read_parts::proofs::Loops::loops))]
fn attributes<'a>(
    alloc: Global,
    tokens: &[Token<'a>],
    at: usize,
) -> Result<Option<(Vec<Attribute<'a>>, usize)>, AllocError>
    ensures value { IfOk result (λ o. MatchOption o (NoReading (AreParts IsLemmaAttribute signs.Comma signs.CloseList) (seen_from tokens.now at)) (λ x. AreParts IsLemmaAttribute signs.Comma signs.CloseList (seen_from tokens.now at) (view.attributes x.0.items) (seen_from tokens.now x.1))) }
    ensures further { IfOk result (λ o. IfSome o (λ x. (at < x.1) × (x.1 ≤ length tokens.now))) }
{
    let mut found = Vec::new(alloc);
    let mut rest = at;
    loop {
        let Some((next, ahead)) = attribute(tokens, rest) else {
            return Ok(None);
        };
        push_attribute(&mut found, next)?;
        if let Some(end) = after(Sign::CloseList, tokens, ahead) {
            return Ok(Some((found, end)));
        }
        match after(Sign::Comma, tokens, ahead) {
            Some(more) => rest = more,
            None => return Ok(None),
        }
    }
}

/// The attributes that may stand here in their brackets, and the place behind them.
#[tactic(auto, using(crate::proofs::LemmaHeads::attribute_lists))]
fn said_attributes<'a>(
    alloc: Global,
    tokens: &[Token<'a>],
    at: usize,
) -> Result<Option<(Vec<Attribute<'a>>, usize)>, AllocError>
    requires { at ≤ length tokens.now }
    ensures value { IfOk result (λ o. MatchOption o (NoReading AreLemmaAttributes (seen_from tokens.now at)) (λ x. AreLemmaAttributes (seen_from tokens.now at) (view.attributes x.0.items) (seen_from tokens.now x.1))) }
    ensures further { IfOk result (λ o. IfSome o (λ x. (at ≤ x.1) × (x.1 ≤ length tokens.now))) }
{
    let Some(inside) = after(Sign::OpenList, tokens, at) else {
        return Ok(Some((Vec::new(alloc), at)));
    };
    let Some((found, rest)) = attributes(alloc, tokens, inside)? else {
        return Ok(None);
    };
    Ok(Some((found, rest)))
}

/// The name of a lemma and its attributes, and the place behind the colon of its head.
#[tactic(auto, using(crate::proofs::LemmaHeads::lemma_heads))]
pub fn lemma_head<'a>(
    alloc: Global,
    tokens: &[Token<'a>],
    at: usize,
) -> Result<Option<(&'a str, Vec<Attribute<'a>>, usize)>, AllocError>
    ensures value { IfOk result (λ o. MatchOption o (NoReading IsLemmaHead (seen_from tokens.now at)) (λ x. IsLemmaHead (seen_from tokens.now at) (x.0.now, view.attributes x.1.items) (seen_from tokens.now x.2))) }
    ensures further { IfOk result (λ o. IfSome o (λ x. (at < x.2) × (x.2 ≤ length tokens.now))) }
{
    let Some(named) = behind("lemma", tokens, at) else {
        return Ok(None);
    };
    let Some((found, ahead)) = name(tokens, named) else {
        return Ok(None);
    };
    let Some((attributes, colon)) = said_attributes(alloc, tokens, ahead)? else {
        return Ok(None);
    };
    match after(Sign::Colon, tokens, colon) {
        Some(rest) => Ok(Some((found, attributes, rest))),
        None => Ok(None),
    }
}

/// Whether a restriction begins with the word.
#[tactic(auto, unfolding(sp_spec_text::specs::Attributes::is_restriction))]
fn is_restriction(word: &str) -> bool
    ensures { result ≡ words.is_restriction word.now }
{
    word == "restriction" || word == "axiom"
}

/// The name of a restriction, and the place behind the double quote that opens its formula.
#[tactic(auto, using(crate::proofs::LemmaHeads::restriction_heads))]
pub fn restriction_head<'a>(tokens: &[Token<'a>], at: usize) -> Option<(&'a str, usize)>
    ensures value { MatchOption result (NoReading IsRestrictionHead (seen_from tokens.now at)) (λ x. IsRestrictionHead (seen_from tokens.now at) x.0.now (seen_from tokens.now x.1)) }
    ensures further { IfSome result (λ x. (at < x.1) × (x.1 ≤ length tokens.now)) }
{
    let (keyword, named) = word(tokens, at)?;
    if !is_restriction(keyword) {
        return None;
    }
    let (found, colon) = name(tokens, named)?;
    let quote = after(Sign::Colon, tokens, colon)?;
    let rest = after(Sign::Quote, tokens, quote)?;
    Some((found, rest))
}
