// What a theory declares: listings, blocks of text, rules and restrictions.

ghost use Rattle.std.specs.Prelude.{◌≡◌, [], ◌∷◌, MatchOption, IfSome, IfOk, ◌≤◌, ◌<◌, length};
ghost use Rattle.sp_spec_text.specs.Lists.{NoReading};
ghost use Rattle.sp_read_lemmas.specs.Items.{IsBlockItem, IsRuleItem, IsStatement, IsDeclaration};
ghost use Rattle.sp_read_theory.specs.Views as view;
ghost use Rattle.sp_read_theory.specs.Views.{seen_from};

use sp_lex::Token;
use sp_read_lemmas::lemmas::restriction_item;
use sp_read_listings::blocks::text_block;
use sp_read_listings::listings::listing;
use sp_read_rules::rules::rule;
use sp_written::Item;
use std::alloc::{AllocError, Global};

/// The item of a block of text, and the place behind it.
#[tactic(auto, using(sp_read_listings::proofs::Making::items_made))]
fn block_item<'a>(tokens: &[Token<'a>], at: usize) -> Option<(Item<'a>, usize)>
    ensures value { MatchOption result (NoReading IsBlockItem (seen_from tokens.now at)) (λ x. IsBlockItem (seen_from tokens.now at) (view.item x.0) (seen_from tokens.now x.1)) }
    ensures spans { IfSome result (λ x. view.spans (x.0 ∷ []) ≡ []) }
    ensures further { IfSome result (λ x. (at < x.1) × (x.1 ≤ length tokens.now)) }
{
    let (found, rest) = text_block(tokens, at)?;
    Some((Item::Block(found), rest))
}

/// The item of a rule, and the place behind it.
#[tactic(auto, using(sp_read_listings::proofs::Making::items_made, crate::proofs::Declared::rule_made))]
fn rule_item<'a>(
    alloc: Global,
    tokens: &[Token<'a>],
    at: usize,
) -> Result<Option<(Item<'a>, usize)>, AllocError>
    ensures value { IfOk result (λ o. MatchOption o (NoReading IsRuleItem (seen_from tokens.now at)) (λ x. IsRuleItem (seen_from tokens.now at) (view.item x.0) (seen_from tokens.now x.1))) }
    ensures spans { IfOk result (λ o. IfSome o (λ x. view.spans (x.0 ∷ []) ≡ [])) }
    ensures further { IfOk result (λ o. IfSome o (λ x. (at < x.1) × (x.1 ≤ length tokens.now))) }
{
    let Some((found, rest)) = rule(alloc, tokens, at)? else {
        return Ok(None);
    };
    Ok(Some((Item::Rule(found), rest)))
}

/// A block of text, a rule or a restriction, and the place behind it.
#[tactic(auto, using(sp_read_listings::proofs::Making::alternatives))]
fn plain_statement<'a>(
    alloc: Global,
    tokens: &[Token<'a>],
    at: usize,
) -> Result<Option<(Item<'a>, usize)>, AllocError>
    ensures value { IfOk result (λ o. MatchOption o (NoReading IsStatement (seen_from tokens.now at)) (λ x. IsStatement (seen_from tokens.now at) (view.item x.0) (seen_from tokens.now x.1))) }
    ensures spans { IfOk result (λ o. IfSome o (λ x. view.spans (x.0 ∷ []) ≡ [])) }
    ensures further { IfOk result (λ o. IfSome o (λ x. (at < x.1) × (x.1 ≤ length tokens.now))) }
{
    if let Some((found, rest)) = block_item(tokens, at) {
        return Ok(Some((found, rest)));
    }
    if let Some((found, rest)) = rule_item(alloc, tokens, at)? {
        return Ok(Some((found, rest)));
    }
    match restriction_item(alloc, tokens, at)? {
        Some((found, rest)) => Ok(Some((found, rest))),
        None => Ok(None),
    }
}

/// What a theory declares here, but for lemmas, and the place behind it.
#[tactic(auto, using(sp_read_listings::proofs::Making::alternatives))]
pub fn declaration<'a>(
    alloc: Global,
    tokens: &[Token<'a>],
    at: usize,
) -> Result<Option<(Item<'a>, usize)>, AllocError>
    ensures value { IfOk result (λ o. MatchOption o (NoReading IsDeclaration (seen_from tokens.now at)) (λ x. IsDeclaration (seen_from tokens.now at) (view.item x.0) (seen_from tokens.now x.1))) }
    // It has no proof.
    ensures spans { IfOk result (λ o. IfSome o (λ x. view.spans (x.0 ∷ []) ≡ [])) }
    ensures further { IfOk result (λ o. IfSome o (λ x. (at < x.1) × (x.1 ≤ length tokens.now))) }
{
    if let Some((found, rest)) = listing(alloc, tokens, at)? {
        return Ok(Some((found, rest)));
    }
    match plain_statement(alloc, tokens, at)? {
        Some((found, rest)) => Ok(Some((found, rest))),
        None => Ok(None),
    }
}
