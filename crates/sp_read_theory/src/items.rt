ghost use Rattle.std.specs.Prelude.{◌≡◌, ◌∷◌, [], ◌++◌, MatchOption, IfSome, IfOk, OnOk, ◌≤◌, ◌<◌, length, drop};
ghost use Rattle.sp_lex.specs.Views.{tokens_of};
ghost use Rattle.sp_read_lemmas.specs.Items.{ReadsItem};
ghost use Rattle.sp_read_theory.specs.Items.{NoItem, AreItemsToEnd, NoItems};
ghost use Rattle.sp_spec_text.specs.Spans.{AreSpans};
ghost use Rattle.sp_read_theory.specs.Views as view;
ghost use Rattle.sp_read_theory.specs.Views.{seen_from};

use crate::declarations::declaration;
use sp_lex::Token;
use sp_read_lemmas::lemmas::lemma;
use sp_read_parts::cursor::behind;
use sp_written::Item;
use std::alloc::{AllocError, Global};

/// Puts an item at the end.
#[tactic(auto, using(crate::proofs::Gone::spans_more))]
fn push_item<'a>(found: &mut Vec<Item<'a>>, next: Item<'a>) -> Result<(), AllocError>
    ensures value { OnOk result (view.items found.new.items ≡ view.items found.old.items ++ view.item next.entry ∷ []) }
    ensures places { OnOk result (view.spans found.new.items ≡ view.spans found.old.items ++ view.spans (next.entry ∷ [])) }
{
    found.push(next)?;
    Ok(())
}

/// A declaration, or a lemma with its proof, and the place behind it.
#[tactic(auto, using(crate::proofs::Gone::one_item))]
fn next_item<'a>(
    alloc: Global,
    tokens: &[Token<'a>],
    at: usize,
) -> Result<Option<(Item<'a>, usize)>, AllocError>
    ensures value { IfOk result (λ o. MatchOption o (NoItem (seen_from tokens.now at)) (λ x. ReadsItem (tokens_of (drop at tokens.now)) (view.item x.0) (view.spans (x.0 ∷ [])) (tokens_of (drop x.1 tokens.now)))) }
    ensures further { IfOk result (λ o. IfSome o (λ x. (at < x.1) × (x.1 ≤ length tokens.now))) }
{
    if let Some((found, rest)) = declaration(alloc, tokens, at)? {
        return Ok(Some((found, rest)));
    }
    let Some((found, rest)) = lemma(alloc, tokens, at)? else {
        return Ok(None);
    };
    Ok(Some((Item::Lemma(found), rest)))
}

/// The items up to the word `end`, with which the tokens end.
#[tactic(auto, using(crate::proofs::Gone::all_items))]
pub fn items<'a>(
    alloc: Global,
    tokens: &[Token<'a>],
    at: usize,
) -> Result<Option<Vec<Item<'a>>>, AllocError>
    ensures value { IfOk result (λ o. MatchOption o (NoItems (seen_from tokens.now at)) (λ x. AreItemsToEnd (seen_from tokens.now at) (view.items x.items))) }
    ensures places { IfOk result (λ o. IfSome o (λ x. AreSpans (tokens_of (drop at tokens.now)) (view.items x.items) (view.spans x.items))) }
{
    let mut found = Vec::new(alloc);
    let mut rest = at;
    loop {
        if let Some(last) = behind("end", tokens, rest) {
            if last < tokens.len() {
                return Ok(None);
            }
            return Ok(Some(found));
        }
        let Some((next, ahead)) = next_item(alloc, tokens, rest)? else {
            return Ok(None);
        };
        push_item(&mut found, next)?;
        rest = ahead;
    }
}
