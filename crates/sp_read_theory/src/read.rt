ghost use Rattle.std.specs.Prelude.{◌≡◌, MatchOption, IfSome, IfOk, ◌≤◌, ◌<◌, length, drop};
ghost use Rattle.sp_spec_text.specs.Ends as places;
ghost use Rattle.sp_lex.specs.Views.{tokens_of};
ghost use Rattle.sp_spec_text.specs.Lists.{NoReading};
ghost use Rattle.sp_spec_text.specs.Theories.{SpellsTheory};
ghost use Rattle.sp_read_theory.specs.Items.{IsOpening, NoTheory};
ghost use Rattle.sp_spec_text.specs.Spans.{AreSpans, Rise};
ghost use Rattle.sp_spec_text.specs.Texts.{IsTextOf, IsNoText, ArePlaces};
ghost use Rattle.sp_read_theory.specs.Views as view;
ghost use Rattle.sp_read_theory.specs.Views.{seen, seen_from};

use crate::items::items;
use sp_lex::{LexError, Token, tokens};
use sp_read_parts::cursor::behind;
use sp_read_parts::terms::name;
use sp_written::ReadTheory;
use std::alloc::{AllocError, Global};

/// The name of a theory between `theory` and `begin`, and the place behind them.
#[tactic(auto, using(crate::proofs::Whole::openings))]
fn opening<'a>(tokens: &[Token<'a>], at: usize) -> Option<(&'a str, usize)>
    ensures value { MatchOption result (NoReading IsOpening (seen_from tokens.now at)) (λ x. IsOpening (seen_from tokens.now at) x.0.now (seen_from tokens.now x.1)) }
    ensures further { IfSome result (λ x. (at < x.1) × (x.1 ≤ length tokens.now)) }
{
    let named = behind("theory", tokens, at)?;
    let (found, begin) = name(tokens, named)?;
    let rest = behind("begin", tokens, begin)?;
    Some((found, rest))
}

/// The place behind the last token.
fn behind_all(tokens: &[Token]) -> usize
    ensures { result ≡ places.behind_all (tokens_of tokens.now) }
{
    let mut place = 0;
    for token in tokens {
        place = token.end;
    }
    place
}

/// The theory that these tokens spell.
#[tactic(auto, using(crate::proofs::Whole::wholes))]
fn read_tokens<'a>(
    alloc: Global,
    tokens: &[Token<'a>],
) -> Result<Option<ReadTheory<'a>>, AllocError>
    ensures value { IfOk result (λ o. MatchOption o (NoTheory (seen tokens.now)) (λ r. SpellsTheory (seen tokens.now) (view.theory r))) }
    ensures spans { IfOk result (λ o. IfSome o (λ r. AreSpans (drop 3 (tokens_of tokens.now)) (view.items r.items.items) (view.spans r.items.items))) }
    ensures last { IfOk result (λ o. IfSome o (λ r. r.behind_end ≡ places.behind_all (tokens_of tokens.now))) }
{
    let Some((name, body)) = opening(tokens, 0) else {
        return Ok(None);
    };
    let Some(items) = items(alloc, tokens, body)? else {
        return Ok(None);
    };
    Ok(Some(ReadTheory {
        name,
        items,
        behind_end: behind_all(tokens),
    }))
}

/// The theory that a text says, or none if it says none.
///
/// What follows the first word `end` is not looked at.
///
/// # Errors
///
/// There is no memory.
#[tactic(auto, using(crate::proofs::Whole::texts))]
pub fn read_theory<'a>(alloc: Global, text: &'a [u8]) -> Result<Option<ReadTheory<'a>>, AllocError>
    // What is read is written there, and where nothing is read nothing is written.
    ensures value { IfOk result (λ o. MatchOption o (IsNoText text.now) (λ r. IsTextOf text.now (view.theory r))) }
    ensures places { IfOk result (λ o. IfSome o (λ r. ArePlaces text.now (view.theory r) (view.spans r.items.items) r.behind_end)) }
    ensures ordered { IfOk result (λ o. IfSome o (λ r. Rise text.now 0 (view.spans r.items.items) r.behind_end × (r.behind_end ≤ length text.now))) }
{
    match tokens(alloc, text) {
        Ok(found) => {
            let Some(theory) = read_tokens(alloc, &found)? else {
                return Ok(None);
            };
            Ok(Some(theory))
        }
        Err(LexError::Memory) => Err(AllocError),
        Err(LexError::Fault(_)) => Ok(None),
    }
}
