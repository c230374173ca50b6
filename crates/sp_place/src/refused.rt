// The place where a text is refused.

ghost use Rattle.std.specs.Prelude.{◌≡◌, [], ◌∷◌, ◌<◌, ◌≤◌, drop, length, IfOk, MatchOption, IfSome};
ghost use Rattle.sp_lex.specs.Views.{token_of, tokens_of};
ghost use Rattle.sp_spec_text.specs.Written.{WrittenText};
ghost use Rattle.sp_spec_text.specs.Texts.{IsTextOf};
ghost use Rattle.sp_place.specs.Refused.{IsRefusedAt};
ghost use Rattle.sp_place.specs.Runs.{RunsTo};

use crate::stack::{advance, is_empty, start};
use sp_lex::{Token, scan};
use std::alloc::{AllocError, Global};

/// How far the tokens of a text go.
#[derive(Clone, Copy)]
pub enum Run {
    /// Up to a token at this place, which no text of the grammar has there.
    Wrong(usize),
    /// They begin a theory, and are none.
    Left,
    /// They are a theory.
    Whole,
}

/// The first token from this place on, and the place behind it.
fn first<'a>(tokens: &[Token<'a>], at: usize) -> Option<(Token<'a>, usize)>
    ensures value { MatchOption result (tokens_of (drop at tokens.now) ≡ []) (λ x. tokens_of (drop at tokens.now) ≡ token_of x.0 ∷ tokens_of (drop x.1 tokens.now)) }
    ensures further { IfSome result (λ x. (at < x.1) × (x.1 ≤ length tokens.now)) }
{
    if at < tokens.len() {
        Some((tokens[at], at + 1))
    } else {
        None
    }
}

/// How far these tokens go.
#[tactic(auto, using(crate::proofs::Runs::runs))]
fn follow<'a>(alloc: Global, tokens: &[Token<'a>]) -> Result<Run, AllocError>
    ensures { IfOk result (RunsTo (tokens_of tokens.now)) }
{
    let mut parts = start(alloc)?;
    let mut in_formula = false;
    let mut at = 0;
    while let Some((token, next)) = first(tokens, at) {
        let Some(open) = advance(&mut parts, in_formula, token.lexeme)? else {
            return Ok(Run::Wrong(token.start));
        };
        in_formula = open;
        at = next;
    }
    let none_left = is_empty(&parts);
    if none_left {
        return Ok(Run::Whole);
    }
    Ok(Run::Left)
}

/// Where a text that says no theory is refused: at its first token that no text of the grammar has behind the tokens before it, or else at
/// its first lexical fault, or at its end. None where the text says a theory.
///
/// # Errors
///
/// There is no memory.
#[tactic(auto, using(crate::proofs::Places::places))]
pub fn refused_at(alloc: Global, text: &[u8]) -> Result<Option<usize>, AllocError>
    ensures { IfOk result (λ o. MatchOption o ((theory : WrittenText) × IsTextOf text.now theory) (λ place. IsRefusedAt text.now place)) }
{
    let scanned = scan(alloc, text)?;
    let run = follow(alloc, &scanned.tokens)?;
    match run {
        Run::Wrong(place) => Ok(Some(place)),
        Run::Left => match scanned.fault {
            Some(fault) => Ok(Some(fault.place)),
            None => Ok(Some(text.len())),
        },
        Run::Whole => match scanned.fault {
            Some(fault) => Ok(Some(fault.place)),
            None => Ok(None),
        },
    }
}
