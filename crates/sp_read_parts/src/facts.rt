ghost use Rattle.sp_lex.specs.Views.{sign_of};
ghost use Rattle.sp_spec_text.specs.Signs as signs;
ghost use Rattle.std.specs.Prelude.{◌≡◌, [], ◌∷◌, MatchOption, IfSome, IfOk, OnOk, ◌++◌, ◌≤◌, ◌<◌, length};
ghost use Rattle.sp_spec_text.specs.Lists.{NoReading, AreParts, AreItems};
ghost use Rattle.sp_spec_text.specs.Shapes.{fact};
ghost use Rattle.sp_read_parts.specs.Parts.{AreArguments, IsNamedFact, IsFact};
ghost use Rattle.sp_read_parts.specs.Views as view;
ghost use Rattle.sp_read_parts.specs.Views.{seen_from};

use crate::annotations::annotations;
use crate::cursor::{after, word};
use crate::terms::{LIMIT, term_list};
use crate::words::names_fact;
use crate::written::{WrittenFact, WrittenTerm};
use sp_fact::fact::Fact;
use sp_lex::{Sign, Token};
use sp_term::term::Name;
use std::alloc::{AllocError, Global};

/// The arguments of a fact in their brackets, and the place behind them.
#[tactic(auto, using(crate::proofs::Steps::argument_lists))]
pub fn arguments<'a>(
    alloc: Global,
    nesting: u32,
    tokens: &[Token<'a>],
    at: usize,
) -> Result<Option<(Vec<WrittenTerm<'a>>, usize)>, AllocError>
    requires { nesting < LIMIT }
    ensures value { IfOk result (λ o. MatchOption o (NoReading (AreArguments nesting) (seen_from tokens.now at)) (λ x. AreArguments nesting (seen_from tokens.now at) (view.terms x.0.items) (seen_from tokens.now x.1))) }
    ensures further { IfOk result (λ o. IfSome o (λ x. (at < x.1) × (x.1 ≤ length tokens.now))) }
{
    let Some(inside) = after(Sign::Open, tokens, at) else {
        return Ok(None);
    };
    let Some((found, rest)) = term_list(alloc, nesting + 1, tokens, inside)? else {
        return Ok(None);
    };
    Ok(Some((found, rest)))
}

/// The fact of this name over these arguments.
fn fact_over<'a>(
    alloc: Global,
    symbol: &str,
    persistent: bool,
    args: Vec<WrittenTerm<'a>>,
) -> Result<WrittenFact<'a>, AllocError>
    ensures { IfOk result (λ f. view.fact_of f ≡ fact symbol.now persistent (view.terms args.entry.items)) }
{
    let symbol = Name::new(alloc, symbol)?;
    Ok(Fact {
        symbol,
        persistent,
        args,
    })
}

/// A fact from its name on, and the place behind it and its annotations.
#[tactic(auto, using(crate::proofs::Steps::named_facts))]
pub fn named_fact<'a>(
    alloc: Global,
    persistent: bool,
    nesting: u32,
    tokens: &[Token<'a>],
    at: usize,
) -> Result<Option<(WrittenFact<'a>, usize)>, AllocError>
    requires { nesting < LIMIT }
    ensures value { IfOk result (λ o. MatchOption o (NoReading (IsNamedFact nesting persistent) (seen_from tokens.now at)) (λ x. IsNamedFact nesting persistent (seen_from tokens.now at) (view.fact_of x.0) (seen_from tokens.now x.1))) }
    ensures further { IfOk result (λ o. IfSome o (λ x. (at < x.1) × (x.1 ≤ length tokens.now))) }
{
    let Some((symbol, behind)) = word(tokens, at) else {
        return Ok(None);
    };
    if !names_fact(symbol) {
        return Ok(None);
    }
    let Some((args, ahead)) = arguments(alloc, nesting, tokens, behind)? else {
        return Ok(None);
    };
    let Some(rest) = annotations(tokens, ahead) else {
        return Ok(None);
    };
    let made = fact_over(alloc, symbol, persistent, args)?;
    Ok(Some((made, rest)))
}

/// A fact, and the place behind it.
#[tactic(auto, using(crate::proofs::Steps::facts_either_way))]
pub fn fact<'a>(
    alloc: Global,
    nesting: u32,
    tokens: &[Token<'a>],
    at: usize,
) -> Result<Option<(WrittenFact<'a>, usize)>, AllocError>
    requires { nesting < LIMIT }
    ensures value { IfOk result (λ o. MatchOption o (NoReading (IsFact nesting) (seen_from tokens.now at)) (λ x. IsFact nesting (seen_from tokens.now at) (view.fact_of x.0) (seen_from tokens.now x.1))) }
    ensures further { IfOk result (λ o. IfSome o (λ x. (at < x.1) × (x.1 ≤ length tokens.now))) }
{
    match after(Sign::Bang, tokens, at) {
        Some(behind) => named_fact(alloc, true, nesting, tokens, behind),
        None => named_fact(alloc, false, nesting, tokens, at),
    }
}

/// Puts a fact at the end.
fn push_fact<'a>(found: &mut Vec<WrittenFact<'a>>, next: WrittenFact<'a>) -> Result<(), AllocError>
    ensures { OnOk result (view.facts_of found.new.items ≡ view.facts_of found.old.items ++ view.fact_of next.entry ∷ []) }
{
    found.push(next)?;
    Ok(())
}

/// Facts with commas, up to the closing sign, and the place behind it.
#[tactic(auto, using(crate::proofs::Loops::loops))]
fn facts<'a>(
    alloc: Global,
    close: Sign,
    tokens: &[Token<'a>],
    at: usize,
) -> Result<Option<(Vec<WrittenFact<'a>>, usize)>, AllocError>
    requires { signs.Comma ≡ sign_of close → ⊥ }
    ensures value { IfOk result (λ o. MatchOption o (NoReading (AreParts (IsFact 0) signs.Comma (sign_of close)) (seen_from tokens.now at)) (λ x. AreParts (IsFact 0) signs.Comma (sign_of close) (seen_from tokens.now at) (view.facts_of x.0.items) (seen_from tokens.now x.1))) }
    ensures further { IfOk result (λ o. IfSome o (λ x. (at < x.1) × (x.1 ≤ length tokens.now))) }
{
    let mut found = Vec::new(alloc);
    let mut rest = at;
    loop {
        let Some((next, ahead)) = fact(alloc, 0, tokens, rest)? else {
            return Ok(None);
        };
        push_fact(&mut found, next)?;
        if let Some(end) = after(close, tokens, ahead) {
            return Ok(Some((found, end)));
        }
        match after(Sign::Comma, tokens, ahead) {
            Some(more) => rest = more,
            None => return Ok(None),
        }
    }
}

/// Facts with commas, or none, up to the closing sign, and the place behind it.
#[tactic(auto, using(crate::proofs::Loops::loops))]
pub fn fact_list<'a>(
    alloc: Global,
    close: Sign,
    tokens: &[Token<'a>],
    at: usize,
) -> Result<Option<(Vec<WrittenFact<'a>>, usize)>, AllocError>
    requires { signs.Comma ≡ sign_of close → ⊥ }
    ensures value { IfOk result (λ o. MatchOption o (NoReading (AreItems (IsFact 0) (sign_of close)) (seen_from tokens.now at)) (λ x. AreItems (IsFact 0) (sign_of close) (seen_from tokens.now at) (view.facts_of x.0.items) (seen_from tokens.now x.1))) }
    ensures further { IfOk result (λ o. IfSome o (λ x. (at < x.1) × (x.1 ≤ length tokens.now))) }
{
    match after(close, tokens, at) {
        Some(rest) => Ok(Some((Vec::new(alloc), rest))),
        None => facts(alloc, close, tokens, at),
    }
}
