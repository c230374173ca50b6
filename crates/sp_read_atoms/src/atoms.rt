ghost use Rattle.std.specs.Prelude.{◌≡◌, MatchOption, IfSome, IfOk, ◌≤◌, ◌<◌, length};
ghost use Rattle.sp_spec_text.specs.Lists.{NoReading};
ghost use Rattle.sp_spec_text.specs.Shapes.{action_of};
ghost use Rattle.sp_read_atoms.specs.Atoms.{IsEquality, IsOrder, IsAction, IsConstant, IsAtom};
ghost use Rattle.sp_read_parts.specs.Views as parts;
ghost use Rattle.sp_read_parts.specs.Views.{seen_from};
ghost use Rattle.sp_read_parts.specs.Formulas as view;

use sp_fact::fact::Action;
use sp_lex::{Sign, Token};
use sp_read_parts::cursor::{after, behind};
use sp_read_parts::facts::fact;
use sp_read_parts::terms::{LIMIT, term, variable};
use sp_read_parts::{ReadFormula, WrittenAction, WrittenFact};
use std::alloc::{AllocError, Global};

/// Two terms that are equal, and the place behind them.
#[tactic(auto, using(crate::proofs::Atomic::equalities))]
fn equality<'a>(
    alloc: Global,
    nesting: u32,
    tokens: &[Token<'a>],
    at: usize,
) -> Result<Option<(ReadFormula<'a>, usize)>, AllocError>
    requires { nesting ≤ LIMIT }
    ensures value { IfOk result (λ o. MatchOption o (NoReading (IsEquality nesting) (seen_from tokens.now at)) (λ x. IsEquality nesting (seen_from tokens.now at) (view.formula x.0) (seen_from tokens.now x.1))) }
    ensures further { IfOk result (λ o. IfSome o (λ x. (at < x.1) × (x.1 ≤ length tokens.now))) }
{
    let Some((left, sign)) = term(alloc, nesting, tokens, at)? else {
        return Ok(None);
    };
    let Some(behind) = after(Sign::Equals, tokens, sign) else {
        return Ok(None);
    };
    let Some((right, rest)) = term(alloc, nesting, tokens, behind)? else {
        return Ok(None);
    };
    Ok(Some((ReadFormula::Equals(left, right), rest)))
}

/// Two times in their order, and the place behind them.
#[tactic(auto, using(crate::proofs::Atomic::orders))]
fn order<'a>(tokens: &[Token<'a>], at: usize) -> Option<(ReadFormula<'a>, usize)>
    ensures value { MatchOption result (NoReading IsOrder (seen_from tokens.now at)) (λ x. IsOrder (seen_from tokens.now at) (view.formula x.0) (seen_from tokens.now x.1)) }
    ensures further { IfSome result (λ x. (at < x.1) × (x.1 ≤ length tokens.now)) }
{
    let (left, sign) = variable(tokens, at)?;
    let behind = after(Sign::Less, tokens, sign)?;
    let (right, rest) = variable(tokens, behind)?;
    Some((ReadFormula::Precedes(left, right), rest))
}

/// What a trace shows where the fact stands in a formula.
fn action_of<'a>(found: WrittenFact<'a>) -> WrittenAction<'a>
    ensures { parts.action_of result ≡ action_of (parts.fact_of found.entry) }
{
    Action {
        symbol: found.symbol,
        args: found.args,
    }
}

/// An action at a time, and the place behind it.
#[tactic(auto, using(crate::proofs::Atomic::actions))]
fn action<'a>(
    alloc: Global,
    nesting: u32,
    tokens: &[Token<'a>],
    at: usize,
) -> Result<Option<(ReadFormula<'a>, usize)>, AllocError>
    ensures value { IfOk result (λ o. MatchOption o (NoReading (IsAction nesting) (seen_from tokens.now at)) (λ x. IsAction nesting (seen_from tokens.now at) (view.formula x.0) (seen_from tokens.now x.1))) }
    ensures further { IfOk result (λ o. IfSome o (λ x. (at < x.1) × (x.1 ≤ length tokens.now))) }
{
    if nesting >= LIMIT {
        return Ok(None);
    }
    let Some((found, sign)) = fact(alloc, nesting, tokens, at)? else {
        return Ok(None);
    };
    let Some(time) = after(Sign::At, tokens, sign) else {
        return Ok(None);
    };
    let Some((moment, rest)) = variable(tokens, time) else {
        return Ok(None);
    };
    let shown = action_of(found);
    Ok(Some((ReadFormula::Happens(shown, moment), rest)))
}

/// `T` or `F`, and the place behind it.
#[tactic(auto, using(crate::proofs::Atomic::constants))]
fn constant<'a>(tokens: &[Token<'a>], at: usize) -> Option<(ReadFormula<'a>, usize)>
    ensures value { MatchOption result (NoReading IsConstant (seen_from tokens.now at)) (λ x. IsConstant (seen_from tokens.now at) (view.formula x.0) (seen_from tokens.now x.1)) }
    ensures further { IfSome result (λ x. (at < x.1) × (x.1 ≤ length tokens.now)) }
{
    if let Some(rest) = behind("T", tokens, at) {
        return Some((ReadFormula::True, rest));
    }
    let rest = behind("F", tokens, at)?;
    Some((ReadFormula::False, rest))
}

/// A formula without formulas in it, and the place behind it.
///
/// # Errors
///
/// There is no memory.
#[tactic(auto, using(crate::proofs::Atomic::atoms))]
pub fn atom<'a>(
    alloc: Global,
    nesting: u32,
    tokens: &[Token<'a>],
    at: usize,
) -> Result<Option<(ReadFormula<'a>, usize)>, AllocError>
    requires { nesting ≤ LIMIT }
    ensures value { IfOk result (λ o. MatchOption o (NoReading (IsAtom nesting) (seen_from tokens.now at)) (λ x. IsAtom nesting (seen_from tokens.now at) (view.formula x.0) (seen_from tokens.now x.1))) }
    ensures further { IfOk result (λ o. IfSome o (λ x. (at < x.1) × (x.1 ≤ length tokens.now))) }
{
    if let Some((found, rest)) = equality(alloc, nesting, tokens, at)? {
        return Ok(Some((found, rest)));
    }
    if let Some((found, rest)) = order(tokens, at) {
        return Ok(Some((found, rest)));
    }
    if let Some((found, rest)) = action(alloc, nesting, tokens, at)? {
        return Ok(Some((found, rest)));
    }
    match constant(tokens, at) {
        Some((found, rest)) => Ok(Some((found, rest))),
        None => Ok(None),
    }
}
