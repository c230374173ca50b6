// What a theory lists behind a keyword and a colon: builtins, functions and equations, each a list with commas that nothing closes, and the words of a
// heuristic.

ghost use Rattle.std.specs.Prelude.{◌≡◌, ◌++◌, [], ◌∷◌, map, MatchOption, IfSome, IfOk, OnOk, ◌≤◌, ◌<◌, length};
ghost use Rattle.sp_spec_text.specs.Lists.{NoReading};
ghost use Rattle.sp_read_listings.specs.Listings.{IsBuiltin, IsFunction, IsEquation, AreAll, Headed, NotHeaded, IsBuiltins, AreFunctions, AreEquations, IsHeuristic, IsListing};
ghost use Rattle.sp_read_listings.specs.Views as view;
ghost use Rattle.sp_read_listings.specs.Views.{seen_from};

use crate::heuristic::words;
use crate::symbols::function;
use sp_fact::signature::Symbol;
use sp_lex::{Sign, Token};
use sp_read_parts::cursor::{after, behind};
use sp_read_parts::terms::{name, term};
use sp_term::term::Name;
use sp_written::{Item, WrittenEquation};
use std::alloc::{AllocError, Global};

/// The place behind a keyword and a colon, if they stand first.
#[tactic(auto, using(crate::proofs::ListingParts::heads))]
fn headed<'a>(keyword: &str, tokens: &[Token<'a>], at: usize) -> Option<usize>
    ensures value { MatchOption result (NotHeaded keyword.now (seen_from tokens.now at)) (λ rest. Headed keyword.now (seen_from tokens.now at) (seen_from tokens.now rest)) }
    ensures further { IfSome result (λ rest. (at < rest) × (rest ≤ length tokens.now)) }
{
    let colon = behind(keyword, tokens, at)?;
    let rest = after(Sign::Colon, tokens, colon)?;
    Some(rest)
}

/// The name of a builtin, names joined by dashes, and the place behind it.
#[tactic(auto, using(crate::proofs::Listed::joined_names))]
fn builtin<'a>(
    alloc: Global,
    tokens: &[Token<'a>],
    at: usize,
) -> Result<Option<(Name, usize)>, AllocError>
    ensures value { IfOk result (λ o. MatchOption o (NoReading IsBuiltin (seen_from tokens.now at)) (λ x. IsBuiltin (seen_from tokens.now at) (view.name_of x.0) (seen_from tokens.now x.1))) }
    ensures further { IfOk result (λ o. IfSome o (λ x. (at < x.1) × (x.1 ≤ length tokens.now))) }
{
    let mut text = String::new(alloc);
    let mut rest = at;
    loop {
        let Some((part, ahead)) = name(tokens, rest) else {
            return Ok(None);
        };
        text.push_str(part)?;
        match after(Sign::Dash, tokens, ahead) {
            Some(more) => {
                text.push_str("-")?;
                rest = more;
            }
            None => {
                let found = Name::new(alloc, text.as_str())?;
                return Ok(Some((found, ahead)));
            }
        }
    }
}

/// An equation, and the place behind it.
#[tactic(auto, using(crate::proofs::ListingParts::an_equation))]
fn equation<'a>(
    alloc: Global,
    tokens: &[Token<'a>],
    at: usize,
) -> Result<Option<(WrittenEquation<'a>, usize)>, AllocError>
    ensures value { IfOk result (λ o. MatchOption o (NoReading IsEquation (seen_from tokens.now at)) (λ x. IsEquation (seen_from tokens.now at) (view.equation x.0) (seen_from tokens.now x.1))) }
    ensures further { IfOk result (λ o. IfSome o (λ x. (at < x.1) × (x.1 ≤ length tokens.now))) }
{
    let Some((left, sign)) = term(alloc, 0, tokens, at)? else {
        return Ok(None);
    };
    let Some(behind) = after(Sign::Equals, tokens, sign) else {
        return Ok(None);
    };
    let Some((right, rest)) = term(alloc, 0, tokens, behind)? else {
        return Ok(None);
    };
    Ok(Some((WrittenEquation { left, right }, rest)))
}

/// Puts the name of a builtin at the end.
fn push_builtin(found: &mut Vec<Name>, next: Name) -> Result<(), AllocError>
    ensures { OnOk result (map view.name_of found.new.items ≡ map view.name_of found.old.items ++ view.name_of next ∷ []) }
{
    found.push(next)?;
    Ok(())
}

/// Puts a symbol at the end.
fn push_function(found: &mut Vec<Symbol>, next: Symbol) -> Result<(), AllocError>
    ensures { OnOk result (map view.symbol_of found.new.items ≡ map view.symbol_of found.old.items ++ view.symbol_of next ∷ []) }
{
    found.push(next)?;
    Ok(())
}

/// Puts an equation at the end.
fn push_equation<'a>(
    found: &mut Vec<WrittenEquation<'a>>,
    next: WrittenEquation<'a>,
) -> Result<(), AllocError>
    ensures { OnOk result (map view.equation found.new.items ≡ map view.equation found.old.items ++ view.equation next.entry ∷ []) }
{
    found.push(next)?;
    Ok(())
}

/// The names of builtins, with commas, and the place behind the last.
#[tactic(auto, using(crate::proofs::Listed::lists))]
fn builtins<'a>(
    alloc: Global,
    tokens: &[Token<'a>],
    at: usize,
) -> Result<Option<(Vec<Name>, usize)>, AllocError>
    ensures value { IfOk result (λ o. MatchOption o (NoReading (AreAll IsBuiltin) (seen_from tokens.now at)) (λ x. AreAll IsBuiltin (seen_from tokens.now at) (map view.name_of x.0.items) (seen_from tokens.now x.1))) }
    ensures further { IfOk result (λ o. IfSome o (λ x. (at < x.1) × (x.1 ≤ length tokens.now))) }
{
    let mut found = Vec::new(alloc);
    let mut rest = at;
    loop {
        let Some((next, ahead)) = builtin(alloc, tokens, rest)? else {
            return Ok(None);
        };
        push_builtin(&mut found, next)?;
        match after(Sign::Comma, tokens, ahead) {
            Some(more) => rest = more,
            None => return Ok(Some((found, ahead))),
        }
    }
}

/// Symbols, with commas, and the place behind the last.
#[tactic(auto, using(crate::proofs::Listed::lists))]
fn functions<'a>(
    alloc: Global,
    tokens: &[Token<'a>],
    at: usize,
) -> Result<Option<(Vec<Symbol>, usize)>, AllocError>
    ensures value { IfOk result (λ o. MatchOption o (NoReading (AreAll IsFunction) (seen_from tokens.now at)) (λ x. AreAll IsFunction (seen_from tokens.now at) (map view.symbol_of x.0.items) (seen_from tokens.now x.1))) }
    ensures further { IfOk result (λ o. IfSome o (λ x. (at < x.1) × (x.1 ≤ length tokens.now))) }
{
    let mut found = Vec::new(alloc);
    let mut rest = at;
    loop {
        let Some((next, ahead)) = function(alloc, tokens, rest)? else {
            return Ok(None);
        };
        push_function(&mut found, next)?;
        match after(Sign::Comma, tokens, ahead) {
            Some(more) => rest = more,
            None => return Ok(Some((found, ahead))),
        }
    }
}

/// Equations, with commas, and the place behind the last.
#[tactic(auto, using(crate::proofs::Listed::lists))]
fn equations<'a>(
    alloc: Global,
    tokens: &[Token<'a>],
    at: usize,
) -> Result<Option<(Vec<WrittenEquation<'a>>, usize)>, AllocError>
    ensures value { IfOk result (λ o. MatchOption o (NoReading (AreAll IsEquation) (seen_from tokens.now at)) (λ x. AreAll IsEquation (seen_from tokens.now at) (map view.equation x.0.items) (seen_from tokens.now x.1))) }
    ensures further { IfOk result (λ o. IfSome o (λ x. (at < x.1) × (x.1 ≤ length tokens.now))) }
{
    let mut found = Vec::new(alloc);
    let mut rest = at;
    loop {
        let Some((next, ahead)) = equation(alloc, tokens, rest)? else {
            return Ok(None);
        };
        push_equation(&mut found, next)?;
        match after(Sign::Comma, tokens, ahead) {
            Some(more) => rest = more,
            None => return Ok(Some((found, ahead))),
        }
    }
}

/// The item of builtins behind the keyword and a colon, and the place behind it.
#[tactic(auto, using(crate::proofs::Making::items_made))]
fn builtins_item<'a>(
    alloc: Global,
    tokens: &[Token<'a>],
    at: usize,
) -> Result<Option<(Item<'a>, usize)>, AllocError>
    ensures value { IfOk result (λ o. MatchOption o (NoReading IsBuiltins (seen_from tokens.now at)) (λ x. IsBuiltins (seen_from tokens.now at) (view.item x.0) (seen_from tokens.now x.1))) }
    ensures spans { IfOk result (λ o. IfSome o (λ x. view.spans (x.0 ∷ []) ≡ [])) }
    ensures further { IfOk result (λ o. IfSome o (λ x. (at < x.1) × (x.1 ≤ length tokens.now))) }
{
    let Some(inside) = headed("builtins", tokens, at) else {
        return Ok(None);
    };
    let Some((found, rest)) = builtins(alloc, tokens, inside)? else {
        return Ok(None);
    };
    Ok(Some((Item::Builtins(found), rest)))
}

/// The item of functions behind the keyword and a colon, and the place behind it.
#[tactic(auto, using(crate::proofs::Making::items_made))]
fn functions_item<'a>(
    alloc: Global,
    tokens: &[Token<'a>],
    at: usize,
) -> Result<Option<(Item<'a>, usize)>, AllocError>
    ensures value { IfOk result (λ o. MatchOption o (NoReading AreFunctions (seen_from tokens.now at)) (λ x. AreFunctions (seen_from tokens.now at) (view.item x.0) (seen_from tokens.now x.1))) }
    ensures spans { IfOk result (λ o. IfSome o (λ x. view.spans (x.0 ∷ []) ≡ [])) }
    ensures further { IfOk result (λ o. IfSome o (λ x. (at < x.1) × (x.1 ≤ length tokens.now))) }
{
    let Some(inside) = headed("functions", tokens, at) else {
        return Ok(None);
    };
    let Some((found, rest)) = functions(alloc, tokens, inside)? else {
        return Ok(None);
    };
    Ok(Some((Item::Functions(found), rest)))
}

/// The item of equations behind the keyword and a colon, and the place behind it.
#[tactic(auto, using(crate::proofs::Making::items_made))]
fn equations_item<'a>(
    alloc: Global,
    tokens: &[Token<'a>],
    at: usize,
) -> Result<Option<(Item<'a>, usize)>, AllocError>
    ensures value { IfOk result (λ o. MatchOption o (NoReading AreEquations (seen_from tokens.now at)) (λ x. AreEquations (seen_from tokens.now at) (view.item x.0) (seen_from tokens.now x.1))) }
    ensures spans { IfOk result (λ o. IfSome o (λ x. view.spans (x.0 ∷ []) ≡ [])) }
    ensures further { IfOk result (λ o. IfSome o (λ x. (at < x.1) × (x.1 ≤ length tokens.now))) }
{
    let Some(inside) = headed("equations", tokens, at) else {
        return Ok(None);
    };
    let Some((found, rest)) = equations(alloc, tokens, inside)? else {
        return Ok(None);
    };
    Ok(Some((Item::Equations(found), rest)))
}

/// The item of a heuristic behind the keyword and a colon, and the place behind it.
#[tactic(auto, using(crate::proofs::Making::items_made))]
fn heuristic_item<'a>(
    alloc: Global,
    tokens: &[Token<'a>],
    at: usize,
) -> Result<Option<(Item<'a>, usize)>, AllocError>
    ensures value { IfOk result (λ o. MatchOption o (NoReading IsHeuristic (seen_from tokens.now at)) (λ x. IsHeuristic (seen_from tokens.now at) (view.item x.0) (seen_from tokens.now x.1))) }
    ensures spans { IfOk result (λ o. IfSome o (λ x. view.spans (x.0 ∷ []) ≡ [])) }
    ensures further { IfOk result (λ o. IfSome o (λ x. (at < x.1) × (x.1 ≤ length tokens.now))) }
{
    let Some(inside) = headed("heuristic", tokens, at) else {
        return Ok(None);
    };
    let Some((found, rest)) = words(alloc, tokens, inside)? else {
        return Ok(None);
    };
    Ok(Some((Item::Heuristic(found), rest)))
}

/// What a keyword and a colon stand before, and the place behind it.
#[tactic(auto, using(crate::proofs::Making::alternatives))]
pub fn listing<'a>(
    alloc: Global,
    tokens: &[Token<'a>],
    at: usize,
) -> Result<Option<(Item<'a>, usize)>, AllocError>
    ensures value { IfOk result (λ o. MatchOption o (NoReading IsListing (seen_from tokens.now at)) (λ x. IsListing (seen_from tokens.now at) (view.item x.0) (seen_from tokens.now x.1))) }
    ensures spans { IfOk result (λ o. IfSome o (λ x. view.spans (x.0 ∷ []) ≡ [])) }
    ensures further { IfOk result (λ o. IfSome o (λ x. (at < x.1) × (x.1 ≤ length tokens.now))) }
{
    if let Some((found, rest)) = builtins_item(alloc, tokens, at)? {
        return Ok(Some((found, rest)));
    }
    if let Some((found, rest)) = functions_item(alloc, tokens, at)? {
        return Ok(Some((found, rest)));
    }
    if let Some((found, rest)) = equations_item(alloc, tokens, at)? {
        return Ok(Some((found, rest)));
    }
    match heuristic_item(alloc, tokens, at)? {
        Some((found, rest)) => Ok(Some((found, rest))),
        None => Ok(None),
    }
}
