ghost use Rattle.sp_lex.specs.Views.{sign_of};
ghost use Rattle.std.specs.Prelude.{◌≡◌, [], ◌∷◌, ◌++◌, MatchOption, IfSome, IfOk, OnOk, map, ◌+◌, ◌≤◌, ◌<◌, length};
ghost use Rattle.sp_spec.specs.Formula.{not_so, implies};
ghost use Rattle.sp_spec_text.specs.Lists.{NoReading};
ghost use Rattle.sp_spec_text.specs.Formulas.{equivalent};
ghost use Rattle.sp_read_atoms.specs.Atoms.{IsAtom};
ghost use Rattle.sp_read_formula.specs.Reading.{IsQuantifier, bind, a_group, a_unit, a_chain, an_implication, a_whole, below};
ghost use Rattle.sp_read_parts.specs.Formulas.{disjoint};
ghost use Rattle.sp_read_formula.specs.Reading.{sign_of as between};
ghost use Rattle.sp_read_formula.specs.Closed.{Closes, IsClosed};
ghost use Rattle.sp_read_parts.specs.Views as parts;
ghost use Rattle.sp_read_parts.specs.Views.{seen_from};
ghost use Rattle.sp_read_parts.specs.Formulas as view;
ghost use Rattle.sp_read_formula.specs.Given as given;

use sp_lex::{Sign, Token};
use sp_read_atoms::atoms::atom;
use sp_read_parts::binders::binders;
use sp_read_parts::cursor::{after, behind};
use sp_read_parts::terms::LIMIT;
use sp_read_parts::{ReadFormula, WrittenVariable};
use std::alloc::{AllocError, Global};

/// Whether a quantifier is `All`, and the place behind it.
#[tactic(auto, using(crate::proofs::OneFormula::quantifiers))]
fn quantifier<'a>(tokens: &[Token<'a>], at: usize) -> Option<(bool, usize)>
    ensures value { MatchOption result (NoReading IsQuantifier (seen_from tokens.now at)) (λ x. IsQuantifier (seen_from tokens.now at) x.0 (seen_from tokens.now x.1)) }
    ensures further { IfSome result (λ x. (at < x.1) × (x.1 ≤ length tokens.now)) }
{
    if let Some(rest) = behind("All", tokens, at) {
        return Some((true, rest));
    }
    let rest = behind("Ex", tokens, at)?;
    Some((false, rest))
}

/// A formula in a box.
fn boxed<'a>(alloc: Global, found: ReadFormula<'a>) -> Result<Box<ReadFormula<'a>>, AllocError>
    ensures { IfOk result (λ f. view.formula f.value ≡ view.formula found.entry) }
{
    let made = Box::new(alloc, found)?;
    Ok(made)
}

/// The formula behind its binders.
fn bound<'a>(
    alloc: Global,
    every: bool,
    binders: Vec<WrittenVariable<'a>>,
    found: Box<ReadFormula<'a>>,
) -> Result<Box<ReadFormula<'a>>, AllocError>
    ensures { IfOk result (λ f. view.formula f.value ≡ bind every (map parts.variable binders.entry.items) (view.formula found.entry.value)) }
{
    if every {
        boxed(alloc, ReadFormula::ForAll(binders, found))
    } else {
        boxed(alloc, ReadFormula::ForSome(binders, found))
    }
}

/// What is not so.
fn negated<'a>(
    alloc: Global,
    found: Box<ReadFormula<'a>>,
) -> Result<Box<ReadFormula<'a>>, AllocError>
    ensures { IfOk result (λ f. view.formula f.value ≡ not_so (view.formula found.entry.value)) }
{
    boxed(alloc, ReadFormula::Not(found))
}

/// The first implies the second.
fn implied<'a>(
    alloc: Global,
    left: Box<ReadFormula<'a>>,
    right: Box<ReadFormula<'a>>,
) -> Result<Box<ReadFormula<'a>>, AllocError>
    ensures { IfOk result (λ f. view.formula f.value ≡ implies (view.formula left.entry.value) (view.formula right.entry.value)) }
{
    boxed(alloc, ReadFormula::Implies(left, right))
}

/// Each implies the other.
fn equivalent<'a>(
    alloc: Global,
    left: Box<ReadFormula<'a>>,
    right: Box<ReadFormula<'a>>,
) -> Result<Box<ReadFormula<'a>>, AllocError>
    ensures { IfOk result (λ f. view.formula f.value ≡ equivalent (view.formula left.entry.value) (view.formula right.entry.value)) }
{
    boxed(alloc, ReadFormula::Equivalent(left, right))
}

/// What joins formulas, grouped to the left.
#[derive(Clone, Copy)]
enum Joint {
    /// All of them.
    And,
    /// One of them.
    Or,
}

/// The sign between two parts.
fn sign_between(joint: Joint) -> Sign
    ensures { sign_of result ≡ between (given.joint joint) }
{
    match joint {
        Joint::And => Sign::And,
        Joint::Or => Sign::Or,
    }
}

/// Puts a formula at the end.
fn push_part<'a>(
    found: &mut Vec<ReadFormula<'a>>,
    next: Box<ReadFormula<'a>>,
) -> Result<(), AllocError>
    ensures { OnOk result (map view.formula found.new.items ≡ map view.formula found.old.items ++ view.formula next.entry.value ∷ []) }
{
    found.push(Box::into_inner(next))?;
    Ok(())
}

/// Takes the first formula, into a box.
#[tactic(auto, using(sp_read_parts::proofs::Chains::first_taken))]
fn first_of<'a>(
    alloc: Global,
    formulas: &mut Vec<ReadFormula<'a>>,
) -> Result<Box<ReadFormula<'a>>, AllocError>
    requires { 0 < length formulas.old.items }
    ensures value { IfOk result (λ f. map view.formula formulas.old.items ≡ view.formula f.value ∷ map view.formula formulas.new.items) }
    ensures rest { OnOk result (length formulas.new.items + 1 ≡ length formulas.old.items) }
{
    boxed(alloc, formulas.remove(0))
}

/// These formulas joined, two or more.
fn several<'a>(
    alloc: Global,
    joint: Joint,
    mut formulas: Vec<ReadFormula<'a>>,
) -> Result<Box<ReadFormula<'a>>, AllocError>
    requires { 1 < length formulas.items }
    ensures { IfOk result (λ f. view.formula f.value ≡ view.linked (given.joint joint) (map view.formula formulas.entry.items)) }
{
    let first = first_of(alloc, &mut formulas)?;
    let second = first_of(alloc, &mut formulas)?;
    match joint {
        Joint::And => boxed(alloc, ReadFormula::Both(first, second, formulas)),
        Joint::Or => boxed(alloc, ReadFormula::Either(first, second, formulas)),
    }
}

/// The parts before the last one and the last one, joined.
fn joined<'a>(
    alloc: Global,
    joint: Joint,
    mut formulas: Vec<ReadFormula<'a>>,
    last: Box<ReadFormula<'a>>,
) -> Result<Box<ReadFormula<'a>>, AllocError>
    ensures { IfOk result (λ f. view.formula f.value ≡ view.linked (given.joint joint) (map view.formula formulas.entry.items ++ view.formula last.entry.value ∷ [])) }
{
    if formulas.is_empty() {
        return Ok(last);
    }
    push_part(&mut formulas, last)?;
    several(alloc, joint, formulas)
}

/// A formula without formulas in it, in a box, and the place behind it.
fn boxed_atom<'a>(
    alloc: Global,
    nesting: u32,
    tokens: &[Token<'a>],
    at: usize,
) -> Result<Option<(Box<ReadFormula<'a>>, usize)>, AllocError>
    requires { nesting ≤ LIMIT }
    ensures value { IfOk result (λ o. MatchOption o (NoReading (IsAtom nesting) (seen_from tokens.now at)) (λ x. IsAtom nesting (seen_from tokens.now at) (view.formula x.0.value) (seen_from tokens.now x.1))) }
    ensures further { IfOk result (given.IsFurther tokens.now at) }
{
    let Some((found, rest)) = atom(alloc, nesting, tokens, at)? else {
        return Ok(None);
    };
    let made = boxed(alloc, found)?;
    Ok(Some((made, rest)))
}

/// A formula in brackets, and the place behind them.
#[cycle(formulas)]
#[tactic(auto, using(crate::proofs::Stuck::groups))]
fn group<'a>(
    alloc: Global,
    nesting: u32,
    tokens: &[Token<'a>],
    at: usize,
) -> Result<Option<(Box<ReadFormula<'a>>, usize)>, AllocError>
    requires { nesting ≤ LIMIT }
    ensures value { IfOk result (given.IsRead a_group nesting tokens.now at) }
    ensures further { IfOk result (given.IsFurther tokens.now at) }
{
    if nesting >= LIMIT {
        return Ok(None);
    }
    let Some(inside) = after(Sign::Open, tokens, at) else {
        return Ok(None);
    };
    let Some((found, ahead)) = whole(alloc, nesting + 1, tokens, inside)? else {
        return Ok(None);
    };
    let Some(rest) = after(Sign::Close, tokens, ahead) else {
        return Ok(None);
    };
    Ok(Some((found, rest)))
}

/// A formula that no sign joins to another: an atom, one in brackets or a quantified one, and the place behind it.
#[cycle(formulas)]
#[tactic(auto, using(crate::proofs::Stuck::units))]
fn unit<'a>(
    alloc: Global,
    nesting: u32,
    tokens: &[Token<'a>],
    at: usize,
) -> Result<Option<(Box<ReadFormula<'a>>, usize)>, AllocError>
    requires { nesting ≤ LIMIT }
    ensures value { IfOk result (given.IsRead a_unit nesting tokens.now at) }
    ensures further { IfOk result (given.IsFurther tokens.now at) }
{
    if let Some((found, rest)) = boxed_atom(alloc, nesting, tokens, at)? {
        return Ok(Some((found, rest)));
    }
    if let Some((found, rest)) = group(alloc, nesting, tokens, at)? {
        return Ok(Some((found, rest)));
    }
    if nesting >= LIMIT {
        return Ok(None);
    }
    let Some((every, inner)) = quantifier(tokens, at) else {
        return Ok(None);
    };
    let Some((variables, body)) = binders(alloc, tokens, inner)? else {
        return Ok(None);
    };
    let Some((found, rest)) = whole(alloc, nesting + 1, tokens, body)? else {
        return Ok(None);
    };
    let made = bound(alloc, every, variables, found)?;
    Ok(Some((made, rest)))
}

/// What a chain of this kind is made of: units, behind `not` or without it, or conjunctions; and the place behind it.
#[cycle(formulas)]
#[tactic(auto, using(crate::proofs::Stuck::negations))]
fn part<'a>(
    alloc: Global,
    joint: Joint,
    nesting: u32,
    tokens: &[Token<'a>],
    at: usize,
) -> Result<Option<(Box<ReadFormula<'a>>, usize)>, AllocError>
    requires { nesting ≤ LIMIT }
    ensures value { IfOk result (given.IsRead (below (given.joint joint)) nesting tokens.now at) }
    ensures further { IfOk result (given.IsFurther tokens.now at) }
{
    match joint {
        Joint::And => {
            let Some(denied) = behind("not", tokens, at) else {
                return unit(alloc, nesting, tokens, at);
            };
            let Some((found, rest)) = unit(alloc, nesting, tokens, denied)? else {
                return Ok(None);
            };
            let made = negated(alloc, found)?;
            Ok(Some((made, rest)))
        }
        Joint::Or => chain(alloc, Joint::And, nesting, tokens, at),
    }
}

/// Parts joined by `&` or by `|`, and the place behind them.
#[cycle(formulas)]
#[tactic(auto, using(crate::proofs::Stuck::chains))]
fn chain<'a>(
    alloc: Global,
    joint: Joint,
    nesting: u32,
    tokens: &[Token<'a>],
    at: usize,
) -> Result<Option<(Box<ReadFormula<'a>>, usize)>, AllocError>
    requires { nesting ≤ LIMIT }
    ensures value { IfOk result (given.IsRead (a_chain (given.joint joint)) nesting tokens.now at) }
    ensures further { IfOk result (given.IsFurther tokens.now at) }
{
    let mut found = Vec::new(alloc);
    let mut rest = at;
    loop {
        let Some((next, ahead)) = part(alloc, joint, nesting, tokens, rest)? else {
            return Ok(None);
        };
        let Some(more) = after(sign_between(joint), tokens, ahead) else {
            let made = joined(alloc, joint, found, next)?;
            return Ok(Some((made, ahead)));
        };
        push_part(&mut found, next)?;
        rest = more;
    }
}

/// A disjunction, or one that implies what follows, and the place behind it.
#[cycle(formulas)]
#[tactic(auto, using(crate::proofs::Stuck::implications))]
fn implication<'a>(
    alloc: Global,
    nesting: u32,
    tokens: &[Token<'a>],
    at: usize,
) -> Result<Option<(Box<ReadFormula<'a>>, usize)>, AllocError>
    requires { nesting ≤ LIMIT }
    ensures value { IfOk result (given.IsRead an_implication nesting tokens.now at) }
    ensures further { IfOk result (given.IsFurther tokens.now at) }
{
    let Some((left, ahead)) = chain(alloc, Joint::Or, nesting, tokens, at)? else {
        return Ok(None);
    };
    let Some(behind) = after(Sign::Implies, tokens, ahead) else {
        return Ok(Some((left, ahead)));
    };
    if nesting >= LIMIT {
        return Ok(None);
    }
    let Some((right, rest)) = implication(alloc, nesting + 1, tokens, behind)? else {
        return Ok(None);
    };
    let made = implied(alloc, left, right)?;
    Ok(Some((made, rest)))
}

/// A formula as far as it reaches, and the place behind it.
#[cycle(formulas)]
#[tactic(auto, using(crate::proofs::Stuck::wholes))]
pub(crate) fn whole<'a>(
    alloc: Global,
    nesting: u32,
    tokens: &[Token<'a>],
    at: usize,
) -> Result<Option<(Box<ReadFormula<'a>>, usize)>, AllocError>
    requires { nesting ≤ LIMIT }
    ensures value { IfOk result (given.IsRead a_whole nesting tokens.now at) }
    ensures further { IfOk result (given.IsFurther tokens.now at) }
{
    let Some((left, ahead)) = implication(alloc, nesting, tokens, at)? else {
        return Ok(None);
    };
    let Some(behind) = after(Sign::Iff, tokens, ahead) else {
        return Ok(Some((left, ahead)));
    };
    let Some((right, rest)) = implication(alloc, nesting, tokens, behind)? else {
        return Ok(None);
    };
    let made = equivalent(alloc, left, right)?;
    Ok(Some((made, rest)))
}

/// A formula and the closing sign behind it, `)` or a double quote, and the place behind both.
///
/// # Errors
///
/// There is no memory.
#[tactic(auto, using(crate::proofs::Taken::closed_formulas))]
pub fn formula<'a>(
    alloc: Global,
    close: Sign,
    nesting: u32,
    tokens: &[Token<'a>],
    at: usize,
) -> Result<Option<(ReadFormula<'a>, usize)>, AllocError>
    requires nested { nesting ≤ LIMIT }
    requires closing { Closes (sign_of close) }
    // What is read is spelled there, and where nothing is read nothing is spelled.
    ensures value { IfOk result (λ o. MatchOption o (NoReading (IsClosed nesting (sign_of close)) (seen_from tokens.now at)) (λ x. IsClosed nesting (sign_of close) (seen_from tokens.now at) (view.formula x.0) (seen_from tokens.now x.1))) }
    ensures further { IfOk result (λ o. IfSome o (λ x. (at < x.1) × (x.1 ≤ length tokens.now))) }
{
    let Some((found, ahead)) = whole(alloc, nesting, tokens, at)? else {
        return Ok(None);
    };
    let Some(rest) = after(close, tokens, ahead) else {
        return Ok(None);
    };
    Ok(Some((Box::into_inner(found), rest)))
}
