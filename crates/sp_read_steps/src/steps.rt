// Steps in lines.

ghost use Rattle.std.specs.Prelude.{◌≡◌, [], ◌∷◌, ◌++◌, MatchOption, IfOk, OnOk, map};
ghost use Rattle.sp_fact.specs.GroundView.{ground_of, given_of, step_of};
ghost use Rattle.sp_read_steps.specs.Reading as spec;
ghost use Rattle.sp_read_steps.specs.Reading.{NoReading, NoWhole, NoKind, Reads, ReadsGiven, ReadsValues, ReadsRule, ReadsStep};
ghost use Rattle.sp_read_steps.specs.View.{symbols_of};

use crate::applications::application;
use crate::parts::Kind;
use crate::terms::term;
use crate::texts::{after, behind, is_nothing, name};
use sp_fact::ground_term::GroundTerm;
use sp_fact::signature::Symbol;
use sp_fact::step::{Given, Step};
use sp_term::term::{MOST_NESTED, Name};
use std::alloc::{AllocError, Global};

/// The term that is the whole text.
fn whole_term(
    alloc: Global,
    symbols: &Vec<Symbol>,
    text: &[u8],
) -> Result<Option<GroundTerm>, AllocError>
    ensures { IfOk result (λ o. MatchOption o (NoWhole (Reads (symbols_of symbols.now.items)) text.now) (λ t. Reads (symbols_of symbols.now.items) text.now (ground_of t) [])) }
{
    let Some((found, rest)) = term(alloc, symbols, MOST_NESTED, text)? else {
        return Ok(None);
    };
    if is_nothing(rest) {
        Ok(Some(found))
    } else {
        Ok(None)
    }
}

/// The value of a variable, and what stands behind it.
#[tactic(auto, using(crate::proofs::Exits::givens))]
fn given<'a>(
    alloc: Global,
    symbols: &Vec<Symbol>,
    text: &'a [u8],
) -> Result<Option<(Given, &'a [u8])>, AllocError>
    ensures { IfOk result (λ o. MatchOption o (NoReading (ReadsGiven (symbols_of symbols.now.items)) text.now) (λ x. ReadsGiven (symbols_of symbols.now.items) text.now (given_of x.0) x.1.now)) }
{
    let Some((found, rest)) = name(text) else {
        return Ok(None);
    };
    let Some(inside) = after(rest, b" = ") else {
        return Ok(None);
    };
    let Some((value, ahead)) = term(alloc, symbols, MOST_NESTED, inside)? else {
        return Ok(None);
    };
    let variable = Name::new(alloc, found)?;
    Ok(Some((Given { variable, value }, ahead)))
}

/// Puts a value at the end.
fn push(values: &mut Vec<Given>, next: Given) -> Result<(), AllocError>
    ensures { OnOk result (map given_of values.new.items ≡ map given_of values.old.items ++ given_of next ∷ []) }
{
    values.push(next)?;
    Ok(())
}

/// The values of variables with a comma and a space between two, up to the end.
fn values(
    alloc: Global,
    symbols: &Vec<Symbol>,
    text: &[u8],
) -> Result<Option<Vec<Given>>, AllocError>
    ensures { IfOk result (λ o. MatchOption o (NoReading (ReadsValues (symbols_of symbols.now.items)) text.now) (λ v. ReadsValues (symbols_of symbols.now.items) text.now (map given_of v.items) [])) }
{
    let mut found = Vec::new(alloc);
    let mut rest = text;
    loop {
        let Some((next, ahead)) = given(alloc, symbols, rest)? else {
            return Ok(None);
        };
        push(&mut found, next)?;
        if is_nothing(ahead) {
            return Ok(Some(found));
        }
        match after(ahead, b", ") {
            Some(more) => rest = more,
            None => return Ok(None),
        }
    }
}

/// The use of a rule, behind the word of it and up to the end.
#[tactic(auto, using(crate::proofs::Exits::rules_read))]
fn rule(alloc: Global, symbols: &Vec<Symbol>, text: &[u8]) -> Result<Option<Step>, AllocError>
    ensures { IfOk result (λ o. MatchOption o (NoReading (ReadsRule (symbols_of symbols.now.items)) text.now) (λ s. ReadsRule (symbols_of symbols.now.items) text.now (step_of s) [])) }
{
    let Some((found, rest)) = name(text) else {
        return Ok(None);
    };
    let Some(others) = behind(b':', rest) else {
        return Ok(None);
    };
    let rule = Name::new(alloc, found)?;
    if is_nothing(others) {
        return Ok(Some(Step::UseRule(rule, Vec::new(alloc))));
    }
    let Some(inside) = behind(b' ', others) else {
        return Ok(None);
    };
    let Some(given) = values(alloc, symbols, inside)? else {
        return Ok(None);
    };
    Ok(Some(Step::UseRule(rule, given)))
}

/// The word of a step that has one term, and what stands behind it.
#[tactic(auto, using(crate::proofs::FirstWords::no_kind))]
fn first_word(text: &[u8]) -> Option<(Kind, &[u8])>
    ensures { MatchOption result (NoKind text.now) (λ x. text.now ≡ spec.kind_text x.0 ++ x.1.now) }
{
    if let Some(rest) = after(text, b"fresh ") {
        Some((Kind::Fresh, rest))
    } else if let Some(rest) = after(text, b"out ") {
        Some((Kind::Out, rest))
    } else if let Some(rest) = after(text, b"in ") {
        Some((Kind::In, rest))
    } else if let Some(rest) = after(text, b"pub ") {
        Some((Kind::Public, rest))
    } else if let Some(rest) = after(text, b"own ") {
        Some((Kind::Own, rest))
    } else {
        None
    }
}

/// The step of this kind over the term.
fn over(kind: Kind, term: GroundTerm) -> Step
    ensures { step_of result ≡ spec.step_over kind (ground_of term) }
{
    match kind {
        Kind::Fresh => Step::MakeFresh(term),
        Kind::Out => Step::TakeOut(term),
        Kind::In => Step::PutIn(term),
        Kind::Public => Step::KnowPublic(term),
        Kind::Own => Step::MakeOwn(term),
    }
}

/// The step that is the whole line.
#[tactic(auto, using(crate::proofs::Exits::steps_read))]
pub fn step_of_line(
    alloc: Global,
    symbols: &Vec<Symbol>,
    line: &[u8],
) -> Result<Option<Step>, AllocError>
    ensures { IfOk result (λ o. MatchOption o (NoReading (ReadsStep (symbols_of symbols.now.items)) line.now) (λ s. ReadsStep (symbols_of symbols.now.items) line.now (step_of s) [])) }
{
    if let Some(rest) = after(line, b"rule ") {
        let made = rule(alloc, symbols, rest)?;
        return Ok(made);
    }
    if let Some(rest) = after(line, b"make ") {
        let made = application(alloc, symbols, rest)?;
        return Ok(made);
    }
    let Some((kind, rest)) = first_word(line) else {
        return Ok(None);
    };
    let Some(found) = whole_term(alloc, symbols, rest)? else {
        return Ok(None);
    };
    Ok(Some(over(kind, found)))
}
