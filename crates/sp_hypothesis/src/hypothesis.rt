// The hypothesis of an induction, by value: the formula's parts are moved, and nothing is copied.

ghost use Rattle.std.specs.Prelude.{◌≡◌, IfOk, map};
ghost use Rattle.sp_formula.specs.FormulaView.{binder_of, formula_of};
ghost use Rattle.sp_law_induction.specs.Hypothesis as spec;

use crate::lasts::{lasts, not_lasts};
use sp_formula::formula::{Binder, Formula};
use sp_guard::join::{conjunction, disjunction};
use std::alloc::{AllocError, Global};

// These parts in front of the formula's disjuncts; without any the formula stays.
fn or_else(alloc: Global, parts: Vec<Formula>, formula: Formula) -> Result<Formula, AllocError>
    ensures { IfOk result (λ g. formula_of g ≡ spec.or_else (map formula_of parts.items) (formula_of formula)) }
{
    if parts.is_empty() {
        return Ok(formula);
    }
    let joined = disjunction(alloc, Formula::OneOf(parts), formula)?;
    Ok(joined)
}

// These parts behind the formula's conjuncts; without any the formula stays.
fn and_also(alloc: Global, formula: Formula, parts: Vec<Formula>) -> Result<Formula, AllocError>
    ensures { IfOk result (λ g. formula_of g ≡ spec.and_also (formula_of formula) (map formula_of parts.items)) }
{
    if parts.is_empty() {
        return Ok(formula);
    }
    let joined = conjunction(alloc, formula, Formula::AllOf(parts))?;
    Ok(joined)
}

/// What an induction over the entries of a trace takes for granted of the formula.
///
/// # Errors
///
/// `AllocError` where memory is wanting.
#[cycle(hypothesis)]
pub fn hypothesis(alloc: Global, form: Formula) -> Result<Formula, AllocError>
    ensures { IfOk result (λ g. formula_of g ≡ spec.hypothesis (formula_of form)) }
{
    match form {
        Formula::AllOf(parts) => {
            let made = each_hypothesis(alloc, parts)?;
            Ok(Formula::AllOf(made))
        }
        Formula::OneOf(parts) => {
            let made = each_hypothesis(alloc, parts)?;
            Ok(Formula::OneOf(made))
        }
        Formula::Exists(binders, guard, body) => {
            let made = before_the_last(alloc, &binders, body)?;
            Ok(Formula::Exists(binders, guard, made))
        }
        Formula::ForAll(binders, guard, body) => {
            let made = unless_last(alloc, &binders, body)?;
            Ok(Formula::ForAll(binders, guard, made))
        }
        other => Ok(other),
    }
}

// The body's hypothesis, and none of the times that are bound is the last.
#[cycle(hypothesis)]
fn before_the_last(
    alloc: Global,
    binders: &Vec<Binder>,
    body: Box<Formula>,
) -> Result<Box<Formula>, AllocError>
    ensures { IfOk result (λ g. formula_of g.value ≡ spec.and_also (spec.hypothesis (formula_of body.value)) (spec.not_lasts (map binder_of binders.now.items))) }
{
    let made = hypothesis(alloc, Box::into_inner(body))?;
    let excepted = not_lasts(alloc, binders)?;
    let joined = and_also(alloc, made, excepted)?;
    let boxed = Box::new(alloc, joined)?;
    Ok(boxed)
}

// One of the times that are bound is the last, or the body's hypothesis.
#[cycle(hypothesis)]
fn unless_last(
    alloc: Global,
    binders: &Vec<Binder>,
    body: Box<Formula>,
) -> Result<Box<Formula>, AllocError>
    ensures { IfOk result (λ g. formula_of g.value ≡ spec.or_else (spec.lasts (map binder_of binders.now.items)) (spec.hypothesis (formula_of body.value))) }
{
    let made = hypothesis(alloc, Box::into_inner(body))?;
    let excepted = lasts(alloc, binders)?;
    let joined = or_else(alloc, excepted, made)?;
    let boxed = Box::new(alloc, joined)?;
    Ok(boxed)
}

#[cycle(hypothesis)]
fn each_hypothesis(alloc: Global, parts: Vec<Formula>) -> Result<Vec<Formula>, AllocError>
    ensures { IfOk result (λ gs. map formula_of gs.items ≡ map spec.hypothesis (map formula_of parts.items)) }
{
    let mut made = Vec::with_capacity(alloc, parts.len())?;
    for part in parts {
        made.push(hypothesis(alloc, part)?)?;
    }
    Ok(made)
}
