// What the two cases of an induction begin with.

ghost use Rattle.std.specs.Prelude.{◌≡◌, [], ◌∷◌, ◌++◌, IfOk, map, option_map};
ghost use Rattle.sp_formula.specs.FormulaView.{formula_of};
ghost use Rattle.sp_law_guard.specs.GuardedForm.{negate};
ghost use Rattle.sp_law_induction.specs.Hypothesis as spec;
ghost use Rattle.sp_law_induction.specs.Covering.{safe_among, induction_form};
ghost use Rattle.sp_hypothesis.specs.Broken.{joined, broken_after};

use crate::hypothesis::hypothesis;
use crate::safety::is_safety;
use sp_formula::formula::Formula;
use sp_guard::join::disjunction;
use sp_guard::negate::negate;
use std::alloc::{AllocError, Global};

/// The formulas of both cases of an induction.
#[derive(Drop)]
pub struct Cases {
    /// the trace is empty
    pub empty_trace: Vec<Formula>,
    /// the trace isn't empty
    pub non_empty_trace: Vec<Formula>,
}

// The safety formulas among the restrictions.
fn safe_among(alloc: Global, restrictions: &Vec<Formula>) -> Result<Vec<Formula>, AllocError>
    ensures { IfOk result (λ made. map formula_of made.items ≡ safe_among (map formula_of restrictions.now.items)) }
{
    let mut made = Vec::new(alloc);
    for restriction in restrictions {
        if is_safety(restriction) {
            made.push(restriction.clone()?)?;
        }
    }
    Ok(made)
}

// What stands outside of the induction: the safety restrictions, then what is taken.
fn outside(
    alloc: Global,
    restrictions: &Vec<Formula>,
    taken: &Vec<Formula>,
) -> Result<Vec<Formula>, AllocError>
    ensures { IfOk result (λ made. map formula_of made.items ≡ safe_among (map formula_of restrictions.now.items) ++ map formula_of taken.now.items) }
{
    let mut made = safe_among(alloc, restrictions)?;
    for lemma in taken {
        made.push(lemma.clone()?)?;
    }
    Ok(made)
}

// The formula, behind what may stand before it.
fn joined(alloc: Global, before: Option<Formula>, formula: Formula) -> Result<Formula, AllocError>
    ensures { IfOk result (λ g. formula_of g ≡ joined (option_map formula_of before) (formula_of formula)) }
{
    match before {
        None => Ok(formula),
        Some(first) => disjunction(alloc, first, formula),
    }
}

// That one of the restrictions which look ahead is broken, if there are any.
fn broken(alloc: Global, restrictions: &Vec<Formula>) -> Result<Option<Formula>, AllocError>
    ensures { IfOk result (λ o. option_map formula_of o ≡ broken_after None (map formula_of restrictions.now.items)) }
{
    let mut made = None;
    for restriction in restrictions {
        if !is_safety(restriction) {
            let denied = negate(alloc, restriction.clone()?)?;
            made = Some(joined(alloc, made, denied)?);
        }
    }
    Ok(made)
}

// What is shown by induction: one of the restrictions that look ahead is broken, or the lemma holds.
fn induction_form(
    alloc: Global,
    restrictions: &Vec<Formula>,
    form: &Formula,
) -> Result<Formula, AllocError>
    ensures { IfOk result (λ g. formula_of g ≡ induction_form (map formula_of restrictions.now.items) (formula_of form.now)) }
{
    let before = broken(alloc, restrictions)?;
    let lemma = form.clone()?;
    let shown = joined(alloc, before, lemma)?;
    Ok(shown)
}

/// The formulas of both cases of the lemma's induction: the safety restrictions, what is taken, the negation of what is shown, and, where
/// the trace isn't empty, its hypothesis. What is shown is that the lemma holds or that one of the other restrictions is broken.
///
/// # Errors
///
/// `AllocError` where memory is wanting.
pub fn cases_of(
    alloc: Global,
    restrictions: &Vec<Formula>,
    taken: &Vec<Formula>,
    form: &Formula,
) -> Result<Cases, AllocError>
    ensures empty_trace { let shown = induction_form (map formula_of restrictions.now.items) (formula_of form.now) in
        let outside = safe_among (map formula_of restrictions.now.items) ++ map formula_of taken.now.items in
        IfOk result (λ c. map formula_of c.empty_trace.items ≡ outside ++ negate shown ∷ []) }
    ensures non_empty_trace { let shown = induction_form (map formula_of restrictions.now.items) (formula_of form.now) in
        let outside = safe_among (map formula_of restrictions.now.items) ++ map formula_of taken.now.items in
        IfOk result (λ c. map formula_of c.non_empty_trace.items ≡ outside ++ negate shown ∷ spec.hypothesis shown ∷ []) }
{
    let shown = induction_form(alloc, restrictions, form)?;
    let denied = negate(alloc, shown.clone()?)?;
    let assumed = hypothesis(alloc, shown)?;
    let mut empty_trace = outside(alloc, restrictions, taken)?;
    empty_trace.push(denied.clone()?)?;
    let mut non_empty_trace = outside(alloc, restrictions, taken)?;
    non_empty_trace.push(denied)?;
    non_empty_trace.push(assumed)?;
    Ok(Cases {
        empty_trace,
        non_empty_trace,
    })
}
