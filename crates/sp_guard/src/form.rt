// The guarded form of a written formula.

ghost use Rattle.std.specs.Prelude.{◌≡◌, ◌++◌, IfOk, map, option_map};
ghost use Rattle.sp_spec.specs.Guarded.{Guarded, holds};
ghost use Rattle.sp_spec_text.specs.Shapes.{quantified};
ghost use Rattle.sp_spec_text.specs.Formulas.{quantified_some};
ghost use Rattle.sp_spec.specs.Formula as formulas;
ghost use Rattle.sp_read_parts.specs.Formulas.{conjoint, disjoint};
ghost use Rattle.sp_read_parts.specs.Views as view;
ghost use Rattle.sp_read_parts.specs.Formulas as written;
ghost use Rattle.sp_formula.specs.FormulaView.{atom_of, formula_of};
ghost use Rattle.sp_law_guard.specs.GuardedForm as spec;
ghost use Rattle.sp_guard.specs.View.{innermost_first};
ghost use Rattle.sp_guard.specs.Bound.{for_all_form, for_some_form, each_bound, implied_form, equivalent_form};
ghost use Rattle.sp_guard.specs.Pairs.{joined_by};

use crate::join::{conjunction, disjunction, existential};
use crate::negate::negate;
use crate::place::{action_placed, equality_placed, marked_binder, order_placed};
use sp_formula::formula::{Atom, Formula};
use sp_read_parts::{ReadFormula, WrittenVariable};
use std::alloc::{AllocError, Global};

fn held(atom: Option<Atom>) -> Option<Formula>
    ensures { option_map formula_of result ≡ option_map holds (option_map atom_of atom) }
{
    match atom {
        Some(atom) => Some(Formula::Holds(atom)),
        None => None,
    }
}

fn negated(alloc: Global, form: Option<Formula>) -> Result<Option<Formula>, AllocError>
    ensures { IfOk result (λ o. option_map formula_of o ≡ option_map spec.negate (option_map formula_of form)) }
{
    match form {
        Some(form) => {
            let made = negate(alloc, form)?;
            Ok(Some(made))
        }
        None => Ok(None),
    }
}

/// Both forms, if there are two.
fn paired(left: Option<Formula>, right: Option<Formula>) -> Option<(Formula, Formula)>
    ensures { (join : Guarded → Guarded → Guarded) → joined_by join result ≡ spec.both_forms join (option_map formula_of left) (option_map formula_of right) }
{
    match (left, right) {
        (Some(left), Some(right)) => Some((left, right)),
        _ => None,
    }
}

fn both(alloc: Global, forms: Option<(Formula, Formula)>) -> Result<Option<Formula>, AllocError>
    ensures { IfOk result (λ o. option_map formula_of o ≡ joined_by spec.conjunction forms) }
{
    match forms {
        Some((left, right)) => {
            let made = conjunction(alloc, left, right)?;
            Ok(Some(made))
        }
        None => Ok(None),
    }
}

fn either(alloc: Global, forms: Option<(Formula, Formula)>) -> Result<Option<Formula>, AllocError>
    ensures { IfOk result (λ o. option_map formula_of o ≡ joined_by spec.disjunction forms) }
{
    match forms {
        Some((left, right)) => {
            let made = disjunction(alloc, left, right)?;
            Ok(Some(made))
        }
        None => Ok(None),
    }
}

// The one implies the other.
fn implied(alloc: Global, left: Formula, right: Formula) -> Result<Formula, AllocError>
    ensures { IfOk result (λ g. formula_of g ≡ implied_form (formula_of left) (formula_of right)) }
{
    let denied = negate(alloc, left)?;
    let made = disjunction(alloc, denied, right)?;
    Ok(made)
}

// The same of their copies.
fn implied_anew(alloc: Global, left: &Formula, right: &Formula) -> Result<Formula, AllocError>
    ensures { IfOk result (λ g. formula_of g ≡ implied_form (formula_of left.now) (formula_of right.now)) }
{
    let left = left.clone()?;
    let right = right.clone()?;
    let made = implied(alloc, left, right)?;
    Ok(made)
}

fn implication(
    alloc: Global,
    forms: Option<(Formula, Formula)>,
) -> Result<Option<Formula>, AllocError>
    ensures { IfOk result (λ o. option_map formula_of o ≡ joined_by implied_form forms) }
{
    match forms {
        Some((left, right)) => {
            let made = implied(alloc, left, right)?;
            Ok(Some(made))
        }
        None => Ok(None),
    }
}

// Each implies the other.
fn equivalent(alloc: Global, left: Formula, right: Formula) -> Result<Formula, AllocError>
    ensures { IfOk result (λ g. formula_of g ≡ equivalent_form (formula_of left) (formula_of right)) }
{
    let forth = implied_anew(alloc, &left, &right)?;
    let back = implied(alloc, right, left)?;
    let made = conjunction(alloc, forth, back)?;
    Ok(made)
}

fn equivalence(
    alloc: Global,
    forms: Option<(Formula, Formula)>,
) -> Result<Option<Formula>, AllocError>
    ensures { IfOk result (λ o. option_map formula_of o ≡ joined_by equivalent_form forms) }
{
    match forms {
        Some((left, right)) => {
            let made = equivalent(alloc, left, right)?;
            Ok(Some(made))
        }
        None => Ok(None),
    }
}

// The formula for all values of the binders.
fn all_values(
    alloc: Global,
    binders: &Vec<WrittenVariable>,
    body: Formula,
) -> Result<Formula, AllocError>
    ensures { IfOk result (λ g. formula_of g ≡ each_bound for_all_form (map view.variable binders.now.items) (formula_of body)) }
{
    let mut form = body;
    for index in (0..binders.len()).rev() {
        let denied = negate(alloc, form)?;
        let found = existential(alloc, marked_binder(binders[index].mark), denied)?;
        form = negate(alloc, found)?;
    }
    Ok(form)
}

// The formula for some values of the binders.
fn some_values(
    alloc: Global,
    binders: &Vec<WrittenVariable>,
    body: Formula,
) -> Result<Formula, AllocError>
    ensures { IfOk result (λ g. formula_of g ≡ each_bound for_some_form (map view.variable binders.now.items) (formula_of body)) }
{
    let mut form = body;
    for index in (0..binders.len()).rev() {
        form = existential(alloc, marked_binder(binders[index].mark), form)?;
    }
    Ok(form)
}

/// The binders with those of a quantifier inside them.
///
/// # Errors
///
/// `AllocError` where memory is wanting.
pub fn within<'a>(
    alloc: Global,
    binders: &Vec<WrittenVariable<'a>>,
    more: &Vec<WrittenVariable<'a>>,
) -> Result<Vec<WrittenVariable<'a>>, AllocError>
    ensures { IfOk result (λ bs. bs.items ≡ binders.now.items ++ more.now.items) }
{
    let mut made = Vec::with_capacity(alloc, binders.len())?;
    made.extend_from_slice(binders)?;
    made.extend_from_slice(more)?;
    Ok(made)
}

/// The guarded form of the formula inside these binders. None where a name has no binder, or a message stands for a time or a time for a
/// message.
///
/// # Errors
///
/// `AllocError` where memory is wanting.
#[cycle(form)]
pub fn guarded_form<'a>(
    alloc: Global,
    binders: &Vec<WrittenVariable<'a>>,
    formula: &ReadFormula<'a>,
) -> Result<Option<Formula>, AllocError>
    ensures { IfOk result (λ o. option_map formula_of o ≡ spec.guarded_form (innermost_first binders.now.items) (written.formula formula.now)) }
{
    match formula {
        ReadFormula::True => Ok(Some(Formula::Truth)),
        ReadFormula::False => Ok(Some(Formula::Falsity)),
        ReadFormula::Happens(action, at) => {
            let atom = action_placed(alloc, binders, action, at)?;
            Ok(held(atom))
        }
        ReadFormula::Equals(left, right) => {
            let atom = equality_placed(alloc, binders, left, right)?;
            Ok(held(atom))
        }
        ReadFormula::Precedes(first, second) => Ok(held(order_placed(binders, first, second))),
        ReadFormula::Not(denied) => {
            let form = guarded_form(alloc, binders, denied)?;
            negated(alloc, form)
        }
        ReadFormula::Both(left, right, more) => {
            let first = guarded_form(alloc, binders, left)?;
            let forms = paired_with(alloc, binders, first, right)?;
            let form = both(alloc, forms)?;
            and_all(alloc, binders, form, more)
        }
        ReadFormula::Either(left, right, more) => {
            let first = guarded_form(alloc, binders, left)?;
            let forms = paired_with(alloc, binders, first, right)?;
            let form = either(alloc, forms)?;
            or_any(alloc, binders, form, more)
        }
        ReadFormula::Implies(left, right) => {
            let first = guarded_form(alloc, binders, left)?;
            let forms = paired_with(alloc, binders, first, right)?;
            implication(alloc, forms)
        }
        ReadFormula::Equivalent(left, right) => {
            let first = guarded_form(alloc, binders, left)?;
            let forms = paired_with(alloc, binders, first, right)?;
            equivalence(alloc, forms)
        }
        ReadFormula::ForAll(more, body) => for_all(alloc, binders, more, body),
        ReadFormula::ForSome(more, body) => for_some(alloc, binders, more, body),
    }
}

// The form, and that of the formula beside it, if there are both.
#[cycle(form)]
fn paired_with<'a>(
    alloc: Global,
    binders: &Vec<WrittenVariable<'a>>,
    form: Option<Formula>,
    right: &ReadFormula<'a>,
) -> Result<Option<(Formula, Formula)>, AllocError>
    ensures { IfOk result (λ o. (join : Guarded → Guarded → Guarded) → joined_by join o
        ≡ spec.both_forms join (option_map formula_of form) (spec.guarded_form (innermost_first binders.now.items) (written.formula right.now))) }
{
    let other = guarded_form(alloc, binders, right)?;
    Ok(paired(form, other))
}

// The form that is made so far, and all that follow.
#[cycle(form)]
fn and_all<'a>(
    alloc: Global,
    binders: &Vec<WrittenVariable<'a>>,
    form: Option<Formula>,
    more: &Vec<ReadFormula<'a>>,
) -> Result<Option<Formula>, AllocError>
    ensures { IfOk result (λ o. (f : formulas.Formula) → option_map formula_of form ≡ spec.guarded_form (innermost_first binders.now.items) f
        → option_map formula_of o ≡ spec.guarded_form (innermost_first binders.now.items) (written.chain conjoint f (map written.formula more.now.items))) }
{
    let mut made = form;
    for part in more {
        let next = guarded_form(alloc, binders, part)?;
        made = both(alloc, paired(made, next))?;
    }
    Ok(made)
}

// The form that is made so far, or one that follows.
#[cycle(form)]
fn or_any<'a>(
    alloc: Global,
    binders: &Vec<WrittenVariable<'a>>,
    form: Option<Formula>,
    more: &Vec<ReadFormula<'a>>,
) -> Result<Option<Formula>, AllocError>
    ensures { IfOk result (λ o. (f : formulas.Formula) → option_map formula_of form ≡ spec.guarded_form (innermost_first binders.now.items) f
        → option_map formula_of o ≡ spec.guarded_form (innermost_first binders.now.items) (written.chain disjoint f (map written.formula more.now.items))) }
{
    let mut made = form;
    for part in more {
        let next = guarded_form(alloc, binders, part)?;
        made = either(alloc, paired(made, next))?;
    }
    Ok(made)
}

#[cycle(form)]
#[tactic(auto, using(crate::proofs::QuantifiedForm::all_within))]
fn for_all<'a>(
    alloc: Global,
    binders: &Vec<WrittenVariable<'a>>,
    more: &Vec<WrittenVariable<'a>>,
    body: &ReadFormula<'a>,
) -> Result<Option<Formula>, AllocError>
    ensures { IfOk result (λ o. option_map formula_of o ≡ spec.guarded_form (innermost_first binders.now.items) (quantified (map view.variable more.now.items) (written.formula body.now))) }
{
    let inner = within(alloc, &*binders, &*more)?;
    let Some(form) = guarded_form(alloc, &inner, body)? else {
        return Ok(None);
    };
    let made = all_values(alloc, more, form)?;
    Ok(Some(made))
}

#[cycle(form)]
#[tactic(auto, using(crate::proofs::QuantifiedForm::some_within))]
fn for_some<'a>(
    alloc: Global,
    binders: &Vec<WrittenVariable<'a>>,
    more: &Vec<WrittenVariable<'a>>,
    body: &ReadFormula<'a>,
) -> Result<Option<Formula>, AllocError>
    ensures { IfOk result (λ o. option_map formula_of o ≡ spec.guarded_form (innermost_first binders.now.items) (quantified_some (map view.variable more.now.items) (written.formula body.now))) }
{
    let inner = within(alloc, &*binders, &*more)?;
    let Some(form) = guarded_form(alloc, &inner, body)? else {
        return Ok(None);
    };
    let made = some_values(alloc, more, form)?;
    Ok(Some(made))
}
