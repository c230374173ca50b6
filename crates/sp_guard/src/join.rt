// Formulas joined: conjunctions and disjunctions are flat, and quantifiers directly below one another are one.

ghost use Rattle.std.specs.Prelude.{◌≡◌, [], ◌∷◌, ◌++◌, IfOk, OnOk, map};
ghost use Rattle.sp_spec.specs.Guarded as guarded;
ghost use Rattle.sp_formula.specs.FormulaView.{atom_of, binder_of, formula_of};
ghost use Rattle.sp_law_guard.specs.GuardedForm as spec;
ghost use Rattle.sp_guard.specs.Joined.{guards, quantified};

use sp_formula::formula::{Atom, Binder, Formula};
use std::alloc::{AllocError, Global};

fn one_part(alloc: Global, formula: Formula) -> Result<Vec<Formula>, AllocError>
    ensures { IfOk result (λ gs. map formula_of gs.items ≡ formula_of formula ∷ []) }
{
    let mut parts = Vec::with_capacity(alloc, 1)?;
    parts.push(formula)?;
    Ok(parts)
}

// What a conjunction joins; another formula alone.
fn conjuncts(alloc: Global, formula: Formula) -> Result<Vec<Formula>, AllocError>
    ensures { IfOk result (λ gs. map formula_of gs.items ≡ spec.conjuncts (formula_of formula)) }
{
    match formula {
        Formula::AllOf(parts) => Ok(parts),
        other => one_part(alloc, other),
    }
}

// What a disjunction joins; another formula alone.
fn disjuncts(alloc: Global, formula: Formula) -> Result<Vec<Formula>, AllocError>
    ensures { IfOk result (λ gs. map formula_of gs.items ≡ spec.disjuncts (formula_of formula)) }
{
    match formula {
        Formula::OneOf(parts) => Ok(parts),
        other => one_part(alloc, other),
    }
}

// Both lists, one behind the other.
fn appended(mut parts: Vec<Formula>, mut more: Vec<Formula>) -> Result<Vec<Formula>, AllocError>
    ensures { IfOk result (λ gs. map formula_of gs.items ≡ map formula_of parts.items ++ map formula_of more.items) }
{
    parts.append(&mut more)?;
    Ok(parts)
}

/// Both formulas hold.
///
/// # Errors
///
/// `AllocError` where memory is wanting.
pub fn conjunction(alloc: Global, left: Formula, right: Formula) -> Result<Formula, AllocError>
    ensures { IfOk result (λ g. formula_of g ≡ spec.conjunction (formula_of left) (formula_of right)) }
{
    let parts = conjuncts(alloc, left)?;
    let more = conjuncts(alloc, right)?;
    let all = appended(parts, more)?;
    Ok(Formula::AllOf(all))
}

/// One of both formulas holds.
///
/// # Errors
///
/// `AllocError` where memory is wanting.
pub fn disjunction(alloc: Global, left: Formula, right: Formula) -> Result<Formula, AllocError>
    ensures { IfOk result (λ g. formula_of g ≡ spec.disjunction (formula_of left) (formula_of right)) }
{
    let parts = disjuncts(alloc, left)?;
    let more = disjuncts(alloc, right)?;
    let all = appended(parts, more)?;
    Ok(Formula::OneOf(all))
}

fn is_guard(atom: &Atom) -> bool
    ensures { result ≡ guards (atom_of atom.now) }
{
    match atom {
        Atom::Acts(_, _) | Atom::Same(_, _) => true,
        _ => false,
    }
}

// Puts an atom that guards behind the guard, and another formula behind the rest.
fn part(guard: &mut Vec<Atom>, rest: &mut Vec<Formula>, formula: Formula) -> Result<(), AllocError>
    ensures guarding { OnOk result (map atom_of guard.new.items ≡ map atom_of guard.old.items ++ spec.guard_in (formula_of formula ∷ [])) }
    ensures others { OnOk result (map formula_of rest.new.items ≡ map formula_of rest.old.items ++ spec.rest_in (formula_of formula ∷ [])) }
{
    match formula {
        Formula::Holds(atom) => {
            if is_guard(&atom) {
                guard.push(atom)?;
                Ok(())
            } else {
                rest.push(Formula::Holds(atom))?;
                Ok(())
            }
        }
        other => {
            rest.push(other)?;
            Ok(())
        }
    }
}

// The atoms that guard, and what else is joined.
fn parted(alloc: Global, parts: Vec<Formula>) -> Result<(Vec<Atom>, Vec<Formula>), AllocError>
    ensures guarding { IfOk result (λ r. map atom_of r.0.items ≡ spec.guard_in (map formula_of parts.items)) }
    ensures others { IfOk result (λ r. map formula_of r.1.items ≡ spec.rest_in (map formula_of parts.items)) }
{
    let mut guard = Vec::new(alloc);
    let mut rest = Vec::new(alloc);
    for formula in parts {
        part(&mut guard, &mut rest, formula)?;
    }
    Ok((guard, rest))
}

// The conjunction of the formulas.
fn body_of(mut rest: Vec<Formula>) -> Formula
    ensures { formula_of result ≡ spec.body_of (map formula_of rest.items) }
{
    if rest.is_empty() {
        Formula::Truth
    } else if rest.len() == 1 {
        rest.remove(0)
    } else {
        Formula::AllOf(rest)
    }
}

// There is a value of the binder for which all parts hold.
fn quantify(alloc: Global, binder: Binder, parts: Vec<Formula>) -> Result<Formula, AllocError>
    ensures { IfOk result (λ g. formula_of g ≡ quantified (binder_of binder) (map formula_of parts.items)) }
{
    let (guard, rest) = parted(alloc, parts)?;
    let mut binders = Vec::with_capacity(alloc, 1)?;
    binders.push(binder)?;
    let body = Box::new(alloc, body_of(rest))?;
    Ok(Formula::Exists(binders, guard, body))
}

// The binders with one more, the outermost.
fn with_outer(binder: Binder, mut binders: Vec<Binder>) -> Result<Vec<Binder>, AllocError>
    ensures { IfOk result (λ bs. map binder_of bs.items ≡ binder_of binder ∷ map binder_of binders.items) }
{
    match binders.insert(0, binder) {
        Ok(()) => Ok(binders),
        Err(_) => Err(AllocError),
    }
}

/// There is a value of the binder for which the formula holds.
///
/// # Errors
///
/// `AllocError` where memory is wanting.
pub fn existential(alloc: Global, binder: Binder, formula: Formula) -> Result<Formula, AllocError>
    ensures { IfOk result (λ g. formula_of g ≡ spec.existential (binder_of binder) (formula_of formula)) }
{
    match formula {
        Formula::Exists(binders, guard, body) => {
            let all = with_outer(binder, binders)?;
            Ok(Formula::Exists(all, guard, body))
        }
        other => {
            let parts = conjuncts(alloc, other)?;
            quantify(alloc, binder, parts)
        }
    }
}
