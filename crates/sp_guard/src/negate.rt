// The negation of a formula, by value: its parts are moved, and nothing is copied.

ghost use Rattle.std.specs.Prelude.{◌≡◌, IfOk, map};
ghost use Rattle.sp_spec.specs.Guarded as guarded;
ghost use Rattle.sp_spec.specs.Guarded.{guardeds_of};
ghost use Rattle.sp_formula.specs.FormulaView.{atom_of, binder_of, formula_of};
ghost use Rattle.sp_law_guard.specs.GuardedForm as spec;
ghost use Rattle.sp_guard.specs.NegatedAction.{is_action, is_negated_action, held};

use sp_formula::formula::{Atom, Binder, Formula};
use std::alloc::{AllocError, Global};

/// Whether the atom is an action.
pub fn is_action(atom: &Atom) -> bool
    ensures { result ≡ is_action (atom_of atom.now) }
{
    match atom {
        Atom::Acts(_, _) => true,
        _ => false,
    }
}

fn negated_atom(alloc: Global, atom: Atom) -> Result<Formula, AllocError>
    ensures { IfOk result (λ g. formula_of g ≡ spec.negated_atom (atom_of atom)) }
{
    if is_action(&atom) {
        let mut guard = Vec::with_capacity(alloc, 1)?;
        guard.push(atom)?;
        let body = Box::new(alloc, Formula::Falsity)?;
        Ok(Formula::ForAll(Vec::new(alloc), guard, body))
    } else {
        Ok(Formula::Fails(atom))
    }
}

// Whether the universal quantifier says that an action doesn't stand.
fn is_negated_action(binders: &Vec<Binder>, guard: &Vec<Atom>, body: &Formula) -> bool
    ensures { result ≡ is_negated_action (map binder_of binders.now.items) (map atom_of guard.now.items) (formula_of body.now) }
{
    if binders.len() != 0 || guard.len() != 1 {
        return false;
    }
    match body {
        Formula::Falsity => is_action(&guard[0]),
        _ => false,
    }
}

// The only atom, which holds.
fn held(mut guard: Vec<Atom>) -> Formula
    ensures { formula_of result ≡ held (map atom_of guard.items) }
{
    if guard.is_empty() {
        Formula::Falsity
    } else {
        Formula::Holds(guard.remove(0))
    }
}

/// The negation of the formula.
///
/// # Errors
///
/// `AllocError` where memory is wanting.
#[cycle(negate)]
pub fn negate(alloc: Global, formula: Formula) -> Result<Formula, AllocError>
    ensures { IfOk result (λ g. formula_of g ≡ spec.negate (formula_of formula)) }
{
    match formula {
        Formula::Truth => Ok(Formula::Falsity),
        Formula::Falsity => Ok(Formula::Truth),
        Formula::Holds(atom) => negated_atom(alloc, atom),
        Formula::Fails(atom) => Ok(Formula::Holds(atom)),
        Formula::AllOf(parts) => {
            let made = negate_each(alloc, parts)?;
            Ok(Formula::OneOf(made))
        }
        Formula::OneOf(parts) => {
            let made = negate_each(alloc, parts)?;
            Ok(Formula::AllOf(made))
        }
        Formula::Exists(binders, guard, body) => {
            let made = negate_boxed(alloc, body)?;
            Ok(Formula::ForAll(binders, guard, made))
        }
        Formula::ForAll(binders, guard, body) => {
            if is_negated_action(&binders, &guard, &body) {
                Ok(held(guard))
            } else {
                let made = negate_boxed(alloc, body)?;
                Ok(Formula::Exists(binders, guard, made))
            }
        }
    }
}

#[cycle(negate)]
fn negate_boxed(alloc: Global, body: Box<Formula>) -> Result<Box<Formula>, AllocError>
    ensures { IfOk result (λ g. formula_of g.value ≡ spec.negate (formula_of body.value)) }
{
    let made = negate(alloc, Box::into_inner(body))?;
    let boxed = Box::new(alloc, made)?;
    Ok(boxed)
}

#[cycle(negate)]
fn negate_each(alloc: Global, parts: Vec<Formula>) -> Result<Vec<Formula>, AllocError>
    ensures { IfOk result (λ gs. map formula_of gs.items ≡ map spec.negate (map formula_of parts.items)) }
{
    let mut made = Vec::with_capacity(alloc, parts.len())?;
    for part in parts {
        made.push(negate(alloc, part)?)?;
    }
    Ok(made)
}
