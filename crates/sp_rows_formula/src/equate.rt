// Terms and times that are said to be the same.

ghost use Rattle.std.specs.Prelude.{◌≡◌, [], ◌∷◌, IfOk, Some, map, option_map};
ghost use Rattle.sp_formula.specs.FormulaView.{formula_of};
ghost use Rattle.sp_unify.specs.View.{pair_view};
ghost use Rattle.sp_system.specs.SystemView.{system_of};
ghost use Rattle.sp_spec_formula.specs.Equate as rows;
ghost use Rattle.sp_rows_formula.specs.EquateView as view;
ghost use Rattle.sp_rows_formula.specs.RowsView.{position_of};
ghost use Rattle.sp_spec.specs.Unifier.{mgu};
ghost use Rattle.sp_term.specs.Bindings.{bindings};
ghost use Rattle.sp_system.specs.Reduced.{Reduced};

use sp_formula::formula::{Atom, Formula, Moment};
use sp_merge::made_one::{made_one, stay_apart};
use sp_system::freed::freed_pair;
use sp_system::spend::spend;
use sp_system::system::System;
use sp_term::subst::Subst;
use sp_term::term::Term;
use sp_unify::unify::mgu;
use std::alloc::{AllocError, Global};

/// What is said to be the same.
#[derive(Drop)]
pub enum Equation {
    /// two terms
    Terms((Term, Term)),
    /// two times
    Times(u128, u128),
}

fn equation_of(alloc: Global, formula: &Formula) -> Result<Option<Equation>, AllocError>
    ensures { IfOk result (λ o. option_map view.equation o ≡ rows.equation_of (formula_of formula.now)) }
{
    match formula {
        Formula::Holds(Atom::Same(left, right)) => {
            let Some(pair) = freed_pair(alloc, left, right)? else {
                return Ok(None);
            };
            Ok(Some(Equation::Terms(pair)))
        }
        Formula::Holds(Atom::SameTime(Moment::Free(first), Moment::Free(second))) => {
            Ok(Some(Equation::Times(*first, *second)))
        }
        _ => Ok(None),
    }
}

// The position of the first equation, and what it says.
fn first_equation(alloc: Global, system: &System) -> Result<Option<(usize, Equation)>, AllocError>
    ensures { IfOk result (λ o. option_map (λ p. (p.0, view.equation p.1)) o ≡ position_of rows.equation_of (map formula_of system.now.formulas.items)) }
{
    for (position, formula) in system.formulas.iter().enumerate() {
        if let Some(equation) = equation_of(alloc, formula)? {
            return Ok(Some((position, equation)));
        }
    }
    Ok(None)
}

// What makes the terms the same, if they have a unifier.
fn unifier(alloc: Global, pair: (Term, Term)) -> Result<Option<Subst>, AllocError>
    ensures { IfOk result (λ o. option_map bindings o ≡ mgu (pair_view pair ∷ [])) }
{
    let mut pairs = Vec::new(alloc);
    pairs.push(pair)?;
    let subst = mgu(alloc, &pairs)?;
    Ok(subst)
}

// Makes the terms the same throughout, if they have a unifier.
fn terms_equated(alloc: Global, system: &mut System, pair: (Term, Term)) -> Result<bool, AllocError>
    ensures { IfOk result (λ b. Reduced b (system_of system.old) (system_of system.new) (rows.equated (system_of system.old) (rows.equal_terms (pair_view pair)))) }
{
    let Some(subst) = unifier(alloc, pair)? else {
        return Ok(false);
    };
    system.change_terms(alloc, &subst)?;
    Ok(true)
}

// Makes the times one, if they can be.
pub(crate) fn times_equated(
    alloc: Global,
    system: &mut System,
    first: u128,
    second: u128,
) -> Result<bool, AllocError>
    ensures { IfOk result (λ b. Reduced b (system_of system.old) (system_of system.new) (rows.equated (system_of system.old) (rows.equal_times first second))) }
{
    if first == second {
        return Ok(true);
    }
    made_one(alloc, system, first, second)
}

// Makes what is said to be the same the same, if it can be.
fn equated(alloc: Global, system: &mut System, equation: Equation) -> Result<bool, AllocError>
    ensures { IfOk result (λ b. Reduced b (system_of system.old) (system_of system.new) (rows.equated (system_of system.old) (view.equation equation))) }
{
    match equation {
        Equation::Terms(pair) => terms_equated(alloc, system, pair),
        Equation::Times(first, second) => times_equated(alloc, system, first, second),
    }
}

/// Makes the terms or times of the first equation the same throughout; false if there is none, or they can't be the same.
///
/// # Errors
///
/// `AllocError` where memory is wanting.
pub fn equate(alloc: Global, system: &mut System) -> Result<bool, AllocError>
    ensures { IfOk result (λ b. Reduced b (system_of system.old) (system_of system.new) (rows.equate (system_of system.old))) }
{
    let Some((position, equation)) = first_equation(alloc, system)? else {
        return Ok(false);
    };
    if !equated(alloc, system, equation)? {
        return Ok(false);
    }
    spend(alloc, system, position)?;
    Ok(true)
}

// Whether the times can't be one.
pub(crate) fn times_fail(
    alloc: Global,
    system: &System,
    first: u128,
    second: u128,
) -> Result<bool, AllocError>
    ensures { IfOk result (λ b. b ≡ rows.equation_fails (system_of system.now) (Some (rows.equal_times first second))) }
{
    if first == second {
        return Ok(false);
    }
    stay_apart(alloc, system, first, second)
}

fn equation_fails(alloc: Global, system: &System, formula: &Formula) -> Result<bool, AllocError>
    ensures { IfOk result (λ b. b ≡ rows.equation_fails (system_of system.now) (rows.equation_of (formula_of formula.now))) }
{
    match equation_of(alloc, formula)? {
        Some(Equation::Terms(pair)) => {
            let subst = unifier(alloc, pair)?;
            Ok(subst.is_none())
        }
        Some(Equation::Times(first, second)) => times_fail(alloc, system, first, second),
        None => Ok(false),
    }
}

/// Whether the terms or times of some equation can't be the same.
///
/// # Errors
///
/// `AllocError` where memory is wanting.
pub fn fails_to_equate(alloc: Global, system: &System) -> Result<bool, AllocError>
    ensures { IfOk result (λ b. b ≡ rows.fails_to_equate (system_of system.now) (system_of system.now).formulas) }
{
    for formula in system.formulas.iter() {
        if equation_fails(alloc, system, formula)? {
            return Ok(true);
        }
    }
    Ok(false)
}
