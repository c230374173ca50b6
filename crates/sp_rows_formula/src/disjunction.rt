// Disjunctions.

ghost use Rattle.std.specs.Prelude.{◌≡◌, ◌||◌, IfOk, map, option_map};
ghost use Rattle.sp_spec.specs.Guarded.{one_of, guardeds_of};
ghost use Rattle.sp_formula.specs.Fingerprint.{fingerprint};
ghost use Rattle.sp_formula.specs.FormulaView.{formula_of};
ghost use Rattle.sp_system.specs.SystemView.{system_of};
ghost use Rattle.sp_spec_formula.specs.Disjunction as rows;
ghost use Rattle.sp_rows_formula.specs.PartsView.{false_of};
ghost use Rattle.sp_rows_formula.specs.RowsView.{picked_of, position_of};
ghost use Rattle.sp_system.specs.Reduced.{Reduced};

use crate::split::is_falsity;
use sp_formula::fingerprint::fingerprint;
use sp_formula::formula::Formula;
use sp_formula::shared::SharedFormula;
use sp_system::spend::spend_for;
use sp_system::system::System;
use std::alloc::{AllocError, Global};

// Whether one of these is the formula, which has this fingerprint.
fn is_among(formulas: &Vec<SharedFormula>, formula: &Formula, print: u64) -> bool
    requires { print ≡ fingerprint (formula_of formula.now) }
    ensures { result ≡ rows.is_a_formula (map formula_of formulas.now.items) (formula_of formula.now) }
{
    for other in formulas {
        if other.is_same(formula, print) {
            return true;
        }
    }
    false
}

/// Whether the system has the formula, or has spent it. Its fingerprint is made once, and other formulas are compared by theirs first.
pub fn has_formula(system: &System, formula: &Formula) -> bool
    ensures { result ≡ (rows.is_a_formula (system_of system.now).formulas (formula_of formula.now) || rows.is_a_formula (system_of system.now).spent (formula_of formula.now)) }
{
    let print = fingerprint(formula);
    is_among(&system.formulas, formula, print) || is_among(&system.spent, formula, print)
}

fn is_truth(formula: &Formula) -> bool
    ensures { result ≡ rows.is_truth (formula_of formula.now) }
{
    match formula {
        Formula::Truth => true,
        _ => false,
    }
}

// Whether the formula is true, or the system has it.
fn is_known(system: &System, formula: &Formula) -> bool
    ensures { result ≡ rows.is_known (system_of system.now) (formula_of formula.now) }
{
    is_truth(formula) || has_formula(system, formula)
}

fn some_known(system: &System, parts: &Vec<Formula>) -> bool
    ensures { result ≡ rows.some_known (system_of system.now) (guardeds_of (map formula_of parts.now.items)) }
{
    for part in parts {
        if is_known(system, part) {
            return true;
        }
    }
    false
}

fn position_of_false(parts: &Vec<Formula>) -> Option<usize>
    ensures { result ≡ option_map (λ p. p.0) (position_of false_of (map formula_of parts.now.items)) }
{
    for (position, part) in parts.iter().enumerate() {
        if is_falsity(part) {
            return Some(position);
        }
    }
    None
}

// The parts but the first that is false, if one is.
fn without_false(parts: &Vec<Formula>) -> Result<Option<Vec<Formula>>, AllocError>
    ensures { IfOk result (λ o. option_map (λ fs. guardeds_of (map formula_of fs.items)) o ≡ rows.without_false (guardeds_of (map formula_of parts.now.items))) }
{
    let Some(position) = position_of_false(parts) else {
        return Ok(None);
    };
    let mut kept = parts.clone()?;
    kept.remove(position);
    Ok(Some(kept))
}

// The disjunction of these: one part is itself.
fn disjunction_of(mut parts: Vec<Formula>) -> Formula
    ensures { formula_of result ≡ rows.disjunction_of (guardeds_of (map formula_of parts.items)) }
{
    if parts.len() == 0 {
        return Formula::Falsity;
    }
    if parts.len() == 1 {
        return parts.remove(0);
    }
    Formula::OneOf(parts)
}

// What stands in the place of the disjunction of these parts, if it is done.
fn instead_of_parts(
    alloc: Global,
    system: &System,
    parts: &Vec<Formula>,
) -> Result<Option<Vec<Formula>>, AllocError>
    ensures { IfOk result (λ o. option_map (λ fs. map formula_of fs.items) o ≡ rows.instead_of (system_of system.now) (one_of (guardeds_of (map formula_of parts.now.items)))) }
{
    if some_known(system, parts) {
        return Ok(Some(Vec::new(alloc)));
    }
    let Some(kept) = without_false(parts)? else {
        return Ok(None);
    };
    let mut instead = Vec::new(alloc);
    instead.push(disjunction_of(kept))?;
    Ok(Some(instead))
}

fn instead_of(
    alloc: Global,
    system: &System,
    formula: &Formula,
) -> Result<Option<Vec<Formula>>, AllocError>
    ensures { IfOk result (λ o. option_map (λ fs. map formula_of fs.items) o ≡ rows.instead_of (system_of system.now) (formula_of formula.now)) }
{
    match formula {
        Formula::OneOf(parts) => {
            let made = instead_of_parts(alloc, system, parts)?;
            Ok(made)
        }
        _ => Ok(None),
    }
}

// The position of the first disjunction that is done, and what stands in its place.
fn first_done(alloc: Global, system: &System) -> Result<Option<(usize, Vec<Formula>)>, AllocError>
    ensures { IfOk result (λ o. option_map picked_of o ≡ position_of (rows.instead_of (system_of system.now)) (map formula_of system.now.formulas.items)) }
{
    for (position, formula) in system.formulas.iter().enumerate() {
        if let Some(parts) = instead_of(alloc, system, formula)? {
            return Ok(Some((position, parts)));
        }
    }
    Ok(None)
}

/// Spends the first disjunction of which a part is known, or leaves out a false part of it; false if there is none.
///
/// # Errors
///
/// `AllocError` where memory is wanting.
pub fn disjunction(alloc: Global, system: &mut System) -> Result<bool, AllocError>
    ensures { IfOk result (λ b. Reduced b (system_of system.old) (system_of system.new) (rows.disjunction (system_of system.old))) }
{
    let Some((position, instead)) = first_done(alloc, system)? else {
        return Ok(false);
    };
    spend_for(alloc, system, position, instead)?;
    Ok(true)
}
