// Conjunctions.

ghost use Rattle.std.specs.Prelude.{◌≡◌, IfOk, map, option_map};
ghost use Rattle.sp_formula.specs.FormulaView.{formula_of};
ghost use Rattle.sp_system.specs.SystemView.{system_of};
ghost use Rattle.sp_spec_formula.specs.Split as rows;
ghost use Rattle.sp_rows_formula.specs.RowsView.{picked_of, position_of};
ghost use Rattle.sp_system.specs.Reduced.{Reduced};

use sp_formula::formula::Formula;
use sp_formula::shared::SharedFormula;
use sp_system::spend::spend_for;
use sp_system::system::System;
use std::alloc::{AllocError, Global};

// The parts, if the formula is a conjunction: truth has none.
fn parts_of(alloc: Global, formula: &Formula) -> Result<Option<Vec<Formula>>, AllocError>
    ensures { IfOk result (λ o. option_map (λ fs. map formula_of fs.items) o ≡ rows.split_of (formula_of formula.now)) }
{
    match formula {
        Formula::Truth => Ok(Some(Vec::new(alloc))),
        Formula::AllOf(formulas) => {
            let parts = formulas.clone()?;
            Ok(Some(parts))
        }
        _ => Ok(None),
    }
}

// The position of the first conjunction, and its parts.
fn first_conjunction(
    alloc: Global,
    system: &System,
) -> Result<Option<(usize, Vec<Formula>)>, AllocError>
    ensures { IfOk result (λ o. option_map picked_of o ≡ position_of rows.split_of (map formula_of system.now.formulas.items)) }
{
    for (position, formula) in system.formulas.iter().enumerate() {
        if let Some(parts) = parts_of(alloc, formula)? {
            return Ok(Some((position, parts)));
        }
    }
    Ok(None)
}

/// Puts the parts of the first conjunction in its place; false if there is none.
///
/// # Errors
///
/// `AllocError` where memory is wanting.
pub fn split(alloc: Global, system: &mut System) -> Result<bool, AllocError>
    ensures { IfOk result (λ b. Reduced b (system_of system.old) (system_of system.new) (rows.split (system_of system.old))) }
{
    let Some((position, parts)) = first_conjunction(alloc, system)? else {
        return Ok(false);
    };
    spend_for(alloc, system, position, parts)?;
    Ok(true)
}

/// Whether the formula is false.
pub fn is_falsity(formula: &Formula) -> bool
    ensures { result ≡ rows.is_falsity (formula_of formula.now) }
{
    match formula {
        Formula::Falsity => true,
        _ => false,
    }
}

/// Whether some formula is false.
pub fn has_falsity(formulas: &Vec<SharedFormula>) -> bool
    ensures { result ≡ rows.has_falsity (map formula_of formulas.now.items) }
{
    for formula in formulas {
        if is_falsity(formula) {
            return true;
        }
    }
    false
}
