// Formulas that have been used.

ghost use Rattle.std.specs.Prelude.{◌≡◌, ◌<◌, ◌∷◌, [], IfOk, OnOk, drop, length, map, take};
ghost use Rattle.sp_formula.specs.FormulaView.{formula_of};
ghost use Rattle.sp_system.specs.SystemView.{system_of};
ghost use Rattle.sp_system.specs.SpendView.{spending_at};

use crate::system::System;
use sp_formula::formula::Formula;
use sp_formula::shared::{SharedFormula, all_shared};
use std::alloc::{AllocError, Global};

// The formula at the position once more.
fn formula_at(formulas: &Vec<SharedFormula>, position: usize) -> Result<SharedFormula, AllocError>
    requires { position < length formulas.now.items }
    ensures { IfOk result (λ f. formula_of f ∷ [] ≡ take 1 (drop position (map formula_of formulas.now.items))) }
{
    let formula = formulas[position].share()?;
    Ok(formula)
}

/// Spends the formula at the position, and puts these in its place.
///
/// # Errors
///
/// `AllocError` where memory is wanting.
pub fn spend_for(
    alloc: Global,
    system: &mut System,
    position: usize,
    instead: Vec<Formula>,
) -> Result<(), AllocError>
    requires { position < length system.old.formulas.items }
    ensures { OnOk result (system_of system.new ≡ spending_at (system_of system.old) position (map formula_of instead.items)) }
{
    let formula = formula_at(&system.formulas, position)?;
    let instead = all_shared(alloc, instead)?;
    system.spent.push(alloc, formula)?;
    system.formulas.replace(alloc, position, instead)?;
    Ok(())
}

/// Spends the formula at the position.
///
/// # Errors
///
/// `AllocError` where memory is wanting.
pub fn spend(alloc: Global, system: &mut System, position: usize) -> Result<(), AllocError>
    requires { position < length system.old.formulas.items }
    ensures { OnOk result (system_of system.new ≡ spending_at (system_of system.old) position []) }
{
    spend_for(alloc, system, position, Vec::new(alloc))
}
