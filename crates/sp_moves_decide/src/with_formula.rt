// The case in which a system has one formula more.

ghost use Rattle.std.specs.Prelude.{◌≡◌, IfOk};
ghost use Rattle.sp_spec_formula.specs.Instantiate as spec;
ghost use Rattle.sp_formula.specs.FormulaView.{formula_of};
ghost use Rattle.sp_system.specs.SystemView.{system_of};
ghost use Rattle.sp_moves.specs.View.{case_of};

use sp_formula::formula::Formula;
use sp_formula::shared::SharedFormula;
use sp_moves::moves::Case;
use sp_system::system::System;
use std::alloc::{AllocError, Global};

/// The case of this name, in which the formula is true too.
///
/// # Errors
///
/// `AllocError` where memory is wanting.
pub(crate) fn with_formula(
    alloc: Global,
    system: &System,
    name: &str,
    formula: Formula,
) -> Result<Case, AllocError>
    ensures { IfOk result (λ c. case_of c ≡ record { name = name.now; system = spec.with_formula (system_of system.now) (formula_of formula) }) }
{
    let formula = SharedFormula::new(alloc, formula)?;
    let mut made = system.clone()?;
    made.formulas.push(alloc, formula)?;
    let name = String::from_str(alloc, name)?;
    Ok(Case { name, system: made })
}
