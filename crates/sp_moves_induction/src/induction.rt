// Induction: the move with which a proof begins, at its root alone.

ghost use Rattle.std.specs.Prelude.{◌≡◌, IfOk, is_some, map, option_map, Some};
ghost use Rattle.sp_spec.specs.Guarded.{guardeds_of};
ghost use Rattle.sp_spec.specs.SameFormula.{same_formulas};
ghost use Rattle.sp_formula.specs.FormulaView.{formula_of};
ghost use Rattle.sp_system.specs.SystemView.{system_of};
ghost use Rattle.sp_solved.specs.View.{cases_of, root_of};
ghost use Rattle.sp_moves.specs.View.{case_of};
ghost use Rattle.sp_spec_formula.specs.Induction as spec;
ghost use Rattle.sp_moves_induction.specs.Alone.{named_alone};

use sp_formula::formula::Formula;
use sp_formula::same::same_formula;
use sp_formula::shared::SharedFormula;
use sp_moves::moves::Case;
use sp_solved::{InductionCases, Root};
use sp_system::system::System;
use std::alloc::{AllocError, Global};

// The same formulas, in the same order.
fn are_same(left: &Vec<SharedFormula>, right: &Vec<Formula>) -> bool
    ensures { result ≡ same_formulas (guardeds_of (map formula_of left.now.items)) (guardeds_of (map formula_of right.now.items)) }
{
    if left.len() != right.len() {
        return false;
    }
    for (f, g) in left.iter().zip(right) {
        if !same_formula(f.formula(), g) {
            return false;
        }
    }
    true
}

// Nothing but formulas stands in the system.
fn has_formulas_alone(system: &System) -> bool
    ensures { result ≡ spec.has_formulas_alone (system_of system.now) }
{
    system.next == 0
        && !system.closed
        && system.last.is_none()
        && system.events.is_empty()
        && system.spent.is_empty()
        && system.unequal.is_empty()
        && system.links.is_empty()
        && system.order.pairs().is_empty()
}

// The system is the one in which a proof from the root begins.
fn is_root(alloc: Global, root: &Root, system: &System) -> Result<bool, AllocError>
    ensures { IfOk result (λ b. b ≡ spec.is_root (root_of root.now) (system_of system.now)) }
{
    if !has_formulas_alone(system) {
        return Ok(false);
    }
    let formulas = root.formulas(alloc)?;
    Ok(are_same(&system.formulas, &formulas))
}

// The case of this name, in which nothing but these formulas stands.
fn case_with(
    alloc: Global,
    name: &str,
    formulas: &Vec<Formula>,
    closed: bool,
) -> Result<Case, AllocError>
    ensures { IfOk result (λ c. case_of c ≡ named_alone name.now (map formula_of formulas.now.items) closed) }
{
    let name = String::from_str(alloc, name)?;
    let formulas = formulas.clone()?;
    let mut system = System::of_formulas(alloc, formulas)?;
    system.closed = closed;
    Ok(Case { name, system })
}

// The systems of both cases.
fn induction_cases(alloc: Global, cases: &InductionCases) -> Result<Vec<Case>, AllocError>
    ensures { IfOk result (λ cs. map case_of cs.items ≡ spec.induction_cases (cases_of cases.now)) }
{
    let empty_trace = case_with(alloc, "empty_trace", cases.empty_trace, true)?;
    let non_empty_trace = case_with(alloc, "non_empty_trace", cases.non_empty_trace, false)?;
    let mut made = Vec::new(alloc);
    made.push(empty_trace)?;
    made.push(non_empty_trace)?;
    Ok(made)
}

/// The cases of the move, where the system is the root's and the root has cases.
///
/// # Errors
///
/// `AllocError` where memory is wanting.
pub fn root_induction(
    alloc: Global,
    root: &Root,
    system: &System,
) -> Result<Option<Vec<Case>>, AllocError>
    ensures { IfOk result (λ o. option_map (λ cs. map case_of cs.items) o ≡ spec.root_induction (Some (root_of root.now)) (system_of system.now)) }
{
    let Some(cases) = root.cases else {
        return Ok(None);
    };
    if !is_root(alloc, root, system)? {
        return Ok(None);
    }
    let made = induction_cases(alloc, &cases)?;
    Ok(Some(made))
}

/// Whether the move is an instance.
///
/// # Errors
///
/// `AllocError` where memory is wanting.
pub fn is_inductive(alloc: Global, root: &Root, system: &System) -> Result<bool, AllocError>
    ensures { IfOk result (λ b. b ≡ is_some (spec.root_induction (Some (root_of root.now)) (system_of system.now))) }
{
    if root.cases.is_none() {
        return Ok(false);
    }
    let holds = is_root(alloc, root, system)?;
    Ok(holds)
}
