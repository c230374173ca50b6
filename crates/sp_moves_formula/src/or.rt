// The parts of a disjunction, one to a case.

ghost use Rattle.std.specs.Prelude.{◌≡◌, ◌<◌, ◌++◌, [], ◌∷◌, IfOk, codes, decimal, is_some, length, map, option_and_then, option_map, slice_get, string_bytes};
ghost use Rattle.sp_formula.specs.FormulaView.{formula_of};
ghost use Rattle.sp_system.specs.SystemView.{system_of};
ghost use Rattle.sp_spec_formula.specs.Or as spec;
ghost use Rattle.sp_moves.specs.View.{case_of};
ghost use Rattle.sp_system.specs.SpendView.{spending_at};
ghost use Rattle.sp_moves_formula.specs.Parts.{disjuncts, by_parts};

use sp_formula::formula::Formula;
use sp_moves::moves::{Case, formula_place};
use sp_system::spend::spend_for;
use sp_system::system::System;
use std::alloc::{AllocError, Global};

/// The parts of the formula, if it is a disjunction.
pub fn parts_of(formula: &Formula) -> Option<&Vec<Formula>>
    ensures { option_map (λ fs. map formula_of fs.now.items) result ≡ disjuncts (formula_of formula.now) }
{
    match formula {
        Formula::OneOf(parts) => Some(parts),
        _ => None,
    }
}

fn case_name(alloc: Global, number: u64) -> Result<String, AllocError>
    ensures { IfOk result (λ n. string_bytes n ≡ codes "case_" ++ decimal number) }
{
    let name = format!(in alloc; "case_{number}")?;
    Ok(name)
}

// The system in which the part stands in the place of the disjunction.
fn with_part(
    alloc: Global,
    system: &System,
    position: usize,
    part: &Formula,
) -> Result<System, AllocError>
    requires { position < length system.now.formulas.items }
    ensures { IfOk result (λ s. system_of s ≡ spending_at (system_of system.now) position (formula_of part.now ∷ [])) }
{
    let mut instead = Vec::new(alloc);
    instead.push(part.clone()?)?;
    let mut made = system.clone()?;
    spend_for(alloc, &mut made, position, instead)?;
    Ok(made)
}

fn by_part(
    alloc: Global,
    system: &System,
    position: usize,
    parts: &Vec<Formula>,
) -> Result<Vec<Case>, AllocError>
    requires { position < length system.now.formulas.items }
    ensures { IfOk result (λ cs. map case_of cs.items ≡ by_parts (system_of system.now) position 1 (map formula_of parts.now.items)) }
{
    let mut made = Vec::with_capacity(alloc, parts.len())?;
    let mut number: u64 = 1;
    for part in parts {
        let name = case_name(alloc, number)?;
        let system = with_part(alloc, system, position, part)?;
        made.push(Case { name, system })?;
        let Some(next) = number.checked_add(1) else {
            return Err(AllocError);
        };
        number = next;
    }
    Ok(made)
}

/// Whether the formula is a disjunction.
pub fn is_disjunction(formula: &Formula) -> bool
    ensures { result ≡ is_some (disjuncts (formula_of formula.now)) }
{
    parts_of(formula).is_some()
}

// A case for each part of the formula at the position, if it is a disjunction.
fn cases_of(
    alloc: Global,
    system: &System,
    position: usize,
    formula: &Formula,
) -> Result<Option<Vec<Case>>, AllocError>
    requires { position < length system.now.formulas.items }
    ensures { IfOk result (λ o. option_map (λ cs. map case_of cs.items) o ≡ option_map (by_parts (system_of system.now) position 1) (disjuncts (formula_of formula.now))) }
{
    let Some(parts) = parts_of(formula) else {
        return Ok(None);
    };
    let made = by_part(alloc, system, position, parts)?;
    Ok(Some(made))
}

fn cases_at(
    alloc: Global,
    system: &System,
    position: usize,
) -> Result<Option<Vec<Case>>, AllocError>
    ensures { IfOk result (λ o. option_map (λ cs. map case_of cs.items) o
        ≡ option_map (by_parts (system_of system.now) position 1) (option_and_then disjuncts (slice_get (system_of system.now).formulas position))) }
{
    match system.formulas.get(position) {
        Some(formula) => cases_of(alloc, system, position, formula),
        None => Ok(None),
    }
}

/// A case for each part of the disjunction at the place, before they are simplified; none where there is no disjunction.
///
/// # Errors
///
/// `AllocError` where memory is wanting.
pub fn or_cases(
    alloc: Global,
    system: &System,
    place: u128,
) -> Result<Option<Vec<Case>>, AllocError>
    ensures { IfOk result (λ o. option_map (λ cs. map case_of cs.items) o
        ≡ spec.or_cases (system_of system.now) (spec.disjunction_at place (system_of system.now).formulas)) }
{
    let Some(position) = formula_place(system, place) else {
        return Ok(None);
    };
    let made = cases_at(alloc, system, position)?;
    Ok(made)
}
