// How two times of a system lie.

ghost use Rattle.std.specs.Prelude.{◌≡◌, ◌∷◌, [], IfOk, codes, map, option_map};
ghost use Rattle.sp_spec.specs.Guarded.{free_time, holds, same_time};
ghost use Rattle.sp_spec_system.specs.System.{with_pairs};
ghost use Rattle.sp_spec_formula.specs.Instantiate as formulas;
ghost use Rattle.sp_spec_graph.specs.Compare as spec;
ghost use Rattle.sp_system.specs.SystemView.{system_of};
ghost use Rattle.sp_moves.specs.View.{case_of};

use crate::with_formula::with_formula;
use sp_formula::formula::{Atom, Formula, Moment};
use sp_moves::moves::Case;
use sp_moves::times::has_time;
use sp_system::system::System;
use std::alloc::{AllocError, Global};

/// Whether these are two times of the system, the lower number first, of which neither is before the other; where nothing happens no time is compared.
pub fn are_comparable(system: &System, first: u128, second: u128) -> bool
    ensures { result ≡ spec.are_comparable (system_of system.now) first second }
{
    !system.events.is_empty()
        && first < second
        && has_time(first, system)
        && has_time(second, system)
        && !(system.order.before(first, second) || system.order.before(second, first))
}

// The one time is before the other.
fn in_order(
    alloc: Global,
    system: &System,
    name: &str,
    first: u128,
    second: u128,
) -> Result<Case, AllocError>
    ensures { IfOk result (λ c. case_of c ≡ record { name = name.now; system = with_pairs (system_of system.now) ((first, second) ∷ []) }) }
{
    let mut made = system.clone()?;
    made.order.add(alloc, first, second)?;
    let name = String::from_str(alloc, name)?;
    Ok(Case { name, system: made })
}

// The times are one.
fn as_one(alloc: Global, system: &System, first: u128, second: u128) -> Result<Case, AllocError>
    ensures { IfOk result (λ c. case_of c
        ≡ record { name = codes "same"; system = formulas.with_formula (system_of system.now) (holds (same_time (free_time first) (free_time second))) }) }
{
    let formula = Formula::Holds(Atom::SameTime(Moment::Free(first), Moment::Free(second)));
    let made = with_formula(alloc, system, "same", formula)?;
    Ok(made)
}

// The three ways in which they may lie.
fn each_way(
    alloc: Global,
    system: &System,
    first: u128,
    second: u128,
) -> Result<Vec<Case>, AllocError>
    ensures { IfOk result (λ cs. map case_of cs.items
        ≡ record { name = codes "before"; system = with_pairs (system_of system.now) ((first, second) ∷ []) }
        ∷ record { name = codes "same"; system = formulas.with_formula (system_of system.now) (holds (same_time (free_time first) (free_time second))) }
        ∷ record { name = codes "after"; system = with_pairs (system_of system.now) ((second, first) ∷ []) } ∷ []) }
{
    let mut made = Vec::new(alloc);
    made.push(in_order(alloc, system, "before", first, second)?)?;
    made.push(as_one(alloc, system, first, second)?)?;
    made.push(in_order(alloc, system, "after", second, first)?)?;
    Ok(made)
}

/// A case for each way in which the two times may lie, before they are simplified: the first before the second, both one, and the second before the first. None
/// where it is no question: where they aren't two times of the system, the lower number first, or one of them is before the other, or nothing happens.
///
/// # Errors
///
/// `AllocError` where memory is wanting.
pub fn compare_cases(
    alloc: Global,
    system: &System,
    first: u128,
    second: u128,
) -> Result<Option<Vec<Case>>, AllocError>
    ensures { IfOk result (λ o. option_map (λ cs. map case_of cs.items) o ≡ spec.compare_cases (system_of system.now) first second) }
{
    if !are_comparable(system, first, second) {
        return Ok(None);
    }
    let made = each_way(alloc, system, first, second)?;
    Ok(Some(made))
}
