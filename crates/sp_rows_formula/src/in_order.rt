// The order of times.

ghost use Rattle.std.specs.Prelude.{◌≡◌, ◌||◌, ◌==◌, IfOk, map, option_map};
ghost use Rattle.sp_formula.specs.FormulaView.{formula_of};
ghost use Rattle.sp_system.specs.SystemView.{system_of};
ghost use Rattle.sp_spec_system.specs.Order as spec;
ghost use Rattle.sp_spec_formula.specs.InOrder as rows;
ghost use Rattle.sp_rows_formula.specs.RowsView.{position_of};
ghost use Rattle.sp_system.specs.Reduced.{Reduced};

use sp_formula::formula::{Atom, Formula, Moment};
use sp_formula::shared::SharedFormula;
use sp_order::order::Order;
use sp_system::spend::spend;
use sp_system::system::System;
use std::alloc::{AllocError, Global};

// Whether one of the times is before the other.
fn are_apart(order: &Order, first: u128, second: u128) -> bool
    ensures { result ≡ (spec.is_before order.now first second || spec.is_before order.now second first) }
{
    order.before(first, second) || order.before(second, first)
}

// Whether the first time is the second one, or after it.
pub(crate) fn is_not_before(order: &Order, first: u128, second: u128) -> bool
    ensures { result ≡ ((first == second) || spec.is_before order.now second first) }
{
    first == second || order.before(second, first)
}

fn nothing_if(alloc: Global, decided: bool) -> Option<Vec<(u128, u128)>>
    ensures { option_map (λ ps. ps.items) result ≡ rows.nothing_if decided }
{
    if decided { Some(Vec::new(alloc)) } else { None }
}

// The order pairs that stand for the literal, if they do: none for one that they make true.
fn order_of(
    alloc: Global,
    order: &Order,
    formula: &Formula,
) -> Result<Option<Vec<(u128, u128)>>, AllocError>
    ensures { IfOk result (λ o. option_map (λ ps. ps.items) o ≡ rows.order_of order.now (formula_of formula.now)) }
{
    match formula {
        Formula::Holds(Atom::Before(Moment::Free(first), Moment::Free(second))) => {
            let mut made = Vec::new(alloc);
            made.push((*first, *second))?;
            Ok(Some(made))
        }
        Formula::Fails(Atom::SameTime(Moment::Free(first), Moment::Free(second))) => {
            let decided = are_apart(order, *first, *second);
            Ok(nothing_if(alloc, decided))
        }
        Formula::Fails(Atom::Before(Moment::Free(first), Moment::Free(second))) => {
            let decided = is_not_before(order, *first, *second);
            Ok(nothing_if(alloc, decided))
        }
        _ => Ok(None),
    }
}

// The position of the first literal that order pairs stand for, and these.
fn first_ordering(
    alloc: Global,
    system: &System,
) -> Result<Option<(usize, Vec<(u128, u128)>)>, AllocError>
    ensures { IfOk result (λ o. option_map (λ p. (p.0, p.1.items)) o ≡ position_of (rows.order_of system.now.order) (map formula_of system.now.formulas.items)) }
{
    for (position, formula) in system.formulas.iter().enumerate() {
        if let Some(pairs) = order_of(alloc, &system.order, formula)? {
            return Ok(Some((position, pairs)));
        }
    }
    Ok(None)
}

/// Spends the first literal that order pairs stand for; false if there is none.
///
/// # Errors
///
/// `AllocError` where memory is wanting.
pub fn in_order(alloc: Global, system: &mut System) -> Result<bool, AllocError>
    ensures { IfOk result (λ b. Reduced b (system_of system.old) (system_of system.new) (rows.in_order (system_of system.old))) }
{
    let Some((position, pairs)) = first_ordering(alloc, system)? else {
        return Ok(false);
    };
    spend(alloc, system, position)?;
    system.order.add_all(alloc, &pairs)?;
    Ok(true)
}

/// Whether the formula says that a time differs from itself, or isn't before one that it is before.
pub fn is_refuted(order: &Order, formula: &Formula) -> bool
    ensures { result ≡ rows.is_refuted order.now (formula_of formula.now) }
{
    match formula {
        Formula::Fails(Atom::SameTime(Moment::Free(first), Moment::Free(second))) => {
            *first == *second
        }
        Formula::Fails(Atom::Before(Moment::Free(first), Moment::Free(second))) => {
            order.before(*first, *second)
        }
        _ => false,
    }
}

/// Whether some formula is refuted so.
pub fn has_refuted(order: &Order, formulas: &Vec<SharedFormula>) -> bool
    ensures { result ≡ rows.has_refuted order.now (map formula_of formulas.now.items) }
{
    for formula in formulas {
        if is_refuted(order, formula) {
            return true;
        }
    }
    false
}
