// The first comparison of two times of which it is open how they lie.

ghost use Rattle.std.specs.Prelude.{◌≡◌, ◌≤◌, IfOk, drop, length, map, option_map};
ghost use Rattle.std.specs.List.{list_any};
ghost use Rattle.sp_spec_system.specs.Move as spec;
ghost use Rattle.sp_spec_system.specs.Picked as picked;
ghost use Rattle.sp_formula.specs.FormulaView.{formula_of, moment_of};
ghost use Rattle.sp_system.specs.SystemView.{system_of};
ghost use Rattle.sp_moves.specs.View.{move_of};
ghost use Rattle.sp_spec_proof.specs.Choice.{first_instance};
ghost use Rattle.sp_spec_proof.specs.Deciding.{comparisons, tells_apart, told_comparisons};
ghost use Rattle.sp_undecided.specs.Asked.{are_moments, is_asked};
ghost use Rattle.sp_undecided.specs.Undecided.{are_unordered, compare_both, standing_times};

use sp_formula::formula::{Atom, Formula, Moment};
use sp_formula::shared::SharedFormula;
use sp_moves::moves::Move;
use sp_moves::times::has_time;
use sp_system::system::System;
use std::alloc::{AllocError, Global};

// Which comparisons are asked for.
#[derive(Clone, Copy)]
enum Asked {
    // those of two times that a formula tells apart
    Told,
    // each one
    Every,
}

// The times that stand in the system, from the lowest number on.
fn standing_times(alloc: Global, system: &System) -> Result<Vec<u128>, AllocError>
    ensures { IfOk result (λ ts. ts.items ≡ standing_times (system_of system.now)) }
{
    let mut made = Vec::new(alloc);
    for number in 0..system.next {
        if has_time(number, system) {
            made.push(number)?;
        }
    }
    Ok(made)
}

// Something happens, the lower number is first, and neither time is before the other.
fn are_unordered(system: &System, first: u128, second: u128) -> bool
    ensures { result ≡ are_unordered (system_of system.now) first second }
{
    !system.events.is_empty()
        && first < second
        && !(system.order.before(first, second) || system.order.before(second, first))
}

// The two times of a formula are these, in either order.
fn are_moments(first: u128, second: u128, left: Moment, right: Moment) -> bool
    ensures { result ≡ are_moments first second (moment_of left) (moment_of right) }
{
    match (left, right) {
        (Moment::Free(one), Moment::Free(other)) => {
            one == first && other == second || one == second && other == first
        }
        _ => false,
    }
}

// The formula says that the times aren't one, or that the one isn't before the other.
fn tells_apart(first: u128, second: u128, formula: &Formula) -> bool
    ensures { result ≡ tells_apart first second (formula_of formula.now) }
{
    match formula {
        Formula::Fails(Atom::SameTime(left, right)) => are_moments(first, second, *left, *right),
        Formula::Fails(Atom::Before(left, right)) => are_moments(first, second, *left, *right),
        _ => false,
    }
}

fn are_told(first: u128, second: u128, formulas: &Vec<SharedFormula>) -> bool
    ensures { result ≡ list_any (tells_apart first second) (map formula_of formulas.now.items) }
{
    for formula in formulas {
        if tells_apart(first, second, formula) {
            return true;
        }
    }
    false
}

// Formulas are asked last, since there may be many.
fn is_asked(asked: Asked, system: &System, first: u128, second: u128) -> bool
    ensures { result ≡ is_asked asked (system_of system.now) first second }
{
    match asked {
        Asked::Told => {
            are_unordered(system, first, second) && are_told(first, second, &system.formulas)
        }
        Asked::Every => are_unordered(system, first, second),
    }
}

// The time, and the first from `start` on with which it is asked for.
fn first_with(
    asked: Asked,
    system: &System,
    time: u128,
    times: &Vec<u128>,
    start: usize,
) -> Option<(u128, u128)>
    requires { start ≤ length times.now.items }
    ensures { result ≡ picked.first_with (is_asked asked (system_of system.now)) time (drop start times.now.items) }
{
    for place in start..times.len() {
        let other = times[place];
        if is_asked(asked, system, time, other) {
            return Some((time, other));
        }
    }
    None
}

fn first_two(asked: Asked, system: &System, times: &Vec<u128>) -> Option<(u128, u128)>
    ensures { result ≡ picked.first_two (is_asked asked (system_of system.now)) times.now.items }
{
    for place in 0..times.len() {
        let found = first_with(asked, system, times[place], times, place + 1);
        if found.is_some() {
            return found;
        }
    }
    None
}

fn first_asked(alloc: Global, asked: Asked, system: &System) -> Result<Option<Move>, AllocError>
    ensures { IfOk result (λ o. option_map move_of o
        ≡ option_map compare_both (picked.first_two (is_asked asked (system_of system.now)) (standing_times (system_of system.now)))) }
{
    let times = standing_times(alloc, system)?;
    match first_two(asked, system, &times) {
        Some((first, second)) => Ok(Some(Move::Compare(first, second))),
        None => Ok(None),
    }
}

/// The first comparison of two times that a formula tells apart which is an instance, if one is.
///
/// # Errors
///
/// `AllocError` where memory is wanting.
pub fn first_told_comparison(alloc: Global, system: &System) -> Result<Option<Move>, AllocError>
    ensures { IfOk result (λ o. (context : spec.Context) → option_map move_of o ≡ first_instance context (system_of system.now) (told_comparisons context (system_of system.now))) }
{
    let chosen = first_asked(alloc, Asked::Told, system)?;
    Ok(chosen)
}

/// The first comparison of two times which is an instance, if one is.
///
/// # Errors
///
/// `AllocError` where memory is wanting.
pub fn first_comparison(alloc: Global, system: &System) -> Result<Option<Move>, AllocError>
    ensures { IfOk result (λ o. (context : spec.Context) → option_map move_of o ≡ first_instance context (system_of system.now) (comparisons context (system_of system.now))) }
{
    let chosen = first_asked(alloc, Asked::Every, system)?;
    Ok(chosen)
}
