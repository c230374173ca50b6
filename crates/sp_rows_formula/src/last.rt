// The time that is said to be the last one.

ghost use Rattle.std.specs.Prelude.{◌≡◌, ◌<◌, IfOk, OnOk, Some, length, map, option_map};
ghost use Rattle.sp_formula.specs.FormulaView.{formula_of};
ghost use Rattle.sp_system.specs.SystemView.{event_of, system_of};
ghost use Rattle.sp_spec_formula.specs.Last as rows;
ghost use Rattle.sp_rows_formula.specs.LastView as view;
ghost use Rattle.sp_rows_formula.specs.RowsView.{position_of};
ghost use Rattle.sp_system.specs.Reduced.{Reduced};

use crate::equate::{times_equated, times_fail};
use crate::in_order::is_not_before;
use sp_formula::formula::{Atom, Formula, Moment};
use sp_formula::shared::SharedFormula;
use sp_order::order::Order;
use sp_system::event::Event;
use sp_system::order::begins_at;
use sp_system::spend::{spend, spend_for};
use sp_system::system::System;
use std::alloc::{AllocError, Global};

/// What is said of the last time.
#[derive(Drop)]
pub enum Ending {
    /// this is the one
    IsLast(u128),
    /// the first of these isn't, and comes before the second, which is
    BeforeLast(u128, u128),
}

fn ending_of(last: Option<u128>, formula: &Formula) -> Option<Ending>
    ensures { option_map view.ending result ≡ rows.ending_of last (formula_of formula.now) }
{
    match (last, formula) {
        (_, Formula::Holds(Atom::Last(Moment::Free(time)))) => Some(Ending::IsLast(*time)),
        (Some(known), Formula::Fails(Atom::Last(Moment::Free(time)))) => {
            Some(Ending::BeforeLast(*time, known))
        }
        _ => None,
    }
}

// The position of the first formula that says something of the last time, and what it says.
fn first_ending(system: &System) -> Option<(usize, Ending)>
    ensures { option_map (λ p. (p.0, view.ending p.1)) result ≡ position_of (rows.ending_of system.now.last) (map formula_of system.now.formulas.items) }
{
    for (position, formula) in system.formulas.iter().enumerate() {
        if let Some(ending) = ending_of(system.last, formula) {
            return Some((position, ending));
        }
    }
    None
}

// Makes the time the last one, and one with the time that was known as that; false if they can't be one.
fn made_last(alloc: Global, system: &mut System, time: u128) -> Result<bool, AllocError>
    ensures { IfOk result (λ b. Reduced b (system_of system.old) (system_of system.new) (rows.made_last (system_of system.old).last time (system_of system.old))) }
{
    match system.last {
        Some(known) => times_equated(alloc, system, time, known),
        None => {
            system.last = Some(time);
            Ok(true)
        }
    }
}

// Makes the time the last one, if it can be, and spends the formula at the position, which says so.
fn ended(
    alloc: Global,
    system: &mut System,
    position: usize,
    time: u128,
) -> Result<bool, AllocError>
    requires { position < length system.old.formulas.items }
    ensures { IfOk result (λ b. Reduced b (system_of system.old) (system_of system.new) (view.ended_at (system_of system.old) position (rows.is_last time))) }
{
    if !made_last(alloc, system, time)? {
        return Ok(false);
    }
    spend(alloc, system, position)?;
    Ok(true)
}

// Puts what orders the times in the place of the formula at the position.
fn put_before(
    alloc: Global,
    system: &mut System,
    position: usize,
    first: u128,
    second: u128,
) -> Result<(), AllocError>
    requires { position < length system.old.formulas.items }
    ensures { OnOk result (view.ended_at (system_of system.old) position (rows.before_last first second) ≡ Some (system_of system.new)) }
{
    let mut instead = Vec::new(alloc);
    let ordered = Atom::Before(Moment::Free(first), Moment::Free(second));
    instead.push(Formula::Holds(ordered))?;
    spend_for(alloc, system, position, instead)
}

/// Makes the time of the first formula that says so the last one, or orders the time of one that denies it before the last;
/// false if there is none, or the time can't be the one that is known.
///
/// # Errors
///
/// `AllocError` where memory is wanting.
pub fn sets_last(alloc: Global, system: &mut System) -> Result<bool, AllocError>
    ensures { IfOk result (λ b. Reduced b (system_of system.old) (system_of system.new) (rows.sets_last (system_of system.old))) }
{
    let Some((position, ending)) = first_ending(system) else {
        return Ok(false);
    };
    match ending {
        Ending::IsLast(time) => {
            let done = ended(alloc, system, position, time)?;
            Ok(done)
        }
        Ending::BeforeLast(time, known) => {
            put_before(alloc, system, position, time, known)?;
            Ok(true)
        }
    }
}

// Whether the formula says that a time is the last one, and it can't be one with the time that is known as that.
fn last_fails(alloc: Global, system: &System, formula: &Formula) -> Result<bool, AllocError>
    ensures { IfOk result (λ b. b ≡ rows.last_fails (system_of system.now) (system_of system.now).last (formula_of formula.now)) }
{
    match (system.last, formula) {
        (Some(known), Formula::Holds(Atom::Last(Moment::Free(time)))) => {
            times_fail(alloc, system, *time, known)
        }
        _ => Ok(false),
    }
}

/// Whether some formula says that a time is the last one, and it can't be one with the time that is known as that.
///
/// # Errors
///
/// `AllocError` where memory is wanting.
pub fn fails_to_last(alloc: Global, system: &System) -> Result<bool, AllocError>
    ensures { IfOk result (λ b. b ≡ rows.fails_to_last (system_of system.now) (system_of system.now).formulas) }
{
    for formula in system.formulas.iter() {
        if last_fails(alloc, system, formula)? {
            return Ok(true);
        }
    }
    Ok(false)
}

/// Whether some time is after the last one.
pub fn has_later(last: Option<u128>, order: &Order) -> bool
    ensures { result ≡ rows.has_later last order.now }
{
    match last {
        Some(known) => begins_at(known, order.pairs()),
        None => false,
    }
}

// Whether the formula says of the last time that it isn't the last one.
fn is_last_refuted(last: Option<u128>, formula: &Formula) -> bool
    ensures { result ≡ rows.is_last_refuted last (formula_of formula.now) }
{
    match (last, formula) {
        (Some(known), Formula::Fails(Atom::Last(Moment::Free(time)))) => *time == known,
        _ => false,
    }
}

/// Whether some formula says of the last time that it isn't the last one.
pub fn has_last_refuted(last: Option<u128>, formulas: &Vec<SharedFormula>) -> bool
    ensures { result ≡ rows.has_last_refuted last (map formula_of formulas.now.items) }
{
    for formula in formulas {
        if is_last_refuted(last, formula) {
            return true;
        }
    }
    false
}

// Whether each event is before the time, or at it.
fn all_by(order: &Order, time: u128, events: &Vec<Event>) -> bool
    ensures { result ≡ rows.all_by order.now time (map event_of events.now.items) }
{
    for event in events {
        if !is_not_before(order, time, event.time) {
            return false;
        }
    }
    true
}

// Whether the formula says of a time that it isn't the last one, though each event is before it or at it.
fn is_behind_all(system: &System, formula: &Formula) -> bool
    ensures { result ≡ rows.is_behind_all (system_of system.now) (formula_of formula.now) }
{
    match formula {
        Formula::Fails(Atom::Last(Moment::Free(time))) => {
            all_by(&system.order, *time, &system.events)
        }
        _ => false,
    }
}

fn some_behind_all(system: &System) -> bool
    ensures { result ≡ rows.some_behind_all (system_of system.now) (system_of system.now).formulas }
{
    for formula in system.formulas.iter() {
        if is_behind_all(system, formula) {
            return true;
        }
    }
    false
}

/// Whether nothing happens but at the system's events, and a time behind them all is said not to be the last one.
pub fn has_unlast(system: &System) -> bool
    ensures { result ≡ rows.has_unlast (system_of system.now) }
{
    system.closed && some_behind_all(system)
}
