// Simplification: elementary moves until none applies or a contradiction is seen.

ghost use Rattle.std.specs.Prelude.{◌≡◌, ◌||◌, false, IfOk, OnOk, is_some, option_map, true};
ghost use Rattle.sp_system.specs.SystemView.{system_of};
ghost use Rattle.sp_system.specs.Reduced.{Reduced};
ghost use Rattle.sp_spec_formula.specs.Last as last_spec;
ghost use Rattle.sp_spec_proof.specs.Rows as rows;
ghost use Rattle.sp_spec_graph.specs.ReducibleEvent.{has_reducible};
ghost use Rattle.sp_step.specs.ReduceView.{row_of};
ghost use Rattle.sp_step.specs.SimplifyView as spec;
ghost use Rattle.sp_step.specs.View.{rules_of};

use crate::context::Rules;
use crate::reduce::{ROWS, Row, reduce};
use sp_rows_formula::equate::fails_to_equate;
use sp_rows_formula::in_order::has_refuted;
use sp_rows_formula::last::{fails_to_last, has_last_refuted, has_later, has_unlast};
use sp_rows_formula::split::has_falsity;
use sp_rows_formula::unequal::has_equal_pair;
use sp_rows_graph::fresh_once::fails_to_merge;
use sp_rows_graph::learn_once::fails_to_learn;
use sp_rows_graph::learnt_early::has_early;
use sp_rows_graph::linear_once::fails_to_link;
use sp_rows_graph::reducible_event::has_reducible;
use sp_rows_graph::source_twice::has_source_twice;
use sp_system::system::System;
use std::alloc::{AllocError, Global};

/// Does the first elementary move that applies, and tells which; none where none does, and then the system stays.
///
/// # Errors
///
/// `AllocError` where memory is wanting, or no number is left for a new variable.
pub fn by_rows(alloc: Global, rules: &Rules, system: &mut System) -> Result<Option<Row>, AllocError>
    ensures does { IfOk result (λ o. Reduced (is_some o) (system_of system.old) (system_of system.new) (rows.by_rows (rules_of rules.now) rows.rows (system_of system.old))) }
    ensures keeps { IfOk result (λ o. spec.some_keeps_terms (option_map row_of o) ≡ true
        → has_reducible (rules_of rules.now).signature.equations (system_of system.old).events ≡ false
        → has_reducible (rules_of rules.now).signature.equations (system_of system.new).events ≡ false) }
{
    for row in &ROWS {
        if reduce(alloc, rules, system, *row)? {
            return Ok(Some(*row));
        }
    }
    Ok(None)
}

/// Whether some elementary move applies.
///
/// # Errors
///
/// `AllocError` where memory is wanting, or no number is left for a new variable.
pub fn is_reducible(alloc: Global, rules: &Rules, system: &System) -> Result<bool, AllocError>
    ensures { IfOk result (λ b. b ≡ is_some (rows.by_rows (rules_of rules.now) rows.rows (system_of system.now))) }
{
    let mut tried = system.clone()?;
    let row = by_rows(alloc, rules, &mut tried)?;
    Ok(row.is_some())
}

// Whether a unification or a merge fails that an elementary move is to make.
fn fails_somewhere(alloc: Global, system: &System) -> Result<bool, AllocError>
    ensures { IfOk result (λ b. b ≡ rows.fails_somewhere (system_of system.now)) }
{
    if fails_to_equate(alloc, system)? || fails_to_last(alloc, system)? {
        return Ok(true);
    }
    if fails_to_learn(alloc, system)? || fails_to_link(alloc, system)? {
        return Ok(true);
    }
    fails_to_merge(alloc, system)
}

/// Whether some elementary move has a place, be it one at which it fails.
///
/// # Errors
///
/// `AllocError` where memory is wanting, or no number is left for a new variable.
pub fn has_place(alloc: Global, rules: &Rules, system: &System) -> Result<bool, AllocError>
    ensures { IfOk result (λ b. b ≡ rows.has_place (rules_of rules.now) (system_of system.now)) }
{
    if is_reducible(alloc, rules, system)? {
        return Ok(true);
    }
    fails_somewhere(alloc, system)
}

// Whether some time is after the last one, or a time is said not to be the last one that is.
fn ends_wrongly(system: &System) -> bool
    ensures { let s = system_of system.now in result ≡ (last_spec.has_later s.last s.order || (last_spec.has_last_refuted s.last s.formulas || (last_spec.has_unlast s || false))) }
{
    has_later(system.last, &system.order)
        || has_last_refuted(system.last, &system.formulas)
        || has_unlast(system)
}

// Whether a contradiction is seen, where it may be known that no equation could be used in an event.
fn is_contradictory_where(
    alloc: Global,
    rules: &Rules,
    system: &System,
    irreducible: bool,
) -> Result<bool, AllocError>
    requires { irreducible ≡ true → has_reducible (rules_of rules.now).signature.equations (system_of system.now).events ≡ false }
    ensures { IfOk result (λ b. b ≡ rows.is_contradictory (rules_of rules.now) (system_of system.now)) }
{
    if has_falsity(&system.formulas) || has_equal_pair(&system.unequal) {
        return Ok(true);
    }
    if has_refuted(&system.order, &system.formulas) || system.order.has_cycle() {
        return Ok(true);
    }
    if has_source_twice(system) || has_early(system) {
        return Ok(true);
    }
    if !irreducible && has_reducible(alloc, &rules.signature.equations, &system.events)? {
        return Ok(true);
    }
    if fails_somewhere(alloc, system)? {
        return Ok(true);
    }
    Ok(ends_wrongly(system))
}

/// Whether a contradiction is seen.
///
/// # Errors
///
/// `AllocError` where memory is wanting.
pub fn is_contradictory(alloc: Global, rules: &Rules, system: &System) -> Result<bool, AllocError>
    ensures { IfOk result (λ b. b ≡ rows.is_contradictory (rules_of rules.now) (system_of system.now)) }
{
    is_contradictory_where(alloc, rules, system, false)
}

// Does one more elementary move, if no contradiction is seen and some move applies, and tells which; else the system stays.
fn turn(
    alloc: Global,
    rules: &Rules,
    system: &mut System,
    irreducible: bool,
) -> Result<Option<Row>, AllocError>
    requires { irreducible ≡ true → has_reducible (rules_of rules.now).signature.equations (system_of system.old).events ≡ false }
    ensures does { IfOk result (λ o. Reduced (is_some o) (system_of system.old) (system_of system.new) (spec.turned (rules_of rules.now) (system_of system.old))) }
    ensures keeps { IfOk result (λ o. spec.some_keeps_terms (option_map row_of o) ≡ true → has_reducible (rules_of rules.now).signature.equations (system_of system.new).events ≡ false) }
{
    if is_contradictory_where(alloc, rules, system, irreducible)? {
        return Ok(None);
    }
    by_rows(alloc, rules, system)
}

/// Does at most 10,000 elementary moves, up to a contradiction. Whether an equation could be used in an event is asked again only where terms were put
/// for variables.
///
/// # Errors
///
/// `AllocError` where memory is wanting, or no number is left for a new variable.
pub fn simplify(alloc: Global, rules: &Rules, system: &mut System) -> Result<(), AllocError>
    ensures { OnOk result (system_of system.new ≡ rows.simplified (rules_of rules.now) (system_of system.old)) }
{
    let mut irreducible = false;
    for turns in 0..10_000u64 {
        let Some(row) = turn(alloc, rules, system, irreducible)? else {
            return Ok(());
        };
        irreducible = row.keeps_terms();
    }
    Ok(())
}
