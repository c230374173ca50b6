// The cases of a move that decides what is open, or why it is no instance.

ghost use Rattle.std.specs.Prelude.{◌≡◌, IfOk, map, option_map};
ghost use Rattle.sp_spec.specs.Same.{alike};
ghost use Rattle.sp_spec_formula.specs.Sides as sides;
ghost use Rattle.sp_term.specs.View.{name_of, view};
ghost use Rattle.sp_unify.specs.View.{pair_view};
ghost use Rattle.sp_system.specs.SystemView.{system_of};
ghost use Rattle.sp_moves.specs.View.{case_of, move_of, side_of};
ghost use Rattle.sp_moves.specs.Applied.{clause_of, cases_of, failing};
ghost use Rattle.sp_moves.specs.Clause.{HasCases};
ghost use Rattle.sp_moves_decide.specs.RulesView.{rules_of};
ghost use Rattle.sp_moves_decide.specs.WhyNot as spec;
ghost use Rattle.sp_moves_decide.specs.WhyNot.{why_not_decide, deciding_cases};

use crate::compare::{are_comparable, compare_cases};
use crate::more::more_cases;
use crate::same::{are_in_order, same_cases, stands_there};
use crate::top::{has_variable, top_cases};
use sp_book::book::RuleBook;
use sp_fact::signature::Signature;
use sp_moves::applied::{Applied, Clause};
use sp_moves::moves::{Case, Move, Side};
use sp_moves::times::has_time;
use sp_system::system::{System, UnequalPair};
use sp_term::term::{Name, Sort, Term};
use std::alloc::{AllocError, Global};

fn why_not_compare(system: &System, first: u128, second: u128) -> Option<Clause>
    ensures { option_map clause_of result ≡ spec.why_not_compare (system_of system.now) first second }
{
    if !(has_time(first, system) && has_time(second, system)) {
        Some(Clause::Absent)
    } else if are_comparable(system, first, second) {
        None
    } else {
        Some(Clause::Condition)
    }
}

fn has_name_variable(system: &System, number: u128) -> bool
    ensures { result ≡ spec.has_name_variable (system_of system.now) number }
{
    has_variable(system, Sort::Fresh, number) || has_variable(system, Sort::Pub, number)
}

fn why_not_top(system: &System, number: u128) -> Option<Clause>
    ensures { option_map clause_of result ≡ spec.why_not_top (system_of system.now) number }
{
    if has_variable(system, Sort::Msg, number) {
        None
    } else if has_name_variable(system, number) {
        Some(Clause::OtherKind)
    } else {
        Some(Clause::Absent)
    }
}

fn has_number(system: &System, number: u128) -> bool
    ensures { result ≡ spec.has_number (system_of system.now) number }
{
    has_variable(system, Sort::Msg, number) || has_name_variable(system, number)
}

fn stands_somewhere(constants: &Vec<Name>, system: &System, side: &Side) -> bool
    ensures { result ≡ spec.stands_somewhere (map name_of constants.now.items) (system_of system.now) (side_of side.now) }
{
    match side {
        Side::Fresh(number) => has_number(system, *number),
        Side::Public(number) => has_number(system, *number),
        Side::Constant(_) => stands_there(constants, system, side),
    }
}

// Whether the term is that of the side.
fn is_side(term: &Term, side: &Side) -> bool
    ensures { result ≡ alike (view term.now) (sides.side_term (side_of side.now)) }
{
    match (term, side) {
        (Term::Var(variable), Side::Fresh(number)) => {
            variable.sort == Sort::Fresh && variable.number == *number
        }
        (Term::Var(variable), Side::Public(number)) => {
            variable.sort == Sort::Pub && variable.number == *number
        }
        (Term::Constant(other), Side::Constant(name)) => *other == *name,
        _ => false,
    }
}

// Whether the terms of the sides are an unequal pair, in either order; asked of the sides, since the terms would want memory.
fn are_apart(pairs: &Vec<UnequalPair>, one: &Side, other: &Side) -> bool
    ensures { result ≡ sides.are_apart (map pair_view pairs.now.items) (sides.side_term (side_of one.now)) (sides.side_term (side_of other.now)) }
{
    for pair in pairs {
        if is_side(&pair.0, one) && is_side(&pair.1, other)
            || is_side(&pair.0, other) && is_side(&pair.1, one)
        {
            return true;
        }
    }
    false
}

fn is_undecided(constants: &Vec<Name>, system: &System, one: &Side, other: &Side) -> bool
    ensures { result ≡ sides.is_undecided (map name_of constants.now.items) (system_of system.now) (side_of one.now) (side_of other.now) }
{
    are_in_order(one, other)
        && stands_there(constants, system, one)
        && stands_there(constants, system, other)
        && !are_apart(&system.unequal, one, other)
}

fn why_not_sides(constants: &Vec<Name>, system: &System, one: &Side, other: &Side) -> Option<Clause>
    ensures { option_map clause_of result ≡ spec.why_not_sides (map name_of constants.now.items) (system_of system.now) (side_of one.now) (side_of other.now) }
{
    if !(stands_there(constants, system, one) && stands_there(constants, system, other)) {
        Some(Clause::OtherKind)
    } else if is_undecided(constants, system, one, other) {
        None
    } else {
        Some(Clause::Condition)
    }
}

fn why_not_same(constants: &Vec<Name>, system: &System, one: &Side, other: &Side) -> Option<Clause>
    ensures { option_map clause_of result ≡ spec.why_not_same (map name_of constants.now.items) (system_of system.now) (side_of one.now) (side_of other.now) }
{
    if stands_somewhere(constants, system, one) && stands_somewhere(constants, system, other) {
        why_not_sides(constants, system, one, other)
    } else {
        Some(Clause::Absent)
    }
}

fn why_not_more(system: &System) -> Option<Clause>
    ensures { option_map clause_of result ≡ spec.why_not_more (system_of system.now) }
{
    if system.closed {
        Some(Clause::Condition)
    } else {
        None
    }
}

/// Why a move that decides what is open is no instance, if it is none. The public names are those that stand in the theory.
pub fn why_not(constants: &Vec<Name>, system: &System, chosen: &Move) -> Option<Clause>
    ensures { option_map clause_of result ≡ why_not_decide (map name_of constants.now.items) (system_of system.now) (move_of chosen.now) }
{
    match chosen {
        Move::Compare(first, second) => why_not_compare(system, *first, *second),
        Move::Top(number) => why_not_top(system, *number),
        Move::Same(one, other) => why_not_same(constants, system, one, other),
        Move::MoreEvents => why_not_more(system),
        _ => Some(Clause::AnotherCrate),
    }
}

fn cases(
    alloc: Global,
    signature: &Signature,
    constants: &Vec<Name>,
    rules: &RuleBook,
    system: &System,
    chosen: &Move,
) -> Result<Option<Vec<Case>>, AllocError>
    ensures { IfOk result (λ o. option_map (λ cs. map case_of cs.items) o
        ≡ deciding_cases (rules_of signature.now rules.now) (map name_of constants.now.items) (system_of system.now) (move_of chosen.now)) }
{
    match chosen {
        Move::Compare(first, second) => compare_cases(alloc, system, *first, *second),
        Move::Top(number) => top_cases(alloc, &signature.symbols, system, *number),
        Move::Same(one, other) => same_cases(alloc, constants, system, one, other),
        Move::MoreEvents => more_cases(alloc, rules, system),
        _ => Ok(None),
    }
}

/// The cases of a move that decides what is open, before they are simplified, or why it is no instance. The public names are those that stand in the theory.
///
/// # Errors
///
/// `AllocError` where memory is wanting, or no number is left.
pub fn apply(
    alloc: Global,
    signature: &Signature,
    constants: &Vec<Name>,
    rules: &RuleBook,
    system: &System,
    chosen: &Move,
) -> Result<Applied, AllocError>
    ensures why { IfOk result (λ a. failing a ≡ why_not_decide (map name_of constants.now.items) (system_of system.now) (move_of chosen.now)) }
    ensures gives { IfOk result (λ a. cases_of a
        ≡ deciding_cases (rules_of signature.now rules.now) (map name_of constants.now.items) (system_of system.now) (move_of chosen.now)) }
    ensures exact { HasCases (why_not_decide (map name_of constants.now.items) (system_of system.now) (move_of chosen.now))
        (deciding_cases (rules_of signature.now rules.now) (map name_of constants.now.items) (system_of system.now) (move_of chosen.now)) }
{
    match cases(alloc, signature, constants, rules, system, chosen)? {
        Some(cases) => Ok(Applied::Cases(cases)),
        None => match why_not(constants, system, chosen) {
            Some(clause) => Ok(Applied::NotAnInstance(clause)),
            None => unreachable!(),
        },
    }
}
