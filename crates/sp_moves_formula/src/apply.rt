// The cases of a move, or why it is no instance.

ghost use Rattle.std.specs.Prelude.{◌≡◌, Some, IfOk, map, option_map};
ghost use Rattle.sp_formula.specs.FormulaView.{formula_of};
ghost use Rattle.sp_system.specs.SystemView.{system_of};
ghost use Rattle.sp_moves.specs.View.{case_of, move_of};
ghost use Rattle.sp_book.specs.BookView.{book_of};
ghost use Rattle.sp_moves_formula.specs.WhyNot.{why_no_disjunction, why_no_action, why_not_formula, formula_cases};
ghost use Rattle.sp_moves.specs.Clause.{HasCases};
ghost use Rattle.sp_moves.specs.Applied.{clause_of, cases_of, failing};

use crate::or::or_cases;
use crate::solving::solving_action;
use sp_book::book::RuleBook;
use sp_formula::formula::{Atom, Formula, Moment};
use sp_moves::applied::{Applied, Clause};
use sp_moves::moves::{Case, Move, formula_at};
use sp_system::freed::freed_action;
use sp_system::system::System;
use std::alloc::{AllocError, Global};

fn why_no_disjunction(formula: &Formula) -> Option<Clause>
    ensures { option_map clause_of result ≡ why_no_disjunction (Some (formula_of formula.now)) }
{
    match formula {
        Formula::OneOf(_) => None,
        _ => Some(Clause::OtherKind),
    }
}

fn why_no_action(alloc: Global, formula: &Formula) -> Result<Option<Clause>, AllocError>
    ensures { IfOk result (λ o. option_map clause_of o ≡ why_no_action (Some (formula_of formula.now))) }
{
    match formula {
        Formula::Holds(Atom::Acts(action, Moment::Free(_))) => {
            if freed_action(alloc, action)?.is_none() {
                return Ok(Some(Clause::OtherKind));
            }
            Ok(None)
        }
        _ => Ok(Some(Clause::OtherKind)),
    }
}

/// Why a move that takes up a formula is no instance, if it is none.
///
/// # Errors
///
/// `AllocError` where memory is wanting.
pub fn why_not(alloc: Global, system: &System, chosen: &Move) -> Result<Option<Clause>, AllocError>
    ensures { IfOk result (λ o. option_map clause_of o ≡ why_not_formula (system_of system.now) (move_of chosen.now)) }
{
    match chosen {
        Move::Or(place) => match formula_at(system, *place) {
            Some(formula) => Ok(why_no_disjunction(formula)),
            None => Ok(Some(Clause::Absent)),
        },
        Move::Action(place) => match formula_at(system, *place) {
            Some(formula) => why_no_action(alloc, formula),
            None => Ok(Some(Clause::Absent)),
        },
        _ => Ok(Some(Clause::AnotherCrate)),
    }
}

fn cases(
    alloc: Global,
    rules: &RuleBook,
    system: &System,
    chosen: &Move,
) -> Result<Option<Vec<Case>>, AllocError>
    ensures { IfOk result (λ o. option_map (λ cs. map case_of cs.items) o ≡ formula_cases (book_of rules.now) (system_of system.now) (move_of chosen.now)) }
{
    match chosen {
        Move::Or(place) => or_cases(alloc, system, *place),
        Move::Action(place) => solving_action(alloc, rules, system, *place),
        _ => Ok(None),
    }
}

/// The cases of a move that takes up a formula, before they are simplified, or why it is no instance.
///
/// # Errors
///
/// `AllocError` where memory is wanting, or no number is left.
pub fn apply(
    alloc: Global,
    rules: &RuleBook,
    system: &System,
    chosen: &Move,
) -> Result<Applied, AllocError>
    ensures why { IfOk result (λ a. failing a ≡ why_not_formula (system_of system.now) (move_of chosen.now)) }
    ensures gives { IfOk result (λ a. cases_of a ≡ formula_cases (book_of rules.now) (system_of system.now) (move_of chosen.now)) }
    ensures exact { HasCases (why_not_formula (system_of system.now) (move_of chosen.now)) (formula_cases (book_of rules.now) (system_of system.now) (move_of chosen.now)) }
{
    match cases(alloc, rules, system, chosen)? {
        Some(cases) => Ok(Applied::Cases(cases)),
        None => match why_not(alloc, system, chosen)? {
            Some(clause) => Ok(Applied::NotAnInstance(clause)),
            None => unreachable!(),
        },
    }
}
