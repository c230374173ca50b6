// The cases of a move on what is learnt, or why it is no instance.

ghost use Rattle.std.specs.Prelude.{◌≡◌, Some, IfOk, map, option_map};
ghost use Rattle.sp_fact.specs.GroundView.{symbol_of};
ghost use Rattle.sp_system.specs.SystemView.{event_of, system_of};
ghost use Rattle.sp_moves.specs.View.{case_of, move_of};
ghost use Rattle.sp_moves.specs.Applied.{clause_of, cases_of, failing};
ghost use Rattle.sp_moves.specs.Clause.{HasCases};
ghost use Rattle.sp_moves_know.specs.RulesView.{rules_of};
ghost use Rattle.sp_moves_know.specs.WhyNot.{why_not_known, why_not_know, why_not_chained, why_not_chain, why_not_learning, learning_cases};

use crate::chain::chain_cases;
use crate::know::{is_unasked, know_cases, learnt_anyhow};
use sp_book::book::RuleBook;
use sp_fact::signature::{Signature, Symbol};
use sp_moves::applied::{Applied, Clause};
use sp_moves::moves::{Case, Move};
use sp_moves::times::has_time;
use sp_system::at_time::event_at;
use sp_system::event::{Event, What};
use sp_system::system::System;
use sp_system::way::Way;
use std::alloc::{AllocError, Global};

// Why it isn't asked how the event learns a message.
fn why_not_known(
    alloc: Global,
    symbols: &Vec<Symbol>,
    event: &Event,
) -> Result<Option<Clause>, AllocError>
    ensures { IfOk result (λ o. option_map clause_of o ≡ why_not_known (map symbol_of symbols.now.items) (Some (event_of event.now))) }
{
    let Some(message) = learnt_anyhow(event) else {
        return Ok(Some(Clause::OtherKind));
    };
    if is_unasked(alloc, symbols, message)? {
        Ok(Some(Clause::Condition))
    } else {
        Ok(None)
    }
}

// Why no chain goes on at the event.
fn why_not_chained(event: &Event) -> Option<Clause>
    ensures { option_map clause_of result ≡ why_not_chained (Some (event_of event.now)) }
{
    match event.what() {
        What::Learn(_, Way::ChainBegun(chain)) if !chain.messages.is_empty() => None,
        _ => Some(Clause::OtherKind),
    }
}

fn why_not_know(
    alloc: Global,
    symbols: &Vec<Symbol>,
    system: &System,
    time: u128,
) -> Result<Option<Clause>, AllocError>
    ensures { IfOk result (λ o. option_map clause_of o ≡ why_not_know (map symbol_of symbols.now.items) (system_of system.now) time) }
{
    if !has_time(time, system) {
        return Ok(Some(Clause::Absent));
    }
    match event_at(time, &system.events) {
        Some(event) => why_not_known(alloc, symbols, event),
        None => Ok(Some(Clause::OtherKind)),
    }
}

fn why_not_chain(system: &System, time: u128) -> Option<Clause>
    ensures { option_map clause_of result ≡ why_not_chain (system_of system.now) time }
{
    if !has_time(time, system) {
        return Some(Clause::Absent);
    }
    match event_at(time, &system.events) {
        Some(event) => why_not_chained(event),
        None => Some(Clause::OtherKind),
    }
}

/// Why a move on what is learnt is no instance, if it is none.
///
/// # Errors
///
/// `AllocError` where memory is wanting.
pub fn why_not(
    alloc: Global,
    symbols: &Vec<Symbol>,
    system: &System,
    chosen: &Move,
) -> Result<Option<Clause>, AllocError>
    ensures { IfOk result (λ o. option_map clause_of o ≡ why_not_learning (map symbol_of symbols.now.items) (system_of system.now) (move_of chosen.now)) }
{
    match chosen {
        Move::Know(time) => why_not_know(alloc, symbols, system, *time),
        Move::Chain(time) => Ok(why_not_chain(system, *time)),
        _ => Ok(Some(Clause::AnotherCrate)),
    }
}

fn cases(
    alloc: Global,
    signature: &Signature,
    rules: &RuleBook,
    system: &System,
    chosen: &Move,
) -> Result<Option<Vec<Case>>, AllocError>
    ensures { IfOk result (λ o. option_map (λ cs. map case_of cs.items) o
        ≡ learning_cases (rules_of signature.now rules.now) (system_of system.now) (move_of chosen.now)) }
{
    match chosen {
        Move::Know(time) => know_cases(alloc, signature, rules, system, *time),
        Move::Chain(time) => chain_cases(alloc, signature, system, *time),
        _ => Ok(None),
    }
}

/// The cases of a move on what is learnt, before they are simplified, or why it is no instance.
///
/// # Errors
///
/// `AllocError` where memory is wanting, or no number is left.
pub fn apply(
    alloc: Global,
    signature: &Signature,
    rules: &RuleBook,
    system: &System,
    chosen: &Move,
) -> Result<Applied, AllocError>
    ensures why { IfOk result (λ a. failing a ≡ why_not_learning (map symbol_of signature.now.symbols.items) (system_of system.now) (move_of chosen.now)) }
    ensures gives { IfOk result (λ a. cases_of a ≡ learning_cases (rules_of signature.now rules.now) (system_of system.now) (move_of chosen.now)) }
    ensures exact { HasCases (why_not_learning (map symbol_of signature.now.symbols.items) (system_of system.now) (move_of chosen.now))
        (learning_cases (rules_of signature.now rules.now) (system_of system.now) (move_of chosen.now)) }
{
    match cases(alloc, signature, rules, system, chosen)? {
        Some(cases) => Ok(Applied::Cases(cases)),
        None => match why_not(alloc, &signature.symbols, system, chosen)? {
            Some(clause) => Ok(Applied::NotAnInstance(clause)),
            None => unreachable!(),
        },
    }
}
