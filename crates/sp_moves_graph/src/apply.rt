// The cases of a move on a premise, or why it is no instance.

ghost use Rattle.std.specs.Prelude.{◌≡◌, ◌||◌, Some, IfOk, map, option_map};
ghost use Rattle.sp_fact.specs.View.{fact_of};
ghost use Rattle.sp_book.specs.BookView.{book_of};
ghost use Rattle.sp_spec.specs.Log.{is_fr, is_in};
ghost use Rattle.sp_system.specs.SystemView.{event_of, system_of};
ghost use Rattle.sp_spec_graph.specs.Premise as spec;
ghost use Rattle.sp_moves.specs.View.{case_of, move_of};
ghost use Rattle.sp_moves.specs.Applied.{clause_of, cases_of, failing};
ghost use Rattle.sp_moves.specs.Clause.{HasCases};
ghost use Rattle.sp_moves_graph.specs.WhyNot.{why_not_open, why_not_of, why_not_graph, graph_cases};

use crate::premise::{Premise, premise_cases};
use sp_book::book::RuleBook;
use sp_fact::fact::Fact;
use sp_learnings::premise::{is_fresh, is_linked, is_received};
use sp_moves::applied::{Applied, Clause};
use sp_moves::moves::{Case, Move, place_in};
use sp_moves::times::has_time;
use sp_system::at_time::event_at;
use sp_system::event::{Event, What};
use sp_system::system::System;
use std::alloc::{AllocError, Global};

// Whether the premise needs no step for its source.
fn is_closed(system: &System, premise: Premise, fact: &Fact) -> bool
    ensures { result ≡ (spec.is_linked (system_of system.now).links premise.time premise.place || (is_fr (fact_of fact.now) || is_in (fact_of fact.now))) }
{
    is_linked(&system.links, premise.time, premise.place) || is_fresh(fact) || is_received(fact)
}

fn why_not_open(system: &System, premise: Premise, fact: Option<&Fact>) -> Option<Clause>
    ensures { option_map clause_of result ≡ why_not_open (system_of system.now) premise.time premise.place (option_map (λ f. fact_of f.now) fact.entry) }
{
    match fact {
        None => Some(Clause::Absent),
        Some(fact) => {
            if is_closed(system, premise, fact) {
                Some(Clause::Condition)
            } else {
                None
            }
        }
    }
}

fn why_not_of(system: &System, time: u128, place: u128, event: &Event) -> Option<Clause>
    ensures { option_map clause_of result ≡ why_not_of (system_of system.now) time place (Some (event_of event.now)) }
{
    let What::Rule(_) = event.what() else {
        return Some(Clause::OtherKind);
    };
    match place_in(event.premises(), place) {
        Some(place) => {
            let fact = event.premises().get(place);
            why_not_open(system, Premise { time, place }, fact)
        }
        None => Some(Clause::Absent),
    }
}

/// Why a move that takes up a premise is no instance, if it is none.
pub fn why_not(system: &System, chosen: &Move) -> Option<Clause>
    ensures { option_map clause_of result ≡ why_not_graph (system_of system.now) (move_of chosen.now) }
{
    let Move::Premise(time, place) = chosen else {
        return Some(Clause::AnotherCrate);
    };
    if !has_time(*time, system) {
        return Some(Clause::Absent);
    }
    match event_at(*time, &system.events) {
        Some(event) => why_not_of(system, *time, *place, event),
        None => Some(Clause::OtherKind),
    }
}

fn cases(
    alloc: Global,
    rules: &RuleBook,
    system: &System,
    chosen: &Move,
) -> Result<Option<Vec<Case>>, AllocError>
    ensures { IfOk result (λ o. option_map (λ cs. map case_of cs.items) o ≡ graph_cases (book_of rules.now) (system_of system.now) (move_of chosen.now)) }
{
    match chosen {
        Move::Premise(time, place) => premise_cases(alloc, rules, system, *time, *place),
        _ => Ok(None),
    }
}

/// The cases of a move that takes up a premise, before they are simplified, or why it is no instance.
///
/// # Errors
///
/// `AllocError` where memory is wanting, or no number is left.
pub fn apply(
    alloc: Global,
    rules: &RuleBook,
    system: &System,
    chosen: &Move,
) -> Result<Applied, AllocError>
    ensures why { IfOk result (λ a. failing a ≡ why_not_graph (system_of system.now) (move_of chosen.now)) }
    ensures gives { IfOk result (λ a. cases_of a ≡ graph_cases (book_of rules.now) (system_of system.now) (move_of chosen.now)) }
    ensures exact { HasCases (why_not_graph (system_of system.now) (move_of chosen.now)) (graph_cases (book_of rules.now) (system_of system.now) (move_of chosen.now)) }
{
    match cases(alloc, rules, system, chosen)? {
        Some(cases) => Ok(Applied::Cases(cases)),
        None => match why_not(system, chosen) {
            Some(clause) => Ok(Applied::NotAnInstance(clause)),
            None => unreachable!(),
        },
    }
}
