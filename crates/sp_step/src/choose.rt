// The move that is chosen for a system.

ghost use Rattle.std.specs.Prelude.{◌≡◌, IfOk, option_map};
ghost use Rattle.sp_spec_system.specs.Move as spec;
ghost use Rattle.sp_system.specs.SystemView.{system_of};
ghost use Rattle.sp_step.specs.View.{context_of, move_of};
ghost use Rattle.sp_spec_system.specs.Picked.{first_some};
ghost use Rattle.sp_spec_proof.specs.Choice.{choice, first_instance, picked};
ghost use Rattle.sp_spec_proof.specs.Deciding.{sames};
ghost use Rattle.sp_spec_proof.specs.Kinds.{are_consecutive, at_each_formula, event_pickers, first_pickers};
ghost use Rattle.sp_step.specs.Choosing.{answer, asked, by_kinds, last_of_all, ranked_of};

use crate::context::Context;
use crate::events::{EVENT_KINDS, EventKind, first_at_events, first_of_one_kind};
use crate::learning::LearningKind;
use crate::simplify::{is_contradictory, is_reducible};
use sp_moves::moves::Move;
use sp_moves_formula::action::is_solvable;
use sp_moves_formula::or::is_disjunction;
use sp_moves_induction::induction::is_inductive;
use sp_system::system::System;
use sp_undecided::messages::first_top;
use sp_undecided::sides::first_same;
use sp_undecided::times::{first_comparison, first_told_comparison};
use std::alloc::{AllocError, Global};

/// A move that is chosen, and the rank of its kind.
#[derive(Debug, PartialEq, Eq, Drop)]
pub struct Ranked {
    /// the rank
    pub rank: u64,
    /// the move
    pub chosen: Move,
}

/// A kind of moves.
#[derive(Clone, Copy)]
pub enum MoveKind {
    /// the system has no solution
    Contradiction,
    /// elementary moves
    Simplify,
    /// the end of the search
    Solved,
    /// on a disjunction
    Or,
    /// on an action
    Action,
    /// at an event, of one kind
    AtEvent(EventKind),
    /// at an event, of any kind
    AtAnyEvent,
    /// on two times of which a formula says that they aren't one, or that the one isn't before the other
    ToldComparison,
    /// on two times
    Comparison,
    /// on two terms that stand for names
    Same,
    /// whether something more happens
    MoreEvents,
    /// on a message variable
    Top,
}

// The kinds before those at events, and their ranks, in the order in which they are asked: induction comes before them.
const KINDS: [(u64, MoveKind); 5] = [
    (1, MoveKind::Contradiction),
    (2, MoveKind::Simplify),
    (3, MoveKind::Solved),
    (4, MoveKind::Or),
    (5, MoveKind::Action),
];

// The kinds at events, one after the other.
const ONE_BY_ONE: [(u64, MoveKind); 5] = [
    (
        6,
        MoveKind::AtEvent(EventKind::Learning(LearningKind::Chain)),
    ),
    (7, MoveKind::AtEvent(EventKind::Premise)),
    (
        8,
        MoveKind::AtEvent(EventKind::Learning(LearningKind::Fresh)),
    ),
    (
        9,
        MoveKind::AtEvent(EventKind::Learning(LearningKind::Application)),
    ),
    (
        10,
        MoveKind::AtEvent(EventKind::Learning(LearningKind::VariableChain)),
    ),
];

// The same as one.
const CONSECUTIVE: [(u64, MoveKind); 1] = [(6, MoveKind::AtAnyEvent)];

// The kinds that decide what is left open, and their ranks, in the order in which they are asked.
const DECIDING: [(u64, MoveKind); 5] = [
    (11, MoveKind::ToldComparison),
    (12, MoveKind::Comparison),
    (13, MoveKind::Same),
    (14, MoveKind::MoreEvents),
    (15, MoveKind::Top),
];

/// The first instance of the first kind of moves that has one, with the rank of that kind; none where no kind has one.
///
/// # Errors
///
/// `AllocError` where memory is wanting, or no number is left for a new variable.
pub fn choice(
    alloc: Global,
    context: &Context,
    system: &System,
) -> Result<Option<Ranked>, AllocError>
    ensures { IfOk result (λ o. option_map ranked_of o ≡ choice (context_of context.now) (system_of system.now)) }
{
    if let Some(chosen) = first_of_all(alloc, context, system)? {
        return Ok(Some(chosen));
    }
    if let Some(chosen) = by_kinds(alloc, context, system)? {
        return Ok(Some(chosen));
    }
    Ok(last_of_all(system))
}

// Induction, where the proof is to begin with it and the system is its root.
fn first_of_all(
    alloc: Global,
    context: &Context,
    system: &System,
) -> Result<Option<Ranked>, AllocError>
    ensures { IfOk result (λ o. option_map ranked_of o ≡ first_some (picked (context_of context.now) (system_of system.now)) (first_pickers (context_of context.now).root)) }
{
    if !context.sought.root.begins_with_induction {
        return Ok(None);
    }
    if !is_inductive(alloc, &context.sought.root, system)? {
        return Ok(None);
    }
    let chosen = Move::Induction;
    Ok(Some(Ranked { rank: 0, chosen }))
}

/// The first instance of the first kind but `finish` that has one, with the rank of that kind.
///
/// # Errors
///
/// `AllocError` where memory is wanting, or no number is left for a new variable.
pub fn by_kinds(
    alloc: Global,
    context: &Context,
    system: &System,
) -> Result<Option<Ranked>, AllocError>
    ensures { IfOk result (λ o. option_map ranked_of o ≡ by_kinds (context_of context.now) (system_of system.now)) }
{
    if let Some(chosen) = first_kind(alloc, context, system, &KINDS)? {
        return Ok(Some(chosen));
    }
    if let Some(chosen) = at_events(alloc, context, system)? {
        return Ok(Some(chosen));
    }
    let chosen = first_kind(alloc, context, system, &DECIDING)?;
    Ok(chosen)
}

// The kinds at events, which count as one where the proof is asked to be consecutive.
fn at_events(
    alloc: Global,
    context: &Context,
    system: &System,
) -> Result<Option<Ranked>, AllocError>
    ensures { IfOk result (λ o. option_map ranked_of o
        ≡ first_some (picked (context_of context.now) (system_of system.now)) (event_pickers (are_consecutive (context_of context.now).root))) }
{
    if context.sought.root.consecutive {
        let chosen = first_kind(alloc, context, system, &CONSECUTIVE)?;
        Ok(chosen)
    } else {
        let chosen = first_kind(alloc, context, system, &ONE_BY_ONE)?;
        Ok(chosen)
    }
}

// The end of the search, where no other kind has an instance.
fn last_of_all(system: &System) -> Option<Ranked>
    ensures { option_map ranked_of result ≡ last_of_all (system_of system.now) }
{
    if !system.closed {
        return None;
    }
    let chosen = Move::Finish;
    Some(Ranked { rank: 16, chosen })
}

// The first instance of the first of these kinds that has one.
fn first_kind(
    alloc: Global,
    context: &Context,
    system: &System,
    kinds: &[(u64, MoveKind)],
) -> Result<Option<Ranked>, AllocError>
    ensures { IfOk result (λ o. option_map ranked_of o ≡ first_some (answer (context_of context.now) (system_of system.now)) kinds.now) }
{
    for (rank, kind) in kinds {
        if let Some(chosen) = asked(alloc, context, system, *kind)? {
            let rank = *rank;
            return Ok(Some(Ranked { rank, chosen }));
        }
    }
    Ok(None)
}

// The kind's first instance, where the kinds before it have none.
fn asked(
    alloc: Global,
    context: &Context,
    system: &System,
    kind: MoveKind,
) -> Result<Option<Move>, AllocError>
    ensures { IfOk result (λ o. option_map move_of o ≡ asked (context_of context.now) (system_of system.now) kind) }
{
    match kind {
        MoveKind::Contradiction => {
            let holds = is_contradictory(alloc, &context.theory(), system)?;
            Ok(holds.then_some(Move::Contradiction))
        }
        MoveKind::Simplify => {
            let applies = is_reducible(alloc, &context.theory(), system)?;
            Ok(applies.then_some(Move::Simplify))
        }
        MoveKind::Solved => {
            let ends = context.ends(alloc, system)?;
            Ok(ends.then_some(Move::Solved))
        }
        MoveKind::Or => Ok(first_disjunction(system)),
        MoveKind::Action => first_action(alloc, system),
        MoveKind::AtEvent(kind) => first_of_one_kind(alloc, context, system, kind),
        MoveKind::AtAnyEvent => first_at_events(alloc, context, system, &EVENT_KINDS),
        MoveKind::ToldComparison => first_told_comparison(alloc, system),
        MoveKind::Comparison => first_comparison(alloc, system),
        MoveKind::Same => undecided_names(alloc, context, system),
        MoveKind::MoreEvents => Ok((!system.closed).then_some(Move::MoreEvents)),
        MoveKind::Top => Ok(first_top(system)),
    }
}

// The public names are those of the context.
fn undecided_names(
    alloc: Global,
    context: &Context,
    system: &System,
) -> Result<Option<Move>, AllocError>
    ensures { IfOk result (λ o. option_map move_of o
        ≡ first_instance (context_of context.now) (system_of system.now) (sames (context_of context.now) (system_of system.now))) }
{
    let chosen = first_same(alloc, context.sought.constants, system)?;
    Ok(chosen)
}

fn first_disjunction(system: &System) -> Option<Move>
    ensures { (context : spec.Context) → option_map move_of result ≡ first_instance context (system_of system.now) (at_each_formula spec.or context (system_of system.now)) }
{
    for (place, formula) in system.formulas.iter().enumerate() {
        if is_disjunction(formula.formula()) {
            return Some(Move::Or(place as u128));
        }
    }
    None
}

fn first_action(alloc: Global, system: &System) -> Result<Option<Move>, AllocError>
    ensures { IfOk result (λ o. (context : spec.Context) → option_map move_of o ≡ first_instance context (system_of system.now) (at_each_formula spec.action context (system_of system.now))) }
{
    for (place, formula) in system.formulas.iter().enumerate() {
        if is_solvable(alloc, formula.formula())? {
            return Ok(Some(Move::Action(place as u128)));
        }
    }
    Ok(None)
}
