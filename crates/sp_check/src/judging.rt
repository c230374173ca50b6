// Trees that were read are judged.

ghost use Rattle.std.specs.Prelude.{◌≡◌, ◌+◌, [], ◌∷◌, ◌++◌, Some, None, IfOk, OnOk, MatchOption, List, map, option_map, string_bytes};
ghost use Rattle.sp_system.specs.SystemView.{system_of};
ghost use Rattle.sp_spec_proof.specs.Cases as moves;
ghost use Rattle.sp_spec_proof.specs.Tree as tree;
ghost use Rattle.sp_learn.specs.View.{log_of};
ghost use Rattle.sp_step.specs.View.{context_of, move_of, case_of};
ghost use Rattle.sp_check.specs.Judging as spec;
ghost use Rattle.sp_check.specs.Nodes.{NodeRead, walk_all};
ghost use Rattle.sp_check.specs.View.{step_of, node_of, skeleton_of, systems_of, judgement_of, checked_of, walked_of};
ghost use Rattle.sp_spec_system.specs.Move.{end_log, systems_in};

use crate::counts::has_open;
use crate::skeleton::{Node, Skeleton, Step};
use sp_learn::log::Log;
use sp_step::context::Context;
use sp_step::moves::{Case, Move, cases};
use sp_system::system::System;
use std::alloc::{AllocError, Global};
use thiserror::Error;

/// What a step fails of.
#[derive(Clone, Copy, Debug, PartialEq, Eq, Error)]
pub enum Clause {
    /// its text is no move's
    #[error("the text of the step is that of no move")]
    Move,
    /// its move is no instance here
    #[error("the move cannot be made here")]
    Instance,
    /// its branches don't have the names of the move's cases, in their order
    #[error("the branches are not the cases of the move, in their order")]
    Cases,
}

/// What comes of a tree that was read.
#[derive(Drop)]
pub enum Judgement {
    /// the first step that fails, counted from 1 in preorder, and the first clause that it fails of
    Rejected(u64, Clause),
    /// the tree is accepted, and this is the log of its first leaf with which the search ends
    Found(Log),
    /// the tree is accepted, and no leaf is left
    Finished,
    /// the tree is accepted, the search ends nowhere, and some leaf is open
    Incomplete,
}

// A node by itself.
#[derive(Drop)]
enum Checked {
    Fails(Clause),
    LeadsTo(Vec<Case>),
    EndsWith(Log),
}

// The nodes that have been met: how many, and the first log with which the search ends at one of them.
#[derive(Drop)]
struct Seen {
    nodes: u64,
    log: Option<Log>,
}

// A walk over nodes: none of them fails; or the one of this number does.
#[derive(Drop)]
enum NodesJudged {
    Passed(Seen),
    Stopped(u64, Clause),
}

fn are_named(cases: &Vec<Case>, names: &Vec<String>) -> bool
    ensures { result ≡ spec.are_named (map case_of cases.now.items) (map string_bytes names.now.items) }
{
    if cases.len() != names.len() {
        return false;
    }
    for (case, name) in cases.iter().zip(names) {
        if case.name != *name {
            return false;
        }
    }
    true
}

// The branches' names against these cases.
fn names_checked(found: Vec<Case>, names: &Vec<String>) -> Checked
    ensures { checked_of result ≡ spec.names_checked (map string_bytes names.now.items) (map case_of found.items) }
{
    if are_named(&found, names) {
        Checked::LeadsTo(found)
    } else {
        Checked::Fails(Clause::Cases)
    }
}

fn cases_checked(
    alloc: Global,
    context: &Context,
    system: &System,
    chosen: &Move,
    names: &Vec<String>,
) -> Result<Checked, AllocError>
    ensures { IfOk result (λ c. checked_of c ≡ spec.cases_checked (map string_bytes names.now.items) (moves.cases (context_of context.now) (system_of system.now) (move_of chosen.now))) }
{
    match cases(alloc, context, system, chosen)? {
        Some(found) => Ok(names_checked(found, names)),
        None => Ok(Checked::Fails(Clause::Instance)),
    }
}

// The search is said to end here.
fn log_checked(
    alloc: Global,
    context: &Context,
    system: &System,
    names: &Vec<String>,
) -> Result<Checked, AllocError>
    ensures { IfOk result (λ c. checked_of c ≡ spec.log_checked (map string_bytes names.now.items) (end_log (context_of context.now) (system_of system.now))) }
{
    let Some(log) = context.found(alloc, system)? else {
        return Ok(Checked::Fails(Clause::Instance));
    };
    let none = Vec::new(alloc);
    if are_named(&none, names) {
        Ok(Checked::EndsWith(log))
    } else {
        Ok(Checked::Fails(Clause::Cases))
    }
}

fn move_checked(
    alloc: Global,
    context: &Context,
    system: &System,
    chosen: &Move,
    names: &Vec<String>,
) -> Result<Checked, AllocError>
    ensures { IfOk result (λ c. checked_of c ≡ spec.move_checked (context_of context.now) (system_of system.now) (move_of chosen.now) (map string_bytes names.now.items)) }
{
    match chosen {
        Move::Solved => log_checked(alloc, context, system, names),
        other => cases_checked(alloc, context, system, other, names),
    }
}

fn node_checked(
    alloc: Global,
    context: &Context,
    system: &System,
    node: &Node,
) -> Result<Checked, AllocError>
    ensures { IfOk result (λ c. checked_of c ≡ spec.step_checked (context_of context.now) (system_of system.now) (step_of node.now.step) (map string_bytes node.now.cases.items)) }
{
    match &node.step {
        Step::Known(chosen) => move_checked(alloc, context, system, chosen, &node.cases),
        Step::Unknown(_) => Ok(Checked::Fails(Clause::Move)),
    }
}

fn next(before: u64) -> Result<u64, AllocError>
    ensures { IfOk result (λ n. n ≡ before + 1) }
{
    match before.checked_add(1) {
        Some(number) => Ok(number),
        None => Err(AllocError),
    }
}

fn first_log(met: Option<Log>, log: Log) -> Option<Log>
    ensures { option_map log_of result ≡ tree.first_log (option_map log_of met) (Some (log_of log)) }
{
    match met {
        Some(first) => Some(first),
        None => Some(log),
    }
}

// Takes the system that is awaited next, which is the last.
fn pop_system(awaited: &mut Vec<System>) -> Option<System>
    ensures { MatchOption result (systems_of awaited.old.items ≡ []) (λ s. systems_of awaited.old.items ≡ system_of s ∷ systems_of awaited.new.items) }
{
    awaited.pop()
}

// Puts the system of a case before those that are awaited.
fn push_system(awaited: &mut Vec<System>, case: Case) -> Result<(), AllocError>
    ensures { OnOk result (systems_of awaited.new.items ≡ (case_of case).system ∷ systems_of awaited.old.items) }
{
    awaited.push(case.system)?;
    Ok(())
}

fn push_systems(awaited: &mut Vec<System>, mut cases: Vec<Case>) -> Result<(), AllocError>
    ensures { OnOk result (systems_of awaited.new.items ≡ systems_in (map case_of cases.items) ++ systems_of awaited.old.items) }
{
    while let Some(case) = cases.pop() {
        push_system(awaited, case)?;
    }
    Ok(())
}

// The node for which this system is awaited, behind the nodes that have been met.
fn walk_node(
    alloc: Global,
    context: &Context,
    system: &System,
    node: &Node,
    met: Seen,
    awaited: &mut Vec<System>,
) -> Result<NodesJudged, AllocError>
    ensures { IfOk result (λ w. (ns : List NodeRead) → spec.walked_on (walked_of w) (λ n log. walk_all (context_of context.now) n log (systems_of awaited.new.items) ns) ≡ walk_all (context_of context.now) met.nodes (option_map log_of met.log) (system_of system.now ∷ systems_of awaited.old.items) (node_of node.now ∷ ns)) }
{
    let nodes = next(met.nodes)?;
    match node_checked(alloc, context, system, node)? {
        Checked::Fails(clause) => Ok(NodesJudged::Stopped(nodes, clause)),
        Checked::EndsWith(log) => {
            let log = first_log(met.log, log);
            Ok(NodesJudged::Passed(Seen { nodes, log }))
        }
        Checked::LeadsTo(cases) => {
            let log = met.log;
            push_systems(awaited, cases)?;
            Ok(NodesJudged::Passed(Seen { nodes, log }))
        }
    }
}

// The nodes one behind the other: the systems are awaited of the trees that begin at the next one.
fn walk(
    alloc: Global,
    context: &Context,
    root: System,
    skeleton: &Skeleton,
) -> Result<NodesJudged, AllocError>
    ensures { IfOk result (λ w. walked_of w ≡ spec.walk (context_of context.now) 0 None (system_of root) (skeleton_of skeleton.now)) }
{
    let mut awaited = vec![in alloc; root]?;
    let mut met = Seen {
        nodes: 0,
        log: None,
    };
    for node in &skeleton.nodes {
        // (there is one for each node, since they are the nodes of one tree)
        let Some(system) = pop_system(&mut awaited) else {
            return Ok(NodesJudged::Passed(met));
        };
        match walk_node(alloc, context, &system, node, met, &mut awaited)? {
            NodesJudged::Passed(now) => met = now,
            NodesJudged::Stopped(number, clause) => return Ok(NodesJudged::Stopped(number, clause)),
        }
    }
    Ok(NodesJudged::Passed(met))
}

/// What comes of a tree that was read, for this system.
///
/// # Errors
///
/// `AllocError` where memory is wanting, or no number is left for a new variable or a step.
pub fn judge(
    alloc: Global,
    context: &Context,
    root: System,
    skeleton: &Skeleton,
) -> Result<Judgement, AllocError>
    ensures { IfOk result (λ j. judgement_of j ≡ spec.judgement (context_of context.now) (system_of root) (skeleton_of skeleton.now)) }
{
    let met = match walk(alloc, context, root, skeleton)? {
        NodesJudged::Stopped(number, clause) => return Ok(Judgement::Rejected(number, clause)),
        NodesJudged::Passed(met) => met,
    };
    match met.log {
        Some(log) => Ok(Judgement::Found(log)),
        None => {
            if has_open(skeleton) {
                Ok(Judgement::Incomplete)
            } else {
                Ok(Judgement::Finished)
            }
        }
    }
}
