// Moves and cases.

ghost use Rattle.std.specs.Prelude.{◌≡◌, IfOk, map, option_map};
ghost use Rattle.sp_system.specs.SystemView.{system_of};
ghost use Rattle.sp_spec_system.specs.Move as spec;
ghost use Rattle.sp_spec_proof.specs.Cases as cases_spec;
ghost use Rattle.sp_step.specs.View.{context_of, rules_of, move_of, case_of};

use crate::context::{Context, Rules};
use crate::decided::is_decided;
use crate::simplify::{has_place, is_contradictory, simplify};
pub use sp_moves::moves::{Case, Move};
use sp_moves_decide::compare::compare_cases;
use sp_moves_decide::more::more_cases;
use sp_moves_decide::same::same_cases;
use sp_moves_decide::top::top_cases;
use sp_moves_formula::or::or_cases;
use sp_moves_formula::solving::solving_action;
use sp_moves_graph::premise::premise_cases;
use sp_moves_induction::induction::root_induction;
use sp_moves_know::chain::chain_cases;
use sp_moves_know::know::know_cases;
use sp_system::system::System;
use std::alloc::{AllocError, Global};

// The system itself, if some elementary move has a place.
fn unsimplified(
    alloc: Global,
    context: &Context,
    system: &System,
) -> Result<Option<Vec<Case>>, AllocError>
    ensures { IfOk result (λ o. option_map (λ cs. map case_of cs.items) o ≡ cases_spec.raw_cases (context_of context.now) (system_of system.now) spec.simplify) }
{
    if !has_place(alloc, &context.theory(), system)? {
        return Ok(None);
    }
    let name = String::new(alloc);
    let system = system.clone()?;
    let mut made = Vec::new(alloc);
    made.push(Case { name, system })?;
    Ok(Some(made))
}

// No case, if the search ends at the system.
fn ended(alloc: Global, context: &Context, system: &System) -> Result<Option<Vec<Case>>, AllocError>
    ensures { IfOk result (λ o. option_map (λ cs. map case_of cs.items) o ≡ cases_spec.raw_cases (context_of context.now) (system_of system.now) spec.solved) }
{
    if context.ends(alloc, system)? {
        Ok(Some(Vec::new(alloc)))
    } else {
        Ok(None)
    }
}

// No case, if nothing is left to decide.
fn finished(
    alloc: Global,
    context: &Context,
    system: &System,
) -> Result<Option<Vec<Case>>, AllocError>
    ensures { IfOk result (λ o. option_map (λ cs. map case_of cs.items) o ≡ cases_spec.raw_cases (context_of context.now) (system_of system.now) spec.finish) }
{
    if is_decided(alloc, context, system)? {
        Ok(Some(Vec::new(alloc)))
    } else {
        Ok(None)
    }
}

fn raw_cases(
    alloc: Global,
    context: &Context,
    system: &System,
    chosen: &Move,
) -> Result<Option<Vec<Case>>, AllocError>
    ensures { IfOk result (λ o. option_map (λ cs. map case_of cs.items) o ≡ cases_spec.raw_cases (context_of context.now) (system_of system.now) (move_of chosen.now)) }
{
    match chosen {
        Move::Simplify => {
            let made = unsimplified(alloc, context, system)?;
            Ok(made)
        }
        Move::Contradiction => {
            if is_contradictory(alloc, &context.theory(), system)? {
                Ok(Some(Vec::new(alloc)))
            } else {
                Ok(None)
            }
        }
        Move::Unproved => Ok(Some(Vec::new(alloc))),
        Move::Solved => ended(alloc, context, system),
        Move::Or(place) => or_cases(alloc, system, *place),
        Move::Action(place) => solving_action(alloc, context.rules, system, *place),
        Move::Premise(time, place) => premise_cases(alloc, context.rules, system, *time, *place),
        Move::Know(time) => {
            know_cases(
                alloc,
                context.sought.signature,
                context.rules,
                system,
                *time,
            )
        }
        Move::Chain(time) => chain_cases(alloc, context.sought.signature, system, *time),
        Move::Induction => root_induction(alloc, &context.sought.root, system),
        Move::Compare(first, second) => compare_cases(alloc, system, *first, *second),
        Move::Top(number) => {
            let symbols = &context.sought.signature.symbols;
            top_cases(alloc, symbols, system, *number)
        }
        Move::Same(one, other) => same_cases(alloc, context.sought.constants, system, one, other),
        Move::MoreEvents => more_cases(alloc, context.rules, system),
        Move::Finish => finished(alloc, context, system),
        // it has no cases as yet
        Move::Source(_) => Ok(None),
    }
}

fn simple_cases(alloc: Global, rules: &Rules, cases: Vec<Case>) -> Result<Vec<Case>, AllocError>
    ensures { IfOk result (λ cs. map case_of cs.items ≡ map (cases_spec.simple_case (rules_of rules.now)) (map case_of cases.items)) }
{
    let mut made = Vec::with_capacity(alloc, cases.len())?;
    for case in cases {
        let name = case.name;
        let mut system = case.system;
        simplify(alloc, rules, &mut system)?;
        made.push(Case { name, system })?;
    }
    Ok(made)
}

/// The cases of a move, simplified; none where it is no instance.
///
/// # Errors
///
/// `AllocError` where memory is wanting, or no number is left for a new variable.
pub fn cases(
    alloc: Global,
    context: &Context,
    system: &System,
    chosen: &Move,
) -> Result<Option<Vec<Case>>, AllocError>
    ensures { IfOk result (λ o. option_map (λ cs. map case_of cs.items) o ≡ cases_spec.cases (context_of context.now) (system_of system.now) (move_of chosen.now)) }
{
    let Some(raw) = raw_cases(alloc, context, system, chosen)? else {
        return Ok(None);
    };
    let made = simple_cases(alloc, &context.theory(), raw)?;
    Ok(Some(made))
}
