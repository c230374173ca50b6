// The cases of a move, simplified, or why it is no instance.

ghost use Rattle.std.specs.Prelude.{◌≡◌, IfOk, map, option_map};
ghost use Rattle.sp_term.specs.View.{name_of};
ghost use Rattle.sp_fact.specs.GroundView.{symbol_of};
ghost use Rattle.sp_system.specs.SystemView.{system_of};
ghost use Rattle.sp_spec_proof.specs.Cases as spec;
ghost use Rattle.sp_moves.specs.Applied.{clause_of, cases_of, failing};
ghost use Rattle.sp_moves.specs.Clause.{HasCases};
ghost use Rattle.sp_step.specs.View.{context_of};
ghost use Rattle.sp_moves.specs.View.{move_of};
ghost use Rattle.sp_step.specs.WhyNot.{IsAsked, why_not, where_none};

use crate::context::Context;
use crate::moves::{Move, cases};
use sp_fact::signature::Symbol;
pub use sp_moves::applied::{Applied, Clause};
use sp_moves_decide::apply as decide;
use sp_moves_formula::apply as formula;
use sp_moves_graph::apply as graph;
use sp_moves_know::apply as know;
use sp_system::system::System;
use sp_term::term::Name;
use std::alloc::{AllocError, Global};

// Why a move without cases is no instance.
fn where_none(
    alloc: Global,
    symbols: &Vec<Symbol>,
    constants: &Vec<Name>,
    system: &System,
    chosen: &Move,
) -> Result<Option<Clause>, AllocError>
    ensures { IfOk result (λ o. option_map clause_of o
        ≡ where_none (map symbol_of symbols.now.items) (map name_of constants.now.items) (system_of system.now) (move_of chosen.now)) }
{
    match chosen {
        Move::Or(_) | Move::Action(_) => formula::why_not(alloc, system, chosen),
        Move::Premise(..) => Ok(graph::why_not(system, chosen)),
        Move::Know(_) | Move::Chain(_) => know::why_not(alloc, symbols, system, chosen),
        Move::Compare(..) | Move::Top(_) | Move::Same(..) | Move::MoreEvents => {
            Ok(decide::why_not(constants, system, chosen))
        }
        _ => Ok(Some(Clause::Condition)),
    }
}

/// The cases of a move, simplified, or why it is no instance: never since it is another crate's.
///
/// # Errors
///
/// `AllocError` where memory is wanting, or no number is left for a new variable.
pub fn apply(
    alloc: Global,
    context: &Context,
    system: &System,
    chosen: &Move,
) -> Result<Applied, AllocError>
    ensures why { IfOk result (λ a. failing a ≡ why_not (context_of context.now) (system_of system.now) (move_of chosen.now)) }
    ensures gives { IfOk result (λ a. cases_of a ≡ spec.cases (context_of context.now) (system_of system.now) (move_of chosen.now)) }
    ensures exact { HasCases (why_not (context_of context.now) (system_of system.now) (move_of chosen.now)) (spec.cases (context_of context.now) (system_of system.now) (move_of chosen.now)) }
    ensures asked { IsAsked (why_not (context_of context.now) (system_of system.now) (move_of chosen.now)) }
{
    let symbols = &context.sought.signature.symbols;
    match cases(alloc, context, system, chosen)? {
        Some(cases) => Ok(Applied::Cases(cases)),
        None => match where_none(alloc, symbols, context.sought.constants, system, chosen)? {
            Some(clause) => Ok(Applied::NotAnInstance(clause)),
            None => unreachable!(),
        },
    }
}
