// Terms of events inside of which an equation could be used.

ghost use Rattle.std.specs.Prelude.{◌≡◌, IfOk, map};
ghost use Rattle.sp_fact.specs.GroundView.{equation_of};
ghost use Rattle.sp_system.specs.SystemView.{event_of};
ghost use Rattle.sp_spec_graph.specs.ReducibleEvent as rows;

use sp_book::reducible::irreducible_facts;
use sp_fact::signature::Equation;
use sp_system::event::Event;
use std::alloc::{AllocError, Global};

/// Whether an equation could be used inside a term of some event.
///
/// # Errors
///
/// `AllocError` where memory is wanting.
pub fn has_reducible(
    alloc: Global,
    equations: &Vec<Equation>,
    events: &Vec<Event>,
) -> Result<bool, AllocError>
    ensures { IfOk result (λ b. b ≡ rows.has_reducible (map equation_of equations.now.items) (map event_of events.now.items)) }
{
    for event in events {
        if !irreducible_facts(alloc, equations, event.facts())? {
            return Ok(true);
        }
    }
    Ok(false)
}
