// The move that looks for the event of an action.

ghost use Rattle.std.specs.Prelude.{◌≡◌, List, Some, is_some, IfOk, option_map};
ghost use Rattle.sp_spec.specs.Rule as spec_rule;
ghost use Rattle.sp_spec_system.specs.System as spec_system;
ghost use Rattle.sp_fact.specs.View.{action_of};
ghost use Rattle.sp_formula.specs.FormulaView.{formula_of};
ghost use Rattle.sp_spec_formula.specs.Action as spec;
ghost use Rattle.sp_moves_formula.specs.Sought.{sought, timed};
ghost use Rattle.sp_spec_forms.specs.Forms.{RuleForms};

use sp_fact::fact::Action;
use sp_formula::formula::{Atom, Formula, Moment};
use sp_system::freed::freed_action;
use std::alloc::{AllocError, Global};

/// The action whose event the formula lets look for, with its time.
///
/// # Errors
///
/// `AllocError` where memory is wanting.
pub fn sought(alloc: Global, formula: &Formula) -> Result<Option<(u128, Action)>, AllocError>
    ensures { IfOk result (λ o. option_map (λ p. timed p.0 (action_of p.1)) o ≡ sought (formula_of formula.now)) }
{
    match formula {
        Formula::Holds(Atom::Acts(action, Moment::Free(time))) => {
            let Some(freed) = freed_action(alloc, action)? else {
                return Ok(None);
            };
            Ok(Some((*time, freed)))
        }
        _ => Ok(None),
    }
}

/// Whether the formula is an action whose event can be looked for.
///
/// # Errors
///
/// `AllocError` where memory is wanting.
pub fn is_solvable(alloc: Global, formula: &Formula) -> Result<bool, AllocError>
    ensures { IfOk result (λ b. (rules : List RuleForms) → (s : spec_system.System) → b ≡ is_some (spec.solving_action rules s (Some (formula_of formula.now)))) }
{
    let found = sought(alloc, formula)?;
    Ok(found.is_some())
}
