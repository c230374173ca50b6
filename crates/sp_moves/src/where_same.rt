// A system in which two actions, or two facts, are one.

ghost use Rattle.std.specs.Prelude.{◌≡◌, IfOk, map, option_map};
ghost use Rattle.sp_term.specs.Bindings.{bindings};
ghost use Rattle.sp_fact.specs.View.{action_of, fact_of};
ghost use Rattle.sp_spec_system.specs.Equating.{unifier_of};
ghost use Rattle.sp_spec_system.specs.Equating as pairs;
ghost use Rattle.sp_system.specs.SystemView.{system_of};
ghost use Rattle.sp_spec_system.specs.Cases as spec;
ghost use Rattle.sp_spec_formula.specs.Action as action_spec;

use sp_fact::fact::{Action, Fact};
use sp_merge::pairing::{action_pair, fact_pair, unifier_of};
use sp_system::system::System;
use sp_term::subst::Subst;
use std::alloc::{AllocError, Global};

/// What makes the two facts the same, if they can be.
///
/// # Errors
///
/// `AllocError` where memory is wanting.
pub fn fact_unifier(alloc: Global, left: &Fact, right: &Fact) -> Result<Option<Subst>, AllocError>
    ensures { IfOk result (λ o. option_map bindings o ≡ unifier_of (pairs.fact_pair (fact_of left.now) (fact_of right.now))) }
{
    let pairs = fact_pair(alloc, left, right)?;
    let subst = unifier_of(alloc, pairs)?;
    Ok(subst)
}

/// The system in which the two actions are the same, if they can be.
///
/// # Errors
///
/// `AllocError` where memory is wanting.
pub fn where_same(
    alloc: Global,
    system: &System,
    left: &Action,
    right: &Action,
) -> Result<Option<System>, AllocError>
    ensures { IfOk result (λ o. option_map system_of o ≡ spec.where_same (system_of system.now) (action_of left.now) (action_of right.now)) }
{
    let pairs = action_pair(alloc, left, right)?;
    let Some(subst) = unifier_of(alloc, pairs)? else {
        return Ok(None);
    };
    let made = system.with_terms(alloc, &subst)?;
    Ok(Some(made))
}

/// The systems in which the action is one of these, in their order.
///
/// # Errors
///
/// `AllocError` where memory is wanting.
pub fn by_actions(
    alloc: Global,
    system: &System,
    action: &Action,
    actions: &Vec<Action>,
) -> Result<Vec<System>, AllocError>
    ensures { IfOk result (λ ss. map system_of ss.items ≡ action_spec.by_actions (system_of system.now) (action_of action.now) (map action_of actions.now.items)) }
{
    let mut made = Vec::new(alloc);
    for other in actions {
        if let Some(system) = where_same(alloc, system, action, other)? {
            made.push(system)?;
        }
    }
    Ok(made)
}
