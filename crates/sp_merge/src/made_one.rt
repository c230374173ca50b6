// Two times are made one, and with them the events at them.

ghost use Rattle.std.specs.Prelude.{◌≡◌, IfOk, is_none, length, option_map, suc};
ghost use Rattle.sp_spec.specs.Unifier as unifier_spec;
ghost use Rattle.sp_term.specs.Bindings.{bindings};
ghost use Rattle.sp_spec_system.specs.MakingOne as making_one;
ghost use Rattle.sp_system.specs.SystemView.{system_of};
ghost use Rattle.sp_merge.specs.JoiningView.{joining_of, to_be_one};
ghost use Rattle.sp_system.specs.Reduced.{Reduced};

use crate::joining::{Joining, all_joined};
use sp_system::system::System;
use sp_term::subst::Subst;
use sp_unify::unify::mgu;
use std::alloc::{AllocError, Global};

// The two times have to be one in the system.
fn to_be_one(
    alloc: Global,
    system: &System,
    first: u128,
    second: u128,
) -> Result<Joining, AllocError>
    ensures { IfOk result (λ j. joining_of j ≡ to_be_one (system_of system.now) (first, second)) }
{
    let system = system.clone()?;
    let mut times = Vec::with_capacity(alloc, 1)?;
    times.push((first, second))?;
    Ok(Joining {
        system,
        pairs: Vec::new(alloc),
        times,
    })
}

// What comes of making the two times one, but for the pairs of terms that have to be the same then, if it can be.
fn joined_times(
    alloc: Global,
    system: &System,
    first: u128,
    second: u128,
) -> Result<Option<Joining>, AllocError>
    ensures { IfOk result (λ o. option_map joining_of o ≡ making_one.all_joined (suc (length (system_of system.now).events)) (to_be_one (system_of system.now) (first, second))) }
{
    let joining = to_be_one(alloc, system, first, second)?;
    let turns = joining.system.events.len() + 1;
    let made = all_joined(alloc, turns, joining)?;
    Ok(made)
}

// What makes the terms the same that have to be.
fn unifier(alloc: Global, joining: &Joining) -> Result<Option<Subst>, AllocError>
    ensures { IfOk result (λ o. option_map bindings o ≡ unifier_spec.mgu (joining_of joining.now).pairs) }
{
    let subst = mgu(alloc, &joining.pairs)?;
    Ok(subst)
}

/// Makes the two times one, if the events at them can be.
///
/// # Errors
///
/// `AllocError` where memory is wanting.
pub fn made_one(
    alloc: Global,
    system: &mut System,
    first: u128,
    second: u128,
) -> Result<bool, AllocError>
    ensures { IfOk result (λ b. Reduced b (system_of system.old) (system_of system.new) (making_one.made_one (system_of system.old) (first, second))) }
{
    let Some(joining) = joined_times(alloc, system, first, second)? else {
        return Ok(false);
    };
    let Some(subst) = unifier(alloc, &joining)? else {
        return Ok(false);
    };
    let made = joining.system.with_terms(alloc, &subst)?;
    *system = made;
    Ok(true)
}

/// Whether the two times can't be one.
///
/// # Errors
///
/// `AllocError` where memory is wanting.
pub fn stay_apart(
    alloc: Global,
    system: &System,
    first: u128,
    second: u128,
) -> Result<bool, AllocError>
    ensures { IfOk result (λ b. b ≡ is_none (making_one.made_one (system_of system.now) (first, second))) }
{
    let Some(joining) = joined_times(alloc, system, first, second)? else {
        return Ok(true);
    };
    let subst = unifier(alloc, &joining)?;
    Ok(subst.is_none())
}
