// The first two names of which it is open whether they are the same.

ghost use Rattle.std.specs.Prelude.{◌≡◌, ◌≤◌, ◌++◌, ◌∷◌, [], IfOk, OnOk, drop, filter, flat_map, length, map, option_map};
ghost use Rattle.sp_spec_system.specs.Move as spec;
ghost use Rattle.sp_spec_system.specs.Picked as picked;
ghost use Rattle.sp_spec_formula.specs.Sides.{stands_there};
ghost use Rattle.sp_term.specs.View.{name_of};
ghost use Rattle.sp_system.specs.SystemView.{system_of};
ghost use Rattle.sp_moves.specs.View.{move_of, side_of};
ghost use Rattle.sp_spec_proof.specs.Choice.{first_instance};
ghost use Rattle.sp_spec_proof.specs.Deciding.{counted, sames, sides_at, sorted_by_bytes};
ghost use Rattle.sp_undecided.specs.Undecided.{may_be_same, same_both, standing_sides};

use crate::names::sorted;
use sp_moves::moves::{Move, Side};
use sp_moves_decide::same::{are_apart, are_in_order, side_term, stands_there};
use sp_system::system::System;
use sp_term::term::Name;
use std::alloc::{AllocError, Global};

// Puts the side behind the others, if it stands in the system.
fn put_standing(
    constants: &Vec<Name>,
    system: &System,
    sides: &mut Vec<Side>,
    side: Side,
) -> Result<(), AllocError>
    ensures { OnOk result (map side_of sides.new.items
        ≡ map side_of sides.old.items ++ filter (stands_there (map name_of constants.now.items) (system_of system.now)) (side_of side ∷ [])) }
{
    if !stands_there(constants, system, &side) {
        return Ok(());
    }
    sides.push(side)?;
    Ok(())
}

// Puts the variables of the number behind the others, as far as they stand in the system.
fn put_variables(
    constants: &Vec<Name>,
    system: &System,
    sides: &mut Vec<Side>,
    number: u128,
) -> Result<(), AllocError>
    ensures { OnOk result (map side_of sides.new.items
        ≡ map side_of sides.old.items ++ filter (stands_there (map name_of constants.now.items) (system_of system.now)) (sides_at number)) }
{
    put_standing(constants, system, sides, Side::Fresh(number))?;
    put_standing(constants, system, sides, Side::Public(number))?;
    Ok(())
}

// The variables that stand in the system, from the lowest number on.
fn standing_variables(
    alloc: Global,
    constants: &Vec<Name>,
    system: &System,
) -> Result<Vec<Side>, AllocError>
    ensures { IfOk result (λ sides. map side_of sides.items
        ≡ filter (stands_there (map name_of constants.now.items) (system_of system.now)) (flat_map sides_at (counted 0 system.now.next))) }
{
    let mut made = Vec::new(alloc);
    for number in 0..system.next {
        put_variables(constants, system, &mut made, number)?;
    }
    Ok(made)
}

// Puts the names behind the sides, as far as they stand in the system.
fn put_names(
    constants: &Vec<Name>,
    system: &System,
    sides: &mut Vec<Side>,
    names: &Vec<Name>,
) -> Result<(), AllocError>
    ensures { OnOk result (map side_of sides.new.items
        ≡ map side_of sides.old.items ++ filter (stands_there (map name_of constants.now.items) (system_of system.now)) (map spec.constant_side (map name_of names.now.items))) }
{
    for name in names {
        let side = Side::Constant(name.clone()?);
        put_standing(constants, system, sides, side)?;
    }
    Ok(())
}

fn standing_sides(
    alloc: Global,
    constants: &Vec<Name>,
    system: &System,
) -> Result<Vec<Side>, AllocError>
    ensures { IfOk result (λ sides. map side_of sides.items ≡ standing_sides (map name_of constants.now.items) (system_of system.now)) }
{
    let names = sorted(alloc, constants)?;
    let mut made = standing_variables(alloc, constants, system)?;
    put_names(constants, system, &mut made, &names)?;
    Ok(made)
}

fn are_unknown(system: &System, one: &Side, other: &Side) -> Result<bool, AllocError>
    ensures { IfOk result (λ b. b ≡ may_be_same (system_of system.now) (side_of one.now) (side_of other.now)) }
{
    if !are_in_order(one, other) {
        return Ok(false);
    }
    let left = side_term(one)?;
    let right = side_term(other)?;
    Ok(!are_apart(&system.unequal, &left, &right))
}

// The first side from `start` on of which it is open whether it is the same.
fn first_with<'a>(
    system: &System,
    side: &Side,
    sides: &'a Vec<Side>,
    start: usize,
) -> Result<Option<&'a Side>, AllocError>
    requires { start ≤ length sides.now.items }
    ensures { IfOk result (λ o. option_map (λ d. (side_of side.now, side_of d.now)) o
        ≡ picked.first_with (may_be_same (system_of system.now)) (side_of side.now) (map side_of (drop start sides.now.items))) }
{
    for place in start..sides.len() {
        let other = &sides[place];
        if are_unknown(system, side, other)? {
            return Ok(Some(other));
        }
    }
    Ok(None)
}

fn same_move(one: &Side, other: &Side) -> Result<Move, AllocError>
    ensures { IfOk result (λ m. move_of m ≡ spec.same (side_of one.now) (side_of other.now)) }
{
    let one = one.clone()?;
    let other = other.clone()?;
    Ok(Move::Same(one, other))
}

fn first_two(system: &System, sides: &Vec<Side>) -> Result<Option<Move>, AllocError>
    ensures { IfOk result (λ o. option_map move_of o
        ≡ option_map same_both (picked.first_two (may_be_same (system_of system.now)) (map side_of sides.now.items))) }
{
    for place in 0..sides.len() {
        let side = &sides[place];
        if let Some(other) = first_with(system, side, sides, place + 1)? {
            let chosen = same_move(side, other)?;
            return Ok(Some(chosen));
        }
    }
    Ok(None)
}

/// The first question whether two names are the same which is an instance, if one is. The public names are those that stand in the theory.
///
/// # Errors
///
/// `AllocError` where memory is wanting.
pub fn first_same(
    alloc: Global,
    constants: &Vec<Name>,
    system: &System,
) -> Result<Option<Move>, AllocError>
    ensures { IfOk result (λ o. (context : spec.Context) → context.public_names ≡ map name_of constants.now.items
        → option_map move_of o ≡ first_instance context (system_of system.now) (sames context (system_of system.now))) }
{
    let sides = standing_sides(alloc, constants, system)?;
    let chosen = first_two(system, &sides)?;
    Ok(chosen)
}
