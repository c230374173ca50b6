// Existential formulas are opened.

ghost use Rattle.std.specs.Prelude.{◌≡◌, ◌∷◌, ◌++◌, [], IfOk, map, option_map};
ghost use Rattle.sp_spec.specs.Guarded.{holds};
ghost use Rattle.sp_spec.specs.Change.{atom_changed, changed};
ghost use Rattle.sp_formula.specs.FormulaView.{atom_of, formula_of};
ghost use Rattle.sp_system.specs.SystemView.{system_of};
ghost use Rattle.sp_spec_formula.specs.Open as rows;
ghost use Rattle.sp_rows_formula.specs.OpeningView.{change_of, opened_by, opened_of, opened_there, opening_there, parts_of};
ghost use Rattle.sp_rows_formula.specs.RowsView.{position_of};
ghost use Rattle.sp_system.specs.Reduced.{Reduced};

use crate::opening::{NewVariables, Values};
use sp_formula::formula::{Atom, Binder, Formula};
use sp_system::spend::spend_for;
use sp_system::system::System;
use std::alloc::{AllocError, Global};

// The guard and then the body, over the new variables.
fn opened_parts(
    alloc: Global,
    variables: &Values,
    guard: &Vec<Atom>,
    body: &Formula,
) -> Result<Vec<Formula>, AllocError>
    ensures { IfOk result (λ fs. map formula_of fs.items ≡ map (λ a. holds (atom_changed (change_of variables.now) a)) (map atom_of guard.now.items) ++ changed (change_of variables.now) (formula_of body.now) ∷ []) }
{
    let mut made = Vec::new(alloc);
    for atom in guard {
        made.push(Formula::Holds(variables.in_atom(alloc, atom)?))?;
    }
    made.push(variables.in_formula(alloc, body)?)?;
    Ok(made)
}

/// What opening a formula gives.
#[derive(Drop)]
pub struct Opened {
    /// what stands in its place
    pub parts: Vec<Formula>,
    /// the number behind those of the new variables
    pub next: u128,
}

// The formula with these parts, opened over variables from this number on.
fn opening_of(
    alloc: Global,
    next: u128,
    binders: &Vec<Binder>,
    guard: &Vec<Atom>,
    body: &Formula,
) -> Result<Opened, AllocError>
    ensures { IfOk result (λ x. opened_of x ≡ opened_by next (parts_of binders.now.items guard.now.items body.now)) }
{
    let variables = NewVariables::of(alloc, binders, next)?;
    let parts = opened_parts(alloc, &variables.values, guard, body)?;
    Ok(Opened {
        parts,
        next: variables.next,
    })
}

// The position of the first existential formula, and what opening it gives.
fn first_existential(alloc: Global, system: &System) -> Result<Option<(usize, Opened)>, AllocError>
    ensures { IfOk result (λ o. option_map opened_there o ≡ option_map (opening_there system.now.next) (position_of rows.existential_of (map formula_of system.now.formulas.items))) }
{
    for (position, formula) in system.formulas.iter().enumerate() {
        if let Formula::Exists(binders, guard, body) = formula.formula() {
            let found = opening_of(alloc, system.next, binders, guard, body)?;
            return Ok(Some((position, found)));
        }
    }
    Ok(None)
}

/// Opens the first existential formula: its variables are new, and its guard and then its body stand in its place. False if there is none.
///
/// # Errors
///
/// `AllocError` where memory is wanting, or no number is left for a new variable.
pub fn open_existential(alloc: Global, system: &mut System) -> Result<bool, AllocError>
    ensures { IfOk result (λ b. Reduced b (system_of system.old) (system_of system.new) (rows.open_existential (system_of system.old))) }
{
    let Some((position, found)) = first_existential(alloc, system)? else {
        return Ok(false);
    };
    spend_for(alloc, system, position, found.parts)?;
    system.next = found.next;
    Ok(true)
}
