// Guarded formulas of a system.

ghost use Rattle.std.specs.Prelude.{◌≡◌, IfOk, map};
ghost use Rattle.sp_spec.specs.Term.{var};
ghost use Rattle.sp_spec.specs.Substitution.{bound_to};
ghost use Rattle.sp_term.specs.Bindings.{bindings};
ghost use Rattle.sp_spec.specs.Change.{time_changed, atom_changed, changed, free_change};
ghost use Rattle.sp_spec.specs.Change.{time_replaced};
ghost use Rattle.sp_formula.specs.FormulaView.{moment_of, atom_of, binder_of, formula_of};

use crate::place::{FormulaAction, FormulaTerm, InFormula};
use sp_term::subst::{Subst, apply};
use sp_term::term::Sort;
use std::alloc::{AllocError, Global};

/// A time of a formula.
#[derive(Clone, Copy, Debug, PartialEq, Eq)]
pub enum Moment {
    /// a bound time, by its place among the times
    Bound(u64),
    /// a time of the system
    Free(u128),
}

/// What a formula says without connectives.
#[derive(Drop)]
pub enum Atom {
    /// the action stands at the time
    Acts(FormulaAction, Moment),
    /// the terms are equal
    Same(FormulaTerm, FormulaTerm),
    /// the times are equal
    SameTime(Moment, Moment),
    /// the first time is before the second
    Before(Moment, Moment),
    /// the time is the last one
    Last(Moment),
}

/// What a quantifier binds.
#[derive(Clone, Copy, Debug, PartialEq, Eq)]
pub enum Binder {
    /// a message of the sort
    Message(Sort),
    /// a time
    Time,
}

/// A guarded formula: negation stands at atoms alone, and each quantifier has a guard.
#[derive(Drop)]
pub enum Formula {
    /// what always holds
    Truth,
    /// what never does
    Falsity,
    /// the atom holds
    Holds(Atom),
    /// the atom doesn't
    Fails(Atom),
    /// each of the formulas holds
    AllOf(Vec<Formula>),
    /// one of the formulas holds
    OneOf(Vec<Formula>),
    /// there are values of the binders for which each atom of the guard holds, and the body
    Exists(Vec<Binder>, Vec<Atom>, Box<Formula>),
    /// for all values of the binders for which each atom of the guard holds, the body does
    ForAll(Vec<Binder>, Vec<Atom>, Box<Formula>),
}

impl Moment {
    /// The time, with `small` in place of `large`.
    pub fn changed(self, small: u128, large: u128) -> Moment
        ensures { moment_of result ≡ time_changed (free_change var (time_replaced small large)) (moment_of self) }
    {
        match self {
            Moment::Bound(place) => Moment::Bound(place),
            Moment::Free(time) => {
                if time == large {
                    Moment::Free(small)
                } else {
                    Moment::Free(time)
                }
            }
        }
    }
}

impl Clone for Atom {
    ghost is_clone = { λ a b. atom_of b ≡ atom_of a };

    fn clone(&self) -> Result<Atom, AllocError> {
        match self {
            Atom::Acts(action, time) => {
                let action = action.clone()?;
                Ok(Atom::Acts(action, *time))
            }
            Atom::Same(left, right) => {
                let left = left.clone()?;
                let right = right.clone()?;
                Ok(Atom::Same(left, right))
            }
            Atom::SameTime(first, second) => Ok(Atom::SameTime(*first, *second)),
            Atom::Before(first, second) => Ok(Atom::Before(*first, *second)),
            Atom::Last(time) => Ok(Atom::Last(*time)),
        }
    }
}

impl Atom {
    /// The atom with each bound variable of the system replaced, and with `small` in place of `large`.
    pub fn changed(
        &self,
        alloc: Global,
        subst: &Subst,
        small: u128,
        large: u128,
    ) -> Result<Atom, AllocError>
        ensures { IfOk result (λ a. atom_of a ≡ atom_changed (free_change (bound_to (bindings subst.now)) (time_replaced small large)) (atom_of self.now)) }
    {
        match self {
            Atom::Acts(action, time) => {
                let action = action.changed(alloc, &InFormula { subst })?;
                Ok(Atom::Acts(action, time.changed(small, large)))
            }
            Atom::Same(left, right) => {
                let left = apply(alloc, &InFormula { subst }, left)?;
                let right = apply(alloc, &InFormula { subst }, right)?;
                Ok(Atom::Same(left, right))
            }
            Atom::SameTime(first, second) => Ok(Atom::SameTime(
                first.changed(small, large),
                second.changed(small, large),
            )),
            Atom::Before(first, second) => Ok(Atom::Before(
                first.changed(small, large),
                second.changed(small, large),
            )),
            Atom::Last(time) => Ok(Atom::Last(time.changed(small, large))),
        }
    }
}

fn changed_atoms(
    alloc: Global,
    subst: &Subst,
    small: u128,
    large: u128,
    atoms: &Vec<Atom>,
) -> Result<Vec<Atom>, AllocError>
    ensures { IfOk result (λ xs. map atom_of xs.items ≡ map (atom_changed (free_change (bound_to (bindings subst.now)) (time_replaced small large))) (map atom_of atoms.now.items)) }
{
    let mut made = Vec::with_capacity(alloc, atoms.len())?;
    for atom in atoms {
        made.push(atom.changed(alloc, subst, small, large)?)?;
    }
    Ok(made)
}

impl Clone for Formula {
    ghost is_clone = { λ f g. formula_of g ≡ formula_of f };

    fn clone(&self) -> Result<Formula, AllocError> {
        cloned(self)
    }
}

// What a quantifier binds, and its guard.
#[tactic(auto, using(sp_term::proofs::Cloned::cloned))]
fn bound_cloned(
    binders: &Vec<Binder>,
    guard: &Vec<Atom>,
) -> Result<(Vec<Binder>, Vec<Atom>), AllocError>
    ensures binders { IfOk result (λ p. map binder_of p.0.items ≡ map binder_of binders.now.items) }
    ensures guard { IfOk result (λ p. map atom_of p.1.items ≡ map atom_of guard.now.items) }
{
    let binders = Vec::from_slice(*binders.allocator(), binders)?;
    let guard = guard.clone()?;
    Ok((binders, guard))
}

#[cycle(clone)]
fn cloned(formula: &Formula) -> Result<Formula, AllocError>
    ensures { IfOk result (λ f. formula_of f ≡ formula_of formula.now) }
{
    match formula {
        Formula::Truth => Ok(Formula::Truth),
        Formula::Falsity => Ok(Formula::Falsity),
        Formula::Holds(atom) => Ok(Formula::Holds(atom.clone()?)),
        Formula::Fails(atom) => Ok(Formula::Fails(atom.clone()?)),
        Formula::AllOf(formulas) => Ok(Formula::AllOf(all_cloned(formulas)?)),
        Formula::OneOf(formulas) => Ok(Formula::OneOf(all_cloned(formulas)?)),
        Formula::Exists(binders, guard, body) => {
            let (binders, guard) = bound_cloned(binders, guard)?;
            let body = body_cloned(body)?;
            Ok(Formula::Exists(binders, guard, body))
        }
        Formula::ForAll(binders, guard, body) => {
            let (binders, guard) = bound_cloned(binders, guard)?;
            let body = body_cloned(body)?;
            Ok(Formula::ForAll(binders, guard, body))
        }
    }
}

#[cycle(clone)]
fn body_cloned(body: &Box<Formula>) -> Result<Box<Formula>, AllocError>
    ensures { IfOk result (λ b. formula_of b.value ≡ formula_of body.now.value) }
{
    let alloc = *Box::allocator(body);
    let made = cloned(body)?;
    let boxed = Box::new(alloc, made)?;
    Ok(boxed)
}

// The loop stands here, since a recursion can't go through a vector's own clone.
#[cycle(clone)]
fn all_cloned(formulas: &Vec<Formula>) -> Result<Vec<Formula>, AllocError>
    ensures { IfOk result (λ fs. map formula_of fs.items ≡ map formula_of formulas.now.items) }
{
    let mut made = Vec::with_capacity(*formulas.allocator(), formulas.len())?;
    for formula in formulas {
        made.push(cloned(formula)?)?;
    }
    Ok(made)
}

impl Formula {
    /// The formula with each bound variable of the system replaced, and with `small` in place of `large`.
    #[cycle(changed)]
    pub fn changed(
        &self,
        alloc: Global,
        subst: &Subst,
        small: u128,
        large: u128,
    ) -> Result<Formula, AllocError>
        ensures { IfOk result (λ f. formula_of f ≡ changed (free_change (bound_to (bindings subst.now)) (time_replaced small large)) (formula_of self.now)) }
    {
        match self {
            Formula::Truth => Ok(Formula::Truth),
            Formula::Falsity => Ok(Formula::Falsity),
            Formula::Holds(atom) => {
                let atom = atom.changed(alloc, subst, small, large)?;
                Ok(Formula::Holds(atom))
            }
            Formula::Fails(atom) => {
                let atom = atom.changed(alloc, subst, small, large)?;
                Ok(Formula::Fails(atom))
            }
            Formula::AllOf(formulas) => {
                let formulas = changed_formulas(alloc, subst, small, large, formulas)?;
                Ok(Formula::AllOf(formulas))
            }
            Formula::OneOf(formulas) => {
                let formulas = changed_formulas(alloc, subst, small, large, formulas)?;
                Ok(Formula::OneOf(formulas))
            }
            Formula::Exists(binders, guard, body) => {
                let binders = Vec::from_slice(alloc, binders.as_slice())?;
                let guard = changed_atoms(alloc, subst, small, large, guard)?;
                let body = changed_body(alloc, subst, small, large, body)?;
                Ok(Formula::Exists(binders, guard, body))
            }
            Formula::ForAll(binders, guard, body) => {
                let binders = Vec::from_slice(alloc, binders.as_slice())?;
                let guard = changed_atoms(alloc, subst, small, large, guard)?;
                let body = changed_body(alloc, subst, small, large, body)?;
                Ok(Formula::ForAll(binders, guard, body))
            }
        }
    }
}

// The formula, in a box.
#[cycle(changed)]
fn changed_body(
    alloc: Global,
    subst: &Subst,
    small: u128,
    large: u128,
    body: &Formula,
) -> Result<Box<Formula>, AllocError>
    ensures { IfOk result (λ f. formula_of f.value ≡ changed (free_change (bound_to (bindings subst.now)) (time_replaced small large)) (formula_of body.now)) }
{
    let made = body.changed(alloc, subst, small, large)?;
    let boxed = Box::new(alloc, made)?;
    Ok(boxed)
}

/// The formulas with each bound variable of the system replaced, and with `small` in place of `large`.
#[cycle(changed)]
pub fn changed_formulas(
    alloc: Global,
    subst: &Subst,
    small: u128,
    large: u128,
    formulas: &Vec<Formula>,
) -> Result<Vec<Formula>, AllocError>
    ensures { IfOk result (λ fs. map formula_of fs.items ≡ map (changed (free_change (bound_to (bindings subst.now)) (time_replaced small large))) (map formula_of formulas.now.items)) }
{
    let mut made = Vec::with_capacity(alloc, formulas.len())?;
    for formula in formulas {
        made.push(formula.changed(alloc, subst, small, large)?)?;
    }
    Ok(made)
}
