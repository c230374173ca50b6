// What the atoms of a formula give, within the reach of its binders.

ghost use Rattle.std.specs.Prelude.{◌≡◌, ◌++◌, List, [], IfOk, OnOk, map};
ghost use Rattle.sp_spec.specs.Formula as formulas;
ghost use Rattle.sp_read_parts.specs.Formulas.{Joint};
ghost use Rattle.sp_read_parts.specs.Formulas as written;
ghost use Rattle.sp_walk.specs.Atoms as spec;
ghost use Rattle.sp_walk.specs.View.{atom_of, innermost_first};

use crate::atom::ReadAtom;
use sp_read_parts::{ReadFormula, WrittenVariable};
use std::alloc::{AllocError, Global};

/// What atoms give, and how it is put behind what others gave.
pub trait Collects<S> {
    /// what an atom gives
    ghost Item: { Type 0 };

    /// what stands for all that was put so far
    ghost Seen: { Type 0 };

    ghost seen_of: { S → Seen };

    ghost gives: { Self → List formulas.Written → spec.Atom → List Item };

    ghost after: { Seen → List Item → Seen };

    /// Puts what the atom gives within the reach of these binders.
    fn collect<'a>(
        &self,
        alloc: Global,
        seen: &mut S,
        binders: &Vec<WrittenVariable<'a>>,
        atom: ReadAtom<'_, 'a>,
    ) -> Result<(), AllocError>
        ensures { OnOk result (seen_of seen.new ≡ after (seen_of seen.old) (gives self.now (innermost_first binders.now.items) (atom_of atom.entry))) };

    ghost none_changes: { (s : Seen) → after s [] ≡ s };

    ghost one_by_one: { (s : Seen) (xs ys : List Item) → after (after s xs) ys ≡ after s (xs ++ ys) };

    /// where both sides of an equivalence were put, the other implication puts nothing
    ghost not_again: { (s : Seen) (xs ys : List Item) → after s ((xs ++ ys) ++ (ys ++ xs)) ≡ after s (xs ++ ys) };
}

/// The binders with those of a quantifier inside them.
///
/// # Errors
///
/// `AllocError` where memory is wanting.
pub fn within<'a>(
    alloc: Global,
    binders: &Vec<WrittenVariable<'a>>,
    more: &Vec<WrittenVariable<'a>>,
) -> Result<Vec<WrittenVariable<'a>>, AllocError>
    ensures { IfOk result (λ bs. bs.items ≡ binders.now.items ++ more.now.items) }
{
    let mut made = Vec::with_capacity(alloc, binders.len())?;
    made.extend_from_slice(binders)?;
    made.extend_from_slice(more)?;
    Ok(made)
}

/// Puts what the atoms of the formula give, within the reach of these binders.
///
/// # Errors
///
/// `AllocError` where memory is wanting.
#[cycle(collected)]
pub fn collect_atoms<'a, S, C: Collects<S>>(
    alloc: Global,
    by: &C,
    seen: &mut S,
    binders: &Vec<WrittenVariable<'a>>,
    formula: &ReadFormula<'a>,
) -> Result<(), AllocError>
    ensures { OnOk result (C.seen_of seen.new ≡ C.after (C.seen_of seen.old) (spec.collected (C.gives by.now) (innermost_first binders.now.items) (written.formula formula.now))) }
{
    match formula {
        ReadFormula::True | ReadFormula::False => Ok(()),
        ReadFormula::Happens(action, at) => {
            by.collect(alloc, seen, binders, ReadAtom::Happens(action, *at))
        }
        ReadFormula::Equals(left, right) => {
            by.collect(alloc, seen, binders, ReadAtom::Equals(left, right))
        }
        ReadFormula::Precedes(left, right) => {
            by.collect(alloc, seen, binders, ReadAtom::Precedes(*left, *right))
        }
        ReadFormula::Not(denied) => collect_atoms(alloc, by, seen, binders, denied),
        ReadFormula::Both(left, right, more) | ReadFormula::Either(left, right, more) => {
            collect_atoms(alloc, by, seen, binders, left)?;
            collect_atoms(alloc, by, seen, binders, right)?;
            collect_later(alloc, by, seen, binders, more)
        }
        ReadFormula::Implies(left, right) | ReadFormula::Equivalent(left, right) => {
            collect_atoms(alloc, by, seen, binders, left)?;
            collect_atoms(alloc, by, seen, binders, right)
        }
        ReadFormula::ForAll(more, body) | ReadFormula::ForSome(more, body) => {
            collect_behind(alloc, by, seen, binders, more, body)
        }
    }
}

/// The same behind a quantifier, whose binders stand within the reach of the others.
#[cycle(collected)]
fn collect_behind<'a, S, C: Collects<S>>(
    alloc: Global,
    by: &C,
    seen: &mut S,
    binders: &Vec<WrittenVariable<'a>>,
    more: &Vec<WrittenVariable<'a>>,
    body: &ReadFormula<'a>,
) -> Result<(), AllocError>
    ensures { OnOk result (C.seen_of seen.new ≡ C.after (C.seen_of seen.old) (spec.collected (C.gives by.now) (innermost_first (binders.now.items ++ more.now.items)) (written.formula body.now))) }
{
    let inner = within(alloc, binders, more)?;
    collect_atoms(alloc, by, seen, &inner, body)
}

/// The same of each of the formulas that follow.
#[cycle(collected)]
fn collect_later<'a, S, C: Collects<S>>(
    alloc: Global,
    by: &C,
    seen: &mut S,
    binders: &Vec<WrittenVariable<'a>>,
    more: &Vec<ReadFormula<'a>>,
) -> Result<(), AllocError>
    ensures { OnOk result ((o : Joint) (before : C.Seen) (f : formulas.Formula)
        → C.seen_of seen.old ≡ C.after before (spec.collected (C.gives by.now) (innermost_first binders.now.items) f)
        → C.seen_of seen.new ≡ C.after before (spec.collected (C.gives by.now) (innermost_first binders.now.items) (written.chain o f (map written.formula more.now.items)))) }
{
    for part in more {
        collect_atoms(alloc, by, seen, binders, part)?;
    }
    Ok(())
}

/// Puts what the atoms of the formula give, outside of which nothing is bound.
///
/// # Errors
///
/// `AllocError` where memory is wanting.
pub fn collect_closed<S, C: Collects<S>>(
    alloc: Global,
    by: &C,
    seen: &mut S,
    formula: &ReadFormula,
) -> Result<(), AllocError>
    ensures { OnOk result (C.seen_of seen.new ≡ C.after (C.seen_of seen.old) (spec.collected (C.gives by.now) [] (written.formula formula.now))) }
{
    let none = Vec::new(alloc);
    collect_atoms(alloc, by, seen, &none, formula)
}
