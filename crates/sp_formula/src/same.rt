// Whether formulas are the same up to the names of bound variables, which bound places leave out.

ghost use Rattle.std.specs.Prelude.{◌≡◌, map};
ghost use Rattle.sp_spec.specs.Guarded.{guardeds_of};
ghost use Rattle.sp_formula.specs.FormulaView.{moment_of, binder_of, atom_of, formula_of};
ghost use Rattle.sp_spec.specs.SameFormula as spec;

use crate::formula::{Atom, Binder, Formula, Moment};
use sp_term::term::{all_same, same};

fn same_moment(left: Moment, right: Moment) -> bool
    ensures { result ≡ spec.same_moment (moment_of left) (moment_of right) }
{
    match (left, right) {
        (Moment::Bound(k), Moment::Bound(l)) => k == l,
        (Moment::Free(i), Moment::Free(j)) => i == j,
        _ => false,
    }
}

fn same_binder(left: Binder, right: Binder) -> bool
    ensures { result ≡ spec.same_binder (binder_of left) (binder_of right) }
{
    match (left, right) {
        (Binder::Message(s), Binder::Message(t)) => s == t,
        (Binder::Time, Binder::Time) => true,
        _ => false,
    }
}

fn same_binders(left: &Vec<Binder>, right: &Vec<Binder>) -> bool
    ensures { result ≡ spec.same_binders (map binder_of left.now.items) (map binder_of right.now.items) }
{
    if left.len() != right.len() {
        return false;
    }
    for (b, c) in left.iter().zip(right) {
        if !same_binder(*b, *c) {
            return false;
        }
    }
    true
}

fn same_atom(left: &Atom, right: &Atom) -> bool
    ensures { result ≡ spec.same_atom (atom_of left.now) (atom_of right.now) }
{
    match (left, right) {
        (Atom::Acts(a, i), Atom::Acts(b, j)) => {
            a.symbol == b.symbol && all_same(&a.args, &b.args) && same_moment(*i, *j)
        }
        (Atom::Same(t, u), Atom::Same(v, w)) => same(t, v) && same(u, w),
        (Atom::SameTime(i, j), Atom::SameTime(k, l)) => same_moment(*i, *k) && same_moment(*j, *l),
        (Atom::Before(i, j), Atom::Before(k, l)) => same_moment(*i, *k) && same_moment(*j, *l),
        (Atom::Last(i), Atom::Last(k)) => same_moment(*i, *k),
        _ => false,
    }
}

fn same_atoms(left: &Vec<Atom>, right: &Vec<Atom>) -> bool
    ensures { result ≡ spec.same_atoms (map atom_of left.now.items) (map atom_of right.now.items) }
{
    if left.len() != right.len() {
        return false;
    }
    for (a, b) in left.iter().zip(right) {
        if !same_atom(a, b) {
            return false;
        }
    }
    true
}

/// Whether the formulas are the same, up to the names of bound variables.
#[cycle(same_formula)]
pub fn same_formula(left: &Formula, right: &Formula) -> bool
    ensures { result ≡ spec.same_formula (formula_of left.now) (formula_of right.now) }
{
    match (left, right) {
        (Formula::Truth, Formula::Truth) => true,
        (Formula::Falsity, Formula::Falsity) => true,
        (Formula::Holds(a), Formula::Holds(b)) => same_atom(a, b),
        (Formula::Fails(a), Formula::Fails(b)) => same_atom(a, b),
        (Formula::AllOf(fs), Formula::AllOf(gs)) => same_formulas(fs, gs),
        (Formula::OneOf(fs), Formula::OneOf(gs)) => same_formulas(fs, gs),
        (Formula::Exists(bs, guard, f), Formula::Exists(cs, other, g)) => {
            same_binders(bs, cs) && same_atoms(guard, other) && same_formula(f, g)
        }
        (Formula::ForAll(bs, guard, f), Formula::ForAll(cs, other, g)) => {
            same_binders(bs, cs) && same_atoms(guard, other) && same_formula(f, g)
        }
        _ => false,
    }
}

#[cycle(same_formula)]
fn same_formulas(left: &Vec<Formula>, right: &Vec<Formula>) -> bool
    ensures { result ≡ spec.same_formulas (guardeds_of (map formula_of left.now.items)) (guardeds_of (map formula_of right.now.items)) }
{
    if left.len() != right.len() {
        return false;
    }
    for (f, g) in left.iter().zip(right) {
        if !same_formula(f, g) {
            return false;
        }
    }
    true
}
