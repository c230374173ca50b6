// Whether one of the atoms of a formula passes a test.

ghost use Rattle.std.specs.Prelude.{◌≡◌, Bool, map};
ghost use Rattle.sp_spec.specs.Formula as formulas;
ghost use Rattle.sp_read_parts.specs.Formulas.{Joint};
ghost use Rattle.sp_read_parts.specs.Formulas as written;
ghost use Rattle.sp_walk.specs.Atoms as spec;
ghost use Rattle.sp_walk.specs.View.{atom_of};

use crate::atom::ReadAtom;
use sp_read_parts::ReadFormula;

/// A test of atoms.
pub trait TestsAtoms {
    ghost test_of: { Self → spec.Atom → Bool };

    /// Whether the atom passes.
    fn passes(&self, atom: ReadAtom) -> bool
        ensures { result ≡ test_of self.now (atom_of atom.entry) };
}

/// Whether an atom of the formula passes.
#[cycle(any)]
#[tactic(auto, using(crate::proofs::Passing::either_way, crate::proofs::Passing::any_for_all, crate::proofs::Passing::any_for_some))]
pub fn any_atom<T: TestsAtoms>(test: &T, formula: &ReadFormula) -> bool
    ensures { result ≡ spec.any_atom (T.test_of test.now) (written.formula formula.now) }
{
    match formula {
        ReadFormula::True | ReadFormula::False => false,
        ReadFormula::Happens(action, at) => test.passes(ReadAtom::Happens(action, *at)),
        ReadFormula::Equals(left, right) => test.passes(ReadAtom::Equals(left, right)),
        ReadFormula::Precedes(left, right) => test.passes(ReadAtom::Precedes(*left, *right)),
        ReadFormula::Not(denied) => any_atom(test, denied),
        ReadFormula::Both(left, right, more) | ReadFormula::Either(left, right, more) => {
            let found = any_atom(test, left) || any_atom(test, right);
            or_any_atom(test, found, more)
        }
        ReadFormula::Implies(left, right) => any_atom(test, left) || any_atom(test, right),
        ReadFormula::Equivalent(left, right) => any_atom(test, left) || any_atom(test, right),
        ReadFormula::ForAll(_, body) => any_atom(test, body),
        ReadFormula::ForSome(_, body) => any_atom(test, body),
    }
}

/// Whether this is so, or an atom of the formulas that follow passes.
#[cycle(any)]
fn or_any_atom<T: TestsAtoms>(test: &T, so_far: bool, more: &Vec<ReadFormula>) -> bool
    ensures { (o : Joint) (f : formulas.Formula) → so_far ≡ spec.any_atom (T.test_of test.now) f
        → result ≡ spec.any_atom (T.test_of test.now) (written.chain o f (map written.formula more.now.items)) }
{
    let mut found = so_far;
    for part in more {
        let next = any_atom(test, part);
        found = found || next;
    }
    found
}
