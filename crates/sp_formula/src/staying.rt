// Whether nothing in a formula changes where bound variables and one time are replaced.

ghost use Rattle.std.specs.Prelude.{◌≡◌, map};
ghost use Rattle.sp_spec.specs.Term as spec_term;
ghost use Rattle.sp_spec.specs.Guarded as spec_guarded;
ghost use Rattle.sp_spec.specs.Guarded.{guardeds_of};
ghost use Rattle.sp_term.specs.Bindings.{bindings};
ghost use Rattle.sp_term.specs.View.{variable_of};
ghost use Rattle.sp_formula.specs.PlaceView.{place_of};
ghost use Rattle.sp_formula.specs.FormulaView.{moment_of, atom_of, formula_of};
ghost use Rattle.sp_formula.specs.Staying as spec;

use crate::formula::{Atom, Formula, Moment};
use crate::place::Place;
use sp_term::leaves::{Tests, each_leaf, each_leaf_of_all};
use sp_term::subst::Subst;
use sp_term::term::Variable;

/// Whether no binding is the variable's.
#[derive(Clone, Copy)]
pub struct Unbound<'a> {
    /// the bindings
    pub subst: &'a Subst,
}

impl<'a> Tests<Variable> for Unbound<'a> {
    ghost Kind = { spec_term.Variable };

    ghost leaf_of = { variable_of };

    ghost test_of = { λ t. spec.is_unbound (bindings t.subst.now) };

    fn passes(&self, leaf: &Variable) -> bool {
        match self.subst.get(*leaf) {
            Some(_) => false,
            None => true,
        }
    }
}

// Whether no binding is that of a variable of the system.
#[derive(Clone, Copy)]
struct UnboundPlace<'a> {
    subst: &'a Subst,
}

impl<'a> Tests<Place> for UnboundPlace<'a> {
    ghost Kind = { spec_guarded.Place };

    ghost leaf_of = { place_of };

    ghost test_of = { λ t. spec.place_stays (bindings t.subst.now) };

    fn passes(&self, leaf: &Place) -> bool {
        match leaf {
            Place::Free(x) => Unbound { subst: self.subst }.passes(x),
            Place::Bound(_) => true,
        }
    }
}

/// Whether the time stays where `small` stands in the place of `large`.
pub fn time_stays(small: u128, large: u128, time: u128) -> bool
    ensures { result ≡ spec.time_stays small large time }
{
    time != large || small == large
}

fn moment_stays(small: u128, large: u128, moment: Moment) -> bool
    ensures { result ≡ spec.moment_stays small large (moment_of moment) }
{
    match moment {
        Moment::Free(time) => time_stays(small, large, time),
        Moment::Bound(_) => true,
    }
}

fn atom_stays(subst: &Subst, small: u128, large: u128, atom: &Atom) -> bool
    ensures { result ≡ spec.atom_stays (bindings subst.now) small large (atom_of atom.now) }
{
    match atom {
        Atom::Acts(action, time) => {
            each_leaf_of_all(&UnboundPlace { subst }, &action.args)
                && moment_stays(small, large, *time)
        }
        Atom::Same(left, right) => {
            let unbound = UnboundPlace { subst };
            each_leaf(&unbound, left) && each_leaf(&unbound, right)
        }
        Atom::SameTime(first, second) => {
            moment_stays(small, large, *first) && moment_stays(small, large, *second)
        }
        Atom::Before(first, second) => {
            moment_stays(small, large, *first) && moment_stays(small, large, *second)
        }
        Atom::Last(time) => moment_stays(small, large, *time),
    }
}

fn atoms_stay(subst: &Subst, small: u128, large: u128, atoms: &Vec<Atom>) -> bool
    ensures { result ≡ spec.all_so (spec.atom_stays (bindings subst.now) small large) (map atom_of atoms.now.items) }
{
    for atom in atoms {
        if !atom_stays(subst, small, large, atom) {
            return false;
        }
    }
    true
}

/// Whether nothing in the formula changes where each bound variable is replaced, and `large` by `small`; it takes no memory.
#[cycle(stays)]
pub fn formula_stays(subst: &Subst, small: u128, large: u128, formula: &Formula) -> bool
    ensures { result ≡ spec.formula_stays (bindings subst.now) small large (formula_of formula.now) }
{
    match formula {
        Formula::Truth | Formula::Falsity => true,
        Formula::Holds(atom) => atom_stays(subst, small, large, atom),
        Formula::Fails(atom) => atom_stays(subst, small, large, atom),
        Formula::AllOf(parts) => formulas_stay(subst, small, large, parts),
        Formula::OneOf(parts) => formulas_stay(subst, small, large, parts),
        Formula::Exists(_, guard, body) => {
            atoms_stay(subst, small, large, guard) && formula_stays(subst, small, large, body)
        }
        Formula::ForAll(_, guard, body) => {
            atoms_stay(subst, small, large, guard) && formula_stays(subst, small, large, body)
        }
    }
}

#[cycle(stays)]
fn formulas_stay(subst: &Subst, small: u128, large: u128, formulas: &Vec<Formula>) -> bool
    ensures { result ≡ spec.formulas_stay (bindings subst.now) small large (guardeds_of (map formula_of formulas.now.items)) }
{
    for formula in formulas {
        if !formula_stays(subst, small, large, formula) {
            return false;
        }
    }
    true
}
