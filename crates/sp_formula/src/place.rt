// The terms of formulas: their leaves are variables of the system, and what quantifiers bind.

ghost use Rattle.std.specs.Prelude.{◌≡◌, IfOk};
ghost use Rattle.sp_spec.specs.Term as spec_term;
ghost use Rattle.sp_spec.specs.Term.{var};
ghost use Rattle.sp_spec.specs.Guarded as spec;
ghost use Rattle.sp_spec.specs.Guarded.{free};
ghost use Rattle.sp_spec.specs.SameFormula.{same_place};
ghost use Rattle.sp_spec.specs.Change.{placed, place_changed, free_change};
ghost use Rattle.sp_spec.specs.Substitution.{bound_to};
ghost use Rattle.sp_term.specs.View.{variable_of, view};
ghost use Rattle.sp_term.specs.Bindings.{bindings};
ghost use Rattle.sp_formula.specs.PlaceView.{place_of, place_has_sort, placed_term};
ghost use Rattle.sp_formula.specs.PlaceLaws.{place_tests};
ghost use Rattle.sp_spec.proofs.SameFormula.{same_place_decides};

use sp_fact::fact::Action;
use sp_term::apply::Assigns;
use sp_term::subst::{Subst, apply};
use sp_term::term::{Leaf, Sort, Term, Variable};
use std::alloc::{AllocError, Global};

/// A variable of the system, or one that a quantifier binds.
#[derive(Clone, Copy, Debug, PartialEq, Eq)]
pub enum Place {
    /// a bound message: the innermost binder of a message has place 0
    Bound(u64),
    /// a variable of the system
    Free(Variable),
}

/// A term of a formula.
pub type FormulaTerm = Term<Place>;

/// An action of a formula.
pub type FormulaAction = Action<Place>;

impl Leaf for Place {
    ghost Kind = { spec.Place };

    ghost leaf_of = { place_of };

    ghost test = { same_place };

    ghost of_sort = { place_has_sort };

    fn term_has_sort(sort: Sort, term: &FormulaTerm) -> bool {
        match (sort, term) {
            (Sort::Msg, _) => true,
            (_, Term::Var(Place::Free(x))) => sort == x.sort,
            (Sort::Fresh, Term::FreshName(_)) => true,
            (Sort::Pub, Term::Constant(_)) => true,
            _ => false,
        }
    }

    ghost tests = { place_tests };

    ghost decides = { same_place_decides };
}

/// A variable as a leaf of a formula.
#[derive(Clone, Copy)]
pub struct Placing {}

impl Assigns<Variable, Place> for Placing {
    ghost From = { spec_term.Variable };

    ghost To = { spec.Place };

    ghost from_of = { variable_of };

    ghost to_of = { place_of };

    ghost value_of = { λ s x. var (free x) };

    fn value(&self, _alloc: Global, leaf: &Variable) -> Result<FormulaTerm, AllocError> {
        Ok(Term::Var(Place::Free(*leaf)))
    }
}

/// The term of the system as a term of a formula.
///
/// # Errors
///
/// `AllocError` where memory is wanting.
pub fn placed(alloc: Global, term: &Term) -> Result<FormulaTerm, AllocError>
    ensures { IfOk result (λ t. placed_term t ≡ placed (view term.now)) }
{
    apply(alloc, &Placing {}, term)
}

/// A substitution inside of a formula, where what is bound stays.
#[derive(Clone, Copy)]
pub struct InFormula<'a> {
    /// what it puts for variables of the system
    pub subst: &'a Subst,
}

impl<'a> Assigns<Place, Place> for InFormula<'a> {
    ghost From = { spec.Place };

    ghost To = { spec.Place };

    ghost from_of = { place_of };

    ghost to_of = { place_of };

    ghost value_of = { λ s. place_changed (free_change (bound_to (bindings s.subst.now)) (λ i. i)) };

    fn value(&self, alloc: Global, leaf: &Place) -> Result<FormulaTerm, AllocError> {
        match leaf {
            Place::Free(x) => {
                let term = self.subst.value(alloc, x)?;
                placed(alloc, &term)
            }
            Place::Bound(_) => Ok(Term::Var(*leaf)),
        }
    }
}
