// Terms and actions of formulas that are the system's.

ghost use Rattle.std.specs.Prelude.{◌≡◌, IfOk, option_map};
ghost use Rattle.sp_spec.specs.Term as spec_term;
ghost use Rattle.sp_spec.specs.Guarded as spec;
ghost use Rattle.sp_term.specs.View.{variable_of, view};
ghost use Rattle.sp_fact.specs.View.{action_of};
ghost use Rattle.sp_formula.specs.PlaceView.{place_of, placed_action, placed_term};
ghost use Rattle.sp_spec_system.specs.Formulas as formulas_spec;
ghost use Rattle.sp_spec_system.specs.Formulas.{freed_place};
ghost use Rattle.sp_unify.specs.View.{pair_view};

use sp_fact::fact::Action;
use sp_formula::place::{FormulaAction, FormulaTerm, Place};
use sp_term::apply::{Resolves, resolve, resolve_all};
use sp_term::term::{Term, Variable};
use std::alloc::{AllocError, Global};

// What is free as the variable of the system that it is.
#[derive(Clone, Copy)]
struct Freeing {}

impl Resolves<Place, Variable> for Freeing {
    ghost From = { spec.Place };

    ghost To = { spec_term.Variable };

    ghost from_of = { place_of };

    ghost to_of = { variable_of };

    ghost value_of = { λ s. freed_place };

    fn value_where(&self, _alloc: Global, leaf: &Place) -> Result<Option<Term>, AllocError> {
        match leaf {
            Place::Free(x) => Ok(Some(Term::Var(*x))),
            Place::Bound(_) => Ok(None),
        }
    }
}

/// The term of the system that a formula's term is, if it binds none of its variables.
pub fn freed(alloc: Global, term: &FormulaTerm) -> Result<Option<Term>, AllocError>
    ensures { IfOk result (λ o. option_map view o ≡ formulas_spec.freed (placed_term term.now)) }
{
    resolve(alloc, &Freeing {}, term)
}

/// Two terms of the system, if both are terms of it.
pub fn freed_pair(
    alloc: Global,
    left: &FormulaTerm,
    right: &FormulaTerm,
) -> Result<Option<(Term, Term)>, AllocError>
    ensures { IfOk result (λ o. option_map pair_view o ≡ formulas_spec.pair_of (placed_term left.now) (placed_term right.now)) }
{
    let Some(first) = freed(alloc, left)? else {
        return Ok(None);
    };
    let Some(second) = freed(alloc, right)? else {
        return Ok(None);
    };
    Ok(Some((first, second)))
}

/// The action of the system that a formula's action is, if it binds none of its variables.
pub fn freed_action(alloc: Global, action: &FormulaAction) -> Result<Option<Action>, AllocError>
    ensures { IfOk result (λ o. option_map action_of o ≡ formulas_spec.freed_action (placed_action action.now)) }
{
    let Some(args) = resolve_all(alloc, &Freeing {}, &action.args)? else {
        return Ok(None);
    };
    let symbol = action.symbol.clone()?;
    Ok(Some(Action { symbol, args }))
}
