// The facts of a rule over new variables.

ghost use Rattle.std.specs.Prelude.{◌≡◌, IfOk};
ghost use Rattle.sp_spec.specs.Term as term;
ghost use Rattle.sp_term.specs.View.{variable_of, view};
ghost use Rattle.sp_fact.specs.View.{facts_of};
ghost use Rattle.sp_spec_system.specs.Cases as spec;
ghost use Rattle.sp_moves.specs.Shifted.{shifted};

use sp_fact::fact::Facts;
use sp_term::apply::Assigns;
use sp_term::term::{Term, Variable};
use std::alloc::{AllocError, Global};

fn shift(next: u128, variable: Variable) -> Result<Term, AllocError>
    ensures { IfOk result (λ t. view t ≡ shifted next (variable_of variable)) }
{
    let Some(number) = next.checked_add(variable.number) else {
        return Err(AllocError);
    };
    let sort = variable.sort;
    Ok(Term::Var(Variable { sort, number }))
}

// Variables, as their numbers are moved.
#[derive(Clone, Copy)]
struct Shifting {
    next: u128,
}

impl Assigns<Variable, Variable> for Shifting {
    ghost From = { term.Variable };

    ghost To = { term.Variable };

    ghost from_of = { variable_of };

    ghost to_of = { variable_of };

    ghost value_of = { λ s. shifted s.next };

    fn value(&self, _alloc: Global, leaf: &Variable) -> Result<Term, AllocError> {
        shift(self.next, *leaf)
    }
}

/// The facts over variables of the numbers from `next` on.
///
/// # Errors
///
/// `AllocError` where memory is wanting, or no number is left.
pub fn renamed(alloc: Global, next: u128, facts: &Facts) -> Result<Facts, AllocError>
    ensures { IfOk result (λ f. facts_of f ≡ spec.renamed next (facts_of facts.now)) }
{
    facts.changed(alloc, &Shifting { next })
}
