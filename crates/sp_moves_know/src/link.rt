// A link of a chain: a destruction over variables of new numbers.

ghost use Rattle.std.specs.Prelude.{◌≡◌, ◌+◌, IfOk};
ghost use Rattle.sp_spec.specs.Term as terms;
ghost use Rattle.sp_spec.specs.Term.{valued, valued_all};
ghost use Rattle.sp_term.specs.View.{variable_of, view, view_all};
ghost use Rattle.sp_destruct.specs.View.{destruction_of};
ghost use Rattle.sp_variant.specs.View.{list_by};
ghost use Rattle.sp_spec_know.specs.Chain.{numbered_from, variables_of};
ghost use Rattle.sp_moves_know.specs.Linking.{placed_from, seen_in};

use sp_destruct::destruction::Destruction;
use sp_term::apply::{Assigns, apply, apply_all};
use sp_term::term::{Term, Variable};
use sp_variant::numbering::{place, see_term, see_terms};
use std::alloc::{AllocError, Global};

/// A destruction over variables of new numbers.
#[derive(Drop)]
pub struct ChainLink {
    /// what is destructed
    pub pattern: Term,
    /// what must be known beside it
    pub sides: Vec<Term>,
    /// the message that the chain goes on with
    pub message: Term,
    /// the number after those of the variables
    pub next: u128,
}

// The variables of the destruction, as they are first seen.
fn seen_in(alloc: Global, destruction: &Destruction) -> Result<Vec<Variable>, AllocError>
    ensures { IfOk result (λ xs. list_by variable_of xs ≡ seen_in (destruction_of destruction.now)) }
{
    let mut seen = Vec::new(alloc);
    see_term(&mut seen, &destruction.pattern)?;
    see_terms(&mut seen, &destruction.sides)?;
    see_term(&mut seen, &destruction.result)?;
    Ok(seen)
}

// The variable, numbered from `first` on by its place among these.
fn placed(first: u128, variables: &Vec<Variable>, variable: Variable) -> Result<Term, AllocError>
    ensures { IfOk result (λ t. view t ≡ placed_from first (list_by variable_of variables.now) (variable_of variable)) }
{
    let Some(number) = first.checked_add(place(variables, variable) as u128) else {
        return Err(AllocError);
    };
    let sort = variable.sort;
    Ok(Term::Var(Variable { sort, number }))
}

// Variables, as they are numbered from a number on by their places among these.
#[derive(Clone, Copy)]
struct PlacesFrom<'a> {
    first: u128,
    variables: &'a Vec<Variable>,
}

impl<'a> Assigns<Variable, Variable> for PlacesFrom<'a> {
    ghost From = { terms.Variable };

    ghost To = { terms.Variable };

    ghost from_of = { variable_of };

    ghost to_of = { variable_of };

    ghost value_of = { λ p. placed_from p.first (list_by variable_of p.variables.now) };

    fn value(&self, _alloc: Global, leaf: &Variable) -> Result<Term, AllocError> {
        placed(self.first, self.variables, *leaf)
    }
}

/// The destruction, whose variables have the numbers from `first` on, as they are first seen.
///
/// # Errors
///
/// `AllocError` where memory is wanting, or no number is left.
pub fn new_link(
    alloc: Global,
    first: u128,
    destruction: &Destruction,
) -> Result<ChainLink, AllocError>
    ensures pattern { IfOk result (λ l. view l.pattern
        ≡ valued (numbered_from first (destruction_of destruction.now)) (view destruction.now.pattern)) }
    ensures sides { IfOk result (λ l. view_all l.sides.items
        ≡ valued_all (numbered_from first (destruction_of destruction.now)) (view_all destruction.now.sides.items)) }
    ensures message { IfOk result (λ l. view l.message
        ≡ valued (numbered_from first (destruction_of destruction.now)) (view destruction.now.result)) }
    ensures next { IfOk result (λ l. l.next ≡ first + variables_of (destruction_of destruction.now)) }
{
    let variables = seen_in(alloc, destruction)?;
    let Some(next) = first.checked_add(variables.len() as u128) else {
        return Err(AllocError);
    };
    let places = PlacesFrom {
        first,
        variables: &variables,
    };
    let pattern = apply(alloc, &places, &destruction.pattern)?;
    let sides = apply_all(alloc, &places, &destruction.sides)?;
    let message = apply(alloc, &places, &destruction.result)?;
    Ok(ChainLink {
        pattern,
        sides,
        message,
        next,
    })
}
