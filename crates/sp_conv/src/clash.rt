// Whether two equations clash.

ghost use Rattle.std.specs.Prelude.{◌≡◌, ◌↔◌, ◌+◌, [], ◌∷◌, IfOk, IsTrue, MatchOption, map};
ghost use Rattle.sp_spec.specs.Term as spec;
ghost use Rattle.sp_spec.specs.Term.{valued, var};
ghost use Rattle.sp_spec.specs.Substitution.{bound_to};
ghost use Rattle.sp_term.specs.View.{variable_of, view, view_all};
ghost use Rattle.sp_term.specs.Bindings.{bindings};
ghost use Rattle.sp_fact.specs.GroundView.{equation_of};
ghost use Rattle.sp_spec_forms.specs.Shifted.{above, above_all, shifted};
ghost use Rattle.sp_law_conv.specs.Clash.{DoClash, DoClashBy, apart};
ghost use Rattle.sp_unify.specs.View.{pair_view};

use sp_fact::signature::Equation;
use sp_term::apply::{Assigns, apply};
use sp_term::subst::Subst;
use sp_term::term::{Term, Variable, same};
use sp_unify::unify::mgu;
use std::alloc::{AllocError, Global};

// The sum; one that doesn't fit is want of memory.
fn sum(first: u128, second: u128) -> Result<u128, AllocError>
    ensures { IfOk result (λ n. n ≡ first + second) }
{
    match first.checked_add(second) {
        Some(number) => Ok(number),
        None => Err(AllocError),
    }
}

/// A number above that of each variable of the term: the sum over its variables of what stands above each.
///
/// # Errors
///
/// `AllocError` where the number doesn't fit.
#[cycle(above)]
pub fn above(term: &Term) -> Result<u128, AllocError>
    ensures { IfOk result (λ n. n ≡ above (view term.now)) }
{
    match term {
        Term::Var(variable) => sum(variable.number, 1),
        Term::Constant(_) | Term::FreshName(_) => Ok(0),
        Term::App(_, terms, _) => above_all(terms),
    }
}

/// A number above that of each variable of the terms.
///
/// # Errors
///
/// `AllocError` where the number doesn't fit.
#[cycle(above)]
pub fn above_all(terms: &Vec<Term>) -> Result<u128, AllocError>
    ensures { IfOk result (λ n. n ≡ above_all (view_all terms.now.items)) }
{
    let mut number = 0;
    for term in terms {
        number = sum(number, above(term)?)?;
    }
    Ok(number)
}

// A number above that of each variable of the equation.
fn apart(equation: &Equation) -> Result<u128, AllocError>
    ensures { IfOk result (λ n. n ≡ apart (equation_of equation.now)) }
{
    let left = above(&equation.left)?;
    let right = above(&equation.right)?;
    sum(left, right)
}

// Variables, as they are renamed: their numbers are moved by as much.
#[derive(Clone, Copy)]
struct Renaming {
    by: u128,
}

impl Assigns<Variable, Variable> for Renaming {
    ghost From = { spec.Variable };

    ghost To = { spec.Variable };

    ghost from_of = { variable_of };

    ghost to_of = { variable_of };

    ghost value_of = { λ r x. shifted r.by (var x) };

    fn value(&self, _alloc: Global, leaf: &Variable) -> Result<Term, AllocError> {
        let sort = leaf.sort;
        let number = sum(self.by, leaf.number)?;
        Ok(Term::Var(Variable { sort, number }))
    }
}

/// The term with its variables' numbers moved up by this, so that they stand apart from those below it.
///
/// # Errors
///
/// `AllocError` where memory is wanting, or a variable's new number doesn't fit.
pub fn shifted(alloc: Global, by: u128, term: &Term) -> Result<Term, AllocError>
    ensures { IfOk result (λ t. view t ≡ shifted by (view term.now)) }
{
    apply(alloc, &Renaming { by }, term)
}

// The pair of the left sides, with no variable in common.
fn overlap(
    alloc: Global,
    by: u128,
    first: &Equation,
    second: &Equation,
) -> Result<Vec<(Term, Term)>, AllocError>
    ensures { IfOk result (λ ps. map pair_view ps.items ≡ (view first.now.left, shifted by (view second.now.left)) ∷ []) }
{
    let left = first.left.clone()?;
    let right = shifted(alloc, by, &second.left)?;
    let mut pairs = Vec::new(alloc);
    pairs.push((left, right))?;
    Ok(pairs)
}

// Whether the right sides are the same under the bindings.
fn agree(
    alloc: Global,
    by: u128,
    unifier: &Subst,
    first: &Equation,
    second: &Equation,
) -> Result<bool, AllocError>
    ensures { IfOk result (λ b. IsTrue b ↔ (valued (bound_to (bindings unifier.now)) (view first.now.right)
        ≡ valued (bound_to (bindings unifier.now)) (shifted by (view second.now.right)))) }
{
    let left = apply(alloc, unifier, &first.right)?;
    let renamed = shifted(alloc, by, &second.right)?;
    let right = apply(alloc, unifier, &renamed)?;
    let agree = same(&left, &right);
    Ok(agree)
}

/// The unifier of the left sides, renamed apart, under which the right sides differ, if the equations clash.
///
/// # Errors
///
/// `AllocError` where memory is wanting, or a variable's new number doesn't fit.
pub fn clash(
    alloc: Global,
    first: &Equation,
    second: &Equation,
) -> Result<Option<Subst>, AllocError>
    ensures { IfOk result (λ o. MatchOption o (DoClash (equation_of first.now) (equation_of second.now) → ⊥)
        (λ s. DoClashBy (equation_of first.now) (equation_of second.now) (bindings s))) }
{
    let by = apart(first)?;
    let pairs = overlap(alloc, by, first, second)?;
    let Some(unifier) = mgu(alloc, &pairs)? else {
        return Ok(None);
    };
    if agree(alloc, by, &unifier, first, second)? {
        return Ok(None);
    }
    Ok(Some(unifier))
}
