// The pairs of terms that make facts and actions the same.

ghost use Rattle.std.specs.Prelude.{◌≡◌, IfOk, map, option_map};
ghost use Rattle.sp_term.specs.Bindings.{bindings};
ghost use Rattle.sp_term.specs.View.{view_all};
ghost use Rattle.sp_spec_system.specs.Equating as equating;
ghost use Rattle.sp_fact.specs.View.{fact_of, action_of};
ghost use Rattle.sp_unify.specs.View.{pair_view};

use sp_fact::fact::{Action, Fact};
use sp_term::subst::Subst;
use sp_term::term::Term;
use sp_unify::unify::mgu;
use std::alloc::{AllocError, Global};

/// The pairs of the arguments at each place, if there are as many of the one as of the other.
pub fn argument_pairs(
    alloc: Global,
    left: &Vec<Term>,
    right: &Vec<Term>,
) -> Result<Option<Vec<(Term, Term)>>, AllocError>
    ensures { IfOk result (λ o. option_map (λ ps. map pair_view ps.items) o ≡ equating.argument_pairs (view_all left.now.items) (view_all right.now.items)) }
{
    if left.len() != right.len() {
        return Ok(None);
    }
    let mut made = Vec::with_capacity(alloc, left.len())?;
    for (t, u) in left.iter().zip(right) {
        let first = t.clone()?;
        let second = u.clone()?;
        made.push((first, second))?;
    }
    Ok(Some(made))
}

/// The pairs that make the facts the same, if their names agree.
pub fn fact_pair(
    alloc: Global,
    left: &Fact,
    right: &Fact,
) -> Result<Option<Vec<(Term, Term)>>, AllocError>
    ensures { IfOk result (λ o. option_map (λ ps. map pair_view ps.items) o ≡ equating.fact_pair (fact_of left.now) (fact_of right.now)) }
{
    if left.symbol == right.symbol && left.persistent == right.persistent {
        let pairs = argument_pairs(alloc, &left.args, &right.args)?;
        Ok(pairs)
    } else {
        Ok(None)
    }
}

/// The pairs that make the facts at each place the same, if their names agree.
pub fn fact_pairs(
    alloc: Global,
    left: &Vec<Fact>,
    right: &Vec<Fact>,
) -> Result<Option<Vec<(Term, Term)>>, AllocError>
    ensures { IfOk result (λ o. option_map (λ ps. map pair_view ps.items) o ≡ equating.fact_pairs (map fact_of left.now.items) (map fact_of right.now.items)) }
{
    if left.len() != right.len() {
        return Ok(None);
    }
    let mut made = Vec::new(alloc);
    for (f, g) in left.iter().zip(right) {
        let Some(mut pairs) = fact_pair(alloc, f, g)? else {
            return Ok(None);
        };
        made.append(&mut pairs)?;
    }
    Ok(Some(made))
}

/// The pairs that make the actions the same, if their names agree.
pub fn action_pair(
    alloc: Global,
    left: &Action,
    right: &Action,
) -> Result<Option<Vec<(Term, Term)>>, AllocError>
    ensures { IfOk result (λ o. option_map (λ ps. map pair_view ps.items) o ≡ equating.action_pair (action_of left.now) (action_of right.now)) }
{
    if left.symbol == right.symbol {
        let pairs = argument_pairs(alloc, &left.args, &right.args)?;
        Ok(pairs)
    } else {
        Ok(None)
    }
}

/// The pairs that make the actions at each place the same, if their names agree.
pub fn action_pairs(
    alloc: Global,
    left: &Vec<Action>,
    right: &Vec<Action>,
) -> Result<Option<Vec<(Term, Term)>>, AllocError>
    ensures { IfOk result (λ o. option_map (λ ps. map pair_view ps.items) o ≡ equating.action_pairs (map action_of left.now.items) (map action_of right.now.items)) }
{
    if left.len() != right.len() {
        return Ok(None);
    }
    let mut made = Vec::new(alloc);
    for (a, b) in left.iter().zip(right) {
        let Some(mut pairs) = action_pair(alloc, a, b)? else {
            return Ok(None);
        };
        made.append(&mut pairs)?;
    }
    Ok(Some(made))
}

/// The unifier of the pairs, if there are pairs and they have one.
///
/// # Errors
///
/// `AllocError` where memory is wanting.
pub fn unifier_of(
    alloc: Global,
    pairs: Option<Vec<(Term, Term)>>,
) -> Result<Option<Subst>, AllocError>
    ensures { IfOk result (λ o. option_map bindings o ≡ equating.unifier_of (option_map (λ ps. map pair_view ps.items) pairs)) }
{
    let Some(pairs) = pairs else {
        return Ok(None);
    };
    let subst = mgu(alloc, &pairs)?;
    Ok(subst)
}
