// Two terms that are said to differ.

ghost use Rattle.std.specs.Prelude.{◌≡◌, IfOk, OnOk, map, option_map};
ghost use Rattle.sp_formula.specs.FormulaView.{formula_of};
ghost use Rattle.sp_unify.specs.View.{pair_view};
ghost use Rattle.sp_system.specs.SystemView.{system_of};
ghost use Rattle.sp_spec_formula.specs.Unequal as unequal_spec;
ghost use Rattle.sp_rows_formula.specs.RowsView.{position_of, keeping};
ghost use Rattle.sp_system.specs.Reduced.{Reduced};

use sp_formula::formula::{Atom, Formula};
use sp_shared::shared::Shared;
use sp_system::freed::freed_pair;
use sp_system::spend::spend;
use sp_system::system::{System, UnequalPair};
use sp_term::term::{Term, same};
use sp_unify::unify::mgu;
use std::alloc::{AllocError, Global};
use std::slice;

fn inequality_of(alloc: Global, formula: &Formula) -> Result<Option<(Term, Term)>, AllocError>
    ensures { IfOk result (λ o. option_map pair_view o ≡ unequal_spec.inequality_of (formula_of formula.now)) }
{
    match formula {
        Formula::Fails(Atom::Same(left, right)) => freed_pair(alloc, left, right),
        _ => Ok(None),
    }
}

fn position_of_inequality(
    alloc: Global,
    system: &System,
) -> Result<Option<(usize, (Term, Term))>, AllocError>
    ensures { IfOk result (λ o. option_map (λ p. (p.0, pair_view p.1)) o ≡ position_of unequal_spec.inequality_of (map formula_of system.now.formulas.items)) }
{
    for (position, formula) in system.formulas.iter().enumerate() {
        if let Some(pair) = inequality_of(alloc, formula)? {
            return Ok(Some((position, pair)));
        }
    }
    Ok(None)
}

// Keeps the pair as an unequal pair, if it has a unifier.
fn keep(alloc: Global, system: &mut System, pair: (Term, Term)) -> Result<(), AllocError>
    ensures { OnOk result (system_of system.new ≡ keeping (system_of system.old) (pair_view pair)) }
{
    if mgu(alloc, slice::from_ref(&pair))?.is_some() {
        let pair = Shared::new(alloc, pair)?;
        system.unequal.push(alloc, pair)?;
    }
    Ok(())
}

/// Spends the first formula that says of two terms that they differ; they are an unequal pair if they have a unifier. False if there is no
/// such formula.
///
/// # Errors
///
/// `AllocError` where memory is wanting.
pub fn unequal(alloc: Global, system: &mut System) -> Result<bool, AllocError>
    ensures { IfOk result (λ b. Reduced b (system_of system.old) (system_of system.new) (unequal_spec.unequal (system_of system.old))) }
{
    let Some((position, pair)) = position_of_inequality(alloc, system)? else {
        return Ok(false);
    };
    spend(alloc, system, position)?;
    keep(alloc, system, pair)?;
    Ok(true)
}

/// Whether some pair that is said to be unequal is twice the same term.
pub fn has_equal_pair(pairs: &Vec<UnequalPair>) -> bool
    ensures { result ≡ unequal_spec.has_equal_pair (map pair_view pairs.now.items) }
{
    for pair in pairs {
        if same(&pair.0, &pair.1) {
            return true;
        }
    }
    false
}
