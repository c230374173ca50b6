// The times that binders bind, as the last ones and as others.

ghost use Rattle.std.specs.Prelude.{◌≡◌, zero, IfOk, map};
ghost use Rattle.sp_formula.specs.FormulaView.{binder_of, formula_of};
ghost use Rattle.sp_law_truth.specs.Shown.{times_within};
ghost use Rattle.sp_law_induction.specs.Hypothesis as spec;

use sp_formula::formula::{Atom, Binder, Formula, Moment};
use std::alloc::{AllocError, Global};

// How many times the binders bind.
fn times_in(binders: &Vec<Binder>) -> u64
    ensures { result ≡ times_within (map binder_of binders.now.items) zero }
{
    let mut count: u64 = 0;
    for binder in binders {
        match binder {
            Binder::Message(_) => {}
            Binder::Time => count += 1,
        }
    }
    count
}

/// For each time that the binders bind, in their order: it is the last.
///
/// # Errors
///
/// `AllocError` where memory is wanting.
pub(crate) fn lasts(alloc: Global, binders: &Vec<Binder>) -> Result<Vec<Formula>, AllocError>
    ensures { IfOk result (λ made. map formula_of made.items ≡ spec.lasts (map binder_of binders.now.items)) }
{
    let mut place = times_in(binders);
    let mut made = Vec::new(alloc);
    while place > 0 {
        place -= 1;
        made.push(Formula::Holds(Atom::Last(Moment::Bound(place))))?;
    }
    Ok(made)
}

/// For each time that the binders bind, in their order: it isn't the last.
///
/// # Errors
///
/// `AllocError` where memory is wanting.
pub(crate) fn not_lasts(alloc: Global, binders: &Vec<Binder>) -> Result<Vec<Formula>, AllocError>
    ensures { IfOk result (λ made. map formula_of made.items ≡ spec.not_lasts (map binder_of binders.now.items)) }
{
    let mut place = times_in(binders);
    let mut made = Vec::new(alloc);
    while place > 0 {
        place -= 1;
        made.push(Formula::Fails(Atom::Last(Moment::Bound(place))))?;
    }
    Ok(made)
}
