// Atoms and formulas.

use sp_formula::formula::{Atom, Binder, Formula, Moment};
use sp_formula::place::{FormulaAction, FormulaTerm, Place};
use sp_term::term::{Name, Sort, Term, Variable};
use std::alloc::{AllocError, Global};

/// The public name of this text, in a formula.
pub fn free_constant(alloc: Global, text: &str) -> Result<FormulaTerm, AllocError> {
    Ok(Term::Constant(Name::new(alloc, text)?))
}

/// The variable of this sort and number, in a formula.
pub fn free_variable(sort: Sort, number: u128) -> FormulaTerm {
    Term::Var(Place::Free(Variable { sort, number }))
}

/// The message that a formula binds at this place, the innermost at 0.
pub fn bound(place: u64) -> FormulaTerm {
    Term::Var(Place::Bound(place))
}

/// The action of the symbol over this term, at this moment.
pub fn acts(
    alloc: Global,
    symbol: &str,
    term: FormulaTerm,
    moment: Moment,
) -> Result<Atom, AllocError> {
    let args = vec![in alloc; term]?;
    let symbol = Name::new(alloc, symbol)?;
    Ok(Atom::Acts(FormulaAction { symbol, args }, moment))
}

/// The two times are one.
pub fn same_time(first: u128, second: u128) -> Atom {
    Atom::SameTime(Moment::Free(first), Moment::Free(second))
}

/// The first time is before the second.
pub fn before(first: u128, second: u128) -> Atom {
    Atom::Before(Moment::Free(first), Moment::Free(second))
}

/// Binds a message of each sort, and behind each a time.
pub fn messages_and_times(alloc: Global, sorts: &[Sort]) -> Result<Vec<Binder>, AllocError> {
    let mut binders = Vec::new(alloc);
    for sort in sorts {
        binders.push(Binder::Message(*sort))?;
        binders.push(Binder::Time)?;
    }
    Ok(binders)
}

/// For all that is bound: under the guard the body holds.
pub fn for_all(
    alloc: Global,
    binders: Vec<Binder>,
    guard: Vec<Atom>,
    body: Formula,
) -> Result<Formula, AllocError> {
    Ok(Formula::ForAll(binders, guard, Box::new(alloc, body)?))
}

/// For some of what is bound the guard and the body hold.
pub fn exists(
    alloc: Global,
    binders: Vec<Binder>,
    guard: Vec<Atom>,
    body: Formula,
) -> Result<Formula, AllocError> {
    Ok(Formula::Exists(binders, guard, Box::new(alloc, body)?))
}
