// Formulas and systems as plain data, which tables can hold, and what is made of them.

use crate::formulas::{bound, free_constant, free_variable};
use crate::plain::{PlainEvent, PlainTerm, events_of, term_of};
use crate::systems::{link, system};
use sp_formula::formula::{Atom, Binder, Formula, Moment};
use sp_formula::place::{FormulaAction, FormulaTerm};
use sp_formula::shared::all_shared;
use sp_shared::shared::Shared;
use sp_system::system::{System, UnequalPair};
use sp_term::term::{Name, Sort, Term};
use std::alloc::{AllocError, Global};

/// A term of a formula.
#[derive(Clone, Copy)]
pub enum PlainLeaf<'a> {
    /// the message that a formula binds at this place, the innermost at 0
    Bound(u64),
    /// the variable of this sort and number
    Free(Sort, u128),
    /// the public name of this text
    Public(&'a str),
    /// the fresh name of this number
    FreshName(u128),
}

fn leaf_of(alloc: Global, plain: &PlainLeaf) -> Result<FormulaTerm, AllocError> {
    match plain {
        PlainLeaf::Bound(place) => Ok(bound(*place)),
        PlainLeaf::Free(sort, number) => Ok(free_variable(*sort, *number)),
        PlainLeaf::Public(text) => free_constant(alloc, text),
        PlainLeaf::FreshName(number) => Ok(Term::FreshName(*number)),
    }
}

/// What a formula says without connectives.
#[derive(Clone, Copy)]
pub enum PlainAtom<'a> {
    /// the action of the symbol over these terms stands at the time
    Acts(&'a str, &'a [PlainLeaf<'a>], Moment),
    /// the terms are equal
    Same(PlainLeaf<'a>, PlainLeaf<'a>),
    /// the times are equal
    SameTime(Moment, Moment),
    /// the first time is before the second
    Before(Moment, Moment),
    /// the time is the last one
    Last(Moment),
}

fn acts_of(
    alloc: Global,
    symbol: &str,
    args: &[PlainLeaf],
    time: Moment,
) -> Result<Atom, AllocError> {
    let mut made = Vec::new(alloc);
    for arg in args {
        made.push(leaf_of(alloc, arg)?)?;
    }
    let symbol = Name::new(alloc, symbol)?;
    Ok(Atom::Acts(FormulaAction { symbol, args: made }, time))
}

fn same_of(alloc: Global, left: &PlainLeaf, right: &PlainLeaf) -> Result<Atom, AllocError> {
    let left = leaf_of(alloc, left)?;
    let right = leaf_of(alloc, right)?;
    Ok(Atom::Same(left, right))
}

fn atom_of(alloc: Global, plain: &PlainAtom) -> Result<Atom, AllocError> {
    match plain {
        PlainAtom::Acts(symbol, args, time) => acts_of(alloc, symbol, *args, *time),
        PlainAtom::Same(left, right) => same_of(alloc, left, right),
        PlainAtom::SameTime(first, second) => Ok(Atom::SameTime(*first, *second)),
        PlainAtom::Before(first, second) => Ok(Atom::Before(*first, *second)),
        PlainAtom::Last(time) => Ok(Atom::Last(*time)),
    }
}

fn atoms_of(alloc: Global, plain: &[PlainAtom]) -> Result<Vec<Atom>, AllocError> {
    let mut made = Vec::new(alloc);
    for atom in plain {
        made.push(atom_of(alloc, atom)?)?;
    }
    Ok(made)
}

/// A guarded formula.
#[derive(Clone, Copy)]
pub enum PlainFormula<'a> {
    /// what always holds
    Truth,
    /// what never does
    Falsity,
    /// the atom holds
    Holds(PlainAtom<'a>),
    /// the atom doesn't
    Fails(PlainAtom<'a>),
    /// each of the formulas holds
    AllOf(&'a [PlainFormula<'a>]),
    /// one of the formulas holds
    OneOf(&'a [PlainFormula<'a>]),
    /// for some of what is bound the guard and the body hold
    Exists(&'a [Binder], &'a [PlainAtom<'a>], &'a PlainFormula<'a>),
    /// for all that is bound, under the guard the body holds
    ForAll(&'a [Binder], &'a [PlainAtom<'a>], &'a PlainFormula<'a>),
}

// what is bound, the guard and the body
type Quantified = (Vec<Binder>, Vec<Atom>, Box<Formula>);

fn quantified(
    alloc: Global,
    binders: &[Binder],
    guard: &[PlainAtom],
    body: Formula,
) -> Result<Quantified, AllocError> {
    let body = Box::new(alloc, body)?;
    let guard = atoms_of(alloc, guard)?;
    let binders = binders.to_vec(alloc)?;
    Ok((binders, guard, body))
}

/// The formula.
#[cycle(plain_formulas)]
pub fn formula_of(alloc: Global, plain: &PlainFormula) -> Result<Formula, AllocError> {
    match plain {
        PlainFormula::Truth => Ok(Formula::Truth),
        PlainFormula::Falsity => Ok(Formula::Falsity),
        PlainFormula::Holds(atom) => Ok(Formula::Holds(atom_of(alloc, atom)?)),
        PlainFormula::Fails(atom) => Ok(Formula::Fails(atom_of(alloc, atom)?)),
        PlainFormula::AllOf(parts) => Ok(Formula::AllOf(formulas_of(alloc, *parts)?)),
        PlainFormula::OneOf(parts) => Ok(Formula::OneOf(formulas_of(alloc, *parts)?)),
        PlainFormula::Exists(binders, guard, body) => {
            let body = formula_of(alloc, *body)?;
            let (binders, guard, body) = quantified(alloc, *binders, *guard, body)?;
            Ok(Formula::Exists(binders, guard, body))
        }
        PlainFormula::ForAll(binders, guard, body) => {
            let body = formula_of(alloc, *body)?;
            let (binders, guard, body) = quantified(alloc, *binders, *guard, body)?;
            Ok(Formula::ForAll(binders, guard, body))
        }
    }
}

/// The formulas.
#[cycle(plain_formulas)]
pub fn formulas_of(alloc: Global, plain: &[PlainFormula]) -> Result<Vec<Formula>, AllocError> {
    let mut made = Vec::new(alloc);
    for part in plain {
        made.push(formula_of(alloc, part)?)?;
    }
    Ok(made)
}

/// What a log has to satisfy.
#[derive(Clone, Copy)]
pub struct PlainSystem<'a> {
    /// the events that it has
    pub events: &'a [PlainEvent<'a>],
    /// what is true of it
    pub formulas: &'a [PlainFormula<'a>],
    /// what is true of it too, and has been used
    pub spent: &'a [PlainFormula<'a>],
    /// the pairs of terms with different values
    pub unequal: &'a [(PlainTerm<'a>, PlainTerm<'a>)],
    /// the sources of premises: the time and the conclusion that gives, the time and the premise that takes
    pub links: &'a [(u128, usize, u128, usize)],
    /// the pairs of times of which the first is before the second
    pub order: &'a [(u128, u128)],
    /// the time that is said to be the last one, if one is
    pub last: Option<u128>,
    /// whether nothing happens but at its events
    pub closed: bool,
    /// a number above those of all variables and times
    pub next: u128,
}

/// The system in which nothing stands.
pub const EMPTY: PlainSystem<'static> = PlainSystem {
    events: &[],
    formulas: &[],
    spent: &[],
    unequal: &[],
    links: &[],
    order: &[],
    last: None,
    closed: false,
    next: 9,
};

fn pairs_of(
    alloc: Global,
    plain: &[(PlainTerm, PlainTerm)],
) -> Result<Vec<UnequalPair>, AllocError> {
    let mut made = Vec::new(alloc);
    for (left, right) in plain {
        let left = term_of(alloc, left)?;
        let right = term_of(alloc, right)?;
        made.push(Shared::new(alloc, (left, right))?)?;
    }
    Ok(made)
}

/// The system.
pub fn system_of(alloc: Global, plain: &PlainSystem) -> Result<System, AllocError> {
    let mut made = system(alloc, formulas_of(alloc, plain.formulas)?, plain.next)?;
    made.events.append(alloc, events_of(alloc, plain.events)?)?;
    let spent = formulas_of(alloc, plain.spent)?;
    made.spent.append(alloc, all_shared(alloc, spent)?)?;
    made.unequal.append(alloc, pairs_of(alloc, plain.unequal)?)?;
    for (from, conclusion, to, premise) in plain.links {
        let link = link(*from, *conclusion, *to, *premise);
        made.links.push(alloc, link)?;
    }
    made.order.add_all(alloc, plain.order)?;
    made.last = plain.last;
    made.closed = plain.closed;
    Ok(made)
}
