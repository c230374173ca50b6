// The atoms of a formula, with each name in the place that it means.

ghost use Rattle.std.specs.Prelude.{◌≡◌, IfOk, option_map};
ghost use Rattle.sp_spec.specs.Formula.{Written};
ghost use Rattle.sp_spec.specs.Guarded as spec_guarded;
ghost use Rattle.sp_read_parts.specs.Views as view;
ghost use Rattle.sp_formula.specs.PlaceView.{place_of, placed_term};
ghost use Rattle.sp_formula.specs.FormulaView.{moment_of, atom_of, binder_of};
ghost use Rattle.sp_law_guard.specs.GuardedForm as spec;
ghost use Rattle.sp_guard.specs.View.{meaning_of, innermost_first};

use crate::meaning::{Meaning, meant};
use sp_formula::formula::{Atom, Binder, Moment};
use sp_formula::place::{FormulaAction, FormulaTerm, Place};
use sp_read_parts::{Mark, WrittenAction, WrittenTerm, WrittenVariable};
use sp_term::apply::{Resolves, resolve, resolve_all};
use sp_term::term::{Sort, Term};
use std::alloc::{AllocError, Global};

/// The message that is meant.
fn message_place(meaning: Option<Meaning>) -> Option<FormulaTerm>
    ensures { option_map placed_term result ≡ spec.message_place (option_map meaning_of meaning) }
{
    match meaning {
        Some(Meaning::Message(_, place)) => Some(Term::Var(Place::Bound(place))),
        _ => None,
    }
}

/// The time that is meant.
fn time_place(meaning: Option<Meaning>) -> Option<Moment>
    ensures { option_map moment_of result ≡ spec.time_place (option_map meaning_of meaning) }
{
    match meaning {
        Some(Meaning::Time(place)) => Some(Moment::Bound(place)),
        _ => None,
    }
}

/// What names mean inside these binders.
#[derive(Clone, Copy)]
struct Inside<'a, 'b> {
    binders: &'a Vec<WrittenVariable<'b>>,
}

// The message that the variable means.
impl<'a, 'b> Resolves<WrittenVariable<'b>, Place> for Inside<'a, 'b> {
    ghost From = { Written };

    ghost To = { spec_guarded.Place };

    ghost from_of = { view.variable };

    ghost to_of = { place_of };

    ghost value_of = { λ s. spec.placed_variable (innermost_first s.binders.now.items) };

    fn value_where(
        &self,
        _alloc: Global,
        leaf: &WrittenVariable<'b>,
    ) -> Result<Option<FormulaTerm>, AllocError> {
        Ok(message_place(meant(self.binders, leaf.name)))
    }
}

/// The action at its time, with each name in the place that it means.
///
/// # Errors
///
/// `AllocError` where memory is wanting.
pub fn action_placed<'a>(
    alloc: Global,
    binders: &Vec<WrittenVariable<'a>>,
    action: &WrittenAction<'a>,
    at: &WrittenVariable<'a>,
) -> Result<Option<Atom>, AllocError>
    ensures { IfOk result (λ o. option_map atom_of o ≡ spec.acts_at (spec.placed_action (innermost_first binders.now.items) (view.action_of action.now)) (spec.time_place (spec.meant (innermost_first binders.now.items) at.now.name.now))) }
{
    let Some(args) = resolve_all(alloc, &Inside { binders }, &action.args)? else {
        return Ok(None);
    };
    let Some(time) = time_place(meant(binders, at.name)) else {
        return Ok(None);
    };
    let symbol = action.symbol.clone()?;
    Ok(Some(Atom::Acts(FormulaAction { symbol, args }, time)))
}

/// The time that the term is, if it is a name that means one.
fn term_time(binders: &Vec<WrittenVariable>, term: &WrittenTerm) -> Option<Moment>
    ensures { option_map moment_of result ≡ spec.term_time (innermost_first binders.now.items) (view.term term.now) }
{
    match term {
        Term::Var(variable) => time_place(meant(binders, variable.name)),
        _ => None,
    }
}

/// That two messages are equal.
fn same_placed<'a>(
    alloc: Global,
    binders: &Vec<WrittenVariable<'a>>,
    left: &WrittenTerm<'a>,
    right: &WrittenTerm<'a>,
) -> Result<Option<Atom>, AllocError>
    ensures { IfOk result (λ o. option_map atom_of o ≡ spec.same_at (spec.placed_term (innermost_first binders.now.items) (view.term left.now)) (spec.placed_term (innermost_first binders.now.items) (view.term right.now))) }
{
    let inside = Inside { binders };
    let Some(left) = resolve(alloc, &inside, left)? else {
        return Ok(None);
    };
    let Some(right) = resolve(alloc, &inside, right)? else {
        return Ok(None);
    };
    Ok(Some(Atom::Same(left, right)))
}

/// That two times, or else two messages, are equal.
///
/// # Errors
///
/// `AllocError` where memory is wanting.
pub fn equality_placed<'a>(
    alloc: Global,
    binders: &Vec<WrittenVariable<'a>>,
    left: &WrittenTerm<'a>,
    right: &WrittenTerm<'a>,
) -> Result<Option<Atom>, AllocError>
    ensures { IfOk result (λ o. option_map atom_of o ≡ spec.equality_at (innermost_first binders.now.items) (view.term left.now) (view.term right.now) (spec.term_time (innermost_first binders.now.items) (view.term left.now)) (spec.term_time (innermost_first binders.now.items) (view.term right.now))) }
{
    match (term_time(binders, left), term_time(binders, right)) {
        (Some(first), Some(second)) => Ok(Some(Atom::SameTime(first, second))),
        (None, None) => same_placed(alloc, binders, left, right),
        _ => Ok(None),
    }
}

/// That one time is before the other.
pub fn order_placed(
    binders: &Vec<WrittenVariable>,
    first: &WrittenVariable,
    second: &WrittenVariable,
) -> Option<Atom>
    ensures { option_map atom_of result ≡ spec.before_at (spec.time_place (spec.meant (innermost_first binders.now.items) first.now.name.now)) (spec.time_place (spec.meant (innermost_first binders.now.items) second.now.name.now)) }
{
    let first = time_place(meant(binders, first.name));
    let second = time_place(meant(binders, second.name));
    match (first, second) {
        (Some(first), Some(second)) => Some(Atom::Before(first, second)),
        _ => None,
    }
}

/// What a binder with this mark binds.
pub fn marked_binder(mark: Mark) -> Binder
    ensures { binder_of result ≡ spec.binder_of (view.mark mark) }
{
    match mark {
        Mark::Bare | Mark::Message => Binder::Message(Sort::Msg),
        Mark::Fresh => Binder::Message(Sort::Fresh),
        Mark::Public => Binder::Message(Sort::Pub),
        Mark::Time => Binder::Time,
    }
}
