// Actions and equalities of a guard, and the values that they give to what a quantifier binds.

ghost use Rattle.std.specs.Prelude.{◌≡◌, ◌∷◌, [], List, IfOk, map, option_map};
ghost use Rattle.sp_spec.specs.Term as spec_term;
ghost use Rattle.sp_spec.specs.Guarded as guarded;
ghost use Rattle.sp_term.specs.View.{variable_of, view};
ghost use Rattle.sp_term.specs.Bindings.{answer};
ghost use Rattle.sp_fact.specs.View.{action_of};
ghost use Rattle.sp_formula.specs.FormulaView.{moment_of, atom_of};
ghost use Rattle.sp_formula.specs.PlaceView.{place_of, placed_term, placed_action};
ghost use Rattle.sp_spec_formula.specs.Instances as spec;
ghost use Rattle.sp_spec_system.specs.System.{happening_actions};
ghost use Rattle.sp_system.specs.SystemView.{event_of};
ghost use Rattle.sp_rows_formula.specs.MatchesView as found_by;
ghost use Rattle.sp_rows_formula.specs.SlotsView.{messages_of, slots_of, put_at};

use crate::slots::{Messages, Slots, put_time};
use sp_fact::fact::Action;
use sp_formula::formula::{Atom, Moment};
use sp_formula::place::{FormulaAction, FormulaTerm, Place};
use sp_formula::slots::{fill, value_at};
use sp_system::event::Event;
use sp_term::apply::{Resolves, resolve};
use sp_term::matching::{Binds, extend_all};
use sp_term::term::{Term, Variable, same};
use std::alloc::{AllocError, Global};

// What is bound takes the value of the term beside it, and a variable of the system stands for itself.
impl Binds<Place, Variable> for Messages {
    ghost From = { guarded.Place };

    ghost To = { spec_term.Variable };

    ghost from_of = { place_of };

    ghost to_of = { variable_of };

    ghost Bindings = { List spec.Message };

    ghost bindings = { messages_of };

    ghost bound_by = { spec.matched_place };

    fn bind(&mut self, leaf: &Place, term: &Term) -> Result<bool, AllocError> {
        match leaf {
            Place::Bound(place) => fill(&mut self.slots, *place, term, false),
            Place::Free(variable) => Ok(same(&Term::Var(*variable), term)),
        }
    }
}

// The value of what is bound, if it has one by now; a variable of the system stands for itself.
impl Resolves<Place, Variable> for Messages {
    ghost From = { guarded.Place };

    ghost To = { spec_term.Variable };

    ghost from_of = { place_of };

    ghost to_of = { variable_of };

    ghost value_of = { λ s. spec.place_value (messages_of s) };

    fn value_where(&self, _alloc: Global, leaf: &Place) -> Result<Option<Term>, AllocError> {
        match leaf {
            Place::Bound(place) => match value_at(&self.slots, *place) {
                Some(value) => Ok(Some(value.clone()?)),
                None => Ok(None),
            },
            Place::Free(variable) => Ok(Some(Term::Var(*variable))),
        }
    }
}

fn matched_time(times: Vec<Option<u128>>, moment: Moment, time: u128) -> Option<Vec<Option<u128>>>
    ensures { option_map (λ xs. xs.items) result ≡ spec.matched_time times.items (moment_of moment) time }
{
    match moment {
        Moment::Bound(place) => put_time(times, place, time),
        Moment::Free(other) => { if other == time { Some(times) } else { None } }
    }
}

/// The slots with the values for which the guard's action is that action at that time.
///
/// # Errors
///
/// `AllocError` where memory is wanting.
pub fn matched_action(
    alloc: Global,
    slots: &Slots,
    action: &FormulaAction,
    moment: Moment,
    other: &Action,
    time: u128,
) -> Result<Option<Slots>, AllocError>
    ensures { IfOk result (λ o. option_map slots_of o ≡ spec.matched_action (slots_of slots.now) (placed_action action.now) (moment_of moment) (action_of other.now) time) }
{
    if action.symbol != other.symbol {
        return Ok(None);
    }
    let mut messages = slots.messages.clone()?;
    if !extend_all(&action.args, &other.args, &mut messages)? {
        return Ok(None);
    }
    let times = Vec::from_slice(alloc, &slots.times)?;
    let Some(times) = matched_time(times, moment, time) else {
        return Ok(None);
    };
    Ok(Some(Slots { messages, times }))
}

// Gives the term the value, if it is a bound variable, and tells whether it may have it.
fn give(messages: &mut Messages, term: &FormulaTerm, value: &Term) -> Result<bool, AllocError>
    ensures { IfOk result (λ b. answer b (messages_of messages.new) ≡ put_at (messages_of messages.old) (spec.place_of_bound (placed_term term.now)) (view value.now)) }
{
    match term {
        Term::Var(Place::Bound(place)) => fill(&mut messages.slots, *place, value, false),
        _ => Ok(true),
    }
}

// An equality gives a variable without value the value of its other side.
fn by_equality(
    alloc: Global,
    messages: &mut Messages,
    left: &FormulaTerm,
    right: &FormulaTerm,
) -> Result<bool, AllocError>
    ensures { IfOk result (λ b. answer b (messages_of messages.new) ≡ spec.given (messages_of messages.old) (spec.place_of_bound (placed_term left.now)) (spec.value_in (messages_of messages.old) (placed_term left.now)) (spec.place_of_bound (placed_term right.now)) (spec.value_in (messages_of messages.old) (placed_term right.now))) }
{
    let first = resolve(alloc, messages, left)?;
    let second = resolve(alloc, messages, right)?;
    match (first, second) {
        (None, Some(value)) => give(messages, left, &value),
        (Some(value), None) => give(messages, right, &value),
        _ => Ok(true),
    }
}

/// Gives the values that the equalities give, one after another, and tells whether they may.
///
/// # Errors
///
/// `AllocError` where memory is wanting.
pub fn by_equalities(
    alloc: Global,
    messages: &mut Messages,
    guard: &Vec<Atom>,
) -> Result<bool, AllocError>
    ensures { IfOk result (λ b. answer b (messages_of messages.new) ≡ spec.by_equalities (messages_of messages.old) (map atom_of guard.now.items)) }
{
    for atom in guard {
        if let Atom::Same(left, right) = atom {
            if !by_equality(alloc, messages, left, right)? {
                return Ok(false);
            }
        }
    }
    Ok(true)
}

fn are_alike(
    alloc: Global,
    messages: &Messages,
    left: &FormulaTerm,
    right: &FormulaTerm,
) -> Result<bool, AllocError>
    ensures { IfOk result (λ b. b ≡ spec.are_alike (spec.value_in (messages_of messages.now) (placed_term left.now)) (spec.value_in (messages_of messages.now) (placed_term right.now))) }
{
    let Some(first) = resolve(alloc, messages, left)? else {
        return Ok(false);
    };
    let Some(second) = resolve(alloc, messages, right)? else {
        return Ok(false);
    };
    Ok(same(&first, &second))
}

fn is_settled(alloc: Global, messages: &Messages, atom: &Atom) -> Result<bool, AllocError>
    ensures { IfOk result (λ b. b ≡ spec.are_settled (messages_of messages.now) (atom_of atom.now ∷ [])) }
{
    match atom {
        Atom::Acts(_, _) => Ok(true),
        Atom::Same(left, right) => {
            let is_alike = are_alike(alloc, messages, left, right)?;
            Ok(is_alike)
        }
        _ => Ok(false),
    }
}

/// Whether the two sides of each equality are the same, and no other atoms than actions are left.
///
/// # Errors
///
/// `AllocError` where memory is wanting.
pub fn are_settled(
    alloc: Global,
    messages: &Messages,
    guard: &Vec<Atom>,
) -> Result<bool, AllocError>
    ensures { IfOk result (λ b. b ≡ spec.are_settled (messages_of messages.now) (map atom_of guard.now.items)) }
{
    for atom in guard {
        if !is_settled(alloc, messages, atom)? {
            return Ok(false);
        }
    }
    Ok(true)
}

fn matches_at(
    alloc: Global,
    slots: &Slots,
    action: &FormulaAction,
    moment: Moment,
    event: &Event,
) -> Result<Vec<Slots>, AllocError>
    ensures { IfOk result (λ found. map slots_of found.items ≡ found_by.matches_at (slots_of slots.now) (placed_action action.now) (moment_of moment) event.now.time (happening_actions (event_of event.now).happening)) }
{
    let mut found = Vec::new(alloc);
    for other in event.actions() {
        if let Some(made) = matched_action(alloc, slots, action, moment, other, event.time)? {
            found.push(made)?;
        }
    }
    Ok(found)
}

/// The slots with the values of each match of the guard's action, in the order of the events and of their actions.
///
/// # Errors
///
/// `AllocError` where memory is wanting.
pub fn matches(
    alloc: Global,
    slots: &Slots,
    action: &FormulaAction,
    moment: Moment,
    events: &Vec<Event>,
) -> Result<Vec<Slots>, AllocError>
    ensures { IfOk result (λ found. map slots_of found.items ≡ found_by.matches (slots_of slots.now) (placed_action action.now) (moment_of moment) (map event_of events.now.items)) }
{
    let mut found = Vec::new(alloc);
    for event in events {
        let mut more = matches_at(alloc, slots, action, moment, event)?;
        found.append(&mut more)?;
    }
    Ok(found)
}
