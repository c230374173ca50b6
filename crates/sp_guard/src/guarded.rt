// Whether formulas are guarded: each bound variable stands in an action of its quantifier's guard, or an equality of the guard gives it.

ghost use Rattle.std.specs.Prelude.{◌≡◌, ◌&&◌, ◌||◌, [], ◌∷◌, map};
ghost use Rattle.sp_spec.specs.Guarded as spec_guarded;
ghost use Rattle.sp_formula.specs.PlaceView.{place_of, placed_term};
ghost use Rattle.sp_spec.specs.Guarded.{guardeds_of};
ghost use Rattle.sp_formula.specs.FormulaView.{moment_of, atom_of, binder_of, formula_of};
ghost use Rattle.sp_law_guard.specs.IsGuarded as spec;

use sp_formula::formula::{Atom, Binder, Formula, Moment};
use sp_formula::place::{FormulaTerm, Place};
use sp_term::leaves::{Tests, each_leaf, some_leaf_of_one};
use sp_term::term::Term;

/// Whether a leaf is the bound message of this place.
#[derive(Clone, Copy)]
struct At {
    place: u64,
}

impl Tests<Place> for At {
    ghost Kind = { spec_guarded.Place };

    ghost leaf_of = { place_of };

    ghost test_of = { λ t. spec.is_place t.place };

    fn passes(&self, leaf: &Place) -> bool {
        match leaf {
            Place::Bound(bound) => *bound == self.place,
            Place::Free(_) => false,
        }
    }
}

/// Whether the term is the bound message of this place.
fn is_message(place: u64, term: &FormulaTerm) -> bool
    ensures { result ≡ spec.is_variable place (placed_term term.now) }
{
    match term {
        Term::Var(leaf) => At { place }.passes(leaf),
        _ => false,
    }
}

/// Whether the bound message of this place stands in an action of the guard.
fn in_action(place: u64, guard: &Vec<Atom>) -> bool
    ensures { result ≡ spec.in_action place (map atom_of guard.now.items) }
{
    for atom in guard {
        if let Atom::Acts(action, _) = atom {
            if some_leaf_of_one(&At { place }, &action.args) {
                return true;
            }
        }
    }
    false
}

/// Whether a leaf is bound outside of `count` messages, or stands in an action of the guard.
#[derive(Clone, Copy)]
struct Given<'a> {
    count: u64,
    guard: &'a Vec<Atom>,
}

impl<'a> Tests<Place> for Given<'a> {
    ghost Kind = { spec_guarded.Place };

    ghost leaf_of = { place_of };

    ghost test_of = { λ t. spec.place_given t.count (map atom_of t.guard.now.items) };

    fn passes(&self, leaf: &Place) -> bool {
        match leaf {
            Place::Bound(place) => *place >= self.count || in_action(*place, self.guard),
            Place::Free(_) => true,
        }
    }
}

/// Whether each variable of the term is.
fn is_given(count: u64, guard: &Vec<Atom>, term: &FormulaTerm) -> bool
    ensures { result ≡ spec.is_given count (map atom_of guard.now.items) (placed_term term.now) }
{
    each_leaf(&Given { count, guard }, term)
}

/// Whether the atom is an equality that gives the bound message of this place.
fn gives(count: u64, guard: &Vec<Atom>, place: u64, atom: &Atom) -> bool
    ensures { result ≡ spec.by_equality count (map atom_of guard.now.items) place (atom_of atom.now ∷ []) }
{
    match atom {
        Atom::Same(left, right) => {
            is_message(place, left) && is_given(count, guard, right)
                || is_message(place, right) && is_given(count, guard, left)
        }
        _ => false,
    }
}

/// Whether an equality of the guard gives the bound message of this place.
fn by_equality(count: u64, guard: &Vec<Atom>, place: u64) -> bool
    ensures { result ≡ spec.by_equality count (map atom_of guard.now.items) place (map atom_of guard.now.items) }
{
    for atom in guard {
        if gives(count, guard, place, atom) {
            return true;
        }
    }
    false
}

/// Whether the bound message of this place is guarded, in a quantifier of `count` messages.
pub(crate) fn message_guarded(count: u64, guard: &Vec<Atom>, place: u64) -> bool
    ensures { result ≡ spec.message_guarded count (map atom_of guard.now.items) place }
{
    in_action(place, guard) || by_equality(count, guard, place)
}

/// Whether an action of the guard is at the bound time of this place.
pub(crate) fn time_guarded(guard: &Vec<Atom>, place: u64) -> bool
    ensures { result ≡ spec.time_guarded (map atom_of guard.now.items) place }
{
    for atom in guard {
        if let Atom::Acts(_, Moment::Bound(bound)) = atom {
            if *bound == place {
                return true;
            }
        }
    }
    false
}

/// How many messages the binders bind.
pub(crate) fn messages_in(binders: &Vec<Binder>) -> u64
    ensures { result ≡ spec.messages_in (map binder_of binders.now.items) }
{
    let mut count: u64 = 0;
    for binder in binders {
        match binder {
            Binder::Message(_) => count += 1,
            Binder::Time => {}
        }
    }
    count
}

/// How many times the binders bind.
pub(crate) fn times_in(binders: &Vec<Binder>) -> u64
    ensures { result ≡ spec.times_in (map binder_of binders.now.items) }
{
    let mut count: u64 = 0;
    for binder in binders {
        match binder {
            Binder::Message(_) => {}
            Binder::Time => count += 1,
        }
    }
    count
}

/// Whether each of the binders is guarded, the outermost first; what is left to count are the places inside.
fn each_guarded(guard: &Vec<Atom>, binders: &Vec<Binder>) -> bool
    ensures { result ≡ spec.each_guarded (spec.messages_in (map binder_of binders.now.items)) (map atom_of guard.now.items) (map binder_of binders.now.items) }
{
    let count = messages_in(binders);
    let mut messages = count;
    let mut times = times_in(binders);
    for binder in binders {
        match binder {
            Binder::Message(_) => {
                messages -= 1;
                if !message_guarded(count, guard, messages) {
                    return false;
                }
            }
            Binder::Time => {
                times -= 1;
                if !time_guarded(guard, times) {
                    return false;
                }
            }
        }
    }
    true
}

/// Whether each bound variable of the formula is guarded.
#[cycle(guarded)]
pub fn is_guarded(formula: &Formula) -> bool
    ensures { result ≡ spec.is_guarded (formula_of formula.now) }
{
    match formula {
        Formula::Truth | Formula::Falsity => true,
        Formula::Holds(_) | Formula::Fails(_) => true,
        Formula::AllOf(parts) => are_guarded(parts),
        Formula::OneOf(parts) => are_guarded(parts),
        Formula::Exists(binders, guard, body) => each_guarded(guard, binders) && is_guarded(body),
        Formula::ForAll(binders, guard, body) => each_guarded(guard, binders) && is_guarded(body),
    }
}

#[cycle(guarded)]
fn are_guarded(parts: &Vec<Formula>) -> bool
    ensures { result ≡ spec.are_guarded (guardeds_of (map formula_of parts.now.items)) }
{
    for part in parts {
        if !is_guarded(part) {
            return false;
        }
    }
    true
}
