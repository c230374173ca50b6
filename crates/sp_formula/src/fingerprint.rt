// Fingerprints of formulas.

ghost use Rattle.std.specs.Prelude.{◌≡◌, map};
ghost use Rattle.sp_spec.specs.Guarded.{guardeds_of};
ghost use Rattle.sp_term.specs.View.{sort_of, name_of};
ghost use Rattle.sp_formula.specs.PlaceView.{place_of, placed_term, placed_terms};
ghost use Rattle.sp_formula.specs.FormulaView.{moment_of, binder_of, atom_of, formula_of};
ghost use Rattle.sp_formula.specs.Fingerprint as spec;

use crate::formula::{Atom, Binder, Formula, Moment};
use crate::place::{FormulaTerm, Place};
use sp_term::term::{Name, Sort, Term};

const FACTOR: u64 = 1_099_511_628_211;

// The fingerprint, and one more number behind what it is made of.
#[tactic(auto, unfolding(crate::specs::Fingerprint::mixed))]
fn mixed(print: u64, number: u128) -> u64
    ensures { result ≡ spec.mixed print number }
{
    let low = (number % 0x1_0000_0000_0000_0000) as u64;
    print.wrapping_mul(FACTOR).wrapping_add(low)
}

// The same with the fingerprint of a part.
fn mixed_with(print: u64, part: u64) -> u64
    ensures { result ≡ spec.mixed print part }
{
    mixed(print, u128::from(part))
}

fn mixed_name(print: u64, name: &Name) -> u64
    ensures { result ≡ spec.mixed_name print (name_of name.now) }
{
    let mut made = print;
    for byte in name.text.as_str().as_bytes() {
        made = mixed(made, u128::from(*byte));
    }
    made
}

fn sort_print(sort: Sort) -> u64
    ensures { result ≡ spec.sort_print (sort_of sort) }
{
    match sort {
        Sort::Msg => 1,
        Sort::Fresh => 2,
        Sort::Pub => 3,
    }
}

fn place_print(place: Place) -> u64
    ensures { result ≡ spec.place_print (place_of place) }
{
    match place {
        Place::Free(x) => mixed(sort_print(x.sort), x.number),
        Place::Bound(k) => mixed_with(4, k),
    }
}

#[cycle(term_print)]
fn term_print(term: &FormulaTerm) -> u64
    ensures { result ≡ spec.term_print (placed_term term.now) }
{
    match term {
        Term::Var(place) => place_print(*place),
        Term::Constant(name) => mixed_name(5, name),
        Term::FreshName(number) => mixed(6, *number),
        Term::App(symbol, terms, _) => mixed_terms(mixed_name(7, symbol), terms),
    }
}

#[cycle(term_print)]
fn mixed_terms(print: u64, terms: &Vec<FormulaTerm>) -> u64
    ensures { result ≡ spec.mixed_terms print (placed_terms terms.now.items) }
{
    let mut made = print;
    for term in terms {
        made = mixed_with(made, term_print(term));
    }
    made
}

fn moment_print(moment: Moment) -> u64
    ensures { result ≡ spec.moment_print (moment_of moment) }
{
    match moment {
        Moment::Free(time) => mixed(1, time),
        Moment::Bound(place) => mixed_with(2, place),
    }
}

fn two_moments(print: u64, first: Moment, second: Moment) -> u64
    ensures { result ≡ spec.mixed (spec.mixed print (spec.moment_print (moment_of first))) (spec.moment_print (moment_of second)) }
{
    mixed_with(mixed_with(print, moment_print(first)), moment_print(second))
}

fn atom_print(atom: &Atom) -> u64
    ensures { result ≡ spec.atom_print (atom_of atom.now) }
{
    match atom {
        Atom::Acts(action, time) => {
            let stands = mixed_terms(mixed_name(1, &action.symbol), &action.args);
            mixed_with(stands, moment_print(*time))
        }
        Atom::Same(left, right) => {
            mixed_with(mixed_with(2, term_print(left)), term_print(right))
        }
        Atom::SameTime(first, second) => two_moments(3, *first, *second),
        Atom::Before(first, second) => two_moments(4, *first, *second),
        Atom::Last(time) => mixed_with(5, moment_print(*time)),
    }
}

fn binder_print(binder: Binder) -> u64
    ensures { result ≡ spec.binder_print (binder_of binder) }
{
    match binder {
        Binder::Message(sort) => sort_print(sort),
        Binder::Time => 4,
    }
}

fn mixed_binders(print: u64, binders: &Vec<Binder>) -> u64
    ensures { result ≡ spec.mixed_each spec.binder_print print (map binder_of binders.now.items) }
{
    let mut made = print;
    for binder in binders {
        made = mixed_with(made, binder_print(*binder));
    }
    made
}

fn mixed_atoms(print: u64, atoms: &Vec<Atom>) -> u64
    ensures { result ≡ spec.mixed_each spec.atom_print print (map atom_of atoms.now.items) }
{
    let mut made = print;
    for atom in atoms {
        made = mixed_with(made, atom_print(atom));
    }
    made
}

/// The formula's fingerprint: formulas with different fingerprints differ.
#[cycle(fingerprint)]
pub fn fingerprint(formula: &Formula) -> u64
    ensures { result ≡ spec.fingerprint (formula_of formula.now) }
{
    match formula {
        Formula::Truth => 1,
        Formula::Falsity => 2,
        Formula::Holds(atom) => mixed_with(3, atom_print(atom)),
        Formula::Fails(atom) => mixed_with(4, atom_print(atom)),
        Formula::AllOf(parts) => mixed_formulas(5, parts),
        Formula::OneOf(parts) => mixed_formulas(6, parts),
        Formula::Exists(binders, guard, body) => {
            let bound = mixed_atoms(mixed_binders(7, binders), guard);
            mixed_with(bound, fingerprint(body))
        }
        Formula::ForAll(binders, guard, body) => {
            let bound = mixed_atoms(mixed_binders(8, binders), guard);
            mixed_with(bound, fingerprint(body))
        }
    }
}

#[cycle(fingerprint)]
fn mixed_formulas(print: u64, formulas: &Vec<Formula>) -> u64
    ensures { result ≡ spec.mixed_formulas print (guardeds_of (map formula_of formulas.now.items)) }
{
    let mut made = print;
    for formula in formulas {
        made = mixed_with(made, fingerprint(formula));
    }
    made
}
