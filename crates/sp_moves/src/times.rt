// The times that occur in a system.

ghost use Rattle.std.specs.Prelude.{◌≡◌, map};
ghost use Rattle.sp_formula.specs.FormulaView.{moment_of, atom_of, formula_of};
ghost use Rattle.sp_system.specs.SystemView.{event_of, link_of, system_of};
ghost use Rattle.sp_spec_system.specs.Occurring as occurring;
ghost use Rattle.sp_moves.specs.Times as spec;

use sp_formula::formula::{Atom, Formula, Moment};
use sp_formula::shared::SharedFormula;
use sp_system::event::{Event, What};
use sp_system::system::{Link, System};
use sp_system::way::Way;

fn is_time(time: u128, moment: Moment) -> bool
    ensures { result ≡ spec.is_time time (moment_of moment) }
{
    match moment {
        Moment::Free(other) => other == time,
        Moment::Bound(_) => false,
    }
}

fn atom_has(time: u128, atom: &Atom) -> bool
    ensures { result ≡ spec.atom_has time (atom_of atom.now) }
{
    match atom {
        Atom::Acts(_, moment) => is_time(time, *moment),
        Atom::Same(_, _) => false,
        Atom::SameTime(left, right) => is_time(time, *left) || is_time(time, *right),
        Atom::Before(left, right) => is_time(time, *left) || is_time(time, *right),
        Atom::Last(moment) => is_time(time, *moment),
    }
}

fn guard_has(time: u128, guard: &Vec<Atom>) -> bool
    ensures { result ≡ spec.guard_has time (map atom_of guard.now.items) }
{
    for atom in guard {
        if atom_has(time, atom) {
            return true;
        }
    }
    false
}

#[cycle(formula_has)]
fn formula_has(time: u128, formula: &Formula) -> bool
    ensures { result ≡ spec.formula_has time (formula_of formula.now) }
{
    match formula {
        Formula::Truth => false,
        Formula::Falsity => false,
        Formula::Holds(atom) => atom_has(time, atom),
        Formula::Fails(atom) => atom_has(time, atom),
        Formula::AllOf(parts) => formulas_have(time, parts),
        Formula::OneOf(parts) => formulas_have(time, parts),
        Formula::Exists(_, guard, body) => guard_has(time, guard) || formula_has(time, body),
        Formula::ForAll(_, guard, body) => guard_has(time, guard) || formula_has(time, body),
    }
}

#[cycle(formula_has)]
fn formulas_have(time: u128, formulas: &Vec<Formula>) -> bool
    ensures { result ≡ spec.formulas_have time (map formula_of formulas.now.items) }
{
    for formula in formulas {
        if formula_has(time, formula) {
            return true;
        }
    }
    false
}

fn shared_have(time: u128, formulas: &Vec<SharedFormula>) -> bool
    ensures { result ≡ spec.formulas_have time (map formula_of formulas.now.items) }
{
    for formula in formulas {
        if formula_has(time, formula) {
            return true;
        }
    }
    false
}

fn event_has(time: u128, event: &Event) -> bool
    ensures { result ≡ spec.event_has time (event_of event.now) }
{
    if event.time == time {
        return true;
    }
    match event.what() {
        What::Learn(_, Way::ChainBegun(chain)) => chain.time == time,
        What::Learn(_, Way::ChainDone(chain)) => chain.time == time,
        _ => false,
    }
}

fn events_have(time: u128, events: &Vec<Event>) -> bool
    ensures { result ≡ spec.events_have time (map event_of events.now.items) }
{
    for event in events {
        if event_has(time, event) {
            return true;
        }
    }
    false
}

fn links_have(time: u128, links: &Vec<Link>) -> bool
    ensures { result ≡ spec.links_have time (map link_of links.now.items) }
{
    for link in links {
        if link.from == time || link.to == time {
            return true;
        }
    }
    false
}

fn order_has(time: u128, order: &[(u128, u128)]) -> bool
    ensures { result ≡ spec.order_has time order.now }
{
    for pair in order {
        if pair.0 == time || pair.1 == time {
            return true;
        }
    }
    false
}

fn some_part_has(time: u128, system: &System) -> bool
    ensures { result ≡ spec.some_part_has time (system_of system.now) }
{
    events_have(time, &system.events)
        || shared_have(time, &system.formulas)
        || shared_have(time, &system.spent)
        || links_have(time, &system.links)
        || order_has(time, system.order.pairs())
        || system.last == Some(time)
}

/// Whether the time occurs anywhere in the system.
pub fn has_time(time: u128, system: &System) -> bool
    ensures { result ≡ occurring.has_time time (system_of system.now) }
{
    some_part_has(time, system)
}
