// Whether nothing in a part of a system changes where bound variables and one time are replaced; this takes no memory.

ghost use Rattle.std.specs.Prelude.{◌≡◌, [], map};
ghost use Rattle.sp_term.specs.Bindings.{bindings};
ghost use Rattle.sp_term.specs.View.{view};
ghost use Rattle.sp_fact.specs.View.{action_of, fact_of, facts_of};
ghost use Rattle.sp_unify.specs.View.{pair_view};
ghost use Rattle.sp_formula.specs.Staying.{all_so};
ghost use Rattle.sp_system.specs.WayView.{way_of};
ghost use Rattle.sp_system.specs.SystemView.{event_of, link_of, shown};
ghost use Rattle.sp_system.specs.Stays as spec;

use crate::event::{Event, Happening, What};
use crate::system::{Link, UnequalPair};
use crate::way::Way;
use sp_fact::fact::{Action, Fact, Facts};
use sp_formula::staying::{Unbound, time_stays};
use sp_term::leaves::{each_leaf, each_leaf_of_all};
use sp_term::subst::Subst;
use sp_term::term::Term;

fn term_stays(subst: &Subst, term: &Term) -> bool
    ensures { result ≡ spec.term_stays (bindings subst.now) (view term.now) }
{
    each_leaf(&Unbound { subst }, term)
}

fn facts_stay_in(subst: &Subst, facts: &Vec<Fact>) -> bool
    ensures { result ≡ all_so (spec.fact_stays (bindings subst.now)) (map fact_of facts.now.items) }
{
    for fact in facts {
        if !each_leaf_of_all(&Unbound { subst }, &fact.args) {
            return false;
        }
    }
    true
}

fn actions_stay(subst: &Subst, actions: &Vec<Action>) -> bool
    ensures { result ≡ all_so (spec.action_stays (bindings subst.now)) (map action_of actions.now.items) }
{
    for action in actions {
        if !each_leaf_of_all(&Unbound { subst }, &action.args) {
            return false;
        }
    }
    true
}

fn facts_stay(subst: &Subst, facts: &Facts) -> bool
    ensures { result ≡ spec.facts_stay (bindings subst.now) (facts_of facts.now) }
{
    facts_stay_in(subst, &facts.premises)
        && actions_stay(subst, &facts.actions)
        && facts_stay_in(subst, &facts.conclusions)
}

fn terms_stay(subst: &Subst, terms: &Vec<Term>) -> bool
    ensures { result ≡ all_so (spec.term_stays (bindings subst.now)) (map view terms.now.items) }
{
    for term in terms {
        if !term_stays(subst, term) {
            return false;
        }
    }
    true
}

fn way_stays(subst: &Subst, small: u128, large: u128, way: &Way) -> bool
    ensures { result ≡ spec.way_stays (bindings subst.now) small large (way_of way.now) }
{
    match way {
        Way::Anyhow => true,
        Way::PublicName => true,
        Way::OwnName => true,
        Way::Constructed => true,
        Way::ChainBegun(chain) => {
            time_stays(small, large, chain.time) && terms_stay(subst, &chain.messages)
        }
        Way::ChainDone(chain) => {
            time_stays(small, large, chain.time) && terms_stay(subst, &chain.messages)
        }
    }
}

/// Whether what happens stays.
pub(crate) fn happening_stays(
    subst: &Subst,
    small: u128,
    large: u128,
    happening: &Happening,
) -> bool
    ensures { result ≡ spec.happening_stays (bindings subst.now) small large (shown happening.now) }
{
    match &happening.what {
        What::Rule(_) => facts_stay(subst, &happening.facts),
        What::Send(message) => term_stays(subst, message),
        What::Learn(message, way) => {
            term_stays(subst, message) && way_stays(subst, small, large, way)
        }
    }
}

fn event_stays(subst: &Subst, small: u128, large: u128, event: &Event) -> bool
    ensures { result ≡ spec.event_stays (bindings subst.now) small large (event_of event.now) }
{
    time_stays(small, large, event.time) && happening_stays(subst, small, large, &event.happening)
}

/// Whether each of the events stays.
pub(crate) fn events_stay(subst: &Subst, small: u128, large: u128, events: &Vec<Event>) -> bool
    ensures { result ≡ all_so (spec.event_stays (bindings subst.now) small large) (map event_of events.now.items) }
{
    for event in events {
        if !event_stays(subst, small, large, event) {
            return false;
        }
    }
    true
}

/// Whether the pair of terms stays.
pub(crate) fn pair_stays(subst: &Subst, pair: &(Term, Term)) -> bool
    ensures { result ≡ spec.pair_stays (bindings subst.now) (pair_view pair.now) }
{
    term_stays(subst, &pair.0) && term_stays(subst, &pair.1)
}

/// Whether each of the pairs of terms stays.
pub(crate) fn pairs_stay(subst: &Subst, pairs: &Vec<UnequalPair>) -> bool
    ensures { result ≡ all_so (spec.pair_stays (bindings subst.now)) (map pair_view pairs.now.items) }
{
    for pair in pairs {
        if !pair_stays(subst, pair) {
            return false;
        }
    }
    true
}

fn link_stays(small: u128, large: u128, link: Link) -> bool
    ensures { result ≡ spec.link_stays small large (link_of link) }
{
    time_stays(small, large, link.from) && time_stays(small, large, link.to)
}

/// Whether each of the links stays.
pub(crate) fn links_stay(small: u128, large: u128, links: &Vec<Link>) -> bool
    ensures { result ≡ all_so (spec.link_stays small large) (map link_of links.now.items) }
{
    for link in links {
        if !link_stays(small, large, *link) {
            return false;
        }
    }
    true
}
