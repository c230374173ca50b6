// The terms whose Fr premises and events use.

ghost use Rattle.std.specs.Prelude.{◌≡◌, ◌≤◌, drop, length, map, option_map};
ghost use Rattle.sp_term.specs.View.{view};
ghost use Rattle.sp_fact.specs.View.{fact_of};
ghost use Rattle.sp_system.specs.SystemView.{event_of};
ghost use Rattle.sp_spec_graph.specs.Fresh as fresh;
ghost use Rattle.sp_rows_graph.specs.FreshView.{fresh_one, may_use_fresh, own_one, takes_fr};

use sp_fact::fact::Fact;
use sp_learnings::premise::is_fresh;
use sp_system::event::{Event, What};
use sp_system::way::Way;
use sp_term::term::{Term, same};

/// The term whose Fr the premise uses.
pub fn fresh_term(fact: &Fact) -> Option<&Term>
    ensures { option_map (λ t. view t.now) result ≡ fresh_one (fact_of fact.now) }
{
    if is_fresh(fact) {
        fact.args.first()
    } else {
        None
    }
}

/// Whether some of the premises from `start` on use the Fr of the term.
pub(crate) fn stands_in(term: &Term, premises: &Vec<Fact>, start: usize) -> bool
    requires { start ≤ length premises.now.items }
    ensures { result ≡ fresh.stands_in (view term.now) (fresh.fresh_terms (map fact_of (drop start premises.now.items))) }
{
    for position in start..premises.len() {
        if let Some(other) = fresh_term(&premises[position]) {
            if same(term, other) {
                return true;
            }
        }
    }
    false
}

/// What the event learns as a name of the adversary's own.
pub(crate) fn own_name(event: &Event) -> Option<&Term>
    ensures { option_map (λ t. view t.now) result ≡ own_one (event_of event.now).happening }
{
    match event.what() {
        What::Learn(message, Way::OwnName) => Some(message),
        _ => None,
    }
}

// Whether one of the premises is an Fr.
fn takes_fresh(premises: &Vec<Fact>) -> bool
    ensures { result ≡ takes_fr (map fact_of premises.now.items) }
{
    for premise in premises {
        if is_fresh(premise) {
            return true;
        }
    }
    false
}

/// Whether the event may use an Fr; where it may not, no term of it is compared.
pub(crate) fn may_use_fresh(event: &Event) -> bool
    ensures { result ≡ may_use_fresh (event_of event.now).happening }
{
    match event.what() {
        What::Rule(_) => takes_fresh(event.premises()),
        What::Learn(_, Way::OwnName) => true,
        _ => false,
    }
}

// Whether the event uses the Fr of the term.
#[tactic(auto, using(crate::proofs::FreshTerms::fresh_seen))]
fn uses_fresh(term: &Term, event: &Event) -> bool
    ensures { result ≡ fresh.stands_in (view term.now) (fresh.happening_fresh (event_of event.now).happening) }
{
    match own_name(event) {
        Some(name) => same(term, name),
        None => stands_in(term, event.premises(), 0),
    }
}

// Whether the event uses an Fr that one of the premises uses.
#[tactic(auto, using(crate::proofs::NothingShared::none_used))]
fn uses_one(premises: &Vec<Fact>, event: &Event) -> bool
    ensures { result ≡ fresh.share_one (fresh.fresh_terms (map fact_of premises.now.items)) (fresh.happening_fresh (event_of event.now).happening) }
{
    if !may_use_fresh(event) {
        return false;
    }
    for premise in premises {
        if let Some(term) = fresh_term(premise) {
            if uses_fresh(term, event) {
                return true;
            }
        }
    }
    false
}

/// Whether the events use one Fr.
#[tactic(auto, using(crate::proofs::FreshTerms::fresh_seen))]
pub(crate) fn shares_fresh(event: &Event, other: &Event) -> bool
    ensures { result ≡ fresh.shares_fresh (event_of event.now) (event_of other.now) }
{
    match own_name(event) {
        Some(name) => uses_fresh(name, other),
        None => uses_one(event.premises(), other),
    }
}
