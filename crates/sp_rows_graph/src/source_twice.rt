// Sources that are used twice.

ghost use Rattle.std.specs.Prelude.{◌≡◌, map, option_map};
ghost use Rattle.sp_fact.specs.View.{fact_of};
ghost use Rattle.sp_system.specs.SystemView.{event_of, link_of, system_of};
ghost use Rattle.sp_spec_graph.specs.Fresh as fresh;
ghost use Rattle.sp_spec_graph.specs.SourceTwice as source_twice;
ghost use Rattle.sp_spec_system.specs.Picked as picked;
ghost use Rattle.sp_rows_graph.specs.LinksView.{both_of};

use crate::fresh::{fresh_term, own_name, stands_in};
use crate::linear_once::one_linear_source;
use crate::links::{Clash, first_two};
use sp_fact::fact::Fact;
use sp_system::event::Event;
use sp_system::system::{Link, System};

/// Whether one event's two premises have one linear source, or its two conclusions are one premise.
pub(crate) fn used_twice(events: &Vec<Event>, link: Link, other: Link) -> bool
    ensures { result ≡ source_twice.used_twice (map event_of events.now.items) (link_of link) (link_of other) }
{
    one_linear_source(events, link, other) && link.to == other.to && link.premise != other.premise
        || link.same_premise(other)
            && link.from == other.from
            && link.conclusion != other.conclusion
}

// Whether some two of the premises are the same Fr.
fn repeats(premises: &Vec<Fact>) -> bool
    ensures { result ≡ source_twice.repeats (fresh.fresh_terms (map fact_of premises.now.items)) }
{
    for (position, premise) in premises.iter().enumerate() {
        if let Some(term) = fresh_term(premise) {
            if stands_in(term, premises, position + 1) {
                return true;
            }
        }
    }
    false
}

// Whether the event uses one Fr twice.
#[tactic(auto, using(crate::proofs::FreshTerms::fresh_seen))]
fn uses_twice(event: &Event) -> bool
    ensures { result ≡ source_twice.repeats (fresh.happening_fresh (event_of event.now).happening) }
{
    match own_name(event) {
        Some(_) => false,
        None => repeats(event.premises()),
    }
}

/// Whether two premises of one event are the same Fr.
pub fn takes_fr_twice(events: &Vec<Event>) -> bool
    ensures { result ≡ source_twice.takes_fr_twice (map event_of events.now.items) }
{
    for event in events {
        if uses_twice(event) {
            return true;
        }
    }
    false
}

// The first two links of which this is so.
fn first_used(system: &System) -> Option<(Link, Link)>
    ensures { option_map both_of result ≡ picked.first_two (source_twice.used_twice (map event_of system.now.events.items)) (map link_of system.now.links.items) }
{
    first_two(Clash::UsedTwice, &system.events, &system.links)
}

/// Whether one event takes a linear source twice, or an Fr, or a premise comes from two conclusions of one event.
pub fn has_source_twice(system: &System) -> bool
    ensures { result ≡ source_twice.has_source_twice (system_of system.now) }
{
    first_used(system).is_some() || takes_fr_twice(&system.events)
}
