// The event at a time, and its premises.

ghost use Rattle.std.specs.Prelude.{◌≡◌, map, option_map};
ghost use Rattle.sp_fact.specs.View.{fact_of};
ghost use Rattle.sp_spec_system.specs.MakingOne as making_one;
ghost use Rattle.sp_system.specs.SystemView.{event_of};

use crate::event::Event;
use sp_fact::fact::Fact;

/// The first event at the time.
pub fn event_at(time: u128, events: &Vec<Event>) -> Option<&Event>
    ensures { option_map (λ e. event_of e.now) result ≡ making_one.event_at time (map event_of events.now.items) }
{
    for event in events {
        if event.time == time {
            return Some(event);
        }
    }
    None
}

/// The premise at the place of the first event at the time.
pub fn premise_at(events: &Vec<Event>, time: u128, place: usize) -> Option<&Fact>
    ensures { option_map (λ f. fact_of f.now) result ≡ making_one.premise_at (map event_of events.now.items) time place }
{
    match event_at(time, events) {
        Some(event) => event.premises().get(place),
        None => None,
    }
}
