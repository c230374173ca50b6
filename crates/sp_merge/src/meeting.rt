// The first two events at two times.

ghost use Rattle.std.specs.Prelude.{◌≡◌, ◌+◌, ◌≤◌, drop, length, map, option_map};
ghost use Rattle.sp_spec_system.specs.MakingOne as making_one;
ghost use Rattle.sp_system.specs.SystemView.{event_of};
ghost use Rattle.sp_merge.specs.MadeOneView.{merging_position, merging_positions};

use sp_system::event::Event;

// Whether the one event is at the one time, and the other at the other.
fn are_at(first: u128, second: u128, left: &Event, right: &Event) -> bool
    ensures { result ≡ making_one.at_times first second (event_of left.now) (event_of right.now) }
{
    left.time == first && right.time == second || left.time == second && right.time == first
}

// The position of the first event from `start` on that is at the other of the times.
fn other_of(
    first: u128,
    second: u128,
    event: &Event,
    events: &Vec<Event>,
    start: usize,
) -> Option<usize>
    requires { start ≤ length events.now.items }
    ensures { result ≡ option_map (λ k. start + k) (merging_position (making_one.at_times first second) (event_of event.now) (map event_of (drop start events.now.items))) }
{
    for position in start..events.len() {
        if are_at(first, second, event, &events[position]) {
            return Some(position);
        }
    }
    None
}

/// The positions of the first two events that are at the times.
pub(crate) fn first_meeting(
    first: u128,
    second: u128,
    events: &Vec<Event>,
) -> Option<(usize, usize)>
    ensures { result ≡ merging_positions (making_one.at_times first second) (map event_of events.now.items) }
{
    for (position, event) in events.iter().enumerate() {
        if let Some(other) = other_of(first, second, event, events, position + 1) {
            return Some((position, other));
        }
    }
    None
}
