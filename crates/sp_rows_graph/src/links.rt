// Links that clash: they have one source, or lead to one premise.

ghost use Rattle.std.specs.Prelude.{◌≡◌, ◌≤◌, drop, length, map, option_map};
ghost use Rattle.sp_system.specs.SystemView.{event_of, link_of};
ghost use Rattle.sp_spec_system.specs.Picked as picked;
ghost use Rattle.sp_rows_graph.specs.LinksView.{both_of, clash};

use crate::linear_once::{premises_clash, sources_clash};
use crate::source_twice::used_twice;
use sp_system::event::Event;
use sp_system::system::Link;

/// How two links clash.
#[derive(Clone, Copy, Debug, PartialEq, Eq)]
pub enum Clash {
    /// they have one linear source, and their premises are at different times
    Premises,
    /// they lead to one premise, and their sources are at different times
    Sources,
    /// two premises of one event have one linear source, or two conclusions of one event are one premise
    UsedTwice,
}

fn clashes(how: Clash, events: &Vec<Event>, link: Link, other: Link) -> bool
    ensures { result ≡ clash how (map event_of events.now.items) (link_of link) (link_of other) }
{
    match how {
        Clash::Premises => premises_clash(events, link, other),
        Clash::Sources => sources_clash(link, other),
        Clash::UsedTwice => used_twice(events, link, other),
    }
}

// The link, and the first from `start` on that clashes with it.
fn first_with(
    how: Clash,
    events: &Vec<Event>,
    link: Link,
    links: &Vec<Link>,
    start: usize,
) -> Option<(Link, Link)>
    requires { start ≤ length links.now.items }
    ensures { option_map both_of result ≡ picked.first_with (clash how (map event_of events.now.items)) (link_of link) (map link_of (drop start links.now.items)) }
{
    for position in start..links.len() {
        let other = links[position];
        if clashes(how, events, link, other) {
            return Some((link, other));
        }
    }
    None
}

/// The first two links that clash.
pub(crate) fn first_two(how: Clash, events: &Vec<Event>, links: &Vec<Link>) -> Option<(Link, Link)>
    ensures { option_map both_of result ≡ picked.first_two (clash how (map event_of events.now.items)) (map link_of links.now.items) }
{
    for (position, link) in links.iter().enumerate() {
        if let Some(found) = first_with(how, events, *link, links, position + 1) {
            return Some(found);
        }
    }
    None
}
