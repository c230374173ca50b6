// Times that are made one, with the events at them: no two events are left at one time. A closed system's events are tried so where an action
// looks for its own.

use crate::moves::{
    A_SOUGHT, K_SOUGHT, Sizes, WITH_EVENT, all_have, book_of, names, showing, taken_up,
};
use sp_formula::formula::Moment;
use sp_step::moves::Case;
use sp_step::reduce::Row;
use sp_system::event::Event;
use sp_system::system::System;
use sp_term::term::Sort;
use sp_test_make::plain::{NO_FACTS, PlainEvent, PlainTerm, PlainWay};
use sp_test_make::plain_moves::PlainMove;
use sp_test_make::plain_systems::{
    EMPTY, PlainAtom, PlainFormula, PlainLeaf, PlainSystem, system_of,
};
use sp_test_steps::examples::reduced;
use sp_test_steps::texts::{same_system, text_of};
use std::alloc::{AllocError, Global};
use std::test::Fail;

// whether the event at the position is the only one at this time
fn is_alone(events: &Vec<Event>, position: usize, time: u128) -> bool {
    for (other, event) in events.iter().enumerate() {
        if other != position && event.time == time {
            return false;
        }
    }
    true
}

// whether no two events have one time
fn times_differ(events: &Vec<Event>) -> bool {
    for (position, event) in events.iter().enumerate() {
        if !is_alone(events, position, event.time) {
            return false;
        }
    }
    true
}

// ---- merging

const R_AT_1: PlainEvent<'static> = PlainEvent::Step(1, "R", NO_FACTS);

const R_AT_2: PlainEvent<'static> = PlainEvent::Step(2, "R", NO_FACTS);

const R_AT_3: PlainEvent<'static> = PlainEvent::Step(3, "R", NO_FACTS);

const S_AT_5: PlainEvent<'static> = PlainEvent::Step(5, "S", NO_FACTS);

const S_AT_7: PlainEvent<'static> = PlainEvent::Step(7, "S", NO_FACTS);

// 3 is 1, or 2; 1 is 2; 5 is 6
const IS_1: PlainFormula<'static> = PlainFormula::Holds(PlainAtom::SameTime(
    Moment::Free(3),
    Moment::Free(1),
));

const IS_2: PlainFormula<'static> = PlainFormula::Holds(PlainAtom::SameTime(
    Moment::Free(3),
    Moment::Free(2),
));

const ONE_IS_2: PlainFormula<'static> = PlainFormula::Holds(PlainAtom::SameTime(
    Moment::Free(1),
    Moment::Free(2),
));

const FIVE_IS_6: PlainFormula<'static> = PlainFormula::Holds(PlainAtom::SameTime(
    Moment::Free(5),
    Moment::Free(6),
));

// 2, 3 or 5 is the last time
const LAST_2: PlainFormula<'static> = PlainFormula::Holds(PlainAtom::Last(Moment::Free(2)));

const LAST_3: PlainFormula<'static> = PlainFormula::Holds(PlainAtom::Last(Moment::Free(3)));

const LAST_5: PlainFormula<'static> = PlainFormula::Holds(PlainAtom::Last(Moment::Free(5)));

// A system, rows, and the text of what they make of it one after the other.
type Merged = (PlainSystem<'static>, &'static [Row], &'static str);

const THREE_STEPS: PlainSystem<'static> = PlainSystem {
    events: &[R_AT_1, R_AT_2, R_AT_3],
    ..EMPTY
};

// two times, or one after the other three; in whatever order the events stand; and where one of the times has no event
const OF_TIMES: [Merged; 6] = [
    (
        PlainSystem {
            formulas: &[IS_2],
            ..THREE_STEPS
        },
        &[Row::Equate],
        "1 R; 2 R; next 9",
    ),
    (
        PlainSystem {
            formulas: &[IS_2, ONE_IS_2],
            ..THREE_STEPS
        },
        &[Row::Equate, Row::Equate],
        "1 R; next 9",
    ),
    (
        PlainSystem {
            formulas: &[IS_1, IS_2],
            ..THREE_STEPS
        },
        &[Row::Equate, Row::Equate],
        "1 R; next 9",
    ),
    (
        PlainSystem {
            events: &[R_AT_3, R_AT_1, R_AT_2],
            formulas: &[IS_2],
            ..EMPTY
        },
        &[Row::Equate],
        "2 R; 1 R; next 9",
    ),
    (
        PlainSystem {
            events: &[R_AT_2, R_AT_3],
            formulas: &[IS_1, ONE_IS_2],
            ..EMPTY
        },
        &[Row::Equate, Row::Equate],
        "1 R; next 9",
    ),
    (
        PlainSystem {
            formulas: &[LAST_3, LAST_2],
            last: Some(1),
            ..THREE_STEPS
        },
        &[Row::Last, Row::Last],
        "1 R; next 9",
    ),
];

// events that take a fresh name each
const OF_NAMES: PlainSystem<'static> = PlainSystem {
    events: &[
        PlainEvent::Takes(1, "R", &[5]),
        PlainEvent::Takes(2, "R", &[6]),
        PlainEvent::Takes(3, "R", &[7]),
        PlainEvent::Takes(4, "R", &[8]),
    ],
    ..EMPTY
};

// a source of three premises, three sources of one, and one name of three events
const OF_LINKS: [Merged; 3] = [
    (
        PlainSystem {
            links: &[(1, 0, 2, 0), (1, 0, 3, 0), (1, 0, 4, 0)],
            ..OF_NAMES
        },
        &[Row::LinearOnce, Row::LinearOnce],
        "1 R; 2 R; next 9",
    ),
    (
        PlainSystem {
            links: &[(4, 0, 3, 0), (1, 0, 3, 0), (2, 0, 3, 0)],
            ..OF_NAMES
        },
        &[Row::LinearOnce, Row::LinearOnce],
        "1 R; 3 R; next 9",
    ),
    (
        PlainSystem {
            events: &[
                PlainEvent::Takes(1, "R", &[5]),
                PlainEvent::Takes(2, "R", &[6]),
                PlainEvent::Takes(3, "R", &[5]),
                PlainEvent::Takes(4, "R", &[5]),
            ],
            ..EMPTY
        },
        &[Row::FreshOnce, Row::FreshOnce],
        "1 R; 2 R; next 9",
    ),
];

const X0: PlainTerm<'static> = PlainTerm::Variable(Sort::Msg, 0);

const C: PlainTerm<'static> = PlainTerm::Public("c");

// x0 is learnt at 5 by a chain from the step at 1, and at 6 by one from the step at 2
const TWO_CHAINS: PlainSystem<'static> = PlainSystem {
    events: &[
        R_AT_1,
        R_AT_2,
        PlainEvent::Learn(5, X0, PlainWay::ChainBegun(1, &[X0])),
        PlainEvent::Learn(6, X0, PlainWay::ChainBegun(2, &[X0, C])),
    ],
    ..EMPTY
};

const OF_CHAINS: [Merged; 4] = [
    (
        PlainSystem {
            formulas: &[FIVE_IS_6],
            ..TWO_CHAINS
        },
        &[Row::Equate],
        "1 R; 5 learn x0 chain 1.0 ( x0 'c' ); next 9",
    ),
    (
        TWO_CHAINS,
        &[Row::LearnOnce],
        "1 R; 5 learn x0 chain 1.0 ( x0 'c' ); next 9",
    ),
    (
        PlainSystem {
            formulas: &[LAST_5],
            last: Some(6),
            ..TWO_CHAINS
        },
        &[Row::Last],
        "1 R; 5 learn x0 chain 1.0 ( x0 'c' ); next 9",
    ),
    (
        PlainSystem {
            events: &[
                PlainEvent::Learn(3, X0, PlainWay::Anyhow),
                PlainEvent::Learn(4, X0, PlainWay::Constructed),
                PlainEvent::Learn(5, X0, PlainWay::Anyhow),
            ],
            ..EMPTY
        },
        &[Row::LearnOnce, Row::LearnOnce],
        "3 learn x0 made; next 9",
    ),
];

// What the first of the times brings with it: that two more are one, and for that again two more; the second time of the first is one of these.
const OF_MORE: [Merged; 2] = [
    (
        PlainSystem {
            events: &[
                R_AT_1,
                R_AT_2,
                PlainEvent::Learn(3, C, PlainWay::ChainBegun(1, &[C])),
                PlainEvent::Learn(4, C, PlainWay::ChainBegun(2, &[C])),
                PlainEvent::Learn(5, X0, PlainWay::ChainBegun(3, &[X0])),
                PlainEvent::Learn(6, X0, PlainWay::ChainBegun(4, &[X0])),
            ],
            formulas: &[FIVE_IS_6],
            ..EMPTY
        },
        &[Row::Equate],
        "1 R; 3 learn 'c' chain 1.0 ( 'c' ); 5 learn x0 chain 3.0 ( x0 ); next 9",
    ),
    (
        PlainSystem {
            events: &[
                PlainEvent::Learn(5, X0, PlainWay::ChainBegun(7, &[])),
                PlainEvent::Learn(6, X0, PlainWay::ChainBegun(5, &[])),
                PlainEvent::Learn(7, X0, PlainWay::Anyhow),
            ],
            formulas: &[FIVE_IS_6],
            ..EMPTY
        },
        &[Row::Equate],
        "5 learn x0 chain 5.0 ( ); next 9",
    ),
];

static MERGED: [&[Merged]; 4] = [&OF_TIMES, &OF_LINKS, &OF_CHAINS, &OF_MORE];

fn merged_cases() -> &'static [&'static [Merged]] {
    &MERGED
}

// what the rows make of the system, if each has a place and leaves no two events at one time
fn merged(alloc: Global, given: &PlainSystem, rows: &[Row]) -> Result<System, Fail> {
    let mut made = system_of(alloc, given)?;
    for row in rows {
        made = reduced(alloc, *row, &made)?.ok_or("no place")?;
        if !times_differ(&made.events) {
            return Err("two events at one time".into());
        }
    }
    Ok(made)
}

#[test]
fn merging_leaves_one_event_at_a_time(rt: HostRuntime) -> Result<(), Fail> {
    let alloc = rt.alloc();
    for (table, cases) in merged_cases().iter().enumerate() {
        for (i, (given, rows, wanted)) in cases.iter().enumerate() {
            let made = merged(alloc, given, *rows)?;
            assert_eq!(rt; text_of(alloc, &made)?.as_str(), *wanted, "{table} {i}");
        }
    }
    Ok(())
}

// ---- events that are tried

// A or K of x0 at 3
const A_AT_3: PlainFormula<'static> = PlainFormula::Holds(PlainAtom::Acts(
    "A",
    &[PlainLeaf::Free(Sort::Msg, 0)],
    Moment::Free(3),
));

const K_AT_3: PlainFormula<'static> = PlainFormula::Holds(PlainAtom::Acts(
    "K",
    &[PlainLeaf::Free(Sort::Msg, 0)],
    Moment::Free(3),
));

// A is looked for at 5, and nothing happens but at 3 and 7
const CLOSED: PlainSystem<'static> = PlainSystem {
    events: &[R_AT_3, S_AT_7],
    formulas: &[A_SOUGHT],
    closed: true,
    ..EMPTY
};

// 5 is 3, or 7 is 5
const AT_FIRST: PlainSystem<'static> = PlainSystem {
    formulas: &[A_AT_3],
    ..CLOSED
};

const AT_SECOND: PlainSystem<'static> = PlainSystem {
    events: &[R_AT_3, S_AT_5],
    ..CLOSED
};

// A closed system, the names of the cases of its first action, and the cases: in each the action's time is one with an event's.
static TRIED: [(PlainSystem<'static>, &str, &[PlainSystem<'static>]); 5] = [
    (CLOSED, "event_3 event_7 ", &[AT_FIRST, AT_SECOND]),
    (
        PlainSystem {
            order: &[(3, 7)],
            last: Some(7),
            ..CLOSED
        },
        "event_3 event_7 ",
        &[
            PlainSystem {
                order: &[(3, 7)],
                last: Some(7),
                ..AT_FIRST
            },
            PlainSystem {
                order: &[(3, 5)],
                last: Some(5),
                ..AT_SECOND
            },
        ],
    ),
    (
        PlainSystem {
            events: &[S_AT_7, R_AT_3],
            ..CLOSED
        },
        "event_7 event_3 ",
        &[
            PlainSystem {
                events: &[S_AT_5, R_AT_3],
                ..CLOSED
            },
            PlainSystem {
                events: &[S_AT_7, R_AT_3],
                ..AT_FIRST
            },
        ],
    ),
    (
        PlainSystem {
            formulas: &[K_SOUGHT],
            ..CLOSED
        },
        "event_3 event_7 ",
        &[
            PlainSystem {
                formulas: &[K_AT_3],
                ..CLOSED
            },
            PlainSystem {
                formulas: &[K_SOUGHT],
                ..AT_SECOND
            },
        ],
    ),
    (
        PlainSystem {
            events: &[],
            ..CLOSED
        },
        "",
        &[],
    ),
];

fn tried() -> &'static [(
    PlainSystem<'static>,
    &'static str,
    &'static [PlainSystem<'static>],
)] {
    &TRIED
}

// whether the cases have these systems, in each of which no two events have one time
fn have(alloc: Global, cases: &Vec<Case>, systems: &[PlainSystem]) -> Result<bool, AllocError> {
    for (case, wanted) in cases.iter().zip(systems) {
        let wanted = system_of(alloc, wanted)?;
        if !times_differ(&case.system.events) || !same_system(alloc, &case.system, &wanted)? {
            return Ok(false);
        }
    }
    Ok(true)
}

#[test]
fn events_of_closed_systems_are_tried(rt: HostRuntime) -> Result<(), Fail> {
    let alloc = rt.alloc();
    let rules = book_of(alloc, showing())?;
    for (i, (given, wanted, systems)) in tried().iter().enumerate() {
        let found = taken_up(alloc, &rules, given, PlainMove::Action(0))?;
        assert_eq!(rt; names(alloc, &found)?.as_str(), *wanted, "{i}");
        assert!(rt; have(alloc, &found, *systems)?, "{i}");
    }
    Ok(())
}

// There is an event at the time, so that its actions are tried; or the system isn't closed, so that rules are, and the adversary.
static NOT_TRIED: [(PlainSystem<'static>, &str, Sizes); 3] = [
    (
        PlainSystem {
            closed: true,
            ..WITH_EVENT
        },
        "at_1 at_2 ",
        (1, 2, 0, 6),
    ),
    (
        PlainSystem {
            closed: false,
            ..CLOSED
        },
        "One Three_case_1 Three_case_2 ",
        (3, 1, 0, 10),
    ),
    (
        PlainSystem {
            formulas: &[K_SOUGHT],
            closed: false,
            ..CLOSED
        },
        "Send ",
        (3, 1, 0, 9),
    ),
];

fn not_tried() -> &'static [(PlainSystem<'static>, &'static str, Sizes)] {
    &NOT_TRIED
}

#[test]
fn other_cases_stay(rt: HostRuntime) -> Result<(), Fail> {
    let alloc = rt.alloc();
    let rules = book_of(alloc, showing())?;
    for (i, (given, wanted, held)) in not_tried().iter().enumerate() {
        let found = taken_up(alloc, &rules, given, PlainMove::Action(0))?;
        assert_eq!(rt; names(alloc, &found)?.as_str(), *wanted, "{i}");
        assert!(rt; all_have(&found, *held), "{i}");
    }
    Ok(())
}
