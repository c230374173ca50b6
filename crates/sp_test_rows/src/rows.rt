// Each elementary move alone.

use sp_formula::formula::{Binder, Moment};
use sp_formula::same::same_formula;
use sp_step::reduce::Row;
use sp_system::system::System;
use sp_term::term::Sort;
use sp_test_make::plain::{NO_FACTS, PlainEvent, PlainFact, PlainFacts, PlainTerm};
use sp_test_make::plain_systems::{
    EMPTY, PlainAtom, PlainFormula, PlainLeaf, PlainSystem, formula_of, system_of,
};
use sp_test_make::systems::system_of_one;
use sp_test_steps::examples::{SHARING, Sizes, TWO_THAT_DIFFER, reduced, sizes};
use std::alloc::{AllocError, Global};
use std::test::Fail;

// A system, rows, and how much stands in what they make of it one after the other, if the last one applies.
type Case = (PlainSystem<'static>, &'static [Row], Option<Sizes>);

// each row that has a place where two events share an Fr, and some that have none
const OF_SHARING: [Case; 6] = [
    (SHARING, &[Row::OpenExistential], Some((2, 6, 1, 0, 0, 8))),
    (SHARING, &[Row::Unequal], Some((2, 3, 1, 0, 0, 4))),
    (SHARING, &[Row::ActionStands], Some((2, 3, 1, 0, 0, 4))),
    (SHARING, &[Row::FreshOnce], Some((1, 4, 0, 0, 0, 4))),
    (SHARING, &[Row::Split], None),
    (SHARING, &[Row::Equate], None),
];

// the action at an event that has it, at no event, of another term than its event's, and of what is bound
const A_OF_FRESH: PlainFormula<'static> = PlainFormula::Holds(PlainAtom::Acts(
    "A",
    &[PlainLeaf::Free(Sort::Fresh, 0)],
    Moment::Free(3),
));

const A_AT_NO_EVENT: PlainFormula<'static> = PlainFormula::Holds(PlainAtom::Acts(
    "A",
    &[PlainLeaf::Free(Sort::Fresh, 0)],
    Moment::Free(4),
));

const A_OF_ANOTHER: PlainFormula<'static> = PlainFormula::Holds(PlainAtom::Acts(
    "A",
    &[PlainLeaf::Free(Sort::Msg, 0)],
    Moment::Free(3),
));

const A_OF_BOUND: PlainFormula<'static> = PlainFormula::Holds(PlainAtom::Acts(
    "A",
    &[PlainLeaf::Bound(0)],
    Moment::Free(3),
));

// an action is looked for that stands at its event, at no event, or at one with another; or no term stands in it yet
const OF_ACTIONS: [Case; 4] = [
    (
        PlainSystem {
            formulas: &[A_OF_FRESH],
            ..SHARING
        },
        &[Row::ActionStands],
        Some((2, 0, 1, 0, 0, 4)),
    ),
    (
        PlainSystem {
            formulas: &[A_AT_NO_EVENT],
            ..SHARING
        },
        &[Row::ActionStands],
        None,
    ),
    (
        PlainSystem {
            formulas: &[A_OF_ANOTHER],
            ..SHARING
        },
        &[Row::ActionStands],
        None,
    ),
    (
        PlainSystem {
            formulas: &[A_OF_BOUND],
            ..SHARING
        },
        &[Row::ActionStands],
        None,
    ),
];

// 1 is before 2
const BEFORE: PlainFormula<'static> = PlainFormula::Holds(PlainAtom::Before(
    Moment::Free(1),
    Moment::Free(2),
));

// 2 is before 1
const BEHIND: PlainFormula<'static> = PlainFormula::Holds(PlainAtom::Before(
    Moment::Free(2),
    Moment::Free(1),
));

// 2 isn't 1
const APART: PlainFormula<'static> = PlainFormula::Fails(PlainAtom::SameTime(
    Moment::Free(2),
    Moment::Free(1),
));

const BOTH: PlainSystem<'static> = PlainSystem {
    formulas: &[PlainFormula::AllOf(&[PlainFormula::Truth, PlainFormula::Falsity])],
    ..EMPTY
};

const APART_ALONE: PlainSystem<'static> = PlainSystem {
    formulas: &[APART],
    ..EMPTY
};

const APART_AND_BEFORE: PlainSystem<'static> = PlainSystem {
    formulas: &[APART, BEFORE],
    ..EMPTY
};

const ONE_FALSE: PlainSystem<'static> = PlainSystem {
    formulas: &[PlainFormula::OneOf(&[BEFORE, PlainFormula::Falsity])],
    ..EMPTY
};

const ONE_SPENT: PlainSystem<'static> = PlainSystem {
    spent: &[BEFORE],
    ..ONE_FALSE
};

const EITHER: PlainSystem<'static> = PlainSystem {
    formulas: &[PlainFormula::OneOf(&[BEFORE, BEHIND])],
    ..EMPTY
};

// a conjunction; one of two times before the other; and a disjunction of which a part is false, or is spent, or of which both may be
const OF_FORMULAS: [Case; 9] = [
    (BOTH, &[Row::Split], Some((0, 2, 1, 0, 0, 9))),
    (BOTH, &[Row::Split, Row::Split], Some((0, 1, 2, 0, 0, 9))),
    (APART_ALONE, &[Row::Order], None),
    (APART_AND_BEFORE, &[Row::Order], Some((0, 1, 1, 0, 1, 9))),
    (
        APART_AND_BEFORE,
        &[Row::Order, Row::Order],
        Some((0, 0, 2, 0, 1, 9)),
    ),
    (ONE_FALSE, &[Row::Disjunction], Some((0, 1, 1, 0, 0, 9))),
    (
        ONE_FALSE,
        &[Row::Disjunction, Row::Order],
        Some((0, 0, 2, 0, 1, 9)),
    ),
    (ONE_SPENT, &[Row::Disjunction], Some((0, 0, 2, 0, 0, 9))),
    (EITHER, &[Row::Disjunction], None),
];

// the events of R at 1, 2 and 3, each of which takes a fresh name
const OF_ONE_RULE: PlainSystem<'static> = PlainSystem {
    events: &[
        PlainEvent::Takes(1, "R", &[0]),
        PlainEvent::Takes(2, "R", &[1]),
        PlainEvent::Takes(3, "R", &[2]),
    ],
    ..EMPTY
};

// the last one is of S
const OF_TWO_RULES: PlainSystem<'static> = PlainSystem {
    events: &[
        PlainEvent::Takes(1, "R", &[0]),
        PlainEvent::Takes(2, "R", &[1]),
        PlainEvent::Takes(3, "S", &[2]),
    ],
    ..EMPTY
};

// two premises have one linear source, or two; or one premise has two sources
const ONE_SOURCE: &[(u128, usize, u128, usize)] = &[(1, 0, 2, 0), (1, 0, 3, 0)];

const TWO_SOURCES: &[(u128, usize, u128, usize)] = &[(1, 0, 2, 0), (1, 1, 3, 0)];

const ONE_PREMISE: &[(u128, usize, u128, usize)] = &[(1, 0, 3, 0), (2, 0, 3, 0)];

const OF_LINKS: [Case; 4] = [
    (
        PlainSystem {
            links: ONE_SOURCE,
            ..OF_ONE_RULE
        },
        &[Row::LinearOnce],
        Some((2, 0, 0, 0, 0, 9)),
    ),
    (
        PlainSystem {
            links: ONE_SOURCE,
            ..OF_TWO_RULES
        },
        &[Row::LinearOnce],
        None,
    ),
    (
        PlainSystem {
            links: TWO_SOURCES,
            ..OF_ONE_RULE
        },
        &[Row::LinearOnce],
        None,
    ),
    (
        PlainSystem {
            links: ONE_PREMISE,
            ..OF_ONE_RULE
        },
        &[Row::LinearOnce],
        Some((2, 0, 0, 0, 0, 9)),
    ),
];

// 2 is 1
const ONE_TIME: PlainSystem<'static> = PlainSystem {
    formulas: &[PlainFormula::Holds(PlainAtom::SameTime(Moment::Free(2), Moment::Free(1)))],
    ..EMPTY
};

const ONE_TIME_OF_ONE_RULE: PlainSystem<'static> = PlainSystem {
    events: &[
        PlainEvent::Takes(1, "R", &[0]),
        PlainEvent::Takes(2, "R", &[1]),
    ],
    ..ONE_TIME
};

const ONE_TIME_OF_TWO_RULES: PlainSystem<'static> = PlainSystem {
    events: &[
        PlainEvent::Takes(1, "R", &[0]),
        PlainEvent::Takes(2, "S", &[1]),
    ],
    ..ONE_TIME
};

// x5 is 'c', and also 'd'
const TWO_NAMES: PlainSystem<'static> = PlainSystem {
    formulas: &[
        PlainFormula::Holds(PlainAtom::Same(PlainLeaf::Free(Sort::Msg, 5), PlainLeaf::Public("c"))),
        PlainFormula::Holds(PlainAtom::Same(PlainLeaf::Free(Sort::Msg, 5), PlainLeaf::Public("d"))),
    ],
    ..EMPTY
};

// Two times are one, at which are no events, events of one rule, or events of two; or x5 is 'c', and also 'd'.
const OF_EQUATIONS: [Case; 5] = [
    (ONE_TIME, &[Row::Equate], Some((0, 0, 1, 0, 0, 9))),
    (
        ONE_TIME_OF_ONE_RULE,
        &[Row::Equate],
        Some((1, 0, 1, 0, 0, 9)),
    ),
    (ONE_TIME_OF_TWO_RULES, &[Row::Equate], None),
    (TWO_NAMES, &[Row::Equate], Some((0, 1, 1, 0, 0, 9))),
    (TWO_NAMES, &[Row::Equate, Row::Equate], None),
];

static TABLES: [&[Case]; 5] = [
    &OF_SHARING,
    &OF_ACTIONS,
    &OF_FORMULAS,
    &OF_LINKS,
    &OF_EQUATIONS,
];

fn tables() -> &'static [&'static [Case]] {
    &TABLES
}

// how much stands in what the rows make of the system, if the last one applies
fn sizes_made(
    alloc: Global,
    rows: &[Row],
    given: &PlainSystem,
) -> Result<Option<Sizes>, AllocError> {
    let mut made = system_of(alloc, given)?;
    for row in rows {
        let Some(next) = reduced(alloc, *row, &made)? else {
            return Ok(None);
        };
        made = next;
    }
    Ok(Some(sizes(&made)))
}

#[test]
fn rows_are_applied(rt: HostRuntime) -> Result<(), Fail> {
    let alloc = rt.alloc();
    for (table, cases) in tables().iter().enumerate() {
        for (i, (given, rows, wanted)) in cases.iter().enumerate() {
            let found = sizes_made(alloc, *rows, given)?;
            assert_eq!(rt; found, *wanted, "{table} {i}");
        }
    }
    Ok(())
}

// the event at 3 takes the Fr of what the event at 2 receives
const RECEIVED: PlainSystem<'static> = PlainSystem {
    events: &[
        PlainEvent::Step(
            2,
            "R",
            PlainFacts {
                premises: &[PlainFact::Linear("In", &[PlainTerm::Variable(Sort::Fresh, 0)])],
                ..NO_FACTS
            },
        ),
        PlainEvent::Takes(3, "S", &[0]),
    ],
    ..EMPTY
};

// what the row makes of the system has this pair first in its order, and so many links
static ORDERED: [(PlainSystem<'static>, Row, Option<(u128, u128)>, usize); 4] = [
    (
        PlainSystem {
            formulas: &[BEFORE],
            ..EMPTY
        },
        Row::Order,
        Some((1, 2)),
        0,
    ),
    (
        PlainSystem {
            formulas: &[PlainFormula::Holds(PlainAtom::SameTime(Moment::Free(3), Moment::Free(2)))],
            order: &[(3, 4)],
            ..EMPTY
        },
        Row::Equate,
        Some((2, 4)),
        0,
    ),
    (RECEIVED, Row::FreshFirst, Some((3, 2)), 0),
    (
        PlainSystem {
            links: ONE_PREMISE,
            ..OF_ONE_RULE
        },
        Row::LinearOnce,
        None,
        1,
    ),
];

fn ordered() -> &'static [(PlainSystem<'static>, Row, Option<(u128, u128)>, usize)] {
    &ORDERED
}

#[test]
fn orders_and_links_are_made(rt: HostRuntime) -> Result<(), Fail> {
    let alloc = rt.alloc();
    for (i, (given, row, order, links)) in ordered().iter().enumerate() {
        let given = system_of(alloc, given)?;
        let made = reduced(alloc, *row, &given)?.ok_or("no place")?;
        assert_eq!(rt; made.order.pairs().first().copied(), *order, "{i}");
        assert_eq!(rt; made.links.len(), *links, "{i}");
    }
    Ok(())
}

// a message and a time, and A of the one at the other
const ONE_MESSAGE: &[Binder] = &[Binder::Message(Sort::Msg), Binder::Time];

const COMES: &[PlainAtom<'static>] = &[PlainAtom::Acts(
    "A",
    &[PlainLeaf::Bound(0)],
    Moment::Bound(0),
)];

// there are x and i with A(x) at i; and for all y and j with A(y) at j, y is x, or j is before i
const FIRST_ALONE: PlainFormula<'static> = PlainFormula::Exists(
    ONE_MESSAGE,
    COMES,
    &PlainFormula::ForAll(
        ONE_MESSAGE,
        COMES,
        &PlainFormula::OneOf(&[
            PlainFormula::Holds(PlainAtom::Same(PlainLeaf::Bound(0), PlainLeaf::Bound(1))),
            PlainFormula::Holds(PlainAtom::Before(Moment::Bound(0), Moment::Bound(1))),
        ]),
    ),
);

// for all y and j with A(y) at j, y is x4, or j is before 5
const ALONE: PlainFormula<'static> = PlainFormula::ForAll(
    ONE_MESSAGE,
    COMES,
    &PlainFormula::OneOf(&[
        PlainFormula::Holds(PlainAtom::Same(PlainLeaf::Bound(0), PlainLeaf::Free(Sort::Msg, 4))),
        PlainFormula::Holds(PlainAtom::Before(Moment::Bound(0), Moment::Free(5))),
    ]),
);

// An existential formula, and what stands at a position where it is opened.
// The new numbers are from 4 on, in the order of what is bound; a place inside a quantifier is counted from there.
static OPENED: [(PlainFormula<'static>, usize, PlainFormula<'static>); 4] = [
    (
        TWO_THAT_DIFFER,
        0,
        PlainFormula::Holds(PlainAtom::Acts(
            "A",
            &[PlainLeaf::Free(Sort::Msg, 6)],
            Moment::Free(7),
        )),
    ),
    (
        TWO_THAT_DIFFER,
        1,
        PlainFormula::Holds(PlainAtom::Acts(
            "A",
            &[PlainLeaf::Free(Sort::Fresh, 4)],
            Moment::Free(5),
        )),
    ),
    (
        TWO_THAT_DIFFER,
        2,
        PlainFormula::Fails(PlainAtom::Same(
            PlainLeaf::Free(Sort::Msg, 6),
            PlainLeaf::Free(Sort::Fresh, 4),
        )),
    ),
    (FIRST_ALONE, 1, ALONE),
];

fn openings() -> &'static [(PlainFormula<'static>, usize, PlainFormula<'static>)] {
    &OPENED
}

// what the formula is opened to, where 4 is the next number
fn opened(alloc: Global, given: &PlainFormula) -> Result<System, Fail> {
    let given = system_of_one(alloc, formula_of(alloc, given)?, 4)?;
    let made = reduced(alloc, Row::OpenExistential, &given)?.ok_or("no place")?;
    Ok(made)
}

#[test]
fn existentials_are_opened(rt: HostRuntime) -> Result<(), Fail> {
    let alloc = rt.alloc();
    for (given, position, wanted) in openings().iter() {
        let made = opened(alloc, given)?;
        let wanted = formula_of(alloc, wanted)?;
        let found = made.formulas.get(*position).ok_or("no formula")?;
        assert!(rt; same_formula(found, &wanted), "{position}");
    }
    Ok(())
}
