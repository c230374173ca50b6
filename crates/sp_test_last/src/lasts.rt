// The time that is said to be the last one: the row that sets it, its contradictions, and simplification with it.

use sp_formula::formula::Moment;
use sp_step::reduce::Row;
use sp_step::simplify::simplify;
use sp_system::system::System;
use sp_term::term::Sort;
use sp_test_make::plain::{NO_FACTS, PlainEvent, PlainFact, PlainFacts, PlainTerm, PlainWay};
use sp_test_make::plain_systems::{EMPTY, PlainAtom, PlainFormula, PlainSystem, system_of};
use sp_test_steps::examples::{contradicts, no_rules, reduced};
use sp_test_steps::texts::same_system;
use std::alloc::{AllocError, Global};
use std::test::Fail;

// ---- formulas and events

// 2 or 3 is the last time, or 1 or 3 isn't
const LAST_2: PlainFormula<'static> = PlainFormula::Holds(PlainAtom::Last(Moment::Free(2)));

const LAST_3: PlainFormula<'static> = PlainFormula::Holds(PlainAtom::Last(Moment::Free(3)));

const NOT_LAST_1: PlainFormula<'static> = PlainFormula::Fails(PlainAtom::Last(Moment::Free(1)));

const NOT_LAST_3: PlainFormula<'static> = PlainFormula::Fails(PlainAtom::Last(Moment::Free(3)));

// 1 is before 2, or before 3
const BEFORE_2: PlainFormula<'static> = PlainFormula::Holds(PlainAtom::Before(
    Moment::Free(1),
    Moment::Free(2),
));

const BEFORE_3: PlainFormula<'static> = PlainFormula::Holds(PlainAtom::Before(
    Moment::Free(1),
    Moment::Free(3),
));

// 2 or 3 isn't 1
const APART_2: PlainFormula<'static> = PlainFormula::Fails(PlainAtom::SameTime(
    Moment::Free(2),
    Moment::Free(1),
));

const APART_3: PlainFormula<'static> = PlainFormula::Fails(PlainAtom::SameTime(
    Moment::Free(3),
    Moment::Free(1),
));

// steps of R or S
const R_AT_1: PlainEvent<'static> = PlainEvent::Step(1, "R", NO_FACTS);

const R_AT_2: PlainEvent<'static> = PlainEvent::Step(2, "R", NO_FACTS);

const R_AT_3: PlainEvent<'static> = PlainEvent::Step(3, "R", NO_FACTS);

const S_AT_1: PlainEvent<'static> = PlainEvent::Step(1, "S", NO_FACTS);

const S_AT_3: PlainEvent<'static> = PlainEvent::Step(3, "S", NO_FACTS);

// the last time is 2, or 3
const UNTIL_2: PlainSystem<'static> = PlainSystem {
    last: Some(2),
    ..EMPTY
};

const UNTIL_3: PlainSystem<'static> = PlainSystem {
    last: Some(3),
    ..EMPTY
};

// ---- the row

// a system, and what the row makes of it
type Made = (PlainSystem<'static>, PlainSystem<'static>);

// no time is known as the last one, or this one is
const OF_ONE_TIME: [Made; 3] = [
    (
        PlainSystem {
            formulas: &[LAST_3],
            ..EMPTY
        },
        PlainSystem {
            spent: &[LAST_3],
            ..UNTIL_3
        },
    ),
    (
        PlainSystem {
            events: &[S_AT_1, R_AT_2],
            formulas: &[NOT_LAST_1, LAST_3, LAST_2],
            spent: &[BEFORE_2],
            closed: true,
            ..EMPTY
        },
        PlainSystem {
            events: &[S_AT_1, R_AT_2],
            formulas: &[NOT_LAST_1, LAST_2],
            spent: &[BEFORE_2, LAST_3],
            closed: true,
            ..UNTIL_3
        },
    ),
    (
        PlainSystem {
            events: &[R_AT_1, S_AT_3],
            formulas: &[BEFORE_3, LAST_3],
            order: &[(1, 3)],
            ..UNTIL_3
        },
        PlainSystem {
            events: &[R_AT_1, S_AT_3],
            formulas: &[BEFORE_3],
            spent: &[LAST_3],
            order: &[(1, 3)],
            ..UNTIL_3
        },
    ),
];

// another time is known as the last one, and 2 is put for 3
const OF_TWO_TIMES: [Made; 3] = [
    (
        PlainSystem {
            formulas: &[LAST_2, BEFORE_3],
            spent: &[APART_3],
            links: &[(3, 0, 4, 0), (1, 0, 3, 1)],
            order: &[(1, 3)],
            ..UNTIL_3
        },
        PlainSystem {
            formulas: &[BEFORE_2],
            spent: &[APART_2, LAST_2],
            links: &[(2, 0, 4, 0), (1, 0, 2, 1)],
            order: &[(1, 2)],
            ..UNTIL_2
        },
    ),
    (
        PlainSystem {
            formulas: &[APART_3, LAST_3, BEFORE_3],
            ..UNTIL_2
        },
        PlainSystem {
            formulas: &[APART_2, BEFORE_2],
            spent: &[LAST_2],
            ..UNTIL_2
        },
    ),
    (
        PlainSystem {
            formulas: &[LAST_2, NOT_LAST_1],
            closed: true,
            ..UNTIL_3
        },
        PlainSystem {
            formulas: &[NOT_LAST_1],
            spent: &[LAST_2],
            closed: true,
            ..UNTIL_2
        },
    ),
];

// there are events at both times, or at one of them
const OF_EVENTS: [Made; 5] = [
    (
        PlainSystem {
            events: &[R_AT_2, R_AT_3],
            formulas: &[LAST_2],
            ..UNTIL_3
        },
        PlainSystem {
            events: &[R_AT_2],
            spent: &[LAST_2],
            ..UNTIL_2
        },
    ),
    (
        PlainSystem {
            events: &[R_AT_2, R_AT_3],
            formulas: &[LAST_3],
            ..UNTIL_2
        },
        PlainSystem {
            events: &[R_AT_2],
            spent: &[LAST_2],
            ..UNTIL_2
        },
    ),
    (
        PlainSystem {
            events: &[R_AT_3, S_AT_1, R_AT_2],
            formulas: &[LAST_2],
            order: &[(1, 3)],
            ..UNTIL_3
        },
        PlainSystem {
            events: &[R_AT_2, S_AT_1],
            spent: &[LAST_2],
            order: &[(1, 2)],
            ..UNTIL_2
        },
    ),
    (
        PlainSystem {
            events: &[S_AT_1, R_AT_3],
            formulas: &[LAST_2],
            ..UNTIL_3
        },
        PlainSystem {
            events: &[S_AT_1, R_AT_2],
            spent: &[LAST_2],
            ..UNTIL_2
        },
    ),
    (
        PlainSystem {
            events: &[
                PlainEvent::Send(2, PlainTerm::Variable(Sort::Msg, 8)),
                PlainEvent::Send(3, PlainTerm::Variable(Sort::Msg, 7)),
            ],
            formulas: &[LAST_2],
            ..UNTIL_3
        },
        PlainSystem {
            events: &[PlainEvent::Send(2, PlainTerm::Variable(Sort::Msg, 7))],
            spent: &[LAST_2],
            ..UNTIL_2
        },
    ),
];

// a time isn't the last one, where one is known as that
const OF_ANOTHER: [Made; 3] = [
    (
        PlainSystem {
            formulas: &[NOT_LAST_1],
            ..UNTIL_3
        },
        PlainSystem {
            formulas: &[BEFORE_3],
            spent: &[NOT_LAST_1],
            ..UNTIL_3
        },
    ),
    (
        PlainSystem {
            events: &[R_AT_1],
            formulas: &[APART_2, NOT_LAST_1, LAST_2],
            spent: &[BEFORE_2],
            closed: true,
            ..UNTIL_3
        },
        PlainSystem {
            events: &[R_AT_1],
            formulas: &[APART_2, BEFORE_3, LAST_2],
            spent: &[BEFORE_2, NOT_LAST_1],
            closed: true,
            ..UNTIL_3
        },
    ),
    (
        PlainSystem {
            formulas: &[NOT_LAST_3],
            ..UNTIL_3
        },
        PlainSystem {
            formulas: &[PlainFormula::Holds(PlainAtom::Before(Moment::Free(3), Moment::Free(3)))],
            spent: &[NOT_LAST_3],
            ..UNTIL_3
        },
    ),
];

static MADE: [&[Made]; 4] = [&OF_ONE_TIME, &OF_TWO_TIMES, &OF_EVENTS, &OF_ANOTHER];

fn made_cases() -> &'static [&'static [Made]] {
    &MADE
}

fn made_by_row(alloc: Global, given: &PlainSystem) -> Result<Option<System>, AllocError> {
    let given = system_of(alloc, given)?;
    reduced(alloc, Row::Last, &given)
}

#[test]
fn last_times_are_set(rt: HostRuntime) -> Result<(), Fail> {
    let alloc = rt.alloc();
    for (table, cases) in made_cases().iter().enumerate() {
        for (i, (given, wanted)) in cases.iter().enumerate() {
            let found = made_by_row(alloc, given)?.ok_or("no place")?;
            let wanted = system_of(alloc, wanted)?;
            assert!(rt; same_system(alloc, &found, &wanted)?, "{table} {i}");
        }
    }
    Ok(())
}

// x7 is learnt by chains from the steps at 1 and at 2
const BY_CHAIN: PlainEvent<'static> = PlainEvent::Learn(
    5,
    PlainTerm::Variable(Sort::Msg, 7),
    PlainWay::ChainBegun(1, &[PlainTerm::Variable(Sort::Msg, 7)]),
);

const BY_ANOTHER: PlainEvent<'static> = PlainEvent::Learn(
    6,
    PlainTerm::Variable(Sort::Msg, 7),
    PlainWay::ChainBegun(2, &[PlainTerm::Variable(Sort::Msg, 7)]),
);

// it takes F of 'c', or of 'd'
const OF_C: PlainFacts<'static> = PlainFacts {
    premises: &[PlainFact::Linear("F", &[PlainTerm::Public("c")])],
    ..NO_FACTS
};

const OF_D: PlainFacts<'static> = PlainFacts {
    premises: &[PlainFact::Linear("F", &[PlainTerm::Public("d")])],
    ..NO_FACTS
};

// a system, and whether it is contradictory
type Judged = (PlainSystem<'static>, bool);

// The row has no place: nothing is said of the last time; or no time is known as that which another isn't; or it is said of what is bound, in a part, or was spent.
const OF_NOTHING: [Judged; 6] = [
    (UNTIL_3, false),
    (
        PlainSystem {
            formulas: &[NOT_LAST_1],
            ..EMPTY
        },
        false,
    ),
    (
        PlainSystem {
            formulas: &[PlainFormula::Holds(PlainAtom::Last(Moment::Bound(0)))],
            ..EMPTY
        },
        false,
    ),
    (
        PlainSystem {
            formulas: &[PlainFormula::Fails(PlainAtom::Last(Moment::Bound(0)))],
            ..UNTIL_3
        },
        false,
    ),
    (
        PlainSystem {
            formulas: &[PlainFormula::OneOf(&[LAST_2, LAST_3])],
            ..EMPTY
        },
        false,
    ),
    (
        PlainSystem {
            spent: &[LAST_2],
            ..UNTIL_3
        },
        false,
    ),
];

// The events at two last times can't be one: they are of two rules, of two kinds, or over two names; or the steps of their chains can't.
const OF_TWO_EVENTS: [Judged; 6] = [
    (
        PlainSystem {
            events: &[R_AT_2, S_AT_3],
            formulas: &[LAST_2],
            ..UNTIL_3
        },
        true,
    ),
    (
        PlainSystem {
            events: &[R_AT_2, S_AT_3],
            formulas: &[LAST_3],
            ..UNTIL_2
        },
        true,
    ),
    (
        PlainSystem {
            events: &[R_AT_2, S_AT_3],
            formulas: &[LAST_2, NOT_LAST_1],
            ..UNTIL_3
        },
        true,
    ),
    (
        PlainSystem {
            events: &[PlainEvent::Send(2, PlainTerm::Public("c")), R_AT_3],
            formulas: &[LAST_2],
            ..UNTIL_3
        },
        true,
    ),
    (
        PlainSystem {
            events: &[
                PlainEvent::Step(2, "R", OF_C),
                PlainEvent::Step(3, "R", OF_D),
            ],
            formulas: &[LAST_2],
            ..UNTIL_3
        },
        true,
    ),
    (
        PlainSystem {
            events: &[S_AT_1, R_AT_2, BY_CHAIN, BY_ANOTHER],
            formulas: &[PlainFormula::Holds(PlainAtom::Last(Moment::Free(5)))],
            last: Some(6),
            ..EMPTY
        },
        true,
    ),
];

static UNPLACED: [&[Judged]; 2] = [&OF_NOTHING, &OF_TWO_EVENTS];

fn unplaced() -> &'static [&'static [Judged]] {
    &UNPLACED
}

fn is_contradictory(alloc: Global, given: &PlainSystem) -> Result<bool, AllocError> {
    let given = system_of(alloc, given)?;
    contradicts(alloc, &given)
}

#[test]
fn last_times_have_places(rt: HostRuntime) -> Result<(), Fail> {
    let alloc = rt.alloc();
    for (table, cases) in unplaced().iter().enumerate() {
        for (i, (given, wanted)) in cases.iter().enumerate() {
            let made = made_by_row(alloc, given)?;
            assert!(rt; made.is_none(), "{table} {i}");
            let found = is_contradictory(alloc, given)?;
            assert_eq!(rt; found, *wanted, "{table} {i}");
        }
    }
    Ok(())
}

// ---- contradictions

// an order pair begins at the last time, or at another, or where none is known as the last
const OF_ORDERS: [Judged; 5] = [
    (
        PlainSystem {
            order: &[(3, 4)],
            ..UNTIL_3
        },
        true,
    ),
    (
        PlainSystem {
            order: &[(1, 2), (3, 4)],
            ..UNTIL_3
        },
        true,
    ),
    (
        PlainSystem {
            order: &[(4, 3)],
            ..UNTIL_3
        },
        false,
    ),
    (
        PlainSystem {
            order: &[(1, 2), (2, 3), (1, 3)],
            ..UNTIL_3
        },
        false,
    ),
    (
        PlainSystem {
            order: &[(3, 4)],
            ..EMPTY
        },
        false,
    ),
];

// the last time isn't that, or another isn't, or none is known; or it is; or a place that fails is behind another
const OF_DENIALS: [Judged; 6] = [
    (
        PlainSystem {
            formulas: &[NOT_LAST_3],
            ..UNTIL_3
        },
        true,
    ),
    (
        PlainSystem {
            formulas: &[NOT_LAST_1, NOT_LAST_3],
            ..UNTIL_3
        },
        true,
    ),
    (
        PlainSystem {
            formulas: &[NOT_LAST_3],
            ..UNTIL_2
        },
        false,
    ),
    (
        PlainSystem {
            formulas: &[NOT_LAST_3],
            ..EMPTY
        },
        false,
    ),
    (
        PlainSystem {
            formulas: &[LAST_3],
            ..UNTIL_3
        },
        false,
    ),
    (
        PlainSystem {
            events: &[R_AT_2, S_AT_3],
            formulas: &[NOT_LAST_1, LAST_2],
            ..UNTIL_3
        },
        true,
    ),
];

// nothing happens but at 1 and 3, of which the one is before the other, and 3 isn't the last time
const CLOSED_BY_3: PlainSystem<'static> = PlainSystem {
    events: &[R_AT_1, S_AT_3],
    formulas: &[NOT_LAST_3],
    order: &[(1, 3)],
    closed: true,
    ..EMPTY
};

// 2 is between them
const IN_BETWEEN: PlainSystem<'static> = PlainSystem {
    events: &[R_AT_1, R_AT_2, S_AT_3],
    order: &[(2, 3), (1, 2)],
    ..CLOSED_BY_3
};

// each event is before a time that isn't the last, or at it, or there are none
const OF_CLOSED: [Judged; 6] = [
    (CLOSED_BY_3, true),
    (IN_BETWEEN, true),
    (
        PlainSystem {
            events: &[R_AT_1],
            ..CLOSED_BY_3
        },
        true,
    ),
    (
        PlainSystem {
            events: &[S_AT_3],
            order: &[],
            ..CLOSED_BY_3
        },
        true,
    ),
    (
        PlainSystem {
            events: &[],
            order: &[],
            ..CLOSED_BY_3
        },
        true,
    ),
    (
        PlainSystem {
            formulas: &[NOT_LAST_1, NOT_LAST_3],
            ..CLOSED_BY_3
        },
        true,
    ),
];

// Something else may happen; some event isn't ordered, or is behind; another time isn't the last one, or this one is.
const OF_OPEN: [Judged; 6] = [
    (
        PlainSystem {
            closed: false,
            ..CLOSED_BY_3
        },
        false,
    ),
    (
        PlainSystem {
            order: &[(1, 2), (1, 3)],
            ..IN_BETWEEN
        },
        false,
    ),
    (
        PlainSystem {
            order: &[(3, 1)],
            ..CLOSED_BY_3
        },
        false,
    ),
    (
        PlainSystem {
            formulas: &[NOT_LAST_1],
            ..CLOSED_BY_3
        },
        false,
    ),
    (
        PlainSystem {
            formulas: &[NOT_LAST_1],
            last: Some(3),
            ..CLOSED_BY_3
        },
        false,
    ),
    (
        PlainSystem {
            formulas: &[LAST_3],
            ..CLOSED_BY_3
        },
        false,
    ),
];

static JUDGED: [&[Judged]; 4] = [&OF_ORDERS, &OF_DENIALS, &OF_CLOSED, &OF_OPEN];

fn judged() -> &'static [&'static [Judged]] {
    &JUDGED
}

#[test]
fn contradictions_of_the_last_time_are_seen(rt: HostRuntime) -> Result<(), Fail> {
    let alloc = rt.alloc();
    for (table, cases) in judged().iter().enumerate() {
        for (i, (given, wanted)) in cases.iter().enumerate() {
            let found = is_contradictory(alloc, given)?;
            assert_eq!(rt; found, *wanted, "{table} {i}");
        }
    }
    Ok(())
}

// ---- simplification

// 3 is before 4
const BEFORE_4: PlainFormula<'static> = PlainFormula::Holds(PlainAtom::Before(
    Moment::Free(3),
    Moment::Free(4),
));

// A system, what it is simplified to, and whether there is a contradiction then: none; a time after the last one; the last one is denied; or
// two last times have events that can't be one.
static SIMPLIFIED: [(PlainSystem<'static>, PlainSystem<'static>, bool); 4] = [
    (
        PlainSystem {
            formulas: &[NOT_LAST_1, LAST_3],
            ..EMPTY
        },
        PlainSystem {
            spent: &[LAST_3, NOT_LAST_1, BEFORE_3],
            order: &[(1, 3)],
            ..UNTIL_3
        },
        false,
    ),
    (
        PlainSystem {
            formulas: &[LAST_3, NOT_LAST_1, BEFORE_4],
            ..EMPTY
        },
        PlainSystem {
            formulas: &[NOT_LAST_1],
            spent: &[BEFORE_4, LAST_3],
            order: &[(3, 4)],
            ..UNTIL_3
        },
        true,
    ),
    (
        PlainSystem {
            formulas: &[LAST_3, NOT_LAST_1, NOT_LAST_3],
            ..EMPTY
        },
        PlainSystem {
            formulas: &[NOT_LAST_1, NOT_LAST_3],
            spent: &[LAST_3],
            ..UNTIL_3
        },
        true,
    ),
    (
        PlainSystem {
            events: &[R_AT_2, S_AT_3],
            formulas: &[LAST_2, LAST_3],
            ..EMPTY
        },
        PlainSystem {
            events: &[R_AT_2, S_AT_3],
            formulas: &[LAST_3],
            spent: &[LAST_2],
            ..UNTIL_2
        },
        true,
    ),
];

fn simplified() -> &'static [(PlainSystem<'static>, PlainSystem<'static>, bool)] {
    &SIMPLIFIED
}

#[test]
fn systems_with_a_last_time_are_simplified(rt: HostRuntime) -> Result<(), Fail> {
    let alloc = rt.alloc();
    let parts = no_rules(alloc)?;
    for (i, (given, wanted, contradictory)) in simplified().iter().enumerate() {
        let mut made = system_of(alloc, given)?;
        simplify(alloc, &parts.context().theory(), &mut made)?;
        let wanted = system_of(alloc, wanted)?;
        assert!(rt; same_system(alloc, &made, &wanted)?, "{i}");
        let found = contradicts(alloc, &made)?;
        assert_eq!(rt; found, *contradictory, "{i}");
    }
    Ok(())
}
