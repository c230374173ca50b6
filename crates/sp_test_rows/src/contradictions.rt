// Contradictions, and simplification up to one.

use sp_formula::formula::Moment;
use sp_step::reduce::Row;
use sp_step::simplify::simplify;
use sp_system::system::System;
use sp_term::term::Sort;
use sp_test_make::plain::{PlainEvent, PlainTerm};
use sp_test_make::plain_systems::{
    EMPTY, PlainAtom, PlainFormula, PlainLeaf, PlainSystem, system_of,
};
use sp_test_steps::examples::{
    SHARING, SHARING_OF_TWO, Sizes, contradicts, no_rules, reduced, sizes,
};
use std::alloc::{AllocError, Global};
use std::test::Fail;

// a system, and whether it is contradictory
type Case = (PlainSystem<'static>, bool);

// x1 isn't x2
const DIFFER: (PlainTerm<'static>, PlainTerm<'static>) = (
    PlainTerm::Variable(Sort::Msg, 1),
    PlainTerm::Variable(Sort::Msg, 2),
);

// x1 isn't x1
const EQUAL: (PlainTerm<'static>, PlainTerm<'static>) = (
    PlainTerm::Variable(Sort::Msg, 1),
    PlainTerm::Variable(Sort::Msg, 1),
);

const BOTH: PlainFormula<'static> = PlainFormula::AllOf(&[
    PlainFormula::Truth,
    PlainFormula::Falsity,
]);

// a pair that differs, or doesn't; a false formula as a part of one, or alone
const OF_TERMS: [Case; 4] = [
    (
        PlainSystem {
            unequal: &[DIFFER],
            ..EMPTY
        },
        false,
    ),
    (
        PlainSystem {
            unequal: &[DIFFER, EQUAL],
            ..EMPTY
        },
        true,
    ),
    (
        PlainSystem {
            formulas: &[BOTH],
            ..EMPTY
        },
        false,
    ),
    (
        PlainSystem {
            formulas: &[PlainFormula::Falsity],
            ..EMPTY
        },
        true,
    ),
];

// 3 isn't 3
const APART_FROM_ITSELF: PlainFormula<'static> = PlainFormula::Fails(PlainAtom::SameTime(
    Moment::Free(3),
    Moment::Free(3),
));

// 2 isn't before 1
const NOT_BEHIND: PlainFormula<'static> = PlainFormula::Fails(PlainAtom::Before(
    Moment::Free(2),
    Moment::Free(1),
));

// 1 isn't before 2
const NOT_BEFORE: PlainFormula<'static> = PlainFormula::Fails(PlainAtom::Before(
    Moment::Free(1),
    Moment::Free(2),
));

// x5 is 'c', and also 'd'
const TWO_NAMES: PlainSystem<'static> = PlainSystem {
    formulas: &[
        PlainFormula::Holds(PlainAtom::Same(PlainLeaf::Free(Sort::Msg, 5), PlainLeaf::Public("c"))),
        PlainFormula::Holds(PlainAtom::Same(PlainLeaf::Free(Sort::Msg, 5), PlainLeaf::Public("d"))),
    ],
    ..EMPTY
};

// 1 is before 2 in the second and third one
const OF_FORMULAS: [Case; 4] = [
    (
        PlainSystem {
            formulas: &[APART_FROM_ITSELF],
            ..EMPTY
        },
        true,
    ),
    (
        PlainSystem {
            formulas: &[NOT_BEHIND],
            order: &[(1, 2)],
            ..EMPTY
        },
        false,
    ),
    (
        PlainSystem {
            formulas: &[NOT_BEHIND, NOT_BEFORE],
            order: &[(1, 2)],
            ..EMPTY
        },
        true,
    ),
    (TWO_NAMES, false),
];

// 2 is 1
const ONE_TIME: PlainFormula<'static> = PlainFormula::Holds(PlainAtom::SameTime(
    Moment::Free(2),
    Moment::Free(1),
));

const FIRST: PlainEvent<'static> = PlainEvent::Takes(1, "R", &[0]);

const SECOND: PlainEvent<'static> = PlainEvent::Takes(2, "R", &[1]);

const SECOND_OF_ANOTHER: PlainEvent<'static> = PlainEvent::Takes(2, "S", &[1]);

const AGAIN: PlainEvent<'static> = PlainEvent::Takes(3, "R", &[0]);

// Two times are one, at which are events of one rule, or of two; some two events take one name; one event takes a name twice.
const OF_EVENTS: [Case; 5] = [
    (
        PlainSystem {
            events: &[FIRST, SECOND],
            formulas: &[ONE_TIME],
            ..EMPTY
        },
        false,
    ),
    (
        PlainSystem {
            events: &[FIRST, SECOND_OF_ANOTHER],
            formulas: &[ONE_TIME],
            ..EMPTY
        },
        true,
    ),
    (
        PlainSystem {
            events: &[FIRST, SECOND, AGAIN],
            ..EMPTY
        },
        false,
    ),
    (
        PlainSystem {
            events: &[FIRST, SECOND, AGAIN, PlainEvent::Takes(4, "S", &[1])],
            ..EMPTY
        },
        true,
    ),
    (
        PlainSystem {
            events: &[FIRST, SECOND, AGAIN, PlainEvent::Takes(4, "R", &[5, 6, 5])],
            ..EMPTY
        },
        true,
    ),
];

// events of R, each of which takes a fresh name
const OF_ONE_RULE: PlainSystem<'static> = PlainSystem {
    events: &[FIRST, SECOND, PlainEvent::Takes(3, "R", &[2])],
    ..EMPTY
};

// the last one is of S
const OF_TWO_RULES: PlainSystem<'static> = PlainSystem {
    events: &[FIRST, SECOND, PlainEvent::Takes(3, "S", &[2])],
    ..EMPTY
};

// a linear source of two events that can be one, or can't; a source of two premises of one event; two sources of a premise at one event
const OF_LINKS: [Case; 5] = [
    (
        PlainSystem {
            links: &[(1, 0, 2, 0), (1, 0, 3, 0)],
            ..OF_ONE_RULE
        },
        false,
    ),
    (
        PlainSystem {
            links: &[(1, 0, 2, 0), (1, 0, 3, 0)],
            ..OF_TWO_RULES
        },
        true,
    ),
    (
        PlainSystem {
            links: &[(1, 0, 2, 0)],
            ..OF_ONE_RULE
        },
        false,
    ),
    (
        PlainSystem {
            links: &[(1, 0, 2, 0), (1, 0, 2, 1)],
            ..OF_ONE_RULE
        },
        true,
    ),
    (
        PlainSystem {
            links: &[(1, 0, 2, 0), (1, 1, 2, 0)],
            ..OF_ONE_RULE
        },
        true,
    ),
];

static TABLES: [&[Case]; 4] = [&OF_TERMS, &OF_FORMULAS, &OF_EVENTS, &OF_LINKS];

fn tables() -> &'static [&'static [Case]] {
    &TABLES
}

fn is_contradictory(alloc: Global, given: &PlainSystem) -> Result<bool, AllocError> {
    let given = system_of(alloc, given)?;
    contradicts(alloc, &given)
}

// x5 is 'c', and so 'c' is 'd'
fn names_made_one(alloc: Global) -> Result<System, Fail> {
    let given = system_of(alloc, &TWO_NAMES)?;
    let made = reduced(alloc, Row::Equate, &given)?.ok_or("no place")?;
    Ok(made)
}

#[test]
fn contradictions_are_seen(rt: HostRuntime) -> Result<(), Fail> {
    let alloc = rt.alloc();
    for (table, cases) in tables().iter().enumerate() {
        for (i, (given, wanted)) in cases.iter().enumerate() {
            let found = is_contradictory(alloc, given)?;
            assert_eq!(rt; found, *wanted, "{table} {i}");
        }
    }
    let apart = names_made_one(alloc)?;
    assert!(rt; contradicts(alloc, &apart)?);
    Ok(())
}

// 2 isn't 1, which is before it, and not behind it
const ORDERED: PlainSystem<'static> = PlainSystem {
    formulas: &[
        PlainFormula::Fails(PlainAtom::SameTime(Moment::Free(2), Moment::Free(1))),
        PlainFormula::Holds(PlainAtom::Before(Moment::Free(1), Moment::Free(2))),
        NOT_BEHIND,
    ],
    ..EMPTY
};

// one premise has two sources
const TWICE: PlainSystem<'static> = PlainSystem {
    links: &[(1, 0, 3, 0), (2, 0, 3, 0)],
    ..OF_ONE_RULE
};

// whether there is a contradiction, how much is left, and whether there is one then
type Outcome = (bool, Sizes, bool);

static SIMPLIFIED: [(PlainSystem<'static>, Outcome); 4] = [
    (SHARING, (false, (1, 3, 4, 1, 0, 8), true)),
    (SHARING_OF_TWO, (true, (2, 4, 0, 0, 0, 4), true)),
    (ORDERED, (false, (0, 0, 3, 0, 1, 9), false)),
    (TWICE, (false, (2, 0, 0, 0, 0, 9), false)),
];

fn simplified_cases() -> &'static [(PlainSystem<'static>, Outcome)] {
    &SIMPLIFIED
}

fn simplified(alloc: Global, given: &PlainSystem) -> Result<System, AllocError> {
    let parts = no_rules(alloc)?;
    let mut made = system_of(alloc, given)?;
    simplify(alloc, &parts.context().theory(), &mut made)?;
    Ok(made)
}

fn outcome_of(alloc: Global, given: &PlainSystem) -> Result<Outcome, AllocError> {
    let before = is_contradictory(alloc, given)?;
    let made = simplified(alloc, given)?;
    let after = contradicts(alloc, &made)?;
    Ok((before, sizes(&made), after))
}

#[test]
fn systems_are_simplified(rt: HostRuntime) -> Result<(), Fail> {
    let alloc = rt.alloc();
    for (i, (given, wanted)) in simplified_cases().iter().enumerate() {
        let found = outcome_of(alloc, given)?;
        assert_eq!(rt; found, *wanted, "{i}");
    }
    Ok(())
}
