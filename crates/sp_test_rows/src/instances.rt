// Instances of universal formulas.

use sp_formula::formula::{Binder, Formula, Moment};
use sp_formula::same::same_formula;
use sp_formula::shared::SharedFormula;
use sp_step::reduce::Row;
use sp_system::system::System;
use sp_term::term::Sort;
use sp_test_make::plain::{NO_FACTS, PlainEvent, PlainFacts, PlainTerm};
use sp_test_make::plain_systems::{
    EMPTY, PlainAtom, PlainFormula, PlainLeaf, PlainSystem, formula_of, system_of,
};
use sp_test_steps::examples::reduced;
use std::alloc::{AllocError, Global};
use std::test::Fail;

// A('c') happens at 1
const SHOWN: PlainSystem<'static> = PlainSystem {
    events: &[PlainEvent::Step(
        1,
        "R",
        PlainFacts {
            actions: &[("A", &[PlainTerm::Public("c")])],
            ..NO_FACTS
        },
    )],
    ..EMPTY
};

fn shown(alloc: Global) -> Result<System, AllocError> {
    system_of(alloc, &SHOWN)
}

// A(x)@i in a guard, for the innermost message and the innermost time, and for those around them
const COMES: PlainAtom<'static> = PlainAtom::Acts("A", &[PlainLeaf::Bound(0)], Moment::Bound(0));

const OTHER_COMES: PlainAtom<'static> = PlainAtom::Acts(
    "A",
    &[PlainLeaf::Bound(1)],
    Moment::Bound(1),
);

// whether the formula is what the next instance appends, or there is no instance and none is wanted
fn gives(alloc: Global, given: &System, wanted: &Option<PlainFormula>) -> Result<bool, AllocError> {
    match (reduced(alloc, Row::Instantiate, given)?, wanted) {
        (Some(made), Some(wanted)) => {
            let wanted = formula_of(alloc, wanted)?;
            Ok(match made.formulas.last() {
                Some(last) => {
                    made.formulas.len() == given.formulas.len() + 1 && same_formula(last, &wanted)
                }
                None => false,
            })
        }
        (None, None) => Ok(true),
        _ => Ok(false),
    }
}

// For all messages of a sort that A comes with, falsity; 'c' is a message and a public name, and not fresh.
static BODIES: [(PlainFormula<'static>, Option<PlainFormula<'static>>); 3] = [
    (
        PlainFormula::ForAll(
            &[Binder::Message(Sort::Msg), Binder::Time],
            &[COMES],
            &PlainFormula::Falsity,
        ),
        Some(PlainFormula::Falsity),
    ),
    (
        PlainFormula::ForAll(
            &[Binder::Message(Sort::Pub), Binder::Time],
            &[COMES],
            &PlainFormula::Falsity,
        ),
        Some(PlainFormula::Falsity),
    ),
    (
        PlainFormula::ForAll(
            &[Binder::Message(Sort::Fresh), Binder::Time],
            &[COMES],
            &PlainFormula::Falsity,
        ),
        None,
    ),
];

fn bodies() -> &'static [(PlainFormula<'static>, Option<PlainFormula<'static>>)] {
    &BODIES
}

#[test]
fn bodies_are_appended_once(rt: HostRuntime) -> Result<(), Fail> {
    let alloc = rt.alloc();
    for (i, (formula, wanted)) in bodies().iter().enumerate() {
        let mut given = shown(alloc)?;
        let formula = SharedFormula::new(alloc, formula_of(alloc, formula)?)?;
        given.formulas.push(alloc, formula)?;
        assert!(rt; gives(alloc, &given, wanted)?, "{i}");
        let falsity = SharedFormula::new(alloc, Formula::Falsity)?;
        given.spent.push(alloc, falsity)?;
        assert!(rt; gives(alloc, &given, &None)?, "{i}");
    }
    Ok(())
}

// for all x #i y #j, if A(x)@i and A(y)@j, then x = y
const AT_MOST_ONE: PlainFormula<'static> = PlainFormula::ForAll(
    &[
        Binder::Message(Sort::Msg),
        Binder::Time,
        Binder::Message(Sort::Msg),
        Binder::Time,
    ],
    &[OTHER_COMES, COMES],
    &PlainFormula::Holds(PlainAtom::Same(PlainLeaf::Bound(1), PlainLeaf::Bound(0))),
);

// A('c') and A('d') happen at 1, A('e') at 2
static THREE_ACTIONS: PlainSystem<'static> = PlainSystem {
    events: &[
        PlainEvent::Step(
            1,
            "R",
            PlainFacts {
                actions: &[
                    ("A", &[PlainTerm::Public("c")]),
                    ("A", &[PlainTerm::Public("d")]),
                ],
                ..NO_FACTS
            },
        ),
        PlainEvent::Step(
            2,
            "R",
            PlainFacts {
                actions: &[("A", &[PlainTerm::Public("e")])],
                ..NO_FACTS
            },
        ),
    ],
    formulas: &[AT_MOST_ONE],
    ..EMPTY
};

fn plain_actions() -> &'static PlainSystem<'static> {
    &THREE_ACTIONS
}

fn three_actions(alloc: Global) -> Result<System, AllocError> {
    system_of(alloc, plain_actions())
}

static PAIRS: [(&str, &str); 9] = [
    ("c", "c"),
    ("c", "d"),
    ("c", "e"),
    ("d", "c"),
    ("d", "d"),
    ("d", "e"),
    ("e", "c"),
    ("e", "d"),
    ("e", "e"),
];

fn pairs() -> &'static [(&'static str, &'static str)] {
    &PAIRS
}

fn same_constants<'a>(left: &'a str, right: &'a str) -> PlainFormula<'a> {
    PlainFormula::Holds(PlainAtom::Same(PlainLeaf::Public(left), PlainLeaf::Public(right)))
}

#[test]
fn pairs_of_actions_are_gone_over_in_order(rt: HostRuntime) -> Result<(), Fail> {
    let alloc = rt.alloc();
    let mut given = three_actions(alloc)?;
    for (left, right) in pairs().iter() {
        let next = same_constants(left, right);
        assert!(rt; gives(alloc, &given, &Some(next))?, "{left} {right}");
        let spent = SharedFormula::new(alloc, formula_of(alloc, &next)?)?;
        given.spent.push(alloc, spent)?;
    }
    assert!(rt; gives(alloc, &given, &None)?);
    Ok(())
}

// for all x $p #i, if A(x)@i and p = x, then p = x
const EQUAL: PlainFormula<'static> = PlainFormula::ForAll(
    &[
        Binder::Message(Sort::Msg),
        Binder::Message(Sort::Pub),
        Binder::Time,
    ],
    &[
        PlainAtom::Acts("A", &[PlainLeaf::Bound(1)], Moment::Bound(0)),
        PlainAtom::Same(PlainLeaf::Bound(0), PlainLeaf::Bound(1)),
    ],
    &PlainFormula::Holds(PlainAtom::Same(PlainLeaf::Bound(0), PlainLeaf::Bound(1))),
);

// 'c' is 'c'
const C_IS_C: PlainFormula<'static> = PlainFormula::Holds(PlainAtom::Same(
    PlainLeaf::Public("c"),
    PlainLeaf::Public("c"),
));

// A guard binds a public name by an equality; a variable that ranges over any message is none.
static BOUND: [(PlainSystem<'static>, Option<PlainFormula<'static>>); 2] = [
    (
        PlainSystem {
            formulas: &[EQUAL],
            ..SHOWN
        },
        Some(C_IS_C),
    ),
    (
        PlainSystem {
            events: &[PlainEvent::Step(
                1,
                "R",
                PlainFacts {
                    actions: &[("A", &[PlainTerm::Variable(Sort::Msg, 3)])],
                    ..NO_FACTS
                },
            )],
            formulas: &[EQUAL],
            ..EMPTY
        },
        None,
    ),
];

fn bound() -> &'static [(PlainSystem<'static>, Option<PlainFormula<'static>>)] {
    &BOUND
}

#[test]
fn equalities_bind(rt: HostRuntime) -> Result<(), Fail> {
    let alloc = rt.alloc();
    for (i, (given, wanted)) in bound().iter().enumerate() {
        let given = system_of(alloc, given)?;
        assert!(rt; gives(alloc, &given, wanted)?, "{i}");
    }
    Ok(())
}
