// The moves that decide what a system leaves open: their cases by name, and why they are no instances.

use crate::moves::{book_of, names, showing};
use sp_fact::signature::Signature;
use sp_moves::applied::{Applied, Clause};
use sp_moves_decide::apply::apply;
use sp_term::term::Sort;
use sp_test_make::plain::{NO_FACTS, PlainEvent, PlainFacts, PlainTerm};
use sp_test_make::plain_moves::{PlainMove, PlainSide, move_of};
use sp_test_make::plain_systems::{EMPTY, PlainSystem, system_of};
use sp_test_make::terms::names as names_of;
use sp_test_make::values::symbols_with;
use std::alloc::Global;
use std::test::Fail;

// B(x0) at 5, A(~1) at 6, behind it, and B($2) at 7
static OPEN: PlainSystem<'static> = PlainSystem {
    events: &[
        PlainEvent::Step(
            5,
            "Other",
            PlainFacts {
                actions: &[("B", &[PlainTerm::Variable(Sort::Msg, 0)])],
                ..NO_FACTS
            },
        ),
        PlainEvent::Step(
            6,
            "One",
            PlainFacts {
                actions: &[("A", &[PlainTerm::Variable(Sort::Fresh, 1)])],
                ..NO_FACTS
            },
        ),
        PlainEvent::Step(
            7,
            "Other",
            PlainFacts {
                actions: &[("B", &[PlainTerm::Variable(Sort::Pub, 2)])],
                ..NO_FACTS
            },
        ),
    ],
    order: &[(5, 6)],
    next: 8,
    ..EMPTY
};

fn open() -> &'static PlainSystem<'static> {
    &OPEN
}

// What the move gives, over three rules and a theory whose one public name is 'c': `h` takes a message, and `k`, which the adversary may not apply, takes none.
fn decided(alloc: Global, chosen: PlainMove) -> Result<Applied, Fail> {
    let symbols = symbols_with(alloc, &[("h", 1, false), ("k", 0, true)])?;
    let equations = Vec::new(alloc);
    let signature = Signature { symbols, equations };
    let constants = names_of(alloc, &["c"])?;
    let rules = book_of(alloc, showing())?;
    let system = system_of(alloc, open())?;
    let chosen = move_of(alloc, chosen)?;
    let applied = apply(alloc, &signature, &constants, &rules, &system, &chosen)?;
    Ok(applied)
}

// A move, the names of its cases, and how many events and formulas the last of them has: a symbol that the adversary may not apply has a case, and what
// happens more is none of what happens.
static CASES: [(PlainMove, &str, usize, usize); 5] = [
    (PlainMove::Compare(5, 7), "before same after ", 3, 0),
    (PlainMove::Top(0), "pub fresh pair fst snd h k ", 3, 0),
    (
        PlainMove::Same(PlainSide::Public(2), PlainSide::Constant("c")),
        "same unequal ",
        3,
        0,
    ),
    (
        PlainMove::MoreEvents,
        "closed One Other Three Send Learn ",
        4,
        3,
    ),
    (PlainMove::Compare(6, 7), "before same after ", 3, 0),
];

fn decided_cases() -> &'static [(PlainMove, &'static str, usize, usize)] {
    &CASES
}

#[test]
fn what_is_open_is_decided(rt: HostRuntime) -> Result<(), Fail> {
    let alloc = rt.alloc();
    for (chosen, wanted, events, formulas) in decided_cases().iter() {
        let Applied::Cases(found) = decided(alloc, *chosen)? else {
            return Err("no instance".into());
        };
        assert_eq!(rt; names(alloc, &found)?.as_str(), *wanted);
        let last = found.last().ok_or("cases")?;
        assert_eq!(rt; last.system.events.len(), *events, "{wanted}");
        assert_eq!(rt; last.system.formulas.len(), *formulas, "{wanted}");
    }
    Ok(())
}

// Times that are ordered, names of two sorts, and a variable with itself are decided.
static CLAUSES: [(PlainMove, Clause); 6] = [
    (PlainMove::Compare(5, 6), Clause::Condition),
    (PlainMove::Compare(7, 5), Clause::Condition),
    (
        PlainMove::Same(PlainSide::Fresh(1), PlainSide::Public(2)),
        Clause::Condition,
    ),
    (
        PlainMove::Same(PlainSide::Fresh(1), PlainSide::Constant("c")),
        Clause::Condition,
    ),
    (
        PlainMove::Same(PlainSide::Public(2), PlainSide::Public(2)),
        Clause::Condition,
    ),
    (PlainMove::Top(1), Clause::OtherKind),
];

fn decided_clauses() -> &'static [(PlainMove, Clause)] {
    &CLAUSES
}

#[test]
fn what_is_decided_is_no_instance(rt: HostRuntime) -> Result<(), Fail> {
    let alloc = rt.alloc();
    for (i, (chosen, wanted)) in decided_clauses().iter().enumerate() {
        match decided(alloc, *chosen)? {
            Applied::NotAnInstance(clause) => assert_eq!(rt; clause, *wanted, "{i}"),
            Applied::Cases(_) => return Err("an instance".into()),
        }
    }
    Ok(())
}
