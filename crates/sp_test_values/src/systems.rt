// Systems in memory: changed and copied, what two events have to share, and the order of times.

use sp_formula::formula::{Atom, Binder, Formula, Moment};
use sp_formula::place::placed;
use sp_formula::same::same_formula;
use sp_formula::shared::SharedFormula;
use sp_merge::merging::happenings_merging;
use sp_order::order::Order;
use sp_system::system::System;
use sp_term::subst::Subst;
use sp_term::term::{Sort, Term, Variable};
use sp_test_make::formulas::{acts, bound, exists, messages_and_times, same_time};
use sp_test_make::plain::{
    NO_FACTS, PlainEvent, PlainFact, PlainFacts, PlainTerm, event_of, term_of,
};
use sp_test_make::plain_systems::{
    EMPTY, PlainAtom, PlainFormula, PlainLeaf, PlainSystem, system_of,
};
use sp_test_make::systems::link;
use std::alloc::{AllocError, Global};
use std::test::Fail;

const OTHER: Variable = Variable {
    sort: Sort::Msg,
    number: 1,
};

const X0: PlainTerm<'static> = PlainTerm::Variable(Sort::Msg, 0);

const X1: PlainTerm<'static> = PlainTerm::Variable(Sort::Msg, 1);

// the premise F(x0) and the action A(x0), and those of x1
const OF_X0: PlainFacts<'static> = PlainFacts {
    premises: &[PlainFact::Linear("F", &[X0])],
    actions: &[("A", &[X0])],
    ..NO_FACTS
};

const OF_X1: PlainFacts<'static> = PlainFacts {
    premises: &[PlainFact::Linear("F", &[X1])],
    actions: &[("A", &[X1])],
    ..NO_FACTS
};

// there are x and i with A(x) at i, and x is not x1
const SOME_BUT_X1: PlainFormula<'static> = PlainFormula::Exists(
    &[Binder::Message(Sort::Msg), Binder::Time],
    &[PlainAtom::Acts("A", &[PlainLeaf::Bound(0)], Moment::Bound(0))],
    &PlainFormula::Fails(PlainAtom::Same(PlainLeaf::Bound(0), PlainLeaf::Free(Sort::Msg, 1))),
);

// events at 2 and 3, which are ordered, linked and apart, over two variables that differ
static TWO_EVENTS: PlainSystem<'static> = PlainSystem {
    events: &[
        PlainEvent::Step(2, "R", OF_X0),
        PlainEvent::Step(3, "R", OF_X1),
    ],
    formulas: &[
        SOME_BUT_X1,
        PlainFormula::Fails(PlainAtom::SameTime(Moment::Free(2), Moment::Free(3))),
    ],
    unequal: &[(X0, X1)],
    links: &[(2, 0, 3, 1), (2, 0, 2, 1)],
    order: &[(2, 3)],
    next: 4,
    ..EMPTY
};

fn plain_events() -> &'static PlainSystem<'static> {
    &TWO_EVENTS
}

fn two_events(alloc: Global) -> Result<System, AllocError> {
    system_of(alloc, plain_events())
}

// what is made of them
#[derive(Clone, Copy)]
enum Change {
    // ~n7 stands for x1, and 2 for 3
    OneTime,
    // ~n7 stands for x1
    Terms,
    Copied,
}

impl Change {
    fn made(self, alloc: Global) -> Result<System, AllocError> {
        let given = two_events(alloc)?;
        let mut subst = Subst::new(alloc);
        subst.push(OTHER, Term::FreshName(7))?;
        match self {
            Change::OneTime => given.changed(alloc, &subst, 2, 3),
            Change::Terms => given.with_terms(alloc, &subst),
            Change::Copied => given.clone(),
        }
    }
}

// there are x and i with A(x) at i, and x is not what stands for x1
fn some_but(alloc: Global, other: &Term) -> Result<Formula, AllocError> {
    let body = Formula::Fails(Atom::Same(bound(0), placed(alloc, other)?));
    let guard = vec![in alloc; acts(alloc, "A", bound(0), Moment::Bound(0))?]?;
    let binders = messages_and_times(alloc, &[Sort::Msg])?;
    exists(alloc, binders, guard, body)
}

// whether the first formula is about this term in place of x1
fn begins_about(alloc: Global, made: &System, other: &Term) -> Result<bool, Fail> {
    let some = some_but(alloc, other)?;
    let first = made.formulas.first().ok_or("first")?;
    Ok(same_formula(first, &some))
}

// whether the last one is about this time in place of 3
fn ends_about(made: &System, second: u128) -> Result<bool, Fail> {
    let apart = Formula::Fails(same_time(2, second));
    let last = made.formulas.last().ok_or("last")?;
    Ok(same_formula(last, &apart))
}

fn speaks_of(alloc: Global, made: &System, other: &Term, second: u128) -> Result<bool, Fail> {
    let begins = begins_about(alloc, made, other)?;
    let ends = ends_about(made, second)?;
    Ok(begins && ends)
}

// A change, the term in place of x1, the time in place of 3, and the number of links.
// Where the two times become one, the two links become equal, and are one.
static CHANGES: [(Change, PlainTerm<'static>, u128, usize); 3] = [
    (Change::OneTime, PlainTerm::FreshName(7), 2, 1),
    (Change::Terms, PlainTerm::FreshName(7), 3, 2),
    (Change::Copied, X1, 3, 2),
];

fn changes() -> &'static [(Change, PlainTerm<'static>, u128, usize)] {
    &CHANGES
}

#[test]
fn systems_are_changed_and_copied(rt: HostRuntime) -> Result<(), Fail> {
    let alloc = rt.alloc();
    for (i, (change, other, second, links)) in changes().iter().enumerate() {
        let made = change.made(alloc)?;
        let other = term_of(alloc, other)?;
        assert!(rt; speaks_of(alloc, &made, &other, *second)?, "{i}");
        assert_eq!(rt;
            made.order.pairs().first().copied(),
            Some((2, *second)),
            "{i}"
        );
        assert_eq!(rt; made.links.len(), *links, "{i}");
        assert_eq!(rt;
            made.links.first().copied(),
            Some(link(2, 0, *second, 1)),
            "{i}"
        );
    }
    Ok(())
}

// how many events, formulas and links there are
fn counts(system: &System) -> (usize, usize, usize) {
    (
        system.events.len(),
        system.formulas.len(),
        system.links.len(),
    )
}

#[test]
fn copies_keep_their_lists(rt: HostRuntime) -> Result<(), Fail> {
    let alloc = rt.alloc();
    let given = two_events(alloc)?;
    let mut made = given.clone()?;
    let (events, formulas, links) = counts(&given);
    made.events.append(alloc, Vec::new(alloc))?;
    made.links.push(alloc, link(3, 0, 2, 0))?;
    let falsity = SharedFormula::new(alloc, Formula::Falsity)?;
    made.formulas.push(alloc, falsity)?;
    assert_eq!(rt; counts(&given), (events, formulas, links));
    assert_eq!(rt; made.links.last().copied(), Some(link(3, 0, 2, 0)));
    let last = made.formulas.last().ok_or("last")?;
    assert!(rt; same_formula(last, &Formula::Falsity));
    let kept = given.formulas.last().ok_or("kept")?;
    assert!(rt; !same_formula(kept, &Formula::Falsity));
    Ok(())
}

// the number of pairs that are equal where a step of R and one of this rule are one, if they can be
fn pairs_merging(alloc: Global, rule: &str) -> Result<Option<usize>, AllocError> {
    let left = event_of(alloc, &PlainEvent::Step(2, "R", OF_X0))?;
    let right = event_of(alloc, &PlainEvent::Step(3, rule, OF_X1))?;
    Ok(match happenings_merging(alloc, &left, &right)? {
        Some(found) => Some(found.pairs.len()),
        None => None,
    })
}

// one event has the same rule as the other, or another one
#[test]
fn events_are_paired(rt: HostRuntime) -> Result<(), Fail> {
    let alloc = rt.alloc();
    for (rule, wanted) in [("R", Some(2)), ("S", None)] {
        let found = pairs_merging(alloc, rule)?;
        assert_eq!(rt; found, wanted, "{rule}");
    }
    Ok(())
}

// 0 before 1, 1 before 2, and so on, up to 64: 65 times, which take more than a word of bits
fn chain(alloc: Global) -> Result<Order, AllocError> {
    let mut order = Order::new(alloc)?;
    for time in 0..64_u64 {
        let first = u128::from(time);
        order.add(alloc, first, first + 1)?;
    }
    Ok(order)
}

#[test]
fn orders_are_followed(rt: HostRuntime) -> Result<(), Fail> {
    let alloc = rt.alloc();
    let mut order = chain(alloc)?;
    for (first, second, wanted) in [
        (0, 64, true),
        (63, 64, true),
        (64, 0, false),
        (0, 0, false),
        (0, 65, false),
    ] {
        assert_eq!(rt; order.before(first, second), wanted, "{first} {second}");
    }
    let plain = order.share()?;
    order.add(alloc, 64, 0)?;
    assert!(rt; order.has_cycle() && order.before(64, 63) && order.before(7, 7));
    assert!(rt; !plain.has_cycle() && !plain.before(64, 0));
    Ok(())
}

#[test]
fn times_of_a_chain_that_are_one_make_a_cycle(rt: HostRuntime) -> Result<(), Fail> {
    let alloc = rt.alloc();
    let order = chain(alloc)?;
    let made = order.changed(alloc, 10, 40)?;
    assert!(rt; made.has_cycle() && made.before(10, 10) && made.before(0, 64));
    assert!(rt; !made.before(9, 9) && !made.before(40, 41));
    assert!(rt; !order.has_cycle() && order.before(40, 41));
    Ok(())
}
