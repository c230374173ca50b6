// The moves of a proof: their cases, and why they are no instances.

use sp_book::book::RuleBook;
use sp_formula::formula::{Formula, Moment};
use sp_moves_formula::action::is_solvable;
use sp_moves_formula::apply::apply as apply_to_formula;
use sp_moves_formula::or::is_disjunction;
use sp_moves_graph::apply::apply as apply_to_graph;
use sp_moves_graph::premise::{Premise, open_premise};
use sp_step::apply::{Applied, Clause, apply};
use sp_step::moves::{Case, Move, cases};
use sp_system::system::System;
use sp_term::term::Sort;
use sp_test_make::facts::no_rules;
use sp_test_make::plain::{
    NO_FACTS, PlainEvent, PlainFact, PlainFacts, PlainRule, PlainTerm, PlainWay, rules_of,
};
use sp_test_make::plain_moves::{PlainMove, PlainSide, move_of};
use sp_test_make::plain_systems::{
    EMPTY, PlainAtom, PlainFormula, PlainLeaf, PlainSystem, formula_of, formulas_of, system_of,
};
use sp_test_make::systems::{link, system};
use sp_test_steps::examples::Parts;
use sp_variant::book::book;
use std::alloc::{AllocError, Global};
use std::test::Fail;

// x0, x1 and 'c'; and x0 in a formula
const X0: PlainTerm<'static> = PlainTerm::Variable(Sort::Msg, 0);

const X1: PlainTerm<'static> = PlainTerm::Variable(Sort::Msg, 1);

const C: PlainTerm<'static> = PlainTerm::Public("c");

const FREE_X0: PlainLeaf<'static> = PlainLeaf::Free(Sort::Msg, 0);

/// One: A(~x); Other: B(x); Three: B(x), A(x), A('c')
static SHOWING: [PlainRule<'static>; 3] = [
    PlainRule {
        name: "One",
        variables: &[("x", Sort::Fresh)],
        facts: PlainFacts {
            actions: &[("A", &[PlainTerm::Variable(Sort::Fresh, 0)])],
            ..NO_FACTS
        },
    },
    PlainRule {
        name: "Other",
        variables: &[("x", Sort::Msg)],
        facts: PlainFacts {
            actions: &[("B", &[X0])],
            ..NO_FACTS
        },
    },
    PlainRule {
        name: "Three",
        variables: &[("x", Sort::Msg)],
        facts: PlainFacts {
            actions: &[("B", &[X0]), ("A", &[X0]), ("A", &[C])],
            ..NO_FACTS
        },
    },
];

pub fn showing() -> &'static [PlainRule<'static>] {
    &SHOWING
}

/// The rules with their forms, without equations.
pub fn book_of(alloc: Global, rules: &[PlainRule]) -> Result<RuleBook, AllocError> {
    let rules = rules_of(alloc, rules)?;
    book(alloc, &Vec::new(alloc), &rules)
}

/// A of the message of number 0, at the time 5.
pub const A_SOUGHT: PlainFormula<'static> = PlainFormula::Holds(PlainAtom::Acts(
    "A",
    &[FREE_X0],
    Moment::Free(5),
));

fn a_sought() -> PlainFormula<'static> {
    A_SOUGHT
}

const B_SOUGHT: PlainFormula<'static> = PlainFormula::Holds(PlainAtom::Acts(
    "B",
    &[FREE_X0],
    Moment::Free(5),
));

/// K of it.
pub const K_SOUGHT: PlainFormula<'static> = PlainFormula::Holds(PlainAtom::Acts(
    "K",
    &[FREE_X0],
    Moment::Free(5),
));

fn k_sought() -> PlainFormula<'static> {
    K_SOUGHT
}

const KU_SOUGHT: PlainFormula<'static> = PlainFormula::Holds(PlainAtom::Acts(
    "KU",
    &[FREE_X0],
    Moment::Free(5),
));

// A and K are looked for
const TWO_ACTIONS: PlainSystem<'static> = PlainSystem {
    formulas: &[A_SOUGHT, K_SOUGHT],
    next: 6,
    ..EMPTY
};

fn two_actions() -> PlainSystem<'static> {
    TWO_ACTIONS
}

// A and K are looked for, or truth holds, or B is looked for
const WITH_PARTS: PlainSystem<'static> = PlainSystem {
    formulas: &[
        A_SOUGHT,
        K_SOUGHT,
        PlainFormula::OneOf(&[PlainFormula::Truth, B_SOUGHT]),
    ],
    ..TWO_ACTIONS
};

fn with_parts() -> PlainSystem<'static> {
    WITH_PARTS
}

/// A and K are looked for, and Three has come at 5.
pub const WITH_EVENT: PlainSystem<'static> = PlainSystem {
    events: &[PlainEvent::Step(
        5,
        "Three",
        PlainFacts {
            actions: &[("B", &[X1]), ("A", &[X1]), ("A", &[C])],
            ..NO_FACTS
        },
    )],
    ..TWO_ACTIONS
};

/// The names of the cases, with a space behind each.
pub fn names(alloc: Global, cases: &Vec<Case>) -> Result<String, AllocError> {
    let mut all = String::new(alloc);
    for case in cases {
        all.push_str(case.name.as_str())?;
        all.push_str(" ")?;
    }
    Ok(all)
}

fn cases_in(applied: Applied) -> Result<Vec<Case>, Fail> {
    match applied {
        Applied::Cases(found) => Ok(found),
        Applied::NotAnInstance(_) => Err("no instance".into()),
    }
}

fn clause_in(applied: &Applied) -> Option<Clause> {
    match applied {
        Applied::Cases(_) => None,
        Applied::NotAnInstance(clause) => Some(*clause),
    }
}

/// What a case has: its events, formulas and spent formulas, and the next number.
pub type Sizes = (usize, usize, usize, u128);

fn sizes(system: &System) -> Sizes {
    (
        system.events.len(),
        system.formulas.len(),
        system.spent.len(),
        system.next,
    )
}

/// Whether each case has so much, and no disjunction.
pub fn all_have(cases: &Vec<Case>, wanted: Sizes) -> bool {
    for case in cases {
        let formulas = &case.system.formulas;
        if sizes(&case.system) != wanted || formulas.iter().any(|formula| is_disjunction(formula)) {
            return false;
        }
    }
    true
}

/// The cases of a move that a formula allows.
pub fn taken_up(
    alloc: Global,
    rules: &RuleBook,
    given: &PlainSystem,
    chosen: PlainMove,
) -> Result<Vec<Case>, Fail> {
    let given = system_of(alloc, given)?;
    let chosen = move_of(alloc, chosen)?;
    cases_in(apply_to_formula(alloc, rules, &given, &chosen)?)
}

/// A system, a move, the names of its cases, and what each of them has.
type TakenUp = (PlainSystem<'static>, PlainMove, &'static str, Sizes);

// Each rule with such an action is tried, each such action of the event, and each part.
static FORMULAS: [TakenUp; 3] = [
    (
        TWO_ACTIONS,
        PlainMove::Action(0),
        "One Three_case_1 Three_case_2 ",
        (1, 2, 0, 7),
    ),
    (WITH_EVENT, PlainMove::Action(0), "at_1 at_2 ", (1, 2, 0, 6)),
    (WITH_PARTS, PlainMove::Or(2), "case_1 case_2 ", (0, 3, 1, 6)),
];

fn formula_cases() -> &'static [TakenUp] {
    &FORMULAS
}

#[test]
fn formulas_are_taken_up(rt: HostRuntime) -> Result<(), Fail> {
    let alloc = rt.alloc();
    let rules = book_of(alloc, showing())?;
    for (given, chosen, wanted, held) in formula_cases().iter() {
        let found = taken_up(alloc, &rules, given, *chosen)?;
        assert_eq!(rt; names(alloc, &found)?.as_str(), *wanted);
        assert!(rt; all_have(&found, *held), "{wanted}");
    }
    Ok(())
}

// that the adversary learns is looked for
const LEARNING: PlainSystem<'static> = PlainSystem {
    formulas: &[KU_SOUGHT],
    next: 6,
    ..EMPTY
};

// What the adversary may have done is done at the time.
static OF_ADVERSARY: [TakenUp; 2] = [
    (TWO_ACTIONS, PlainMove::Action(1), "Send ", (1, 2, 0, 6)),
    (LEARNING, PlainMove::Action(0), "Learn ", (1, 1, 0, 6)),
];

fn of_adversary() -> &'static [TakenUp] {
    &OF_ADVERSARY
}

#[test]
fn actions_of_the_adversary_are_taken_up(rt: HostRuntime) -> Result<(), Fail> {
    let alloc = rt.alloc();
    let rules = book_of(alloc, showing())?;
    for (given, chosen, wanted, held) in of_adversary().iter() {
        let found = taken_up(alloc, &rules, given, *chosen)?;
        assert_eq!(rt; names(alloc, &found)?.as_str(), *wanted);
        assert!(rt; all_have(&found, *held), "{wanted}");
    }
    Ok(())
}

// a move, and why it is no instance
static FORMULA_CLAUSES: [(PlainMove, Option<Clause>); 9] = [
    (PlainMove::Simplify, Some(Clause::AnotherCrate)),
    (PlainMove::Premise(5, 0), Some(Clause::AnotherCrate)),
    (PlainMove::Or(3), Some(Clause::Absent)),
    (PlainMove::Action(3), Some(Clause::Absent)),
    (PlainMove::Or(0), Some(Clause::OtherKind)),
    (PlainMove::Action(2), Some(Clause::OtherKind)),
    (PlainMove::Action(1), None),
    (PlainMove::Or(2), None),
    (PlainMove::Action(0), None),
];

fn formula_clauses() -> &'static [(PlainMove, Option<Clause>)] {
    &FORMULA_CLAUSES
}

fn solvable(alloc: Global, given: &PlainFormula) -> Result<bool, AllocError> {
    let given = formula_of(alloc, given)?;
    is_solvable(alloc, &given)
}

#[test]
fn clauses_of_formulas_are_told(rt: HostRuntime) -> Result<(), Fail> {
    let alloc = rt.alloc();
    assert!(rt; solvable(alloc, &a_sought())?);
    assert!(rt; solvable(alloc, &k_sought())?);
    let rules = book_of(alloc, showing())?;
    let system = system_of(alloc, &with_parts())?;
    for (i, (chosen, wanted)) in formula_clauses().iter().enumerate() {
        let chosen = move_of(alloc, *chosen)?;
        let applied = apply_to_formula(alloc, &rules, &system, &chosen)?;
        assert_eq!(rt; clause_in(&applied), *wanted, "{i}");
    }
    Ok(())
}

// Give concludes S('c'), !T(x), T(x) and T('c') of a message x; Other does nothing
static GIVING: [PlainRule<'static>; 2] = [
    PlainRule {
        name: "Give",
        variables: &[("x", Sort::Msg)],
        facts: PlainFacts {
            conclusions: &[
                PlainFact::Linear("S", &[C]),
                PlainFact::Persistent("T", &[X0]),
                PlainFact::Linear("T", &[X0]),
                PlainFact::Linear("T", &[C]),
            ],
            ..NO_FACTS
        },
    },
    PlainRule {
        name: "Other",
        variables: &[("x", Sort::Msg)],
        facts: NO_FACTS,
    },
];

fn giving() -> &'static [PlainRule<'static>] {
    &GIVING
}

// a step at the time 5 with the premises Fr(~1), In(x), T(x) and T(x), of which the last one has a link
const TAKING: PlainSystem<'static> = PlainSystem {
    events: &[PlainEvent::Step(
        5,
        "Take",
        PlainFacts {
            premises: &[
                PlainFact::Linear("Fr", &[PlainTerm::Variable(Sort::Fresh, 1)]),
                PlainFact::Linear("In", &[X0]),
                PlainFact::Linear("T", &[X0]),
                PlainFact::Linear("T", &[X0]),
            ],
            ..NO_FACTS
        },
    )],
    links: &[(4, 0, 5, 3)],
    next: 6,
    ..EMPTY
};

fn taking() -> PlainSystem<'static> {
    TAKING
}

// The giver is at the time 6, and its variable has the number 7.
#[test]
fn premises_are_taken_up(rt: HostRuntime) -> Result<(), Fail> {
    let alloc = rt.alloc();
    let given = system_of(alloc, &taking())?;
    let rules = book_of(alloc, giving())?;
    let chosen = Move::Premise(5, 2);
    let found = cases_in(apply_to_graph(alloc, &rules, &given, &chosen)?)?;
    assert_eq!(rt; names(alloc, &found)?.as_str(), "Give_case_1 Give_case_2 ");
    for (case, conclusion) in found.iter().zip([2, 3]) {
        assert_eq!(rt; case.system.next, 8);
        assert_eq!(rt;
            case.system.links.last().copied(),
            Some(link(6, conclusion, 5, 2))
        );
        assert_eq!(rt; case.system.order.pairs().last().copied(), Some((6, 5)));
    }
    Ok(())
}

// The event has the time 5; the time 4 stands in a link alone, the time 7 in a formula alone; the time 8 is said to be the last.
static WITH_TIMES: PlainSystem<'static> = PlainSystem {
    last: Some(8),
    formulas: &[PlainFormula::Fails(PlainAtom::Before(Moment::Free(7), Moment::Bound(0)))],
    ..TAKING
};

fn with_times() -> &'static PlainSystem<'static> {
    &WITH_TIMES
}

// a time, the place of a premise there, and why its source is not looked for
static PREMISE_CLAUSES: [(u128, usize, Option<Clause>); 9] = [
    (9, 0, Some(Clause::Absent)),
    (5, 4, Some(Clause::Absent)),
    (4, 0, Some(Clause::OtherKind)),
    (7, 0, Some(Clause::OtherKind)),
    (8, 0, Some(Clause::OtherKind)),
    (5, 0, Some(Clause::Condition)),
    (5, 1, Some(Clause::Condition)),
    (5, 3, Some(Clause::Condition)),
    (5, 2, None),
];

fn premise_clauses() -> &'static [(u128, usize, Option<Clause>)] {
    &PREMISE_CLAUSES
}

#[test]
fn clauses_of_premises_are_told(rt: HostRuntime) -> Result<(), Fail> {
    let alloc = rt.alloc();
    let rules = no_rules(alloc)?;
    let given = system_of(alloc, with_times())?;
    for (time, place, wanted) in premise_clauses().iter() {
        let premise = Premise {
            time: *time,
            place: *place,
        };
        let chosen = Move::Premise(*time, *place as u128);
        let applied = apply_to_graph(alloc, &rules, &given, &chosen)?;
        assert_eq!(rt; clause_in(&applied), *wanted, "{time} {place}");
        let is_open = open_premise(&given, premise).is_some();
        assert_eq!(rt; is_open, wanted.is_none(), "{time} {place}");
    }
    Ok(())
}

// The chain begins at the time 1, at which there is no event; at the time 5 there is one without premises.
static WITH_CHAIN: PlainSystem<'static> = PlainSystem {
    events: &[PlainEvent::Learn(5, X0, PlainWay::ChainBegun(1, &[X0]))],
    next: 6,
    ..EMPTY
};

fn with_chain() -> &'static PlainSystem<'static> {
    &WITH_CHAIN
}

#[test]
fn times_of_chains_are_there(rt: HostRuntime) -> Result<(), Fail> {
    let alloc = rt.alloc();
    let rules = no_rules(alloc)?;
    let given = system_of(alloc, with_chain())?;
    for (time, wanted) in [
        (1, Clause::OtherKind),
        (2, Clause::Absent),
        (5, Clause::OtherKind),
    ] {
        let applied = apply_to_graph(alloc, &rules, &given, &Move::Premise(time, 0))?;
        assert_eq!(rt; clause_in(&applied), Some(wanted), "{time}");
    }
    Ok(())
}

// 2^64 + 2 is no place of a list, though its last 64 bits are
#[test]
fn great_places_are_no_others(rt: HostRuntime) -> Result<(), Fail> {
    let alloc = rt.alloc();
    let rules = no_rules(alloc)?;
    let given = system_of(alloc, &taking())?;
    let chosen = Move::Premise(5, (1 << 64) + 2);
    let applied = apply_to_graph(alloc, &rules, &given, &chosen)?;
    assert_eq!(rt; clause_in(&applied), Some(Clause::Absent));
    Ok(())
}

#[test]
fn other_moves_take_up_no_premise(rt: HostRuntime) -> Result<(), Fail> {
    let alloc = rt.alloc();
    let rules = no_rules(alloc)?;
    let given = system_of(alloc, &taking())?;
    for chosen in [PlainMove::Simplify, PlainMove::Or(0), PlainMove::Action(0)] {
        let chosen = move_of(alloc, chosen)?;
        let applied = apply_to_graph(alloc, &rules, &given, &chosen)?;
        assert_eq!(rt; clause_in(&applied), Some(Clause::AnotherCrate));
    }
    Ok(())
}

// a move, and why it is no instance
static MOVE_CLAUSES: [(PlainMove, Option<Clause>); 20] = [
    (PlainMove::Simplify, Some(Clause::Condition)),
    (PlainMove::Contradiction, Some(Clause::Condition)),
    (PlainMove::Solved, Some(Clause::Condition)),
    (PlainMove::Action(1), None),
    (PlainMove::Or(0), Some(Clause::OtherKind)),
    (PlainMove::Action(2), Some(Clause::Absent)),
    (PlainMove::Premise(9, 0), Some(Clause::Absent)),
    (PlainMove::Or(1 << 64), Some(Clause::Absent)),
    (PlainMove::Induction, Some(Clause::Condition)),
    (PlainMove::Source(5), Some(Clause::Condition)),
    (PlainMove::Compare(4, 5), Some(Clause::Absent)),
    (PlainMove::Compare(5, 5), Some(Clause::Condition)),
    (PlainMove::Top(0), None),
    (PlainMove::Top(1), Some(Clause::Absent)),
    (
        PlainMove::Same(PlainSide::Fresh(0), PlainSide::Fresh(1)),
        Some(Clause::Absent),
    ),
    (
        PlainMove::Same(PlainSide::Fresh(0), PlainSide::Fresh(0)),
        Some(Clause::OtherKind),
    ),
    (PlainMove::MoreEvents, None),
    (PlainMove::Finish, Some(Clause::Condition)),
    (PlainMove::Action(0), None),
    (PlainMove::Unproved, None),
];

fn move_clauses() -> &'static [(PlainMove, Option<Clause>)] {
    &MOVE_CLAUSES
}

#[test]
fn clauses_of_moves_are_told(rt: HostRuntime) -> Result<(), Fail> {
    let alloc = rt.alloc();
    let parts = Parts::new(alloc, Vec::new(alloc), Formula::Falsity)?;
    let context = parts.context();
    let system = system_of(alloc, &two_actions())?;
    for (i, (chosen, wanted)) in move_clauses().iter().enumerate() {
        let chosen = move_of(alloc, *chosen)?;
        let applied = apply(alloc, &context, &system, &chosen)?;
        assert_eq!(rt; clause_in(&applied), *wanted, "{i}");
        let found = cases(alloc, &context, &system, &chosen)?;
        assert_eq!(rt; found.is_none(), wanted.is_some(), "{i}");
    }
    Ok(())
}

// What is sought, and the formulas of a system without events: the log without entries is the only one that it suggests, and only where
// no action waits for its event.
static ENDS: [(PlainFormula<'static>, &[PlainFormula<'static>], bool); 3] = [
    (PlainFormula::Truth, &[], true),
    (PlainFormula::Falsity, &[], false),
    (PlainFormula::Truth, &[A_SOUGHT, K_SOUGHT], false),
];

fn end_cases() -> &'static [(
    PlainFormula<'static>,
    &'static [PlainFormula<'static>],
    bool,
)] {
    &ENDS
}

// whether the search ends with a log in the system of these formulas, whose next number is 6
fn ends(
    alloc: Global,
    sought: &PlainFormula,
    formulas: &[PlainFormula],
) -> Result<bool, AllocError> {
    let given = system(alloc, formulas_of(alloc, formulas)?, 6)?;
    let parts = Parts::new(alloc, Vec::new(alloc), formula_of(alloc, sought)?)?;
    let found = cases(alloc, &parts.context(), &given, &Move::Solved)?;
    Ok(found.is_some())
}

#[test]
fn searches_end_with_a_log(rt: HostRuntime) -> Result<(), Fail> {
    let alloc = rt.alloc();
    for (i, (sought, formulas, wanted)) in end_cases().iter().enumerate() {
        let found = ends(alloc, sought, *formulas)?;
        assert_eq!(rt; found, *wanted, "{i}");
    }
    Ok(())
}
