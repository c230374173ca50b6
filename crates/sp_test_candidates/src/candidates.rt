// The log that a solved system suggests, and the log that is looked for.

use sp_fact::ground_term::GroundTerm;
use sp_formula::formula::{Binder, Moment};
use sp_learn::log::{Entry, How, Log};
use sp_log::log::{Entry as StepEntry, Source};
use sp_solved::{candidate, found};
use sp_term::term::{Sort, Term};
use sp_test_make::plain::{
    NO_FACTS, PlainEvent, PlainFact, PlainFacts, PlainRule, PlainTerm, PlainWay, rules_of,
};
use sp_test_make::plain_systems::{
    EMPTY, PlainAtom, PlainFormula, PlainLeaf, PlainSystem, formula_of, formulas_of, system_of,
};
use sp_test_make::terms::names;
use sp_test_steps::examples::Parts;
use std::alloc::{AllocError, Global};
use std::test::Fail;

fn put_term(text: &mut String, term: &GroundTerm) -> Result<(), AllocError> {
    match term {
        Term::Constant(name) => {
            text.push_str("'")?;
            text.push_str(name.text.as_str())?;
            text.push_str("'")
        }
        Term::FreshName(1) => text.push_str("~n1"),
        Term::FreshName(2) => text.push_str("~n2"),
        _ => text.push_str("?"),
    }
}

fn put_terms(text: &mut String, terms: &Vec<GroundTerm>) -> Result<(), AllocError> {
    for term in terms {
        text.push_str(" ")?;
        put_term(text, term)?;
    }
    Ok(())
}

fn put_sources(alloc: Global, text: &mut String, sources: &Vec<Source>) -> Result<(), AllocError> {
    for source in sources {
        if let Source::Conclusion(giver, place) = source {
            let words = format!(in alloc; " from {giver}.{place}")?;
            text.push_str(words.as_str())?;
        }
    }
    Ok(())
}

// the rule of the step, the arguments of its actions, and the conclusions that give its premises
fn put_step(alloc: Global, text: &mut String, step: &StepEntry) -> Result<(), AllocError> {
    text.push_str(step.rule.text.as_str())?;
    for action in &step.facts.actions {
        put_terms(text, &action.args)?;
    }
    put_sources(alloc, text, &step.sources)
}

fn put_how(alloc: Global, text: &mut String, how: &How) -> Result<(), AllocError> {
    match how {
        How::PublicName => text.push_str(" public"),
        How::OwnName => text.push_str(" own"),
        How::Constructed => text.push_str(" made"),
        How::Chain {
            step,
            conclusion,
            messages,
        } => {
            let words = format!(in alloc; " chain {step}.{conclusion}")?;
            text.push_str(words.as_str())?;
            put_terms(text, messages)
        }
    }
}

fn put_entry(alloc: Global, text: &mut String, entry: &Entry) -> Result<(), AllocError> {
    match entry {
        Entry::Step(step) => put_step(alloc, text, step)?,
        Entry::Send(message) => {
            text.push_str("send ")?;
            put_term(text, message)?;
        }
        Entry::Learn(message, how) => {
            text.push_str("learn ")?;
            put_term(text, message)?;
            put_how(alloc, text, how)?;
        }
    }
    text.push_str(";")
}

// the entries of the log, or `none`
fn text_of(alloc: Global, log: &Option<Log>) -> Result<String, AllocError> {
    let mut text = String::new(alloc);
    match log {
        Some(log) => {
            for entry in &log.entries {
                put_entry(alloc, &mut text, entry)?;
            }
        }
        None => text.push_str("none")?,
    }
    Ok(text)
}

// ---- steps alone

const X1: PlainTerm<'static> = PlainTerm::Variable(Sort::Msg, 1);

const PUBLIC: PlainTerm<'static> = PlainTerm::Variable(Sort::Pub, 2);

const FRESH7: PlainTerm<'static> = PlainTerm::Variable(Sort::Fresh, 7);

const FRESH8: PlainTerm<'static> = PlainTerm::Variable(Sort::Fresh, 8);

// P at 5 shows A(x1, $2)
const FIRST: PlainEvent<'static> = PlainEvent::Step(
    5,
    "P",
    PlainFacts {
        actions: &[("A", &[X1, PUBLIC])],
        ..NO_FACTS
    },
);

// Q at 3 takes Fr(~7) and shows A(~7, x1)
const SECOND: PlainEvent<'static> = PlainEvent::Step(
    3,
    "Q",
    PlainFacts {
        premises: &[PlainFact::Linear("Fr", &[FRESH7])],
        actions: &[("A", &[FRESH7, X1])],
        ..NO_FACTS
    },
);

// R at 4 takes Fr(~8) and shows A(~8, ~7)
const THIRD: PlainEvent<'static> = PlainEvent::Step(
    4,
    "R",
    PlainFacts {
        premises: &[PlainFact::Linear("Fr", &[FRESH8])],
        actions: &[("A", &[FRESH8, FRESH7])],
        ..NO_FACTS
    },
);

// S at 4 takes Key(x1) and shows A(x1)
const TAKING: PlainEvent<'static> = PlainEvent::Step(
    4,
    "S",
    PlainFacts {
        premises: &[PlainFact::Linear("Key", &[X1])],
        actions: &[("A", &[X1])],
        ..NO_FACTS
    },
);

// the system in which nothing stands, and whose next number is above those of the steps
const NO_STEP: PlainSystem<'static> = PlainSystem { next: 100, ..EMPTY };

const ONE_STEP: PlainSystem<'static> = PlainSystem {
    events: &[FIRST],
    ..NO_STEP
};

const TWO_STEPS: PlainSystem<'static> = PlainSystem {
    events: &[FIRST, SECOND],
    ..NO_STEP
};

// an action that waits for its event at 5, where FIRST is, or at 6
const WAITS_AT_5: PlainFormula<'static> = PlainFormula::Holds(PlainAtom::Acts(
    "A",
    &[],
    Moment::Free(5),
));

const WAITS_AT_6: PlainFormula<'static> = PlainFormula::Holds(PlainAtom::Acts(
    "A",
    &[],
    Moment::Free(6),
));

// A system, the theory's constants, which names are not to be, and the log that is wanted: each rule with the arguments of its action,
// and the sources that aren't the fresh rule.
static SUGGESTED: [(PlainSystem<'static>, &[&str], &str); 11] = [
    (NO_STEP, &[], ""),
    (TWO_STEPS, &[], "P 'a1' 'a2';Q ~n1 'a1';"),
    (
        PlainSystem {
            order: &[(3, 5)],
            ..TWO_STEPS
        },
        &[],
        "Q ~n1 'a1';P 'a1' 'a2';",
    ),
    (
        PlainSystem {
            order: &[(3, 9), (9, 5)],
            ..TWO_STEPS
        },
        &[],
        "Q ~n1 'a1';P 'a1' 'a2';",
    ),
    (ONE_STEP, &["b", "a1", "a3"], "P 'a2' 'a4';"),
    (
        PlainSystem {
            events: &[SECOND, THIRD],
            order: &[(4, 3)],
            ..NO_STEP
        },
        &[],
        "R ~n1 ~n2;Q ~n2 'a1';",
    ),
    (
        PlainSystem {
            formulas: &[WAITS_AT_5],
            ..ONE_STEP
        },
        &[],
        "P 'a1' 'a2';",
    ),
    (
        PlainSystem {
            formulas: &[WAITS_AT_6],
            ..ONE_STEP
        },
        &[],
        "none",
    ),
    // nothing gives what TAKING takes
    (
        PlainSystem {
            events: &[FIRST, TAKING],
            ..NO_STEP
        },
        &[],
        "none",
    ),
    (
        PlainSystem {
            order: &[(8, 9), (9, 8)],
            ..ONE_STEP
        },
        &[],
        "none",
    ),
    // SECOND gives it
    (
        PlainSystem {
            events: &[TAKING, FIRST, SECOND],
            links: &[(3, 0, 4, 0)],
            order: &[(5, 3), (3, 4)],
            ..NO_STEP
        },
        &[],
        "P 'a1' 'a2';Q ~n1 'a1';S 'a1' from 1.0;",
    ),
];

fn suggested_cases() -> &'static [(PlainSystem<'static>, &'static [&'static str], &'static str)] {
    &SUGGESTED
}

// The log that the system suggests where these are the theory's constants.
fn suggested(alloc: Global, given: &PlainSystem, constants: &[&str]) -> Result<String, AllocError> {
    let system = system_of(alloc, given)?;
    let constants = names(alloc, constants)?;
    let log = candidate(alloc, &constants, &system)?;
    text_of(alloc, &log)
}

#[test]
fn logs_are_suggested(rt: HostRuntime) -> Result<(), Fail> {
    let alloc = rt.alloc();
    for (i, (given, constants, wanted)) in suggested_cases().iter().enumerate() {
        let found = suggested(alloc, given, *constants)?;
        assert_eq!(rt; found.as_str(), *wanted, "{i}");
    }
    Ok(())
}

// ---- what is sent and learnt

// T at 3 takes In(x1) and shows A(x1)
const RECEIVING: PlainEvent<'static> = PlainEvent::Step(
    3,
    "T",
    PlainFacts {
        premises: &[PlainFact::Linear("In", &[X1])],
        actions: &[("A", &[X1])],
        ..NO_FACTS
    },
);

const SENT: PlainEvent<'static> = PlainEvent::Send(2, X1);

const LEARNT_ANYHOW: PlainEvent<'static> = PlainEvent::Learn(1, X1, PlainWay::Anyhow);

// x1 alone, from the first conclusion of FIRST
const LEARNT_BY_BEGUN: PlainEvent<'static> = PlainEvent::Learn(
    1,
    X1,
    PlainWay::ChainBegun(5, &[X1]),
);

const LEARNT_BY_CHAIN: PlainEvent<'static> = PlainEvent::Learn(
    1,
    X1,
    PlainWay::ChainDone(5, &[X1]),
);

// Before RECEIVING, and behind FIRST if that is there, x1 is learnt and sent.
const RECEIVED: PlainSystem<'static> = PlainSystem {
    events: &[RECEIVING, SENT, LEARNT_ANYHOW],
    links: &[(2, 0, 3, 0)],
    order: &[(5, 1), (1, 2), (2, 3)],
    ..NO_STEP
};

const OF_RECEIVED: &str = "learn 'a1' public;send 'a1';T 'a1' from 1.0;";

// 'c' alone is learnt
const CONSTANT_LEARNT: PlainSystem<'static> = PlainSystem {
    events: &[PlainEvent::Learn(1, PlainTerm::Public("c"), PlainWay::Anyhow)],
    ..NO_STEP
};

const OF_CONSTANT: &str = "learn 'c' public;";

// what is learnt anyhow is a public name or a variable that may become one, and a chain has to be done
static LEARNT: [(PlainSystem<'static>, &str); 7] = [
    (RECEIVED, OF_RECEIVED),
    (CONSTANT_LEARNT, OF_CONSTANT),
    (
        PlainSystem {
            events: &[PlainEvent::Learn(1, FRESH7, PlainWay::Anyhow)],
            ..NO_STEP
        },
        "none",
    ),
    (
        PlainSystem {
            events: &[PlainEvent::Learn(1, PlainTerm::FreshName(1), PlainWay::Anyhow)],
            ..NO_STEP
        },
        "none",
    ),
    (
        PlainSystem {
            events: &[PlainEvent::Learn(
                1,
                PlainTerm::Over("h", &[PlainTerm::Public("c")]),
                PlainWay::Anyhow,
            )],
            ..NO_STEP
        },
        "none",
    ),
    (
        PlainSystem {
            events: &[RECEIVING, FIRST, SENT, LEARNT_BY_BEGUN],
            ..RECEIVED
        },
        "none",
    ),
    (
        PlainSystem {
            events: &[RECEIVING, FIRST, SENT, LEARNT_BY_CHAIN],
            ..RECEIVED
        },
        "P 'a1' 'a2';learn 'a1' chain 0.0 'a1';send 'a1';T 'a1' from 2.0;",
    ),
];

fn learnt() -> &'static [(PlainSystem<'static>, &'static str)] {
    &LEARNT
}

#[test]
fn learning_logs_are_suggested(rt: HostRuntime) -> Result<(), Fail> {
    let alloc = rt.alloc();
    for (i, (given, wanted)) in learnt().iter().enumerate() {
        let found = suggested(alloc, given, &[])?;
        assert_eq!(rt; found.as_str(), *wanted, "{i}");
    }
    Ok(())
}

// Q: [ Fr(~x) ] --[ A(~x,y) ]-> [ ]; T: [ In(x) ] --[ A(x) ]-> [ ]
static RULES: [PlainRule<'static>; 2] = [
    PlainRule {
        name: "Q",
        variables: &[("x", Sort::Fresh), ("y", Sort::Msg)],
        facts: PlainFacts {
            premises: &[PlainFact::Linear("Fr", &[PlainTerm::Variable(Sort::Fresh, 0)])],
            actions: &[("A", &[PlainTerm::Variable(Sort::Fresh, 0), X1])],
            ..NO_FACTS
        },
    },
    PlainRule {
        name: "T",
        variables: &[("x", Sort::Msg)],
        facts: PlainFacts {
            premises: &[PlainFact::Linear("In", &[PlainTerm::Variable(Sort::Msg, 0)])],
            actions: &[("A", &[PlainTerm::Variable(Sort::Msg, 0)])],
            ..NO_FACTS
        },
    },
];

fn plain_rules() -> &'static [PlainRule<'static>] {
    &RULES
}

const SECOND_ALONE: PlainSystem<'static> = PlainSystem {
    events: &[SECOND],
    ..NO_STEP
};

// what is sought, a system whose events are those of a log of the rules, or aren't, and the log
static FOUND: [(PlainFormula<'static>, PlainSystem<'static>, &str); 6] = [
    (PlainFormula::Truth, SECOND_ALONE, "Q ~n1 'a1';"),
    (PlainFormula::Falsity, SECOND_ALONE, "none"),
    (PlainFormula::Truth, ONE_STEP, "none"),
    (PlainFormula::Truth, RECEIVED, OF_RECEIVED),
    (PlainFormula::Truth, CONSTANT_LEARNT, OF_CONSTANT),
    (
        PlainFormula::Truth,
        PlainSystem {
            events: &[RECEIVING, SENT, LEARNT_BY_CHAIN],
            ..RECEIVED
        },
        "none",
    ),
];

fn found_cases() -> &'static [(PlainFormula<'static>, PlainSystem<'static>, &'static str)] {
    &FOUND
}

// the log of the rules that meets the restrictions and is found in the system
fn log_found(
    alloc: Global,
    restrictions: &[PlainFormula],
    sought: &PlainFormula,
    given: &PlainSystem,
) -> Result<String, AllocError> {
    let parts = Parts::restricted(
        alloc,
        rules_of(alloc, plain_rules())?,
        formulas_of(alloc, restrictions)?,
        formula_of(alloc, sought)?,
    )?;
    let system = system_of(alloc, given)?;
    let context = parts.context();
    let book = context.rules;
    let log = found(alloc, &context.sought, &book.rules, &system)?;
    text_of(alloc, &log)
}

#[test]
fn logs_are_found(rt: HostRuntime) -> Result<(), Fail> {
    let alloc = rt.alloc();
    for (i, (sought, given, wanted)) in found_cases().iter().enumerate() {
        let found = log_found(alloc, &[], sought, given)?;
        assert_eq!(rt; found.as_str(), *wanted, "{i}");
    }
    Ok(())
}

// ---- restrictions

// where A has two arguments, they are equal
const EQUAL: PlainFormula<'static> = PlainFormula::ForAll(
    &[
        Binder::Message(Sort::Msg),
        Binder::Message(Sort::Msg),
        Binder::Time,
    ],
    &[PlainAtom::Acts(
        "A",
        &[PlainLeaf::Bound(1), PlainLeaf::Bound(0)],
        Moment::Bound(0),
    )],
    &PlainFormula::Holds(PlainAtom::Same(PlainLeaf::Bound(1), PlainLeaf::Bound(0))),
);

// where A has two arguments, they aren't equal
const UNEQUAL: PlainFormula<'static> = PlainFormula::ForAll(
    &[
        Binder::Message(Sort::Msg),
        Binder::Message(Sort::Msg),
        Binder::Time,
    ],
    &[PlainAtom::Acts(
        "A",
        &[PlainLeaf::Bound(1), PlainLeaf::Bound(0)],
        Moment::Bound(0),
    )],
    &PlainFormula::Fails(PlainAtom::Same(PlainLeaf::Bound(1), PlainLeaf::Bound(0))),
);

// nothing is sent
const SILENT: PlainFormula<'static> = PlainFormula::ForAll(
    &[Binder::Message(Sort::Msg), Binder::Time],
    &[PlainAtom::Acts("K", &[PlainLeaf::Bound(0)], Moment::Bound(0))],
    &PlainFormula::Falsity,
);

// restrictions, what is sought, a system whose events are those of a log of the rules, and that log where it meets all of them: the arguments of A
// in SECOND are a fresh and a public name, A in RECEIVED has one argument, and what T takes is sent
static RESTRICTED: [(
    &[PlainFormula<'static>],
    PlainFormula<'static>,
    PlainSystem<'static>,
    &str,
); 9] = [
    (&[UNEQUAL], PlainFormula::Truth, SECOND_ALONE, "Q ~n1 'a1';"),
    (&[EQUAL], PlainFormula::Truth, SECOND_ALONE, "none"),
    (
        &[UNEQUAL, SILENT],
        PlainFormula::Truth,
        SECOND_ALONE,
        "Q ~n1 'a1';",
    ),
    (&[UNEQUAL, EQUAL], PlainFormula::Truth, SECOND_ALONE, "none"),
    (&[EQUAL, UNEQUAL], PlainFormula::Truth, SECOND_ALONE, "none"),
    (&[UNEQUAL], PlainFormula::Falsity, SECOND_ALONE, "none"),
    // what is sought may be what a restriction denies
    (&[EQUAL], UNEQUAL, SECOND_ALONE, "none"),
    (&[EQUAL], PlainFormula::Truth, RECEIVED, OF_RECEIVED),
    (&[EQUAL, SILENT], PlainFormula::Truth, RECEIVED, "none"),
];

fn restricted_cases() -> &'static [(
    &'static [PlainFormula<'static>],
    PlainFormula<'static>,
    PlainSystem<'static>,
    &'static str,
)] {
    &RESTRICTED
}

#[test]
fn logs_that_are_found_meet_the_restrictions(rt: HostRuntime) -> Result<(), Fail> {
    let alloc = rt.alloc();
    for (i, (restrictions, sought, given, wanted)) in restricted_cases().iter().enumerate() {
        let found = log_found(alloc, *restrictions, sought, given)?;
        assert_eq!(rt; found.as_str(), *wanted, "{i}");
    }
    Ok(())
}
