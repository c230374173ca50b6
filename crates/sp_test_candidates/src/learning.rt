// What the adversary sends and learns: elementary moves, contradictions, and moves.

use sp_book::book::RuleBook;
use sp_fact::signature::{Equation, Signature, Symbol};
use sp_moves_know::chain::chain_cases;
use sp_moves_know::know::know_cases;
use sp_step::moves::Case;
use sp_step::reduce::Row;
use sp_system::system::System;
use sp_term::term::{Name, Sort};
use sp_test_make::plain::{
    NO_FACTS, PlainEvent, PlainFact, PlainFacts, PlainRule, PlainTerm, PlainWay, event_of,
    rules_of, term_of,
};
use sp_test_make::plain_systems::{EMPTY, PlainSystem, system_of};
use sp_test_steps::examples::{contradicts, reduced};
use sp_test_steps::texts::{put_system, text_of};
use sp_variant::book::book;
use std::alloc::{AllocError, Global};
use std::test::Fail;

// ---- systems

const X0: PlainTerm<'static> = PlainTerm::Variable(Sort::Msg, 0);

const X1: PlainTerm<'static> = PlainTerm::Variable(Sort::Msg, 1);

const X2: PlainTerm<'static> = PlainTerm::Variable(Sort::Msg, 2);

const FRESH: PlainTerm<'static> = PlainTerm::Variable(Sort::Fresh, 1);

const HASH: PlainTerm<'static> = PlainTerm::Over("h", &[X0]);

const PAIR: PlainTerm<'static> = PlainTerm::Over("pair", &[X0, X1]);

// the system in which nothing stands, and whose next number is 6
const SIX: PlainSystem<'static> = PlainSystem { next: 6, ..EMPTY };

// the step R at 5 takes In(x0)
const RECEIVING: PlainSystem<'static> = PlainSystem {
    events: &[PlainEvent::Step(
        5,
        "R",
        PlainFacts {
            premises: &[PlainFact::Linear("In", &[X0])],
            ..NO_FACTS
        },
    )],
    ..SIX
};

// x0 is sent at 5, and learnt at 4
const SENDING: PlainSystem<'static> = PlainSystem {
    events: &[
        PlainEvent::Send(5, X0),
        PlainEvent::Learn(4, X0, PlainWay::Anyhow),
    ],
    ..SIX
};

// ~1 is learnt at 3 and at 4
const LEARNT_TWICE: PlainSystem<'static> = PlainSystem {
    events: &[
        PlainEvent::Learn(3, FRESH, PlainWay::Anyhow),
        PlainEvent::Learn(4, FRESH, PlainWay::OwnName),
    ],
    ..SIX
};

// ~1 is made at 3, and is an own name at 4
const MADE_AND_OWN: PlainSystem<'static> = PlainSystem {
    events: &[
        PlainEvent::Learn(3, FRESH, PlainWay::Constructed),
        PlainEvent::Learn(4, FRESH, PlainWay::OwnName),
    ],
    ..SIX
};

// ---- rows

// a system, a row, and what it makes of it, if it applies
type Applied = (PlainSystem<'static>, Row, Option<&'static str>);

const OF_SENDINGS: [Applied; 5] = [
    (
        RECEIVING,
        Row::SendInput,
        Some("5 R; 6 send x0; 6<5 next 7"),
    ),
    (
        PlainSystem {
            links: &[(4, 0, 5, 0)],
            ..RECEIVING
        },
        Row::SendInput,
        None,
    ),
    (
        PlainSystem {
            events: &[PlainEvent::Send(5, X0)],
            ..SIX
        },
        Row::SendLearnt,
        Some("5 send x0; 6 learn x0 anyhow; 6<5 next 7"),
    ),
    (
        SENDING,
        Row::SendLearnt,
        Some("5 send x0; 4 learn x0 anyhow; 4<5 next 6"),
    ),
    (
        PlainSystem {
            order: &[(4, 5)],
            ..SENDING
        },
        Row::SendLearnt,
        None,
    ),
];

const OF_LEARNINGS: [Applied; 5] = [
    (LEARNT_TWICE, Row::LearnOnce, Some("3 learn ~1 own; next 6")),
    (MADE_AND_OWN, Row::LearnOnce, None),
    (
        PlainSystem {
            events: &[PlainEvent::Learn(5, PAIR, PlainWay::Anyhow)],
            ..SIX
        },
        Row::SettleLearn,
        Some("5 learn pair( x0 x1 ) made; 6 learn x0 anyhow; 7 learn x1 anyhow; 6<5 7<5 next 8"),
    ),
    (
        PlainSystem {
            events: &[PlainEvent::Learn(5, PlainTerm::Public("c"), PlainWay::Anyhow)],
            ..SIX
        },
        Row::SettleLearn,
        Some("5 learn 'c' public; next 6"),
    ),
    (
        PlainSystem {
            events: &[PlainEvent::Learn(5, FRESH, PlainWay::Anyhow)],
            ..SIX
        },
        Row::SettleLearn,
        None,
    ),
];

static TABLES: [&[Applied]; 2] = [&OF_SENDINGS, &OF_LEARNINGS];

fn tables() -> &'static [&'static [Applied]] {
    &TABLES
}

// the text of what the row makes of the system, or `none`
fn text_made(alloc: Global, given: &PlainSystem, row: Row) -> Result<String, AllocError> {
    let given = system_of(alloc, given)?;
    match reduced(alloc, row, &given)? {
        Some(made) => text_of(alloc, &made),
        None => String::from_str(alloc, "none"),
    }
}

#[test]
fn rows_of_the_adversary_are_applied(rt: HostRuntime) -> Result<(), Fail> {
    let alloc = rt.alloc();
    for cases in tables().iter() {
        for (i, (given, row, wanted)) in cases.iter().enumerate() {
            let found = text_made(alloc, given, *row)?;
            assert_eq!(rt; found.as_str(), wanted.unwrap_or("none"), "{i}");
        }
    }
    Ok(())
}

// x0 is learnt at 4, and x1 at 6 by a chain that begins with x0, from a step at 5
const EARLY: PlainSystem<'static> = PlainSystem {
    events: &[
        PlainEvent::Learn(4, X0, PlainWay::Anyhow),
        PlainEvent::Step(5, "R", NO_FACTS),
        PlainEvent::Learn(6, X1, PlainWay::ChainBegun(5, &[X0])),
    ],
    next: 7,
    ..EMPTY
};

// a system, and whether a contradiction is seen in it
static CONTRADICTIONS: [(PlainSystem<'static>, bool); 4] = [
    (
        PlainSystem {
            order: &[(4, 5)],
            ..EARLY
        },
        true,
    ),
    (
        PlainSystem {
            order: &[(5, 4)],
            ..EARLY
        },
        false,
    ),
    (MADE_AND_OWN, true),
    (LEARNT_TWICE, false),
];

fn contradictions() -> &'static [(PlainSystem<'static>, bool)] {
    &CONTRADICTIONS
}

#[test]
fn contradictions_of_the_adversary_are_seen(rt: HostRuntime) -> Result<(), Fail> {
    let alloc = rt.alloc();
    for (i, (given, wanted)) in contradictions().iter().enumerate() {
        let given = system_of(alloc, given)?;
        let found = contradicts(alloc, &given)?;
        assert_eq!(rt; found, *wanted, "{i}");
    }
    Ok(())
}

// ---- moves

// the left side of an equation whose right side is x
static OPENED: PlainTerm<'static> = PlainTerm::Over(
    "sdec",
    &[PlainTerm::Over("senc", &[X0, X1]), X1],
);

fn plain_opened() -> &'static PlainTerm<'static> {
    &OPENED
}

// sdec(senc(x, y), y) = x
fn opening(alloc: Global) -> Result<Equation, AllocError> {
    let left = term_of(alloc, plain_opened())?;
    let right = term_of(alloc, &X0)?;
    Ok(Equation { left, right })
}

// The symbols of pairs, h/1, senc/2 and sdec/2; with sdec(senc(x, y), y) = x behind the equations of pairs.
fn signature(alloc: Global) -> Result<Signature, AllocError> {
    let mut made = Signature::pairs(alloc)?;
    for (text, arity) in [("h", 1), ("senc", 2), ("sdec", 2)] {
        let name = Name::new(alloc, text)?;
        made.symbols.push(Symbol {
            name,
            arity,
            private: false,
        })?;
    }
    made.equations.push(opening(alloc)?)?;
    Ok(made)
}

// Give: [ ] --> [ Out(h(x)), S(x), Out(x) ]
static GIVING: [PlainRule<'static>; 1] = [PlainRule {
    name: "Give",
    variables: &[("x", Sort::Msg)],
    facts: PlainFacts {
        conclusions: &[
            PlainFact::Linear("Out", &[HASH]),
            PlainFact::Linear("S", &[X0]),
            PlainFact::Linear("Out", &[X0]),
        ],
        ..NO_FACTS
    },
}];

fn plain_giving() -> &'static [PlainRule<'static>] {
    &GIVING
}

fn giving(alloc: Global, signature: &Signature) -> Result<RuleBook, AllocError> {
    let rules = rules_of(alloc, plain_giving())?;
    book(alloc, &signature.equations, &rules)
}

// the name of the case and its system
fn put_case(alloc: Global, text: &mut String, case: &Case) -> Result<(), AllocError> {
    text.push_str(&case.name)?;
    text.push_str(": ")?;
    put_system(alloc, text, &case.system)?;
    text.push_str("\n")
}

// the cases, one a line; or `none`
fn texts_of(alloc: Global, cases: &Option<Vec<Case>>) -> Result<String, AllocError> {
    let mut text = String::new(alloc);
    match cases {
        Some(cases) => {
            for case in cases {
                put_case(alloc, &mut text, case)?;
            }
        }
        None => text.push_str("none")?,
    }
    Ok(text)
}

// Give has the time 6, and its variable the number 7.
const OF_HASH: &str = "made: 5 learn h( x0 ) made; 6 learn x0 anyhow; 6<5 next 7
Give_case_1: 5 learn h( x0 ) chain 6.0 ( h( x7 ) ); 6 Give; 6<5 next 8
Give_case_2: 5 learn h( x0 ) chain 6.2 ( x7 ); 6 Give; 6<5 next 8
";

const OF_FRESH: &str = "own: 5 learn ~1 own; next 6
Give_case_1: 5 learn ~1 chain 6.0 ( h( x7 ) ); 6 Give; 6<5 next 8
Give_case_2: 5 learn ~1 chain 6.2 ( x7 ); 6 Give; 6<5 next 8
";

// what is learnt at 5, and the cases of that
static KNOWN: [(PlainEvent<'static>, &str); 5] = [
    (PlainEvent::Learn(5, HASH, PlainWay::Anyhow), OF_HASH),
    (PlainEvent::Learn(5, FRESH, PlainWay::Anyhow), OF_FRESH),
    (PlainEvent::Learn(5, HASH, PlainWay::Constructed), "none"),
    (PlainEvent::Learn(5, PAIR, PlainWay::Anyhow), "none"),
    (PlainEvent::Learn(5, X0, PlainWay::Anyhow), "none"),
];

fn known() -> &'static [(PlainEvent<'static>, &'static str)] {
    &KNOWN
}

// the system of this event alone
fn of_event(alloc: Global, plain: &PlainEvent) -> Result<System, AllocError> {
    let mut made = system_of(alloc, &SIX)?;
    made.events.push(alloc, event_of(alloc, plain)?)?;
    Ok(made)
}

#[test]
fn messages_are_known(rt: HostRuntime) -> Result<(), Fail> {
    let alloc = rt.alloc();
    let signature = signature(alloc)?;
    let rules = giving(alloc, &signature)?;
    for (i, (learnt, wanted)) in known().iter().enumerate() {
        let given = of_event(alloc, learnt)?;
        let cases = know_cases(alloc, &signature, &rules, &given, 5)?;
        assert_eq!(rt; texts_of(alloc, &cases)?.as_str(), *wanted, "{i}");
    }
    Ok(())
}

// The destructions are those of fst, snd and sdec; their variables have the numbers from 6 on.
const PAST_PAIR: &str = "chain_1: 5 learn x0 chain 4.0 ( pair( x1 x2 ) x1 ); next 8
chain_2: 5 learn x0 chain 4.0 ( pair( x1 x2 ) x2 ); next 8
";

const PAST_HIDDEN: &str = "done: 5 learn senc( x1 x2 ) done 4.0 ( senc( x1 x2 ) ); next 6
chain_3: 5 learn x0 chain 4.0 ( senc( x1 x2 ) x1 ); 8 learn x2 anyhow; 8<5 next 9
";

const PAST_VARIABLE: &str = "done: 5 learn x0 done 4.0 ( x0 ); next 6
chain_1: 5 learn x0 chain 4.0 ( pair( x6 x7 ) x6 ); next 8
chain_2: 5 learn x0 chain 4.0 ( pair( x6 x7 ) x7 ); next 8
chain_3: 5 learn x0 chain 4.0 ( senc( x6 x7 ) x6 ); 8 learn x7 anyhow; 8<5 next 9
";

// what is learnt at 5, and how the chain goes on
static CHAINS: [(PlainEvent<'static>, &str); 4] = [
    (
        PlainEvent::Learn(5, X0, PlainWay::ChainBegun(4, &[OF_PAIR])),
        PAST_PAIR,
    ),
    (
        PlainEvent::Learn(5, X0, PlainWay::ChainBegun(4, &[OF_HIDDEN])),
        PAST_HIDDEN,
    ),
    (
        PlainEvent::Learn(5, X0, PlainWay::ChainBegun(4, &[X1])),
        PAST_VARIABLE,
    ),
    (PlainEvent::Learn(5, X0, PlainWay::Anyhow), "none"),
];

fn chains() -> &'static [(PlainEvent<'static>, &'static str)] {
    &CHAINS
}

const OF_PAIR: PlainTerm<'static> = PlainTerm::Over("pair", &[X1, X2]);

const OF_HIDDEN: PlainTerm<'static> = PlainTerm::Over("senc", &[X1, X2]);

#[test]
fn chains_go_on(rt: HostRuntime) -> Result<(), Fail> {
    let alloc = rt.alloc();
    let signature = signature(alloc)?;
    for (i, (learnt, wanted)) in chains().iter().enumerate() {
        let given = of_event(alloc, learnt)?;
        let cases = chain_cases(alloc, &signature, &given, 5)?;
        assert_eq!(rt; texts_of(alloc, &cases)?.as_str(), *wanted, "{i}");
    }
    Ok(())
}
