// Learning logs that are checked, and their traces: a table whose answers are worked out by hand.

use crate::theories::{Instance, Line, checked, log, theory, visible_text, whole_text};
use sp_learn::check::{Checked, Clause};
use sp_log::log::Source;
use std::test::Fail;

const TEXT: &str = "theory T begin
functions: senc/2, sdec/2, hide/1 [private]
equations: sdec(senc(x, y), y) = x
rule Init: [ Fr(~k), Fr(~m) ] --> [ Out(senc(~m, ~k)), Out(~k) ]
rule Pair: [ Fr(~k), Fr(~m) ] --> [ Out(<~m, ~k>) ]
rule Echo: [ In(x) ] --[ Got(x) ]-> [ Out(x) ]
end";

// Instances of its rules. That of two public names is none.
const INIT: Instance = Instance {
    rule: "Init",
    takes: "Fr(~n1), Fr(~n2)",
    shows: "",
    gives: "Out(senc(~n2, ~n1)), Out(~n1)",
};

const PAIR: Instance = Instance {
    rule: "Pair",
    takes: "Fr(~n1), Fr(~n2)",
    shows: "",
    gives: "Out(<~n2, ~n1>)",
};

const NO_INIT: Instance = Instance {
    rule: "Init",
    takes: "Fr('c'), Fr('c')",
    shows: "",
    gives: "Out(senc('c', 'c')), Out('c')",
};

const ECHO_KEY: Instance = Instance {
    rule: "Echo",
    takes: "In(~n1)",
    shows: "Got(~n1)",
    gives: "Out(~n1)",
};

const ECHO_PUBLIC: Instance = Instance {
    rule: "Echo",
    takes: "In('c')",
    shows: "Got('c')",
    gives: "Out('c')",
};

const ECHO_MIXED: Instance = Instance {
    rule: "Echo",
    takes: "In(<~n2, 'c'>)",
    shows: "Got(<~n2, 'c'>)",
    gives: "Out(<~n2, 'c'>)",
};

const ECHO_HIDDEN: Instance = Instance {
    rule: "Echo",
    takes: "In(senc(~n2, ~n1))",
    shows: "Got(senc(~n2, ~n1))",
    gives: "Out(senc(~n2, ~n1))",
};

// The sources of what an instance takes: the fresh rule, or what the entry at the position sent.
const FRESH: &[Source] = &[Source::FreshRule, Source::FreshRule];

const AT_0: &[Source] = &[Source::Conclusion(0, 0)];

const AT_1: &[Source] = &[Source::Conclusion(1, 0)];

const AT_3: &[Source] = &[Source::Conclusion(3, 0)];

const AT_6: &[Source] = &[Source::Conclusion(6, 0)];

/// A log with entries of all kinds.
const GOOD: [Line; 8] = [
    Line::Step(INIT, FRESH),
    Line::Chain("~n1", 0, 1, &["~n1"]),
    Line::Chain("~n2", 0, 0, &["senc(~n2, ~n1)", "~n2"]),
    Line::Public("'c'"),
    Line::Own("~n3"),
    Line::Made("<~n2, 'c'>"),
    Line::Send("<~n2, 'c'>"),
    Line::Step(ECHO_MIXED, AT_6),
];

/// Lines, and the answer to them.
static ANSWERS: [(&[Line], Checked); 22] = [
    (&[], Checked::Fine),
    (&GOOD, Checked::Fine),
    (
        &[Line::Step(NO_INIT, FRESH)],
        Checked::Fails(0, Clause::Instance),
    ),
    // an Out is no In, what is learnt is no source, and a source stands before
    (
        &[Line::Step(INIT, FRESH), Line::Step(ECHO_KEY, AT_0)],
        Checked::Fails(1, Clause::Sources),
    ),
    (
        &[Line::Public("'c'"), Line::Step(ECHO_PUBLIC, AT_0)],
        Checked::Fails(1, Clause::Sources),
    ),
    (
        &[Line::Step(ECHO_PUBLIC, AT_0)],
        Checked::Fails(0, Clause::Sources),
    ),
    // what is sent once is taken once
    (
        &[
            Line::Public("'c'"),
            Line::Send("'c'"),
            Line::Step(ECHO_PUBLIC, AT_1),
            Line::Step(ECHO_PUBLIC, AT_1),
        ],
        Checked::Fails(3, Clause::Sources),
    ),
    // a name that a step has used, before or after
    (
        &[Line::Step(INIT, FRESH), Line::Own("~n1")],
        Checked::Fails(1, Clause::Freshness),
    ),
    (
        &[Line::Own("~n1"), Line::Step(INIT, FRESH)],
        Checked::Fails(1, Clause::Freshness),
    ),
    (&[Line::Send("'c'")], Checked::Fails(0, Clause::SentLearnt)),
    (
        &[Line::Public("'c'"), Line::Public("'c'")],
        Checked::Fails(1, Clause::LearntOnce),
    ),
    // sorts
    (&[Line::Public("~n1")], Checked::Fails(0, Clause::Way)),
    (&[Line::Own("'c'")], Checked::Fails(0, Clause::Way)),
    // a private symbol, a part that isn't learnt, and a message that isn't in normal form
    (
        &[Line::Public("'c'"), Line::Made("hide('c')")],
        Checked::Fails(1, Clause::Way),
    ),
    (
        &[Line::Public("'c'"), Line::Made("<~n2, 'c'>")],
        Checked::Fails(1, Clause::Way),
    ),
    (
        &[
            Line::Public("'c'"),
            Line::Made("senc('c', 'c')"),
            Line::Made("sdec(senc('c', 'c'), 'c')"),
        ],
        Checked::Fails(2, Clause::Way),
    ),
    // the key is learnt later
    (
        &[
            Line::Step(INIT, FRESH),
            Line::Chain("~n2", 0, 0, &["senc(~n2, ~n1)", "~n2"]),
            Line::Chain("~n1", 0, 1, &["~n1"]),
        ],
        Checked::Fails(1, Clause::Way),
    ),
    // no message, one that isn't put out there, and one that the chain doesn't end in
    (
        &[Line::Step(INIT, FRESH), Line::Chain("~n1", 0, 1, &[])],
        Checked::Fails(1, Clause::Way),
    ),
    (
        &[Line::Step(INIT, FRESH), Line::Chain("~n1", 0, 0, &["~n1"])],
        Checked::Fails(1, Clause::Way),
    ),
    (
        &[Line::Step(INIT, FRESH), Line::Chain("~n2", 0, 1, &["~n1"])],
        Checked::Fails(1, Clause::Way),
    ),
    (
        &[
            Line::Step(PAIR, FRESH),
            Line::Chain("<~n2, ~n1>", 0, 0, &["<~n2, ~n1>"]),
        ],
        Checked::Fails(1, Clause::MadeAlone),
    ),
    // the encryption that the chain goes through was learnt before it was put out
    (
        &[
            Line::Step(INIT, FRESH),
            Line::Chain("~n1", 0, 1, &["~n1"]),
            Line::Chain("senc(~n2, ~n1)", 0, 0, &["senc(~n2, ~n1)"]),
            Line::Send("senc(~n2, ~n1)"),
            Line::Step(ECHO_HIDDEN, AT_3),
            Line::Chain("~n2", 4, 0, &["senc(~n2, ~n1)", "~n2"]),
        ],
        Checked::Fails(5, Clause::ChainIsNew),
    ),
];

fn answers() -> &'static [(&'static [Line], Checked)] {
    &ANSWERS
}

#[test]
fn learning_logs_are_checked(rt: HostRuntime) -> Result<(), Fail> {
    let alloc = rt.alloc();
    let (signature, book) = theory(alloc, TEXT)?;
    for (place, (lines, answer)) in answers().iter().enumerate() {
        let told = checked(alloc, &signature, &book, lines)?;
        assert_eq!(rt; told, *answer, "{place}");
    }
    Ok(())
}

#[test]
fn what_is_sent_is_shown(rt: HostRuntime) -> Result<(), Fail> {
    let alloc = rt.alloc();
    let log = log(alloc, &GOOD)?;
    assert_eq!(rt;
        whole_text(alloc, &log)?.as_str(),
        "trace:\n\nKU(~n1)\nKU(~n2)\nKU('c')\nKU(~n3)\nKU(<~n2, 'c'>)\nK(<~n2, 'c'>)\nGot(<~n2, 'c'>)\nend of trace\n"
    );
    assert_eq!(rt;
        visible_text(alloc, &log)?.as_str(),
        "trace:\nK(<~n2, 'c'>)\nGot(<~n2, 'c'>)\nend of trace\n"
    );
    Ok(())
}
