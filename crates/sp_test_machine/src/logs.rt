// Learning logs of steps alone that are checked, and the steps and traces that they stand for.

use crate::theories::{Instance, Line, checked, log, step, theory, visible_text, whole_text};
use sp_book::book::RuleBook;
use sp_fact::signature::Equation;
use sp_fact::step::Step;
use sp_learn::check::{Checked, Clause};
use sp_log::execution::add_steps;
use sp_log::log::Source;
use sp_show::step::step_line;
use std::alloc::Global;
use std::test::Fail;

const TEXT: &str = "theory T begin
rule Make: [ Fr(~x) ] --[ A(~x) ]-> [ Key(~x) ]
rule Share: [ Fr(~x) ] --[ A(~x) ]-> [ !Lock(~x) ]
rule Use: [ Key(x) ] --> [ ]
rule Look: [ !Lock(x) ] --> [ ]
end";

// Instances of its rules. That of a public name is none.
const MAKE: Instance = Instance {
    rule: "Make",
    takes: "Fr(~n1)",
    shows: "A(~n1)",
    gives: "Key(~n1)",
};

const SHARE: Instance = Instance {
    rule: "Share",
    takes: "Fr(~n1)",
    shows: "A(~n1)",
    gives: "!Lock(~n1)",
};

const USE: Instance = Instance {
    rule: "Use",
    takes: "Key(~n1)",
    shows: "",
    gives: "",
};

const LOOK: Instance = Instance {
    rule: "Look",
    takes: "!Lock(~n1)",
    shows: "",
    gives: "",
};

const PUBLIC: Instance = Instance {
    rule: "Make",
    takes: "Fr('c')",
    shows: "A('c')",
    gives: "Key('c')",
};

// The source of what an instance takes: the fresh rule, or the first conclusion of the entry at the position.
const FRESH: &[Source] = &[Source::FreshRule];

const AT_0: &[Source] = &[Source::Conclusion(0, 0)];

const AT_1: &[Source] = &[Source::Conclusion(1, 0)];

const AT_7: &[Source] = &[Source::Conclusion(7, 0)];

/// Lines, and the answer to them.
static ANSWERS: [(&[Line], Checked); 8] = [
    (&[], Checked::Fine),
    (
        &[Line::Step(MAKE, FRESH), Line::Step(USE, AT_0)],
        Checked::Fine,
    ),
    (
        &[
            Line::Step(SHARE, FRESH),
            Line::Step(LOOK, AT_0),
            Line::Step(LOOK, AT_0),
        ],
        Checked::Fine,
    ),
    (
        &[Line::Step(MAKE, FRESH), Line::Step(MAKE, FRESH)],
        Checked::Fails(1, Clause::Freshness),
    ),
    (
        &[Line::Step(PUBLIC, FRESH), Line::Step(USE, AT_7)],
        Checked::Fails(0, Clause::Instance),
    ),
    (
        &[Line::Step(USE, AT_1), Line::Step(MAKE, FRESH)],
        Checked::Fails(0, Clause::Sources),
    ),
    (
        &[Line::Step(MAKE, FRESH), Line::Step(LOOK, AT_0)],
        Checked::Fails(1, Clause::Sources),
    ),
    (
        &[
            Line::Step(MAKE, FRESH),
            Line::Step(USE, AT_0),
            Line::Step(USE, AT_0),
        ],
        Checked::Fails(2, Clause::Sources),
    ),
];

fn answers() -> &'static [(&'static [Line], Checked)] {
    &ANSWERS
}

#[test]
fn first_broken_entries_are_told(rt: HostRuntime) -> Result<(), Fail> {
    let alloc = rt.alloc();
    let (signature, book) = theory(alloc, TEXT)?;
    for (place, (lines, answer)) in answers().iter().enumerate() {
        let told = checked(alloc, &signature, &book, lines)?;
        assert_eq!(rt; told, *answer, "{place}");
    }
    Ok(())
}

// the steps that the entries stand for, the oldest first
fn steps_of(
    alloc: Global,
    equations: &Vec<Equation>,
    book: &RuleBook,
    entries: &[(Instance, &[Source])],
) -> Result<Vec<Step>, Fail> {
    let mut steps = Vec::new(alloc);
    for (instance, sources) in entries {
        let entry = step(alloc, *instance, sources)?;
        add_steps(alloc, equations, &book.rules, &entry, &mut steps)?;
    }
    Ok(steps)
}

#[test]
fn executions_make_names_and_use_rules(rt: HostRuntime) -> Result<(), Fail> {
    let alloc = rt.alloc();
    let (signature, book) = theory(alloc, TEXT)?;
    let entries: [(Instance, &[Source]); 2] = [(MAKE, FRESH), (USE, AT_0)];
    let steps = steps_of(alloc, &signature.equations, &book, &entries)?;
    let lines = ["fresh ~n1", "rule Make: x = ~n1", "rule Use: x = ~n1"];
    assert_eq!(rt; steps.len(), lines.len());
    for (step, line) in steps.iter().zip(lines) {
        assert_eq!(rt; step_line(alloc, step)?.as_str(), line);
    }
    Ok(())
}

#[test]
fn steps_show_their_actions(rt: HostRuntime) -> Result<(), Fail> {
    let alloc = rt.alloc();
    let log = log(alloc, &[Line::Step(MAKE, FRESH), Line::Step(USE, AT_0)])?;
    assert_eq!(rt;
        whole_text(alloc, &log)?.as_str(),
        "trace:\nA(~n1)\n\nend of trace\n"
    );
    assert_eq!(rt;
        visible_text(alloc, &log)?.as_str(),
        "trace:\nA(~n1)\nend of trace\n"
    );
    Ok(())
}
