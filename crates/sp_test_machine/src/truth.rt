// Truth of formulas over a trace.

use sp_eval::truth::holds;
use sp_fact::ground_fact::Trace;
use sp_formula::formula::Formula;
use sp_guard::marks::checked_form;
use sp_test_make::texts::formula_in;
use sp_test_make::values::ground_actions;
use std::alloc::Global;
use std::test::Fail;

/// A run, by the actions of its steps.
const RUN: &[&str] = &["A('a')", "B('a', 'b')", "A(~n1), C()"];

/// Whether formulas hold in a run.
static ANSWERS: [(&[&str], &[u8], bool); 8] = [
    (&[], b"Ex x #i. A(x)@i\"", false),
    (&[], b"All x #i. A(x)@i ==> F\"", true),
    // 'a' and ~n1 are shown by A, and ~n1 alone is fresh; B('a', 'b') comes after A('a') and before C(); there is no B of ~n1 or of 'b'
    (RUN, b"Ex ~x #i. A(x)@i\"", true),
    (RUN, b"All x #i. A(x)@i ==> F\"", false),
    (
        RUN,
        b"All $x #i. A(x)@i ==> (Ex y #j. B(x, y)@j & #i < #j)\"",
        true,
    ),
    (
        RUN,
        b"All x #i. A(x)@i ==> (Ex y #j. B(x, y)@j & #i < #j)\"",
        false,
    ),
    (
        RUN,
        b"Ex x #i. C()@i & x = 'a' & (Ex y #j. B(x, y)@j & #j < #i)\"",
        true,
    ),
    (
        RUN,
        b"Ex x #i. C()@i & x = 'b' & (Ex y #j. B(x, y)@j & #j < #i)\"",
        false,
    ),
];

fn answers() -> &'static [(&'static [&'static str], &'static [u8], bool)] {
    &ANSWERS
}

fn trace(alloc: Global, steps: &[&str]) -> Result<Trace, Fail> {
    let mut entries = Vec::new(alloc);
    for actions in steps {
        entries.push(ground_actions(alloc, actions)?)?;
    }
    Ok(Trace { entries })
}

fn form(alloc: Global, text: &[u8]) -> Result<Formula, Fail> {
    let read = formula_in(alloc, text)?;
    Ok(checked_form(alloc, &read)?.ok_or("form")?)
}

#[test]
fn formulas_are_true_or_false(rt: HostRuntime) -> Result<(), Fail> {
    let alloc = rt.alloc();
    for (place, (steps, text, answer)) in answers().iter().enumerate() {
        let formula = form(alloc, text)?;
        let run = trace(alloc, steps)?;
        assert_eq!(rt; holds(alloc, &formula, &run)?, *answer, "{place}");
    }
    Ok(())
}
