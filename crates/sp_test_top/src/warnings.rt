// Reports: fatal findings, then warnings, and how many there are. What is told is argued from the rules of what a warning is, row by row.

use crate::calls::assert_answer;
use std::test::Fail;

/// What stands in a theory, the lines of the report on it, how many of these are fatal, and how many warnings there are.
static REPORTED: [(&str, &str, u8, u8); 20] = [
    ("", "", 0, 0),
    // a premise like which there is no conclusion, by its name, its arity, and whether it is persistent
    (
        "rule R: [ F(x) ] --> [ ]",
        "warning: rule R: premise F/1 has no source\n",
        0,
        1,
    ),
    (
        "rule A: [ ] --> [ F('c') ] rule R: [ F(x, y) ] --> [ ]",
        "warning: rule R: premise F/2 has no source
warning: fact F has several arities or multiplicities
",
        0,
        2,
    ),
    (
        "rule A: [ ] --> [ F('c') ] rule R: [ !F(x) ] --> [ ]",
        "warning: rule R: premise F/1 has no source
warning: fact F has several arities or multiplicities
",
        0,
        2,
    ),
    // a rule's own conclusion is one
    ("rule L: [ F(x) ] --> [ F(x) ]", "", 0, 0),
    // what the built-in rules give counts, as facts and as actions
    (
        "rule R: [ Fr(~n), In(x) ] --[ A(x) ]-> [ Out(x) ]
lemma l: \"All x #i #j. A(x)@i & K(x)@j ==> F\"
lemma m: \"All x #i #j. A(x)@i & KU(x)@j ==> F\"",
        "",
        0,
        0,
    ),
    // two premises of one line
    (
        "rule R: [ F(x), F(y), !F(z) ] --> [ ]",
        "warning: rule R: premise F/1 has no source
warning: fact F has several arities or multiplicities
",
        0,
        2,
    ),
    // actions that no rule has, in restrictions and lemmas, and on both sides of an equivalence
    (
        "restriction r: \"All x #i. B(x)@i ==> F\" lemma l: \"All x #i. B(x)@i ==> not (Ex #j. C()@j)\"",
        "warning: formula r: action B/1 in no rule
warning: formula l: action B/1 in no rule
warning: formula l: action C/0 in no rule
",
        0,
        3,
    ),
    (
        "lemma l: \"(All x #i. A(x)@i ==> F) <=> (Ex y #j. B(y)@j)\"",
        "warning: formula l: action A/1 in no rule
warning: formula l: action B/1 in no rule
",
        0,
        2,
    ),
    (
        "lemma l: \"All x y #i. KU(x, y)@i ==> F\"",
        "warning: formula l: action KU/2 in no rule\n",
        0,
        1,
    ),
    // constants: each with those before it
    (
        "rule R: [ ] --[ A('a', 'B', 'A', 'b') ]-> [ ]",
        "warning: public constants 'a' and 'A' differ in case only
warning: public constants 'B' and 'b' differ in case only
",
        0,
        2,
    ),
    (
        "rule R: [ ] --[ A('ab', 'AB', 'Ab', 'ab') ]-> [ ]",
        "warning: public constants 'ab' and 'AB' differ in case only
warning: public constants 'ab' and 'Ab' differ in case only
warning: public constants 'AB' and 'Ab' differ in case only
",
        0,
        3,
    ),
    (
        "rule R: [ ] --[ A('a1', 'A1', '[', '{', 'a', 'b') ]-> [ ]",
        "warning: public constants 'a1' and 'A1' differ in case only\n",
        0,
        1,
    ),
    // in equations, values of bindings, and formulas, in the order of the text
    (
        "functions: f/1 equations: f('z') = 'z'
rule R: let x = 'Q' in [ ] --[ A(x), B('q') ]-> [ ]
lemma l: \"All x #i. A(x)@i ==> not (x = 'Z')\"",
        "fatal: equation 1: shape
warning: public constants 'Q' and 'q' differ in case only
warning: public constants 'z' and 'Z' differ in case only
",
        1,
        2,
    ),
    // facts and actions of one name are told apart
    ("rule R: [ ] --[ A('c') ]-> [ A('c', 'd') ]", "", 0, 0),
    (
        "rule R: [ ] --[ A('c'), A('c', 'd') ]-> [ A('c'), A('c', 'd') ]",
        "warning: fact A has several arities or multiplicities\n",
        0,
        1,
    ),
    (
        "rule R: [ ] --[ A('c'), A('c', 'd') ]-> [ ] rule S: [ ] --[ A('c') ]-> [ B('c'), !B('c') ]",
        "warning: fact A has several arities or multiplicities
warning: fact B has several arities or multiplicities
",
        0,
        2,
    ),
    // a mark that has no effect
    (
        "rule R: [ ] --[ A('c') ]-> [ ]
lemma l[use_induction, reuse, use_induction]: exists-trace \"Ex x #i. A(x)@i\"
lemma m[sources]: exists-trace \"Ex x #i. A(x)@i\"
lemma n[use_induction]: \"All x #i. A(x)@i ==> F\"",
        "warning: lemma l: use_induction on exists-trace\n",
        0,
        1,
    ),
    // warnings stand behind fatal findings, of which they keep none back
    (
        "rule Bad: [ G() ] --> [ Out(x) ] restriction R: \"All x. x = x ==> F\"",
        "fatal: rule Bad: variable x not bound
fatal: formula R: variable x not guarded
warning: rule Bad: premise G/0 has no source
",
        2,
        1,
    ),
    (
        "rule R: [ F(<'x', f(y)>), Out(y) ] --[ A('X') ]-> [ ]",
        "fatal: unknown symbol f/1
fatal: rule R: reserved fact Out
warning: rule R: premise F/1 has no source
warning: rule R: premise Out/1 has no source
warning: public constants 'x' and 'X' differ in case only
",
        2,
        3,
    ),
];

fn reported_cases() -> &'static [(&'static str, &'static str, u8, u8)] {
    &REPORTED
}

#[test]
fn theories_are_reviewed(rt: HostRuntime) -> Result<(), Fail> {
    let alloc = rt.alloc();
    for (items, lines, fatal, warnings) in reported_cases().iter() {
        let text = format!(in alloc; "theory T begin\n{items}\nend\n")?;
        let answer = format!(in alloc; "{lines}{fatal} fatal, {warnings} warnings\n")?;
        let status = if *fatal == 0 { 0 } else { 4 };
        assert_answer(&rt, alloc, "wf", text.as_str(), status, answer.as_str())?;
    }
    Ok(())
}

// What is refused for a fatal finding is refused with the whole report, and without its counts.
#[test]
fn wrong_theories_are_refused_with_their_warnings(rt: HostRuntime) -> Result<(), Fail> {
    let alloc = rt.alloc();
    for (items, lines, fatal, _) in reported_cases().iter() {
        if 0 < *fatal {
            let text = format!(in alloc; "theory T begin\n{items}\nend\n")?;
            for command in ["prove", "check", "replay", "variants"] {
                assert_answer(&rt, alloc, command, text.as_str(), 4, lines)?;
            }
        }
    }
    Ok(())
}

#[test]
fn a_text_that_says_no_theory_is_refused(rt: HostRuntime) -> Result<(), Fail> {
    let alloc = rt.alloc();
    assert_answer(
        &rt,
        alloc,
        "wf",
        "theory T begin rule end",
        4,
        "refused: text at byte 20\n",
    )?;
    Ok(())
}
