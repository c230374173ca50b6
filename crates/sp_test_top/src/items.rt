// What is told of restrictions and lemmas where no steps are replayed, findings on them, and rules with bindings. What is listed of rules is worked out by
// hand.

use crate::calls::assert_answer;
use std::test::Fail;

/// Items with a finding, beside others without, and their line.
static FOUND: [(&str, &str); 3] = [
    (
        "restriction one: \"T\" lemma one: \"All x #i. KU(x)@i ==> T\"",
        "fatal: name one used twice\n",
    ),
    (
        "restriction one: \"All x #i. KU(x)@i ==> T\" lemma two: \"All x #i. KU(x)@i ==> T\"",
        "fatal: restriction one names KU\n",
    ),
    (
        "lemma one [sources, other]: \"All x #i. KU(x)@i ==> T\"",
        "fatal: lemma one: attribute left out: other\n",
    ),
];

fn found_cases() -> &'static [(&'static str, &'static str)] {
    &FOUND
}

/// Items without findings, and what is answered where no steps are replayed.
static FINE: [(&str, &str); 15] = [
    ("heuristic: s", "trace:\nend of trace\n"),
    ("note {* \"restriction\" *}", "trace:\nend of trace\n"),
    (
        "lemma one [heuristic=s]: \"T\"",
        "trace:\nend of trace\none (all-traces): met\n",
    ),
    (
        "lemma KU: \"T\"",
        "trace:\nend of trace\nKU (all-traces): met\n",
    ),
    (
        "restriction one: \"T\"",
        "trace:\nend of trace\none (restriction): met\n",
    ),
    // nothing is done, so there is no A
    (
        "axiom one: \"All x #i. A(x)@i ==> F\"",
        "trace:\nend of trace\none (restriction): met\n",
    ),
    (
        "axiom one: \"Ex x #i. A(x)@i\"",
        "trace:\nend of trace\none (restriction): broken\n",
    ),
    (
        "lemma one [reuse]: \"T\"",
        "trace:\nend of trace\none (all-traces): met\n",
    ),
    (
        "lemma one [hide_lemma=two]: \"T\"",
        "trace:\nend of trace\none (all-traces): met\n",
    ),
    (
        "lemma one [use_induction]: \"T\"",
        "trace:\nend of trace\none (all-traces): met\n",
    ),
    (
        "lemma one [sources, reuse]: \"T\"",
        "trace:\nend of trace\none (all-traces): met\n",
    ),
    // a mark without effect
    (
        "lemma one [typing]: exists-trace \"Ex x #i. A(x)@i\"",
        "trace:\nend of trace\none (exists-trace): broken\n",
    ),
    (
        "restriction one: \"T\" lemma two: \"T\" lemma three [hide_lemma=two, sources]: \"T\"",
        "trace:\nend of trace\none (restriction): met\ntwo (all-traces): met\nthree (all-traces): met\n",
    ),
    // a lemma that names learning is read over learning logs
    (
        "lemma one: \"All x #i. KU(x)@i ==> T\" lemma two: \"T\"",
        "trace:\nend of trace\none (all-traces): not read on executions\ntwo (all-traces): met\n",
    ),
    (
        "lemma one: exists-trace \"Ex x #i. KU(x)@i\" axiom two: \"T\"",
        "trace:\nend of trace\ntwo (restriction): met\none (exists-trace): not read on executions\n",
    ),
];

fn fine_cases() -> &'static [(&'static str, &'static str)] {
    &FINE
}

/// Rules, and what is listed of them.
static RULES: [(&str, &str); 4] = [
    // the values of a name stand in the facts, whatever its mark
    (
        "rule Bound: let x = <a, b> in [ M(a, b) ] --[ A(x) ]-> [ N(x) ]",
        "rule Bound: 1 forms
  [ M(v0, v1) ] --[ A(<v0, v1>) ]-> [ N(<v0, v1>) ]
",
    ),
    // from the top down: what stands above stands for the names below, and not the other way round
    (
        "rule Down: let x = 'a' y = <x, x> in [ ] --[ A(y) ]-> [ ]",
        "rule Down: 1 forms
  [ ] --[ A(<'a', 'a'>) ]-> [ ]
",
    ),
    // the value is put in once: a name of the value is that of the rule
    (
        "rule Once: let x = h(x) in [ M(x) ] --> [ ]",
        "rule Once: 1 forms
  [ M(h(v0)) ] --[ ]-> [ ]
",
    ),
    // attributes, annotations and a restriction say nothing of rules
    (
        "rule (modulo E) Marked [color=#ffffff, [ - ]]: [ M(x)[+, -], N(x)[no_precomp] ] --> [ ] restriction one: \"T\"",
        "rule Marked: 1 forms
  [ M(v0), N(v0) ] --[ ]-> [ ]
",
    ),
];

fn rule_cases() -> &'static [(&'static str, &'static str)] {
    &RULES
}

#[test]
fn findings_are_told_first(rt: HostRuntime) -> Result<(), Fail> {
    let alloc = rt.alloc();
    for (items, answer) in found_cases().iter() {
        let text = format!(in alloc; "theory W begin {items} end")?;
        for command in ["prove", "check", "replay", "variants"] {
            assert_answer(&rt, alloc, command, text.as_str(), 4, answer)?;
        }
    }
    Ok(())
}

#[test]
fn items_without_findings_are_answered(rt: HostRuntime) -> Result<(), Fail> {
    let alloc = rt.alloc();
    for (items, answer) in fine_cases().iter() {
        let text = format!(in alloc; "theory W begin {items} end")?;
        assert_answer(&rt, alloc, "variants", text.as_str(), 0, "")?;
        assert_answer(&rt, alloc, "replay", text.as_str(), 0, answer)?;
    }
    Ok(())
}

#[test]
fn bound_names_have_their_values(rt: HostRuntime) -> Result<(), Fail> {
    let alloc = rt.alloc();
    for (items, answer) in rule_cases().iter() {
        let text = format!(in alloc; "theory W begin builtins: hashing {items} end")?;
        assert_answer(&rt, alloc, "variants", text.as_str(), 0, answer)?;
    }
    Ok(())
}
