// Rules that are listed with their forms. The forms are worked out by hand.

use crate::calls::assert_answer;
use std::test::Fail;

/// What stands in a theory, and what is written of it.
static LISTED: [(&str, &str); 8] = [
    ("", ""),
    (
        "builtins: signing rule Check: [ !Pk(p), M(m, s) ] --[ Eq(verify(s, m, p), true) ]-> [ ]",
        "rule Check: 2 forms
  [ !Pk(v0), M(v1, v2) ] --[ Eq(verify(v2, v1, v0), true) ]-> [ ]
  [ !Pk(pk(v0)), M(v1, sign(v1, v0)) ] --[ Eq(true, true) ]-> [ ]
",
    ),
    // signing: a key, a signature by it, and its check, which has a form where it holds
    (
        "builtins: signing
rule Key: [ Fr(~k) ] --> [ !Pk(pk(~k)), !Sk(~k) ]
rule Sign: [ !Sk(k), Fr(~m) ] --[ Signed(~m) ]-> [ Out(<~m, sign(~m, k)>) ]
rule Check: [ !Pk(p), In(<m, s>) ] --[ Eq(verify(s, m, p), true), Accepted(m) ]-> [ ]",
        "rule Key: 1 forms
  [ Fr(~v0) ] --[ ]-> [ !Pk(pk(~v0)), !Sk(~v0) ]
rule Sign: 1 forms
  [ !Sk(v0), Fr(~v1) ] --[ Signed(~v1) ]-> [ Out(<~v1, sign(~v1, v0)>) ]
rule Check: 2 forms
  [ !Pk(v0), In(<v1, v2>) ] --[ Eq(verify(v2, v1, v0), true), Accepted(v1) ]-> [ ]
  [ !Pk(pk(v0)), In(<v1, sign(v1, v0)>) ] --[ Eq(true, true), Accepted(v1) ]-> [ ]
",
    ),
    // destructors within destructors: where the outer one takes what the inner one gives, both equations are used
    (
        "builtins: symmetric-encryption rule Open: [ M(x, k) ] --> [ N(fst(sdec(x, k))) ]",
        "rule Open: 3 forms
  [ M(v0, v1) ] --[ ]-> [ N(fst(sdec(v0, v1))) ]
  [ M(senc(v0, v1), v1) ] --[ ]-> [ N(fst(v0)) ]
  [ M(senc(<v0, v1>, v2), v2) ] --[ ]-> [ N(v0) ]
",
    ),
    // one variable under two destructors is a pair under both, or under none: else a term would not be normal
    (
        "rule Both: [ M(x) ] --[ A(fst(x), snd(x)) ]-> [ ]",
        "rule Both: 2 forms
  [ M(v0) ] --[ A(fst(v0), snd(v0)) ]-> [ ]
  [ M(<v0, v1>) ] --[ A(v0, v1) ]-> [ ]
",
    ),
    // a public name is no pair, and a fresh name is none
    (
        "rule Names: [ Fr(~n), M($p) ] --[ A(fst('c'), snd(~n), fst($p)) ]-> [ ]",
        "rule Names: 1 forms
  [ Fr(~v0), M($v1) ] --[ A(fst('c'), snd(~v0), fst($v1)) ]-> [ ]
",
    ),
    // each equation of a symbol is tried, in order
    (
        "functions: d/1, f/1, g/1, c/0 equations: d(f(x)) = x, d(g(x)) = c rule Two: [ M(x) ] --> [ N(d(x)) ]",
        "rule Two: 3 forms
  [ M(v0) ] --[ ]-> [ N(d(v0)) ]
  [ M(f(v0)) ] --[ ]-> [ N(v0) ]
  [ M(g(v0)) ] --[ ]-> [ N(c) ]
",
    ),
    // what isn't normal is no form
    (
        "rule Plain: [ ] --[ A(fst(<'a', 'b'>)) ]-> [ P() ]",
        "rule Plain: 1 forms
  [ ] --[ A('a') ]-> [ P() ]
",
    ),
];

fn listed_cases() -> &'static [(&'static str, &'static str)] {
    &LISTED
}

#[test]
fn rules_are_listed_with_their_forms(rt: HostRuntime) -> Result<(), Fail> {
    let alloc = rt.alloc();
    for (items, answer) in listed_cases().iter() {
        let text = format!(in alloc; "theory V begin {items} end")?;
        assert_answer(&rt, alloc, "variants", text.as_str(), 0, answer)?;
    }
    Ok(())
}

#[test]
fn faults_are_told_in_place_of_forms(rt: HostRuntime) -> Result<(), Fail> {
    let alloc = rt.alloc();
    assert_answer(
        &rt,
        alloc,
        "variants",
        "theory V begin rule R: [ M(fst(x)) ] --> [ ] end",
        4,
        "fatal: rule R: destructor in a premise\nwarning: rule R: premise M/1 has no source\n",
    )?;
    assert_answer(
        &rt,
        alloc,
        "variants",
        "theory V begin rule R end",
        4,
        "refused: text at byte 22\n",
    )?;
    Ok(())
}
