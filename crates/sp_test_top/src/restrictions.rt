// Restrictions: what is told of theories that have some, and executions that meet or break them. The verdicts are argued by hand, a theory at a time.

use crate::calls::{assert_answer, summary_under};
use std::alloc::Global;
use std::process::Abort;
use std::test::Fail;

/// Items with restrictions, the lines of an execution that meets them, and lemmas with the beginning of the line of each.
#[derive(Clone, Copy)]
struct Restricted {
    items: &'static str,
    met: &'static str,
    lemmas: &'static [(&'static str, &'static str)],
}

/// What a step compares is equal.
const EQUAL: Restricted = Restricted {
    items: "rule Pair: [ ] --[ Eq($a, $b), Both($a, $b) ]-> [ ]
restriction equal: \"All x y #i. Eq(x, y)@i ==> x = y\"
",
    met: "equal (restriction): met\n",
    lemmas: &[
        // Each step of Pair compares its two names.
        (
            "same: \"All x y #i. Both(x, y)@i ==> x = y\"",
            "same (all-traces): verified",
        ),
        (
            "other: exists-trace \"Ex x y #i. Both(x, y)@i & not x = y\"",
            "other (exists-trace): falsified - no trace found",
        ),
        // Its two names may be one.
        (
            "some: exists-trace \"Ex x y #i. Both(x, y)@i\"",
            "some (exists-trace): verified",
        ),
        (
            "none: \"All x y #i. Both(x, y)@i ==> F\"",
            "none (all-traces): falsified - found trace",
        ),
    ],
};

/// The same without the restriction: a step may have two names.
const COMPARED: Restricted = Restricted {
    items: "rule Pair: [ ] --[ Eq($a, $b), Both($a, $b) ]-> [ ]\n",
    met: "",
    lemmas: &[
        (
            "same: \"All x y #i. Both(x, y)@i ==> x = y\"",
            "same (all-traces): falsified - found trace",
        ),
        (
            "other: exists-trace \"Ex x y #i. Both(x, y)@i & not x = y\"",
            "other (exists-trace): verified",
        ),
    ],
};

/// What a step compares differs.
const UNEQUAL: Restricted = Restricted {
    items: "rule Pair: [ ] --[ Neq($a, $b), Both($a, $b) ]-> [ ]
restriction unequal: \"All x #i. Neq(x, x)@i ==> F\"
",
    met: "unequal (restriction): met\n",
    lemmas: &[
        // One name twice would be compared with itself.
        (
            "apart: \"All x y #i. Both(x, y)@i ==> not x = y\"",
            "apart (all-traces): verified",
        ),
        (
            "alike: exists-trace \"Ex x #i. Both(x, x)@i\"",
            "alike (exists-trace): falsified - no trace found",
        ),
        // There are two public names.
        (
            "some: exists-trace \"Ex x y #i. Both(x, y)@i\"",
            "some (exists-trace): verified",
        ),
        (
            "same: \"All x y #i. Both(x, y)@i ==> x = y\"",
            "same (all-traces): falsified - found trace",
        ),
    ],
};

/// Both at once: each of the two can be met, but not by a step of Pair.
const CLASHING: Restricted = Restricted {
    items: "rule Pair: [ ] --[ Eq($a, $b), Neq($a, $b), Both($a, $b) ]-> [ ]
rule Make: [ Fr(~k) ] --[ A(~k) ]-> [ ]
restriction equal: \"All x y #i. Eq(x, y)@i ==> x = y\"
axiom unequal: \"All x #i. Neq(x, x)@i ==> F\"
",
    met: "equal (restriction): met\nunequal (restriction): met\n",
    lemmas: &[
        // The two names of the step would be equal and differ.
        (
            "none: \"All x y #i. Both(x, y)@i ==> F\"",
            "none (all-traces): verified",
        ),
        (
            "some: exists-trace \"Ex x y #i. Both(x, y)@i\"",
            "some (exists-trace): falsified - no trace found",
        ),
        // A step of Make compares nothing.
        (
            "made: exists-trace \"Ex x #i. A(x)@i\"",
            "made (exists-trace): verified",
        ),
        (
            "unmade: \"All x #i. A(x)@i ==> F\"",
            "unmade (all-traces): falsified - found trace",
        ),
    ],
};

/// A step is done once.
const ONCE: Restricted = Restricted {
    items: "rule Run: [ Fr(~x) ] --[ Once(), Run(~x) ]-> [ ]
restriction once: \"All #i #j. Once()@i & Once()@j ==> #i = #j\"
",
    met: "once (restriction): met\n",
    lemmas: &[
        // Two steps of Run are one, and have one name.
        (
            "single: \"All x y #i #j. Run(x)@i & Run(y)@j ==> x = y\"",
            "single (all-traces): verified",
        ),
        (
            "two: exists-trace \"Ex x y #i #j. Run(x)@i & Run(y)@j & not x = y\"",
            "two (exists-trace): falsified - no trace found",
        ),
        // One step of Run.
        (
            "one: exists-trace \"Ex x #i. Run(x)@i\"",
            "one (exists-trace): verified",
        ),
        (
            "none: \"All x #i. Run(x)@i ==> F\"",
            "none (all-traces): falsified - found trace",
        ),
    ],
};

/// A step is done behind another one, though no fact leads from that to it.
const OPENED: Restricted = Restricted {
    items: "rule Open: [ ] --[ Opened() ]-> [ ]
rule Use: [ Fr(~x) ] --[ Used(~x) ]-> [ ]
restriction opened: \"All x #i. Used(x)@i ==> Ex #j. Opened()@j & #j < #i\"
",
    met: "opened (restriction): met\n",
    lemmas: &[
        // The restriction says so.
        (
            "before: \"All x #i. Used(x)@i ==> Ex #j. Opened()@j & #j < #i\"",
            "before (all-traces): verified",
        ),
        (
            "unopened: exists-trace \"Ex x #i. Used(x)@i & (All #j. Opened()@j ==> F)\"",
            "unopened (exists-trace): falsified - no trace found",
        ),
        // Open and then Use.
        (
            "used: exists-trace \"Ex x #i. Used(x)@i\"",
            "used (exists-trace): verified",
        ),
        (
            "unused: \"All x #i. Used(x)@i ==> F\"",
            "unused (all-traces): falsified - found trace",
        ),
        // Open, Use, and Open again.
        (
            "again: exists-trace \"Ex x #i #j. Used(x)@i & Opened()@j & #i < #j\"",
            "again (exists-trace): verified",
        ),
    ],
};

/// A step has one of two names.
const NAMED: Restricted = Restricted {
    items: "rule Name: [ ] --[ A($x) ]-> [ ]
restriction named: \"All x #i. A(x)@i ==> x = 'a' | x = 'b'\"
",
    met: "named (restriction): met\n",
    lemmas: &[
        // One of the two is left.
        (
            "second: \"All x #i. A(x)@i & not x = 'a' ==> x = 'b'\"",
            "second (all-traces): verified",
        ),
        (
            "other: exists-trace \"Ex x #i. A(x)@i & not x = 'a' & not x = 'b'\"",
            "other (exists-trace): falsified - no trace found",
        ),
        // Either may be it, and no name that stands nowhere.
        (
            "some: exists-trace \"Ex x #i. A(x)@i\"",
            "some (exists-trace): verified",
        ),
        (
            "first: \"All x #i. A(x)@i ==> x = 'a'\"",
            "first (all-traces): falsified - found trace",
        ),
    ],
};

/// A step is done.
const DONE: Restricted = Restricted {
    items: "rule Make: [ Fr(~k) ] --[ A(~k) ]-> [ ]
restriction done: \"Ex x #i. A(x)@i\"
",
    met: "done (restriction): met\n",
    lemmas: &[
        // The restriction says so.
        ("some: \"Ex x #i. A(x)@i\"", "some (all-traces): verified"),
        (
            "none: exists-trace \"All x #i. A(x)@i ==> F\"",
            "none (exists-trace): falsified - no trace found",
        ),
        // Not the execution without steps, but one of Make.
        (
            "true: exists-trace \"T\"",
            "true (exists-trace): verified (3 steps)\nexecution:\nfresh ~n1\nrule Make: k = ~n1\ntrace:\n",
        ),
        (
            "false: \"F\"",
            "false (all-traces): falsified - found trace (3 steps)\nexecution:\nfresh ~n1\nrule Make: k = ~n1\ntrace:\n",
        ),
    ],
};

/// No execution meets what is false: each lemma on all traces holds, and none on some trace.
const NEVER: Restricted = Restricted {
    items: "rule Make: [ Fr(~k) ] --[ A(~k) ]-> [ ]
restriction never: \"F\"
",
    met: "never (restriction): met\n",
    lemmas: &[
        ("false: \"F\"", "false (all-traces): verified"),
        ("made: \"Ex x #i. A(x)@i\"", "made (all-traces): verified"),
        (
            "true: exists-trace \"T\"",
            "true (exists-trace): falsified - no trace found",
        ),
        (
            "some: exists-trace \"Ex x #i. A(x)@i\"",
            "some (exists-trace): falsified - no trace found",
        ),
    ],
};

/// Nor does one meet this, since no rule has that action.
const ABSENT: Restricted = Restricted {
    items: "rule Make: [ Fr(~k) ] --[ A(~k) ]-> [ ]
restriction absent: \"Ex x #i. B(x)@i\"
",
    met: "absent (restriction): met\n",
    lemmas: &[
        ("false: \"F\"", "false (all-traces): verified"),
        (
            "true: exists-trace \"T\"",
            "true (exists-trace): falsified - no trace found",
        ),
        (
            "some: exists-trace \"Ex x #i. A(x)@i\"",
            "some (exists-trace): falsified - no trace found",
        ),
    ],
};

/// The adversary sends nothing.
const SILENT: Restricted = Restricted {
    items: "rule Take: [ In(x) ] --[ T(x) ]-> [ ]
rule Make: [ ] --[ A() ]-> [ Out('c') ]
restriction silent: \"All x #i. K(x)@i ==> F\"
",
    met: "silent (restriction): met\n",
    lemmas: &[
        // What is taken was sent.
        (
            "none: \"All x #i. T(x)@i ==> F\"",
            "none (all-traces): verified",
        ),
        (
            "taken: exists-trace \"Ex x #i. T(x)@i\"",
            "taken (exists-trace): falsified - no trace found",
        ),
        // A step of Make takes nothing.
        (
            "made: exists-trace \"Ex #i. A()@i\"",
            "made (exists-trace): verified",
        ),
        (
            "unmade: \"All #i. A()@i ==> F\"",
            "unmade (all-traces): falsified - found trace",
        ),
    ],
};

/// Two steps in one order. What is first suggested is the other one, which breaks the restriction.
const TURNED: Restricted = Restricted {
    items: "rule First: [ ] --[ A('c') ]-> [ ]
rule Other: [ ] --[ B('c') ]-> [ ]
restriction turned: \"All #i #j. A('c')@i & B('c')@j & #i < #j ==> F\"
",
    met: "turned (restriction): met\n",
    lemmas: &[
        (
            "both: exists-trace \"Ex #i #j. A('c')@i & B('c')@j\"",
            "both (exists-trace): verified (7 steps)",
        ),
        // Where the order is said, it is Other and then First.
        (
            "later: exists-trace \"Ex #i #j. A('c')@i & B('c')@j & #j < #i\"",
            "later (exists-trace): verified",
        ),
        (
            "earlier: exists-trace \"Ex #i #j. A('c')@i & B('c')@j & #i < #j\"",
            "earlier (exists-trace): falsified - no trace found",
        ),
        // It holds: the two are no one step, and the first isn't before the second.
        (
            "ordered: \"All #i #j. A('c')@i & B('c')@j ==> #j < #i\"",
            "ordered (all-traces): verified (7 steps)",
        ),
    ],
};

/// No fresh name is equal to what is done: a public name isn't one, so each execution meets the restriction.
const NOT_FRESH: Restricted = Restricted {
    items: "rule R: [ ] --[ A('c') ]-> [ ]
restriction r: \"All ~x y #i. A(y)@i & ~x = y ==> F\"
",
    met: "r (restriction): met\n",
    lemmas: &[
        (
            "some: exists-trace \"Ex y #i. A(y)@i\"",
            "some (exists-trace): verified",
        ),
        (
            "none: \"All y #i. A(y)@i ==> F\"",
            "none (all-traces): falsified - found trace",
        ),
    ],
};

/// No public name is: then there is no step of the rule.
const NOT_PUBLIC: Restricted = Restricted {
    items: "rule R: [ ] --[ A('c') ]-> [ ]
restriction r: \"All $x y #i. A(y)@i & $x = y ==> F\"
",
    met: "r (restriction): met\n",
    lemmas: &[
        (
            "some: exists-trace \"Ex y #i. A(y)@i\"",
            "some (exists-trace): falsified - no trace found",
        ),
        (
            "none: \"All y #i. A(y)@i ==> F\"",
            "none (all-traces): verified",
        ),
    ],
};

/// No message is: the same.
const NO_MESSAGE: Restricted = Restricted {
    items: "rule R: [ ] --[ A('c') ]-> [ ]
restriction r: \"All x y #i. A(y)@i & x = y ==> F\"
",
    met: "r (restriction): met\n",
    lemmas: &[
        (
            "some: exists-trace \"Ex y #i. A(y)@i\"",
            "some (exists-trace): falsified - no trace found",
        ),
        (
            "none: \"All y #i. A(y)@i ==> F\"",
            "none (all-traces): verified",
        ),
    ],
};

/// Nothing is done over a fresh name.
const NO_FRESH_STEP: Restricted = Restricted {
    items: "rule Public: [ ] --[ A('c') ]-> [ ]
rule Fresh: [ Fr(~k) ] --[ A(~k), B() ]-> [ ]
restriction r: \"All ~x #i. A(~x)@i ==> F\"
",
    met: "r (restriction): met\n",
    lemmas: &[
        // Public does so over a public name.
        (
            "some: exists-trace \"Ex y #i. A(y)@i\"",
            "some (exists-trace): verified",
        ),
        // Fresh alone has B.
        (
            "none: \"All #i. B()@i ==> F\"",
            "none (all-traces): verified",
        ),
        (
            "public: \"All y #i. A(y)@i ==> y = 'c'\"",
            "public (all-traces): verified",
        ),
    ],
};

/// Nothing is done over a public name.
const NO_PUBLIC_STEP: Restricted = Restricted {
    items: "rule Public: [ ] --[ A('c'), B() ]-> [ ]
rule Fresh: [ Fr(~k) ] --[ A(~k) ]-> [ ]
restriction r: \"All $x #i. A($x)@i ==> F\"
",
    met: "r (restriction): met\n",
    lemmas: &[
        // Fresh does so over a fresh name.
        (
            "some: exists-trace \"Ex y #i. A(y)@i\"",
            "some (exists-trace): verified",
        ),
        // Public alone has B.
        (
            "none: \"All #i. B()@i ==> F\"",
            "none (all-traces): verified",
        ),
        (
            "public: exists-trace \"Ex #i. A('c')@i\"",
            "public (exists-trace): falsified - no trace found",
        ),
    ],
};

/// A key, messages that are signed by it, and a step that compares what the check of a signature gives with true.
const SIGNED_ITEMS: &str = "builtins: signing
rule Key: [ Fr(~k) ] --> [ !Pk(pk(~k)), !Sk(~k) ]
rule Sign: [ !Sk(k), Fr(~m) ] --[ Signed(~m) ]-> [ Out(<~m, sign(~m, k)>) ]
rule Check: [ !Pk(p), In(<m, s>) ] --[ Eq(verify(s, m, p), true), Accepted(m) ]-> [ ]
restriction Eq: \"All x y #i. Eq(x,y)@i ==> x = y\"
";

/// The forms of its rules: the check stays as it is, or it is one of a signature.
const SIGNED_FORMS: &str = "rule Key: 1 forms
  [ Fr(~v0) ] --[ ]-> [ !Pk(pk(~v0)), !Sk(~v0) ]
rule Sign: 1 forms
  [ !Sk(v0), Fr(~v1) ] --[ Signed(~v1) ]-> [ Out(<~v1, sign(~v1, v0)>) ]
rule Check: 2 forms
  [ !Pk(v0), In(<v1, v2>) ] --[ Eq(verify(v2, v1, v0), true), Accepted(v1) ]-> [ ]
  [ !Pk(pk(v0)), In(<v1, sign(v1, v0)>) ] --[ Eq(true, true), Accepted(v1) ]-> [ ]
";

/// A message with a signature is accepted where the check comes out true.
const SIGNED: Restricted = Restricted {
    items: SIGNED_ITEMS,
    met: "Eq (restriction): met\n",
    lemmas: &[
        // It comes out true for signatures by the key alone, which stays in its facts, so that Sign made the signature.
        (
            "auth: \"All m #i. Accepted(m)@i ==> Ex #j. Signed(m)@j\"",
            "auth (all-traces): verified",
        ),
        (
            "forged: exists-trace \"Ex m #i. Accepted(m)@i & (All #j. Signed(m)@j ==> F)\"",
            "forged (exists-trace): falsified - no trace found",
        ),
        // The adversary hands on what was signed.
        (
            "accepted: exists-trace \"Ex m #i. Accepted(m)@i\"",
            "accepted (exists-trace): verified",
        ),
    ],
};

/// The same without the restriction: anything is accepted.
const UNCHECKED: Restricted = Restricted {
    items: "builtins: signing
rule Key: [ Fr(~k) ] --> [ !Pk(pk(~k)), !Sk(~k) ]
rule Sign: [ !Sk(k), Fr(~m) ] --[ Signed(~m) ]-> [ Out(<~m, sign(~m, k)>) ]
rule Check: [ !Pk(p), In(<m, s>) ] --[ Eq(verify(s, m, p), true), Accepted(m) ]-> [ ]
",
    met: "",
    lemmas: &[(
        "auth: \"All m #i. Accepted(m)@i ==> Ex #j. Signed(m)@j\"",
        "auth (all-traces): falsified - found trace",
    )],
};

/// Asserts that each lemma of the theory is told as it is to be.
fn assert_restricted(rt: &impl Abort, alloc: Global, theory: Restricted) -> Result<(), Fail> {
    for (lemma, line) in theory.lemmas {
        let summary = summary_under(rt, alloc, theory.items, theory.met, lemma)?;
        assert!(rt; summary.as_str().starts_with(*line), "{lemma}: {summary}");
    }
    Ok(())
}

static RESTRICTED: [Restricted; 11] = [
    EQUAL, COMPARED, UNEQUAL, CLASHING, ONCE, OPENED, NAMED, DONE, NEVER, ABSENT, SILENT,
];

fn restricted_cases() -> &'static [Restricted] {
    &RESTRICTED
}

#[test]
fn restrictions_are_respected(rt: HostRuntime) -> Result<(), Fail> {
    let alloc = rt.alloc();
    for theory in restricted_cases().iter() {
        assert_restricted(&rt, alloc, *theory)?;
    }
    Ok(())
}

static SORTED: [Restricted; 5] = [
    NOT_FRESH,
    NOT_PUBLIC,
    NO_MESSAGE,
    NO_FRESH_STEP,
    NO_PUBLIC_STEP,
];

fn sorted() -> &'static [Restricted] {
    &SORTED
}

#[test]
fn restrictions_speak_of_their_sorts(rt: HostRuntime) -> Result<(), Fail> {
    let alloc = rt.alloc();
    for theory in sorted().iter() {
        assert_restricted(&rt, alloc, *theory)?;
    }
    Ok(())
}

static CHECKED: [Restricted; 3] = [TURNED, SIGNED, UNCHECKED];

fn checked() -> &'static [Restricted] {
    &CHECKED
}

#[test]
fn executions_that_break_a_restriction_are_not_found(rt: HostRuntime) -> Result<(), Fail> {
    let alloc = rt.alloc();
    for theory in checked().iter() {
        assert_restricted(&rt, alloc, *theory)?;
    }
    Ok(())
}

#[test]
fn forms_of_rules_do_not_depend_on_restrictions(rt: HostRuntime) -> Result<(), Fail> {
    let alloc = rt.alloc();
    let text = format!(in alloc; "theory R9 begin\n{SIGNED_ITEMS}end\n")?;
    assert_answer(&rt, alloc, "variants", text.as_str(), 0, SIGNED_FORMS)?;
    Ok(())
}

/// Restrictions of each keyword among rules and lemmas.
const MIXED: &str = "theory M begin
lemma some: exists-trace \"Ex x y #i. Both(x, y)@i\"
restriction equal: \"All x y #i. Both(x, y)@i ==> x = y\"
rule Pair: [ ] --[ Both($a, $b) ]-> [ ]
axiom single: \"All x y z w #i #j. Both(x, y)@i & Both(z, w)@j ==> #i = #j\"
rule Make: [ Fr(~k) ] --[ A(~k) ]-> [ ]
restriction made: \"All x y #i. Both(x, y)@i ==> Ex z #j. A(z)@j & #j < #i\"
lemma none: \"All x y #i. Both(x, y)@i ==> F\"
end
";

/// Steps of it, the status, and the answer.
static REPLAYED: [(&str, u8, &str); 6] = [
    (
        "",
        0,
        "trace:
end of trace
equal (restriction): met
single (restriction): met
made (restriction): met
some (exists-trace): broken
none (all-traces): met
",
    ),
    (
        "fresh ~n1\nrule Make: k = ~n1\nrule Pair: a = 'a', b = 'a'\n",
        0,
        "trace:
A(~n1)
Both('a', 'a')
end of trace
equal (restriction): met
single (restriction): met
made (restriction): met
some (exists-trace): met
none (all-traces): broken
",
    ),
    // two names, and nothing was made
    (
        "rule Pair: a = 'a', b = 'b'\n",
        0,
        "trace:
Both('a', 'b')
end of trace
equal (restriction): broken
single (restriction): met
made (restriction): broken
some (exists-trace): met
none (all-traces): broken
",
    ),
    // two steps of Pair
    (
        "fresh ~n1\nrule Make: k = ~n1\nrule Pair: a = 'a', b = 'a'\nrule Pair: a = 'a', b = 'a'\n",
        0,
        "trace:
A(~n1)
Both('a', 'a')
Both('a', 'a')
end of trace
equal (restriction): met
single (restriction): broken
made (restriction): met
some (exists-trace): met
none (all-traces): broken
",
    ),
    // it is made too late
    (
        "rule Pair: a = 'a', b = 'a'\nfresh ~n1\nrule Make: k = ~n1\n",
        0,
        "trace:
Both('a', 'a')
A(~n1)
end of trace
equal (restriction): met
single (restriction): met
made (restriction): broken
some (exists-trace): met
none (all-traces): broken
",
    ),
    // nothing is told of steps that can't be done
    (
        "rule Pair: a = 'a', b = 'b'\nrule Make: k = ~n1\n",
        3,
        "step 2 refused (3)\n",
    ),
];

fn replayed_cases() -> &'static [(&'static str, u8, &'static str)] {
    &REPLAYED
}

#[test]
fn restrictions_are_met_or_broken(rt: HostRuntime) -> Result<(), Fail> {
    let alloc = rt.alloc();
    for (steps, status, answer) in replayed_cases().iter() {
        let text = format!(in alloc; "{MIXED}{steps}")?;
        assert_answer(&rt, alloc, "replay", text.as_str(), *status, answer)?;
    }
    Ok(())
}
