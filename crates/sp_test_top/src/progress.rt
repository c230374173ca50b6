// Proofs that decide what a system leaves open: how times lie, whether names are the same, whether more happens, and what stands for a message. The verdicts
// are argued by hand, a theory at a time; what is written is checked to the same summary, and each execution that is found is replayed.

use crate::calls::summary_under;
use std::test::Fail;

/// Items with restrictions, the lines of an execution that meets them, a lemma, and its line.
#[derive(Clone, Copy)]
struct Decided {
    items: &'static str,
    met: &'static str,
    lemma: &'static str,
    line: &'static str,
}

/// Three rules with an action each, over names of their own.
const THREE_RULES: &str = "rule A: [ Fr(~x) ] --[ A(~x) ]-> [ ]
rule B: [ Fr(~x) ] --[ B(~x) ]-> [ ]
rule C: [ Fr(~x) ] --[ C(~x) ]-> [ ]
";

/// Of three times in a circle one is before the next: were none, the first would be behind the second, that behind the third, and so on, since no two of
/// the steps are one.
const CIRCLE: Decided = Decided {
    items: THREE_RULES,
    met: "",
    lemma: "circle: \"All x y z #i #j #k. A(x)@i & B(y)@j & C(z)@k ==> #i < #j | #j < #k | #k < #i\"",
    line: "circle (all-traces): verified (11 steps)",
};

/// The last comes first: the steps may be done in any order.
const BACKWARDS: Decided = Decided {
    items: THREE_RULES,
    met: "",
    lemma: "back: exists-trace \"Ex x y z #i #j #k. A(x)@i & B(y)@j & C(z)@k & not (#i < #j) & not (#j < #k)\"",
    line: "back (exists-trace): verified (11 steps)",
};

/// A step takes anything but a public name: a pair will do, for one.
const NO_NAME: Decided = Decided {
    items: "rule R: [ In(x) ] --[ A(x) ]-> [ ]
restriction r: \"All $x #i. A($x)@i ==> F\"
",
    met: "r (restriction): met\n",
    lemma: "some: exists-trace \"Ex x #i. A(x)@i\"",
    line: "some (exists-trace): verified (38 steps)",
};

/// The same with two public names that a step chooses: whether they are one is decided first, and doesn't matter.
const TWO_NAMES: Decided = Decided {
    items: "rule R: [ In(x) ] --[ A(x, $p, $q) ]-> [ ]
restriction r: \"All $x y z #i. A($x, y, z)@i ==> F\"
",
    met: "r (restriction): met\n",
    lemma: "some: exists-trace \"Ex x y z #i. A(x, y, z)@i\"",
    line: "some (exists-trace): verified (72 steps)",
};

/// The same with one, which may be the name that stands in another rule.
const NAMED: Decided = Decided {
    items: "rule R: [ In(x) ] --[ A(x, $p) ]-> [ ]
rule S: [ ] --[ B('c') ]-> [ ]
restriction r: \"All $x y #i. A($x, y)@i ==> F\"
",
    met: "r (restriction): met\n",
    lemma: "some: exists-trace \"Ex x y #i. A(x, y)@i\"",
    line: "some (exists-trace): verified (84 steps)",
};

/// A step may take what is neither a public name nor a pair, such as `fst('a1')`, with no fresh name anywhere.
const NEITHER: Decided = Decided {
    items: "rule R: [ In(x) ] --[ A(x) ]-> [ ]\n",
    met: "",
    lemma: "fresh: \"All x #i. A(x)@i & (All $y #j. A($y)@j ==> F) & (All y z #j. A(<y, z>)@j ==> F) ==> (Ex ~y #j. A(~y)@j)\"",
    line: "fresh (all-traces): falsified - found trace (41 steps)",
};

/// Without rules the adversary may send a pair, and no name.
const NO_RULE: Decided = Decided {
    items: "",
    met: "",
    lemma: "public: \"All x #i. K(x)@i ==> Ex $y #j. K($y)@j\"",
    line: "public (all-traces): falsified - found trace (18 steps)",
};

/// A rule that can do nothing, since no rule gives what it takes, changes nothing of that.
const IDLE: Decided = Decided {
    items: "rule R: [ Z(x) ] --[ A(x) ]-> [ ]\n",
    met: "",
    lemma: "idle: exists-trace \"Ex x #i. K(x)@i & (All y #j. A(y)@j ==> F) & (All $y #j. K($y)@j ==> F)\"",
    line: "idle (exists-trace): verified (19 steps)",
};

/// Without rules nothing is ever done.
const ABSENT: Decided = Decided {
    items: "",
    met: "",
    lemma: "p: exists-trace \"Ex x #i. P(x)@i\"",
    line: "p (exists-trace): falsified - no trace found (2 steps)",
};

static DECIDED: [Decided; 9] = [
    CIRCLE, BACKWARDS, NO_NAME, TWO_NAMES, NAMED, NEITHER, NO_RULE, IDLE, ABSENT,
];

fn decided_cases() -> &'static [Decided] {
    &DECIDED
}

#[test]
fn what_is_left_open_is_decided(rt: HostRuntime) -> Result<(), Fail> {
    let alloc = rt.alloc();
    for theory in decided_cases().iter() {
        let Decided {
            items,
            met,
            lemma,
            line,
        } = *theory;
        let summary = summary_under(&rt, alloc, items, met, lemma)?;
        assert!(rt; summary.as_str().starts_with(line), "{lemma}: {summary}");
    }
    Ok(())
}
