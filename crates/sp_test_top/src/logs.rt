// Lemmas that name what the adversary learns, and so are read over learning logs: what is said of them, and the logs that are found. Both are argued by hand, a
// theory at a time.

use crate::calls::{assert_answer, summary_of};
use std::alloc::Global;
use std::process::Abort;
use std::test::Fail;

/// Items, and lemmas over them with the beginning of the line of each and what stands below that line.
#[derive(Clone, Copy)]
struct Logged {
    items: &'static str,
    lemmas: &'static [(&'static str, &'static str, &'static str)],
}

/// A name is sent in the clear, another stays where it is, and whatever comes in is taken.
const SENT: Logged = Logged {
    items: "builtins: hashing
rule Send: [ Fr(~n) ] --[ Sent(~n) ]-> [ Out(~n) ]
rule Hide: [ Fr(~s) ] --[ Hidden(~s) ]-> [ ]
rule Take: [ In(x) ] --[ Got(x) ]-> [ ]
",
    lemmas: &[
        // What is taken was sent, and what is sent was learnt before that.
        (
            "heard: \"All x #i. Got(x)@i ==> Ex #j. KU(x)@j & #j < #i\"",
            "heard (all-traces, over learning logs): verified",
            "",
        ),
        (
            "unheard: exists-trace \"Ex x #i. Got(x)@i & (All #j. KU(x)@j ==> F)\"",
            "unheard (exists-trace, over learning logs): falsified - no trace found",
            "",
        ),
        // It is random, and in no message.
        (
            "hidden: \"All x #i. Hidden(x)@i ==> not (Ex #j. KU(x)@j)\"",
            "hidden (all-traces, over learning logs): verified",
            "",
        ),
        // It is random, and in no message before it is sent.
        (
            "early: exists-trace \"Ex x #i #j. Sent(x)@i & KU(x)@j & #j < #i\"",
            "early (exists-trace, over learning logs): falsified - no trace found",
            "",
        ),
        // Who listens learns it, from what was put out.
        (
            "open: \"All x #i. Sent(x)@i ==> not (Ex #j. KU(x)@j)\"",
            "open (all-traces, over learning logs): falsified - found trace",
            "log:\nrule Send: n = ~n1\nlearn ~n1 (chain)\ntrace:\nSent(~n1)\nend of trace\n",
        ),
        // A name of the adversary's own is no name that was sent.
        (
            "own: \"All ~x #i. KU(~x)@i ==> Ex #j. Sent(~x)@j\"",
            "own (all-traces, over learning logs): falsified - found trace",
            "log:\nlearn ~n1 (own)\ntrace:\nend of trace\n",
        ),
        // A hash is made of what is known. That it is learnt is no action of the trace.
        (
            "made: exists-trace \"Ex #i. KU(h('c'))@i\"",
            "made (exists-trace, over learning logs): verified",
            "log:\nlearn 'c' (pub)\nlearn h('c') (made)\ntrace:\nend of trace\n",
        ),
        // What is learnt once is sent and taken. The same steps are told as an execution where the lemma names no learning.
        (
            "learnt: exists-trace \"Ex #i #j. Got('c')@i & KU('c')@j\"",
            "learnt (exists-trace, over learning logs): verified",
            "log:\nlearn 'c' (pub)\nsend 'c'\nrule Take: x = 'c'\ntrace:\nK('c')\nGot('c')\nend of trace\n",
        ),
        (
            "taken: exists-trace \"Ex #i. Got('c')@i\"",
            "taken (exists-trace): verified",
            "execution:\npub 'c'\nin 'c'\nrule Take: x = 'c'\ntrace:\nK('c')\nGot('c')\nend of trace\n",
        ),
    ],
};

/// A key that a rule may give away, where a restriction says that this isn't done.
const KEPT: Logged = Logged {
    items: "rule Make: [ Fr(~k) ] --[ Made(~k) ]-> [ Key(~k) ]
rule Give: [ Key(k) ] --[ Given(k) ]-> [ Out(k) ]
restriction never: \"All x #i. Given(x)@i ==> F\"
",
    lemmas: &[
        // Logs meet the restrictions too.
        (
            "kept: \"All x #i. Made(x)@i ==> not (Ex #j. KU(x)@j)\"",
            "kept (all-traces, over learning logs): verified",
            "",
        ),
        (
            "lost: exists-trace \"Ex x #i #j. Made(x)@i & KU(x)@j\"",
            "lost (exists-trace, over learning logs): falsified - no trace found",
            "",
        ),
    ],
};

/// Whatever comes in under a key that isn't given away is opened.
const OPENED: Logged = Logged {
    items: "builtins: symmetric-encryption
rule Setup: [ Fr(~k) ] --> [ !Key(~k) ]
rule Start: [ !Key(k), Fr(~m) ] --[ Sent(~m) ]-> [ Out(senc(~m, k)) ]
rule Dec: [ !Key(k), In(senc(x, k)) ] --[ Got(x) ]-> [ Out(x) ]
",
    lemmas: &[
        // The adversary made it of what it had learnt, or a step of Start did, or another step of Dec opened what it came from before, of which it is so by the hypothesis.
        (
            "origin [sources]: \"All x #i. Got(x)@i ==> (Ex #j. KU(x)@j & #j < #i) | (Ex #j. Sent(x)@j & #j < #i)\"",
            "origin (all-traces, over learning logs): verified",
            "",
        ),
    ],
};

/// Asserts that each lemma over the items is told as it is to be.
fn assert_learnt(rt: &impl Abort, alloc: Global, theory: Logged) -> Result<(), Fail> {
    for (lemma, line, block) in theory.lemmas {
        let summary = summary_of(rt, alloc, theory.items, lemma)?;
        let (told, below) = summary.as_str().split_once("\n").ok_or("line")?;
        assert!(rt; told.starts_with(*line), "{lemma}: {summary}");
        assert_eq!(rt; below, *block, "{lemma}");
    }
    Ok(())
}

static LEARNT: [Logged; 3] = [SENT, KEPT, OPENED];

fn learnt() -> &'static [Logged] {
    &LEARNT
}

#[test]
fn lemmas_that_name_learning_are_told_over_logs(rt: HostRuntime) -> Result<(), Fail> {
    let alloc = rt.alloc();
    for theory in learnt().iter() {
        assert_learnt(&rt, alloc, *theory)?;
    }
    Ok(())
}

/// Lemmas of both kinds in one text, with proofs: accepted, left open, and rejected.
const MIXED: &str = "theory M begin
rule Send: [ Fr(~n) ] --[ Sent(~n) ]-> [ Out(~n) ]
rule Take: [ In(x) ] --[ Got(x) ]-> [ ]
lemma none: \"All x #i. Sent(x)@i ==> F\" simplify solve( action 0 ) case Send SOLVED qed
lemma heard: \"All x #i. Got(x)@i ==> Ex #j. KU(x)@j & #j < #i\" simplify solve( action 0 ) case Take by contradiction qed
lemma open: \"All x #i. Sent(x)@i ==> not (Ex #j. KU(x)@j)\" simplify solve( action 0 ) case Send by sorry qed
lemma other: \"All x #i. KU(x)@i ==> F\" by solve( x )
lemma public: exists-trace \"Ex #i. KU('c')@i\" simplify solve( action 0 ) case Learn SOLVED qed
end
";

/// What is said of them.
const TOLD: &str = "none (all-traces): falsified - found trace (3 steps)
execution:
fresh ~n1
rule Send: n = ~n1
trace:
Sent(~n1)
end of trace
heard (all-traces, over learning logs): verified (3 steps)
open (all-traces, over learning logs): analysis incomplete (2 steps)
other (all-traces, over learning logs): rejected at step 1 (move)
public (exists-trace, over learning logs): verified (3 steps)
log:
learn 'c' (pub)
trace:
end of trace
";

#[test]
fn proofs_over_logs_are_checked(rt: HostRuntime) -> Result<(), Fail> {
    assert_answer(&rt, rt.alloc(), "check", MIXED, 3, TOLD)
}
