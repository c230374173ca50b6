// Theories with state: facts that rules leave for each other. The verdicts are argued by hand, a theory at a time.

use crate::calls::words_on_text;
use sp_io::{MemLibrary, MemSink};
use sp_top::run;
use std::alloc::Global;
use std::test::Fail;

/// A theory with state, its lemmas, and the beginning of the line of each.
#[derive(Clone, Copy)]
struct Stateful {
    rules: &'static str,
    lemmas: &'static [(&'static str, &'static str)],
}

/// A token that a rule makes and another one takes.
const TOKEN: Stateful = Stateful {
    rules: "rule Make: [ Fr(~x) ] --> [ T(~x) ]\nrule Use: [ T(x) ] --[ U(x) ]-> [ ]\n",
    lemmas: &[
        // Each use takes the token of a step of its own of Make, and two steps of Make have other names.
        (
            "once: \"All x #i #j. U(x)@i & U(x)@j ==> #i = #j\"",
            "once (all-traces): verified (6 steps)\n",
        ),
        // Make and then Use.
        (
            "can: exists-trace \"Ex x #i. U(x)@i\"",
            "can (exists-trace): verified (4 steps)\n",
        ),
    ],
};

/// A token that nothing makes.
const NO_TOKEN: Stateful = Stateful {
    rules: "rule Use: [ T(x) ] --[ U(x) ]-> [ ]\n",
    lemmas: &[
        // The premise has no source.
        (
            "taken: \"All x #i. U(x)@i ==> F\"",
            "taken (all-traces): verified (3 steps)\n",
        ),
    ],
};

/// A handshake in two stages: who is done was asked, and who was asked began.
const HANDSHAKE: Stateful = Stateful {
    rules: "rule Begin: [ Fr(~s) ] --[ Begins(~s) ]-> [ Waits(~s) ]
rule Ask: [ Waits(s) ] --[ Asks(s) ]-> [ Asked(s) ]
rule End: [ Asked(s) ] --[ Ends(s) ]-> [ ]
",
    lemmas: &[
        // End takes what Ask leaves, and Ask what Begin leaves.
        (
            "staged: \"All s #i. Ends(s)@i ==> Ex #j #k. Begins(s)@j & Asks(s)@k & #j < #k & #k < #i\"",
            "staged (all-traces): verified",
        ),
        // All three facts are linear, and the name is fresh.
        (
            "single: \"All s #i #j. Ends(s)@i & Ends(s)@j ==> #i = #j\"",
            "single (all-traces): verified",
        ),
        // The three rules one after another.
        (
            "whole: exists-trace \"Ex s #i. Ends(s)@i\"",
            "whole (exists-trace): verified",
        ),
        // Begin and Ask alone.
        (
            "answered: \"All s #i. Asks(s)@i ==> Ex #j. Ends(s)@j\"",
            "answered (all-traces): falsified - found trace",
        ),
    ],
};

/// A lock that is free or held by one.
const LOCK: Stateful = Stateful {
    rules: "rule Lock: [ Fr(~l) ] --> [ Free(~l) ]
rule Enter: [ Free(l), Fr(~p) ] --[ Enters(l, ~p) ]-> [ Held(l, ~p) ]
rule Leave: [ Held(l, p) ] --[ Leaves(l, p) ]-> [ Free(l) ]
",
    lemmas: &[
        // Who leaves holds the lock, and holds it since a step of Enter.
        (
            "held: \"All l p #i. Leaves(l, p)@i ==> Ex #j. Enters(l, p)@j & #j < #i\"",
            "held (all-traces): verified",
        ),
        // The name of who enters is fresh, so one step of Enter has it, and one step of Leave takes what that leaves.
        (
            "once: \"All l p #i #j. Leaves(l, p)@i & Leaves(l, p)@j ==> #i = #j\"",
            "once (all-traces): verified",
        ),
        // One enters and leaves, and then another one enters.
        (
            "again: exists-trace \"Ex l p q #i #j. Enters(l, p)@i & Enters(l, q)@j & not p = q\"",
            "again (exists-trace): verified",
        ),
    ],
};

/// What was sent is one of two things, and either has a source.
const EITHER: Stateful = Stateful {
    rules: "rule Left: [ Fr(~x) ] --[ Left(~x) ]-> [ S(~x) ]
rule Right: [ Fr(~x) ] --[ Right(~x) ]-> [ S(~x) ]
rule Get: [ S(x) ] --[ Got(x) ]-> [ ]
",
    lemmas: &[
        // A linear fact S comes from Left or from Right.
        (
            "either: \"All x #i. Got(x)@i ==> (Ex #j. Left(x)@j & #j < #i) | (Ex #j. Right(x)@j & #j < #i)\"",
            "either (all-traces): verified",
        ),
        // It may come from Right.
        (
            "left: \"All x #i. Got(x)@i ==> Ex #j. Left(x)@j\"",
            "left (all-traces): falsified - found trace",
        ),
        // Of one fresh name there is one step.
        (
            "both: exists-trace \"Ex x #i #j. Left(x)@i & Right(x)@j\"",
            "both (exists-trace): falsified - no trace found",
        ),
        // The first part of the disjunction: one Left alone.
        (
            "alone: exists-trace \"((Ex x #i. Left(x)@i) | (Ex x #i. Right(x)@i)) & (All y #j. Right(y)@j ==> F)\"",
            "alone (exists-trace): verified",
        ),
    ],
};

static STATEFUL: [Stateful; 5] = [TOKEN, NO_TOKEN, HANDSHAKE, LOCK, EITHER];

fn stateful_cases() -> &'static [Stateful] {
    &STATEFUL
}

#[test]
fn theories_with_state_are_tried(rt: HostRuntime) -> Result<(), Fail> {
    let alloc = rt.alloc();
    for stateful in stateful_cases().iter() {
        let rules = stateful.rules;
        for (lemma, line) in stateful.lemmas {
            let text = format!(in alloc; "theory T begin\n{rules}lemma {lemma}\nend\n")?;
            let written = tried(alloc, &text)?;
            let is_told = written.contains(*line);
            assert!(rt; is_told, "{lemma}: {written}");
        }
    }
    Ok(())
}

/// What is written of the text by `prove`.
fn tried(alloc: Global, text: &str) -> Result<String, Fail> {
    let words = words_on_text(alloc, "prove")?;
    let mut library = MemLibrary::new(alloc);
    library.put("text", text.as_bytes())?;
    let mut sink = MemSink::new(alloc, 100, 10_000)?;
    run(alloc, &words, &mut library, &mut sink);
    let mut written = String::new(alloc);
    for byte in sink.written() {
        written.push(char::from(*byte))?;
    }
    Ok(written)
}
