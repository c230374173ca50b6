// Lemmas that are taken for later ones: which are, by the verdicts of the same run, and what they decide. The verdicts are argued by hand.

use crate::calls::{assert_answer, written_by};
use sp_analysis::{Attempt, Command, Verdict};
use sp_pose::Reply;
use std::alloc::{AllocError, Global};
use std::process::Abort;
use std::test::Fail;

/// A secret that nobody learns, and a token that goes round and round.
const LOOPING: &str = "theory T begin
rule Make: [ Fr(~k) ] --[ Secret(~k) ]-> [ ]
rule Start: [ Fr(~x) ] --> [ L(~x) ]
rule Loop: [ L(x) ] --[ Loop(x) ]-> [ L(x) ]
";

/// It is shown by how a fresh name may be learnt: no rule puts one out.
const KEPT: &str = "\"All x #i #j. Secret(x)@i & K(x)@j ==> F\"";

/// That alone shows this one too. But the token of a step of Loop may be left by another one, and where it comes from is always looked for before how
/// a message is learnt: so without the former lemma no number of moves shows it.
const BOTH: &str = "\"All x y #i #j #k. Secret(x)@i & K(x)@j & Loop(y)@k ==> F\"";

/// Whether these are the verdicts, in this order.
fn are(verdicts: &Vec<Verdict>, wanted: &[Verdict]) -> bool {
    if verdicts.len() != wanted.len() {
        return false;
    }
    for (verdict, other) in verdicts.iter().zip(wanted) {
        if *verdict != *other {
            return false;
        }
    }
    true
}

/// Asserts what proofs of at most so many moves say of the lemmas of the text.
pub(crate) fn assert_verdicts(
    rt: &impl Abort,
    alloc: Global,
    budget: u64,
    text: &str,
    wanted: &[Verdict],
) -> Result<(), Fail> {
    let reply = sp_analysis::answer(alloc, Command::Prove(budget), None, text.as_bytes())?;
    let Reply::Done(Attempt::Done(answer)) = reply else {
        return Err("no lemma is tried".into());
    };
    assert!(rt; are(&answer.verdicts, wanted), "{text}");
    Ok(())
}

/// The attributes of the lemma that decides, those of the lemma behind it, and what is said of the latter.
static MARKED: [(&str, &str, Verdict); 9] = [
    ("[reuse]", "", Verdict::Verified),
    // one that isn't marked isn't taken
    ("", "", Verdict::Incomplete),
    ("[heuristic=s]", "[reuse]", Verdict::Incomplete),
    ("[heuristic=s, reuse]", "[reuse]", Verdict::Verified),
    // nor one that the other hides by its name
    ("[reuse]", "[hide_lemma=kept]", Verdict::Incomplete),
    ("[reuse]", "[reuse, hide_lemma=kept]", Verdict::Incomplete),
    (
        "[reuse]",
        "[hide_lemma=both, hide_lemma=kept]",
        Verdict::Incomplete,
    ),
    // the name of another one hides nothing
    ("[reuse]", "[hide_lemma=both]", Verdict::Verified),
    ("[hide_lemma=both, reuse]", "", Verdict::Verified),
];

fn marked_cases() -> &'static [(&'static str, &'static str, Verdict)] {
    &MARKED
}

#[test]
fn marked_lemmas_are_taken(rt: HostRuntime) -> Result<(), Fail> {
    let alloc = rt.alloc();
    for (first, second, verdict) in marked_cases().iter() {
        let text = format!(in alloc;
            "{LOOPING}lemma kept {first}: {KEPT}\nlemma both {second}: {BOTH}\nend\n"
        )?;
        assert_verdicts(
            &rt,
            alloc,
            60,
            text.as_str(),
            &[Verdict::Verified, *verdict],
        )?;
    }
    Ok(())
}

/// Lemmas over the same rules, and what is said of each.
static LISTED: [(&str, &[Verdict]); 8] = [
    // what comes later isn't taken
    (
        "lemma both: \"All x y #i #j #k. Secret(x)@i & K(x)@j & Loop(y)@k ==> F\"
lemma kept [reuse]: \"All x #i #j. Secret(x)@i & K(x)@j ==> F\"",
        &[Verdict::Incomplete, Verdict::Verified],
    ),
    // a proof that stands below a lemma says nothing where another one is grown
    (
        "lemma kept [reuse]: \"All x #i #j. Secret(x)@i & K(x)@j ==> F\" by sorry
lemma both: \"All x y #i #j #k. Secret(x)@i & K(x)@j & Loop(y)@k ==> F\"",
        &[Verdict::Verified, Verdict::Verified],
    ),
    // lemmas are taken for those on some trace too
    (
        "lemma kept [reuse]: \"All x #i #j. Secret(x)@i & K(x)@j ==> F\"
lemma both: exists-trace \"Ex x y #i #j #k. Secret(x)@i & K(x)@j & Loop(y)@k\"",
        &[Verdict::Verified, Verdict::Falsified],
    ),
    (
        "lemma kept: \"All x #i #j. Secret(x)@i & K(x)@j ==> F\"
lemma both: exists-trace \"Ex x y #i #j #k. Secret(x)@i & K(x)@j & Loop(y)@k\"",
        &[Verdict::Verified, Verdict::Incomplete],
    ),
    // what was shown by a lemma that was taken is taken by itself
    (
        "lemma kept [reuse]: \"All x #i #j. Secret(x)@i & K(x)@j ==> F\"
lemma both [reuse]: \"All x y #i #j #k. Secret(x)@i & K(x)@j & Loop(y)@k ==> F\"
lemma third [hide_lemma=kept]: \"All x y #i #j #k. Secret(x)@i & K(x)@j & Loop(y)@k & #k < #i ==> F\"",
        &[Verdict::Verified, Verdict::Verified, Verdict::Verified],
    ),
    // what wasn't shown isn't taken: the same lemma would be shown by it
    (
        "lemma both [reuse]: \"All x y #i #j #k. Secret(x)@i & K(x)@j & Loop(y)@k ==> F\"
lemma again: \"All x y #i #j #k. Secret(x)@i & K(x)@j & Loop(y)@k ==> F\"",
        &[Verdict::Incomplete, Verdict::Incomplete],
    ),
    // nor what is false: there is a secret
    (
        "lemma none [reuse]: \"All x #i. Secret(x)@i ==> F\"
lemma some: exists-trace \"Ex x #i. Secret(x)@i\"",
        &[Verdict::Falsified, Verdict::Verified],
    ),
    // nor a lemma on some trace: the execution without steps has no secret
    (
        "lemma some [reuse]: exists-trace \"Ex x #i. Secret(x)@i\"
lemma each: \"Ex x #i. Secret(x)@i\"",
        &[Verdict::Verified, Verdict::Falsified],
    ),
];

fn listed_cases() -> &'static [(&'static str, &'static [Verdict])] {
    &LISTED
}

#[test]
fn lemmas_on_all_traces_that_were_shown_are_taken(rt: HostRuntime) -> Result<(), Fail> {
    let alloc = rt.alloc();
    for (lemmas, verdicts) in listed_cases().iter() {
        let text = format!(in alloc; "{LOOPING}{lemmas}\nend\n")?;
        assert_verdicts(&rt, alloc, 60, text.as_str(), *verdicts)?;
    }
    Ok(())
}

/// A restriction behind the lemmas.
const ROOTED: &str = "theory T begin
rule First: [ ] --[ A('c') ]-> [ ]
rule Other: [ ] --[ B('c') ]-> [ ]
lemma none [reuse]: \"All #i. C('c')@i ==> F\"
lemma both: exists-trace \"Ex #i. A('c')@i\"
restriction some: \"Ex #i. B('c')@i\"
end
";

/// A proof begins with the restrictions, wherever they stand, behind them what is taken, and what is sought last: so B is looked for first, and A stands
/// behind the lemma that is taken.
const ROOTED_WRITTEN: &str = "theory T begin
rule First: [ ] --[ A('c') ]-> [ ]
rule Other: [ ] --[ B('c') ]-> [ ]
lemma none [reuse]: \"All #i. C('c')@i ==> F\"
simplify
solve( action 0 )
  case Other
  by solve( action 0 )
qed

lemma both: exists-trace \"Ex #i. A('c')@i\"
simplify
solve( action 0 )
  case Other
  solve( action 1 )
    case First
    SOLVED
  qed
qed

restriction some: \"Ex #i. B('c')@i\"
end
/*
none (all-traces): verified (3 steps)
both (exists-trace): verified (4 steps)
execution:
rule Other:
rule First:
trace:
B('c')
A('c')
end of trace
*/
";

#[test]
fn proofs_begin_with_restrictions(rt: HostRuntime) -> Result<(), Fail> {
    let alloc = rt.alloc();
    assert_answer(&rt, alloc, "prove", ROOTED, 0, ROOTED_WRITTEN)?;
    let (_, comment) = ROOTED_WRITTEN.split_once("\nend\n/*\n").ok_or("summary")?;
    let (summary, _) = comment.split_once("*/\n").ok_or("end of the summary")?;
    assert_answer(&rt, alloc, "check", ROOTED_WRITTEN, 0, summary)?;
    let again = written_by(alloc, "prove", ROOTED_WRITTEN)?;
    assert_eq!(rt; again.as_str(), ROOTED_WRITTEN);
    Ok(())
}

/// The proof of the lemma that decides.
const KEPT_PROOF: &str =
    "simplify solve( action 0 ) case Make solve( action 0 ) case Send solve( know 4 ) case own by contradiction qed qed qed";

/// That of the other one: the formula of the former stands before the actions, and contradicts them once their steps are there.
const BY_KEPT: &str =
    "simplify solve( action 1 ) case Make solve( action 1 ) case Send by contradiction qed qed";

/// The same where it isn't taken, so that the actions are the first formulas. Then nothing is contradicted.
const ALONE: &str =
    "simplify solve( action 0 ) case Make solve( action 0 ) case Send by contradiction qed qed";

/// What stands from the lemma that decides on, with its proof.
#[derive(Clone, Copy)]
struct Checked {
    /// its attributes
    first: &'static str,
    /// its proof
    decides: &'static str,
    /// the attributes of the lemma behind it
    second: &'static str,
    /// the proof of that
    proof: &'static str,
    /// the status of the check
    status: u8,
    /// what is said of the first
    said: &'static str,
    /// what is said of the second
    told: &'static str,
}

/// The first is taken: its proof stands in the text, and is right.
const TAKEN: Checked = Checked {
    first: "[reuse]",
    decides: KEPT_PROOF,
    second: "",
    proof: BY_KEPT,
    status: 0,
    said: "verified (5 steps)",
    told: "verified (4 steps)",
};

/// It isn't: the second action is none of Make.
const UNMARKED: Checked = Checked {
    first: "",
    status: 3,
    told: "rejected at step 2 (cases)",
    ..TAKEN
};

/// Its proof is open.
const OPEN: Checked = Checked {
    decides: "by sorry",
    status: 3,
    said: "analysis incomplete (0 steps)",
    told: "rejected at step 2 (cases)",
    ..TAKEN
};

static CHECKED: [Checked; 10] = [
    TAKEN,
    UNMARKED,
    OPEN,
    // without a proof it is open too
    Checked {
        decides: "",
        ..OPEN
    },
    // a leaf is
    Checked {
        decides: "simplify solve( action 0 ) case Make by sorry qed",
        said: "analysis incomplete (2 steps)",
        ..OPEN
    },
    // its proof is wrong
    Checked {
        decides: "by contradiction",
        said: "rejected at step 1 (instance)",
        ..OPEN
    },
    // it is hidden
    Checked {
        first: "[reuse]",
        second: "[hide_lemma=kept]",
        ..UNMARKED
    },
    Checked {
        second: "[hide_lemma=both]",
        ..TAKEN
    },
    // where it is taken, its formula is the first, and no action
    Checked {
        proof: ALONE,
        status: 3,
        told: "rejected at step 2 (instance)",
        ..TAKEN
    },
    // where it isn't, the last step is none
    Checked {
        proof: ALONE,
        told: "rejected at step 4 (instance)",
        ..OPEN
    },
];

fn checked_cases() -> &'static [Checked] {
    &CHECKED
}

/// Both lemmas with their proofs.
fn checked_text(alloc: Global, checked: Checked) -> Result<String, AllocError> {
    let Checked {
        first,
        decides,
        second,
        proof,
        status: _,
        said: _,
        told: _,
    } = checked;
    format!(in alloc;
        "{LOOPING}lemma kept {first}: {KEPT}\n{decides}\nlemma both {second}: {BOTH}\n{proof}\nend\n"
    )
}

#[test]
fn lemmas_whose_proofs_stand_in_the_text_are_taken(rt: HostRuntime) -> Result<(), Fail> {
    let alloc = rt.alloc();
    for checked in checked_cases().iter() {
        let text = checked_text(alloc, *checked)?;
        let said = checked.said;
        let told = checked.told;
        let answer = format!(in alloc; "kept (all-traces): {said}\nboth (all-traces): {told}\n")?;
        assert_answer(
            &rt,
            alloc,
            "check",
            text.as_str(),
            checked.status,
            answer.as_str(),
        )?;
    }
    Ok(())
}

/// Lemmas over the same rules that aren't taken, with their proofs, the status, and what is said of them.
static NOT_TAKEN: [(&str, u8, &str); 2] = [
    // there is a secret: were the first taken, its formula would stand before the action
    (
        "lemma none [reuse]: \"All x #i. Secret(x)@i ==> F\" simplify solve( action 0 ) case Make SOLVED qed
lemma never: \"All x #i. Secret(x)@i ==> F\" simplify solve( action 0 ) case Make SOLVED qed",
        1,
        "none (all-traces): falsified - found trace (3 steps)
execution:
fresh ~n1
rule Make: k = ~n1
trace:
Secret(~n1)
end of trace
never (all-traces): falsified - found trace (3 steps)
execution:
fresh ~n1
rule Make: k = ~n1
trace:
Secret(~n1)
end of trace
",
    ),
    // the execution without steps has none: were the first taken, there would be an action, which contradicts that there is none
    (
        "lemma some [reuse]: exists-trace \"Ex x #i. Secret(x)@i\" simplify solve( action 0 ) case Make SOLVED qed
lemma each: \"Ex x #i. Secret(x)@i\" simplify solve( action 0 ) case Make by contradiction qed",
        3,
        "some (exists-trace): verified (3 steps)
execution:
fresh ~n1
rule Make: k = ~n1
trace:
Secret(~n1)
end of trace
each (all-traces): rejected at step 1 (instance)
",
    ),
];

fn not_taken_cases() -> &'static [(&'static str, u8, &'static str)] {
    &NOT_TAKEN
}

#[test]
fn other_lemmas_are_not_taken(rt: HostRuntime) -> Result<(), Fail> {
    let alloc = rt.alloc();
    for (lemmas, status, answer) in not_taken_cases().iter() {
        let text = format!(in alloc; "{LOOPING}{lemmas}\nend\n")?;
        assert_answer(&rt, alloc, "check", text.as_str(), *status, answer)?;
    }
    Ok(())
}
