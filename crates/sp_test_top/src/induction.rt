// Induction over traces: which proofs begin with it, loops that are shown by it and lemmas that it can't show, and where a proof may have the move. The verdicts
// are argued by hand, a theory at a time.

use crate::calls::{assert_answer, summary_under, written_by};
use crate::reused::assert_verdicts;
use sp_analysis::Verdict::{Falsified, Incomplete, Verified};
use sp_analysis::{Attempt, Command, Verdict};
use sp_pose::Reply;
use std::alloc::{AllocError, Global};
use std::process::Abort;
use std::test::Fail;

/// A token goes round and round.
const LOOP: &str = "theory L begin
rule Start: [ Fr(~x) ] --[ S(~x) ]-> [ T(~x) ]
rule Loop: [ T(x) ] --[ L(x) ]-> [ T(x) ]
";

/// Who holds it got it from a step of Start.
const ORIGIN: &str = "\"All x #i. L(x)@i ==> Ex #j. S(x)@j & #j < #i\"";

/// Its proof. Over the empty trace there is no step of Loop, so the action has no case. Else the newest step of Loop whose token has no origin is looked at. Either
/// it is the last step, and then the one that left the token isn't Start, by what is denied, nor Loop, since that would be the last one too, or have its token
/// from Start before it; or it isn't the last step, and then it has an origin.
const PROVED: &str = "induction
  case empty_trace
  by solve( action 0 )
next
  case non_empty_trace
  solve( action 0 )
    case Loop
    solve( or 2 )
      case case_1
      solve( premise 1 0 )
        case Start
        by contradiction
      next
        case Loop
        solve( or 2 )
          case case_1
          by contradiction
        next
          case case_2
          solve( action 2 )
            case Start
            by contradiction
          qed
        qed
      qed
    next
      case case_2
      solve( action 2 )
        case Start
        by contradiction
      qed
    qed
  qed
qed
";

/// The last lines of what is written of it without the mark: steps of Loop are put before steps of Loop as long as there are moves left.
const OPEN: &str = "/*\norigin (all-traces): analysis incomplete (50 steps)\n*/\n";

/// Asserts that fifty moves don't show it without the mark.
fn assert_open(rt: &impl Abort, alloc: Global) -> Result<(), Fail> {
    let text = format!(in alloc; "{LOOP}lemma origin: {ORIGIN}\nend\n")?;
    let reply = sp_analysis::answer(alloc, Command::Prove(50), None, text.as_bytes())?;
    let Reply::Done(Attempt::Done(answer)) = reply else {
        return Err("no lemma is tried".into());
    };
    let written = str::from_utf8(answer.written.as_slice())?;
    assert!(rt; written.ends_with(OPEN), "{written}");
    Ok(())
}

#[test]
fn loops_are_shown_by_induction(rt: HostRuntime) -> Result<(), Fail> {
    let alloc = rt.alloc();
    let lemma = format!(in alloc; "{LOOP}lemma origin [use_induction]: {ORIGIN}\n")?;
    let text = format!(in alloc; "{lemma}end\n")?;
    let told = "origin (all-traces): verified (12 steps)\n";
    let written = format!(in alloc; "{lemma}{PROVED}\nend\n/*\n{told}*/\n")?;
    assert_answer(&rt, alloc, "prove", text.as_str(), 0, written.as_str())?;
    assert_answer(&rt, alloc, "check", written.as_str(), 0, told)?;
    let again = written_by(alloc, "prove", written.as_str())?;
    assert_eq!(rt; again.as_str(), written.as_str());
    assert_open(&rt, alloc)?;
    Ok(())
}

/// The attributes of that lemma and of one behind it that says less, and what is said of both by proofs of at most twelve moves. By the former the latter has a proof
/// of four: with the step of Loop comes one of Start.
static MARKED: [(&str, &str, [Verdict; 2]); 10] = [
    ("[use_induction, reuse]", "", [Verified, Verified]),
    // a lemma on where messages come from is shown by induction, and taken
    ("[sources]", "", [Verified, Verified]),
    ("[typing]", "", [Verified, Verified]),
    ("[sources]", "[hide_lemma=origin]", [Verified, Incomplete]),
    // one that is shown by induction isn't taken for that alone
    ("[use_induction]", "", [Verified, Incomplete]),
    ("[heuristic=s, use_induction]", "", [Verified, Incomplete]),
    // but the other may be shown in the same way
    ("[use_induction]", "[use_induction]", [Verified, Verified]),
    // no other mark makes a proof begin so
    ("", "", [Incomplete, Incomplete]),
    ("[reuse]", "", [Incomplete, Incomplete]),
    ("[heuristic=s]", "[sources]", [Incomplete, Verified]),
];

fn marked() -> &'static [(&'static str, &'static str, [Verdict; 2])] {
    &MARKED
}

/// Both lemmas with these attributes.
fn both(alloc: Global, first: &str, second: &str) -> Result<String, AllocError> {
    format!(in alloc;
        "{LOOP}lemma origin {first}: {ORIGIN}\nlemma second {second}: \"All x #i. L(x)@i ==> Ex #j. S(x)@j\"\nend\n"
    )
}

#[test]
fn marked_lemmas_are_shown_by_induction(rt: HostRuntime) -> Result<(), Fail> {
    let alloc = rt.alloc();
    for (first, second, verdicts) in marked().iter() {
        let text = both(alloc, *first, *second)?;
        assert_verdicts(&rt, alloc, 12, text.as_str(), verdicts.as_slice())?;
    }
    // each takes twelve moves where nothing is taken
    let text = both(alloc, "[use_induction, reuse]", "")?;
    assert_verdicts(&rt, alloc, 11, text.as_str(), &[Incomplete, Incomplete])?;
    Ok(())
}

/// Items, and what is said of the lemmas among them by proofs of at most thirty moves.
static LISTED: [(&str, &[Verdict]); 7] = [
    // What a step of Count finds was left by Start, or by a step of Count before it, of which it is so by the hypothesis. The third step of Count finds the third number,
    // and none before it. Neither rule leaves `one`. The execution without steps breaks the fifth lemma. Without the mark steps are put before steps.
    (
        "functions: s/1
rule Start: [ Fr(~x) ] --[ Start(~x) ]-> [ At(~x, 'zero') ]
rule Count: [ At(x, n) ] --[ Count(x, n) ]-> [ At(x, s(n)) ]
lemma started [use_induction]: \"All x n #i. Count(x, n)@i ==> Ex #j. Start(x)@j & #j < #i\"
lemma zero [use_induction]: \"All x n #i. Count(x, n)@i ==> Ex #j. Count(x, 'zero')@j\"
lemma third [use_induction]: \"All x #i. Count(x, s(s('zero')))@i ==> F\"
lemma other [use_induction]: \"All x #i. Count(x, 'one')@i ==> F\"
lemma some [use_induction]: \"Ex x #i. Start(x)@i\"
lemma unmarked: \"All x n #i. Count(x, n)@i ==> Ex #j. Start(x)@j & #j < #i\"",
        &[
            Verified, Verified, Falsified, Verified, Falsified, Incomplete,
        ],
    ),
    // The key that a step of Use finds was left by one of the other rules, or by a step of Use before it. It needn't be the one that was made.
    (
        "rule Make: [ Fr(~d), Fr(~k) ] --[ Made(~d, ~k) ]-> [ Key(~d, ~k) ]
rule Refresh: [ Key(d, k), Fr(~n) ] --[ Refreshed(d, ~n) ]-> [ Key(d, ~n) ]
rule Use: [ Key(d, k) ] --[ Used(d, k) ]-> [ Key(d, k) ]
lemma held [use_induction]: \"All d k #i. Used(d, k)@i ==> (Ex #j. Made(d, k)@j & #j < #i) | (Ex #j. Refreshed(d, k)@j & #j < #i)\"
lemma first [use_induction]: \"All d k #i. Used(d, k)@i ==> Ex #j. Made(d, k)@j\"",
        &[Verified, Falsified],
    ),
    // What is shown of a chain of hashes was left by Seed, or by a step of Link, which has its seed by what is taken. Without that links are put before links, also
    // under its own hypothesis, which doesn't speak of links.
    (
        "builtins: hashing
rule Seed: [ Fr(~s) ] --[ Seed(~s) ]-> [ Chain(~s, ~s) ]
rule Link: [ Chain(s, x) ] --[ Link(s) ]-> [ Chain(s, h(x)) ]
rule Show: [ Chain(s, x) ] --[ Show(s) ]-> [ Out(x) ]
lemma seeded [use_induction, reuse]: \"All s #i. Link(s)@i ==> Ex #j. Seed(s)@j & #j < #i\"
lemma shown: \"All s #i. Show(s)@i ==> Ex #j. Seed(s)@j & #j < #i\"
lemma alone [hide_lemma=seeded, use_induction]: \"All s #i. Show(s)@i ==> Ex #j. Seed(s)@j & #j < #i\"",
        &[Verified, Verified, Incomplete],
    ),
    // What is taken is so of the last entry too: the third lemma is shown by the second one of the same step. Were the second a part of the hypothesis, it would speak
    // of steps before the last one alone, and of these it says nothing, since they are none of End.
    (
        "rule Start: [ Fr(~x) ] --[ S(~x) ]-> [ T(~x) ]
rule Loop: [ T(x) ] --[ L(x) ]-> [ T(x) ]
rule End: [ T(x) ] --[ L(x), E(x), G(x) ]-> [ ]
lemma origin [use_induction, reuse]: \"All x #i. L(x)@i ==> Ex #j. S(x)@j & #j < #i\"
lemma ended [reuse]: \"All x #i. E(x)@i ==> Ex #j. S(x)@j & #j < #i\"
lemma gone [use_induction, hide_lemma=origin]: \"All x #i. G(x)@i ==> Ex #j. S(x)@j & #j < #i\"
lemma alone [use_induction, hide_lemma=origin, hide_lemma=ended]: \"All x #i. G(x)@i ==> Ex #j. S(x)@j & #j < #i\"",
        &[Verified, Verified, Verified, Incomplete],
    ),
    // Where a restriction looks ahead, the hypothesis is that a shorter trace breaks it or meets the lemma. One that breaks it says nothing of the loop.
    (
        "rule Start: [ Fr(~x) ] --[ S(~x) ]-> [ T(~x) ]
rule Loop: [ T(x) ] --[ L(x) ]-> [ T(x) ]
restriction ahead: \"All x #i. S(x)@i ==> Ex #j. L(x)@j & #i < #j\"
lemma origin [use_induction]: \"All x #i. L(x)@i ==> Ex #j. S(x)@j & #j < #i\"",
        &[Incomplete],
    ),
    // One that each prefix meets too leaves the hypothesis as it is. It holds by itself, so it allows Start.
    (
        "rule Start: [ Fr(~x) ] --[ S(~x) ]-> [ T(~x) ]
rule Loop: [ T(x) ] --[ L(x) ]-> [ T(x) ]
restriction behind: \"All x #i #j. S(x)@i & L(x)@j ==> #i < #j\"
lemma origin [use_induction]: \"All x #i. L(x)@i ==> Ex #j. S(x)@j & #j < #i\"
lemma none [use_induction]: \"All x #i. S(x)@i ==> F\"",
        &[Verified, Falsified],
    ),
    // On some trace the mark says nothing, and the lemma isn't taken: the execution without steps has no start.
    (
        "rule Start: [ Fr(~x) ] --[ S(~x) ]-> [ ]
lemma some [sources]: exists-trace \"Ex x #i. S(x)@i\"
lemma each: \"Ex x #i. S(x)@i\"",
        &[Verified, Falsified],
    ),
];

fn listed() -> &'static [(&'static str, &'static [Verdict])] {
    &LISTED
}

#[test]
fn induction_shows_what_is_so(rt: HostRuntime) -> Result<(), Fail> {
    let alloc = rt.alloc();
    for (items, verdicts) in listed().iter() {
        let text = format!(in alloc; "theory L begin\n{items}\nend\n")?;
        assert_verdicts(&rt, alloc, 30, text.as_str(), *verdicts)?;
    }
    Ok(())
}

/// What was started is stopped once, or isn't.
const STOPPING: &str = "rule Start: [ Fr(~x) ] --[ Start(~x) ]-> [ S(~x) ]
rule Stop: [ S(x) ] --[ Stop(x) ]-> [ ]
";

/// Restrictions that Start and Stop meet, but Start alone doesn't. Were one of them supposed of a prefix, something would have been stopped there, which was started
/// before the last entry; and the hypothesis is that nothing was. So it would be shown that nothing is ever started.
static AHEAD: [&str; 5] = [
    "All x #i. Start(x)@i ==> Ex #j. Stop(x)@j & #i < #j",
    "Ex x #i. Stop(x)@i",
    "not (All x #i. Stop(x)@i ==> F)",
    "(All x #i. Start(x)@i ==> F) | (Ex x #i. Stop(x)@i)",
    "(All x y #i #j. Start(x)@i & Start(y)@j ==> x = y) & (Ex x #i. Stop(x)@i)",
];

fn ahead() -> &'static [&'static str] {
    &AHEAD
}

/// Asserts that something is started under the restriction.
fn assert_started(rt: &impl Abort, alloc: Global, restriction: &str) -> Result<(), Fail> {
    let items = format!(in alloc; "{STOPPING}restriction r: \"{restriction}\"\n")?;
    let lemma = "none [use_induction]: \"All x #i. Start(x)@i ==> F\"";
    let summary = summary_under(rt, alloc, items.as_str(), "r (restriction): met\n", lemma)?;
    let told = "none (all-traces): falsified - found trace";
    assert!(rt; summary.as_str().starts_with(told), "{items}: {summary}");
    Ok(())
}

#[test]
fn restrictions_that_look_ahead_are_not_supposed_of_prefixes(rt: HostRuntime) -> Result<(), Fail> {
    let alloc = rt.alloc();
    for restriction in ahead() {
        assert_started(&rt, alloc, *restriction)?;
    }
    Ok(())
}

/// What is changed in the proof of the first lemma, what stands there then, and where that is rejected.
static REJECTED: [(&str, &str, &str); 10] = [
    // a case is left out, or has another name
    (
        "  case empty_trace\n  by solve( action 0 )\nnext\n",
        "",
        "1 (cases)",
    ),
    ("empty_trace", "empty", "1 (cases)"),
    // the move is another one
    ("induction", "solve( x )", "1 (move)"),
    ("induction", "solve( more 1 )", "1 (move)"),
    ("induction", "solve( chain 5 )", "1 (instance)"),
    // A proof has the move where it begins, and nowhere else: not in its own cases, nor behind another move.
    ("by solve( action 0 )", "by induction", "2 (instance)"),
    ("  solve( action 0 )", "  induction", "3 (instance)"),
    ("induction", "simplify induction", "2 (instance)"),
    ("solve( or 2 )", "induction", "4 (instance)"),
    ("solve( premise 1 0 )", "induction", "5 (instance)"),
];

fn rejected() -> &'static [(&'static str, &'static str, &'static str)] {
    &REJECTED
}

/// The lemma without a mark, with its proof in which this is changed.
fn changed(alloc: Global, old: &str, new: &str) -> Result<String, Fail> {
    let (before, behind) = PROVED.split_once(old).ok_or("what is changed")?;
    let text = format!(in alloc; "{LOOP}lemma origin: {ORIGIN}\n{before}{new}{behind}end\n")?;
    Ok(text)
}

#[test]
fn proofs_begin_with_induction_alone(rt: HostRuntime) -> Result<(), Fail> {
    let alloc = rt.alloc();
    for (old, new, told) in rejected().iter() {
        let text = changed(alloc, *old, *new)?;
        let answer = format!(in alloc; "origin (all-traces): rejected at step {told}\n")?;
        assert_answer(&rt, alloc, "check", text.as_str(), 3, answer.as_str())?;
    }
    let text = changed(alloc, "by contradiction", "by sorry")?;
    let answer = "origin (all-traces): analysis incomplete (11 steps)\n";
    assert_answer(&rt, alloc, "check", text.as_str(), 2, answer)?;
    Ok(())
}

/// Lemmas over the same rules with their proofs, the status of the check, and the answer.
static CHECKED: [(&str, u8, &str); 5] = [
    // both cases, but the other one first
    (
        "origin [use_induction]: \"All x #i. L(x)@i ==> Ex #j. S(x)@j & #j < #i\" induction
case non_empty_trace solve( action 0 ) case Loop solve( or 2 )
  case case_1 solve( premise 1 0 ) case Start by contradiction next case Loop solve( or 2 )
    case case_1 by contradiction next case case_2 solve( action 2 ) case Start by contradiction qed qed qed
  next case case_2 solve( action 2 ) case Start by contradiction qed qed qed
next case empty_trace by solve( action 0 ) qed",
        3,
        "origin (all-traces): rejected at step 1 (cases)\n",
    ),
    // A lemma on some trace isn't shown by induction, whatever its mark. A proof of one on all traces with the mark may begin otherwise.
    (
        "some [use_induction]: exists-trace \"Ex x #i. S(x)@i\" induction case empty_trace by sorry next case non_empty_trace by sorry qed",
        3,
        "some (exists-trace): rejected at step 1 (instance)\n",
    ),
    (
        "none [use_induction]: \"All x #i. S(x)@i ==> F\" simplify solve( action 0 ) case Start by sorry qed",
        2,
        "none (all-traces): analysis incomplete (2 steps)\n",
    ),
    // The step of Start breaks it, and is the last one. Did the hypothesis speak of the last entry too, there were none.
    (
        "none: \"All x #i. S(x)@i ==> F\" induction case empty_trace by solve( action 0 ) next case non_empty_trace solve( action 0 ) case Start SOLVED qed qed",
        1,
        "none (all-traces): falsified - found trace (4 steps)\nexecution:\nfresh ~n1\nrule Start: x = ~n1\ntrace:\nS(~n1)\nend of trace\n",
    ),
    (
        "none: \"All x #i. S(x)@i ==> F\" induction case empty_trace by solve( action 0 ) next case non_empty_trace solve( action 0 ) case Start by contradiction qed qed",
        3,
        "none (all-traces): rejected at step 4 (instance)\n",
    ),
];

fn checked() -> &'static [(&'static str, u8, &'static str)] {
    &CHECKED
}

#[test]
fn proofs_by_induction_are_checked(rt: HostRuntime) -> Result<(), Fail> {
    let alloc = rt.alloc();
    for (lemma, status, answer) in checked().iter() {
        let text = format!(in alloc; "{LOOP}lemma {lemma}\nend\n")?;
        assert_answer(&rt, alloc, "check", text.as_str(), *status, answer)?;
    }
    Ok(())
}
