// Lemmas over rules in whose actions and conclusions destructors stand. The verdicts are argued for by hand.

use crate::calls::{assert_answer, words_on_text};
use sp_io::{MemLibrary, MemSink};
use sp_top::run;
use std::alloc::Global;
use std::test::Fail;

/// Messages that are signed, and checked by anyone with the key.
const SIGNED: &str = "builtins: signing
rule Key: [ Fr(~k) ] --> [ !Pk(pk(~k)), !Sk(~k) ]
rule Sign: [ !Sk(k), Fr(~m) ] --[ Signed(~m) ]-> [ N(<~m, sign(~m, k)>) ]
rule Check: [ !Pk(p), N(<m, s>) ] --[ Eq(verify(s, m, p), true), Accepted(m) ]-> [ ]
";

/// Names that pass for signatures.
const UNSIGNED: &str = "builtins: signing
rule Key: [ Fr(~k) ] --> [ !Pk(pk(~k)) ]
rule Make: [ Fr(~m), Fr(~s) ] --> [ M(~m, ~s) ]
rule Check: [ !Pk(p), M(m, s) ] --[ Eq(verify(s, m, p), true) ]-> [ ]
";

/// Runs that share a key by a persistent fact.
const SHARED: &str = "builtins: symmetric-encryption
rule Share: [ Fr(~k) ] --> [ !Shared(~k) ]
rule Send: [ !Shared(k), Fr(~m) ] --[ Sent(~m) ]-> [ N(senc(~m, k)) ]
rule Receive: [ !Shared(k), N(x) ] --[ Got(sdec(x, k)) ]-> [ ]
";

/// One answer for both parts of a pair, in a conclusion.
const PARTS: &str = "rule Make: [ Fr(~x) ] --> [ P(<~x, 'c'>) ]
rule Open: [ P(y) ] --> [ Q(fst(y), snd(y)) ]
rule Show: [ Q(x, y) ] --[ Shown(x, y) ]-> [ ]
";

/// The rules, a lemma over them, and what is written of it.
static TRIED: [(&str, &str, &str); 10] = [
    // the key that checks is that with which the message was signed
    (
        SIGNED,
        "lemma passes: exists-trace \"Ex m #i. Accepted(m)@i & Eq(true, true)@i\"",
        "passes (exists-trace): verified (7 steps)
execution:
fresh ~n1
rule Key: k = ~n1
fresh ~n2
rule Sign: k = ~n1, m = ~n2
rule Check: p = pk(~n1), m = ~n2, s = sign(~n2, ~n1)
trace:
Signed(~n2)
Eq(true, true), Accepted(~n2)
end of trace
",
    ),
    (
        SIGNED,
        "lemma signed: \"All m #i. Accepted(m)@i & Eq(true, true)@i ==> (Ex #j. Signed(m)@j & #j < #i)\"",
        "signed (all-traces): verified",
    ),
    // with the key of another the check fails, and then its result isn't true
    (
        SIGNED,
        "lemma always: \"All m #i. Accepted(m)@i ==> Eq(true, true)@i\"",
        "always (all-traces): falsified - found trace",
    ),
    // a fresh name is no signature
    (
        UNSIGNED,
        "lemma never: \"not (Ex #i. Eq(true, true)@i)\"",
        "never (all-traces): verified",
    ),
    // but the check is done
    (
        UNSIGNED,
        "lemma done: exists-trace \"Ex x #i. Eq(x, true)@i\"",
        "done (exists-trace): verified (6 steps)
execution:
fresh ~n1
rule Key: k = ~n1
fresh ~n2
fresh ~n3
rule Make: m = ~n2, s = ~n3
rule Check: p = pk(~n1), m = ~n2, s = ~n3
trace:
Eq(verify(~n3, ~n2, pk(~n1)), true)
end of trace
",
    ),
    // what is opened to a name was sent
    (
        SHARED,
        "lemma sent: \"All ~m #i. Got(~m)@i ==> (Ex #j. Sent(~m)@j)\"",
        "sent (all-traces): verified",
    ),
    // what is opened with another key is no name
    (
        SHARED,
        "lemma open: \"All m #i. Got(m)@i ==> (Ex #j. Sent(m)@j)\"",
        "open (all-traces): falsified - found trace",
    ),
    (
        SHARED,
        "lemma two: exists-trace \"Ex ~m ~n #i #j. Got(~m)@i & Got(~n)@j & not (~m = ~n)\"",
        "two (exists-trace): verified",
    ),
    // the parts of a pair that was made
    (
        PARTS,
        "lemma parts: \"All x y #i. Shown(x, y)@i ==> y = 'c'\"",
        "parts (all-traces): verified",
    ),
    (
        PARTS,
        "lemma twice: \"All x #i #j. Shown(x, 'c')@i & Shown(x, 'c')@j ==> #i = #j\"",
        "twice (all-traces): verified",
    ),
];

fn tried_cases() -> &'static [(&'static str, &'static str, &'static str)] {
    &TRIED
}

#[test]
fn lemmas_over_forms_are_tried(rt: HostRuntime) -> Result<(), Fail> {
    let alloc = rt.alloc();
    for (rules, lemma, answer) in tried_cases().iter() {
        let text = format!(in alloc; "theory F begin {rules}{lemma} end")?;
        let words = words_on_text(alloc, "prove")?;
        let mut library = MemLibrary::new(alloc);
        library.put("text", text.as_bytes())?;
        let mut sink = MemSink::new(alloc, 1_000, 100_000)?;
        run(alloc, &words, &mut library, &mut sink);
        let written = str::from_utf8(sink.written())?;
        assert!(rt; written.contains(answer), "{lemma} {written}");
    }
    Ok(())
}

/// A proof whose cases are those of both forms of a rule.
const PROVED: &str = "theory F begin
builtins: symmetric-encryption
rule Share: [ Fr(~k) ] --> [ !Shared(~k) ]
rule Receive: [ !Shared(k), M(x) ] --[ Got(sdec(x, k)) ]-> [ ]
lemma none: \"not (Ex x #i. Got(x)@i)\"
simplify
solve( action 0 )
  case Receive_case_1
  solve( premise 1 0 )
    case Share
    by solve( premise 1 1 )
  qed
next
  case Receive_case_2
  solve( premise 1 0 )
    case Share
    by solve( premise 1 1 )
  qed
qed
end
";

#[test]
fn proofs_over_forms_are_checked(rt: HostRuntime) -> Result<(), Fail> {
    let alloc = rt.alloc();
    assert_answer(
        &rt,
        alloc,
        "check",
        PROVED,
        0,
        "none (all-traces): verified (6 steps)\n",
    )?;
    let left_out = PROVED.replace(
        alloc,
        "next\n  case Receive_case_2\n  solve( premise 1 0 )\n    case Share\n    by solve( premise 1 1 )\n  qed\n",
        "",
    )?;
    assert_answer(
        &rt,
        alloc,
        "check",
        left_out.as_str(),
        3,
        "none (all-traces): rejected at step 2 (cases)\n",
    )?;
    Ok(())
}
