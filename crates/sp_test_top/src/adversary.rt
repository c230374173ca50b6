// Theories in which the adversary takes part: an attack that is replayed and looked for, and where the adversary's facts may be named.

use crate::calls::{assert_answer, written_by};
use sp_analysis::{Attempt, Command, Verdict};
use sp_pose::Reply;
use std::alloc::Global;
use std::test::Fail;

/// Needham and Schroeder's public key protocol.
const NEEDHAM_SCHROEDER: &str = "theory NS begin
builtins: asymmetric-encryption
rule Key: [ Fr(~k) ] --> [ !Sk($A, ~k), !Pk($A, pk(~k)), Out(pk(~k)) ]
rule Reveal: [ !Sk(A, k) ] --[ Rev(A) ]-> [ Out(k) ]
rule I1: [ Fr(~na), !Pk($B, pkB) ] --> [ Out(aenc(<'1', ~na, $A>, pkB)), St_I($A, $B, ~na) ]
rule R1: [ !Sk($B, kb), !Pk($A, pkA), In(aenc(<'1', na, $A>, pk(kb))), Fr(~nb) ] --> [ Out(aenc(<'2', na, ~nb>, pkA)), St_R($A, $B, na, ~nb) ]
rule I2: [ St_I($A, $B, ~na), !Sk($A, ka), !Pk($B, pkB), In(aenc(<'2', ~na, nb>, pk(ka))) ] --[ Running($A, $B, nb) ]-> [ Out(aenc(<'3', nb>, pkB)) ]
rule R2: [ St_R($A, $B, na, ~nb), !Sk($B, kb), In(aenc(<'3', ~nb>, pk(kb))) ] --[ Commit($B, $A, ~nb) ]-> [ ]
lemma agree: \"All B A n #i. Commit(B, A, n)@i & not (Ex #r. Rev(A)@r) & not (Ex #s. Rev(B)@s) ==> (Ex #j. Running(A, B, n)@j)\"
end
";

/// Lowe's attack on it.
const LOWE: &str = "fresh ~n1
rule Key: k = ~n1, A = 'A'
fresh ~n2
rule Key: k = ~n2, A = 'B'
fresh ~n3
rule Key: k = ~n3, A = 'C'
rule Reveal: A = 'C', k = ~n3
out ~n3
fresh ~n4
rule I1: na = ~n4, B = 'C', pkB = pk(~n3), A = 'A'
out aenc(<'1', ~n4, 'A'>, pk(~n3))
make adec(aenc(<'1', ~n4, 'A'>, pk(~n3)), ~n3)
out pk(~n2)
make aenc(<'1', ~n4, 'A'>, pk(~n2))
in aenc(<'1', ~n4, 'A'>, pk(~n2))
fresh ~n5
rule R1: B = 'B', kb = ~n2, A = 'A', pkA = pk(~n1), na = ~n4, nb = ~n5
out aenc(<'2', ~n4, ~n5>, pk(~n1))
in aenc(<'2', ~n4, ~n5>, pk(~n1))
rule I2: A = 'A', B = 'C', na = ~n4, ka = ~n1, pkB = pk(~n3), nb = ~n5
out aenc(<'3', ~n5>, pk(~n3))
make adec(aenc(<'3', ~n5>, pk(~n3)), ~n3)
make aenc(<'3', ~n5>, pk(~n2))
in aenc(<'3', ~n5>, pk(~n2))
rule R2: A = 'A', B = 'B', na = ~n4, nb = ~n5, kb = ~n2
";

/// What the attack shows, and which lemma it breaks.
const SEEN: &str = "trace:
Rev('C')
K(aenc(<'1', ~n4, 'A'>, pk(~n2)))
K(aenc(<'2', ~n4, ~n5>, pk(~n1)))
Running('A', 'C', ~n5)
K(aenc(<'3', ~n5>, pk(~n2)))
Commit('B', 'A', ~n5)
end of trace
agree (all-traces): broken
";

/// Where the responder doesn't name itself, what is put in for the initiator, and that with the name of another responder.
const SECOND: &str = "aenc(<'2', ~n4, ~n5>, pk(~n1))";

const SECOND_NAMED: &str = "aenc(<'2', ~n4, ~n5, 'B'>, pk(~n1))";

/// The protocol with the responder's name in the second message.
fn repaired_protocol(alloc: Global) -> Result<String, Fail> {
    let sent = NEEDHAM_SCHROEDER.replace(alloc, "<'2', na, ~nb>", "<'2', na, ~nb, $B>")?;
    let taken = sent
        .as_str()
        .replace(alloc, "<'2', ~na, nb>", "<'2', ~na, nb, $B>")?;
    Ok(taken)
}

#[test]
fn attacks_are_replayed(rt: HostRuntime) -> Result<(), Fail> {
    let alloc = rt.alloc();
    let attack = format!(in alloc; "{NEEDHAM_SCHROEDER}{LOWE}")?;
    assert_answer(&rt, alloc, "replay", attack.as_str(), 0, SEEN)?;
    let repaired = repaired_protocol(alloc)?;
    let as_it_was = format!(in alloc; "{repaired}{LOWE}")?;
    assert_answer(
        &rt,
        alloc,
        "replay",
        as_it_was.as_str(),
        3,
        "step 18 refused (3)\n",
    )?;
    let named = LOWE.replace(alloc, SECOND, SECOND_NAMED)?;
    let told = format!(in alloc; "{repaired}{named}")?;
    assert_answer(
        &rt,
        alloc,
        "replay",
        told.as_str(),
        3,
        "step 20 refused (3)\n",
    )?;
    Ok(())
}

/// What a proof of so many moves says of the only lemma of the text.
fn verdict_within(alloc: Global, moves: u64, text: &str) -> Result<Verdict, Fail> {
    let reply = sp_analysis::answer(alloc, Command::Prove(moves), None, text.as_bytes())?;
    let Reply::Done(Attempt::Done(answer)) = reply else {
        return Err("no lemma is tried".into());
    };
    let verdict = answer.verdicts.first().ok_or("verdict")?;
    Ok(*verdict)
}

/// There is an attack on the protocol, so the lemma is never verified; there is none on the repaired one, so there it is never falsified. So few moves
/// needn't decide either.
#[test]
fn attacks_are_never_overlooked_or_invented(rt: HostRuntime) -> Result<(), Fail> {
    let alloc = rt.alloc();
    let original = verdict_within(alloc, 200, NEEDHAM_SCHROEDER)?;
    assert!(rt; original != Verdict::Verified);
    let repaired = repaired_protocol(alloc)?;
    let kept = verdict_within(alloc, 200, repaired.as_str())?;
    assert!(rt; kept != Verdict::Falsified);
    Ok(())
}

/// Items, what is written of their rules, how the summary begins that is written of their lemma, if they have one, and what an execution without steps says
/// of it.
static DEALING: [(&str, &str, &str, &str); 8] = [
    (
        "rule R: [ In(x) ] --> [ ]",
        "rule R: 1 forms\n  [ In(v0) ] --[ ]-> [ ]\n",
        "*/\n",
        "",
    ),
    (
        "rule R: [ ] --> [ Out('c') ]",
        "rule R: 1 forms\n  [ ] --[ ]-> [ Out('c') ]\n",
        "*/\n",
        "",
    ),
    (
        "rule R: [ ] --[ In() ]-> [ ]",
        "rule R: 1 forms\n  [ ] --[ In() ]-> [ ]\n",
        "*/\n",
        "",
    ),
    (
        "rule R: [ ] --[ A(), Out('c', 'd') ]-> [ ]",
        "rule R: 1 forms\n  [ ] --[ A(), Out('c', 'd') ]-> [ ]\n",
        "*/\n",
        "",
    ),
    // the adversary sends what it knows
    (
        "lemma l: \"All x #i. K(x)@i ==> F\"",
        "",
        "l (all-traces): falsified - found trace",
        "l (all-traces): met\n",
    ),
    // no rule has these actions, and none is the adversary's
    (
        "lemma l: \"Ex x #i. A(x)@i & (All #j. K(x, x)@j ==> F)\"",
        "",
        "l (all-traces): falsified - found trace",
        "l (all-traces): broken\n",
    ),
    (
        "lemma l: \"Ex #i. KD()@i\"",
        "",
        "l (all-traces): falsified - found trace",
        "l (all-traces): broken\n",
    ),
    (
        "lemma l: \"T | not (Ex #i. Out()@i)\"",
        "",
        "l (all-traces): verified",
        "l (all-traces): met\n",
    ),
];

fn dealing_cases() -> &'static [(&'static str, &'static str, &'static str, &'static str)] {
    &DEALING
}

#[test]
fn facts_of_the_adversary_are_taken(rt: HostRuntime) -> Result<(), Fail> {
    let alloc = rt.alloc();
    for (items, forms, line, lemmas) in dealing_cases().iter() {
        let text = format!(in alloc; "theory T begin {items} end")?;
        let written = written_by(alloc, "prove", text.as_str())?;
        let (_, comment) = written.as_str().split_once("end\n/*\n").ok_or("summary")?;
        assert!(rt; comment.starts_with(*line), "{written}");
        let checked = written_by(alloc, "check", written.as_str())?;
        let summary = format!(in alloc; "{checked}*/\n")?;
        assert_eq!(rt; summary.as_str(), comment, "{written}");
        assert_answer(&rt, alloc, "variants", text.as_str(), 0, forms)?;
        let trace = format!(in alloc; "trace:\nend of trace\n{lemmas}")?;
        assert_answer(&rt, alloc, "replay", text.as_str(), 0, trace.as_str())?;
    }
    Ok(())
}

/// Items, and what each command answers.
static REFUSED: [(&str, &str); 3] = [
    // a finding is told first
    (
        "rule R: [ K(x) ] --> [ ]",
        "fatal: rule R: reserved fact K\nwarning: rule R: premise K/1 has no source\n",
    ),
    (
        "rule R: [ Out(x) ] --[ KD() ]-> [ In(x), !Out(x) ]",
        "fatal: rule R: reserved fact Out\nfatal: rule R: reserved fact KD\nfatal: rule R: reserved fact In\nwarning: rule R: premise Out/1 has no source\nwarning: fact Out has several arities or multiplicities\n",
    ),
    // nor may a rule take what is learnt
    (
        "rule R: [ KU('c') ] --> [ ]",
        "fatal: rule R: reserved fact KU\nwarning: rule R: premise KU/1 has no source\n",
    ),
];

fn refused_cases() -> &'static [(&'static str, &'static str)] {
    &REFUSED
}

#[test]
fn reserved_facts_are_refused(rt: HostRuntime) -> Result<(), Fail> {
    let alloc = rt.alloc();
    for (items, answer) in refused_cases().iter() {
        let text = format!(in alloc; "theory T begin {items} end")?;
        for command in ["prove", "check", "replay", "variants"] {
            assert_answer(&rt, alloc, command, text.as_str(), 4, answer)?;
        }
    }
    Ok(())
}
