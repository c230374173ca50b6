// Proofs that are checked: the proof of the first theory, and that proof with one thing changed; proofs of failing equations; and texts with
// proofs among other items.
// The places are counted by hand.

use crate::calls::assert_answer;
use std::test::Fail;

/// The first theory up to its lemma.
pub(crate) const THEORY: &str = "theory R1 begin
rule Make: [ Fr(~k) ] --[ A(~k) ]-> [ ]
lemma once: \"All x #i #j. A(x)@i & A(x)@j ==> #i = #j\"
";

/// The proof of its lemma.
const PROOF: &str = "simplify
solve( action 0 )
  case Make
  solve( action 0 )
    case Make
    by contradiction
  qed
qed
";

/// Proofs, the status of the check, and what is said of the lemma.
static CHECKED: [(&str, u8, &str); 13] = [
    (PROOF, 0, "verified (4 steps)"),
    ("", 2, "analysis incomplete (0 steps)"),
    ("by sorry\n", 2, "analysis incomplete (0 steps)"),
    (
        "solve( action 0 ) case Make solve( action 0 ) case Make by contradiction qed qed\n",
        3,
        "rejected at step 1 (instance)",
    ),
    (
        "simplify solve( action 0 ) case Make solve( action 1 ) case Make by contradiction qed qed\n",
        3,
        "rejected at step 3 (instance)",
    ),
    (
        "simplify solve( action 0 ) case Mak solve( action 0 ) case Make by contradiction qed qed\n",
        3,
        "rejected at step 2 (cases)",
    ),
    (
        "simplify solve( action 0 ) case Make solve( action 0 ) case Make SOLVED qed qed\n",
        3,
        "rejected at step 4 (instance)",
    ),
    (
        "simplify solve( action 0 ) case Make solve( action 0 ) case Make by sorry qed qed\n",
        2,
        "analysis incomplete (3 steps)",
    ),
    (
        "simplify solve( action 0 ) case Make by solve( action 0 ) qed\n",
        3,
        "rejected at step 3 (cases)",
    ),
    ("by solve( x )\n", 3, "rejected at step 1 (move)"),
    ("by solve( more 1 )\n", 3, "rejected at step 1 (move)"),
    ("by solve( chain 5 )\n", 3, "rejected at step 1 (instance)"),
    // the move has cases there, but none stands below it
    (
        "by induction // at a lemma\n",
        3,
        "rejected at step 1 (cases)",
    ),
];

fn checked_cases() -> &'static [(&'static str, u8, &'static str)] {
    &CHECKED
}

/// Lemmas before and behind the rule, and more behind the end.
const MIXED: &str = "theory R begin
lemma none: exists-trace \"Ex x #i. B(x)@i\"
rule Make: [ Fr(~k) ] --[ A(~k) ]-> [ ]
lemma once: \"All x #i #j. A(x)@i & A(x)@j ==> #i = #j\"
lemma some: exists-trace \"Ex x #i. A(x)@i\"
end behind";

/// What is written of it.
const MIXED_WRITTEN: &str = "theory R begin
lemma none: exists-trace \"Ex x #i. B(x)@i\"
simplify
by solve( action 0 )

rule Make: [ Fr(~k) ] --[ A(~k) ]-> [ ]
lemma once: \"All x #i #j. A(x)@i & A(x)@j ==> #i = #j\"
simplify
solve( action 0 )
  case Make
  solve( action 0 )
    case Make
    by contradiction
  qed
qed

lemma some: exists-trace \"Ex x #i. A(x)@i\"
simplify
solve( action 0 )
  case Make
  SOLVED
qed

end
/*
none (exists-trace): falsified - no trace found (2 steps)
once (all-traces): verified (4 steps)
some (exists-trace): verified (3 steps)
execution:
fresh ~n1
rule Make: k = ~n1
trace:
A(~n1)
end of trace
*/
";

/// Lemmas without proof, with a proof, and with one that is wrong.
const PROVED: &str = "theory R begin
lemma open: \"All x #i. A(x)@i ==> F\"
lemma none: exists-trace \"Ex x #i. B(x)@i\" simplify by solve(action 0)
lemma other: exists-trace \"Ex x #i. B(x)@i\" simplify by contradiction
lemma never: \"F\" simplify SOLVED
end";

/// What is said of them.
const PROVED_CHECKED: &str = "open (all-traces): analysis incomplete (0 steps)
none (exists-trace): falsified - no trace found (2 steps)
other (exists-trace): rejected at step 2 (instance)
never (all-traces): falsified - found trace (2 steps)
execution:
trace:
end of trace
";

/// Proofs that simplify systems in which an equation has no unifier, the status of the check, and what is said.
static FAILING: [(&str, u8, &str); 2] = [
    (
        "lemma l: \"not ('a' = 'b')\" simplify by contradiction",
        0,
        "l (all-traces): verified (2 steps)\n",
    ),
    (
        "lemma l: exists-trace \"Ex #i. A('a')@i & 'a' = 'b' & (All #j. B('c')@j ==> F)\"
simplify simplify by contradiction",
        1,
        "l (exists-trace): falsified - no trace found (3 steps)\n",
    ),
];

fn failing_cases() -> &'static [(&'static str, u8, &'static str)] {
    &FAILING
}

/// A proof that ends with a log at a system with an unequal pair that is equal, in which a public constant is learnt: nothing has settled how.
const LEARNT_CONSTANT: &str = "theory C begin
rule R: [ ] --[ A('c') ]-> [ ]
lemma l: exists-trace \"Ex x #i #j. K(x)@i & A(x)@j & (not x = 'c' | x = 'c')\"
simplify
solve( or 2 )
  case case_1
  solve( action 0 )
    case Send
    solve( action 0 )
      case R
      SOLVED
    qed
  qed
next
  case case_2
  by sorry
qed
end
";

/// The learnt constant is public.
const LEARNT_CONSTANT_CHECKED: &str = "l (exists-trace): verified (5 steps)
execution:
pub 'c'
in 'c'
rule R:
trace:
K('c')
A('c')
end of trace
";

/// A rule whose one form has lost a variable: no fact of its step has `$z`.
const LOST_VARIABLE: &str = "theory K begin
rule A: [ Fr(~k) ] --> [ U(~k) ]
rule B: [ U(k) ] --> [ T(k) ]
rule C: [ T(x) ] --[ Act(fst(<x, $z>)) ]-> [ ]
lemma l: exists-trace \"Ex x #i. Act(x)@i\"
simplify
solve( action 0 )
  case C
  solve( premise 1 0 )
    case B
    solve( premise";

/// Its proof ends with an execution, in which that variable has a value.
const LOST_VARIABLE_CHECKED: &str = "l (exists-trace): verified (5 steps)
execution:
fresh ~n1
rule A: k = ~n1
rule B: k = ~n1
rule C: x = ~n1, z = 'a1'
trace:
Act(~n1)
end of trace
";

/// The time of the step by `B`, the status of the check, and what is said: the step by `C` used no more than the number of `x`.
static LOST_VARIABLE_TIMES: [(&str, u8, &str); 2] = [
    ("3", 0, LOST_VARIABLE_CHECKED),
    ("4", 3, "l (exists-trace): rejected at step 4 (instance)\n"),
];

fn lost_variable_cases() -> &'static [(&'static str, u8, &'static str)] {
    &LOST_VARIABLE_TIMES
}

#[test]
fn lost_variables_take_no_number(rt: HostRuntime) -> Result<(), Fail> {
    let alloc = rt.alloc();
    for (time, status, said) in lost_variable_cases().iter() {
        let text = format!(in alloc; "{LOST_VARIABLE} {time} 0 ) case A SOLVED qed qed qed end\n")?;
        assert_answer(&rt, alloc, "check", text.as_str(), *status, said)?;
    }
    Ok(())
}

#[test]
fn learnt_constants_are_public(rt: HostRuntime) -> Result<(), Fail> {
    let alloc = rt.alloc();
    assert_answer(
        &rt,
        alloc,
        "check",
        LEARNT_CONSTANT,
        0,
        LEARNT_CONSTANT_CHECKED,
    )?;
    Ok(())
}

#[test]
fn proofs_are_checked(rt: HostRuntime) -> Result<(), Fail> {
    let alloc = rt.alloc();
    for (proof, status, said) in checked_cases().iter() {
        let text = format!(in alloc; "{THEORY}{proof}end\n")?;
        let line = format!(in alloc; "once (all-traces): {said}\n")?;
        assert_answer(&rt, alloc, "check", text.as_str(), *status, line.as_str())?;
    }
    Ok(())
}

#[test]
fn failing_equations_are_simplified(rt: HostRuntime) -> Result<(), Fail> {
    let alloc = rt.alloc();
    for (lemma, status, said) in failing_cases().iter() {
        let text = format!(in alloc; "theory R begin {lemma} end\n")?;
        assert_answer(&rt, alloc, "check", text.as_str(), *status, said)?;
    }
    Ok(())
}

#[test]
fn proofs_stand_among_other_items(rt: HostRuntime) -> Result<(), Fail> {
    let alloc = rt.alloc();
    let without = format!(in alloc; "{THEORY}by sorry\n\nend behind")?;
    let line = "once (all-traces): verified (4 steps)\n";
    let written = format!(in alloc; "{THEORY}{PROOF}\nend\n/*\n{line}*/\n")?;
    for (command, text, status, answer) in [
        ("prove", without.as_str(), 0, written.as_str()),
        ("prove", written.as_str(), 0, written.as_str()),
        ("check", written.as_str(), 0, line),
        ("prove", MIXED, 1, MIXED_WRITTEN),
        ("check", PROVED, 3, PROVED_CHECKED),
    ] {
        assert_answer(&rt, alloc, command, text, status, answer)?;
    }
    Ok(())
}
