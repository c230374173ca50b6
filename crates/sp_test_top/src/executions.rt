// Executions that are found: the same in the answer, in the check of that answer, and replayed. They are worked out by hand.

use crate::calls::assert_answer;
use std::test::Fail;

/// A theory with one lemma, and what is found of it.
struct Found {
    /// the rules
    rules: &'static str,
    /// the lemma, from its name on
    lemma: &'static str,
    /// the proof that is grown for it
    proof: &'static str,
    /// its line in the summary
    line: &'static str,
    /// the steps of the execution
    steps: &'static str,
    /// the entries of its trace
    trace: &'static str,
    /// what replaying the steps says of the lemma
    replayed: &'static str,
    /// the status with which it is tried and its proof is checked
    status: u8,
}

const MAKE: &str = "rule Make: [ Fr(~k) ] --[ A(~k) ]-> [ ]\n";

const FIRST_OTHER: &str = "rule First: [ Fr(~k) ] --[ A(~k) ]-> [ ]
rule Other: [ Fr(~k) ] --[ B(~k) ]-> [ ]
";

const FIXED_BOTH: &str = "rule Fixed: [ ] --[ B('c') ]-> [ ]
rule Both: [ Fr(~k) ] --[ A(~k), B('d') ]-> [ ]
";

const NAMED: &str = "rule Named: [ ] --[ P($a, $b, 'a2') ]-> [ ]\n";

const MAKE_ONCE: &str = "simplify\nsolve( action 0 )\n  case Make\n  SOLVED\nqed\n";

const MAKE_TWICE: &str =
    "simplify\nsolve( action 0 )\n  case Make\n  solve( action 0 )\n    case Make\n    SOLVED\n  qed\nqed\n";

const BOTH_ALONE: &str =
    "simplify\nsolve( action 0 )\n  case Fixed\n  by contradiction\nnext\n  case Both\n  SOLVED\nqed\n";

/// A persistent source serves twice: fresh once makes the two steps of Make one.
const USE_TWICE: &str = "simplify
solve( action 0 )
  case Use
  solve( action 0 )
    case Use
    solve( premise 1 0 )
      case Make
      solve( premise 2 0 )
        case Make
        SOLVED
      qed
    qed
  qed
qed
";

const TWO_STEPS: &str = "fresh ~n1\nrule Make: k = ~n1\nfresh ~n2\nrule Make: k = ~n2\n";

/// A name that is put out is learnt where it is taken: by the one step that has it.
const LEAK_LEARNT: &str = "simplify
solve( action 0 )
  case Leak
  solve( action 0 )
    case Send
    solve( know 4 )
      case own
      by contradiction
    next
      case Leak
      solve( chain 4 )
        case done
        SOLVED
      qed
    qed
  qed
qed
";

/// What no equation rewrites is made like any other message.
const STUCK_MADE: &str = "simplify
solve( action 0 )
  case Stuck
  solve( action 0 )
    case Send
    solve( know 3 )
      case made
      SOLVED
    next
      case Stuck
      by sorry
    qed
  qed
qed
";

const STUCK: &str = "builtins: symmetric-encryption
rule Stuck: [ ] --[ M(sdec('a','b')) ]-> [ Out(sdec('a','b')) ]
";

/// Lemmas of both kinds, verified and falsified by an execution: no step; one step and two; steps in another order than that in which they
/// were looked for; values of public variables, which are none of the theory's names; the first of two leaves;
/// what the adversary takes, makes and sends.
static FOUND: [Found; 14] = [
    Found {
        rules: MAKE,
        lemma: "some: exists-trace \"Ex x #i. A(x)@i\"",
        proof: MAKE_ONCE,
        line: "some (exists-trace): verified (3 steps)\n",
        steps: "fresh ~n1\nrule Make: k = ~n1\n",
        trace: "A(~n1)\n",
        replayed: "some (exists-trace): met\n",
        status: 0,
    },
    Found {
        rules: "",
        lemma: "nothing: exists-trace \"T\"",
        proof: "simplify\nSOLVED\n",
        line: "nothing (exists-trace): verified (2 steps)\n",
        steps: "",
        trace: "",
        replayed: "nothing (exists-trace): met\n",
        status: 0,
    },
    Found {
        rules: MAKE,
        lemma: "never: \"F\"",
        proof: "simplify\nSOLVED\n",
        line: "never (all-traces): falsified - found trace (2 steps)\n",
        steps: "",
        trace: "",
        replayed: "never (all-traces): broken\n",
        status: 1,
    },
    Found {
        rules: MAKE,
        lemma: "alone: \"All x y #i #j. A(x)@i & A(y)@j ==> #i = #j\"",
        proof: MAKE_TWICE,
        line: "alone (all-traces): falsified - found trace (4 steps)\n",
        steps: TWO_STEPS,
        trace: "A(~n1)\nA(~n2)\n",
        replayed: "alone (all-traces): broken\n",
        status: 1,
    },
    Found {
        rules: MAKE,
        lemma: "later: exists-trace \"Ex x y #i #j. A(x)@i & A(y)@j & #i < #j\"",
        proof: MAKE_TWICE,
        line: "later (exists-trace): verified (4 steps)\n",
        steps: TWO_STEPS,
        trace: "A(~n1)\nA(~n2)\n",
        replayed: "later (exists-trace): met\n",
        status: 0,
    },
    Found {
        rules: FIRST_OTHER,
        lemma: "turned: exists-trace \"Ex x y #i #j. A(x)@i & B(y)@j & #j < #i\"",
        proof: "simplify\nsolve( action 0 )\n  case First\n  solve( action 0 )\n    case Other\n    SOLVED\n  qed\nqed\n",
        line: "turned (exists-trace): verified (4 steps)\n",
        steps: "fresh ~n1\nrule Other: k = ~n1\nfresh ~n2\nrule First: k = ~n2\n",
        trace: "B(~n1)\nA(~n2)\n",
        replayed: "turned (exists-trace): met\n",
        status: 0,
    },
    Found {
        rules: NAMED,
        lemma: "one: \"All x y z #i. P(x, y, z)@i ==> x = 'a1'\"",
        proof: "simplify\nsolve( action 0 )\n  case Named\n  SOLVED\nqed\n",
        line: "one (all-traces): falsified - found trace (3 steps)\n",
        steps: "rule Named: a = 'a3', b = 'a4'\n",
        trace: "P('a3', 'a4', 'a2')\n",
        replayed: "one (all-traces): broken\n",
        status: 1,
    },
    Found {
        rules: FIXED_BOTH,
        lemma: "other: exists-trace \"Ex x #i. B(x)@i & not (x = 'c')\"",
        proof: BOTH_ALONE,
        line: "other (exists-trace): verified (4 steps)\n",
        steps: "fresh ~n1\nrule Both: k = ~n1\n",
        trace: "A(~n1), B('d')\n",
        replayed: "other (exists-trace): met\n",
        status: 0,
    },
    Found {
        rules: FIXED_BOTH,
        lemma: "fixed: \"All x #i. B(x)@i ==> x = 'c'\"",
        proof: BOTH_ALONE,
        line: "fixed (all-traces): falsified - found trace (4 steps)\n",
        steps: "fresh ~n1\nrule Both: k = ~n1\n",
        trace: "A(~n1), B('d')\n",
        replayed: "fixed (all-traces): broken\n",
        status: 1,
    },
    Found {
        rules: "rule Second: [ Fr(~a), Fr(~b) ] --[ A(~a), A(~b) ]-> [ ]\n",
        lemma: "single: \"All x y #i. A(x)@i & A(y)@i ==> x = y\"",
        proof: "simplify\nsolve( action 0 )\n  case Second_case_1\n  SOLVED\nnext\n  case Second_case_2\n  by sorry\nqed\n",
        line: "single (all-traces): falsified - found trace (3 steps)\n",
        steps: "fresh ~n1\nfresh ~n2\nrule Second: a = ~n1, b = ~n2\n",
        trace: "A(~n1), A(~n2)\n",
        replayed: "single (all-traces): broken\n",
        status: 1,
    },
    Found {
        rules: "rule Make: [ Fr(~x) ] --> [ !T(~x) ]\nrule Use: [ !T(x) ] --[ U(x) ]-> [ ]\n",
        lemma: "once: \"All x #i #j. U(x)@i & U(x)@j ==> #i = #j\"",
        proof: USE_TWICE,
        line: "once (all-traces): falsified - found trace (6 steps)\n",
        steps: "fresh ~n1\nrule Make: x = ~n1\nrule Use: x = ~n1\nrule Use: x = ~n1\n",
        trace: "U(~n1)\nU(~n1)\n",
        replayed: "once (all-traces): broken\n",
        status: 1,
    },
    Found {
        rules: "rule Leak: [ Fr(~k) ] --[ Secret(~k) ]-> [ Out(~k) ]\n",
        lemma: "secrecy: \"All x #i. Secret(x)@i ==> not (Ex #j. K(x)@j)\"",
        proof: LEAK_LEARNT,
        line: "secrecy (all-traces): falsified - found trace (7 steps)\n",
        steps: "fresh ~n1\nrule Leak: k = ~n1\nout ~n1\nin ~n1\n",
        trace: "Secret(~n1)\nK(~n1)\n",
        replayed: "secrecy (all-traces): broken\n",
        status: 1,
    },
    Found {
        rules: STUCK,
        lemma: "m: exists-trace \"Ex x #i #j. M(x)@i & K(x)@j\"",
        proof: STUCK_MADE,
        line: "m (exists-trace): verified (5 steps)\n",
        steps: "rule Stuck:\npub 'a'\npub 'b'\nmake sdec('a', 'b')\nin sdec('a', 'b')\n",
        trace: "M(sdec('a', 'b'))\nK(sdec('a', 'b'))\n",
        replayed: "m (exists-trace): met\n",
        status: 0,
    },
    Found {
        rules: "functions: g/1\n",
        lemma: "k: exists-trace \"Ex x #i. K(g(x))@i\"",
        proof: "simplify\nsolve( action 0 )\n  case Send\n  solve( know 2 )\n    case made\n    SOLVED\n  qed\nqed\n",
        line: "k (exists-trace): verified (4 steps)\n",
        steps: "pub 'a1'\nmake g('a1')\nin g('a1')\n",
        trace: "K(g('a1'))\n",
        replayed: "k (exists-trace): met\n",
        status: 0,
    },
];

fn found_cases() -> &'static [Found] {
    &FOUND
}

#[test]
fn executions_are_found_checked_and_replayed(rt: HostRuntime) -> Result<(), Fail> {
    let alloc = rt.alloc();
    for found in found_cases().iter() {
        let Found {
            rules,
            lemma,
            proof,
            line,
            steps,
            trace,
            replayed,
            status,
        } = found;
        let theory = format!(in alloc; "theory T begin\n{rules}lemma {lemma}\n")?;
        let block = format!(in alloc; "{line}execution:\n{steps}trace:\n{trace}end of trace\n")?;
        let written = format!(in alloc; "{theory}{proof}\nend\n/*\n{block}*/\n")?;
        let asked = format!(in alloc; "{theory}end\n")?;
        assert_answer(
            &rt,
            alloc,
            "prove",
            asked.as_str(),
            *status,
            written.as_str(),
        )?;
        assert_answer(
            &rt,
            alloc,
            "check",
            written.as_str(),
            *status,
            block.as_str(),
        )?;
        let lines = format!(in alloc; "{theory}end\n{steps}")?;
        let answer = format!(in alloc; "trace:\n{trace}end of trace\n{replayed}")?;
        assert_answer(&rt, alloc, "replay", lines.as_str(), 0, answer.as_str())?;
    }
    Ok(())
}
