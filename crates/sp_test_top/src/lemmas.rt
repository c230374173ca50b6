// Lemmas that are tried: the trees that are grown, and the summary. They are worked out by hand.

use crate::calls::assert_answer;
use std::alloc::{AllocError, Global};
use std::test::Fail;

/// A theory, and how it ends.
struct Theory {
    /// its rules
    rules: &'static str,
    /// its lemmas
    lemmas: &'static [Tried],
    /// the status
    status: u8,
}

/// A lemma of a theory, and what is written of it.
struct Tried {
    /// from its name on
    lemma: &'static str,
    /// the tree that is grown for it
    tree: &'static str,
    /// its line in the summary
    line: &'static str,
}

/// One rule with one fresh name.
const ONE_RULE: &str = "rule Make: [ Fr(~k) ] --[ A(~k) ]-> [ ]\n";

/// Two steps of the one rule that are one step, which contradicts the rest.
const ONE_STEP: &str = "simplify
solve( action 0 )
  case Make
  solve( action 0 )
    case Make
    by contradiction
  qed
qed
";

/// Lemmas that are verified: two steps of the one rule are one step.
const VERIFIED: [Tried; 3] = [
    Tried {
        lemma: "once: \"All x #i #j. A(x)@i & A(x)@j ==> #i = #j\"",
        tree: ONE_STEP,
        line: "once (all-traces): verified (4 steps)",
    },
    Tried {
        lemma: "ends: \"All x #i #j #k #l. A(x)@i & A(x)@j & A(x)@k & A(x)@l ==> #i = #l\"",
        tree: "simplify\nsolve( action 0 )\n  case Make\n  solve( action 0 )\n    case Make\n    solve( action 0 )\n      case Make\n      solve( action 0 )\n        case Make\n        by contradiction\n      qed\n    qed\n  qed\nqed\n",
        line: "ends (all-traces): verified (6 steps)",
    },
    Tried {
        lemma: "alone: \"All x y #i. A(x)@i & A(y)@i ==> x = y\"",
        tree: "simplify\nsolve( action 0 )\n  case Make\n  solve( action 0 )\n    case at_0\n    by contradiction\n  qed\nqed\n",
        line: "alone (all-traces): verified (4 steps)",
    },
];

/// Two fresh names, each of which may be the one that is looked for.
const TWO_NAMES: &str = "rule Two: [ Fr(~a), Fr(~b) ] --[ A(~a), A(~b) ]-> [ ]\n";

/// Each case of either name.
const EITHER: [Tried; 1] = [Tried {
    lemma: "once: \"All x #i #j. A(x)@i & A(x)@j ==> #i = #j\"",
    tree: "simplify\nsolve( action 0 )\n  case Two_case_1\n  solve( action 0 )\n    case Two_case_1\n    by contradiction\n  next\n    case Two_case_2\n    by contradiction\n  qed\nnext\n  case Two_case_2\n  solve( action 0 )\n    case Two_case_1\n    by contradiction\n  next\n    case Two_case_2\n    by contradiction\n  qed\nqed\n",
    line: "once (all-traces): verified (8 steps)",
}];

/// Lemmas of both kinds.
const BOTH_KINDS: [Tried; 2] = [
    Tried {
        lemma: "once: \"All x #i #j. A(x)@i & A(x)@j ==> #i = #j\"",
        tree: ONE_STEP,
        line: "once (all-traces): verified (4 steps)",
    },
    Tried {
        lemma: "twice: exists-trace \"Ex x #i #j. A(x)@i & A(x)@j & #i < #j\"",
        tree: ONE_STEP,
        line: "twice (exists-trace): falsified - no trace found (4 steps)",
    },
];

/// The connectives, where what is sought is a conjunction.
const CONNECTIVES: [Tried; 6] = [
    Tried {
        lemma: "denied: exists-trace \"Ex x y #i #j. A(x)@i & A(y)@j & not (x = y ==> #i = #j)\"",
        tree: ONE_STEP,
        line: "denied (exists-trace): falsified - no trace found (4 steps)",
    },
    Tried {
        lemma: "either: all-traces \"All x #i #j. A(x)@i & A(x)@j ==> #i = #j | #j = #i\"",
        tree: ONE_STEP,
        line: "either (all-traces): verified (4 steps)",
    },
    Tried {
        lemma: "implied: \"All x y #i #j. A(x)@i & A(y)@j ==> x = y ==> #i = #j\"",
        tree: ONE_STEP,
        line: "implied (all-traces): verified (4 steps)",
    },
    Tried {
        lemma: "same: exists-trace \"Ex x #i. A(x)@i & #i < #i & (x = x <=> A(x)@i)\"",
        tree: "simplify\nby contradiction\n",
        line: "same (exists-trace): falsified - no trace found (2 steps)",
    },
    Tried {
        lemma: "nested: \"All x #i. A(x)@i ==> (All y #j. A(y)@j ==> x = y ==> #i = #j)\"",
        tree: ONE_STEP,
        line: "nested (all-traces): verified (4 steps)",
    },
    Tried {
        lemma: "none: \"not (Ex x #i #j. A(x)@i & A(x)@j & not (#i = #j))\"",
        tree: ONE_STEP,
        line: "none (all-traces): verified (4 steps)",
    },
];

/// The order of times.
const ORDER: [Tried; 3] = [
    Tried {
        lemma: "turned: \"All x y #i #j. A(x)@i & A(y)@j & #i < #j ==> not #j < #i\"",
        tree: "simplify\nby contradiction\n",
        line: "turned (all-traces): verified (2 steps)",
    },
    Tried {
        lemma: "apart: \"All x y #i #j. A(x)@i & A(y)@j & #i < #j ==> not (x = y)\"",
        tree: ONE_STEP,
        line: "apart (all-traces): verified (4 steps)",
    },
    Tried {
        lemma: "cycle: exists-trace \"Ex x y #i #j. A(x)@i & A(y)@j & #i < #j & #j < #i\"",
        tree: "simplify\nby contradiction\n",
        line: "cycle (exists-trace): falsified - no trace found (2 steps)",
    },
];

/// True and false formulas.
const CONSTANTS: [Tried; 6] = [
    Tried {
        lemma: "never: exists-trace \"F\"",
        tree: "by contradiction\n",
        line: "never (exists-trace): falsified - no trace found (1 steps)",
    },
    Tried {
        lemma: "always: \"T\"",
        tree: "by contradiction\n",
        line: "always (all-traces): verified (1 steps)",
    },
    Tried {
        lemma: "some: exists-trace \"T\"",
        tree: "simplify\nSOLVED\n",
        line: "some (exists-trace): verified (2 steps)\nexecution:\ntrace:\nend of trace",
    },
    Tried {
        lemma: "none: \"F\"",
        tree: "simplify\nSOLVED\n",
        line: "none (all-traces): falsified - found trace (2 steps)\nexecution:\ntrace:\nend of trace",
    },
    Tried {
        lemma: "nothing: \"All x #i. A(x)@i ==> F\"",
        tree: "simplify\nsolve( action 0 )\n  case Make\n  SOLVED\nqed\n",
        line: "nothing (all-traces): falsified - found trace (3 steps)\nexecution:\nfresh ~n1\nrule Make: k = ~n1\ntrace:\nA(~n1)\nend of trace",
    },
    Tried {
        lemma: "anything: \"All x #i. A(x)@i ==> T\"",
        tree: "simplify\nby contradiction\n",
        line: "anything (all-traces): verified (2 steps)",
    },
];

/// Two rules with an action each.
const TWO_ACTIONS: &str =
    "rule First: [ ] --[ A('c') ]-> [ ]\nrule Other: [ ] --[ B('c') ]-> [ ]\n";

/// Two times whose order is left open: in the log that is first suggested the first is before the second.
const TURNED: [Tried; 1] = [Tried {
    lemma: "turned: exists-trace \"Ex #i #j. A('c')@i & B('c')@j & not (#i < #j)\"",
    tree: "simplify
solve( action 0 )
  case First
  solve( action 0 )
    case Other
    solve( compare 0 1 )
      case before
      by contradiction
    next
      case same
      by contradiction
    next
      case after
      SOLVED
    qed
  qed
qed
",
    line: "turned (exists-trace): verified (7 steps)\nexecution:\nrule Other:\nrule First:\ntrace:\nB('c')\nA('c')\nend of trace",
}];

/// Two rules that show a name; one of them shows two.
const TWO_RULES: &str = "rule First: [ Fr(~k) ] --[ A(~k) ]-> [ ]
rule Second: [ Fr(~a), Fr(~b) ] --[ A(~a), A(~b) ]-> [ ]
";

/// What is verified and what is falsified, with the cases in the order of the rules.
const IN_ORDER: [Tried; 3] = [
    Tried {
        lemma: "once: \"All x #i #j. A(x)@i & A(x)@j ==> #i = #j\"",
        tree: "simplify
solve( action 0 )
  case First
  solve( action 0 )
    case First
    by contradiction
  next
    case Second_case_1
    by contradiction
  next
    case Second_case_2
    by contradiction
  qed
next
  case Second_case_1
  solve( action 0 )
    case First
    by contradiction
  next
    case Second_case_1
    by contradiction
  next
    case Second_case_2
    by contradiction
  qed
next
  case Second_case_2
  solve( action 0 )
    case First
    by contradiction
  next
    case Second_case_1
    by contradiction
  next
    case Second_case_2
    by contradiction
  qed
qed
",
        line: "once (all-traces): verified (14 steps)",
    },
    Tried {
        lemma: "alone: \"All x y #i. A(x)@i & A(y)@i ==> x = y\"",
        tree: "simplify
solve( action 0 )
  case First
  by sorry
next
  case Second_case_1
  SOLVED
next
  case Second_case_2
  by sorry
qed
",
        line: "alone (all-traces): falsified - found trace (3 steps)\nexecution:\nfresh ~n1\nfresh ~n2\nrule Second: a = ~n1, b = ~n2\ntrace:\nA(~n1), A(~n2)\nend of trace",
    },
    Tried {
        lemma: "absent: exists-trace \"Ex x #i. B(x)@i\"",
        tree: "simplify\nby solve( action 0 )\n",
        line: "absent (exists-trace): falsified - no trace found (2 steps)",
    },
];

/// Rules that show constants.
const CONSTANT_RULES: &str = "rule Make: [ Fr(~k) ] --[ A(~k) ]-> [ ]
rule Fixed: [ ] --[ B('c') ]-> [ ]
rule Both: [ Fr(~k) ] --[ A(~k), B('d') ]-> [ ]
";

/// What is falsified counts, whatever else is verified.
const FALSIFIED_FIRST: [Tried; 5] = [
    Tried {
        lemma: "left: exists-trace \"Ex x #i #j. A(x)@i & B('c')@j & not (#i < #j)\"",
        tree: "simplify
solve( action 0 )
  case Make
  solve( action 0 )
    case Fixed
    solve( compare 1 2 )
      case before
      by contradiction
    next
      case same
      by contradiction
    next
      case after
      SOLVED
    qed
  qed
next
  case Both
  solve( action 0 )
    case Fixed
    by sorry
  qed
qed
",
        line: "left (exists-trace): verified (8 steps)\nexecution:\nrule Fixed:\nfresh ~n1\nrule Make: k = ~n1\ntrace:\nB('c')\nA(~n1)\nend of trace",
    },
    Tried {
        lemma: "never: exists-trace \"Ex #i. B('e')@i\"",
        tree: "simplify\nby solve( action 0 )\n",
        line: "never (exists-trace): falsified - no trace found (2 steps)",
    },
    Tried {
        lemma: "fixed: \"All x #i. B(x)@i ==> x = 'c'\"",
        tree: "simplify
solve( action 0 )
  case Fixed
  by contradiction
next
  case Both
  SOLVED
qed
",
        line: "fixed (all-traces): falsified - found trace (4 steps)\nexecution:\nfresh ~n1\nrule Both: k = ~n1\ntrace:\nA(~n1), B('d')\nend of trace",
    },
    Tried {
        lemma: "shown: \"All x #i #j. A(x)@i & A(x)@j & B('c')@i ==> F\"",
        tree: "simplify
solve( action 0 )
  case Make
  solve( action 0 )
    case Make
    by solve( action 0 )
  next
    case Both
    by contradiction
  qed
next
  case Both
  solve( action 0 )
    case Make
    by contradiction
  next
    case Both
    by solve( action 0 )
  qed
qed
",
        line: "shown (all-traces): verified (8 steps)",
    },
    Tried {
        lemma: "both: exists-trace \"Ex #i. B('c')@i & B('d')@i\"",
        tree: "simplify
solve( action 0 )
  case Fixed
  by solve( action 0 )
qed
",
        line: "both (exists-trace): falsified - no trace found (3 steps)",
    },
];

/// A secret under a key that nobody keeps.
const ENCRYPTING: &str = "builtins: symmetric-encryption
rule Enc: [ Fr(~s), Fr(~k) ] --[ Secret(~s) ]-> [ Out(senc(~s, ~k)) ]
";

/// Opening the message takes the key, and what opens to that is no key: a step has two names.
const KEPT: [Tried; 1] = [Tried {
    lemma: "secrecy: \"All x #i. Secret(x)@i ==> not (Ex #j. K(x)@j)\"",
    tree: "simplify
solve( action 0 )
  case Enc
  solve( action 0 )
    case Send
    solve( know 5 )
      case own
      by contradiction
    next
      case Enc
      solve( chain 5 )
        case chain_3
        solve( chain 5 )
          case done
          solve( know 11 )
            case own
            by contradiction
          next
            case Enc
            solve( chain 11 )
              case chain_3
              solve( chain 11 )
                case done
                by contradiction
              qed
            qed
          qed
        qed
      qed
    qed
  qed
qed
",
    line: "secrecy (all-traces): verified (12 steps)",
}];

/// What comes in goes out again; a secret stays in its step.
const ECHOING: &str = "rule Echo: [ In(x) ] --> [ Out(x) ]
rule Hide: [ Fr(~s) ] --[ Secret(~s) ]-> [ ]
";

/// What the echo gives back was learnt before its step.
const HIDDEN: [Tried; 1] = [Tried {
    lemma: "secrecy: \"All x #i. Secret(x)@i ==> not (Ex #j. K(x)@j)\"",
    tree: "simplify
solve( action 0 )
  case Hide
  solve( action 0 )
    case Send
    solve( know 4 )
      case own
      by contradiction
    next
      case Echo
      by contradiction
    qed
  qed
qed
",
    line: "secrecy (all-traces): verified (6 steps)",
}];

/// Nobody makes or puts out an application of a private symbol.
const UNMADE: [Tried; 1] = [Tried {
    lemma: "k: exists-trace \"Ex x #i. K(g(x))@i\"",
    tree: "simplify\nsolve( action 0 )\n  case Send\n  by solve( know 2 )\nqed\n",
    line: "k (exists-trace): falsified - no trace found (3 steps)",
}];

/// The theories, and how they end.
static THEORIES: [Theory; 14] = [
    Theory {
        rules: ONE_RULE,
        lemmas: &VERIFIED,
        status: 0,
    },
    Theory {
        rules: ONE_RULE,
        lemmas: &BOTH_KINDS,
        status: 1,
    },
    Theory {
        rules: ONE_RULE,
        lemmas: &CONNECTIVES,
        status: 1,
    },
    Theory {
        rules: ONE_RULE,
        lemmas: &ORDER,
        status: 1,
    },
    Theory {
        rules: ONE_RULE,
        lemmas: &CONSTANTS,
        status: 1,
    },
    Theory {
        rules: TWO_NAMES,
        lemmas: &EITHER,
        status: 0,
    },
    Theory {
        rules: TWO_ACTIONS,
        lemmas: &TURNED,
        status: 0,
    },
    Theory {
        rules: TWO_RULES,
        lemmas: &IN_ORDER,
        status: 1,
    },
    Theory {
        rules: CONSTANT_RULES,
        lemmas: &FALSIFIED_FIRST,
        status: 1,
    },
    Theory {
        rules: TWO_RULES,
        lemmas: &[],
        status: 0,
    },
    Theory {
        rules: "",
        lemmas: &[],
        status: 0,
    },
    Theory {
        rules: ENCRYPTING,
        lemmas: &KEPT,
        status: 0,
    },
    Theory {
        rules: ECHOING,
        lemmas: &HIDDEN,
        status: 0,
    },
    Theory {
        rules: "functions: g/1 [private]\n",
        lemmas: &UNMADE,
        status: 1,
    },
];

fn theory_cases() -> &'static [Theory] {
    &THEORIES
}

/// A theory with these rules and these lemmas.
fn theory_of(alloc: Global, rules: &str, lemmas: &[Tried]) -> Result<String, AllocError> {
    let mut text = format!(in alloc; "theory T begin\n{rules}")?;
    for tried in lemmas {
        text.push_str("lemma ")?;
        text.push_str(tried.lemma)?;
        text.push_str("\n")?;
    }
    text.push_str("end\n")?;
    Ok(text)
}

/// What is written of it: each tree behind its lemma, and the summary.
fn written_of(alloc: Global, rules: &str, lemmas: &[Tried]) -> Result<String, AllocError> {
    let mut text = format!(in alloc; "theory T begin\n{rules}")?;
    let mut summary = String::new(alloc);
    for tried in lemmas {
        text.push_str("lemma ")?;
        text.push_str(tried.lemma)?;
        text.push_str("\n")?;
        text.push_str(tried.tree)?;
        text.push_str("\n")?;
        summary.push_str(tried.line)?;
        summary.push_str("\n")?;
    }
    text.push_str("end\n/*\n")?;
    text.push_str(summary.as_str())?;
    text.push_str("*/\n")?;
    Ok(text)
}

#[test]
fn lemmas_are_tried(rt: HostRuntime) -> Result<(), Fail> {
    let alloc = rt.alloc();
    for theory in theory_cases().iter() {
        let Theory {
            rules,
            lemmas,
            status,
        } = theory;
        let text = theory_of(alloc, rules, lemmas)?;
        let written = written_of(alloc, rules, lemmas)?;
        assert_answer(
            &rt,
            alloc,
            "prove",
            text.as_str(),
            *status,
            written.as_str(),
        )?;
    }
    Ok(())
}
