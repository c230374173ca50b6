// Proofs are read, and the trees are said that stand in them.

use sp_check::{Skeleton, Step};
use sp_read_proof::proof;
use sp_skel::skeleton;
use sp_step::moves::Move;
use sp_step::words::Side;
use sp_test_make::texts::tokens_in;
use sp_written::{Method, WrittenProof};
use std::alloc::{AllocError, Global};
use std::test::Fail;

fn write_bytes(out: &mut String, bytes: &[u8]) -> Result<(), AllocError> {
    for byte in bytes {
        out.push(char::from(*byte))?;
    }
    Ok(())
}

// a goal in brackets
fn write_method(out: &mut String, method: Method) -> Result<(), AllocError> {
    match method {
        Method::Word(word) => out.push_str(word),
        Method::Goal(text) => {
            out.push_str("(")?;
            write_bytes(out, text)?;
            out.push_str(")")
        }
    }
}

// the steps of a proof in preorder, each with the names of its cases in square brackets
fn write_proof(out: &mut String, proof: &WrittenProof) -> Result<(), AllocError> {
    for (i, step) in proof.steps.iter().enumerate() {
        if i > 0 {
            out.push_str("; ")?;
        }
        write_method(out, step.method)?;
        for name in &step.cases {
            out.push_str(" [")?;
            out.push_str(name)?;
            out.push_str("]")?;
        }
    }
    Ok(())
}

fn write_numbers(out: &mut String, word: &str, numbers: &[u128]) -> Result<(), AllocError> {
    out.push_str(word)?;
    for number in numbers {
        write!(out, " {number}")?;
    }
    Ok(())
}

fn write_side(out: &mut String, side: &Side) -> Result<(), AllocError> {
    match side {
        Side::Fresh(number) => write!(out, " fresh {number}"),
        Side::Public(number) => write!(out, " public {number}"),
        Side::Constant(name) => {
            out.push_str(" constant ")?;
            out.push_str(name.text.as_str())
        }
    }
}

fn write_move(out: &mut String, chosen: &Move) -> Result<(), AllocError> {
    match chosen {
        Move::Simplify => out.push_str("simplify"),
        Move::Contradiction => out.push_str("contradiction"),
        Move::Unproved => out.push_str("sorry"),
        Move::Solved => out.push_str("SOLVED"),
        Move::Induction => out.push_str("induction"),
        Move::Or(place) => write_numbers(out, "or", &[*place]),
        Move::Action(place) => write_numbers(out, "action", &[*place]),
        Move::Premise(time, place) => write_numbers(out, "premise", &[*time, *place]),
        Move::Know(time) => write_numbers(out, "know", &[*time]),
        Move::Chain(time) => write_numbers(out, "chain", &[*time]),
        Move::Source(time) => write_numbers(out, "source", &[*time]),
        Move::Compare(first, second) => write_numbers(out, "compare", &[*first, *second]),
        Move::Top(number) => write_numbers(out, "top", &[*number]),
        Move::Same(left, right) => {
            out.push_str("same")?;
            write_side(out, left)?;
            write_side(out, right)
        }
        Move::MoreEvents => out.push_str("more"),
        Move::Finish => out.push_str("finish"),
    }
}

fn write_step(out: &mut String, step: &Step) -> Result<(), AllocError> {
    match step {
        Step::Known(chosen) => write_move(out, chosen),
        Step::Unknown(text) => {
            out.push_str("unknown ")?;
            write_bytes(out, text)
        }
    }
}

// the steps of a tree in preorder, each with the names of its cases in square brackets
fn write_tree(out: &mut String, skeleton: &Skeleton) -> Result<(), AllocError> {
    for (i, node) in skeleton.nodes.iter().enumerate() {
        if i > 0 {
            out.push_str("; ")?;
        }
        write_step(out, &node.step)?;
        for name in &node.cases {
            out.push_str(" [")?;
            out.push_str(name)?;
            out.push_str("]")?;
        }
    }
    Ok(())
}

/// The proof that a text begins with, the tree that stands in it, and how many tokens it has.
fn read(alloc: Global, text: &str) -> Result<Option<(String, String, usize)>, Fail> {
    let found = tokens_in(alloc, text.as_bytes())?;
    let Some((read, rest)) = proof(alloc, &found, 0)? else {
        return Ok(None);
    };
    let mut written = String::new(alloc);
    write_proof(&mut written, &read)?;
    let mut tree = String::new(alloc);
    write_tree(&mut tree, &skeleton(alloc, &read)?)?;
    Ok(Some((written, tree, rest)))
}

/// Texts, the proofs that they begin with, the trees that stand in those, and how many tokens they have.
static PROOFS: [(&str, &str, &str, usize); 7] = [
    ("SOLVED", "SOLVED", "SOLVED", 1),
    ("by sorry", "sorry", "sorry", 2),
    ("by induction lemma", "induction", "induction", 2),
    (
        "by solve( no ( goal ) )",
        "( no ( goal ) )",
        "unknown no ( goal )",
        2,
    ),
    (
        "simplify by contradiction end",
        "simplify []; contradiction",
        "simplify []; contradiction",
        3,
    ),
    (
        "simplify\nsolve( action 0 )\n  case Make\n  solve( action 0 )\n    case Make\n    by contradiction\n  qed\nqed\n",
        "simplify []; ( action 0 ) [Make]; ( action 0 ) [Make]; contradiction",
        "simplify []; action 0 [Make]; action 0 [Make]; contradiction",
        11,
    ),
    (
        "solve( action 1 )\n  case R.1_done\n  SOLVED\nnext\n  case case\n  by sorry\nnext case qed by simplify qed qed",
        "( action 1 ) [R.1_done] [case] [qed]; SOLVED; sorry; simplify",
        "action 1 [R.1_done] [case] [qed]; SOLVED; sorry; simplify",
        15,
    ),
];

fn proof_cases() -> &'static [(&'static str, &'static str, &'static str, usize)] {
    &PROOFS
}

#[test]
fn proofs_are_read(rt: HostRuntime) -> Result<(), Fail> {
    for (text, written, tree, count) in proof_cases().iter() {
        let found = read(rt.alloc(), text)?.ok_or("proof")?;
        assert_eq!(rt; found.0.as_str(), *written, "{text}");
        assert_eq!(rt; found.1.as_str(), *tree, "{text}");
        assert_eq!(rt; found.2, *count, "{text}");
    }
    Ok(())
}

/// Texts that begin with no proof.
static OTHERS: [&str; 19] = [
    "",
    "by",
    "by SOLVED",
    "simplify",
    "simplify case",
    "simplify case a by sorry",
    "simplify case a by sorry next",
    "simplify case a by sorry next by sorry qed",
    "simplify case a by sorry case b by sorry qed",
    "simplify case end by sorry qed",
    "simplify case last by sorry qed",
    "simplify case a qed",
    "simplify qed",
    "case a by sorry qed",
    "solved",
    "qed",
    "lemma",
    "( by sorry )",
    "'c'",
];

fn other_texts() -> &'static [&'static str] {
    &OTHERS
}

#[test]
fn other_tokens_are_no_proofs(rt: HostRuntime) -> Result<(), Fail> {
    for text in other_texts().iter() {
        assert!(rt; read(rt.alloc(), text)?.is_none(), "{text}");
    }
    Ok(())
}

/// Proofs of one goal, and the trees that stand in them.
static GOALS: [(&str, &str); 61] = [
    ("by solve(action 0)", "action 0"),
    (
        "by solve ( \n\taction 18446744073709551615\r )",
        "action 18446744073709551615",
    ),
    (
        "by solve( action 18446744073709551616 )",
        "action 18446744073709551616",
    ),
    (
        "by solve( action 340282366920938463463374607431768211455 )",
        "action 340282366920938463463374607431768211455",
    ),
    (
        "by solve( action 340282366920938463463374607431768211456 )",
        "unknown action 340282366920938463463374607431768211456",
    ),
    ("by solve( action 00 )", "unknown action 00"),
    ("by solve( action  0 )", "unknown action  0"),
    ("by solve( action +1 )", "unknown action +1"),
    ("by solve( action )", "unknown action"),
    ("by solve( action 1 2 )", "unknown action 1 2"),
    ("by solve( Action 1 )", "unknown Action 1"),
    ("by solve( )", "unknown "),
    ("by solve( or 12 )", "or 12"),
    (
        "by solve( or 18446744073709551616 )",
        "or 18446744073709551616",
    ),
    ("by solve( or )", "unknown or"),
    (
        "by solve( know 18446744073709551616 )",
        "know 18446744073709551616",
    ),
    ("by solve( know )", "unknown know"),
    ("by solve( chain 0 )", "chain 0"),
    ("by solve( chain 0 0 )", "unknown chain 0 0"),
    ("by solve( source 0 )", "source 0"),
    ("by solve( top 0 )", "top 0"),
    ("by solve( top 0 0 )", "unknown top 0 0"),
    ("by solve( premise 20 1 )", "premise 20 1"),
    (
        "by solve( premise 340282366920938463463374607431768211455 0 )",
        "premise 340282366920938463463374607431768211455 0",
    ),
    (
        "by solve( premise 0 18446744073709551616 )",
        "premise 0 18446744073709551616",
    ),
    ("by solve( premise 0 01 )", "unknown premise 0 01"),
    ("by solve( premise 0 )", "unknown premise 0"),
    ("by solve( premise 0 1 2 )", "unknown premise 0 1 2"),
    ("by solve( compare 1 0 )", "compare 1 0"),
    ("by solve( compare 1 01 )", "unknown compare 1 01"),
    ("by solve( more )", "more"),
    ("by solve( more 1 )", "unknown more 1"),
    ("by solve( finish )", "finish"),
    ("by solve( same $3 $1 )", "same public 3 public 1"),
    ("by solve( same ~1 $2 )", "same fresh 1 public 2"),
    ("by solve( same 'a' $1 )", "same constant a public 1"),
    ("by solve( same $1 'a (b' )", "same public 1 constant a (b"),
    ("by solve( same 'a' 'b' )", "unknown same 'a' 'b'"),
    ("by solve( same ~0 ~7 )", "same fresh 0 fresh 7"),
    (
        "by solve( same $340282366920938463463374607431768211455 ~0 )",
        "same public 340282366920938463463374607431768211455 fresh 0",
    ),
    (
        "by solve( same $340282366920938463463374607431768211456 ~0 )",
        "unknown same $340282366920938463463374607431768211456 ~0",
    ),
    ("by solve( same $0 ' ' )", "same public 0 constant  "),
    ("by solve( same $0 '~1' )", "same public 0 constant ~1"),
    ("by solve( same '' $1 )", "unknown same '' $1"),
    ("by solve( same a $1 )", "unknown same a $1"),
    ("by solve( same 1 2 )", "unknown same 1 2"),
    ("by solve( same $1  ~2 )", "unknown same $1  ~2"),
    ("by solve( action $1 )", "unknown action $1"),
    ("by solve( action 'a' )", "unknown action 'a'"),
    ("by solve( compare $1 2 )", "unknown compare $1 2"),
    ("by solve( compare 1 )", "unknown compare 1"),
    ("by solve( source ~0 )", "unknown source ~0"),
    ("by solve( top $0 )", "unknown top $0"),
    ("by solve( finish 0 )", "unknown finish 0"),
    ("by solve( more $0 )", "unknown more $0"),
    ("by solve( induction )", "unknown induction"),
    ("by solve( same $1 $ )", "unknown same $1 $"),
    ("by solve( same $1 $01 )", "unknown same $1 $01"),
    ("by solve( same $1 )", "unknown same $1"),
    ("by solve( same $1 $2 $3 )", "unknown same $1 $2 $3"),
    ("by solve( simplify )", "unknown simplify"),
];

fn goal_cases() -> &'static [(&'static str, &'static str)] {
    &GOALS
}

#[test]
fn goals_say_moves(rt: HostRuntime) -> Result<(), Fail> {
    for (text, tree) in goal_cases().iter() {
        let found = read(rt.alloc(), text)?.ok_or("proof")?;
        assert_eq!(rt; found.1.as_str(), *tree, "{text}");
        assert_eq!(rt; found.2, 2, "{text}");
    }
    Ok(())
}
