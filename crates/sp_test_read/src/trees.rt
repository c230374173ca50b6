// The texts of proof trees.

ghost use Rattle.std.specs.Prelude.{◌≡◌};
ghost use Rattle.sp_search.specs.Kinds.{case_count};
ghost use Rattle.sp_search.specs.NodeView.{node_at};

use sp_check::Step;
use sp_learn::log::Log;
use sp_read_proof::proof;
use sp_search::{Node, OpenLeaf, Tree};
use sp_skel::{skeleton, tree_text};
use sp_step::moves::Move;
use sp_test_make::plain_moves::{PlainMove, PlainSide, move_of};
use sp_test_make::systems::system;
use sp_test_make::texts::tokens_in;
use std::alloc::{AllocError, Global};
use std::test::Fail;

// a node without cases
fn alone(alloc: Global, node: Node) -> Result<Tree, AllocError>
    requires { case_count (node_at node) ≡ 0 }
{
    let mut nodes = Vec::new(alloc);
    nodes.push(node)?;
    Ok(Tree { nodes })
}

fn leaf(alloc: Global, chosen: Move) -> Result<Tree, AllocError> {
    alone(alloc, Node::Inner(chosen, Vec::new(alloc)))
}

// a leaf without a chosen move, whose system says nothing
fn open_leaf(alloc: Global) -> Result<Tree, AllocError> {
    let leaf = OpenLeaf {
        system: system(alloc, Vec::new(alloc), 0)?,
        choice: None,
        depth: 1,
    };
    alone(alloc, Node::Open(Box::new(alloc, leaf)?))
}

// a leaf with which the search ends, whose log says nothing
fn ended(alloc: Global) -> Result<Tree, AllocError> {
    let log = Log {
        entries: Vec::new(alloc),
    };
    alone(alloc, Node::Ended(Box::new(alloc, log)?))
}

fn case(alloc: Global, name: &str, tree: Tree) -> Result<(String, Tree), AllocError> {
    let name = String::from_str(alloc, name)?;
    Ok((name, tree))
}

// the move over these trees, by the names of its cases
fn over_all(alloc: Global, chosen: Move, cases: Vec<(String, Tree)>) -> Result<Tree, AllocError> {
    let mut names = Vec::new(alloc);
    let mut below = Vec::new(alloc);
    for (name, tree) in cases {
        let Tree { mut nodes } = tree;
        names.push(name)?;
        below.append(&mut nodes)?;
    }
    let mut nodes = Vec::new(alloc);
    nodes.push(Node::Inner(chosen, names))?;
    nodes.append(&mut below)?;
    Ok(Tree { nodes })
}

// the move over one case of this name
fn over(alloc: Global, chosen: Move, name: &str, tree: Tree) -> Result<Tree, AllocError> {
    let mut cases = Vec::new(alloc);
    cases.push(case(alloc, name, tree)?)?;
    over_all(alloc, chosen, cases)
}

// each case alone below its move
fn with_only_cases(alloc: Global) -> Result<Tree, AllocError> {
    let end = leaf(alloc, Move::Contradiction)?;
    let inner = over(alloc, Move::Action(10), "Make", end)?;
    let outer = over(alloc, Move::Action(0), "Make", inner)?;
    over(alloc, Move::Simplify, "", outer)
}

fn with_three_cases(alloc: Global) -> Result<Tree, AllocError> {
    let premise = Move::Premise(20, 1);
    let mut cases = Vec::new(alloc);
    cases.push(case(alloc, "", open_leaf(alloc)?)?)?;
    cases.push(case(alloc, "at_1", leaf(alloc, Move::Simplify)?)?)?;
    cases.push(case(alloc, "Give", leaf(alloc, premise)?)?)?;
    over_all(alloc, Move::Or(3), cases)
}

fn with_ends(alloc: Global) -> Result<Tree, AllocError> {
    let below = over(alloc, Move::Simplify, "", ended(alloc)?)?;
    let mut cases = Vec::new(alloc);
    cases.push(case(alloc, "One", below)?)?;
    cases.push(case(alloc, "Two", leaf(alloc, Move::Solved)?)?)?;
    over_all(alloc, Move::Action(0), cases)
}

#[test]
fn trees_are_written(rt: HostRuntime) -> Result<(), Fail> {
    let alloc = rt.alloc();
    assert_eq!(rt;
        tree_text(alloc, &with_only_cases(alloc)?)?.as_str(),
        "simplify\nsolve( action 0 )\n  case Make\n  solve( action 10 )\n    case Make\n    by contradiction\n  qed\nqed\n"
    );
    assert_eq!(rt;
        tree_text(alloc, &with_three_cases(alloc)?)?.as_str(),
        "solve( or 3 )\n  case \n  by sorry\nnext\n  case at_1\n  by simplify\nnext\n  case Give\n  by solve( premise 20 1 )\nqed\n"
    );
    assert_eq!(rt;
        tree_text(alloc, &with_ends(alloc)?)?.as_str(),
        "solve( action 0 )\n  case One\n  simplify\n  SOLVED\nnext\n  case Two\n  SOLVED\nqed\n"
    );
    Ok(())
}

// each move with its text; a goal stands in brackets
static WORDED: [(PlainMove, &str); 18] = [
    (PlainMove::Simplify, "by simplify\n"),
    (PlainMove::Contradiction, "by contradiction\n"),
    (PlainMove::Unproved, "by sorry\n"),
    (PlainMove::Solved, "SOLVED\n"),
    (PlainMove::Induction, "by induction\n"),
    (PlainMove::Or(3), "by solve( or 3 )\n"),
    (PlainMove::Action(0), "by solve( action 0 )\n"),
    (PlainMove::Premise(20, 1), "by solve( premise 20 1 )\n"),
    (PlainMove::Know(4), "by solve( know 4 )\n"),
    (PlainMove::Chain(5), "by solve( chain 5 )\n"),
    (PlainMove::Source(6), "by solve( source 6 )\n"),
    (PlainMove::Compare(1, 12), "by solve( compare 1 12 )\n"),
    (PlainMove::Top(7), "by solve( top 7 )\n"),
    (
        PlainMove::Same(PlainSide::Fresh(1), PlainSide::Public(2)),
        "by solve( same ~1 $2 )\n",
    ),
    (
        PlainMove::Same(PlainSide::Public(0), PlainSide::Constant("a (b")),
        "by solve( same $0 'a (b' )\n",
    ),
    (
        PlainMove::Same(PlainSide::Constant("c"), PlainSide::Fresh(u128::MAX)),
        "by solve( same 'c' ~340282366920938463463374607431768211455 )\n",
    ),
    (PlainMove::MoreEvents, "by solve( more )\n"),
    (PlainMove::Finish, "by solve( finish )\n"),
];

fn worded_moves() -> &'static [(PlainMove, &'static str)] {
    &WORDED
}

// what the text of a tree of one node says, if it says a move
fn said(alloc: Global, text: &str) -> Result<Option<Move>, Fail> {
    let found = tokens_in(alloc, text.as_bytes())?;
    let (read, _) = proof(alloc, &found, 0)?.ok_or("proof")?;
    let tree = skeleton(alloc, &read)?;
    match tree.nodes.first() {
        Some(node) => match &node.step {
            Step::Known(chosen) => Ok(Some(chosen.clone()?)),
            Step::Unknown(_) => Ok(None),
        },
        None => Ok(None),
    }
}

#[test]
fn moves_are_written_and_read(rt: HostRuntime) -> Result<(), Fail> {
    let alloc = rt.alloc();
    for (chosen, text) in worded_moves().iter() {
        let written = tree_text(alloc, &leaf(alloc, move_of(alloc, *chosen)?)?)?;
        assert_eq!(rt; written.as_str(), *text);
        let wanted = move_of(alloc, *chosen)?;
        assert_eq!(rt; said(alloc, text)?, Some(wanted), "{text}");
    }
    Ok(())
}
