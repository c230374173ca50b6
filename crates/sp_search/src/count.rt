// Whether a tree is finished, and how many steps it has.

ghost use Rattle.std.specs.Prelude.{◌≡◌, ◌↔◌, ◌^◌, ◌-◌, min, IsTrue};
ghost use Rattle.sp_step.specs.View.{move_of};
ghost use Rattle.sp_spec_proof.specs.Tree as spec;
ghost use Rattle.sp_search.specs.Finished.{is_left};
ghost use Rattle.sp_search.specs.NodeView.{node_at};
ghost use Rattle.sp_search.specs.Told.{leaves_none, step_at};
ghost use Rattle.sp_search.specs.View.{tree_of};

use crate::node::Node;
use crate::tree::Tree;
use sp_step::moves::Move;

// Whether a system with this move may have a solution.
fn is_left_by(chosen: &Move) -> bool
    ensures { result ≡ is_left (move_of chosen.now) }
{
    match chosen {
        Move::Unproved | Move::Solved => true,
        _ => false,
    }
}

fn leaves_none(node: &Node) -> bool
    ensures { result ≡ leaves_none (node_at node.now) }
{
    match node {
        Node::Open(_) | Node::Ended(_) => false,
        Node::Inner(chosen, _) => !is_left_by(chosen),
    }
}

/// Whether no leaf is left at which a solution may be: no open one, and none with which the search ends.
pub fn is_finished(tree: &Tree) -> bool
    ensures { IsTrue result ↔ spec.IsFinished (tree_of tree.now) }
{
    for node in &tree.nodes {
        if !leaves_none(node) {
            return false;
        }
    }
    true
}

fn steps_of(node: &Node) -> u64
    ensures { result ≡ step_at (node_at node.now) }
{
    match node {
        Node::Open(_) | Node::Inner(Move::Unproved, _) => 0,
        _ => 1,
    }
}

/// How many nodes aren't open leaves; `u64::MAX` where they are more.
pub fn steps(tree: &Tree) -> u64
    ensures { result ≡ min (spec.steps (tree_of tree.now)) (2 ^ 64 - 1) }
{
    let mut total: u64 = 0;
    for node in &tree.nodes {
        total = total.saturating_add(steps_of(node));
    }
    total
}
