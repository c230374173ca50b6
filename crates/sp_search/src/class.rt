// The classes of open leaves: which is grown first.

ghost use Rattle.std.specs.Prelude.{◌≡◌, ◌+◌, IfOk, option_map};
ghost use Rattle.sp_spec_proof.specs.Choice as choice;
ghost use Rattle.sp_step.specs.Choosing.{ranked_of};
ghost use Rattle.sp_search.specs.NodeView.{node_at, nodes_at};
ghost use Rattle.sp_search.specs.Turning as turning;

use crate::node::Node;
use sp_step::choose::Ranked;
use std::alloc::AllocError;

// The rank of a leaf's move and its depth; none where no move is chosen. The sum is wider than the two, so that it always fits.
fn class_of(chosen: &Option<Ranked>, depth: u64) -> Option<u128>
    ensures { result ≡ choice.class_of (option_map ranked_of chosen.now) depth }
{
    match chosen {
        Some(ranked) => Some(u128::from(ranked.rank) + u128::from(depth)),
        None => None,
    }
}

fn class_at(node: &Node) -> Option<u128>
    ensures { result ≡ turning.class_at (node_at node.now) }
{
    match node {
        Node::Open(leaf) => class_of(&leaf.choice, leaf.depth),
        Node::Ended(_) | Node::Inner(_, _) => None,
    }
}

/// One level deeper.
///
/// # Errors
///
/// `AllocError` where the number is too large.
pub fn deeper(depth: u64) -> Result<u64, AllocError>
    ensures { IfOk result (λ n. n ≡ depth + 1) }
{
    match depth.checked_add(1) {
        Some(next) => Ok(next),
        None => Err(AllocError),
    }
}

// The place that was found with its class, unless this one has the lesser class.
fn sooner(found: Option<(usize, u128)>, place: usize, class: Option<u128>) -> Option<(usize, u128)>
    ensures { result ≡ turning.sooner found (turning.placed place class) }
{
    match (found, class) {
        (None, Some(class)) => Some((place, class)),
        (Some((_, least)), Some(class)) if class < least => Some((place, class)),
        _ => found,
    }
}

/// The place of the first open leaf of the least class, and the class; none where no leaf has a move.
pub fn first_leaf(nodes: &Vec<Node>) -> Option<(usize, u128)>
    ensures { result ≡ turning.first_least 0 (nodes_at nodes.now.items) }
{
    let mut found = None;
    for (place, node) in nodes.iter().enumerate() {
        found = sooner(found, place, class_at(node));
    }
    found
}
