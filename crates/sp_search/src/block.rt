// Nodes side by side, in preorder, and where growth goes on among them.

ghost use Rattle.std.specs.Prelude.{◌≡◌};
ghost use Rattle.sp_search.specs.NodeView.{nodes_at};
ghost use Rattle.sp_search.specs.Turning.{first_least};

use crate::node::Node;

/// Some nodes of a tree that grows, side by side in preorder.
#[derive(Drop)]
pub struct Block {
    /// the nodes
    pub nodes: Vec<Node>,
    /// the place of the first open leaf of the least class among them, and the class
    pub first: Option<(usize, u128)>,
    ghost is_first: { first ≡ first_least 0 (nodes_at nodes.items) },
}
