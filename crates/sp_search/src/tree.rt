// Proof trees as lists of their nodes, and the log with which the search ends.

ghost use Rattle.sp_spec_nodes.specs.Preorder.{AreTrees, AreTrees-prop};
ghost use Rattle.sp_search.specs.Kinds.{case_count};
ghost use Rattle.sp_search.specs.NodeView.{nodes_at};

use crate::node::Node;
use sp_learn::log::Log;

/// A proof tree: its nodes in preorder, each before the trees of its cases.
#[derive(Drop)]
pub struct Tree {
    /// the nodes, of which the first is the root
    pub nodes: Vec<Node>,
    ghost is_one: { AreTrees case_count 1 (nodes_at nodes.items) } by { AreTrees-prop case_count 1 (nodes_at nodes.items) },
}

impl Tree {
    ghost use Rattle.std.specs.Prelude.{◌≡◌, option_map};
    ghost use Rattle.sp_learn.specs.View.{log_of};
    ghost use Rattle.sp_search.specs.Kept.{log_in};
    ghost use Rattle.sp_search.specs.View.{kept_of};

    /// The first log with which the search ends, if it ends.
    pub fn found_log(&self) -> Option<&Log>
        ensures { option_map (λ log. log_of log.now) result ≡ log_in (kept_of self.now) }
    {
        for node in &self.nodes {
            if let Node::Ended(log) = node {
                return Some(log);
            }
        }
        None
    }
}
