// Proof trees as they are read from a text.

ghost use Rattle.std.specs.Prelude.{length};
ghost use Rattle.sp_spec_nodes.specs.Preorder.{AreTrees, AreTrees-prop};

use sp_step::moves::Move;
use std::alloc::{AllocError, Global};

/// What the text of a node says.
#[derive(Drop)]
pub enum Step {
    /// a move
    Known(Move),
    /// no move, by its text
    Unknown(Vec<u8>),
}

/// A node of a proof tree as it is read.
#[derive(Drop)]
pub struct Node {
    /// what it says
    pub step: Step,
    /// the names of its cases, in their order; a name is empty where a case has none
    pub cases: Vec<String>,
}

/// A proof tree as it is read, before it is judged.
#[derive(Drop)]
pub struct Skeleton {
    /// its nodes in preorder: each stands before the trees of its cases, the first first
    pub nodes: Vec<Node>,
    pub ghost is_one: { AreTrees (λ n. length n.cases.items) 1 nodes.items } by { AreTrees-prop (λ n. length n.cases.items) 1 nodes.items },
}

impl Skeleton {
    ghost use Rattle.std.specs.Prelude.{◌≡◌, IfOk, MatchOption};
    ghost use Rattle.sp_check.specs.Skeleton.{node_read, none_read};
    ghost use Rattle.sp_check.specs.View.{step_of, skeleton_of};

    /// The tree of these nodes, if they are those of one tree.
    pub fn new(nodes: Vec<Node>) -> Option<Skeleton>
        ensures { MatchOption result (AreTrees (λ n. length n.cases.items) 1 nodes.items → ⊥) (λ k. k.nodes ≡ nodes) }
    {
        let mut awaited: usize = 1;
        for node in &nodes {
            awaited = awaited.checked_sub(1)?.checked_add(node.cases.len())?;
        }
        if awaited == 0 {
            Some(Skeleton { nodes })
        } else {
            None
        }
    }

    /// A tree of one node.
    ///
    /// # Errors
    ///
    /// There is no memory.
    pub fn leaf(alloc: Global, step: Step) -> Result<Skeleton, AllocError>
        ensures { IfOk result (λ k. skeleton_of k ≡ node_read (step_of step) none_read) }
    {
        let cases = Vec::new(alloc);
        let nodes = vec![in alloc; Node { step, cases }]?;
        Ok(Skeleton { nodes })
    }
}
