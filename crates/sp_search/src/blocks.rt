// Trees that grow, as blocks of their nodes.

ghost use Rattle.std.specs.Prelude.{◌≡◌};
ghost use Rattle.sp_spec_nodes.specs.Preorder.{AreTrees, AreTrees-prop};
ghost use Rattle.sp_search.specs.BlockView.{all_of};
ghost use Rattle.sp_search.specs.InBlocks.{ends};
ghost use Rattle.sp_search.specs.Kinds.{case_count};

use crate::block::Block;

/// The nodes of a tree that grows, in preorder, in blocks, so that a turn changes one of these and looks at no node of the others.
#[derive(Drop)]
pub struct Blocks {
    /// the blocks, of which none is long
    pub blocks: Vec<Block>,
    /// whether the search ends at a node
    pub ended: bool,
    ghost is_one: { AreTrees case_count 1 (all_of blocks.items) } by { AreTrees-prop case_count 1 (all_of blocks.items) },
    ghost is_ended: { ended ≡ ends (all_of blocks.items) },
}
