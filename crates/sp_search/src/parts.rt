// Blocks of nodes: where the next open leaf is among them, and how one is taken out and put back.

ghost use Rattle.std.specs.Prelude.{◌≡◌, ◌≤◌, ◌<◌, ◌++◌, ◌||◌, IfOk, length, take, drop};
ghost use Rattle.std.specs.List.{insert, remove};
ghost use Rattle.sp_search.specs.BlockView.{nodes_of, kinds_of, all_of};
ghost use Rattle.sp_search.specs.InBlocks as among;
ghost use Rattle.sp_search.specs.NodeView.{node_at, nodes_at};
ghost use Rattle.sp_search.specs.Turning.{first_least};

use crate::block::Block;
use crate::class::first_leaf;
use crate::node::Node;
use std::alloc::{AllocError, Global};

// A block with more nodes is parted in two.
const MANY: usize = 256;

/// The block of these nodes.
pub fn block_of(nodes: Vec<Node>) -> Block
    ensures { nodes_of result ≡ nodes_at nodes.items }
{
    let first = first_leaf(&nodes);
    Block { nodes, first }
}

fn first_in(block: &Block) -> Option<(usize, u128)>
    ensures { result ≡ first_least 0 (nodes_of block.now) }
{
    block.first
}

// The block and the place in it that were found with their class, unless those in this block have the lesser class.
fn sooner_spot(
    found: Option<(usize, usize, u128)>,
    index: usize,
    first: Option<(usize, u128)>,
) -> Option<(usize, usize, u128)>
    ensures { result ≡ among.sooner_spot found (among.spot index first) }
{
    match (found, first) {
        (None, Some((place, class))) => Some((index, place, class)),
        (Some((_, _, least)), Some((place, class))) if class < least => Some((index, place, class)),
        _ => found,
    }
}

/// The block and the place in it of the first open leaf of the least class, and the class; none where no leaf has a move.
pub fn next_spot(blocks: &Vec<Block>) -> Option<(usize, usize, u128)>
    ensures { result ≡ among.first_spot 0 (kinds_of blocks.now.items) }
{
    let mut found = None;
    for (index, block) in blocks.iter().enumerate() {
        found = sooner_spot(found, index, first_in(block));
    }
    found
}

fn or_is_end(ended: bool, node: &Node) -> bool
    ensures { result ≡ (ended || among.is_end (node_at node.now)) }
{
    match node {
        Node::Ended(_) => true,
        Node::Open(_) | Node::Inner(_, _) => ended,
    }
}

/// Whether the search ends at one of the nodes.
pub fn ends(nodes: &Vec<Node>) -> bool
    ensures { result ≡ among.ends (nodes_at nodes.now.items) }
{
    let mut ended = false;
    for node in nodes {
        ended = or_is_end(ended, node);
    }
    ended
}

/// The blocks without the one at this index, and its nodes.
pub fn taken(mut blocks: Vec<Block>, index: usize) -> (Vec<Block>, Vec<Node>)
    requires { index < length blocks.items }
    ensures rest { kinds_of result.0.items ≡ remove (kinds_of blocks.items) index }
    ensures nodes { nodes_at result.1.items ≡ among.block_at index (kinds_of blocks.items) }
{
    let Block { nodes, first: _ } = blocks.remove(index);
    (blocks, nodes)
}

// The blocks with these nodes as a block at this index.
fn put(mut blocks: Vec<Block>, index: usize, nodes: Vec<Node>) -> Result<Vec<Block>, AllocError>
    requires { index ≤ length blocks.items }
    ensures { IfOk result (λ bs. kinds_of bs.items ≡ insert (kinds_of blocks.items) index (nodes_at nodes.items)) }
{
    blocks.insert(index, block_of(nodes))?;
    Ok(blocks)
}

/// The blocks with these nodes at this index, as two blocks where they are many.
///
/// # Errors
///
/// `AllocError` where memory is wanting.
pub fn with_nodes(
    blocks: Vec<Block>,
    index: usize,
    mut nodes: Vec<Node>,
) -> Result<Vec<Block>, AllocError>
    requires { index ≤ length blocks.items }
    ensures { IfOk result (λ bs. all_of bs.items ≡ among.joined (take index (kinds_of blocks.items)) ++ (nodes_at nodes.items ++ among.joined (drop index (kinds_of blocks.items)))) }
{
    if nodes.len() <= MANY {
        let whole = put(blocks, index, nodes)?;
        return Ok(whole);
    }
    let half = nodes.len() / 2;
    let behind = nodes.split_off(half)?;
    let longer = put(blocks, index, behind)?;
    let parted = put(longer, index, nodes)?;
    Ok(parted)
}

/// All nodes of the blocks.
///
/// # Errors
///
/// `AllocError` where memory is wanting.
pub fn all_nodes(alloc: Global, blocks: Vec<Block>) -> Result<Vec<Node>, AllocError>
    ensures { IfOk result (λ ns. nodes_at ns.items ≡ all_of blocks.items) }
{
    let mut nodes = Vec::new(alloc);
    for block in blocks {
        let Block {
            nodes: mut more,
            first: _,
        } = block;
        nodes.append(&mut more)?;
    }
    Ok(nodes)
}
