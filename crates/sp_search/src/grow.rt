// Trees are grown, one open leaf after the other, until the search ends at one.

ghost use Rattle.std.specs.Prelude.{◌≡◌, ◌<◌, false, length, map, option_map, string_bytes, IfOk};
ghost use Rattle.sp_system.specs.SystemView.{system_of};
ghost use Rattle.sp_step.specs.View.{context_of, move_of, case_of};
ghost use Rattle.sp_spec_proof.specs.Cases.{cases};
ghost use Rattle.sp_spec_proof.specs.Choice as choosing;
ghost use Rattle.sp_spec_proof.specs.Growth as growth;
ghost use Rattle.sp_spec_proof.specs.Tree.{found_log};
ghost use Rattle.sp_search.specs.BlockView.{all_of, kinds_of};
ghost use Rattle.sp_search.specs.Kept.{log_in};
ghost use Rattle.sp_search.specs.Kinds.{kept, open_leaf};
ghost use Rattle.sp_search.specs.Growing as growing;
ghost use Rattle.sp_search.specs.InBlocks as among;
ghost use Rattle.sp_search.specs.NodeView.{leaf_of, node_at, nodes_at};
ghost use Rattle.sp_search.specs.Turning as turning;
ghost use Rattle.sp_search.specs.View.{kept_of, tree_of};
ghost use Rattle.sp_spec_system.specs.Move.{end_log};

use crate::blocks::Blocks;
use crate::class::deeper;
use crate::node::{Node, OpenLeaf};
use crate::parts::{all_nodes, block_of, ends, next_spot, taken, with_nodes};
use crate::tree::Tree;
use sp_step::choose::choice;
use sp_step::context::Context;
use sp_step::moves::{Case, Move, cases};
use sp_system::system::System;
use std::alloc::{AllocError, Global};

fn open_leaf(
    alloc: Global,
    context: &Context,
    depth: u64,
    system: System,
) -> Result<Node, AllocError>
    ensures { IfOk result (λ n. node_at n ≡ open_leaf (system_of system) (choosing.choice (context_of context.now) (system_of system)) depth) }
{
    let chosen = choice(alloc, context, &system)?;
    let leaf = OpenLeaf {
        system,
        choice: chosen,
        depth,
    };
    let boxed = Box::new(alloc, leaf)?;
    Ok(Node::Open(boxed))
}

// The names of the cases, and an open leaf at each.
fn leaves_at(
    alloc: Global,
    context: &Context,
    depth: u64,
    found: Vec<Case>,
) -> Result<(Vec<String>, Vec<Node>), AllocError>
    ensures names { IfOk result (λ r. map string_bytes r.0.items ≡ map turning.name_of (map case_of found.items)) }
    ensures leaves { IfOk result (λ r. nodes_at r.1.items ≡ map (turning.open_node (context_of context.now) depth) (map case_of found.items)) }
{
    let mut names = Vec::with_capacity(alloc, found.len())?;
    let mut leaves = Vec::with_capacity(alloc, found.len())?;
    for case in found {
        names.push(case.name)?;
        leaves.push(open_leaf(alloc, context, depth, case.system)?)?;
    }
    Ok((names, leaves))
}

// The move, and behind it an open leaf at each case.
fn move_nodes(
    alloc: Global,
    context: &Context,
    chosen: Move,
    depth: u64,
    found: Vec<Case>,
) -> Result<Vec<Node>, AllocError>
    ensures { IfOk result (λ ns. nodes_at ns.items ≡ turning.move_nodes (context_of context.now) (move_of chosen) depth (map case_of found.items)) }
{
    let (names, mut leaves) = leaves_at(alloc, context, depth, found)?;
    let mut nodes = Vec::new(alloc);
    nodes.push(Node::Inner(chosen, names))?;
    nodes.append(&mut leaves)?;
    Ok(nodes)
}

// The cases of the move; without any where it is no instance.
fn cases_of(
    alloc: Global,
    context: &Context,
    system: &System,
    chosen: &Move,
) -> Result<Vec<Case>, AllocError>
    ensures { IfOk result (λ cs. map case_of cs.items ≡ growing.cases_or_none (cases (context_of context.now) (system_of system.now) (move_of chosen.now))) }
{
    match cases(alloc, context, system, chosen)? {
        Some(found) => Ok(found),
        None => Ok(Vec::new(alloc)),
    }
}

// The leaf with which the search ends, with its log.
fn ended(alloc: Global, context: &Context, system: &System) -> Result<Node, AllocError>
    ensures { IfOk result (λ n. node_at n ≡ turning.end_node (end_log (context_of context.now) (system_of system.now))) }
{
    match context.found(alloc, system)? {
        Some(log) => {
            let boxed = Box::new(alloc, log)?;
            Ok(Node::Ended(boxed))
        }
        None => Ok(Node::Inner(Move::Solved, Vec::new(alloc))),
    }
}

// The nodes that come in place of the leaf's: the move, with an open leaf at each case.
fn replaced(
    alloc: Global,
    context: &Context,
    leaf: &OpenLeaf,
    chosen: &Move,
) -> Result<Vec<Node>, AllocError>
    ensures { IfOk result (λ ns. nodes_at ns.items ≡ turning.replaced_nodes (context_of context.now) (system_of leaf.now.system) (move_of chosen.now) leaf.now.depth) }
{
    if matches!(chosen, Move::Solved) {
        let mut nodes = Vec::new(alloc);
        nodes.push(ended(alloc, context, &leaf.system)?)?;
        return Ok(nodes);
    }
    let depth = deeper(leaf.depth)?;
    let found = cases_of(alloc, context, &leaf.system, chosen)?;
    let chosen = chosen.clone()?;
    move_nodes(alloc, context, chosen, depth, found)
}

// The open leaf at this place.
fn leaf_at(nodes: &Vec<Node>, place: usize) -> Option<&OpenLeaf>
    ensures { option_map (λ leaf. leaf_of leaf.now) result ≡ turning.leaf_at place (nodes_at nodes.now.items) }
{
    match nodes.get(place)? {
        Node::Open(leaf) => Some(leaf),
        Node::Ended(_) | Node::Inner(_, _) => None,
    }
}

// The nodes with the open leaf at this place replaced.
fn grown_at(
    alloc: Global,
    context: &Context,
    mut nodes: Vec<Node>,
    place: usize,
) -> Result<Vec<Node>, AllocError>
    ensures { IfOk result (λ ns. nodes_at ns.items ≡ turning.grown_at (context_of context.now) place (nodes_at nodes.items)) }
{
    let Some(leaf) = leaf_at(&nodes, place) else {
        return Ok(nodes);
    };
    let Some(ranked) = &leaf.choice else {
        return Ok(nodes);
    };
    let made = replaced(alloc, context, leaf, &ranked.chosen)?;
    let _replaced = nodes.splice(place..place + 1, made)?;
    Ok(nodes)
}

// The tree with the leaf at this place of this block replaced.
fn grown_block(
    alloc: Global,
    context: &Context,
    tree: Blocks,
    index: usize,
    place: usize,
) -> Result<Blocks, AllocError>
    requires inside { place < length (among.block_at index (kinds_of tree.blocks.items)) }
    requires goes_on { tree.ended ≡ false }
    ensures { IfOk result (λ t. all_of t.blocks.items ≡ among.grown_in_block (context_of context.now) index place (kinds_of tree.blocks.items)) }
{
    let Blocks { blocks, ended: _ } = tree;
    let (others, nodes) = taken(blocks, index);
    let grown = grown_at(alloc, context, nodes, place)?;
    let ended = ends(&grown);
    let blocks = with_nodes(others, index, grown)?;
    Ok(Blocks { blocks, ended })
}

// The tree with the first open leaf of the least class replaced, and whether there was one; the tree itself, once the search has ended.
fn turn(alloc: Global, context: &Context, tree: Blocks) -> Result<(Blocks, bool), AllocError>
    ensures { IfOk result (λ r. (kept (all_of r.0.blocks.items), r.1) ≡ growing.turn (context_of context.now) (kept (all_of tree.blocks.items))) }
{
    if tree.ended {
        return Ok((tree, false));
    }
    match next_spot(&tree.blocks) {
        Some((index, place, _)) => {
            let grown = grown_block(alloc, context, tree, index, place)?;
            Ok((grown, true))
        }
        None => Ok((tree, false)),
    }
}

// The tree with which growth begins: the system's own leaf.
fn open_tree(alloc: Global, context: &Context, root: System) -> Result<Blocks, AllocError>
    ensures { IfOk result (λ t. kept (all_of t.blocks.items) ≡ growing.open_leaf (context_of context.now) 0 (system_of root)) }
{
    let mut nodes = Vec::new(alloc);
    nodes.push(open_leaf(alloc, context, 0, root)?)?;
    let mut blocks = Vec::new(alloc);
    blocks.push(block_of(nodes))?;
    Ok(Blocks {
        blocks,
        ended: false,
    })
}

// The tree of the blocks.
fn whole(alloc: Global, tree: Blocks) -> Result<Tree, AllocError>
    ensures { IfOk result (λ t. kept_of t ≡ kept (all_of tree.blocks.items)) }
{
    let Blocks { blocks, ended: _ } = tree;
    let nodes = all_nodes(alloc, blocks)?;
    Ok(Tree { nodes })
}

/// The tree for this system, grown as often as the budget says and as there is a leaf with a move, until the search ends at a leaf: there
/// it keeps the log.
///
/// # Errors
///
/// `AllocError` where memory is wanting, or no number is left for a new variable.
pub fn grown_tree(
    alloc: Global,
    context: &Context,
    root: System,
    budget: u64,
) -> Result<Tree, AllocError>
    ensures tree { IfOk result (λ t. tree_of t ≡ growth.grown_tree (context_of context.now) (system_of root) budget) }
    ensures log { IfOk result (λ t. log_in (kept_of t) ≡ found_log (context_of context.now) (system_of root) (tree_of t)) }
{
    let mut tree = open_tree(alloc, context, root)?;
    for turns in 0..budget {
        let (next, grew) = turn(alloc, context, tree)?;
        if !grew {
            let stopped = whole(alloc, next)?;
            return Ok(stopped);
        }
        tree = next;
    }
    let grown = whole(alloc, tree)?;
    Ok(grown)
}
