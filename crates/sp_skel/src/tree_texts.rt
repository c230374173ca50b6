// The texts of trees, written node by node.

ghost use Rattle.std.specs.Prelude.{◌≡◌, ◌∷◌, ◌++◌, suc, length, map, codes, OnOk, IfOk, string_bytes};
ghost use Rattle.sp_step.specs.View.{move_of};
ghost use Rattle.sp_search.specs.NodeView.{node_at};
ghost use Rattle.sp_search.specs.View.{tree_of};
ghost use Rattle.sp_skel.specs.AroundView.{around_of};
ghost use Rattle.sp_skel.specs.Nodes as nodes;
ghost use Rattle.sp_skel.specs.Places.{HasPlace, HavePlaces};
ghost use Rattle.sp_skel.specs.TreeText as spec;

use crate::around::{depth, pop_names, push_names};
use crate::lines::{leaf_text, move_text, write_line};
use sp_search::{Node, Tree};
use sp_step::moves::Move;
use std::alloc::{AllocError, Global};

/// Puts the line of a case at the end, inside which the text goes on then.
fn write_case<'a>(
    out: &mut String,
    around: &mut Vec<&'a [String]>,
    name: &String,
    later: &'a [String],
) -> Result<(), AllocError>
    ensures text { OnOk result (string_bytes out.new ≡ string_bytes out.old ++ spec.line (suc (length (around_of around.old.items))) (codes "case " ++ string_bytes name.now)) }
    ensures around { OnOk result (around_of around.new.items ≡ map string_bytes later.now ∷ around_of around.old.items) }
{
    push_names(around, later)?;
    write_line(out, depth(around), "case ", name)
}

/// Puts at the end what stands behind a tree, up to the next case.
fn write_behind(out: &mut String, around: &mut Vec<&[String]>) -> Result<(), AllocError>
    ensures text { OnOk result (string_bytes out.new ≡ string_bytes out.old ++ (nodes.behind (around_of around.old.items)).0) }
    ensures around { OnOk result (around_of around.new.items ≡ (nodes.behind (around_of around.old.items)).1) }
{
    while let Some(names) = pop_names(around) {
        if let Some((name, later)) = names.split_first() {
            write_line(out, depth(around), "next", "")?;
            return write_case(out, around, name, later);
        }
        write_line(out, depth(around), "qed", "")?;
    }
    Ok(())
}

/// Puts the line of a move without cases at the end, and what stands behind it.
fn write_leaf(
    alloc: Global,
    out: &mut String,
    around: &mut Vec<&[String]>,
    chosen: &Move,
) -> Result<(), AllocError>
    ensures text { OnOk result (string_bytes out.new ≡ string_bytes out.old ++ (nodes.leaf (around_of around.old.items) (move_of chosen.now)).0) }
    ensures around { OnOk result (around_of around.new.items ≡ (nodes.leaf (around_of around.old.items) (move_of chosen.now)).1) }
    ensures place { OnOk result (HasPlace (move_of chosen.now)) }
{
    let words = leaf_text(alloc, chosen)?;
    write_line(out, depth(around), "", &words)?;
    write_behind(out, around)
}

/// Puts the line of a move over cases at the end, and that of the first case unless it is the only one and has no name.
fn write_move<'a>(
    alloc: Global,
    out: &mut String,
    around: &mut Vec<&'a [String]>,
    chosen: &Move,
    name: &String,
    later: &'a [String],
) -> Result<(), AllocError>
    ensures text { OnOk result (string_bytes out.new ≡ string_bytes out.old ++ (nodes.over_cases (around_of around.old.items) (move_of chosen.now) (string_bytes name.now) (map string_bytes later.now)).0) }
    ensures around { OnOk result (around_of around.new.items ≡ (nodes.over_cases (around_of around.old.items) (move_of chosen.now) (string_bytes name.now) (map string_bytes later.now)).1) }
    ensures place { OnOk result (HasPlace (move_of chosen.now)) }
{
    let words = move_text(alloc, chosen)?;
    write_line(out, depth(around), "", &words)?;
    if name.is_empty() && later.is_empty() {
        return Ok(());
    }
    write_case(out, around, name, later)
}

/// Puts the lines of a node at the end.
fn write_node<'a>(
    alloc: Global,
    out: &mut String,
    around: &mut Vec<&'a [String]>,
    node: &'a Node,
) -> Result<(), AllocError>
    ensures text { OnOk result (string_bytes out.new ≡ string_bytes out.old ++ (nodes.written (around_of around.old.items) (node_at node.now)).0) }
    ensures around { OnOk result (around_of around.new.items ≡ (nodes.written (around_of around.old.items) (node_at node.now)).1) }
    ensures place { OnOk result (HasPlace (nodes.move_at (node_at node.now))) }
{
    match node {
        Node::Open(_) => write_leaf(alloc, out, around, &Move::Unproved),
        Node::Ended(_) => write_leaf(alloc, out, around, &Move::Solved),
        Node::Inner(chosen, names) => match names.as_slice().split_first() {
            Some((name, later)) => write_move(alloc, out, around, chosen, name, later),
            None => write_leaf(alloc, out, around, chosen),
        },
    }
}

/// The text of a proof tree. The places that it names are those of lists in memory, so each is read back.
///
/// # Errors
///
/// `AllocError` where memory is wanting.
pub fn tree_text(alloc: Global, tree: &Tree) -> Result<String, AllocError>
    ensures text { IfOk result (λ text. string_bytes text ≡ spec.tree_text 0 (tree_of tree.now)) }
    ensures places { OnOk result (HavePlaces (tree_of tree.now)) }
{
    let mut out = String::new(alloc);
    let mut around = Vec::new(alloc);
    for node in &tree.nodes {
        write_node(alloc, &mut out, &mut around, node)?;
    }
    Ok(out)
}
