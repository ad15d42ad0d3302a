//! The list of nodes and its index, when a node is put into it.

ghost use Rattle.std.specs.Prelude.{◌≡◌, ◌<◌, ◌≤◌, ℕ, None, length, map, slice_index};
ghost use Rattle.std.specs.Prelude.{slice_index_or, slice_set, vec_capacity, vec_len, OnOk, OnErr};
ghost use Rattle.std.specs.List.{insert};
ghost use Rattle.lay_units.specs.Limits.{most_nodes};
ghost use Rattle.lay_style.specs.Places.{place_of};
ghost use Rattle.lay_doc.specs.Document.{ids_of, parents_of, moved, inserted};
ghost use Rattle.lay_doc.specs.Tree.{IsTree};
ghost use Rattle.lay_doc.specs.declared.node.Node.{Node};
ghost use Rattle.lay_doc.specs.Index.{IsIndexOf};

use crate::index::{IdIndex, place_after};
use crate::node::Node;
use lay_units::NoMemory;

/// Puts a node before the place `at`, and moves the places of the parents behind it. On an error all is as
/// before.
pub fn put_node(
    nodes: &mut Vec<Node>,
    index: &mut IdIndex,
    at: usize,
    node: Node,
) -> Result<(), NoMemory>
    requires at { at ≤ length nodes.old.items }
    requires few { length nodes.old.items < most_nodes }
    requires tree { IsTree (parents_of nodes.old.items) }
    requires parent { node.parent < at }
    requires fresh { place_of node.id.0 (ids_of nodes.old.items) ≡ None }
    requires index { IsIndexOf index.old (ids_of nodes.old.items) }
    ensures ok { OnOk result (nodes.new.items ≡ inserted nodes.old.items at node) }
    ensures err { OnErr result (nodes.new.items ≡ nodes.old.items) }
    ensures indexed { IsIndexOf index.new (ids_of nodes.new.items) }
{
    nodes.reserve(1)?;
    index.add(node.id.0, at)?;
    insert_within(nodes, at, node);
    shift_parents(nodes, at);
    Ok(())
}

/// Inserts into a list that has room for one more.
fn insert_within(nodes: &mut Vec<Node>, at: usize, node: Node)
    requires at { at ≤ length nodes.old.items }
    requires room { vec_len nodes.old < vec_capacity nodes.old }
    ensures { nodes.new.items ≡ insert nodes.old.items at node }
{
    if nodes.insert(at, node).is_err() {
        unreachable!()
    }
}

/// Moves the places of the parents for the node that was put in at `at`. The parents of the nodes before
/// it stand before it too, so nothing is done where it is the last one.
fn shift_parents(nodes: &mut Vec<Node>, at: usize)
    requires at { at ≤ length nodes.old.items }
    requires small { (k : ℕ) → k < length nodes.old.items → slice_index (parents_of nodes.old.items) k < most_nodes }
    requires before { (k : ℕ) → k < at → slice_index (parents_of nodes.old.items) k < at }
    ensures { nodes.new.items ≡ map (moved at) nodes.old.items }
{
    for k in at..nodes.len() {
        shift_parent(nodes, k, at);
    }
}

/// Moves the place of the parent of the node at `k`.
fn shift_parent(nodes: &mut Vec<Node>, k: usize, at: usize)
    requires k { k < length nodes.old.items }
    requires small { slice_index (parents_of nodes.old.items) k < most_nodes }
    ensures { (d : Node) → nodes.new.items ≡ slice_set nodes.old.items k (moved at (slice_index_or nodes.old.items k d)) }
{
    nodes[k].parent = place_after(nodes[k].parent, at);
}
