//! The list of nodes, when a node is taken out of it with its descendants.

ghost use Rattle.std.specs.Prelude.{◌≡◌, ◌+◌, ◌<◌, ◌≤◌, ℕ, length, map, slice_index, slice_index_or, slice_set};
ghost use Rattle.std.specs.List.{remove_range};
ghost use Rattle.lay_units.specs.Limits.{most_text};
ghost use Rattle.lay_doc.specs.declared.node.Node.{Node};
ghost use Rattle.lay_doc.specs.Document.{parents_of, text_size};
ghost use Rattle.lay_doc.specs.Tree.{IsTree, IsSlot, child_count};
ghost use Rattle.lay_doc.specs.Removal.{closed_up, moved_back, removed_between};

use crate::columns::text_bytes_at;
use crate::node::Node;

/// Takes out the nodes from the place `from` up to `to`, which are a node and its descendants, and moves
/// the places of the parents behind them.
pub fn remove_between(nodes: &mut Vec<Node>, from: usize, to: usize)
    requires tree { IsTree (parents_of nodes.old.items) }
    requires from { from < length nodes.old.items }
    requires not_root { 0 < from }
    requires end { IsSlot (parents_of nodes.old.items) from (child_count (parents_of nodes.old.items) from) to }
    ensures { nodes.new.items ≡ removed_between nodes.old.items from to }
{
    cut(nodes, from, to);
    close_parents(nodes, from, to);
}

/// The bytes of the texts of the nodes from the place `from` up to `to`.
pub fn text_bytes_between(nodes: &[Node], from: usize, to: usize) -> usize
    requires from { from ≤ to }
    requires to { to ≤ length nodes.now }
    requires small { text_size nodes.now ≤ most_text }
    ensures { result + text_size (remove_range nodes.now from to) ≡ text_size nodes.now }
{
    let mut bytes = 0;
    for k in from..to {
        bytes += text_bytes_at(nodes, k);
    }
    bytes
}

/// Takes out the nodes from the place `from` up to `to`.
fn cut(nodes: &mut Vec<Node>, from: usize, to: usize)
    requires from { from ≤ to }
    requires to { to ≤ length nodes.old.items }
    ensures { nodes.new.items ≡ remove_range nodes.old.items from to }
{
    nodes.drain(from..to);
}

/// Moves the places of the parents, after the nodes from the place `from` up to `to` were taken out. The
/// parents of the nodes before them stand before them too.
fn close_parents(nodes: &mut Vec<Node>, from: usize, to: usize)
    requires from { from ≤ to }
    requires kept { (k : ℕ) → k < length nodes.old.items → from ≤ slice_index (parents_of nodes.old.items) k
        → to ≤ slice_index (parents_of nodes.old.items) k }
    requires before { (k : ℕ) → k < from → slice_index (parents_of nodes.old.items) k < from }
    ensures { nodes.new.items ≡ map (moved_back from to) nodes.old.items }
{
    for k in from..nodes.len() {
        close_parent(nodes, k, from, to);
    }
}

/// Moves the place of the parent of the node at `k`.
fn close_parent(nodes: &mut Vec<Node>, k: usize, from: usize, to: usize)
    requires k { k < length nodes.old.items }
    requires from { from ≤ to }
    requires kept { from ≤ slice_index (parents_of nodes.old.items) k → to ≤ slice_index (parents_of nodes.old.items) k }
    ensures { (d : Node) → nodes.new.items ≡ slice_set nodes.old.items k (moved_back from to (slice_index_or nodes.old.items k d)) }
{
    nodes[k].parent = closed_up(nodes[k].parent, from, to);
}

/// A place outside of those from `from` up to `to`, after these were taken out.
fn closed_up(place: usize, from: usize, to: usize) -> usize
    requires from { from ≤ to }
    requires kept { from ≤ place → to ≤ place }
    ensures { result ≡ closed_up from to place }
{
    if place < from {
        place
    } else {
        place - (to - from)
    }
}
