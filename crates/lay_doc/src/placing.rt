//! Where a node is put below its parent.

ghost use Rattle.std.specs.Prelude.{◌≡◌, ◌<◌, ◌≤◌, ℕ, IsTrue, length, slice_index};
ghost use Rattle.lay_units.specs.Limits.{most_nodes};
ghost use Rattle.lay_doc.specs.Document.{parents_of};
ghost use Rattle.lay_doc.specs.Tree.{IsTree, IsSlot, child_count};

use crate::columns::parent_at;
use crate::node::Node;

/// How many children the node at a place has.
pub fn child_count(nodes: &[Node], place: usize) -> u32
    requires few { length nodes.now ≤ most_nodes }
    requires place { place < length nodes.now }
    ensures { result ≡ child_count (parents_of nodes.now) place }
{
    let mut count: u32 = 0;
    for at in place + 1..nodes.len() {
        if parent_at(nodes, at) == place {
            count += 1;
        }
    }
    count
}

/// Where the child of the node at `parent` with this index stands, or the place after its subtree where
/// the index is the number of its children.
pub fn slot(nodes: &[Node], parent: usize, index: u32) -> usize
    requires tree { IsTree (parents_of nodes.now) }
    requires parent { parent < length nodes.now }
    requires index { index ≤ child_count (parents_of nodes.now) parent }
    ensures { IsSlot (parents_of nodes.now) parent index result }
{
    let mut seen: u32 = 0;
    for at in parent + 1..nodes.len() {
        let here = parent_at(nodes, at);
        if here < parent {
            return at;
        }
        if here == parent {
            if seen == index {
                return at;
            }
            seen += 1;
        }
    }
    nodes.len()
}

/// The place after the subtree of the node at `parent`. Where that is the end, as while nodes are read in
/// document order, at most as many nodes are looked at as the last one is deep.
pub fn last_slot(nodes: &[Node], parent: usize) -> usize
    requires tree { IsTree (parents_of nodes.now) }
    requires parent { parent < length nodes.now }
    ensures { IsSlot (parents_of nodes.now) parent (child_count (parents_of nodes.now) parent) result }
{
    if has_last(nodes, parent) {
        nodes.len()
    } else {
        subtree_end(nodes, parent)
    }
}

/// Whether the last node lies in the subtree of the node at a place.
fn has_last(nodes: &[Node], place: usize) -> bool
    requires tree { IsTree (parents_of nodes.now) }
    requires place { place < length nodes.now }
    ensures { IsTrue result → (k : ℕ) → place < k → k < length nodes.now → place ≤ slice_index (parents_of nodes.now) k }
{
    let mut at = nodes.len() - 1;
    while at > place {
        at = parent_at(nodes, at);
    }
    at == place
}

/// The place after the subtree of the node at `parent`.
fn subtree_end(nodes: &[Node], parent: usize) -> usize
    requires tree { IsTree (parents_of nodes.now) }
    requires parent { parent < length nodes.now }
    ensures { IsSlot (parents_of nodes.now) parent (child_count (parents_of nodes.now) parent) result }
{
    for at in parent + 1..nodes.len() {
        if parent_at(nodes, at) < parent {
            return at;
        }
    }
    nodes.len()
}
