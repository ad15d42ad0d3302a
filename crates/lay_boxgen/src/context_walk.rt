//! The boxes of all contexts of a document, in one walk over its nodes.

ghost use Rattle.std.specs.Prelude.{ℕ, ◌≡◌, ◌<◌, ◌≤◌, ◌+◌, ◌-◌, Some, IfOk, IsTrue, OnOk};
ghost use Rattle.std.specs.Prelude.{true, false, length, option_map, reverse, slice_index};
ghost use Rattle.lay_boxgen.specs.Boxes.{facts_of};
ghost use Rattle.lay_boxgen.specs.Contexts.{IsContextAt};
ghost use Rattle.lay_boxgen.specs.ContextWalk.{IsWalkedTo, Rise, as_leaves, boxes_at_places, is_context_tree};
ghost use Rattle.lay_boxgen.specs.CutTrees.{as_leaf};
ghost use Rattle.lay_boxgen.specs.NodeTrees.{first_tree};
ghost use Rattle.lay_boxgen.specs.Parts.{is_closed, own_tree};

use crate::context_boxes::boxes_of_tree;
use crate::listing::Sources;
use crate::node_trees::{NodeTree, as_leaf, own_tree, put_node};
use crate::subtree::Subtree;
use lay_box_tree::BoxTree;
use lay_doc::Doc;
use lay_style::{Computed, style_at};
use lay_units::NoMemory;
use std::alloc::Global;

/// What is known on the way: the trees of the nodes behind, the boxes of the contexts among them, the last ones first, and
/// how many of the places of contexts are left.
#[derive(Drop)]
struct Walk {
    stack: Vec<NodeTree>,
    boxes: Vec<BoxTree>,
    left: usize,
}

/// The boxes of the contexts of the nodes at these places, as `boxes` says them of one; those of the last place come first.
/// Each of the nodes is a context, and a style is given for each node.
pub fn boxes_of_contexts(
    alloc: Global,
    doc: &Doc,
    style: &Computed,
    places: &[usize],
) -> Result<Vec<BoxTree>, NoMemory>
    requires styles { length style.now ≡ length doc.now.nodes }
    requires within { (j : ℕ) → j < length places.now → slice_index places.now j < length doc.now.nodes }
    requires contexts { (j : ℕ) → j < length places.now → IsContextAt doc.now.nodes style.now (slice_index places.now j) }
    requires rising { Rise places.now }
    ensures { IfOk result (λ v. reverse v.items ≡ boxes_at_places doc.now.nodes style.now places.now) }
{
    let sources = Sources {
        nodes: doc.nodes(),
        styles: style.as_slice(),
    };
    let mut walk = Walk {
        stack: Vec::new(alloc),
        boxes: Vec::with_capacity(alloc, places.len())?,
        left: places.len(),
    };
    let count = sources.nodes.len();
    for done in 0..count {
        walk_over(alloc, sources, places, count - 1 - done, &mut walk)?;
    }
    Ok(walk.boxes)
}

/// Walks over the node at a place.
fn walk_over(
    alloc: Global,
    sources: Sources<'_>,
    places: &[usize],
    at: usize,
    walk: &mut Walk,
) -> Result<(), NoMemory>
    requires place { at < length sources.nodes.now }
    requires styles { length sources.styles.now ≡ length sources.nodes.now }
    requires contexts { (j : ℕ) → j < length places.now → IsContextAt sources.nodes.now sources.styles.now (slice_index places.now j) }
    requires rising { Rise places.now }
    requires before { IsWalkedTo sources.nodes.now sources.styles.now places.now
        (at + 1) walk.old.stack.items walk.old.boxes.items walk.old.left }
    ensures { OnOk result
        (IsWalkedTo sources.entry.nodes.now sources.entry.styles.now places.now at walk.new.stack.items walk.new.boxes.items
        walk.new.left) }
{
    let node = &sources.nodes[at];
    let style = style_at(sources.styles, at);
    put_node(alloc, at, node, style, &mut walk.stack)?;
    if !is_next(places, walk.left, at) {
        return Ok(());
    }
    let tree = take_context(alloc, &mut walk.stack)?;
    let boxes = boxes_of_tree(alloc, sources, at, Some(tree))?;
    walk.boxes.push(BoxTree::new(boxes))?;
    walk.left -= 1;
    Ok(())
}

/// Whether the last one left of these places is this one.
fn is_next(places: &[usize], left: usize, at: usize) -> bool
    requires { left ≤ length places.now }
    ensures yes { IsTrue result → (0 < left) × (slice_index places.now (left - 1) ≡ at) }
    ensures no { result ≡ false → 0 < left → slice_index places.now (left - 1) ≡ at → ⊥ }
{
    left > 0 && places[left - 1] == at
}

/// Takes the tree on top, which is that of a context, seen from inside, and leaves what its parent has of it.
fn take_context(alloc: Global, stack: &mut Vec<NodeTree>) -> Result<Subtree, NoMemory>
    requires { is_context_tree (first_tree (reverse stack.old.items)) ≡ true }
    ensures own { IfOk result (λ t. option_map own_tree (first_tree (reverse stack.old.items)) ≡ Some t) }
    ensures leaves { OnOk result (as_leaves (reverse stack.new.items) ≡ as_leaves (reverse stack.old.items)) }
{
    let Some(
        NodeTree {
            parent,
            tree: Some(tree),
        },
    ) = stack.pop()
    else {
        unreachable!();
    };
    let leaf = leaf_of(alloc, &tree);
    stack.push(NodeTree {
        parent,
        tree: Some(leaf),
    })?;
    Ok(own_tree(tree))
}

/// What a parent has of the tree of a context.
fn leaf_of(alloc: Global, tree: &Subtree) -> Subtree
    requires { is_closed (facts_of tree.now) ≡ true }
    ensures { as_leaf result ≡ as_leaf tree.now }
{
    as_leaf(alloc, Subtree::new(tree.facts(), Vec::new(alloc)))
}
