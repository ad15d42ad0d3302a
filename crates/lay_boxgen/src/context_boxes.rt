//! The boxes of a context.

ghost use Rattle.std.specs.Prelude.{◌≡◌, ◌<◌, ◌≤◌, IfOk, length};
ghost use Rattle.lay_units.specs.Limits.{most_nodes};
ghost use Rattle.lay_box_tree.specs.BoxColumns.{IsBoxTree};
ghost use Rattle.lay_boxgen.specs.CutTrees.{cut_tree_at, generated_cut};
ghost use Rattle.lay_boxgen.specs.Listing.{boxes_of, boxes_at, listed_part};
ghost use Rattle.lay_boxgen.specs.Parts.{part};

use crate::generation::generate;
use crate::listing::{Sources, listed_part};
use crate::node_trees::context_tree;
use crate::subtree::Subtree;
use lay_box_tree::{BoxNode, BoxTree};
use lay_doc::{Doc, Node, NodeId};
use lay_style::{Computed, Style};
use lay_units::NoMemory;
use std::alloc::Global;

/// The boxes of the context of the node with this id: what the document's boxes have inside the box of the
/// node, and not inside boxes of inner contexts. A style is given for each node. There is no box where no
/// node has the id.
pub fn boxes(alloc: Global, doc: &Doc, style: &Computed, node: NodeId) -> Result<BoxTree, NoMemory>
    requires styles { length style.now ≡ length doc.now.nodes }
    ensures { IfOk result (λ t. t ≡ boxes_of doc.now style.now node.0) }
{
    let boxes = match doc.find(node) {
        None => Vec::new(alloc),
        Some(place) => boxes_at(alloc, doc.nodes(), style.as_slice(), place)?,
    };
    Ok(BoxTree::new(boxes))
}

/// The boxes of the context of the node at a place.
fn boxes_at(
    alloc: Global,
    nodes: &[Node],
    styles: &[Style],
    place: usize,
) -> Result<Vec<BoxNode>, NoMemory>
    requires place { place < length nodes.now }
    requires styles { length styles.now ≡ length nodes.now }
    requires few { length nodes.now ≤ most_nodes }
    ensures boxes { IfOk result (λ v. v.items ≡ listed_part nodes.now styles.now (part nodes.now styles.now place)) }
    ensures tree { IfOk result (λ v. IsBoxTree v.items) }
{
    let tree = context_tree(alloc, nodes, styles, place)?;
    boxes_of_tree(alloc, Sources { nodes, styles }, place, tree)
}

/// The same, of the tree of the context before any rule.
pub(crate) fn boxes_of_tree(
    alloc: Global,
    sources: Sources<'_>,
    place: usize,
    tree: Option<Subtree>,
) -> Result<Vec<BoxNode>, NoMemory>
    requires { tree ≡ cut_tree_at sources.nodes.now sources.styles.now place }
    ensures boxes { IfOk result
        (λ v. v.items
        ≡ listed_part sources.entry.nodes.now sources.entry.styles.now (part sources.entry.nodes.now sources.entry.styles.now place)) }
    ensures tree { IfOk result (λ v. IsBoxTree v.items) }
{
    let _ = place;
    let trees = generate_own(alloc, tree)?;
    listed_part(alloc, sources, &trees)
}

/// What is generated of the tree of a context, if there is one.
fn generate_own(alloc: Global, tree: Option<Subtree>) -> Result<Vec<Subtree>, NoMemory>
    ensures { IfOk result (λ v. v.items ≡ generated_cut tree) }
{
    match tree {
        None => Ok(Vec::new(alloc)),
        Some(tree) => generate(alloc, tree),
    }
}
