//! From the nodes of a document to trees of boxes.

ghost use Rattle.std.specs.Prelude.{◌≡◌, ◌<◌, ◌≤◌, ◌+◌, OnOk, IfOk, length, option_map, reverse, slice_index};
ghost use Rattle.lay_units.specs.Limits.{most_nodes};
ghost use Rattle.lay_doc.specs.Document.{parents_of};
ghost use Rattle.lay_boxgen.specs.Boxes.{tree};
ghost use Rattle.lay_boxgen.specs.CutTrees.{as_leaf, cut_tree_at, is_child_first};
ghost use Rattle.lay_boxgen.specs.NodeTrees.{anchor_facts, children_of, others_than_children, box_with};
ghost use Rattle.lay_boxgen.specs.NodeTrees.{with_node_tree, node_trees, first_tree};
ghost use Rattle.lay_boxgen.specs.Parts.{is_closed, own_tree};

use crate::facts::{Facts, Form};
use crate::forms::{is_absolute, is_inline};
use crate::node_boxes::node_box;
use crate::subtree::Subtree;
use lay_box_tree::Flow;
use lay_doc::Node;
use lay_style::Style;
use lay_units::NoMemory;
use std::alloc::Global;

/// The tree of boxes of a node, if it generates a box, with the place of the node's parent.
#[derive(Drop)]
pub struct NodeTree {
    pub parent: usize,
    pub tree: Option<Subtree>,
}

/// Whether it is the box of an inner context.
pub fn is_closed(facts: Facts) -> bool
    ensures { result ≡ is_closed facts }
{
    facts.inner && !is_inline(facts.form)
}

/// The anchor of an absolute or fixed box.
fn anchor_facts(facts: Facts) -> Facts
    ensures { result ≡ anchor_facts facts }
{
    Facts {
        form: Form::Anchor,
        flow: Flow::Absolute,
        inner: true,
        ..facts
    }
}

/// The tree of a node as its parent has it in the part of a context.
pub fn as_leaf(alloc: Global, tree: Subtree) -> Subtree
    ensures { result ≡ as_leaf tree }
{
    let facts = tree.facts();
    if is_absolute(facts.flow) {
        Subtree::new(anchor_facts(facts), Vec::new(alloc))
    } else if is_closed(facts) {
        Subtree::new(facts, Vec::new(alloc))
    } else {
        tree
    }
}

/// Takes the children of the node at a place from the trees of the nodes behind it. The first node's tree
/// is on top of the stack.
fn take_children(
    alloc: Global,
    place: usize,
    stack: &mut Vec<NodeTree>,
) -> Result<Vec<Subtree>, NoMemory>
    ensures children { IfOk result (λ v. v.items ≡ children_of as_leaf place (reverse stack.old.items)) }
    ensures others { OnOk result (reverse stack.new.items ≡ others_than_children place (reverse stack.old.items)) }
{
    let mut children = Vec::new(alloc);
    while is_child_on_top(place, stack) {
        if let Some(
            NodeTree {
                parent: _,
                tree: Some(tree),
            },
        ) = stack.pop()
        {
            children.push(as_leaf(alloc, tree))?;
        }
    }
    Ok(children)
}

/// Whether the tree on top is of a child of the node at a place.
fn is_child_on_top(place: usize, stack: &[NodeTree]) -> bool
    ensures { result ≡ is_child_first place (reverse stack.now) }
{
    match stack.last() {
        None => false,
        Some(top) => top.parent == place,
    }
}

/// The box with these children, where there is one.
fn box_with(facts: Option<Facts>, children: Vec<Subtree>) -> Option<Subtree>
    ensures { result ≡ box_with facts children.items }
{
    match facts {
        None => None,
        Some(facts) => Some(Subtree::new(facts, children)),
    }
}

/// Puts a node, with its children in it, before the nodes behind it.
pub fn put_node(
    alloc: Global,
    place: usize,
    node: &Node,
    style: &Style,
    stack: &mut Vec<NodeTree>,
) -> Result<(), NoMemory>
    ensures { OnOk result (reverse stack.new.items ≡ with_node_tree as_leaf place node.now style.now (reverse stack.old.items)) }
{
    let children = take_children(alloc, place, stack)?;
    stack.push(NodeTree {
        parent: node.parent,
        tree: box_with(node_box(place, node, style), children),
    })?;
    Ok(())
}

/// The trees of nodes that stand from a place on, of which the first is on top.
fn grow(
    alloc: Global,
    first: usize,
    nodes: &[Node],
    styles: &[Style],
) -> Result<Vec<NodeTree>, NoMemory>
    requires styles { length styles.now ≡ length nodes.now }
    requires few { first + length nodes.now ≤ most_nodes }
    ensures { IfOk result (λ v. reverse v.items ≡ node_trees as_leaf first nodes.now styles.now) }
{
    let mut stack = Vec::new(alloc);
    let count = nodes.len();
    for done in 0..count {
        let at = count - 1 - done;
        put_node(alloc, first + at, &nodes[at], &styles[at], &mut stack)?;
    }
    Ok(stack)
}

/// The place behind the node at a place and all below it.
fn subtree_end(nodes: &[Node], place: usize) -> usize
    requires { place < length nodes.now }
    ensures after { place < result }
    ensures within { result ≤ length nodes.now }
    ensures next { result < length nodes.now → slice_index (parents_of nodes.now) result < place }
{
    for at in place + 1..nodes.len() {
        if nodes[at].parent < place {
            return at;
        }
    }
    nodes.len()
}

/// The same tree, whose own box is seen from inside.
pub fn own_tree(tree: Subtree) -> Subtree
    ensures { result ≡ own_tree tree }
{
    let Subtree { facts, children } = tree;
    let facts = Facts {
        inner: false,
        ..facts
    };
    Subtree { facts, children }
}

/// The same of a tree that may be there.
fn own_tree_of(tree: Option<Subtree>) -> Option<Subtree>
    ensures { result ≡ option_map own_tree tree }
{
    match tree {
        None => None,
        Some(tree) => Some(own_tree(tree)),
    }
}

/// The tree on top.
fn first_tree(mut stack: Vec<NodeTree>) -> Option<Subtree>
    ensures { result ≡ first_tree (reverse stack.items) }
{
    let NodeTree { parent: _, tree } = stack.pop()?;
    tree
}

/// The tree of the context of the node at a place, before any rule, with nothing in the boxes of inner
/// contexts; None where the node generates no box by itself.
pub fn context_tree(
    alloc: Global,
    nodes: &[Node],
    styles: &[Style],
    place: usize,
) -> Result<Option<Subtree>, NoMemory>
    requires place { place < length nodes.now }
    requires styles { length styles.now ≡ length nodes.now }
    requires few { length nodes.now ≤ most_nodes }
    ensures { IfOk result (λ t. t ≡ cut_tree_at nodes.now styles.now place) }
{
    let end = subtree_end(nodes, place);
    let stack = grow(alloc, place, &nodes[place..end], &styles[place..end])?;
    Ok(own_tree_of(first_tree(stack)))
}
