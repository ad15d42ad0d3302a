//! Which nodes are contexts (CSS 2.2, 9.4.1).

ghost use Rattle.std.specs.Prelude.{◌≡◌, ◌<◌, ◌↔◌, IsTrue, length};
ghost use Rattle.lay_doc.specs.Document.{parents_of};
ghost use Rattle.lay_doc.specs.Tree.{IsTree};
ghost use Rattle.lay_boxgen.specs.Contexts.{box_at, keeps_form, keeps, GeneratesBox, is_marked, IsContextAt, IsContext};

use crate::facts::{Facts, Form};
use crate::forms::{is_column, is_column_group};
use crate::node_boxes::node_box;
use lay_doc::{Doc, Node, NodeId, parent_at};
use lay_style::{Computed, Style};

/// Whether the node with this id is a context: an element that generates a box and establishes a new block
/// formatting context, or a replaced element that generates a box. A style is given for each node. No program calls it:
/// `context_flags` answers it of every node.
pub fn is_context(doc: &Doc, style: &Computed, node: NodeId) -> bool
    requires styles { length style.now ≡ length doc.now.nodes }
    ensures { IsTrue result ↔ IsContext doc.now style.now node.0 }
{
    match doc.find(node) {
        None => false,
        Some(place) => is_context_at(doc.nodes(), style.as_slice(), place),
    }
}

/// Whether the node at a place is a context.
fn is_context_at(nodes: &[Node], styles: &[Style], place: usize) -> bool
    requires place { place < length nodes.now }
    requires styles { length styles.now ≡ length nodes.now }
    requires tree { IsTree (parents_of nodes.now) }
    ensures { IsTrue result ↔ IsContextAt nodes.now styles.now place }
{
    is_marked(box_at(nodes, styles, place)) && generates_box(nodes, styles, place)
}

/// The box of the node at a place by itself.
pub(crate) fn box_at(nodes: &[Node], styles: &[Style], place: usize) -> Option<Facts>
    requires place { place < length nodes.now }
    requires styles { length styles.now ≡ length nodes.now }
    ensures { result ≡ box_at nodes.now styles.now place }
{
    node_box(place, &nodes[place], &styles[place])
}

pub(crate) fn is_marked(facts: Option<Facts>) -> bool
    ensures { result ≡ is_marked facts }
{
    match facts {
        None => false,
        Some(facts) => facts.inner,
    }
}

/// Whether a box of this form keeps such a child.
fn keeps_form(parent: Form, form: Form) -> bool
    ensures { result ≡ keeps_form parent form }
{
    !is_column(parent) && (!is_column_group(parent) || is_column(form))
}

/// Whether both are there, and the parent keeps the child.
pub(crate) fn keeps(parent: Option<Facts>, child: Option<Facts>) -> bool
    ensures { result ≡ keeps parent child }
{
    match (parent, child) {
        (Some(parent), Some(child)) => keeps_form(parent.form, child.form),
        _ => false,
    }
}

/// Whether the node at a place generates a box: a walk to the root, which is as long as the node is deep.
fn generates_box(nodes: &[Node], styles: &[Style], place: usize) -> bool
    requires place { place < length nodes.now }
    requires styles { length styles.now ≡ length nodes.now }
    requires tree { IsTree (parents_of nodes.now) }
    ensures { IsTrue result ↔ GeneratesBox nodes.now styles.now place }
{
    let mut at = place;
    while at > 0 {
        let parent = parent_at(nodes, at);
        if !keeps(box_at(nodes, styles, parent), box_at(nodes, styles, at)) {
            return false;
        }
        at = parent;
    }
    box_at(nodes, styles, 0).is_some()
}
