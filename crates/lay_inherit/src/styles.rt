//! The styles of a document's nodes, from outer to inner ones.

ghost use Rattle.std.specs.Prelude.{◌≡◌, ◌+◌, ◌<◌, ◌≤◌, ◌∷◌, [], ◌++◌, length, IfOk, OnOk};
ghost use Rattle.lay_style.specs.ComputedStyle.{HasStyles, computed_style, parent_style, declarations_at};
ghost use Rattle.lay_doc.specs.Tree.{IsTree};
ghost use Rattle.lay_doc.specs.Document.{parents_of, declarations_of};
ghost use Rattle.lay_inherit.specs.StylesTo.{StylesTo};

use crate::initial::initial_style;
use crate::style::computed_style;
use lay_doc::{Doc, Node, parent_at};
use lay_style::{Computed, Decls, Style, style_at};
use lay_units::NoMemory;
use std::alloc::Global;

/// The computed styles of a document's nodes, in document order.
pub fn computed(alloc: Global, doc: &Doc) -> Result<Computed, NoMemory>
    ensures { IfOk result (HasStyles (parents_of doc.now.nodes) (declarations_of doc.now.nodes)) }
{
    let nodes = doc.nodes();
    let mut styles = Vec::with_capacity(alloc, nodes.len())?;
    for k in 0..nodes.len() {
        push_style(nodes, &mut styles, k)?;
    }
    Ok(Computed::new(styles))
}

/// Adds the style of the node at k to those of the nodes before it, which are known. So whoever knows the styles before a node
/// can go on from there.
pub fn push_style(nodes: &[Node], styles: &mut Vec<Style>, k: usize) -> Result<(), NoMemory>
    requires tree { IsTree (parents_of nodes.now) }
    requires place { k < length nodes.now }
    requires known { StylesTo (parents_of nodes.now) (declarations_of nodes.now) styles.old.items k }
    ensures { OnOk result (StylesTo (parents_of nodes.now) (declarations_of nodes.now) styles.new.items (k + 1)) }
{
    let style = style_of(nodes, styles, k);
    push(styles, style)?;
    Ok(())
}

/// The style of the node at k, where these are the styles of the nodes before it, and of more.
pub fn style_of(nodes: &[Node], styles: &[Style], k: usize) -> Style
    requires tree { IsTree (parents_of nodes.now) }
    requires place { k < length nodes.now }
    requires there { k ≤ length styles.now }
    ensures { result ≡ computed_style (parent_style (parents_of nodes.now) styles.now k) (declarations_at (declarations_of nodes.now) k) }
{
    if k == 0 {
        return computed_style(initial_style(), decls_at(nodes, k));
    }
    let parent = parent_at(nodes, k);
    computed_style(style_at(styles, parent), decls_at(nodes, k))
}

fn decls_at(nodes: &[Node], k: usize) -> &Decls
    requires { k < length nodes.now }
    ensures { result.now ≡ declarations_at (declarations_of nodes.now) k }
{
    &nodes[k].decls
}

fn push(styles: &mut Vec<Style>, style: Style) -> Result<(), NoMemory>
    ensures { OnOk result (styles.new.items ≡ styles.old.items ++ style ∷ []) }
{
    styles.push(style)?;
    Ok(())
}
