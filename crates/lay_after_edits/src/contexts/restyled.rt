//! The computed styles of a document of which some nodes changed.

ghost use Rattle.std.specs.Prelude.{◌≡◌, ◌+◌, ◌<◌, ◌++◌, ◌∷◌, [], false, IfOk, OnOk, length, slice_index};
ghost use Rattle.lay_style.specs.ComputedStyle.{HasStyles, style_at};
ghost use Rattle.lay_doc.specs.Document.{declarations_of, parents_of};
ghost use Rattle.lay_doc.specs.Tree.{IsTree};
ghost use Rattle.lay_inherit.specs.StylesTo.{StylesTo};
ghost use Rattle.lay_after_edits.specs.Contexts.Changed.{AreMadeAnew, AreStaying, IsStyleOf, KeepsUnmade, StylesStay};
ghost use Rattle.lay_after_edits.specs.Contexts.Links.{is_made};

use lay_doc::{Doc, Node, parent_at};
use lay_inherit::push_style;
use lay_style::{Computed, Style, style_at};
use lay_units::NoMemory;
use std::alloc::Global;

/// Computed styles, and for each node whether its style was made anew.
#[derive(Drop)]
pub struct RestyledNodes {
    pub styles: Computed,
    pub made: Vec<bool>,
}

/// The computed styles of a later document, where those before it are known and at most these nodes changed: they are made anew for these
/// and for those below, and taken over for all others.
pub fn restyled_nodes(
    alloc: Global,
    doc: &Doc,
    was: &Computed,
    later: &Doc,
    changed: &[bool],
) -> Result<RestyledNodes, NoMemory>
    requires styles { HasStyles (parents_of doc.now.nodes) (declarations_of doc.now.nodes) was.now }
    requires stays { AreStaying doc.now.nodes later.now.nodes changed.now }
    ensures styles { IfOk result (λ r. HasStyles (parents_of later.now.nodes) (declarations_of later.now.nodes) r.styles) }
    ensures made { IfOk result (λ r. AreMadeAnew doc.now.nodes later.now.nodes was.now r.styles r.made.items) }
{
    let _ = doc.nodes();
    let restyled = restyled_list(alloc, later.nodes(), was.as_slice(), changed)?;
    Ok(restyled)
}

/// The same of the later nodes, of which all but the changed ones would have the styles that they had.
fn restyled_list(
    alloc: Global,
    nodes: &[Node],
    was: &[Style],
    changed: &[bool],
) -> Result<RestyledNodes, NoMemory>
    requires tree { IsTree (parents_of nodes.now) }
    requires stays { StylesStay (parents_of nodes.now) (declarations_of nodes.now) was.now changed.now }
    ensures styles { IfOk result (λ r. HasStyles (parents_of nodes.now) (declarations_of nodes.now) r.styles) }
    ensures kept { IfOk result (λ r. KeepsUnmade was.now r.styles changed.now r.made.items (length nodes.now)) }
{
    let mut styles = Vec::with_capacity(alloc, nodes.len())?;
    let mut made = Vec::with_capacity(alloc, nodes.len())?;
    for k in 0..nodes.len() {
        let is_made = is_made_anew(nodes, changed, &made, k);
        push_styled(nodes, was, &mut styles, is_made)?;
        made.push(is_made)?;
    }
    Ok(RestyledNodes {
        styles: Computed::new(styles),
        made,
    })
}

/// Whether the style of the node at k is to be made anew: it is a changed node, or a child of one whose style was.
fn is_made_anew(nodes: &[Node], changed: &[bool], made: &[bool], k: usize) -> bool
    requires tree { IsTree (parents_of nodes.now) }
    requires here { k < length nodes.now }
    requires flags { length changed.now ≡ length nodes.now }
    requires known { length made.now ≡ k }
    ensures changed { result ≡ false → is_made changed.now k ≡ false }
    ensures above { result ≡ false → 0 < k → is_made made.now (slice_index (parents_of nodes.now) k) ≡ false }
{
    changed[k] || is_below_made(nodes, made, k)
}

/// Whether the style of the parent of the node at k was made anew.
fn is_below_made(nodes: &[Node], made: &[bool], k: usize) -> bool
    requires tree { IsTree (parents_of nodes.now) }
    requires here { k < length nodes.now }
    requires known { length made.now ≡ k }
    ensures { result ≡ false → 0 < k → is_made made.now (slice_index (parents_of nodes.now) k) ≡ false }
{
    if k == 0 {
        return false;
    }
    made[parent_at(nodes, k)]
}

/// Adds the style of the next node: made anew, or the one that it had.
fn push_styled(
    nodes: &[Node],
    was: &[Style],
    styles: &mut Vec<Style>,
    is_made: bool,
) -> Result<(), NoMemory>
    requires tree { IsTree (parents_of nodes.now) }
    requires here { length styles.old.items < length nodes.now }
    requires count { length was.now ≡ length nodes.now }
    requires known { StylesTo (parents_of nodes.now) (declarations_of nodes.now) styles.old.items (length styles.old.items) }
    requires kept { is_made ≡ false
        → IsStyleOf (parents_of nodes.now) (declarations_of nodes.now) styles.old.items
        (style_at was.now (length styles.old.items)) (length styles.old.items) }
    ensures styles { OnOk result
        (StylesTo (parents_of nodes.now) (declarations_of nodes.now) styles.new.items (length styles.old.items + 1)) }
    ensures kept { OnOk result
        (is_made ≡ false → style_at styles.new.items (length styles.old.items) ≡ style_at was.now (length styles.old.items)) }
{
    let k = styles.len();
    if is_made {
        push_style(nodes, styles, k)?;
        return Ok(());
    }
    push(styles, style_at(was, k))?;
    Ok(())
}

fn push(styles: &mut Vec<Style>, style: &Style) -> Result<(), NoMemory>
    ensures { OnOk result (styles.new.items ≡ styles.old.items ++ style.now ∷ []) }
{
    styles.push(*style)?;
    Ok(())
}
