//! The nodes whose computed styles an edit may change.

ghost use Rattle.std.specs.Prelude.{◌≡◌, Some, None, true, is_some, length, option_map};
ghost use Rattle.lay_style.specs.Places.{place_of};
ghost use Rattle.lay_doc.specs.Changes.{style_fault};
ghost use Rattle.lay_doc.specs.Document.{ids_of, parents_of};
ghost use Rattle.lay_doc.specs.Edits.{after, fault};
ghost use Rattle.lay_doc.specs.Removal.{remove_fault};
ghost use Rattle.lay_after_edits.specs.Styles.Stretches.{inserted_at, none_of, removed_at, edit_stretch, subtree_at};

use lay_doc::{Doc, Edit, NodeId};

/// Nodes beside each other: before an edit those from the place `from` up to `until`, and after it those up to `to` in their stead.
#[derive(Clone, Copy)]
pub(crate) struct Stretch {
    pub(crate) from: usize,
    pub(crate) until: usize,
    pub(crate) to: usize,
}

/// The nodes of which an edit may change the computed styles: that which it changes, puts in or takes out, and those below.
pub(crate) fn stretch_of(doc: &Doc, later: &Doc, edit: &Edit) -> Stretch
    requires accepted { fault doc.now edit.now ≡ None }
    requires later { later.now ≡ after doc.now edit.now }
    ensures { edit_stretch doc.now edit.now ≡ Some result }
{
    let _ = doc.nodes();
    match edit {
        Edit::SetStyle { node, .. } => subtree(doc, *node),
        Edit::ClearStyle { node, .. } => subtree(doc, *node),
        Edit::SetText { .. } => none_of(doc),
        Edit::Insert { new, .. } => inserted(later, new.id()),
        Edit::Remove { node } => removed(doc, *node),
        Edit::Bad { .. } => unreachable!(),
    }
}

/// The node with this id and those below it.
fn subtree(doc: &Doc, node: NodeId) -> Stretch
    requires { style_fault doc.now node.0 ≡ None }
    ensures { option_map (subtree_at (parents_of doc.now.nodes)) (place_of node.0 (ids_of doc.now.nodes)) ≡ Some result }
{
    match doc.find(node) {
        None => unreachable!(),
        Some(from) => {
            let end = doc.end_of(from);
            Stretch {
                from,
                until: end,
                to: end,
            }
        }
    }
}

/// They are taken out.
fn removed(doc: &Doc, node: NodeId) -> Stretch
    requires { remove_fault doc.now node.0 ≡ None }
    ensures { option_map (removed_at (parents_of doc.now.nodes)) (place_of node.0 (ids_of doc.now.nodes)) ≡ Some result }
{
    match doc.find(node) {
        None => unreachable!(),
        Some(from) => Stretch {
            from,
            until: doc.end_of(from),
            to: from,
        },
    }
}

/// The one node with this id, which is put in.
fn inserted(later: &Doc, node: NodeId) -> Stretch
    requires { is_some (place_of node.0 (ids_of later.now.nodes)) ≡ true }
    ensures { option_map inserted_at (place_of node.0 (ids_of later.now.nodes)) ≡ Some result }
{
    let _ = later.len();
    match later.find(node) {
        None => unreachable!(),
        Some(from) => Stretch {
            from,
            until: from,
            to: from + 1,
        },
    }
}

/// No node.
fn none_of(doc: &Doc) -> Stretch
    ensures { result ≡ none_of (length doc.now.nodes) }
{
    let count = doc.len();
    Stretch {
        from: count,
        until: count,
        to: count,
    }
}
