//! The faults of putting a node below a parent that is there.

ghost use Rattle.std.specs.Prelude.{◌≡◌, ◌<◌, ◌≤◌, length};
ghost use Rattle.lay_units.specs.Limits.{most_text};
ghost use Rattle.lay_doc.specs.Document.{ids_of, is_too_long, text_size};
ghost use Rattle.lay_doc.specs.Changes.{text_fault_at};
ghost use Rattle.lay_doc.specs.Index.{IsIndexOf};
ghost use Rattle.lay_doc.specs.FaultParts.{parent_or_id_fault, limit_fault};

use crate::columns::{depth_at, is_element_at, is_text_at, text_bytes_at};
use crate::edit::EditFault;
use crate::index::IdIndex;
use crate::node::Node;
use lay_units::{LONGEST_TEXT, MOST_DEPTH, MOST_NODES, MOST_TEXT};

/// The first fault of the parent's place and the new node's id: E2, E4.
pub fn parent_or_id_fault(
    nodes: &[Node],
    index: &IdIndex,
    parent: usize,
    id: u32,
) -> Option<EditFault>
    requires parent { parent < length nodes.now }
    requires index { IsIndexOf index.now (ids_of nodes.now) }
    ensures { result ≡ parent_or_id_fault nodes.now parent id }
{
    if !is_element_at(nodes, parent) {
        return Some(EditFault::NotElement);
    }
    if id == 0 || index.find(id).is_some() {
        return Some(EditFault::IdTaken);
    }
    None
}

/// The first limit that a new node with a text of so many bytes would pass: E7, E8, E9. `others` are the
/// bytes of all texts so far.
pub fn limit_fault(nodes: &[Node], others: usize, parent: usize, bytes: usize) -> Option<EditFault>
    requires parent { parent < length nodes.now }
    requires others { others ≤ most_text }
    ensures { result ≡ limit_fault nodes.now others parent bytes }
{
    if nodes.len() >= MOST_NODES {
        return Some(EditFault::TooManyNodes);
    }
    if depth_at(nodes, parent) >= MOST_DEPTH {
        return Some(EditFault::TooDeep);
    }
    if is_too_long(others, bytes) {
        return Some(EditFault::TextTooLong);
    }
    None
}

/// The first fault of giving the node at a place a text of so many bytes: E3, E9. `all` are the bytes of all
/// texts so far.
pub fn text_fault_at(nodes: &[Node], all: usize, place: usize, bytes: usize) -> Option<EditFault>
    requires place { place < length nodes.now }
    requires all { all ≡ text_size nodes.now }
    requires small { all ≤ most_text }
    ensures { result ≡ text_fault_at nodes.now place bytes }
{
    if !is_text_at(nodes, place) {
        return Some(EditFault::NotText);
    }
    if is_too_long(all - text_bytes_at(nodes, place), bytes) {
        return Some(EditFault::TextTooLong);
    }
    None
}

/// Whether a text of so many bytes is too long beside others.
fn is_too_long(others: usize, bytes: usize) -> bool
    requires { others ≤ most_text }
    ensures { result ≡ is_too_long others bytes }
{
    bytes > LONGEST_TEXT || others + bytes > MOST_TEXT
}
