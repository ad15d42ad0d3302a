//! What stands at a place of a list of nodes.

ghost use Rattle.std.specs.Prelude.{◌≡◌, ◌<◌, length, slice_index};
ghost use Rattle.lay_doc.specs.Document.{ids_of, parents_of, depths_of, text_lengths_of, is_element_at, is_text_at};

use crate::node::Node;

/// The id of the node at a place.
pub fn id_at(nodes: &[Node], place: usize) -> u32
    requires { place < length nodes.now }
    ensures { result ≡ slice_index (ids_of nodes.now) place }
{
    nodes[place].id.0
}

/// The place of the parent of the node at a place.
pub fn parent_at(nodes: &[Node], place: usize) -> usize
    requires { place < length nodes.now }
    ensures { result ≡ slice_index (parents_of nodes.now) place }
{
    nodes[place].parent
}

/// The depth of the node at a place.
pub fn depth_at(nodes: &[Node], place: usize) -> u32
    requires { place < length nodes.now }
    ensures { result ≡ slice_index (depths_of nodes.now) place }
{
    nodes[place].depth
}

/// Whether the node at a place is an element.
pub fn is_element_at(nodes: &[Node], place: usize) -> bool
    requires { place < length nodes.now }
    ensures { result ≡ is_element_at nodes.now place }
{
    nodes[place].kind.is_element()
}

/// Whether the node at a place is a text.
pub fn is_text_at(nodes: &[Node], place: usize) -> bool
    requires { place < length nodes.now }
    ensures { result ≡ is_text_at nodes.now place }
{
    nodes[place].kind.is_text()
}

/// The bytes of the text of the node at a place.
pub fn text_bytes_at(nodes: &[Node], place: usize) -> usize
    requires { place < length nodes.now }
    ensures { result ≡ slice_index (text_lengths_of nodes.now) place }
{
    nodes[place].text.len()
}
