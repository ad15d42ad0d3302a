//! What is asked of a document and its tree.

use crate::point::Point;
use lay_doc::Doc;
use lay_frag::Tree;
use lay_style::Style;

/// Which piece of a document's tree is seen at a point.
#[derive(Clone, Copy)]
pub(crate) struct Question<'a> {
    pub doc: &'a Doc,
    pub styles: &'a [Style],
    pub tree: &'a Tree,
    pub at: Point,
}
