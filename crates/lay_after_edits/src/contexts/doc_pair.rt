//! A document and what it became.

use lay_doc::Doc;
use lay_style::Computed;

/// A document with its computed styles, and a later one with its own.
#[derive(Clone, Copy)]
pub struct DocPair<'a> {
    pub doc: &'a Doc,
    pub was: &'a Computed,
    pub later: &'a Doc,
    pub styles: &'a Computed,
}
