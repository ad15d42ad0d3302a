//! A document before an edit and after it.

use lay_doc::{Doc, Edit};
use lay_style::Computed;

/// An edit, with the document and its computed styles before it, and those after it.
#[derive(Clone, Copy)]
pub struct EditedDoc<'a> {
    pub doc: &'a Doc,
    pub was: &'a Computed,
    pub edit: &'a Edit,
    pub later: &'a Doc,
    pub styles: &'a Computed,
}
