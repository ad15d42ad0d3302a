//! What a document is laid out on.

ghost use Rattle.std.specs.Prelude.{◌≡◌};
ghost use Rattle.lay_context.specs.Solves.{medium_of, viewport_of};

use lay_context::{Medium, viewport_of};
use lay_doc::Doc;
use lay_face::Face;
use std::sync::Arc;

/// The viewport of a document, and this face.
pub(crate) fn medium_of(doc: &Doc, face: Arc<Face>) -> Medium
    ensures { result ≡ medium_of doc.now face.value }
{
    Medium::new(viewport_of(doc), face)
}
