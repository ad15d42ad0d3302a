//! Whether a box is generated of a text before an edit and after it.

ghost use Rattle.std.specs.Prelude.{◌<◌, IsTrue, length};
ghost use Rattle.lay_after_edits.specs.Contexts.Reach.{IsTextSeen, IsSeenAt, StaysSeen};

use crate::contexts::edited_doc::EditedDoc;
use lay_boxgen::is_white;
use lay_doc::{Doc, Edit};

/// Whether a text has more than white space.
pub(crate) fn is_seen(text: &str) -> bool
    ensures { IsTrue result → IsTextSeen text.now }
{
    !is_white(text.as_bytes())
}

/// Whether the text of the node at a place has.
fn is_seen_at(doc: &Doc, place: usize) -> bool
    requires { place < length doc.now.nodes }
    ensures { IsTrue result → IsSeenAt doc.now.nodes place }
{
    is_seen(doc.nodes()[place].text.as_str())
}

/// Whether the text of the node at a place, if it is changed, has before the edit and after it.
pub(crate) fn stays_seen(of: &EditedDoc<'_>, place: usize) -> bool
    requires { place < length of.now.doc.now.nodes }
    ensures { IsTrue result → StaysSeen of.now.edit.now of.now.doc.now.nodes place }
{
    match of.edit {
        Edit::SetText { text, .. } => is_seen(text.as_str()) && is_seen_at(of.doc, place),
        _ => true,
    }
}
