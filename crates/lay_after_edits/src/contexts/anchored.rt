//! Elements that stand in the context around them by their anchor alone.

ghost use Rattle.std.specs.Prelude.{◌≡◌, ◌<◌, IsTrue, length};
ghost use Rattle.lay_boxgen.specs.NodeBoxes.{node_flow};
ghost use Rattle.lay_contexts.specs.ListedContexts.{AreContextPlaces};
ghost use Rattle.lay_after_edits.specs.Contexts.Anchored.{FlowsAbsolutely, IsAnchored, IsNarrowed, IsStyleEdit};

use crate::contexts::edited_doc::EditedDoc;
use crate::contexts::places::number_at;
use crate::contexts::reach::Reach;
use lay_boxgen::{is_absolute, node_flow};
use lay_doc::Edit;

/// Whether an edit changes declarations.
fn is_style_edit(edit: &Edit) -> bool
    ensures { IsTrue result → IsStyleEdit edit.now }
{
    matches!(edit, Edit::SetStyle { .. } | Edit::ClearStyle { .. })
}

/// Whether the node at a place, if it generates a box, is absolute or fixed.
fn flows_absolutely(of: &EditedDoc<'_>, place: usize) -> bool
    requires within { place < length of.now.doc.now.nodes }
    requires styles { length of.now.was.now ≡ length of.now.doc.now.nodes }
    ensures { IsTrue result → FlowsAbsolutely of.now.doc.now.nodes of.now.was.now place }
{
    let flow = node_flow(of.doc.nodes()[place].kind, of.was.at(place));
    is_absolute(flow)
}

/// Whether an edit changes declarations of the element at a place, which is absolute or fixed. A context stands at each of these places.
fn is_anchored(of: &EditedDoc<'_>, places: &[usize], place: usize) -> bool
    requires places { AreContextPlaces of.now.doc.now.nodes of.now.was.now places.now }
    requires within { place < length of.now.doc.now.nodes }
    requires styles { length of.now.was.now ≡ length of.now.doc.now.nodes }
    ensures { IsTrue result → IsAnchored of.now.edit.now of.now.doc.now.nodes of.now.was.now place }
{
    if !is_style_edit(of.edit) {
        return false;
    }
    if !flows_absolutely(of, place) {
        return false;
    }
    number_at(places, place).is_some()
}

/// What an edit reaches, without the context around an element that stands there by its anchor alone.
pub(crate) fn narrowed(of: &EditedDoc<'_>, places: &[usize], reach: Reach) -> Reach
    requires places { AreContextPlaces of.now.doc.now.nodes of.now.was.now places.now }
    requires within { reach.from < length of.now.doc.now.nodes }
    requires styles { length of.now.was.now ≡ length of.now.doc.now.nodes }
    ensures { IsNarrowed of.now.edit.now of.now.doc.now.nodes of.now.was.now reach result }
{
    if is_anchored(of, places, reach.from) {
        return Reach {
            from: reach.from,
            until: reach.until,
            around: None,
        };
    }
    reach
}
