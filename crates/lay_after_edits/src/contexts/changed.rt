//! Which nodes the edits of a list change.

ghost use Rattle.std.specs.Prelude.{IfOk, IfSome};
ghost use Rattle.lay_doc.specs.Document.{ids_of};
ghost use Rattle.lay_history.specs.Edits.EditLists.{after_all};
ghost use Rattle.lay_after_edits.specs.Contexts.Changed.{AreStaying, ChangesAt};

use crate::contexts::marks::mark;
use crate::contexts::reach::changed_node;
use lay_doc::{Doc, Edit};
use lay_units::NoMemory;
use std::alloc::Global;

/// For each node of a document whether an edit of a list changes its declarations or its text. None where the list does anything else.
pub fn changed_nodes(
    alloc: Global,
    doc: &Doc,
    edits: &[Edit],
) -> Result<Option<Vec<bool>>, NoMemory>
    ensures { IfOk result (λ o. IfSome o (λ v. AreStaying doc.now.nodes (after_all doc.now edits.now).nodes v.items)) }
{
    let mut flags = vec![in alloc; false; doc.len()]?;
    for edit in edits {
        let Some(place) = changed_place(doc, edit) else {
            return Ok(None);
        };
        mark(&mut flags, place);
    }
    Ok(Some(flags))
}

/// The place of the node that an edit changes, if it is such an edit, and if the node is there.
fn changed_place(doc: &Doc, edit: &Edit) -> Option<usize>
    ensures { IfSome result (ChangesAt (ids_of doc.now.nodes) edit.now) }
{
    let node = changed_node(edit)?;
    doc.find(node)
}
