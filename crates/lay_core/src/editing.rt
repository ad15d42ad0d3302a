//! An edit of a document with its cells.

ghost use Rattle.std.specs.Prelude.{◌<◌, ◌≤◌, ◌^◌, ◌-◌, ◌+◌};
ghost use Rattle.lay_core.specs.Changes.{ChangesTo};

use lay_document_cells::DocumentCells;
use lay_history::edits::{BatchFault, Edits, Reply};

/// The reply to a list of edits, which is applied where it has no fault and memory is there: one list more is accepted then.
pub(crate) fn edited(cells: &mut DocumentCells, accepted: &mut u64, edits: &Edits) -> Reply
    requires few { accepted.old < 2 ^ 64 - 1 }
    requires draws { cells.old.cells.draws ≤ 2 ^ 63 + 2 ^ 51 }
    ensures change { ChangesTo edits.now result (cells.old, accepted.old) (cells.new, accepted.new) }
    ensures draws { cells.new.cells.draws ≤ cells.old.cells.draws + 2 ^ 18 }
{
    match cells.edit(edits) {
        Ok(()) => {
            *accepted += 1;
            Reply::Accepted(*accepted)
        }
        Err(BatchFault::At { place, fault }) => Reply::Refused { place, fault },
        Err(BatchFault::NoMemory) => Reply::NoMemory,
    }
}
