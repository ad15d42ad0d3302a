//! The law of what an edit does to cells.

ghost use Rattle.lay_kept_cells.specs.Steps.EditedCells.{EditsKeepCells};

use lay_cell_work::cell_laws::inputs_are_kept;
use lay_doc::edits_leave_documents;
use lay_shape::shape_laws::root_stays_first;

/// Cells that follow the contexts of a document through an edit are those of the document after it.
pub fn edits_keep_cells()
    ensures { EditsKeepCells }
{
    edits_leave_documents();
    inputs_are_kept();
    root_stays_first();
}
