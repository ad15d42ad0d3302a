//! The laws of lists of edits. The functions do nothing.

ghost use Rattle.lay_kept_cells.specs.ListSteps.EditedLists.{ListsKeepCells};
ghost use Rattle.lay_kept_cells.specs.ListSteps.TouchedLists.{ListsTouchReachedContexts};

use crate::steps::touched_contexts_are_reached;
use lay_cell_work::cell_laws::inputs_are_kept;

/// Cells that follow the contexts of a document through a list of edits are those of the document after it.
pub fn lists_keep_cells()
    ensures { ListsKeepCells }
{
    inputs_are_kept();
}

/// A context that comparison finds touched after a list of edits has a node among its own that one of them reached.
pub fn lists_touch_reached_contexts()
    ensures { ListsTouchReachedContexts }
{
    touched_contexts_are_reached();
}
