//! Every call on the cells of a document keeps them its cells, `AreDocumentCells` of lay_cell_work: the laws of what an engine does.
//! Their functions do nothing.
//!
//! `specs/Steps/CellSteps.antt` says it of cells that are made anew, of claims and of work that comes back, and
//! `specs/Steps/EditedCells.antt` of an edit of the document (CSS 2.2, 9.4.1 and 10.3.5); which contexts an edit may touch is said by
//! `specs/Steps/TouchedContexts.antt`. `specs/Steps/ReadyCells.antt` says what is known of the values that such cells keep.

mod edited_cells;
mod laws;
mod ready_cells;
mod touched_contexts;

pub use edited_cells::edits_keep_cells;
pub use laws::{
    claims_keep_cells, finishes_keep_cells, give_backs_keep_cells, new_cells_are_sound,
};
pub use ready_cells::{
    assembled_trees_solve, clean_cells_are_known, kept_values_are_counted, ready_to_input,
};
pub use touched_contexts::touched_contexts_are_reached;
