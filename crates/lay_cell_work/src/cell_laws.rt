//! Laws of the cells of a layout. The functions do nothing.
//!
//! `specs/CellLaws/SoundCells.antt` says what it means that cells keep values of a document, and that where all of them are clean the
//! tree that is put together of these values is the layout of the document. `specs/CellLaws/Laws.antt` says of one cell that it has one
//! value, and `specs/CellLaws/SameContexts.antt` that what a cell is given is kept where its context and what it depends on are the
//! same, whatever numbers contexts have. `specs/CellLaws/KeptInputs.antt` says the same over the dependencies that lay_shape lists.

mod kept_inputs;
mod laws;

pub use kept_inputs::inputs_are_kept;
pub use laws::{
    clean_cells_solve, counterparts_are_of_one_node, measure_inputs_are_kept, one_cell_local,
    place_inputs_are_kept, present_inputs_fit, present_inputs_lead_inward, size_inputs_are_kept,
    values_stand_at_numbers,
};
