//! What a cell is given, where the cells that it depends on keep their values. The function does nothing.

ghost use Rattle.lay_cell_work.specs.CellLaws.KeptInputs.{InputsAreKept};

use crate::cell_laws::laws::{
    counterparts_are_of_one_node, measure_inputs_are_kept, place_inputs_are_kept,
    size_inputs_are_kept,
};

/// A cell is given what it was, where its context is the same and each cell that it depends on keeps the same.
pub fn inputs_are_kept()
    ensures { InputsAreKept }
{
    counterparts_are_of_one_node();
    measure_inputs_are_kept();
    size_inputs_are_kept();
    place_inputs_are_kept();
}
