//! The laws of what cells keep.

ghost use Rattle.lay_kept_cells.specs.Steps.ReadyCells.{AssembledTreesSolve, CleanCellsAreKnown, KeptValuesAreCounted, ReadyToInput};

use lay_cell_work::cell_laws::clean_cells_solve;
use lay_contexts::anonymous_boxes_are_in_flow;
use lay_shape::shape_laws::needs_are_shaped;
use lay_table_grid::grids_are_of_boxes;

/// There is a value for each formatting context, whatever cells there are.
pub fn kept_values_are_counted()
    ensures { KeptValuesAreCounted }
{}

/// The values that a task of a cell which is ready needs are there.
pub fn ready_to_input()
    ensures { ReadyToInput }
{
    needs_are_shaped();
    grids_are_of_boxes();
}

/// Where all cells are clean, the columns that a tree is put together of are as long as the boxes that they are of.
pub fn clean_cells_are_known()
    ensures { CleanCellsAreKnown }
{
    anonymous_boxes_are_in_flow();
    grids_are_of_boxes();
}

/// Where all cells are clean, the tree that is put together of their values is the layout of the document.
pub fn assembled_trees_solve()
    ensures { AssembledTreesSolve }
{
    clean_cells_solve();
}
