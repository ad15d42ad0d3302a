//! The laws of what is done to cells.

ghost use Rattle.lay_kept_cells.specs.Steps.CellSteps.{ClaimsKeepCells, FinishesKeepCells, GiveBacksKeepCells, NewCellsAreSound};

use lay_cell_work::cell_laws::inputs_are_kept;

/// Cells that are all made anew are those of the document whose shape they have.
pub fn new_cells_are_sound()
    ensures { NewCellsAreSound }
{}

/// A claim for what a cell would be given now keeps the cells those of the document.
pub fn claims_keep_cells()
    ensures { ClaimsKeepCells }
{
    inputs_are_kept();
}

/// Work that comes back keeps the cells those of the document.
pub fn finishes_keep_cells()
    ensures { FinishesKeepCells }
{
    inputs_are_kept();
}

/// A claim that is given back keeps the cells those of the document.
pub fn give_backs_keep_cells()
    ensures { GiveBacksKeepCells }
{
    inputs_are_kept();
}
