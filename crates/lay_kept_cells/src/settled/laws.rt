//! The laws. Their functions do nothing.

ghost use Rattle.lay_kept_cells.specs.Settled.Laws.{ClaimsKeepSince, EditsBeginSince, EditsKeepSince};
ghost use Rattle.lay_kept_cells.specs.Settled.Laws.{FinishesKeepSince, GiveBacksKeepSince, UnchangedCellsKeepInputs};

use lay_cell_work::cell_laws::inputs_are_kept;

/// An edit of a document whose cells are all clean begins it.
pub fn edits_begin_since()
    ensures { EditsBeginSince }
{}

/// A claim keeps what is known.
pub fn claims_keep_since()
    ensures { ClaimsKeepSince }
{}

/// So does finished work.
pub fn finishes_keep_since()
    ensures { FinishesKeepSince }
{}

/// So does a claim that is given back.
pub fn give_backs_keep_since()
    ensures { GiveBacksKeepSince }
{}

/// So does an edit that leaves the contexts but for the styles and texts of their boxes.
pub fn edits_keep_since()
    ensures { EditsKeepSince }
{}

/// What an unchanged cell keeps is of what it would be given now.
pub fn unchanged_cells_keep_inputs()
    ensures { UnchangedCellsKeepInputs }
{
    inputs_are_kept();
}
