//! The laws of the count of grants.

ghost use Rattle.lay_cells.specs.Progress.Grants.{ClaimsCount, CleanCellsCount, FinishesCount, FirstShapesDraw};
ghost use Rattle.lay_cells.specs.Progress.Grants.{GiveBacksCount, MarksCount, ReshapesCount, ReshapesDraw};

use crate::Work;

/// A grant is one more, and another claim none.
pub fn claims_count<W: Work>()
    ensures { ClaimsCount W.Key W.Input W.Value }
{}

/// Finished work is none.
pub fn finishes_count<W: Work>()
    ensures { FinishesCount W.Key W.Input W.Value }
{}

/// A claim that is given back stays counted.
pub fn give_backs_count<W: Work>()
    ensures { GiveBacksCount W.Key W.Input W.Value }
{}

/// Marks keep the count.
pub fn marks_count<W: Work>()
    ensures { MarksCount W.Key W.Input W.Value }
{}

/// A new shape doesn't raise it.
pub fn reshapes_count<W: Work>()
    ensures { ReshapesCount W.Key W.Input W.Value }
{}

/// Each cell that is clean was granted once.
pub fn clean_cells_count<W: Work>()
    ensures { CleanCellsCount W.Key W.Input W.Value W.relates }
{}

/// A new shape draws at most a number for each cell.
pub fn reshapes_draw<W: Work>()
    ensures { ReshapesDraw W.Key W.Input W.Value }
{}

/// The first one draws one for each.
pub fn first_shapes_draw<W: Work>()
    ensures { FirstShapesDraw W.Key W.Input W.Value }
{}
