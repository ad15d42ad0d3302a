//! The laws of how a cell becomes clean.

ghost use Rattle.lay_cells.specs.Progress.Settled.{FinishedCellsAreClean, GrantedClaimsAreReleased, ReusedCellsAreClean};

use crate::Work;

/// A cell whose kept pair is of the input that is handed in is clean then.
pub fn reused_cells_are_clean<W: Work>()
    ensures { ReusedCellsAreClean W.Key W.Input W.Value }
{}

/// A cell is clean where work is finished right after the claim of it.
pub fn finished_cells_are_clean<W: Work>()
    ensures { FinishedCellsAreClean W.Key W.Input W.Value W.relates }
{}

/// A claim that was granted can be given back right after it.
pub fn granted_claims_are_released<W: Work>()
    ensures { GrantedClaimsAreReleased W.Key W.Input W.Value W.relates }
{}
