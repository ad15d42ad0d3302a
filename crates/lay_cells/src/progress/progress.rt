//! The laws of what work leaves as it is.

ghost use Rattle.lay_cells.specs.Progress.Progress.{ClaimsKeepRows, FinishesKeepRows, GiveBacksKeepRows, KeepingIsTransitive};

use crate::Work;

/// What is kept through one change and another is kept through both.
pub fn keeping_is_transitive<W: Work>()
    ensures { KeepingIsTransitive W.Key W.Input W.Value }
{}

/// A claim makes no cell, drops none and dirties none.
pub fn claims_keep_rows<W: Work>()
    ensures { ClaimsKeepRows W.Key W.Input W.Value }
{}

/// So does finished work.
pub fn finishes_keep_rows<W: Work>()
    ensures { FinishesKeepRows W.Key W.Input W.Value }
{}

/// So does a claim that is given back.
pub fn give_backs_keep_rows<W: Work>()
    ensures { GiveBacksKeepRows W.Key W.Input W.Value }
{}
