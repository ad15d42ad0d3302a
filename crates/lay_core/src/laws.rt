//! The laws of the core: what editors see after a call is decided by what they saw before, but for want of memory; and no call but an
//! edit makes a cell, drops one or dirties one.

ghost use Rattle.lay_core.specs.CellLaws.{BatchesAreUnseen, BatchesAreWork, ClaimsAreUnseen, ClaimsAreWork, FinishesAreUnseen};
ghost use Rattle.lay_core.specs.CellLaws.{FinishesAreWork, GiveBacksAreUnseen, GiveBacksAreWork, LatestIsWork, NextClaimsAreUnseen};
ghost use Rattle.lay_core.specs.CellLaws.{NextClaimsAreWork, OutcomesAreUnseen, OutcomesAreWork, PublishingIsWork, RefreshingIsWork};
ghost use Rattle.lay_core.specs.CellLaws.{SettlingIsUnseen, SettlingIsWork, StoppingIsUnseen, StoppingIsWork, SyncIsWork};
ghost use Rattle.lay_core.specs.Laws.{LastTree, OneReplyToEdit, OneLatest, OnePublishing, OneRefreshing};
ghost use Rattle.lay_core.specs.Laws.{OneSeenEdit, OneSettling, OneSync, ShownTrees};

use lay_cell_work::Layout;
use lay_cells::one_first_dirty;
use lay_context::one_solution;
use lay_document_cells::{claims_work, one_edit as one_cells_edit};

/// Nothing is seen of it where cells are settled.
pub fn one_settling()
    ensures { OneSettling }
{}

/// The present version is published in one way.
pub fn one_refreshing()
    ensures { OneRefreshing }
{
    one_solution();
}

/// To publish has one answer, and leaves one state.
pub fn one_publishing()
    ensures { OnePublishing }
{
    one_solution();
    one_first_dirty::<Layout>();
}

/// An edit has one reply, and leaves one state.
pub fn one_edit()
    ensures { OneReplyToEdit }
{
    one_cells_edit();
}

/// What is seen of it comes of what was seen before.
pub fn one_seen_edit()
    ensures { OneSeenEdit }
{}

/// So it is with `Latest`.
pub fn one_latest()
    ensures { OneLatest }
{
    one_refreshing();
}

/// So it is with `Sync`.
pub fn one_sync()
    ensures { OneSync }
{
    one_refreshing();
}

/// A core whose last version is published has the tree of its document.
pub fn last_tree()
    ensures { LastTree }
{}

/// A core has the tree of each version that an entry of its history shows, which solves the document of the version.
pub fn shown_trees()
    ensures { ShownTrees }
{}

/// What becomes of cells in a call that is no edit is work on them.
pub fn calls_work()
    ensures settling { SettlingIsWork }
    ensures stopping { StoppingIsWork }
    ensures publishing { PublishingIsWork }
    ensures refreshing { RefreshingIsWork }
    ensures latest { LatestIsWork }
    ensures sync { SyncIsWork }
    ensures claims { ClaimsAreWork }
    ensures next_claims { NextClaimsAreWork }
    ensures finishes { FinishesAreWork }
    ensures give_backs { GiveBacksAreWork }
    ensures batches { BatchesAreWork }
    ensures outcomes { OutcomesAreWork }
{
    claims_work();
}

/// What editors see stays as it is in settling, and in each call of those who work on cells.
pub fn cell_calls_keep_history()
    ensures settling { SettlingIsUnseen }
    ensures stopping { StoppingIsUnseen }
    ensures claims { ClaimsAreUnseen }
    ensures next_claims { NextClaimsAreUnseen }
    ensures finishes { FinishesAreUnseen }
    ensures give_backs { GiveBacksAreUnseen }
    ensures batches { BatchesAreUnseen }
    ensures outcomes { OutcomesAreUnseen }
{}
