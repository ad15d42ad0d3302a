//! What editors are shown. These functions see a core by its parts: its cells, the number of accepted edits, the trees of published
//! versions and the history.

ghost use Rattle.std.specs.Prelude.{◌≡◌, ◌≢◌, ◌<◌, ◌≤◌, ◌^◌, ◌+◌, ◌⊎◌, None, Some, IsSome, false, length, vec_capacity};
ghost use Rattle.lay_history.specs.Histories.{accepted, last_or};
ghost use Rattle.lay_history.specs.Trees.{HasTrees, versions_of};
ghost use Rattle.lay_core.specs.Parts.{parts};
ghost use Rattle.lay_core.specs.State.{State, are_clean};
ghost use Rattle.lay_core.specs.Steps.{ShowsLatest, ShowsPresent, ShowsVersion, due_of, is_due};

use crate::publishing::{last_version, refreshed};
use lay_document_cells::DocumentCells;
use lay_history::PublishedTree;
use lay_history::edits::{Entry, Reply};
use std::alloc::Global;

/// The reply to an editor that asks for the present version, which is settled and published.
pub(crate) fn shown_present(
    alloc: Global,
    cells: &mut DocumentCells,
    version: u64,
    trees: &mut Vec<PublishedTree>,
    history: &mut Vec<Entry>,
) -> Reply
    requires version { version ≡ accepted history.old.items }
    requires trees { HasTrees history.old.items trees.old.items }
    requires room { length history.old.items < vec_capacity history.old }
    requires draws { cells.old.cells.draws ≤ 2 ^ 63 + 2 ^ 51 }
    ensures shows { (s : State)
        → ShowsPresent (parts s cells.old history.old.items trees.old.items) result (parts s cells.new history.new.items trees.new.items) }
    ensures cause { result ≡ Reply.NoMemory
        → (are_clean cells.old.cells.rows ≡ false) ⊎ (last_or None (versions_of trees.old.items) ≢ Some version) }
    ensures draws { cells.new.cells.draws ≤ cells.old.cells.draws + 2 ^ 18 }
    ensures capacity { vec_capacity history.new ≡ vec_capacity history.old }
{
    match refreshed(alloc, cells, version, trees, history) {
        Ok(()) => Reply::Shown(version),
        Err(_) => Reply::NoMemory,
    }
}

/// The reply to an editor that asks for the version that was published last, where the present one may be due before.
pub(crate) fn shown_latest(
    alloc: Global,
    cells: &mut DocumentCells,
    version: u64,
    trees: &mut Vec<PublishedTree>,
    history: &mut Vec<Entry>,
) -> Reply
    requires version { version ≡ accepted history.old.items }
    requires trees { HasTrees history.old.items trees.old.items }
    requires room { length history.old.items < vec_capacity history.old }
    requires draws { cells.old.cells.draws ≤ 2 ^ 63 + 2 ^ 51 }
    ensures shows { (s : State) → ShowsLatest (is_due (parts s cells.old history.old.items trees.old.items))
        (parts s cells.old history.old.items trees.old.items) result (parts s cells.new history.new.items trees.new.items) }
    ensures draws { cells.new.cells.draws ≤ cells.old.cells.draws + 2 ^ 18 }
    ensures capacity { vec_capacity history.new ≡ vec_capacity history.old }
{
    if is_due(cells, version, trees) {
        shown_present(alloc, cells, version, trees, history)
    } else {
        shown_last(trees)
    }
}

/// Whether the present version is to be published before one is shown.
fn is_due(cells: &DocumentCells, version: u64, trees: &[PublishedTree]) -> bool
    ensures { result ≡ due_of (last_or None (versions_of trees.now)) (are_clean cells.now.cells.rows) version }
{
    match last_version(trees) {
        Some(last) => are_clean(cells) && last != version,
        None => true,
    }
}

/// Whether no cell is dirty.
pub(crate) fn are_clean(cells: &DocumentCells) -> bool
    ensures { result ≡ are_clean cells.now.cells.rows }
{
    cells.is_settled()
}

/// The reply with the version that was published last, where there is one.
fn shown_last(trees: &[PublishedTree]) -> Reply
    requires { IsSome (last_or None (versions_of trees.now)) }
    ensures { ShowsVersion (last_or None (versions_of trees.now)) result }
{
    match last_version(trees) {
        Some(version) => Reply::Shown(version),
        None => unreachable!(),
    }
}
