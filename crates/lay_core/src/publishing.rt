//! How the cells are settled and a version is published.

ghost use Rattle.std.specs.Prelude.{◌≡◌, ◌≢◌, ◌<◌, ◌≤◌, ◌^◌, ◌+◌, ◌⊎◌, None, Some, OnErr, OnOk, false, length, vec_capacity};
ghost use Rattle.lay_document_cells.specs.Settling.{CellsSettleTo, CellsStopAt};
ghost use Rattle.lay_cells.specs.Reads.{AllClean};
ghost use Rattle.lay_history.specs.Histories.{accepted, last_or};
ghost use Rattle.lay_history.specs.Trees.{HasTrees, versions_of};
ghost use Rattle.lay_core.specs.Parts.{parts};
ghost use Rattle.lay_core.specs.Publishing.{IsBehind, Publishes, PublishesTo, RefreshesTo};
ghost use Rattle.lay_core.specs.State.{State, are_clean, is_clean};
ghost use Rattle.lay_core.specs.Work.{MaySettle, SettlesTo, StopsAt};

use crate::answers::Publish;
use crate::core_state::Core;
use crate::showing::are_clean;
use lay_document_cells::DocumentCells;
use lay_history::PublishedTree;
use lay_history::edits::Entry;
use lay_units::NoMemory;
use std::alloc::Global;
use std::sync::Arc;

impl Core {
    /// Lays out each dirty cell in order, unless its value serves again. On an error, which comes only where some cell is dirty,
    /// those that are clean by then stay so.
    pub fn settle(&mut self) -> Result<(), NoMemory>
        requires draws { self.old.cells.draws ≤ 2 ^ 63 + 2 ^ 50 }
        ensures ok { OnOk result (SettlesTo self.old self.new) }
        ensures err { OnErr result (StopsAt self.old self.new) }
        ensures dirty { OnErr result (is_clean self.old ≡ false) }
        ensures draws { self.new.cells.draws ≤ self.old.cells.draws + 2 ^ 18 }
    {
        if are_clean(&self.cells) {
            return Ok(());
        }
        let settled = self.cells.settle();
        self.cells.sound();
        settled
    }

    /// Settles the cells, and publishes the present version unless it is. On an error, which comes only where some cell is dirty or that
    /// version isn't published, nothing is published.
    pub fn refresh(&mut self) -> Result<(), NoMemory>
        requires draws { self.old.cells.draws ≤ 2 ^ 63 + 2 ^ 50 }
        ensures ok { OnOk result (RefreshesTo self.old self.new) }
        ensures err { OnErr result (MaySettle self.old self.new) }
        ensures cause { OnErr result (IsBehind self.old) }
        ensures draws { self.new.cells.draws ≤ self.old.cells.draws + 2 ^ 18 }
    {
        let refreshed = refreshed(
            self.alloc,
            &mut self.cells,
            self.accepted,
            &mut self.trees,
            &mut self.history,
        );
        self.cells.sound();
        refreshed
    }

    /// Publishes the present version unless it is, where no cell is dirty. For want of memory all is as before.
    pub fn publish(&mut self) -> Publish
        ensures { PublishesTo self.old result self.new }
    {
        if let Some(key) = self.cells.first_dirty() {
            return Publish::Unsettled(key);
        }
        let published = published(
            self.alloc,
            &self.cells,
            self.accepted,
            &mut self.trees,
            &mut self.history,
        );
        answer_of(published, self.accepted)
    }
}

/// The answer where a version was to be published, with this outcome.
fn answer_of(published: Result<(), NoMemory>, version: u64) -> Publish
    ensures ok { OnOk published (result ≡ Publish.Published version) }
    ensures err { OnErr published (result ≡ Publish.NoMemory) }
{
    match published {
        Ok(()) => Publish::Published(version),
        Err(_) => Publish::NoMemory,
    }
}

/// Settles the cells of a core that is seen by its parts, and publishes this version, which is the present one, unless it is.
pub(crate) fn refreshed(
    alloc: Global,
    cells: &mut DocumentCells,
    version: u64,
    trees: &mut Vec<PublishedTree>,
    history: &mut Vec<Entry>,
) -> Result<(), NoMemory>
    requires version { version ≡ accepted history.old.items }
    requires trees { HasTrees history.old.items trees.old.items }
    requires room { last_or None (versions_of trees.old.items) ≢ Some version → length history.old.items < vec_capacity history.old }
    requires draws { cells.old.cells.draws ≤ 2 ^ 63 + 2 ^ 51 }
    ensures ok { OnOk result
        ((s : State)
        → RefreshesTo (parts s cells.old history.old.items trees.old.items) (parts s cells.new history.new.items trees.new.items)) }
    ensures err { OnErr result
        ((s : State)
        → MaySettle (parts s cells.old history.old.items trees.old.items) (parts s cells.new history.new.items trees.new.items)) }
    ensures cause { OnErr result ((are_clean cells.old.cells.rows ≡ false) ⊎ (last_or None (versions_of trees.old.items) ≢ Some version)) }
    ensures draws { cells.new.cells.draws ≤ cells.old.cells.draws + 2 ^ 18 }
    ensures capacity { vec_capacity history.new ≡ vec_capacity history.old }
{
    settled(cells)?;
    published(alloc, cells, version, trees, history)
}

/// Settles the cells of a core that is seen by its parts, where one is dirty.
fn settled(cells: &mut DocumentCells) -> Result<(), NoMemory>
    requires draws { cells.old.cells.draws ≤ 2 ^ 63 + 2 ^ 51 }
    ensures ok { OnOk result (CellsSettleTo cells.old cells.new) }
    ensures err { OnErr result (CellsStopAt cells.old cells.new) }
    ensures dirty { OnErr result (are_clean cells.old.cells.rows ≡ false) }
    ensures few { cells.new.cells.draws ≤ cells.old.cells.draws + 2 ^ 18 }
{
    if are_clean(cells) {
        return Ok(());
    }
    cells.settle()
}

/// Publishes this version, which is the present one, of a core whose cells are clean, unless it is published.
fn published(
    alloc: Global,
    cells: &DocumentCells,
    version: u64,
    trees: &mut Vec<PublishedTree>,
    history: &mut Vec<Entry>,
) -> Result<(), NoMemory>
    requires clean { AllClean cells.now.cells.rows }
    requires version { version ≡ accepted history.old.items }
    requires trees { HasTrees history.old.items trees.old.items }
    requires room { last_or None (versions_of trees.old.items) ≢ Some version → length history.old.items < vec_capacity history.old }
    ensures ok { OnOk result
        ((s : State)
        → Publishes (parts s cells.now history.old.items trees.old.items) (parts s cells.now history.new.items trees.new.items)) }
    ensures other { OnErr result (last_or None (versions_of trees.old.items) ≢ Some version) }
    ensures same_history { OnErr result (history.new.items ≡ history.old.items) }
    ensures same_trees { OnErr result (trees.new.items ≡ trees.old.items) }
    ensures capacity { vec_capacity history.new ≡ vec_capacity history.old }
{
    if last_version(trees) == Some(version) {
        return Ok(());
    }
    let tree = Arc::new(alloc, cells.tree()?)?;
    trees.push(PublishedTree::new(version, tree))?;
    history.push_reserved(Entry::Publish { version });
    Ok(())
}

/// The version of the last of these trees.
pub(crate) fn last_version(trees: &[PublishedTree]) -> Option<u64>
    ensures { result ≡ last_or None (versions_of trees.now) }
{
    let last = trees.last()?;
    Some(last.version())
}
