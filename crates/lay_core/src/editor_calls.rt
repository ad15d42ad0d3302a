//! The calls of editors.

ghost use Rattle.std.specs.Prelude.{◌≡◌, ◌<◌, ◌≤◌, ◌^◌, ◌-◌, ◌+◌};
ghost use Rattle.lay_core.specs.Publishing.{IsBehind};
ghost use Rattle.lay_core.specs.Steps.{EditsTo, LatestTo, SyncTo};

use crate::core_state::Core;
use crate::editing::edited;
use crate::showing::{shown_latest, shown_present};
use lay_history::edits::{Edits, Entry, Reply};

impl Core {
    /// Answers a list of edits of an editor: Refused with its first fault and the place of that; else Accepted with the new version, and
    /// then cells are dirty of contexts that it touches, and those that depend on them; or NoMemory, and then document and cells are as
    /// before.
    pub fn edit(&mut self, editor: u32, index: u32, edits: Edits) -> Reply
        requires calls { 0 < self.old.calls_left }
        ensures edits { EditsTo self.old editor index edits result self.new }
        ensures draws { self.new.cells.draws ≤ self.old.cells.draws + 2 ^ 18 }
    {
        let reply = edited(&mut self.cells, &mut self.accepted, &edits);
        self.cells.sound();
        self.calls_left -= 1;
        self.history.push_reserved(Entry::Edit {
            editor,
            index,
            edits,
            reply,
        });
        reply
    }

    /// Answers an editor that asks for the version that was published last. Where nothing is published, or no cell is dirty
    /// and the present version isn't published, that one is published first. The reply is Shown with the version, or
    /// NoMemory; where something is published and some cell is dirty it takes no memory.
    pub fn latest(&mut self, editor: u32, index: u32) -> Reply
        requires calls { 0 < self.old.calls_left }
        ensures shows { LatestTo self.old editor index result self.new }
        ensures draws { self.new.cells.draws ≤ self.old.cells.draws + 2 ^ 18 }
    {
        let reply = shown_latest(
            self.alloc,
            &mut self.cells,
            self.accepted,
            &mut self.trees,
            &mut self.history,
        );
        self.cells.sound();
        self.calls_left -= 1;
        self.history.push_reserved(Entry::Latest {
            editor,
            index,
            reply,
        });
        reply
    }

    /// Answers an editor that asks for the present version: settles the cells, and publishes it unless it is. The reply is
    /// Shown with the version, or NoMemory, which comes only where some cell is dirty or the present version isn't published.
    pub fn sync(&mut self, editor: u32, index: u32) -> Reply
        requires calls { 0 < self.old.calls_left }
        ensures shows { SyncTo self.old editor index result self.new }
        ensures cause { result ≡ Reply.NoMemory → IsBehind self.old }
        ensures draws { self.new.cells.draws ≤ self.old.cells.draws + 2 ^ 18 }
    {
        let reply = shown_present(
            self.alloc,
            &mut self.cells,
            self.accepted,
            &mut self.trees,
            &mut self.history,
        );
        self.cells.sound();
        self.calls_left -= 1;
        self.history.push_reserved(Entry::Sync {
            editor,
            index,
            reply,
        });
        reply
    }
}
