//! The engine, and the calls of editors on it.

ghost use Rattle.std.specs.Prelude.{◌≡◌, ◌+◌, ◌<◌, ◌≤◌, length};
ghost use Rattle.lay_board.specs.Passes.{Calls};
ghost use Rattle.lay_history.specs.declared.edits.history.Entry.TheVariants as entry;

use crate::pass::Pass;
use crate::table::{Looks, Shelf};
use crate::turn::{begun, ended};
use lay_history::edits::{Edits, Reply};
use lay_outside::Gate;
use std::alloc::Global;
use std::marker::Model;
use std::sync::{Mutex, Wait};

/// One lock for all turns, and the table in whose slot the core lies.
#[derive(Drop)]
pub struct Engine {
    pub(crate) gate: Mutex<()>,
    pub(crate) table: Shelf,
}

impl Model for Engine {
    ghost use Rattle.std.specs.Prelude.{◌≡◌};
    ghost use Rattle.lay_board.specs.Cores.{origin_told};
    ghost use Rattle.lay_board.specs.Passes.{EngineOf};

    ghost Value = { EngineOf };

    ghost view = { λ e. record { table = e.table.shared.table_id; origin = origin_told e.table.shared.key } };

    ghost invariant = { λ e. (e.table.shared.table_id.words ≡ 2) × (e.table.shared.table_id.slots ≡ 1) };
}

impl Engine {
    /// A call of the pass's editor that edits the document by a list of edits, in one turn of the lock. The reply is Accepted with the new
    /// version, Refused with the first fault of the list and its place, or NoMemory.
    pub fn edit<R: Wait>(&self, rt: &R, pass: Pass, edits: Edits) -> (Reply, Pass)
        requires of { pass.table ≡ self.now.table }
        requires left { 0 < pass.knows.left }
        ensures of { result.1.table ≡ pass.table }
        ensures call { Calls pass.knows result.1.knows (entry.Edit pass.knows.number (length pass.knows.own) edits result.0) }
    {
        let _turn = self.enter(rt);
        let (mut core, turn) = begun(rt, &self.table, pass);
        let reply = core.edit(turn.editor, turn.index, edits);
        let pass = ended(&self.table, turn, core);
        (reply, pass)
    }

    /// A call that asks for the version that was published last, in one turn of the lock. The reply is Shown with it, or NoMemory.
    /// Where nothing is published yet it helps before its turn, as `sync` does.
    pub fn latest<R: Wait, G: Gate>(
        &self,
        rt: &R,
        alloc: Global,
        pass: Pass,
        gate: &G,
    ) -> (Reply, Pass)
        requires of { pass.table ≡ self.now.table }
        requires left { 0 < pass.knows.left }
        ensures of { result.1.table ≡ pass.table }
        ensures call { Calls pass.knows result.1.knows (entry.Latest pass.knows.number (length pass.knows.own) result.0) }
    {
        self.help_at_first(rt, alloc, gate);
        let _turn = self.enter(rt);
        let (mut core, turn) = begun(rt, &self.table, pass);
        let reply = core.latest(turn.editor, turn.index);
        let pass = ended(&self.table, turn, core);
        (reply, pass)
    }

    /// A call that asks for the version with all edits that were accepted so far, in one turn of the lock. The reply is Shown with it, or
    /// NoMemory. Before its turn it helps: it lays out cells in batches, outside the lock, and tells the gate of the start and the end of
    /// each.
    pub fn sync<R: Wait, G: Gate>(
        &self,
        rt: &R,
        alloc: Global,
        pass: Pass,
        gate: &G,
    ) -> (Reply, Pass)
        requires of { pass.table ≡ self.now.table }
        requires left { 0 < pass.knows.left }
        ensures of { result.1.table ≡ pass.table }
        ensures call { Calls pass.knows result.1.knows (entry.Sync pass.knows.number (length pass.knows.own) result.0) }
    {
        self.help(rt, alloc, gate);
        let _turn = self.enter(rt);
        let (mut core, turn) = begun(rt, &self.table, pass);
        let reply = core.sync(turn.editor, turn.index);
        let pass = ended(&self.table, turn, core);
        (reply, pass)
    }

    /// The length of the history at one moment: one load, and no lock. No program calls it.
    pub fn front(&self, pass: &mut Pass) -> u64
        requires of { pass.old.table ≡ self.now.table }
        ensures seen { pass.old.knows.seen ≤ result }
        ensures pass { pass.new
            ≡ record pass.old { knows = record pass.old.knows { seen = result; looks = pass.old.knows.looks + 1 } } }
    {
        let found = self.table.shared.load::<Looks>(&mut pass.seat, 0);
        pass.seen = found;
        found
    }
}
