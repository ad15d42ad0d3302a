//! How the cells of a document are settled.

ghost use Rattle.std.specs.Prelude.{◌≡◌, ◌+◌, ◌≤◌, ◌<◌, ◌^◌, ◌-◌, OnErr, OnOk, length};
ghost use Rattle.std.specs.Arc.{arc_value};
ghost use Rattle.lay_cells.specs.Looks.{Looks};
ghost use Rattle.lay_cells.specs.Places.{AtPlace};
ghost use Rattle.lay_cells.specs.declared.answers.Look.TheVariants as look;
ghost use Rattle.lay_document_cells.specs.Settling.{AreCleanBefore, FinishesWork, GivesBackWork, GivesUpAt, IsClaimedFor};
ghost use Rattle.lay_document_cells.specs.Settling.{SettlesAt, CellsSettleTo, CellsStopAt};

use crate::document_cells::DocumentCells;
use lay_cell_work::{CellInput, Layout, value_of_cell};
use lay_cells::progress::{
    claims_keep_rows, finished_cells_are_clean, finishes_keep_rows, give_backs_keep_rows,
    granted_claims_are_released, reused_cells_are_clean,
};
use lay_cells::{Claimed, Done, Look};
use lay_shape::CellKey;
use lay_units::NoMemory;
use std::sync::Arc;

impl DocumentCells {
    /// Computes the value of this input, and finishes it under the number of a claim of the key for it. On an error all is as before.
    fn finish_claimed(
        &mut self,
        key: CellKey,
        number: u64,
        input: Arc<CellInput>,
    ) -> Result<(), NoMemory>
        requires claimed { IsClaimedFor self.old key number (arc_value input) }
        ensures ok { OnOk result (FinishesWork self.old key number (arc_value input) self.new) }
        ensures err { OnErr result (self.new ≡ self.old) }
    {
        let value = value_of_cell(self.alloc, &input)?;
        let value = Arc::new(self.alloc, value)?;
        self.finish_known(Done::new(key, number, input, value));
        Ok(())
    }

    /// Computes the value of this input for a claim of the key that was granted. On an error the claim is given back.
    fn finish_granted(
        &mut self,
        key: CellKey,
        number: u64,
        input: Arc<CellInput>,
    ) -> Result<(), NoMemory>
        requires claimed { IsClaimedFor self.old key number (arc_value input) }
        ensures ok { OnOk result (FinishesWork self.old key number (arc_value input) self.new) }
        ensures err { OnErr result (GivesBackWork self.old key number self.new) }
    {
        if self.finish_claimed(key, number, input).is_err() {
            self.give_back_claim(key, number);
            return Err(NoMemory);
        }
        Ok(())
    }

    /// Makes the cell at a place clean, which is the first dirty one.
    fn settle_ready(&mut self, place: usize) -> Result<(), NoMemory>
        requires ready { AtPlace self.old.cells.rows place (λ r. Looks self.old.cells.rows r.key look.Ready) }
        requires clean { AreCleanBefore self.old.cells.rows place }
        requires draws { self.old.cells.draws ≤ 2 ^ 64 - 2 ^ 20 }
        ensures ok { OnOk result (SettlesAt self.old place self.new) }
        ensures err { OnErr result (GivesUpAt self.old self.new) }
    {
        claims_keep_rows::<Layout>();
        finishes_keep_rows::<Layout>();
        give_backs_keep_rows::<Layout>();
        reused_cells_are_clean::<Layout>();
        finished_cells_are_clean::<Layout>();
        granted_claims_are_released::<Layout>();
        self.cells.sound();
        if self.can_reuse(place) {
            self.reuse_given(place);
            return Ok(());
        }
        let key = self.cells.key_at(place);
        let input = self.input_at(place)?;
        let shared = input.clone()?;
        match self.claim_input(place, shared) {
            Claimed::Reused => Ok(()),
            Claimed::Granted(number) => self.finish_granted(key, number, input),
            Claimed::Taken(number) => self.finish_claimed(key, number, input),
        }
    }

    /// Makes the cell at a place clean, where those before it are.
    fn settle_at(&mut self, place: usize) -> Result<(), NoMemory>
        requires within { place < length self.old.cells.rows }
        requires clean { AreCleanBefore self.old.cells.rows place }
        requires draws { self.old.cells.draws ≤ 2 ^ 64 - 2 ^ 20 }
        ensures ok { OnOk result (SettlesAt self.old place self.new) }
        ensures err { OnErr result (GivesUpAt self.old self.new) }
    {
        self.cells.sound();
        match self.cells.look_at(place) {
            Look::Ready => self.settle_ready(place),
            _ => Ok(()),
        }
    }

    /// Claims and computes each dirty cell in order. On an error the cells that were finished stay clean, and a claim that was granted
    /// here is given back.
    pub fn settle(&mut self) -> Result<(), NoMemory>
        requires draws { self.old.cells.draws ≤ 2 ^ 63 + 2 ^ 51 }
        ensures ok { OnOk result (CellsSettleTo self.old self.new) }
        ensures err { OnErr result (CellsStopAt self.old self.new) }
        ensures few { self.new.cells.draws ≤ self.old.cells.draws + 2 ^ 18 }
    {
        let first = match self.cells.dirty_from(0) {
            Some(first) => first,
            None => return Ok(()),
        };
        for place in first..self.cells.len() {
            self.settle_at(place)?;
        }
        Ok(())
    }
}
