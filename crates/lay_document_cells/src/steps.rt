//! The steps of work on the cells of a document, one at a time.

ghost use Rattle.std.specs.Prelude.{◌≡◌, ◌+◌, ◌≤◌, ◌^◌, ◌-◌, IfOk};
ghost use Rattle.std.specs.Arc.{arc_value};
ghost use Rattle.lay_cells.specs.Looks.{Looks};
ghost use Rattle.lay_cells.specs.Places.{AtPlace};
ghost use Rattle.lay_cells.specs.declared.answers.Look.TheVariants as look;
ghost use Rattle.lay_document_cells.specs.Settling.{IsClaimedFor};
ghost use Rattle.lay_document_cells.specs.Steps.{ClaimsTo, CellsFinishTo, CellsGiveBackTo, IsGivenNow};

use crate::document_cells::DocumentCells;
use lay_cell_work::{CellInput, Layout};
use lay_cells::progress::{
    claims_count, finishes_count, finishes_keep_rows, give_backs_count, give_backs_keep_rows,
};
use lay_cells::{Claimed, Done, Finished, Released};
use lay_contexts::{one_context_list, one_formatting_context_list};
use lay_doc::one_style_column;
use lay_kept_cells::settled::{claims_keep_since, finishes_keep_since, give_backs_keep_since};
use lay_kept_cells::steps::{claims_keep_cells, finishes_keep_cells, give_backs_keep_cells};
use lay_kept_cells::table::input_at;
use lay_shape::CellKey;
use lay_units::NoMemory;
use std::sync::Arc;

impl DocumentCells {
    /// Takes finished work, as `Cells::finish`. No claim is granted.
    pub fn finish(&mut self, done: Done<Layout>) -> Finished
        ensures { CellsFinishTo self.old done result self.new }
    {
        finishes_keep_cells();
        finishes_keep_since();
        finishes_count::<Layout>();
        finishes_keep_rows::<Layout>();
        let _value = done.value();
        let answer = self.cells.finish(done);
        self.cells.sound();
        answer
    }

    /// Takes finished work whose input is known to be that of the open claim of its number, so that no inputs are compared.
    pub(crate) fn finish_known(&mut self, done: Done<Layout>) -> Finished
        requires known { IsClaimedFor self.old done.key done.number done.input }
        ensures { CellsFinishTo self.old done result self.new }
    {
        finishes_keep_cells();
        finishes_keep_since();
        finishes_count::<Layout>();
        finishes_keep_rows::<Layout>();
        let _value = done.value();
        let answer = self.cells.finish_known(done);
        self.cells.sound();
        answer
    }

    /// Takes back a claim of a key, as `Cells::give_back`.
    pub(crate) fn give_back_claim(&mut self, key: CellKey, number: u64) -> Released
        ensures { CellsGiveBackTo self.old key number result self.new }
    {
        give_backs_keep_cells();
        give_backs_keep_since();
        give_backs_count::<Layout>();
        give_backs_keep_rows::<Layout>();
        let answer = self.cells.give_back(key, number);
        self.cells.sound();
        answer
    }

    /// What the cell at a place is given now, which is ready.
    pub(crate) fn input_at(&self, place: usize) -> Result<Arc<CellInput>, NoMemory>
        requires ready { AtPlace self.now.cells.rows place (λ r. Looks self.now.cells.rows r.key look.Ready) }
        ensures { IfOk result (λ i. AtPlace self.now.cells.rows place (λ r. IsGivenNow self.now r.key (arc_value i))) }
    {
        input_at(
            self.alloc,
            &self.medium,
            self.table.cells(),
            &self.cells,
            place,
        )
    }

    /// Claims the cell at a place for what it is given now.
    pub(crate) fn claim_input(&mut self, place: usize, input: Arc<CellInput>) -> Claimed
        requires draws { self.old.cells.draws ≤ 2 ^ 64 - 2 ^ 20 }
        requires ready { AtPlace self.old.cells.rows place (λ r. Looks self.old.cells.rows r.key look.Ready) }
        requires given { AtPlace self.old.cells.rows place (λ r. IsGivenNow self.old r.key (arc_value input)) }
        ensures { AtPlace self.old.cells.rows place (λ r. ClaimsTo self.old r.key (arc_value input) result self.new) }
    {
        claims_keep_cells();
        claims_keep_since();
        claims_count::<Layout>();
        one_style_column();
        one_context_list();
        one_formatting_context_list();
        let answer = self.cells.claim_at_place(place, input);
        self.cells.sound();
        if let Claimed::Granted(_) = answer {
            self.laid += 1;
        }
        answer
    }
}
