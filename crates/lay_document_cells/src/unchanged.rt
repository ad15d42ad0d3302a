//! Claims of cells that are known to keep what they would be given now.

ghost use Rattle.std.specs.Prelude.{◌≤◌, ◌^◌, ◌-◌, IsTrue};
ghost use Rattle.lay_cells.specs.Looks.{Looks};
ghost use Rattle.lay_cells.specs.Places.{AtPlace};
ghost use Rattle.lay_cells.specs.declared.answers.Look.TheVariants as look;
ghost use Rattle.lay_document_cells.specs.Unchanged.{CanReuseGiven, KeepsGiven, ReusesGiven};

use crate::document_cells::DocumentCells;
use lay_cell_work::Layout;
use lay_cells::progress::claims_count;
use lay_contexts::{one_context_list, one_formatting_context_list};
use lay_doc::one_style_column;
use lay_kept_cells::settled::{claims_keep_since, unchanged_cells_keep_inputs};
use lay_kept_cells::steps::claims_keep_cells;

impl DocumentCells {
    /// Whether it is known that the cell at a place, which is ready, keeps what it would be given now.
    fn is_unchanged(&self, place: usize) -> bool
        requires { AtPlace self.now.cells.rows place (λ r. Looks self.now.cells.rows r.key look.Ready) }
        ensures { IsTrue result → AtPlace self.now.cells.rows place (λ r. KeepsGiven self.now r) }
    {
        unchanged_cells_keep_inputs();
        match &self.since {
            Some(since) => since.is_unchanged(self.table.cells(), &self.cells, place),
            None => false,
        }
    }

    /// Whether that is known, and no claim is open for what it would be given.
    pub(crate) fn can_reuse(&self, place: usize) -> bool
        requires { AtPlace self.now.cells.rows place (λ r. Looks self.now.cells.rows r.key look.Ready) }
        ensures { IsTrue result → AtPlace self.now.cells.rows place (λ r. CanReuseGiven self.now r) }
    {
        if !self.is_unchanged(place) {
            return false;
        }
        self.cells.can_reuse_at(place)
    }

    /// Claims such a cell for what it is given now: it is Reused. No input is made, and none is compared.
    pub(crate) fn reuse_given(&mut self, place: usize)
        requires draws { self.old.cells.draws ≤ 2 ^ 64 - 2 ^ 20 }
        requires ready { AtPlace self.old.cells.rows place (λ r. Looks self.old.cells.rows r.key look.Ready) }
        requires can { AtPlace self.old.cells.rows place (λ r. CanReuseGiven self.old r) }
        ensures { AtPlace self.old.cells.rows place (λ r. ReusesGiven self.old r.key self.new) }
    {
        claims_keep_cells();
        claims_keep_since();
        claims_count::<Layout>();
        one_style_column();
        one_context_list();
        one_formatting_context_list();
        self.cells.reuse_at(place);
        self.cells.sound();
    }
}
