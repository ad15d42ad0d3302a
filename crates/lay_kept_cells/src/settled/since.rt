//! What is known of cells since all of them were clean.

ghost use Rattle.std.specs.Prelude.{◌≡◌, ◌↔◌, ◌<◌, ℕ, IsTrue, Some, length, slice_get};
ghost use Rattle.lay_context.specs.declared.task.Phase.TheVariants.{Measure};
ghost use Rattle.lay_shape.specs.Shapes.{cells_of};
ghost use Rattle.lay_kept_cells.specs.Settled.Since.{IsUnchanged, KeepAllThen, KeepsThen, either};

use crate::table::CellTable;
use lay_cell_work::Layout;
use lay_cells::Cells;
use lay_context::Phase;
use std::marker::Model;

/// The greatest number that was drawn when all cells were clean, and for each context whether its boxes may have changed since.
#[derive(Drop)]
pub struct Since {
    number: u64,
    changed: Vec<bool>,
}

impl Model for Since {
    ghost use Rattle.lay_kept_cells.specs.Settled.Since.{Since as Plain};

    ghost Value = { Plain };

    ghost view = { λ s. record { number = s.number; changed = s.changed.items } };
}

/// Whether the phase is the one of preferred widths.
fn is_measure(phase: Phase) -> bool
    ensures { IsTrue result ↔ (phase ≡ Measure) }
{
    match phase {
        Phase::Measure => true,
        Phase::Size => false,
        Phase::Place => false,
    }
}

impl Since {
    /// From when so many numbers were drawn, where the boxes of these contexts may change.
    pub fn new(number: u64, changed: Vec<bool>) -> Since
        ensures { result ≡ record { number = number; changed = changed.items } }
    {
        Since { number, changed }
    }

    /// The boxes of these contexts may change too.
    pub fn also(&mut self, made: &[bool])
        requires { length made.now ≡ length self.old.changed }
        ensures { self.new ≡ record { number = self.old.number; changed = either self.old.changed made.now } }
    {
        for i in 0..made.len() {
            if made[i] {
                self.changed[i] = true;
            }
        }
    }

    /// Whether the cell at a place keeps what it kept then, where its context has the boxes that it had.
    fn is_kept(&self, table: &CellTable, cells: &Cells<Layout>, place: usize) -> bool
        requires flags { length self.now.changed ≡ length table.now.contexts }
        requires shaped { length cells.now.rows ≡ length (cells_of table.now.contexts) }
        requires within { place < length cells.now.rows }
        ensures { IsTrue result ↔ KeepsThen table.now.contexts cells.now.rows self.now place }
    {
        let cell = table.cell_at(place);
        if self.changed[cell.context] {
            return false;
        }
        match cells.kept_at(place) {
            Some(done) => done.number() <= self.number,
            None => false,
        }
    }

    /// The same of the cells at all of these places.
    fn are_kept(&self, table: &CellTable, cells: &Cells<Layout>, places: &[usize]) -> bool
        requires flags { length self.now.changed ≡ length table.now.contexts }
        requires shaped { length cells.now.rows ≡ length (cells_of table.now.contexts) }
        requires within { (j need : ℕ) → slice_get places.now j ≡ Some need → need < length cells.now.rows }
        ensures { IsTrue result ↔ KeepAllThen table.now.contexts cells.now.rows self.now places.now }
    {
        for j in 0..places.len() {
            if !self.is_kept(table, cells, places[j]) {
                return false;
            }
        }
        true
    }

    /// Whether the cell at a place, which is not for preferred widths, keeps what it kept then, and so does each cell that it depends on,
    /// where their contexts have the boxes that they had.
    pub fn is_unchanged(&self, table: &CellTable, cells: &Cells<Layout>, place: usize) -> bool
        requires flags { length self.now.changed ≡ length table.now.contexts }
        requires shaped { length cells.now.rows ≡ length (cells_of table.now.contexts) }
        requires within { place < length cells.now.rows }
        ensures { IsTrue result ↔ IsUnchanged table.now.contexts cells.now.rows self.now place }
    {
        cells.sound();
        if is_measure(table.cell_at(place).phase) {
            return false;
        }
        if !self.is_kept(table, cells, place) {
            return false;
        }
        self.are_kept(table, cells, cells.needs_at(place))
    }
}
