//! Which cell covers each slot of the grid (CSS 2.2, 17.5).

ghost use Rattle.std.specs.Prelude.{◌≡◌, ◌+◌, ◌^◌, ◌<◌, ◌≤◌, length, ℕ, replicate, [], All, IfOk, OnOk};
ghost use Rattle.lay_table_grid.specs.declared.placed.PlacedCell.{PlacedCell};
ghost use Rattle.lay_table_grid.specs.PartBounds.{CoversRows};
ghost use Rattle.lay_table_grid.specs.Pass.Slots.{AreSlots, Covered, CoveredRow, CoveredSlot, entry_at};

use crate::placed::PlacedCell;
use lay_units::NoMemory;
use std::alloc::Global;
use std::marker::Model;

/// The slots of a row up to the last that is covered: for each the number of the cell that covers
/// it.
#[derive(Drop)]
pub struct SlotRow {
    items: Vec<Option<u32>>,
}

impl Model for SlotRow {
    ghost use Rattle.std.specs.Prelude.{List, Option, ℕ};

    ghost Value = { List (Option ℕ) };

    ghost view = { λ row. row.items.items };
}

impl SlotRow {
    fn new(alloc: Global) -> SlotRow
        ensures { result ≡ [] }
    {
        SlotRow {
            items: Vec::new(alloc),
        }
    }

    /// The number of the cell at a column.
    pub fn at(&self, column: usize) -> Option<u32>
        ensures { result ≡ entry_at self.now column }
    {
        match self.items.get(column) {
            Some(entry) => *entry,
            None => None,
        }
    }

    /// Notes the cell k, which covers so many columns from `left` on.
    fn cover(&mut self, k: u32, left: usize, columns: u32) -> Result<(), NoMemory>
        requires { left < 2 ^ 32 }
        ensures { OnOk result (CoveredRow k left columns self.old self.new) }
    {
        cover_row(&mut self.items, k, left, columns)?;
        Ok(())
    }
}

fn cover_row(row: &mut Vec<Option<u32>>, k: u32, left: usize, columns: u32) -> Result<(), NoMemory>
    requires { left < 2 ^ 32 }
    ensures { OnOk result (CoveredRow k left columns row.old.items row.new.items) }
{
    reach(row, left)?;
    for column in left..left + columns as usize {
        cover_slot(row, k, column)?;
    }
    Ok(())
}

/// Lengthens a row to so many slots, if it is shorter.
fn reach(row: &mut Vec<Option<u32>>, count: usize) -> Result<(), NoMemory>
    ensures long { OnOk result (count ≤ length row.new.items) }
    ensures same { OnOk result ((c : ℕ) → entry_at row.new.items c ≡ entry_at row.old.items c) }
{
    for _ in row.len()..count {
        row.push(None)?;
    }
    Ok(())
}

fn cover_slot(row: &mut Vec<Option<u32>>, k: u32, column: usize) -> Result<(), NoMemory>
    requires { column ≤ length row.old.items }
    ensures covered { OnOk result (CoveredSlot k column row.old.items row.new.items) }
    ensures long { OnOk result (column < length row.new.items) }
{
    if column == row.len() {
        row.push(Some(k))?;
    } else if row[column].is_none() {
        row[column] = Some(k);
    }
    Ok(())
}

/// The slots of so many rows, with the numbers of the cells that cover them.
pub fn slot_rows(alloc: Global, cells: &[PlacedCell], rows: usize) -> Result<Vec<SlotRow>, NoMemory>
    requires cells { All (CoversRows rows) cells.now }
    requires left { All (λ (placed : PlacedCell). placed.cell.left < 2 ^ 32) cells.now }
    requires few { length cells.now < 2 ^ 32 }
    ensures { IfOk result (λ slots. AreSlots cells.now rows slots.items) }
{
    let mut slots = empty_rows(alloc, rows)?;
    for k in 0..cells.len() {
        cover_cell(&mut slots, k as u32, cells[k])?;
    }
    Ok(slots)
}

fn empty_rows(alloc: Global, count: usize) -> Result<Vec<SlotRow>, NoMemory>
    ensures { IfOk result (λ rows. rows.items ≡ replicate count []) }
{
    let mut rows = Vec::with_capacity(alloc, count)?;
    for _ in 0..count {
        rows.push(SlotRow::new(alloc))?;
    }
    Ok(rows)
}

fn cover_cell(slots: &mut Vec<SlotRow>, k: u32, placed: PlacedCell) -> Result<(), NoMemory>
    requires last { placed.cell.area.end ≤ length slots.old.items }
    requires left { placed.cell.left < 2 ^ 32 }
    ensures { OnOk result (Covered k placed slots.old.items slots.new.items) }
{
    for row in placed.cell.area.row..placed.cell.area.end {
        slots[row].cover(k, placed.cell.left, placed.cell.area.columns)?;
    }
    Ok(())
}
