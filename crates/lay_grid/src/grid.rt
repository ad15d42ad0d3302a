//! The grid of a table.

ghost use Rattle.std.specs.Prelude.{◌≡◌, ◌+◌, ◌-◌, ◌^◌, ◌<◌, ◌≤◌, ◌++◌, length, IfOk, OnOk, All};
ghost use Rattle.lay_grid.specs.declared.cells.Cell.{Cell};
ghost use Rattle.lay_grid.specs.declared.cells.Grid.{Grid};
ghost use Rattle.lay_grid.specs.Areas.{areas_from};
ghost use Rattle.lay_grid.specs.Places.{right_edge};
ghost use Rattle.lay_grid.specs.Slots.{IsGrid, SpanRows, columns_of};
ghost use Rattle.lay_grid.specs.Slots.{slots_from, slots_in_row, slots_of_cell};

use crate::cells::{Cell, Grid, RowSpec, Slot};
use crate::lists::SlotList;
use crate::placing::standing_cells;
use lay_units::NoMemory;
use std::alloc::Global;

/// The grid of the rows. There are fewer than 2^32 rows, cells and columns.
pub fn slots(alloc: Global, rows: &[RowSpec]) -> Result<Grid, NoMemory>
    requires rows { length rows.now < 2 ^ 32 }
    requires spans { SpanRows rows.now }
    requires cells { length (areas_from 0 rows.now) ≤ 2 ^ 32 }
    requires columns { (grid : Grid) → IsGrid rows.now grid → grid.columns < 2 ^ 32 }
    ensures { IfOk result (λ grid. IsGrid rows.now grid) }
{
    let cells = standing_cells(alloc, rows)?;
    let slots = slots_of(alloc, cells.as_slice())?;
    let columns = needed_columns(cells.as_slice());
    Ok(Grid {
        slots,
        columns: columns as u32,
    })
}

fn needed_columns(cells: &[Cell]) -> usize
    requires { columns_of cells.now < 2 ^ 32 }
    ensures { result ≡ columns_of cells.now }
{
    let mut columns = 0;
    for cell in cells {
        columns = columns.max(cell.left + cell.area.columns as usize);
    }
    columns
}

fn slots_of(alloc: Global, cells: &[Cell]) -> Result<SlotList, NoMemory>
    requires few { length cells.now ≤ 2 ^ 32 }
    requires rows { All (λ (cell : Cell). cell.area.end ≤ 2 ^ 32) cells.now }
    requires columns { columns_of cells.now < 2 ^ 32 }
    ensures { IfOk result (λ slots. slots ≡ slots_from 0 cells.now) }
{
    let mut slots = Vec::new(alloc);
    for k in 0..cells.len() {
        add_cell(&mut slots, k, cells[k])?;
    }
    Ok(SlotList::new(slots))
}

/// Adds the slots of the cell k.
fn add_cell(slots: &mut Vec<Slot>, k: usize, cell: Cell) -> Result<(), NoMemory>
    requires place { k < 2 ^ 32 }
    requires rows { cell.area.end ≤ 2 ^ 32 }
    requires columns { right_edge cell < 2 ^ 32 }
    ensures { OnOk result (slots.new.items ≡ slots.old.items ++ slots_of_cell k cell) }
{
    for row in cell.area.row..cell.area.end {
        add_row(slots, k, row, cell)?;
    }
    Ok(())
}

fn add_row(slots: &mut Vec<Slot>, k: usize, row: usize, cell: Cell) -> Result<(), NoMemory>
    requires place { k < 2 ^ 32 }
    requires row { row < 2 ^ 32 }
    requires columns { right_edge cell < 2 ^ 32 }
    ensures { OnOk result (slots.new.items ≡ slots.old.items ++ slots_in_row k row cell) }
{
    for column in cell.left..cell.left + cell.area.columns as usize {
        slots.push(Slot {
            row: row as u32,
            column: column as u32,
            cell: k as u32,
        })?;
    }
    Ok(())
}
