//! Cells that stand in the grid (CSS 2.2, 17.5).

ghost use Rattle.std.specs.Prelude.{◌≡◌, length, IfOk, All};
ghost use Rattle.lay_grid.specs.declared.cells.Cell.{Cell};
ghost use Rattle.lay_table_grid.specs.Pass.CellLists.{IsRowOf};
ghost use Rattle.lay_table_grid.specs.PartBounds.{CoversRows};
ghost use Rattle.lay_table_grid.specs.PlacedCells.{ArePlaced, places_of_cells, stands_of};

use crate::cells::{cell_lists, cell_places, row_specs};
use crate::rows::TableRow;
use lay_box_tree::BoxNode;
use lay_grid::{Cell, standing_cells};
use lay_units::NoMemory;
use std::alloc::Global;

/// A cell of a table (CSS 2.2, 17.5): the place of its box among those of the formatting context, and where it stands in the
/// grid, by its first row and column, each counted from 0.
#[derive(Clone, Copy)]
pub struct PlacedCell {
    pub place: usize,
    pub cell: Cell,
}

/// The cells of the rows, row by row.
pub fn placed_cells(
    alloc: Global,
    boxes: &[BoxNode],
    rows: &[TableRow],
) -> Result<Vec<PlacedCell>, NoMemory>
    requires rows { All (IsRowOf boxes.now) rows.now }
    ensures are { IfOk result (λ cells. ArePlaced boxes.now rows.now cells.items) }
    ensures cover { IfOk result (λ cells. All (CoversRows (length rows.now)) cells.items) }
{
    let lists = cell_lists(alloc, boxes)?;
    let places = cell_places(alloc, boxes, rows, &lists)?;
    let specs = row_specs(alloc, boxes, rows, &lists)?;
    let cells = standing_cells(alloc, &specs)?;
    let placed = joined(alloc, &places, &cells)?;
    Ok(placed)
}

/// The cells with their places.
fn joined(alloc: Global, places: &[usize], cells: &[Cell]) -> Result<Vec<PlacedCell>, NoMemory>
    requires { length places.now ≡ length cells.now }
    ensures places { IfOk result (λ placed. places_of_cells placed.items ≡ places.now) }
    ensures cells { IfOk result (λ placed. stands_of placed.items ≡ cells.now) }
{
    let mut placed = Vec::with_capacity(alloc, cells.len())?;
    for k in 0..cells.len() {
        placed.push(PlacedCell {
            place: places[k],
            cell: cells[k],
        })?;
    }
    Ok(placed)
}
