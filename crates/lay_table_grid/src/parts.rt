//! The parts of a table.

ghost use Rattle.std.specs.Prelude.{◌≡◌, ◌≤◌, All, IfOk};
ghost use Rattle.lay_grid.specs.Places.{right_edge};
ghost use Rattle.lay_table_grid.specs.declared.placed.PlacedCell.{PlacedCell};
ghost use Rattle.lay_table_grid.specs.TableParts.{ArePartsOf};
ghost use Rattle.lay_table_grid.specs.PlacedCells.{column_total};

use crate::columns::column_boxes;
use crate::placed::{PlacedCell, placed_cells};
use crate::rows::{TableRow, table_place, table_rows};
use lay_box_tree::BoxNode;
use lay_grid::Cell;
use lay_units::NoMemory;
use std::alloc::Global;
use std::marker::Model;

/// The parts of a table (CSS 2.2, 17.2, 17.3 and 17.5). Its boxes are known by their places in the list of boxes of its
/// formatting context.
#[derive(Drop)]
pub struct Parts<'a> {
    /// The boxes of the formatting context.
    pub boxes: &'a [BoxNode],
    /// The place of the table box.
    pub table: usize,
    /// The rows as they are drawn, fewer than 2^32.
    pub rows: Vec<TableRow>,
    /// The cells where they stand in the grid, row by row, fewer than 2^32.
    pub cells: Vec<PlacedCell>,
    /// For each column that a column or a column group stands for, the place of that box.
    pub column_boxes: Vec<usize>,
    /// How many columns there are.
    pub columns: u32,
}

impl<'a> Model for Parts<'a> {
    ghost use Rattle.lay_table_grid.specs.TableParts.{TableParts};
    ghost use Rattle.lay_table_grid.specs.PartBounds.{TablePartsFit};

    ghost Value = { TableParts };

    ghost view = { λ p. record {
      boxes = p.boxes.now;
      table = p.table;
      rows = p.rows.items;
      cells = p.cells.items;
      column_boxes = p.column_boxes.items;
      columns = p.columns;
    } };

    ghost invariant = { λ p. TablePartsFit (record {
      boxes = p.boxes.now;
      table = p.table;
      rows = p.rows.items;
      cells = p.cells.items;
      column_boxes = p.column_boxes.items;
      columns = p.columns;
    }) };
}

/// The parts of the table of these boxes. NoMemory is also the answer where there are 2^32 rows, cells
/// or columns, which is more than the boxes of a document make.
pub fn table_parts(alloc: Global, boxes: &[BoxNode]) -> Result<Parts<'_>, NoMemory>
    ensures { IfOk result (ArePartsOf boxes.now) }
{
    let rows = table_rows(alloc, boxes)?;
    let cells = placed_cells(alloc, boxes, &rows)?;
    let column_boxes = column_boxes(alloc, boxes)?;
    let columns = column_total(&column_boxes, &cells)?;
    if rows.len() > LIMIT || cells.len() > LIMIT {
        return Err(NoMemory);
    }
    Ok(Parts {
        boxes,
        table: table_place(boxes),
        rows,
        cells,
        column_boxes,
        columns,
    })
}

/// The greatest count.
const LIMIT: usize = u32::MAX as usize;

/// How many columns there are. NoMemory where these are more than the limit.
fn column_total(column_boxes: &[usize], cells: &[PlacedCell]) -> Result<u32, NoMemory>
    ensures total { IfOk result (λ n. n ≡ column_total column_boxes.now cells.now) }
    ensures edges { IfOk result (λ n. All (λ (placed : PlacedCell). right_edge placed.cell ≤ n) cells.now) }
{
    if column_boxes.len() > LIMIT {
        return Err(NoMemory);
    }
    let mut columns = column_boxes.len() as u32;
    for placed in cells {
        columns = columns.max(right_edge(placed.cell)?);
    }
    Ok(columns)
}

/// The first column right of a cell.
fn right_edge(cell: Cell) -> Result<u32, NoMemory>
    ensures { IfOk result (λ n. n ≡ right_edge cell) }
{
    let most = u32::MAX - cell.area.columns;
    if cell.left > most as usize {
        return Err(NoMemory);
    }
    Ok(cell.left as u32 + cell.area.columns)
}
