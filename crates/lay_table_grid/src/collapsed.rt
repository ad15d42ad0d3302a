//! Collapsed borders of a table and its cells (CSS 2.2, 17.6.2).

ghost use Rattle.std.specs.Prelude.{◌<◌, length, IfOk};
ghost use Rattle.lay_table_grid.specs.UsedSides.{AreUsedSides};
ghost use Rattle.lay_table_grid.specs.CellAreas.{IsInsideGrid};
ghost use Rattle.lay_table_grid.specs.TableBorders.{AreCellBorders, AreOuterHalves, AreTableBorders};

use crate::cell_area::CellArea;
use crate::edges::Edges;
use crate::separate::NO_BORDERS;
use crate::widest::{first_half, second_half, widest_above, widest_left};
use lay_borders::Cand;
use lay_units::{NoMemory, Sides};

/// The used widths of the collapsed borders of a cell (CSS 2.2, 17.6.2), in 1/64 px, from 0: on each side the half inside of
/// the widest edge. `borders` is room to work in.
pub fn cell_borders(
    borders: &mut Vec<Cand>,
    edges: &Edges<'_>,
    cell: CellArea,
) -> Result<Sides, NoMemory>
    requires { IsInsideGrid (length edges.now.rows) edges.now.columns cell }
    ensures borders { IfOk result (AreCellBorders edges.now cell) }
    ensures used { IfOk result AreUsedSides }
{
    let row = cell.row as usize;
    let column = cell.column as usize;
    let below = row + cell.rows as usize;
    let beside = column + cell.columns as usize;
    let top = widest_above(borders, edges, row, column, cell.columns)?;
    let bottom = widest_above(borders, edges, below, column, cell.columns)?;
    let left = widest_left(borders, edges, row, column, cell.rows)?;
    let right = widest_left(borders, edges, row, beside, cell.rows)?;
    Ok(Sides {
        top: second_half(top),
        right: first_half(right),
        bottom: first_half(bottom),
        left: second_half(left),
    })
}

/// The used widths of the collapsed borders of a table (CSS 2.2, 17.6.2), in 1/64 px, from 0: above and below the half outside
/// of the widest edge, on the left and the right that of the first row's edge. A table without rows or columns has none.
/// `borders` is room to work in.
pub fn table_borders(borders: &mut Vec<Cand>, edges: &Edges<'_>) -> Result<Sides, NoMemory>
    ensures borders { IfOk result (AreTableBorders edges.now) }
    ensures used { IfOk result AreUsedSides }
{
    if edges.row_count() == 0 || edges.columns() == 0 {
        return Ok(NO_BORDERS);
    }
    let outer = outer_halves(borders, edges)?;
    Ok(outer)
}

fn outer_halves(borders: &mut Vec<Cand>, edges: &Edges<'_>) -> Result<Sides, NoMemory>
    requires rows { 0 < length edges.now.rows }
    requires columns { 0 < edges.now.columns }
    ensures borders { IfOk result (AreOuterHalves edges.now) }
    ensures used { IfOk result AreUsedSides }
{
    let columns = edges.columns();
    let top = widest_above(borders, edges, 0, 0, columns)?;
    let bottom = widest_above(borders, edges, edges.row_count(), 0, columns)?;
    let left = widest_left(borders, edges, 0, 0, 1)?;
    let right = widest_left(borders, edges, 0, columns as usize, 1)?;
    Ok(Sides {
        top: first_half(top),
        right: second_half(right),
        bottom: second_half(bottom),
        left: first_half(left),
    })
}
