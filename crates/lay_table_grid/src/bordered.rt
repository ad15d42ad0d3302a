//! Cells with their borders.

ghost use Rattle.std.specs.Prelude.{◌≡◌, ◌^◌, ◌<◌, length, map, All, IfOk, ℕ};
ghost use Rattle.lay_table_grid.specs.PartBounds.{IsPlacedInGrid};
ghost use Rattle.lay_table_grid.specs.TableParts.{TableParts};
ghost use Rattle.lay_table_grid.specs.UsedSides.{AreUsedSides};
ghost use Rattle.lay_table_grid.specs.CellAreas.{IsInsideGrid};
ghost use Rattle.lay_table_grid.specs.TableBorders.{AreCellBorders, AreTableBorders};
ghost use Rattle.lay_table_grid.specs.GridBounds.{CellFits};
ghost use Rattle.lay_table_grid.specs.TableGrid.{IsCollapsed, IsSeparate, placed_of, stand_of};

use crate::grid::TableCell;
use crate::parts::Parts;
use crate::placed::PlacedCell;
use crate::{CellArea, Edges, cell_borders, own_borders, table_borders};
use lay_borders::Cand;
use lay_units::{NoMemory, Sides};
use std::alloc::Global;

/// The cells of a table whose borders collapse, and the borders of the table itself.
#[derive(Drop)]
pub struct CollapsedCells {
    pub cells: Vec<TableCell>,
    pub borders: Sides,
}

/// The cells of a table whose borders are separate.
pub fn separate_cells(alloc: Global, parts: &Parts<'_>) -> Result<Vec<TableCell>, NoMemory>
    ensures placed { IfOk result (λ cells. map placed_of cells.items ≡ parts.now.cells) }
    ensures borders { IfOk result (λ cells. All (IsSeparate parts.now.boxes) cells.items) }
    ensures fit { IfOk result (λ cells. All (CellFits (length parts.now.rows) parts.now.columns) cells.items) }
{
    let mut cells = Vec::with_capacity(alloc, parts.cells.len())?;
    for placed in &parts.cells {
        let borders = own_borders(parts.boxes, placed.place);
        cells.push(bordered(placed.place, area_of(*placed), borders))?;
    }
    Ok(cells)
}

/// The cells of a table whose borders collapse, and the borders of the table itself.
pub fn collapsed_cells(alloc: Global, parts: &Parts<'_>) -> Result<CollapsedCells, NoMemory>
    ensures placed { IfOk result (λ c. map placed_of c.cells.items ≡ parts.now.cells) }
    ensures cells { IfOk result (λ c. All (IsCollapsed parts.now) c.cells.items) }
    ensures fit { IfOk result (λ c. All (CellFits (length parts.now.rows) parts.now.columns) c.cells.items) }
    ensures borders { IfOk result (λ c. AreTableBorders parts.now c.borders) }
    ensures used { IfOk result (λ c. AreUsedSides c.borders) }
{
    let edges = Edges::new(alloc, parts)?;
    let mut room = Vec::new(alloc);
    let cells = cells_between(alloc, &mut room, &edges, &parts.cells)?;
    let borders = table_borders(&mut room, &edges)?;
    Ok(CollapsedCells { cells, borders })
}

/// The cells in the grid with these edges. `borders` is room to work in.
fn cells_between(
    alloc: Global,
    borders: &mut Vec<Cand>,
    edges: &Edges<'_>,
    placed: &[PlacedCell],
) -> Result<Vec<TableCell>, NoMemory>
    requires inside { All (IsPlacedInGrid (length edges.now.rows) edges.now.columns) placed.now }
    requires rows { length edges.now.rows < 2 ^ 32 }
    requires columns { edges.now.columns < 2 ^ 32 }
    ensures placed { IfOk result (λ cells. map placed_of cells.items ≡ placed.now) }
    ensures borders { IfOk result (λ cells. All (IsCollapsed edges.now) cells.items) }
    ensures fit { IfOk result (λ cells. All (CellFits (length edges.now.rows) edges.now.columns) cells.items) }
{
    let mut cells = Vec::with_capacity(alloc, placed.len())?;
    for cell in placed {
        let cell = collapsed_cell(borders, edges, *cell)?;
        cells.push(cell)?;
    }
    Ok(cells)
}

fn collapsed_cell(
    borders: &mut Vec<Cand>,
    edges: &Edges<'_>,
    placed: PlacedCell,
) -> Result<TableCell, NoMemory>
    requires inside { IsPlacedInGrid (length edges.now.rows) edges.now.columns placed }
    requires rows { length edges.now.rows < 2 ^ 32 }
    requires columns { edges.now.columns < 2 ^ 32 }
    ensures placed { IfOk result (λ cell. placed_of cell ≡ placed) }
    ensures borders { IfOk result (IsCollapsed edges.now) }
    ensures fits { IfOk result (CellFits (length edges.now.rows) edges.now.columns) }
{
    let area = area_of(placed);
    let sides = cell_borders(borders, edges, area)?;
    Ok(bordered(placed.place, area, sides))
}

/// The slots that a cell covers.
fn area_of(placed: PlacedCell) -> CellArea
    requires order { placed.cell.area.row < placed.cell.area.end }
    requires rows { placed.cell.area.end < 2 ^ 32 }
    requires columns { placed.cell.left < 2 ^ 32 }
    ensures stand { stand_of result ≡ placed.cell }
    ensures inside { (rows columns : ℕ) → IsPlacedInGrid rows columns placed → IsInsideGrid rows columns result }
{
    CellArea {
        row: placed.cell.area.row as u32,
        column: placed.cell.left as u32,
        rows: (placed.cell.area.end - placed.cell.area.row) as u32,
        columns: placed.cell.area.columns,
    }
}

/// The cell of a box that covers these slots.
fn bordered(place: usize, area: CellArea, borders: Sides) -> TableCell
    requires { AreUsedSides borders }
    ensures placed { placed_of result ≡ record { place = place; cell = stand_of area } }
    ensures place { result.place ≡ place }
    ensures borders { result.borders ≡ borders }
    ensures collapsed { (p : TableParts) → AreCellBorders p area borders → IsCollapsed p result }
    ensures fits { (rows columns : ℕ) → IsInsideGrid rows columns area → CellFits rows columns result }
{
    TableCell {
        place,
        row: area.row,
        column: area.column,
        rows: area.rows,
        columns: area.columns,
        borders,
    }
}
