//! What cells ask of their columns.

ghost use Rattle.std.specs.Prelude.{◌≡◌, ◌<◌, ℕ, All, IfOk, length, slice_get, Some};
ghost use Rattle.lay_box_tree.specs.BoxColumns.{style_of_box};
ghost use Rattle.lay_grid.specs.Automatic.Fit.{CellFits};
ghost use Rattle.lay_table_grid.specs.GridBounds.{CellFits as GridCellFits, PlacesAreBelow};
ghost use Rattle.lay_table_sizes.specs.CellBounds.{cell_edges, cell_maximum, cell_minimum};
ghost use Rattle.lay_table_sizes.specs.CellBounds.{span_cell, span_cells, widths_at};

use crate::lengths::size;
use crate::table_box::style_of_box;
use lay_box_tree::BoxNode;
use lay_grid::automatic::SpanCell;
use lay_measure::{NO_WIDTHS, PreferredWidths, given_or, greater, size_or_zero, sum};
use lay_style::Style;
use lay_table_grid::{TableCell, TableGrid};
use lay_units::{NoMemory, Sides, Unit};
use std::alloc::Global;

/// How narrow and how wide the cells of a table ask their columns to be, row by row.
pub fn span_cells(
    alloc: Global,
    boxes: &[BoxNode],
    inner: &[PreferredWidths],
    grid: &TableGrid,
) -> Result<Vec<SpanCell>, NoMemory>
    requires { PlacesAreBelow (length boxes.now) grid.now }
    ensures cells { IfOk result (λ v. v.items ≡ span_cells boxes.now inner.now grid.now.cells) }
    ensures fit { IfOk result (λ v. All (CellFits grid.now.columns) v.items) }
{
    let count = grid.cells().len();
    let mut cells = Vec::with_capacity(alloc, count)?;
    for k in 0..count {
        let span = span_cell(boxes, inner, cell_at(grid, k))?;
        cells.push(span)?;
    }
    Ok(cells)
}

fn cell_at(grid: &TableGrid, k: usize) -> TableCell
    requires { k < length grid.now.cells }
    ensures at { slice_get grid.now.cells k ≡ Some result }
    ensures fits { GridCellFits (length grid.now.rows) grid.now.columns result }
    ensures placed { (count : ℕ) → PlacesAreBelow count grid.now → result.place < count }
{
    grid.cells()[k]
}

fn span_cell(
    boxes: &[BoxNode],
    inner: &[PreferredWidths],
    cell: TableCell,
) -> Result<SpanCell, NoMemory>
    requires { cell.place < length boxes.now }
    ensures cell { IfOk result (λ c. c ≡ span_cell boxes.now inner.now cell) }
    ensures fits { IfOk result (λ c. (rows columns : ℕ) → GridCellFits rows columns cell → CellFits columns c) }
{
    let style = style_of_box(boxes, cell.place);
    let content = widths_at(inner, cell.place);
    let minimum = cell_minimum(cell.borders, style, content)?;
    let maximum = cell_maximum(cell.borders, style, content)?;
    Ok(SpanCell {
        column: cell.column,
        span: cell.columns,
        min: size(minimum)?,
        max: size(maximum)?,
    })
}

/// How narrow a cell can be.
fn cell_minimum(borders: Sides, style: &Style, content: PreferredWidths) -> Result<Unit, NoMemory>
    ensures { IfOk result (λ v. v ≡ record { 0 = cell_minimum borders style.now content }) }
{
    let given = given_or(style.sizing.width, Unit(0));
    sum(greater(content.minimum, given), cell_edges(borders, style)?)
}

/// How wide it would like to be.
fn cell_maximum(borders: Sides, style: &Style, content: PreferredWidths) -> Result<Unit, NoMemory>
    ensures { IfOk result (λ v. v ≡ record { 0 = cell_maximum borders style.now content }) }
{
    let preferred = sum(content.preferred, cell_edges(borders, style)?)?;
    Ok(greater(preferred, cell_minimum(borders, style, content)?))
}

/// The borders and paddings of a cell on its left and right.
fn cell_edges(borders: Sides, style: &Style) -> Result<Unit, NoMemory>
    ensures { IfOk result (λ v. v ≡ record { 0 = cell_edges borders style.now }) }
{
    let left = sum(borders.left, size_or_zero(style.padding.left))?;
    let right = sum(size_or_zero(style.padding.right), borders.right)?;
    sum(left, right)
}

/// The preferred widths at k.
fn widths_at(inner: &[PreferredWidths], k: usize) -> PreferredWidths
    ensures { result ≡ widths_at inner.now k }
{
    match inner.get(k) {
        Some(widths) => *widths,
        None => NO_WIDTHS,
    }
}
