//! What gives columns their widths.

ghost use Rattle.std.specs.Prelude.{◌≡◌, ◌<◌, ◌≤◌, ◌^◌, ◌*ℤ◌, ◌≤ℤ◌, pos, IfOk, length, slice_get};
ghost use Rattle.lay_units.specs.Units.{IsPosition, IsUsedSize};
ghost use Rattle.lay_grid.specs.ColumnsFit.{ColumnsFit};
ghost use Rattle.lay_grid.specs.Lengths.{MayBePosition};
ghost use Rattle.lay_sizes.specs.SizeBounds.{IsUsedSizeOrAuto};
ghost use Rattle.lay_table_grid.specs.UsedSides.{AreUsedSides};
ghost use Rattle.lay_table_sizes.specs.ColumnWidths.{cell_edges, cell_width, columns_in, element_widths};
ghost use Rattle.lay_table_sizes.specs.ColumnWidths.{first_cell, first_cells, given_padding, given_width};
ghost use Rattle.lay_table_sizes.specs.ColumnWidths.{left_by_spacings, left_for_columns};
ghost use Rattle.lay_table_sizes.specs.ColumnWidths.{or_none, width_by_box, width_by_kind, width_by_place, with_edges};
ghost use Rattle.lay_table_sizes.specs.Bounds.{ArePlaced, IsEdge, most_columns};

use crate::table_box::{inset, style_of_box, together};
use lay_box_tree::{BoxKind, BoxNode};
use lay_grid::{ColumnsIn, FirstCell, FirstCells, WidthOptions};
use lay_measure::{length_or_auto, size_or_zero};
use lay_sizes::{used_size, used_width};
use lay_style::{LengthPercentage, LengthPercentageOrAuto, Style};
use lay_table_grid::{TableCell, TableGrid};
use lay_units::{Len, NoMemory, Sides, Unit};
use std::alloc::Global;

/// What the columns of a table depend on that is to have the width `wanted`, where percentages are of `table` and of what the
/// spacings leave of it.
pub(crate) fn columns_in(
    alloc: Global,
    table: Option<Unit>,
    boxes: &[BoxNode],
    grid: &TableGrid,
    wanted: Unit,
) -> Result<ColumnsIn, NoMemory>
    requires placed { ArePlaced (length boxes.now) grid.now.cells }
    requires few { grid.now.columns ≤ most_columns }
    requires table { MayBePosition table }
    requires wanted { IsUsedSize wanted.0 }
    ensures value { IfOk result (λ c. c ≡ columns_in table boxes.now grid.now wanted) }
    ensures fits { IfOk result ColumnsFit }
{
    let left = left_for_columns(grid, table);
    let given = element_widths(alloc, left, boxes, grid)?;
    let first = first_cells(alloc, table, left, boxes, grid)?;
    Ok(ColumnsIn {
        given: WidthOptions::new(given),
        first: FirstCells::new(first),
        width: wanted,
        spacing: grid.spacing().across,
    })
}

/// What the spacings leave of the width of the table for its columns, if anything; None where that width isn't known.
fn left_for_columns(grid: &TableGrid, table: Option<Unit>) -> Option<Unit>
    requires few { grid.now.columns ≤ most_columns }
    requires table { MayBePosition table }
    ensures { result ≡ left_for_columns grid.now table }
{
    match table {
        None => None,
        Some(table) => Some(left_by_spacings(grid.spacing().across, grid.columns(), table)),
    }
}

/// What the spacings before so many columns and after the last leave of the width of a table.
fn left_by_spacings(spacing: Unit, columns: u32, table: Unit) -> Unit
    requires spacing { IsUsedSize spacing.0 }
    requires few { columns ≤ most_columns }
    requires table { IsPosition table.0 }
    ensures { result ≡ left_by_spacings spacing columns table }
{
    let left = i128::from(table.0) - all_spacings(spacing, columns as usize + 1);
    Unit(left.max(0) as i64)
}

/// So many spacings together.
fn all_spacings(spacing: Unit, count: usize) -> i128
    requires spacing { IsUsedSize spacing.0 }
    requires count { count ≤ 2 ^ 32 }
    ensures value { result ≡ spacing.0 *ℤ pos count }
    ensures least { pos 0 ≤ℤ result }
    ensures most { result ≤ℤ pos (2 ^ 94) }
{
    i128::from(spacing.0) * count as i128
}

/// The widths of column elements, for each column.
fn element_widths(
    alloc: Global,
    left: Option<Unit>,
    boxes: &[BoxNode],
    grid: &TableGrid,
) -> Result<Vec<Option<Unit>>, NoMemory>
    ensures { IfOk result (λ v. v.items ≡ element_widths left boxes.now grid.now.column_boxes grid.now.columns) }
{
    let places = grid.column_boxes();
    let mut widths = Vec::new(alloc);
    for i in 0..grid.columns() as usize {
        widths.push(width_by_place(left, boxes, places, i))?;
    }
    Ok(widths)
}

fn width_by_place(left: Option<Unit>, boxes: &[BoxNode], places: &[usize], i: usize) -> Option<Unit>
    ensures { result ≡ width_by_place left boxes.now (slice_get places.now i) }
{
    match places.get(i) {
        Some(place) => width_by_box(left, boxes, *place),
        None => None,
    }
}

fn width_by_box(left: Option<Unit>, boxes: &[BoxNode], place: usize) -> Option<Unit>
    ensures { result ≡ width_by_box left (slice_get boxes.now place) }
{
    match boxes.get(place) {
        Some(node) => width_by_kind(left, &node.kind, &node.style),
        None => None,
    }
}

/// The width of a column element.
fn width_by_kind(left: Option<Unit>, kind: &BoxKind, style: &Style) -> Option<Unit>
    ensures { result ≡ width_by_kind left kind.now style.now }
{
    match kind {
        BoxKind::Column { .. } => or_none(given_width(left, style.sizing.width)),
        _ => None,
    }
}

fn or_none(width: Len) -> Option<Unit>
    ensures { result ≡ or_none width }
{
    match width {
        Len::Auto => None,
        Len::Of(width) => Some(width),
    }
}

/// The cells of the first row.
fn first_cells(
    alloc: Global,
    table: Option<Unit>,
    left: Option<Unit>,
    boxes: &[BoxNode],
    grid: &TableGrid,
) -> Result<Vec<FirstCell>, NoMemory>
    requires { ArePlaced (length boxes.now) grid.now.cells }
    ensures { IfOk result (λ v. v.items ≡ first_cells table left boxes.now grid.now.cells) }
{
    let mut first = Vec::new(alloc);
    for cell in grid.cells() {
        if cell.row == 0 {
            first.push(first_cell(table, left, boxes, *cell))?;
        }
    }
    Ok(first)
}

fn first_cell(
    table: Option<Unit>,
    left: Option<Unit>,
    boxes: &[BoxNode],
    cell: TableCell,
) -> FirstCell
    requires placed { cell.place < length boxes.now }
    requires borders { AreUsedSides cell.borders }
    ensures { result ≡ first_cell table left boxes.now cell }
{
    let style = style_of_box(boxes, cell.place);
    FirstCell {
        column: cell.column,
        span: cell.columns,
        width: cell_width(table, left, cell.borders, style),
    }
}

/// The width of a cell's border box, where its `width` says one.
fn cell_width(
    table: Option<Unit>,
    left: Option<Unit>,
    borders: Sides,
    style: &Style,
) -> Option<Unit>
    requires { AreUsedSides borders }
    ensures { result ≡ cell_width table left borders style.now }
{
    let edges = cell_edges(table, borders, style);
    with_edges(edges, given_width(left, style.sizing.width))
}

fn with_edges(edges: Unit, width: Len) -> Option<Unit>
    requires edges { IsEdge edges.0 }
    requires width { IsUsedSizeOrAuto width }
    ensures { result ≡ with_edges edges.0 width }
{
    match width {
        Len::Auto => None,
        Len::Of(width) => Some(Unit(width.0 + edges.0)),
    }
}

/// The borders and paddings of a cell on its left and right.
pub(crate) fn cell_edges(table: Option<Unit>, borders: Sides, style: &Style) -> Unit
    requires { AreUsedSides borders }
    ensures value { result.0 ≡ cell_edges table borders style.now }
    ensures fits { IsEdge result.0 }
{
    let left = given_padding(table, style.padding.left);
    let right = given_padding(table, style.padding.right);
    together(inset(borders.left, left), inset(borders.right, right))
}

/// A `width` beside what is left for the columns, which is None where it isn't known.
fn given_width(left: Option<Unit>, width: LengthPercentageOrAuto) -> Len
    ensures value { result ≡ given_width left width }
    ensures size { IsUsedSizeOrAuto result }
{
    match left {
        None => length_or_auto(width),
        Some(left) => used_width(left, width),
    }
}

/// A padding beside the width of the table, which is None where it isn't known.
fn given_padding(table: Option<Unit>, padding: LengthPercentage) -> Unit
    ensures value { result ≡ given_padding table padding }
    ensures size { IsUsedSize result.0 }
{
    match table {
        None => size_or_zero(padding),
        Some(table) => used_size(table, padding),
    }
}
