//! What the heights of rows depend on (CSS 2.2, 17.5.3).

ghost use Rattle.std.specs.Prelude.{◌≡◌, ◌<◌, ◌≤◌, ◌++◌, length, None, All, IfOk, OnOk};
ghost use Rattle.lay_units.specs.Units.{IsBoxSize, IsNear, IsUsedSize};
ghost use Rattle.lay_units.specs.declared.length.Unit.{Unit as Length};
ghost use Rattle.lay_grid.specs.RowsFit.{RowsFit};
ghost use Rattle.lay_sizes.specs.OwnBoxes.{OwnBoxFits};
ghost use Rattle.lay_sizes.specs.SizeBounds.{IsUsedSizeOrAuto, SizeFits};
ghost use Rattle.lay_sizes.specs.SizeColumns.{HaveSizeBounds, sizes_at};
ghost use Rattle.lay_sizes.specs.UsedLengths.{or_zero};
ghost use Rattle.lay_table.specs.NeedBounds.{NeedFits, NeedsFit};
ghost use Rattle.lay_table.specs.RowNeeds.{align_of, baseline_if, border_height, cell_baseline, cell_of, content_edge, least_height};
ghost use Rattle.lay_table.specs.RowNeeds.{left_for_rows, natural_box, need_by_content, needs_of, needs_of_cell};
ghost use Rattle.lay_table.specs.RowNeeds.{row_own_height, own_heights, row_cell, row_spacing, row_style, rows_in};

use crate::cell_align::CellAlign;
use crate::cells::{align_of, cell_of, natural_box, sizes_at, style_of, table_sizes};
use crate::near::{near_difference, near_product};
use crate::table_input::TableInput;
use lay_grid::{RowCell, RowCells, RowsIn};
use lay_heights::with_min_max;
use lay_sizes::{BoxSizes, OwnBox};
use lay_style::{LengthPercentageOrAuto, Style};
use lay_table_grid::{TableCell, TableGrid};
use lay_units::{Len, NoMemory, Unit, UnitList, clamp_size, sum_of};
use std::alloc::Global;

/// What the heights of the rows depend on, where these are the used sizes of the cells. NoMemory is also the answer for more
/// rows than 2^32.
pub(crate) fn rows_in(
    alloc: Global,
    input: &TableInput,
    cells: &[BoxSizes],
) -> Result<RowsIn, NoMemory>
    requires count { length cells.now ≡ length input.now.table.grid.cells }
    requires sizes { HaveSizeBounds cells.now }
    ensures rows { IfOk result (λ r. r ≡ rows_in input.now cells.now) }
    ensures count { IfOk result (λ r. length r.own ≡ length input.now.table.grid.rows) }
    ensures fit { IfOk result RowsFit }
{
    let rows = input.grid().rows().len();
    if rows > MOST_ROWS {
        return Err(NoMemory);
    }
    let spacing = row_spacing(input.grid());
    let least = least_height(&table_sizes(input));
    Ok(RowsIn {
        own: UnitList::new(own_heights(alloc, input)?),
        cells: RowCells::new(needs_of(alloc, input, cells)?),
        spacing,
        total: left_for_rows(least, spacing, rows)?,
    })
}

/// The most rows of a table: no document has so many nodes.
const MOST_ROWS: usize = 1073741824;

/// The spacing between rows.
pub(crate) fn row_spacing(grid: &TableGrid) -> Unit
    ensures value { result ≡ row_spacing grid.now }
    ensures size { IsUsedSize result.0 }
{
    if grid.rows().is_empty() {
        return Unit(0);
    }
    grid.spacing().down
}

/// The least height of the content of the table box.
pub(crate) fn least_height(table: &BoxSizes) -> Unit
    requires { SizeFits table.now }
    ensures { result ≡ least_height table.now }
{
    with_min_max(
        given_height(table.height),
        table.min_height,
        table.max_height,
    )
}

/// What is left of it for the heights of so many rows.
fn left_for_rows(height: Unit, spacing: Unit, rows: usize) -> Result<Unit, NoMemory>
    requires { rows ≤ 1073741824 }
    ensures value { IfOk result (λ u. u ≡ left_for_rows height spacing rows) }
    ensures near { IfOk result (λ u. IsNear u.0) }
{
    near_difference(height, near_product(spacing, rows + 1)?)
}

/// The heights of their own that rows have.
fn own_heights(alloc: Global, input: &TableInput) -> Result<Vec<Unit>, NoMemory>
    ensures heights { IfOk result (λ v. v.items ≡ own_heights input.now) }
    ensures sizes { IfOk result (λ v. All (λ (u : Length). IsUsedSize u.0) v.items) }
{
    let mut heights = Vec::new(alloc);
    for r in 0..input.grid().rows().len() {
        heights.push(own_height(row_style(input, r)))?;
    }
    Ok(heights)
}

/// The style of the row r.
fn row_style(input: &TableInput, r: usize) -> &Style
    requires { r < length input.now.table.grid.rows }
    ensures { result.now ≡ row_style input.now r }
{
    let row = input.grid().rows()[r];
    let _ = input.boxes();
    style_of(input, row.place)
}

fn own_height(style: &Style) -> Unit
    ensures value { result ≡ row_own_height style.now }
    ensures size { IsUsedSize result.0 }
{
    match style.sizing.height {
        LengthPercentageOrAuto::Length(height) => clamp_size(i128::from(height.0)),
        LengthPercentageOrAuto::Auto | LengthPercentageOrAuto::Percent(_) => Unit(0),
    }
}

/// What the cells need of their rows.
fn needs_of(alloc: Global, input: &TableInput, cells: &[BoxSizes]) -> Result<Vec<RowCell>, NoMemory>
    requires count { length cells.now ≡ length input.now.table.grid.cells }
    requires sizes { HaveSizeBounds cells.now }
    ensures needs { IfOk result (λ v. v.items ≡ needs_of input.now cells.now) }
    ensures fit { IfOk result (λ v. NeedsFit (length input.now.table.grid.rows) v.items) }
{
    let mut needs = Vec::new(alloc);
    for c in 0..cells.len() {
        push_needs(&mut needs, input, cells, c)?;
    }
    Ok(needs)
}

/// Adds what the cell c needs.
fn push_needs(
    needs: &mut Vec<RowCell>,
    input: &TableInput,
    cells: &[BoxSizes],
    c: usize,
) -> Result<(), NoMemory>
    requires count { length cells.now ≡ length input.now.table.grid.cells }
    requires sizes { HaveSizeBounds cells.now }
    requires cell { c < length cells.now }
    requires fit { NeedsFit (length input.now.table.grid.rows) needs.old.items }
    ensures needs { OnOk result (needs.new.items ≡ needs.old.items ++ needs_of_cell input.now cells.now c) }
    ensures fit { OnOk result (NeedsFit (length input.now.table.grid.rows) needs.new.items) }
{
    needs.push(content_need(input, cells, c))?;
    if let Len::Of(height) = sizes_at(cells, c).height {
        needs.push(height_need(input, cells, c, height))?;
    }
    Ok(())
}

/// What the content of the cell c needs.
fn content_need(input: &TableInput, cells: &[BoxSizes], c: usize) -> RowCell
    requires count { length cells.now ≡ length input.now.table.grid.cells }
    requires sizes { HaveSizeBounds cells.now }
    requires cell { c < length cells.now }
    ensures value { result ≡ need_by_content (cell_of input.now c) (align_of input.now c) (natural_box input.now c) (sizes_at cells.now c) }
    ensures fits { NeedFits (length input.now.table.grid.rows) result }
{
    need_by_content(
        cell_of(input, c),
        align_of(input, c),
        natural_box(input, c),
        sizes_at(cells, c),
    )
}

/// What the cell c needs by a `height` that is this.
fn height_need(input: &TableInput, cells: &[BoxSizes], c: usize, height: Unit) -> RowCell
    requires count { length cells.now ≡ length input.now.table.grid.cells }
    requires sizes { HaveSizeBounds cells.now }
    requires cell { c < length cells.now }
    requires height { IsUsedSize height.0 }
    ensures value { result ≡ row_cell (cell_of input.now c) (border_height (sizes_at cells.now c) height) None }
    ensures fits { NeedFits (length input.now.table.grid.rows) result }
{
    let sizes = sizes_at(cells, c);
    row_cell(cell_of(input, c), border_height(sizes, height), None)
}

/// What the content of a cell needs.
fn need_by_content(cell: TableCell, align: CellAlign, natural: OwnBox, sizes: BoxSizes) -> RowCell
    requires natural { OwnBoxFits natural }
    requires sizes { SizeFits sizes }
    ensures { result ≡ need_by_content cell align natural sizes }
{
    let own = cell_baseline(natural, sizes);
    row_cell(cell, natural.height, baseline_if(align, own))
}

/// A cell that needs so much, and has this baseline or none.
pub(crate) fn row_cell(cell: TableCell, height: Unit, baseline: Option<Unit>) -> RowCell
    ensures { result ≡ row_cell cell height baseline }
{
    RowCell {
        row: cell.row,
        span: cell.rows,
        height,
        baseline,
    }
}

/// A cell's own baseline, where this is its box by its content alone.
pub(crate) fn cell_baseline(natural: OwnBox, sizes: BoxSizes) -> Unit
    requires natural { OwnBoxFits natural }
    requires sizes { SizeFits sizes }
    ensures { result ≡ cell_baseline natural sizes }
{
    match natural.baseline {
        Some(baseline) => baseline,
        None => content_edge(sizes, natural.height),
    }
}

/// The bottom content edge of a cell that has this height by its content alone.
fn content_edge(sizes: BoxSizes, natural: Unit) -> Unit
    requires sizes { SizeFits sizes }
    requires natural { IsBoxSize natural.0 }
    ensures { result ≡ content_edge sizes natural }
{
    let given = border_height(sizes, given_height(sizes.height));
    Unit(natural.0.max(given.0) - sizes.edges.bottom.0)
}

/// A given height, or 0.
fn given_height(height: Len) -> Unit
    requires { IsUsedSizeOrAuto height }
    ensures value { result ≡ or_zero height }
    ensures size { IsUsedSize result.0 }
{
    match height {
        Len::Auto => Unit(0),
        Len::Of(height) => height,
    }
}

fn baseline_if(align: CellAlign, baseline: Unit) -> Option<Unit>
    ensures { result ≡ baseline_if align baseline }
{
    match align {
        CellAlign::Baseline => Some(baseline),
        CellAlign::Top | CellAlign::Middle | CellAlign::Bottom => None,
    }
}

/// The height of the border box around a content of this height, a used size in 1/64 px.
pub fn border_height(sizes: BoxSizes, height: Unit) -> Unit
    requires sizes { SizeFits sizes }
    requires height { IsUsedSize height.0 }
    ensures { result ≡ border_height sizes height }
{
    sum_of(sum_of(height, sizes.edges.top), sizes.edges.bottom)
}
