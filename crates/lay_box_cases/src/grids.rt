//! The slots of a table's grid, the widths of its columns and the heights of its rows. Lengths are from 0 to 65,535
//! units, and there are at most 255 rows, columns, and cells of a row.

ghost use Rattle.std.specs.Prelude.{◌+◌, ◌≤◌, length, All, IfOk};
ghost use Rattle.lay_box_cases.specs.Small.{IsSmallCell, IsSmallNeed, IsSmallRow, IsSmallSpan};

use crate::lengths::{length, length_or_none, lengths, lengths_or_none, section, two_lengths};
use anyhow::{Result, bail};
use lay_case_reading::{Row, ample, number, spanned};
use lay_grid::{
    ColumnsIn, FirstCell, FirstCells, RowCell, RowCells, RowSpec, RowsIn, Span, SpanList,
    WidthOptions, columns_fixed, rows, slots,
};
use lay_units::{Unit, UnitList};
use std::alloc::Global;

/// The number of columns of a grid, and its slots.
#[tactic(auto, using(crate::proofs::SmallGrids::spans_of_rows, crate::proofs::SmallGrids::cells_few))]
pub(crate) fn slots_of(alloc: Global, text: &str) -> Result<String> {
    let rows = row_specs(alloc, text)?;
    let grid = ample(slots(alloc, &rows))?;
    let mut out = String::new(alloc);
    let columns = grid.columns;
    write!(out, "{columns}")?;
    for slot in grid.slots.as_slice() {
        let cell = slot.cell;
        let row = slot.row;
        let column = slot.column;
        write!(out, " {cell}@{row}.{column}")?;
    }
    Ok(out)
}

fn row_specs(alloc: Global, text: &str) -> Result<Vec<RowSpec>>
    ensures few { IfOk result (λ v. length v.items ≤ 255) }
    ensures small { IfOk result (λ v. All IsSmallRow v.items) }
{
    let mut rows = Vec::new(alloc);
    for row in text.split(',') {
        if rows.len() == 255 {
            bail!("too many rows");
        }
        rows.push(row_spec(alloc, row)?)?;
    }
    Ok(rows)
}

/// A row: the number of its group, and its cells.
fn row_spec(alloc: Global, text: &str) -> Result<RowSpec>
    ensures { IfOk result IsSmallRow }
{
    let group = Row::new(text).number()?;
    let mut spans = Vec::new(alloc);
    for word in text.split_whitespace().skip(1) {
        if spans.len() == 255 {
            bail!("too many cells");
        }
        spans.push(span(word)?)?;
    }
    Ok(RowSpec {
        group,
        cells: SpanList::new(spans),
    })
}

/// How many columns and rows a cell spans.
fn span(word: &str) -> Result<Span>
    ensures { IfOk result IsSmallSpan }
{
    let Some((columns, rows)) = word.split_once('x') else {
        bail!("no span: {word}");
    };
    let columns = number::<u8>(columns)?;
    let rows = number::<u8>(rows)?;
    Ok(Span {
        columns: u32::from(columns),
        rows: u32::from(rows.max(1)),
    })
}

/// The widths of columns.
pub(crate) fn columns(alloc: Global, text: &str) -> Result<String> {
    let (table, rest) = section(text)?;
    let (widths, first_row) = section(rest)?;
    let (width, spacing) = two_lengths(table)?;
    let given = lengths_or_none(alloc, widths)?;
    let first = first_cells(alloc, first_row, &given)?;
    let columns = ColumnsIn {
        given: WidthOptions::new(given),
        first: FirstCells::new(first),
        width,
        spacing,
    };
    out(alloc, &ample(columns_fixed(alloc, &columns))?)
}

/// The cells of the first row.
fn first_cells(alloc: Global, text: &str, columns: &[Option<Unit>]) -> Result<Vec<FirstCell>>
    ensures { IfOk result (λ v. All (IsSmallCell (length columns.now)) v.items) }
{
    let mut cells = Vec::new(alloc);
    for word in text.split_whitespace() {
        let (place, span, width) = spanned(word, columns.len())?;
        cells.push(FirstCell {
            column: u32::from(place),
            span: u32::from(span),
            width: length_or_none(width)?,
        })?;
    }
    Ok(cells)
}

/// The heights of rows.
pub(crate) fn heights(alloc: Global, text: &str) -> Result<String> {
    let (table, rest) = section(text)?;
    let (own_heights, needs) = section(rest)?;
    let (total, spacing) = two_lengths(table)?;
    let own = lengths(alloc, own_heights)?;
    let cells = row_cells(alloc, needs, &own)?;
    let heights = RowsIn {
        own: UnitList::new(own),
        cells: RowCells::new(cells),
        spacing,
        total,
    };
    out(alloc, &ample(rows(alloc, &heights))?)
}

/// The cells of rows.
fn row_cells(alloc: Global, text: &str, rows: &[Unit]) -> Result<Vec<RowCell>>
    ensures { IfOk result (λ v. All (IsSmallNeed (length rows.now)) v.items) }
{
    let mut cells = Vec::new(alloc);
    for word in text.split_whitespace() {
        let (place, span, needs) = spanned(word, rows.len())?;
        let Some((height, baseline)) = needs.split_once('@') else {
            bail!("no baseline: {word}");
        };
        cells.push(RowCell {
            row: u32::from(place),
            span: u32::from(span),
            height: length(height)?,
            baseline: length_or_none(baseline)?,
        })?;
    }
    Ok(cells)
}

fn out(alloc: Global, lengths: &UnitList) -> Result<String> {
    let mut out = String::new(alloc);
    for length in lengths.as_slice() {
        if !out.is_empty() {
            out.push(' ')?;
        }
        let units = length.0;
        write!(out, "{units}")?;
    }
    Ok(out)
}
