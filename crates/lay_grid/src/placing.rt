//! The cells of a table, placed row by row.

ghost use Rattle.std.specs.Prelude.{◌≡◌, ◌+◌, ◌-◌, ◌<◌, ◌≤◌, ◌∷◌, []};
ghost use Rattle.std.specs.Prelude.{length, drop, IfOk, OnOk, All};
ghost use Rattle.lay_grid.specs.declared.cells.Cell.{Cell};
ghost use Rattle.lay_grid.specs.declared.cells.Span.{Span};
ghost use Rattle.lay_grid.specs.Areas.{area_of_span, areas_from, rows_left};
ghost use Rattle.lay_grid.specs.Places.{StandAfter, areas_of};
ghost use Rattle.lay_grid.specs.Slots.{SpanRows};
ghost use Rattle.lay_grid.specs.Pass.Known.{AddsAreas, AddsRowCells, Known};

use crate::cells::{Area, Cell, RowSpec, Span};
use crate::scan::{free_left, occupy};
use lay_units::NoMemory;
use std::alloc::Global;

/// The cells of the rows, row by row, where they stand (CSS 2.2, 17.5).
pub fn standing_cells(alloc: Global, rows: &[RowSpec]) -> Result<Vec<Cell>, NoMemory>
    requires { SpanRows rows.now }
    ensures areas { IfOk result (λ cells. areas_of cells.items ≡ areas_from 0 rows.now) }
    ensures places { IfOk result (λ cells. StandAfter [] cells.items) }
{
    let mut cells = Vec::new(alloc);
    let mut busy = Vec::new(alloc);
    let mut end = 0;
    for row in 0..rows.len() {
        end = group_end(rows, row, end);
        place_row(rows[row].cells.as_slice(), row, end, &mut cells, &mut busy)?;
    }
    Ok(cells)
}

/// Where the group of a row ends, or a known end of it.
fn group_end(rows: &[RowSpec], row: usize, known: usize) -> usize
    requires row { row < length rows.now }
    requires known { row < known → known ≡ row + rows_left (drop row rows.now) }
    ensures value { result ≡ row + rows_left (drop row rows.now) }
{
    if row < known {
        return known;
    }
    run_end(rows, row)
}

fn run_end(rows: &[RowSpec], row: usize) -> usize
    requires { row < length rows.now }
    ensures { result ≡ row + rows_left (drop row rows.now) }
{
    let group = rows[row].group;
    for k in row..rows.len() {
        if rows[k].group != group {
            return k;
        }
    }
    rows.len()
}

/// Places the cells of a row, which is above the end of its group.
fn place_row(
    spans: &[Span],
    row: usize,
    end: usize,
    cells: &mut Vec<Cell>,
    busy: &mut Vec<usize>,
) -> Result<(), NoMemory>
    requires order { row < end }
    requires spans { All (λ (span : Span). 1 ≤ span.rows) spans.now }
    requires known { Known cells.old.items busy.old.items row 0 }
    ensures known { OnOk result (Known cells.new.items busy.new.items (row + 1) 0) }
    ensures areas { OnOk result (AddsRowCells cells.old.items cells.new.items row end spans.now) }
{
    let mut next = 0;
    for span in spans {
        next = place_cell(area_in(*span, row, end), next, cells, busy)?;
    }
    Ok(())
}

fn area_in(span: Span, row: usize, end: usize) -> Area
    requires order { row < end }
    requires span { 1 ≤ span.rows }
    ensures value { result ≡ area_of_span row (end - row) span }
    ensures covers { result.row < result.end }
{
    Area {
        row,
        end: row + (span.rows as usize).min(end - row),
        columns: span.columns,
    }
}

/// Places a cell, and answers where the next one of its row may stand.
fn place_cell(
    area: Area,
    next: usize,
    cells: &mut Vec<Cell>,
    busy: &mut Vec<usize>,
) -> Result<usize, NoMemory>
    requires covers { area.row < area.end }
    requires known { Known cells.old.items busy.old.items area.row next }
    ensures known { IfOk result (λ after. Known cells.new.items busy.new.items area.row after) }
    ensures areas { OnOk result (AddsAreas cells.old.items cells.new.items (area ∷ [])) }
{
    let left = free_left(busy.as_slice(), area.row, area.columns, next);
    occupy(busy, area, left)?;
    cells.push(Cell { area, left })?;
    Ok(left + area.columns as usize)
}
