//! The cells of the rows of a table, and what they span.

ghost use Rattle.std.specs.Prelude.{◌≡◌, ◌+◌, ◌<◌, ◌≤◌, length, map, IfOk, OnOk, [], All, replicate};
ghost use Rattle.lay_grid.specs.declared.cells.Span.{Span};
ghost use Rattle.lay_grid.specs.Slots.{SpanRows};
ghost use Rattle.lay_table_grid.specs.TableBoxes.{cells_of_rows, kind_at, row_spec, row_specs, span_of};
ghost use Rattle.lay_table_grid.specs.Pass.CellLists.{AreCellLists, Adds, CellListsTo, IsRowOf};
ghost use Rattle.lay_table_grid.specs.Pass.GroupCounts.{CountsGroups};
ghost use Rattle.lay_table_grid.specs.Pass.SpanColumns.{SpanColumns};

use crate::group_numbers::{group_counts, group_number};
use crate::kinds::span_of;
use crate::places::PlaceList;
use crate::rows::TableRow;
use lay_box_tree::{BoxNode, is_cell};
use lay_grid::{RowSpec, Span, SpanList};
use lay_units::NoMemory;
use std::alloc::Global;

/// For each box the cells in it.
pub fn cell_lists(alloc: Global, boxes: &[BoxNode]) -> Result<Vec<PlaceList>, NoMemory>
    ensures { IfOk result (λ lists. AreCellLists boxes.now lists.items) }
{
    let mut lists = empty_lists(alloc, boxes.len())?;
    for k in 0..boxes.len() {
        note_cell(&mut lists, boxes, k)?;
    }
    Ok(lists)
}

fn empty_lists(alloc: Global, count: usize) -> Result<Vec<PlaceList>, NoMemory>
    ensures { IfOk result (λ lists. lists.items ≡ replicate count []) }
{
    let mut lists = Vec::new(alloc);
    for _ in 0..count {
        lists.push(PlaceList::new(alloc))?;
    }
    Ok(lists)
}

/// Notes the box at k where its parent stands, if it is a cell.
fn note_cell(lists: &mut Vec<PlaceList>, boxes: &[BoxNode], k: usize) -> Result<(), NoMemory>
    requires within { k < length boxes.now }
    requires known { CellListsTo boxes.now k lists.old.items }
    ensures { OnOk result (CellListsTo boxes.now (k + 1) lists.new.items) }
{
    if is_cell(&boxes[k].kind) {
        add_place(lists, boxes[k].parent as usize, k)?;
    }
    Ok(())
}

fn add_place(lists: &mut Vec<PlaceList>, at: usize, place: usize) -> Result<(), NoMemory>
    ensures { OnOk result (Adds at place lists.old.items lists.new.items) }
{
    if at < lists.len() {
        lists[at].push(place)?;
    }
    Ok(())
}

/// The rows as a grid takes them.
pub fn row_specs(
    alloc: Global,
    boxes: &[BoxNode],
    rows: &[TableRow],
    lists: &[PlaceList],
) -> Result<Vec<RowSpec>, NoMemory>
    requires rows { All (IsRowOf boxes.now) rows.now }
    requires lists { AreCellLists boxes.now lists.now }
    ensures specs { IfOk result (λ specs. specs.items ≡ row_specs boxes.now rows.now) }
    ensures rows { IfOk result (λ specs. SpanRows specs.items) }
    ensures columns { IfOk result (λ specs. SpanColumns specs.items) }
{
    let counts = group_counts(alloc, boxes)?;
    let mut specs = Vec::new(alloc);
    for row in rows {
        specs.push(row_spec(alloc, boxes, *row, lists, &counts)?)?;
    }
    Ok(specs)
}

fn row_spec(
    alloc: Global,
    boxes: &[BoxNode],
    row: TableRow,
    lists: &[PlaceList],
    counts: &[usize],
) -> Result<RowSpec, NoMemory>
    requires row { IsRowOf boxes.now row }
    requires lists { AreCellLists boxes.now lists.now }
    requires counts { CountsGroups boxes.now counts.now }
    ensures spec { IfOk result (λ spec. spec ≡ row_spec boxes.now row) }
    ensures rows { IfOk result (λ spec. All (λ (span : Span). 1 ≤ span.rows) spec.cells) }
    ensures columns { IfOk result (λ spec. All (λ (span : Span). 1 ≤ span.columns) spec.cells) }
{
    let spans = spans_of(alloc, boxes, lists[row.place].as_slice())?;
    Ok(RowSpec {
        group: group_number(boxes, row, counts)?,
        cells: SpanList::new(spans),
    })
}

/// What the boxes at these places span.
fn spans_of(alloc: Global, boxes: &[BoxNode], places: &[usize]) -> Result<Vec<Span>, NoMemory>
    ensures spans { IfOk result (λ spans. spans.items ≡ map (λ k. span_of (kind_at boxes.now k)) places.now) }
    ensures rows { IfOk result (λ spans. All (λ (span : Span). 1 ≤ span.rows) spans.items) }
    ensures columns { IfOk result (λ spans. All (λ (span : Span). 1 ≤ span.columns) spans.items) }
{
    let mut spans = Vec::new(alloc);
    for place in places {
        spans.push(span_at(boxes, *place))?;
    }
    Ok(spans)
}

fn span_at(boxes: &[BoxNode], k: usize) -> Span
    ensures value { result ≡ span_of (kind_at boxes.now k) }
    ensures rows { 1 ≤ result.rows }
    ensures columns { 1 ≤ result.columns }
{
    match boxes.get(k) {
        Some(node) => span_of(&node.kind),
        None => Span {
            columns: 1,
            rows: 1,
        },
    }
}

/// The places of the cells of the rows, row by row.
pub fn cell_places(
    alloc: Global,
    boxes: &[BoxNode],
    rows: &[TableRow],
    lists: &[PlaceList],
) -> Result<Vec<usize>, NoMemory>
    requires rows { All (IsRowOf boxes.now) rows.now }
    requires lists { AreCellLists boxes.now lists.now }
    ensures { IfOk result (λ places. places.items ≡ cells_of_rows boxes.now rows.now) }
{
    let _ = boxes;
    let mut places = Vec::new(alloc);
    for row in rows {
        places.extend_from_slice(lists[row.place].as_slice())?;
    }
    Ok(places)
}
