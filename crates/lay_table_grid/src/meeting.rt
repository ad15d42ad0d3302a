//! The borders that meet at an edge (CSS 2.2, 17.6.2.1).

ghost use Rattle.std.specs.Prelude.{◌≡◌, ◌<◌, ◌≤◌, ◌++◌, Some, length, IfSome, OnOk};
ghost use Rattle.lay_table_grid.specs.MeetingBorders.{above_and_below, cells_above, cells_left};
ghost use Rattle.lay_table_grid.specs.MeetingBorders.{column_ends, left_and_right, lines_above};
ghost use Rattle.lay_table_grid.specs.MeetingBorders.{lines_left, meeting_above, meeting_left};
ghost use Rattle.lay_table_grid.specs.MeetingBorders.{rim_above, rim_left, row_ends};
ghost use Rattle.lay_table_grid.specs.Pass.EdgeBounds.{IsBorderCounted};

use crate::edges::Edges;
use crate::elements::{Element, Side, cell_element, place_of, push_border};
use crate::placed::PlacedCell;
use crate::runs::{among, are_one, before};
use lay_borders::Cand;
use lay_units::NoMemory;

/// Puts the borders that meet above the slot of a row and a column, or below that of the last row, in
/// the place of others.
pub fn put_meeting_above(
    borders: &mut Vec<Cand>,
    edges: &Edges<'_>,
    row: usize,
    column: usize,
) -> Result<(), NoMemory>
    requires { row ≤ length edges.now.rows }
    ensures { OnOk result (borders.new.items ≡ meeting_above edges.now row column) }
{
    borders.clear();
    let above = edges.cell_in(before(row), Some(column));
    let below = edges.cell_in(among(edges.row_count(), row), Some(column));
    if are_one(place_of(above), place_of(below)) {
        return Ok(());
    }
    push_cells_above(borders, edges, above, below)?;
    push_lines_above(borders, edges, row)?;
    push_rim_above(borders, edges, row, column)?;
    Ok(())
}

fn push_cells_above(
    borders: &mut Vec<Cand>,
    edges: &Edges<'_>,
    above: Option<PlacedCell>,
    below: Option<PlacedCell>,
) -> Result<(), NoMemory>
    requires above { IfSome above IsBorderCounted }
    requires below { IfSome below IsBorderCounted }
    ensures { OnOk result (borders.new.items ≡ borders.old.items ++ cells_above edges.now above below) }
{
    push_stacked(borders, edges, cell_element(above), cell_element(below))
}

/// Adds the borders of rows and row groups above a row.
fn push_lines_above(borders: &mut Vec<Cand>, edges: &Edges<'_>, row: usize) -> Result<(), NoMemory>
    ensures { OnOk result (borders.new.items ≡ borders.old.items ++ lines_above edges.now row) }
{
    let above = before(row);
    let below = Some(row);
    push_stacked(
        borders,
        edges,
        edges.row_element(above),
        edges.row_element(below),
    )?;
    if !edges.is_inside_group(row) {
        push_stacked(
            borders,
            edges,
            edges.group_element(above),
            edges.group_element(below),
        )?;
    }
    Ok(())
}

/// Adds the borders of columns, column groups and the table above a row.
fn push_rim_above(
    borders: &mut Vec<Cand>,
    edges: &Edges<'_>,
    row: usize,
    column: usize,
) -> Result<(), NoMemory>
    ensures { OnOk result (borders.new.items ≡ borders.old.items ++ rim_above edges.now row column) }
{
    if row == 0 {
        push_column_ends(borders, edges, Side::Top, column)?;
    }
    if row == edges.row_count() {
        push_column_ends(borders, edges, Side::Bottom, column)?;
    }
    Ok(())
}

fn push_column_ends(
    borders: &mut Vec<Cand>,
    edges: &Edges<'_>,
    side: Side,
    column: usize,
) -> Result<(), NoMemory>
    ensures { OnOk result (borders.new.items ≡ borders.old.items ++ column_ends edges.now side column) }
{
    let boxes = edges.boxes();
    push_border(borders, boxes, side, edges.column_element(Some(column)))?;
    push_border(
        borders,
        boxes,
        side,
        edges.column_group_element(Some(column)),
    )?;
    push_border(borders, boxes, side, edges.table_element())?;
    Ok(())
}

/// Adds the borders of what is above an edge and of what is below it.
fn push_stacked(
    borders: &mut Vec<Cand>,
    edges: &Edges<'_>,
    above: Option<Element>,
    below: Option<Element>,
) -> Result<(), NoMemory>
    ensures { OnOk result (borders.new.items ≡ borders.old.items ++ above_and_below edges.now above below) }
{
    push_border(borders, edges.boxes(), Side::Bottom, above)?;
    push_border(borders, edges.boxes(), Side::Top, below)?;
    Ok(())
}

/// Puts the borders that meet on the left of the slot of a row and a column, or on the right of that
/// of the last column, in the place of others.
pub fn put_meeting_left(
    borders: &mut Vec<Cand>,
    edges: &Edges<'_>,
    row: usize,
    column: usize,
) -> Result<(), NoMemory>
    requires { row < length edges.now.rows }
    ensures { OnOk result (borders.new.items ≡ meeting_left edges.now row column) }
{
    borders.clear();
    let left = edges.cell_in(Some(row), before(column));
    let right = edges.cell_in(Some(row), among(edges.column_count(), column));
    if are_one(place_of(left), place_of(right)) {
        return Ok(());
    }
    push_cells_left(borders, edges, left, right)?;
    push_lines_left(borders, edges, column)?;
    push_rim_left(borders, edges, row, column)?;
    Ok(())
}

fn push_cells_left(
    borders: &mut Vec<Cand>,
    edges: &Edges<'_>,
    left: Option<PlacedCell>,
    right: Option<PlacedCell>,
) -> Result<(), NoMemory>
    requires left { IfSome left IsBorderCounted }
    requires right { IfSome right IsBorderCounted }
    ensures { OnOk result (borders.new.items ≡ borders.old.items ++ cells_left edges.now left right) }
{
    push_abreast(borders, edges, cell_element(left), cell_element(right))
}

/// Adds the borders of columns and column groups on the left of a column.
fn push_lines_left(
    borders: &mut Vec<Cand>,
    edges: &Edges<'_>,
    column: usize,
) -> Result<(), NoMemory>
    ensures { OnOk result (borders.new.items ≡ borders.old.items ++ lines_left edges.now column) }
{
    let left = before(column);
    let right = Some(column);
    push_abreast(
        borders,
        edges,
        edges.column_element(left),
        edges.column_element(right),
    )?;
    if !edges.is_inside_column_group(column) {
        let left = edges.column_group_element(left);
        push_abreast(borders, edges, left, edges.column_group_element(right))?;
    }
    Ok(())
}

/// Adds the borders of rows, row groups and the table on the left of a column.
fn push_rim_left(
    borders: &mut Vec<Cand>,
    edges: &Edges<'_>,
    row: usize,
    column: usize,
) -> Result<(), NoMemory>
    ensures { OnOk result (borders.new.items ≡ borders.old.items ++ rim_left edges.now row column) }
{
    if column == 0 {
        push_row_ends(borders, edges, Side::Left, row)?;
    }
    if column == edges.column_count() {
        push_row_ends(borders, edges, Side::Right, row)?;
    }
    Ok(())
}

fn push_row_ends(
    borders: &mut Vec<Cand>,
    edges: &Edges<'_>,
    side: Side,
    row: usize,
) -> Result<(), NoMemory>
    ensures { OnOk result (borders.new.items ≡ borders.old.items ++ row_ends edges.now side row) }
{
    let boxes = edges.boxes();
    push_border(borders, boxes, side, edges.row_element(Some(row)))?;
    push_border(borders, boxes, side, edges.group_element(Some(row)))?;
    push_border(borders, boxes, side, edges.table_element())?;
    Ok(())
}

/// Adds the borders of what is on the left of an edge and of what is on its right.
fn push_abreast(
    borders: &mut Vec<Cand>,
    edges: &Edges<'_>,
    left: Option<Element>,
    right: Option<Element>,
) -> Result<(), NoMemory>
    ensures { OnOk result (borders.new.items ≡ borders.old.items ++ left_and_right edges.now left right) }
{
    push_border(borders, edges.boxes(), Side::Right, left)?;
    push_border(borders, edges.boxes(), Side::Left, right)?;
    Ok(())
}
