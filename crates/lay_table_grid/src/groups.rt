//! What the rows and the columns of a table stand in (CSS 2.2, 17.2 and 17.3).

ghost use Rattle.std.specs.Prelude.{◌≡◌, IfOk, map};
ghost use Rattle.lay_table_grid.specs.MeetingBorders.{around_column, column_groups, row_groups};

use crate::kinds::is_column_group_at;
use crate::parts::Parts;
use crate::rows::TableRow;
use lay_box_tree::BoxNode;
use lay_units::NoMemory;
use std::alloc::Global;

/// What each row stands in.
pub fn row_groups(alloc: Global, parts: &Parts<'_>) -> Result<Vec<usize>, NoMemory>
    ensures { IfOk result (λ groups. groups.items ≡ row_groups parts.now) }
{
    groups_of(alloc, &parts.rows)
}

fn groups_of(alloc: Global, rows: &[TableRow]) -> Result<Vec<usize>, NoMemory>
    ensures { IfOk result (λ groups. groups.items ≡ map (λ row. row.group) rows.now) }
{
    let mut groups = Vec::with_capacity(alloc, rows.len())?;
    for row in rows {
        groups.push(row.group)?;
    }
    Ok(groups)
}

/// What each column that has a box stands in.
pub fn column_groups(alloc: Global, parts: &Parts<'_>) -> Result<Vec<usize>, NoMemory>
    ensures { IfOk result (λ groups. groups.items ≡ column_groups parts.now) }
{
    all_around(alloc, parts.boxes, &parts.column_boxes)
}

fn all_around(
    alloc: Global,
    boxes: &[BoxNode],
    column_boxes: &[usize],
) -> Result<Vec<usize>, NoMemory>
    ensures { IfOk result (λ groups. groups.items ≡ map (around_column boxes.now) column_boxes.now) }
{
    let mut groups = Vec::with_capacity(alloc, column_boxes.len())?;
    for place in column_boxes {
        groups.push(around_column(boxes, *place))?;
    }
    Ok(groups)
}

/// Where the box around the column at k is, a column group or the table; of a column group that stands for its columns, its own place.
pub fn around_column(boxes: &[BoxNode], k: usize) -> usize
    ensures { result ≡ around_column boxes.now k }
{
    if is_column_group_at(boxes, k) {
        return k;
    }
    match boxes.get(k) {
        Some(node) => node.parent as usize,
        None => 0,
    }
}
