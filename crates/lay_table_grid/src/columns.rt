//! The boxes of the columns of a table (CSS 2.2, 17.3).

ghost use Rattle.std.specs.Prelude.{◌≡◌, ◌+◌, ◌<◌, ◌++◌, length, replicate, IfOk, OnOk};
ghost use Rattle.lay_table_grid.specs.TableBoxes.{column_boxes_of, column_count};
ghost use Rattle.lay_table_grid.specs.Pass.ColumnMarks.{AreColumnMarks, AreColumnsTo, ColumnMarksTo, MarksColumn};

use crate::kinds::is_column;
use lay_box_tree::{BoxKind, BoxNode};
use lay_units::NoMemory;
use std::alloc::Global;

/// For each column that has a box, the place of that.
pub fn column_boxes(alloc: Global, boxes: &[BoxNode]) -> Result<Vec<usize>, NoMemory>
    ensures { IfOk result (λ columns. columns.items ≡ column_boxes_of boxes.now) }
{
    let marks = column_marks(alloc, boxes)?;
    let mut columns = Vec::new(alloc);
    for k in 0..boxes.len() {
        push_columns(&mut columns, boxes, &marks, k)?;
    }
    Ok(columns)
}

/// Adds the columns for which the box at k stands.
fn push_columns(
    columns: &mut Vec<usize>,
    boxes: &[BoxNode],
    marks: &[bool],
    k: usize,
) -> Result<(), NoMemory>
    requires within { k < length boxes.now }
    requires marks { AreColumnMarks boxes.now marks.now }
    requires known { AreColumnsTo boxes.now k columns.old.items }
    ensures { OnOk result (AreColumnsTo boxes.now (k + 1) columns.new.items) }
{
    push_copies(columns, k, column_count(&boxes[k].kind, marks[k]))
}

/// For how many columns a box stands, of which `divided` says whether columns are in it.
fn column_count(kind: &BoxKind, divided: bool) -> u32
    ensures { result ≡ column_count divided kind.now }
{
    match kind {
        BoxKind::Column { span } => *span,
        BoxKind::ColumnGroup { span } if !divided => *span,
        _ => 0,
    }
}

fn push_copies(columns: &mut Vec<usize>, k: usize, count: u32) -> Result<(), NoMemory>
    ensures { OnOk result (columns.new.items ≡ columns.old.items ++ replicate count k) }
{
    for _ in 0..count {
        columns.push(k)?;
    }
    Ok(())
}

/// For each box whether columns are in it.
fn column_marks(alloc: Global, boxes: &[BoxNode]) -> Result<Vec<bool>, NoMemory>
    ensures { IfOk result (λ marks. AreColumnMarks boxes.now marks.items) }
{
    let mut marks = vec![in alloc; false; boxes.len()]?;
    for k in 0..boxes.len() {
        note_column(&mut marks, boxes, k);
    }
    Ok(marks)
}

/// Marks the parent of the box at k, if that is a column.
fn note_column(marks: &mut Vec<bool>, boxes: &[BoxNode], k: usize)
    requires within { k < length boxes.now }
    requires known { ColumnMarksTo boxes.now k marks.old.items }
    ensures { ColumnMarksTo boxes.now (k + 1) marks.new.items }
{
    if is_column(&boxes[k].kind) {
        mark(marks, boxes[k].parent as usize);
    }
}

fn mark(marks: &mut Vec<bool>, at: usize)
    ensures { MarksColumn at marks.old.items marks.new.items }
{
    if at < marks.len() {
        marks[at] = true;
    }
}
