//! The rows of a table as they are drawn (CSS 2.2, 17.2).

ghost use Rattle.std.specs.Prelude.{◌≡◌, ◌+◌, ◌<◌, ◌++◌, length, map, IfOk, OnOk, All};
ghost use Rattle.lay_table_grid.specs.Pass.CellLists.{IsRowOf};
ghost use Rattle.lay_table_grid.specs.TableBoxes.{footer_place, header_place, is_in, ranked_places};
ghost use Rattle.lay_table_grid.specs.TableBoxes.{rank_of, row_at, rows_of, table_place};

use crate::kinds::{is_footer_group, is_header_group, is_row, is_table};
use lay_box_tree::BoxNode;
use lay_units::NoMemory;
use std::alloc::Global;

/// A row: the place of its box, and that of its row group or, where it is in none, of the table box.
#[derive(Clone, Copy, Debug, PartialEq, Eq)]
pub struct TableRow {
    pub place: usize,
    pub group: usize,
}

/// The place of the table box: of the first such box, 0 where there is none.
pub fn table_place(boxes: &[BoxNode]) -> usize
    ensures { result ≡ table_place boxes.now }
{
    for k in 0..boxes.len() {
        if is_table(&boxes[k].kind) {
            return k;
        }
    }
    0
}

/// The place of the first header group, whose rows are drawn first.
pub fn header_place(boxes: &[BoxNode]) -> Option<usize>
    ensures { result ≡ header_place boxes.now }
{
    for k in 0..boxes.len() {
        if is_header_group(&boxes[k].kind) {
            return Some(k);
        }
    }
    None
}

/// The place of the first footer group, whose rows are drawn last.
pub fn footer_place(boxes: &[BoxNode]) -> Option<usize>
    ensures { result ≡ footer_place boxes.now }
{
    for k in 0..boxes.len() {
        if is_footer_group(&boxes[k].kind) {
            return Some(k);
        }
    }
    None
}

/// Which groups are drawn first and last.
#[derive(Clone, Copy)]
pub struct OuterGroups {
    pub header: Option<usize>,
    pub footer: Option<usize>,
}

pub fn outer_groups(boxes: &[BoxNode]) -> OuterGroups
    ensures header { result.header ≡ header_place boxes.now }
    ensures footer { result.footer ≡ footer_place boxes.now }
{
    OuterGroups {
        header: header_place(boxes),
        footer: footer_place(boxes),
    }
}

/// The rows as they are drawn.
pub fn table_rows(alloc: Global, boxes: &[BoxNode]) -> Result<Vec<TableRow>, NoMemory>
    ensures rows { IfOk result (λ rows. rows.items ≡ rows_of boxes.now) }
    ensures are { IfOk result (λ rows. All (IsRowOf boxes.now) rows.items) }
{
    let outer = outer_groups(boxes);
    let mut rows = Vec::new(alloc);
    push_ranked(&mut rows, boxes, outer, 0)?;
    push_ranked(&mut rows, boxes, outer, 1)?;
    push_ranked(&mut rows, boxes, outer, 2)?;
    Ok(rows)
}

/// Adds the rows of one of the three parts, in document order.
fn push_ranked(
    rows: &mut Vec<TableRow>,
    boxes: &[BoxNode],
    outer: OuterGroups,
    rank: u32,
) -> Result<(), NoMemory>
    requires header { outer.header ≡ header_place boxes.now }
    requires footer { outer.footer ≡ footer_place boxes.now }
    requires are { All (IsRowOf boxes.now) rows.old.items }
    ensures rows { OnOk result (rows.new.items ≡ rows.old.items ++ map (row_at boxes.now) (ranked_places boxes.now rank)) }
    ensures are { OnOk result (All (IsRowOf boxes.now) rows.new.items) }
{
    for k in 0..boxes.len() {
        if is_row(&boxes[k].kind) && rank_of(outer, &boxes[k]) == rank {
            rows.push(row_at(boxes, k))?;
        }
    }
    Ok(())
}

fn row_at(boxes: &[BoxNode], k: usize) -> TableRow
    requires { k < length boxes.now }
    ensures value { result ≡ row_at boxes.now k }
    ensures is { IsRowOf boxes.now result }
{
    TableRow {
        place: k,
        group: boxes[k].parent as usize,
    }
}

fn rank_of(outer: OuterGroups, row: &BoxNode) -> u32
    ensures { result ≡ rank_of outer.header outer.footer row.now }
{
    if is_in(outer.header, row) {
        return 0;
    }
    if is_in(outer.footer, row) { 2 } else { 1 }
}

fn is_in(group: Option<usize>, row: &BoxNode) -> bool
    ensures { result ≡ is_in group row.now }
{
    match group {
        Some(place) => row.parent as usize == place,
        None => false,
    }
}
