//! Which rows the cells of a row may span (CSS 2.2, 17.5): those of its row group, or those directly in the table that stand together.

ghost use Rattle.std.specs.Prelude.{◌≡◌, ◌+◌, ◌<◌, ◌≤◌, length, slice_index, IfOk};
ghost use Rattle.lay_table_grid.specs.Pass.CellLists.{IsRowOf};
ghost use Rattle.lay_table_grid.specs.Pass.GroupCounts.{CountsGroups};
ghost use Rattle.lay_table_grid.specs.TableBoxes.{footer_place, group_number, groups_before};
ghost use Rattle.lay_table_grid.specs.TableBoxes.{header_place, is_place, stays_at};

use crate::kinds::is_row_group_at;
use crate::rows::{OuterGroups, TableRow, outer_groups};
use lay_box_tree::BoxNode;
use lay_units::NoMemory;
use std::alloc::Global;

/// For each box how many row groups stand before it, but for those that are drawn first and last.
pub fn group_counts(alloc: Global, boxes: &[BoxNode]) -> Result<Vec<usize>, NoMemory>
    ensures { IfOk result (λ counts. CountsGroups boxes.now counts.items) }
{
    let outer = outer_groups(boxes);
    let mut counts = Vec::with_capacity(alloc, boxes.len())?;
    let mut next = 0;
    for k in 0..boxes.len() {
        counts.push(next)?;
        next = next_count(boxes, outer, k, next);
    }
    Ok(counts)
}

/// How many stand before the place k + 1, where so many do before k.
fn next_count(boxes: &[BoxNode], outer: OuterGroups, k: usize, count: usize) -> usize
    requires header { outer.header ≡ header_place boxes.now }
    requires footer { outer.footer ≡ footer_place boxes.now }
    requires within { k < length boxes.now }
    requires count { count ≡ groups_before boxes.now k }
    requires few { count ≤ k }
    ensures count { result ≡ groups_before boxes.now (k + 1) }
    ensures few { result ≤ k + 1 }
{
    if stays_at(boxes, outer, k) {
        count + 1
    } else {
        count
    }
}

/// Whether a row group stands at k that is drawn there.
fn stays_at(boxes: &[BoxNode], outer: OuterGroups, k: usize) -> bool
    requires header { outer.header ≡ header_place boxes.now }
    requires footer { outer.footer ≡ footer_place boxes.now }
    ensures { result ≡ stays_at boxes.now k }
{
    is_row_group_at(boxes, k) && !(is_place(outer.header, k) || is_place(outer.footer, k))
}

fn is_place(place: Option<usize>, k: usize) -> bool
    ensures { result ≡ is_place place k }
{
    match place {
        Some(place) => place == k,
        None => false,
    }
}

/// The number of the rows that the cells of this row may span. NoMemory is the answer where it isn't below 2^32, as it is in a
/// document.
pub fn group_number(boxes: &[BoxNode], row: TableRow, counts: &[usize]) -> Result<u32, NoMemory>
    requires row { IsRowOf boxes.now row }
    requires counts { CountsGroups boxes.now counts.now }
    ensures { IfOk result (λ number. number ≡ group_number boxes.now row) }
{
    if is_row_group_at(boxes, row.group) {
        return narrow(row.group);
    }
    match boxes.len().checked_add(count_at(counts, row.place)) {
        Some(number) => narrow(number),
        None => Err(NoMemory),
    }
}

fn count_at(counts: &[usize], k: usize) -> usize
    requires { k < length counts.now }
    ensures { result ≡ slice_index counts.now k }
{
    counts[k]
}

fn narrow(number: usize) -> Result<u32, NoMemory>
    ensures { IfOk result (λ v. v ≡ number) }
{
    match u32::try_from(number) {
        Ok(number) => Ok(number),
        Err(_) => Err(NoMemory),
    }
}
