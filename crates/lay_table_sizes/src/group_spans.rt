//! The column groups of a table that have a width.

ghost use Rattle.std.specs.Prelude.{◌≡◌, ◌<◌, ◌≤◌, ◌^◌, ◌++◌, ℕ, IfOk, OnOk, None, Some, drop, length, map, slice_get};
ghost use Rattle.lay_table_grid.specs.MeetingBorders.{around_column};
ghost use Rattle.lay_table_sizes.specs.GroupWidths.{goes_on, group_spans, run_of, span_at, span_with, spans_from};

use crate::given_widths::group_width_at;
use lay_box_tree::BoxNode;
use lay_grid::automatic::GroupSpan;
use lay_table_grid::{TableGrid, around_column};
use lay_units::{NoMemory, Unit};
use std::alloc::Global;

/// The column groups that have a width, with the columns that they span.
pub fn group_spans(
    alloc: Global,
    boxes: &[BoxNode],
    grid: &TableGrid,
) -> Result<Vec<GroupSpan>, NoMemory>
    requires { length grid.now.column_boxes < 2 ^ 32 }
    ensures { IfOk result (λ v. v.items ≡ group_spans boxes.now grid.now.column_boxes) }
{
    let groups = groups_of(alloc, boxes, grid.column_boxes())?;
    spans_of(alloc, boxes, &groups)
}

/// The spans of the column groups, where it is known what each column stands in.
fn spans_of(alloc: Global, boxes: &[BoxNode], groups: &[usize]) -> Result<Vec<GroupSpan>, NoMemory>
    requires { length groups.now < 2 ^ 32 }
    ensures { IfOk result (λ v. v.items ≡ spans_from boxes.now 0 None groups.now) }
{
    let mut spans = Vec::new(alloc);
    let mut before = None;
    for k in 0..groups.len() {
        push_group(&mut spans, boxes, groups, before, k)?;
        before = Some(group_at(groups, k));
    }
    Ok(spans)
}

/// Adds the group that begins at the column k, if one with a width does.
fn push_group(
    spans: &mut Vec<GroupSpan>,
    boxes: &[BoxNode],
    groups: &[usize],
    before: Option<usize>,
    k: usize,
) -> Result<(), NoMemory>
    requires few { length groups.now < 2 ^ 32 }
    requires inside { k < length groups.now }
    ensures { OnOk result
        ((group : ℕ) → slice_get groups.now k ≡ Some group
        → spans.new.items ≡ spans.old.items ++ span_at boxes.now k before group (drop k groups.now)) }
{
    let group = group_at(groups, k);
    if goes_on(before, group) {
        return Ok(());
    }
    let span = run_from(groups, k, group);
    push_span(spans, group_width_at(boxes, group), k as u32, span as u32)?;
    Ok(())
}

/// What the column k stands in.
fn group_at(groups: &[usize], k: usize) -> usize
    requires { k < length groups.now }
    ensures { slice_get groups.now k ≡ Some result }
{
    groups[k]
}

fn push_span(
    spans: &mut Vec<GroupSpan>,
    width: Option<Unit>,
    column: u32,
    span: u32,
) -> Result<(), NoMemory>
    ensures { OnOk result (spans.new.items ≡ spans.old.items ++ span_with width column span) }
{
    if let Some(width) = width {
        spans.push(GroupSpan {
            column,
            span,
            width,
        })?;
    }
    Ok(())
}

/// What each column that has a box stands in.
fn groups_of(alloc: Global, boxes: &[BoxNode], places: &[usize]) -> Result<Vec<usize>, NoMemory>
    ensures { IfOk result (λ v. v.items ≡ map (around_column boxes.now) places.now) }
{
    let mut groups = Vec::with_capacity(alloc, places.len())?;
    for place in places {
        groups.push(around_column(boxes, *place))?;
    }
    Ok(groups)
}

/// Whether the column before stands in this group too.
fn goes_on(before: Option<usize>, group: usize) -> bool
    ensures { result ≡ goes_on before group }
{
    match before {
        Some(before) => before == group,
        None => false,
    }
}

/// How many columns stand in this group, one behind the other from k on.
fn run_from(groups: &[usize], k: usize, group: usize) -> usize
    requires { k ≤ length groups.now }
    ensures run { result ≡ run_of group (drop k groups.now) }
    ensures most { result ≤ length groups.now }
{
    for j in k..groups.len() {
        let other = group_at(groups, j);
        if other != group {
            return j - k;
        }
    }
    groups.len() - k
}
