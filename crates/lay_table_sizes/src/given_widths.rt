//! The widths that columns and column groups are given.

ghost use Rattle.std.specs.Prelude.{◌≡◌, IfOk, slice_get};
ghost use Rattle.lay_table_sizes.specs.GivenWidths.{column_width_by, column_width_of, column_widths, group_width_by};
ghost use Rattle.lay_table_sizes.specs.GivenWidths.{group_width_of, length_or_none, width_at_place};

use lay_box_tree::{BoxKind, BoxNode};
use lay_measure::length_or_auto;
use lay_style::{LengthPercentageOrAuto, Style};
use lay_table_grid::TableGrid;
use lay_units::{Len, NoMemory, Unit};
use std::alloc::Global;

/// The widths of column elements, for each column.
pub fn column_widths(
    alloc: Global,
    boxes: &[BoxNode],
    grid: &TableGrid,
) -> Result<Vec<Option<Unit>>, NoMemory>
    ensures { IfOk result (λ v. v.items ≡ column_widths boxes.now grid.now.column_boxes grid.now.columns) }
{
    let places = grid.column_boxes();
    let mut widths = Vec::new(alloc);
    for i in 0..grid.columns() as usize {
        widths.push(width_at_place(boxes, places, i))?;
    }
    Ok(widths)
}

fn width_at_place(boxes: &[BoxNode], places: &[usize], i: usize) -> Option<Unit>
    ensures { result ≡ width_at_place boxes.now (slice_get places.now i) }
{
    match places.get(i) {
        Some(place) => column_width_at(boxes, *place),
        None => None,
    }
}

fn column_width_at(boxes: &[BoxNode], place: usize) -> Option<Unit>
    ensures { result ≡ column_width_of (slice_get boxes.now place) }
{
    match boxes.get(place) {
        Some(node) => column_width_by(&node.kind, &node.style),
        None => None,
    }
}

fn column_width_by(kind: &BoxKind, style: &Style) -> Option<Unit>
    ensures { result ≡ column_width_by kind.now style.now }
{
    match kind {
        BoxKind::Column { .. } => length_or_none(style.sizing.width),
        _ => None,
    }
}

/// The given width of the column group at a place.
pub fn group_width_at(boxes: &[BoxNode], group: usize) -> Option<Unit>
    ensures { result ≡ group_width_of (slice_get boxes.now group) }
{
    match boxes.get(group) {
        Some(node) => group_width_by(&node.kind, &node.style),
        None => None,
    }
}

fn group_width_by(kind: &BoxKind, style: &Style) -> Option<Unit>
    ensures { result ≡ group_width_by kind.now style.now }
{
    match kind {
        BoxKind::ColumnGroup { .. } => length_or_none(style.sizing.width),
        _ => None,
    }
}

fn length_or_none(width: LengthPercentageOrAuto) -> Option<Unit>
    ensures { result ≡ length_or_none width }
{
    match length_or_auto(width) {
        Len::Of(width) => Some(width),
        Len::Auto => None,
    }
}
