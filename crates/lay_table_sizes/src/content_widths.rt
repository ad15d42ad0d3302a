//! The preferred widths of columns by what is in their cells.

ghost use Rattle.std.specs.Prelude.{◌≡◌, ◌≢◌, ◌<◌, ℕ, IfOk, length};
ghost use Rattle.lay_table_grid.specs.UsedSides.{AreUsedSides};
ghost use Rattle.lay_table_sizes.specs.Bounds.{ArePlaced};
ghost use Rattle.lay_table_sizes.specs.PreferredWidths.{cell_part, cell_widths, content_widths, wider, widths_at};

use crate::cells::cell_of;
use crate::column_widths::cell_edges;
use crate::table_box::style_of_box;
use lay_box_tree::BoxNode;
use lay_measure::{NO_WIDTHS, PreferredWidths, bounded_width, greater, sum};
use lay_style::Style;
use lay_table_grid::{TableCell, TableGrid};
use lay_units::{NoMemory, Sides, Unit};
use std::alloc::Global;

/// For each column the greatest widths of the cells that it has for itself.
pub(crate) fn content_widths(
    alloc: Global,
    boxes: &[BoxNode],
    inner: &[PreferredWidths],
    grid: &TableGrid,
) -> Result<Vec<PreferredWidths>, NoMemory>
    requires { ArePlaced (length boxes.now) grid.now.cells }
    ensures count { IfOk result (λ v. length v.items ≡ grid.now.columns) }
    ensures each { IfOk result
        (λ v. (i : ℕ) → i < grid.now.columns → widths_at v.items i ≡ content_widths boxes.now inner.now grid.now.cells i) }
{
    let mut widths = Vec::from_elem(alloc, NO_WIDTHS, grid.columns() as usize)?;
    let last = grid.cells().len();
    for done in 0..last {
        let cell = cell_of(grid, last - 1 - done);
        if cell.columns == 1 {
            let of_cell = cell_widths(boxes, inner, cell)?;
            put_wider(&mut widths, cell.column as usize, of_cell);
        }
    }
    Ok(widths)
}

fn put_wider(widths: &mut Vec<PreferredWidths>, i: usize, other: PreferredWidths)
    requires { i < length widths.old.items }
    ensures count { length widths.new.items ≡ length widths.old.items }
    ensures here { widths_at widths.new.items i ≡ wider other (widths_at widths.old.items i) }
    ensures others { (k : ℕ) → k ≢ i → widths_at widths.new.items k ≡ widths_at widths.old.items k }
{
    widths[i] = wider(other, widths[i]);
}

fn wider(v: PreferredWidths, w: PreferredWidths) -> PreferredWidths
    ensures { result ≡ wider v w }
{
    PreferredWidths {
        minimum: greater(v.minimum, w.minimum),
        preferred: greater(v.preferred, w.preferred),
    }
}

/// What a cell takes.
fn cell_widths(
    boxes: &[BoxNode],
    inner: &[PreferredWidths],
    cell: TableCell,
) -> Result<PreferredWidths, NoMemory>
    requires placed { cell.place < length boxes.now }
    requires borders { AreUsedSides cell.borders }
    ensures { IfOk result (λ w. w ≡ cell_widths boxes.now inner.now cell) }
{
    let style = style_of_box(boxes, cell.place);
    let widths = widths_at(inner, cell.place);
    Ok(PreferredWidths {
        minimum: cell_part(cell.borders, style, widths.minimum)?,
        preferred: cell_part(cell.borders, style, widths.preferred)?,
    })
}

fn cell_part(borders: Sides, style: &Style, content: Unit) -> Result<Unit, NoMemory>
    requires { AreUsedSides borders }
    ensures { IfOk result (λ v. v ≡ cell_part borders style.now content) }
{
    sum(
        bounded_width(style, content),
        cell_edges(None, borders, style),
    )
}

/// The preferred widths at k.
pub(crate) fn widths_at(widths: &[PreferredWidths], k: usize) -> PreferredWidths
    ensures { result ≡ widths_at widths.now k }
{
    match widths.get(k) {
        Some(widths) => *widths,
        None => NO_WIDTHS,
    }
}
