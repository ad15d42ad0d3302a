//! The preferred widths of a table of the fixed layout.

ghost use Rattle.std.specs.Prelude.{◌≡◌, ◌<◌, ◌≤◌, IfOk, length};
ghost use Rattle.lay_grid.specs.Shares.{own_at};
ghost use Rattle.lay_table_grid.specs.GridBounds.{PlacesAreBelow};
ghost use Rattle.lay_table_grid.specs.TableGrid.{IsTableGrid};
ghost use Rattle.lay_table_sizes.specs.Bounds.{most_columns};
ghost use Rattle.lay_table_sizes.specs.PreferredWidths.{AreColumnWidths, HasFixedWidths, all_beside};
ghost use Rattle.lay_table_sizes.specs.PreferredWidths.{widths_added, bounded_content, own_or, table_part};

use crate::column_widths::columns_in;
use crate::content_widths::{content_widths, widths_at};
use crate::spaces::with_spacings;
use crate::table_box::{preferred_edges, style_of_box};
use lay_box_tree::BoxNode;
use lay_grid::own_widths;
use lay_heights::with_min_max;
use lay_measure::{NO_WIDTHS, PreferredWidths, given_or, greater, limit_of, size_or_zero, sum};
use lay_style::Style;
use lay_table_grid::TableGrid;
use lay_units::{NoMemory, Unit};
use std::alloc::Global;

/// The preferred widths of the border box of a table of the fixed layout, which has this grid.
pub(crate) fn fixed_widths(
    alloc: Global,
    boxes: &[BoxNode],
    inner: &[PreferredWidths],
    grid: &TableGrid,
) -> Result<PreferredWidths, NoMemory>
    requires grid { IsTableGrid boxes.now grid.now }
    requires places { PlacesAreBelow (length boxes.now) grid.now }
    requires few { grid.now.columns ≤ most_columns }
    ensures { IfOk result (HasFixedWidths boxes.now inner.now) }
{
    let columns = column_widths(alloc, boxes, inner, grid)?;
    let together = all_beside(columns.as_slice())?;
    let style = style_of_box(boxes, grid.table());
    Ok(PreferredWidths {
        minimum: table_part(grid, style, together.minimum)?,
        preferred: table_part(grid, style, together.preferred)?,
    })
}

/// The preferred widths of the columns.
fn column_widths(
    alloc: Global,
    boxes: &[BoxNode],
    inner: &[PreferredWidths],
    grid: &TableGrid,
) -> Result<Vec<PreferredWidths>, NoMemory>
    requires places { PlacesAreBelow (length boxes.now) grid.now }
    requires few { grid.now.columns ≤ most_columns }
    ensures { IfOk result (λ v. AreColumnWidths boxes.now inner.now grid.now v.items) }
{
    let columns = columns_in(alloc, None, boxes, grid, Unit(0))?;
    let owns = own_widths(alloc, &columns)?;
    let contents = content_widths(alloc, boxes, inner, grid)?;
    let mut widths = Vec::with_capacity(alloc, contents.len())?;
    for i in 0..contents.len() {
        widths.push(own_or(own_at(&owns, i), widths_at(&contents, i)))?;
    }
    Ok(widths)
}

fn own_at(owns: &[Option<Unit>], i: usize) -> Option<Unit>
    ensures { result ≡ own_at owns.now i }
{
    match owns.get(i) {
        Some(own) => *own,
        None => None,
    }
}

/// A column with a width of its own, or with the widths of its cells.
fn own_or(own: Option<Unit>, content: PreferredWidths) -> PreferredWidths
    ensures { result ≡ own_or own content }
{
    match own {
        Some(width) => PreferredWidths {
            minimum: width,
            preferred: width,
        },
        None => content,
    }
}

/// All of them beside each other.
fn all_beside(widths: &[PreferredWidths]) -> Result<PreferredWidths, NoMemory>
    ensures { IfOk result (λ w. w ≡ all_beside widths.now) }
{
    let mut total = NO_WIDTHS;
    let count = widths.len();
    for done in 0..count {
        total = beside(widths[count - 1 - done], total)?;
    }
    Ok(total)
}

fn beside(v: PreferredWidths, w: PreferredWidths) -> Result<PreferredWidths, NoMemory>
    ensures { IfOk result (λ b. b ≡ widths_added v w) }
{
    Ok(PreferredWidths {
        minimum: sum(v.minimum, w.minimum)?,
        preferred: sum(v.preferred, w.preferred)?,
    })
}

/// The width of the border box of a table whose columns come to so much.
fn table_part(grid: &TableGrid, style: &Style, columns: Unit) -> Result<Unit, NoMemory>
    ensures { IfOk result (λ v. v ≡ table_part grid.now style.now columns) }
{
    let content = bounded_content(style, with_spacings(grid, columns)?);
    sum(content, preferred_edges(grid, style))
}

/// A width of a table's content, or its `width` where that is a greater length, between its bounds.
pub(crate) fn bounded_content(style: &Style, content: Unit) -> Unit
    ensures { result.0 ≡ bounded_content style.now content.0 }
{
    let sizing = &style.sizing;
    let width = greater(content, given_or(sizing.width, Unit(0)));
    let least = size_or_zero(sizing.min_width);
    let most = limit_of(sizing.max_width);
    with_min_max(width, least, most)
}
