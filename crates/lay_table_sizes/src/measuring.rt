//! The preferred widths of a table.

ghost use Rattle.std.specs.Prelude.{◌≡◌, ◌<◌, ◌≤◌, ◌-ℤ◌, IfOk, length};
ghost use Rattle.lay_table_grid.specs.GridBounds.{PlacesAreBelow};
ghost use Rattle.lay_table_grid.specs.TableGrid.{IsTableGrid};
ghost use Rattle.lay_table_sizes.specs.Bounds.{most_columns};
ghost use Rattle.lay_table_sizes.specs.TableWidths.{HasAutoWidths, HasTableWidths, auto_part};

use crate::bounds::{TableBounds, bounds_of};
use crate::contents::{greatest_content, least_content};
use crate::grid::grid_of;
use crate::layouts::is_fixed;
use crate::preferred_widths::{bounded_content, fixed_widths};
use crate::table_box::{preferred_edges, style_of_box};
use lay_box_tree::BoxNode;
use lay_measure::{PreferredWidths, greater, sum};
use lay_style::Style;
use lay_table_grid::TableGrid;
use lay_units::{NoMemory, Unit};
use std::alloc::Global;

/// A table that is measured.
#[derive(Drop)]
pub struct MeasuredTable {
    /// Its preferred widths: those of its border box, in 1/64 px.
    pub widths: PreferredWidths,
    /// Its bounds, where it is laid out by the automatic algorithm.
    pub bounds: TableBounds,
}

/// The preferred widths of a table (CSS 2.2, 10.3.5 and 17.5.2), and what its width and its columns depend on in the automatic layout:
/// of that whose formatting context has these boxes, beside the preferred widths of the content of its cells and captions, which stand at
/// the places of their boxes. NoMemory is also the answer where the table has more than 2^24 columns or a width isn't within 2^62
/// units of 0; no table of a document within its limits is such.
pub fn measure_table(
    alloc: Global,
    boxes: &[BoxNode],
    inner: &[PreferredWidths],
) -> Result<MeasuredTable, NoMemory>
    requires { 0 < length boxes.now }
    ensures { IfOk result (λ m. HasTableWidths boxes.now inner.now m.widths m.bounds) }
{
    let grid = grid_of(alloc, boxes)?;
    if is_fixed(style_of_box(boxes, 0)) {
        return Ok(MeasuredTable {
            widths: fixed_widths(alloc, boxes, inner, &grid)?,
            bounds: TableBounds::none(),
        });
    }
    auto_widths(alloc, boxes, inner, &grid)
}

/// Those of a table of the automatic layout.
fn auto_widths(
    alloc: Global,
    boxes: &[BoxNode],
    inner: &[PreferredWidths],
    grid: &TableGrid,
) -> Result<MeasuredTable, NoMemory>
    requires grid { IsTableGrid boxes.now grid.now }
    requires places { PlacesAreBelow (length boxes.now) grid.now }
    requires few { grid.now.columns ≤ most_columns }
    ensures { IfOk result (λ m. HasAutoWidths boxes.now inner.now m.widths m.bounds) }
{
    let bounds = bounds_of(alloc, boxes, inner, grid)?;
    let style = style_of_box(boxes, grid.table());
    let least = least_content(grid, bounds.columns())?;
    let greatest = greatest_content(grid, bounds.columns())?;
    let captions = bounds.captions();
    let widths = PreferredWidths {
        minimum: auto_part(grid, style, captions, least)?,
        preferred: auto_part(grid, style, captions, greatest)?,
    };
    Ok(MeasuredTable { widths, bounds })
}

/// The width of the border box of a table whose columns come to so much with their spacings.
fn auto_part(
    grid: &TableGrid,
    style: &Style,
    captions: Unit,
    content: Unit,
) -> Result<Unit, NoMemory>
    ensures { IfOk result (λ v. v ≡ auto_part grid.now style.now captions content.0) }
{
    let edges = preferred_edges(grid, style);
    let captions = difference(captions, edges)?;
    sum(bounded_content(style, greater(content, captions)), edges)
}

/// What is left of a length. NoMemory is the answer where that isn't within 2^63 units of 0, as in no document within its limits.
fn difference(a: Unit, b: Unit) -> Result<Unit, NoMemory>
    ensures { IfOk result (λ v. v ≡ record { 0 = a.0 -ℤ b.0 }) }
{
    match a.0.checked_sub(b.0) {
        Some(rest) => Ok(Unit(rest)),
        None => Err(NoMemory),
    }
}
