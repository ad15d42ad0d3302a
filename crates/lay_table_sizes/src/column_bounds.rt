//! The columns of a table.

ghost use Rattle.std.specs.Prelude.{◌≡◌, ◌<◌, ◌-ℤ◌, ◌≤ℤ◌, ◌<ℤ◌, ◌^◌, pos, All, IfOk, length};
ghost use Rattle.lay_units.specs.Units.{IsSize};
ghost use Rattle.lay_grid.specs.Automatic.AutoColumns.{AreAutoColumns};
ghost use Rattle.lay_grid.specs.Automatic.Fit.{BoundFits};
ghost use Rattle.lay_table_grid.specs.GridBounds.{PlacesAreBelow};
ghost use Rattle.lay_table_sizes.specs.ColumnBounds.{AreTableBounds, least_content, spaces};

use crate::cell_bounds::span_cells;
use crate::contents::spaces;
use crate::given_widths::column_widths;
use crate::group_spans::group_spans;
use lay_box_tree::BoxNode;
use lay_grid::WidthOptions;
use lay_grid::automatic::{
    BoundList, BoundsIn, GroupSpans, SpanCells, bounds_are_sizes, column_bounds, columns_auto,
};
use lay_measure::PreferredWidths;
use lay_table_grid::TableGrid;
use lay_units::{NoMemory, Unit, UnitList};
use std::alloc::Global;

/// The bounds of the columns of the table of these boxes, in 1/64 px, beside the preferred widths of what is in its cells, which stand
/// at the places of their boxes. NoMemory is also the answer where a cell asks for 2^62 units; no document within its limits has such a
/// one.
pub fn table_bounds(
    alloc: Global,
    boxes: &[BoxNode],
    inner: &[PreferredWidths],
    grid: &TableGrid,
) -> Result<BoundList, NoMemory>
    requires places { PlacesAreBelow (length boxes.now) grid.now }
    requires few { grid.now.columns < 2 ^ 32 }
    ensures bounds { IfOk result (AreTableBounds boxes.now inner.now grid.now) }
    ensures sizes { IfOk result (All BoundFits) }
{
    bounds_are_sizes();
    let spacing = grid.spacing();
    let given = column_widths(alloc, boxes, grid)?;
    let cells = span_cells(alloc, boxes, inner, grid)?;
    let groups = group_spans(alloc, boxes, grid)?;
    let asked = BoundsIn {
        given: WidthOptions::new(given),
        cells: SpanCells::new(cells),
        groups: GroupSpans::new(groups),
        spacing: spacing.across,
    };
    let bounds = column_bounds(alloc, &asked)?;
    Ok(bounds)
}

/// The widths of the columns of a table that is so wide, which is no less than at their minimums with the spacings.
pub fn auto_columns(
    alloc: Global,
    grid: &TableGrid,
    bounds: &BoundList,
    width: Unit,
) -> Result<UnitList, NoMemory>
    requires few { grid.now.columns < 2 ^ 32 }
    requires bounds { All BoundFits bounds.now }
    requires count { length bounds.now ≡ grid.now.columns }
    requires width { IsSize width.0 }
    requires least { least_content grid.now bounds.now ≤ℤ width.0 }
    ensures { IfOk result (AreAutoColumns bounds.now (width.0 -ℤ spaces grid.now)) }
{
    let space = space_of(grid, width)?;
    columns_auto(alloc, bounds, space)
}

/// What the spacings leave of a width.
fn space_of(grid: &TableGrid, width: Unit) -> Result<Unit, NoMemory>
    requires { IsSize width.0 }
    ensures value { IfOk result (λ v. v.0 ≡ width.0 -ℤ spaces grid.now) }
    ensures most { IfOk result (λ v. v.0 <ℤ pos (2 ^ 62)) }
{
    let spaces = spaces(grid)?;
    Ok(Unit(width.0 - spaces.0))
}
