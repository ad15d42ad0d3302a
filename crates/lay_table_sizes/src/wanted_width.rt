//! The width that a table is to have.

ghost use Rattle.std.specs.Prelude.{◌<◌, IfOk, length};
ghost use Rattle.lay_units.specs.Units.{IsPosition, IsUsedSize, IsSize};
ghost use Rattle.lay_table_grid.specs.GridBounds.{PlacesAreBelow};
ghost use Rattle.lay_table_sizes.specs.WantedWidth.{HasAutoWidth, IsFixedWidth};

use crate::bounds::TableBounds;
use crate::contents::{greatest_content, least_content};
use crate::table_box::{style_of_box, table_block};
use crate::used_width::auto_width;
use lay_box_tree::BoxNode;
use lay_table_grid::TableGrid;
use lay_units::{NoMemory, Unit};
use lay_widths::solve_block;

/// The width of a table of the fixed layout.
pub(crate) fn fixed_width(boxes: &[BoxNode], grid: &TableGrid, containing: Unit) -> Unit
    requires some { 0 < length boxes.now }
    requires places { PlacesAreBelow (length boxes.now) grid.now }
    requires containing { IsPosition containing.0 }
    ensures wanted { IsFixedWidth containing boxes.now grid.now result }
    ensures size { IsUsedSize result.0 }
{
    let wrapper = style_of_box(boxes, 0);
    let style = style_of_box(boxes, grid.table());
    let block = table_block(grid, containing, wrapper, style);
    let out = solve_block(&block);
    out.width
}

/// The width of a table of the automatic layout.
pub(crate) fn shrunk_width(
    boxes: &[BoxNode],
    grid: &TableGrid,
    containing: Unit,
    bounds: &TableBounds,
) -> Result<Unit, NoMemory>
    requires some { 0 < length boxes.now }
    requires places { PlacesAreBelow (length boxes.now) grid.now }
    requires containing { IsPosition containing.0 }
    ensures wanted { IfOk result (HasAutoWidth containing boxes.now grid.now bounds.now) }
    ensures size { IfOk result (λ v. IsSize v.0) }
{
    let wrapper = style_of_box(boxes, 0);
    let style = style_of_box(boxes, grid.table());
    let least = least_content(grid, bounds.columns())?;
    let greatest = greatest_content(grid, bounds.columns())?;
    let block = table_block(grid, containing, wrapper, style);
    auto_width(&block, least, greatest, bounds.captions())
}
