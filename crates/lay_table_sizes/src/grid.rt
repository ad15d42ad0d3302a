//! The grid of a table, of few columns.

ghost use Rattle.std.specs.Prelude.{◌<◌, ◌≤◌, IfOk, length};
ghost use Rattle.lay_table_grid.specs.GridBounds.{PlacesAreBelow};
ghost use Rattle.lay_table_grid.specs.TableGrid.{IsTableGrid};
ghost use Rattle.lay_table_sizes.specs.Bounds.{most_columns};

use lay_box_tree::BoxNode;
use lay_table_grid::{TableGrid, grids_are_of_boxes, table_grid};
use lay_units::NoMemory;
use std::alloc::Global;

/// As many columns as no table of a document within its limits has: a cell spans 64 at most.
const MOST_COLUMNS: u32 = 1 << 24;

/// The grid of the table of these boxes. NoMemory is also the answer where it has more columns than that.
pub(crate) fn grid_of(alloc: Global, boxes: &[BoxNode]) -> Result<TableGrid, NoMemory>
    requires { 0 < length boxes.now }
    ensures grid { IfOk result (IsTableGrid boxes.now) }
    ensures places { IfOk result (PlacesAreBelow (length boxes.now)) }
    ensures few { IfOk result (λ g. g.columns ≤ most_columns) }
{
    grids_are_of_boxes();
    let grid = table_grid(alloc, boxes)?;
    if grid.columns() > MOST_COLUMNS {
        return Err(NoMemory);
    }
    Ok(grid)
}
