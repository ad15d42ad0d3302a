//! The structure of a table, from the boxes of its formatting context.

ghost use Rattle.std.specs.Prelude.{◌≡◌, true, false, slice_get, IfOk};
ghost use Rattle.lay_style.specs.LengthValues.{size_of};
ghost use Rattle.lay_table_grid.specs.TableParts.{ArePartsOf};
ghost use Rattle.lay_table_grid.specs.GridBounds.{IsUsedSpacing};
ghost use Rattle.lay_table_grid.specs.TableGrid.{IsTableGrid, collapses_in, collapsing};
ghost use Rattle.lay_table_grid.specs.TableGrid.{spacing_by, spacing_in};

use crate::bordered::{collapsed_cells, separate_cells};
use crate::grid::{Spacing, TableGrid};
use crate::own_borders;
use crate::parts::{Parts, table_parts};
use lay_box_tree::BoxNode;
use lay_style::{BorderCollapse, TableStyle, size_of};
use lay_units::{NoMemory, Unit};
use std::alloc::Global;

/// The structure of the table of these boxes, those of its formatting context. NoMemory is also the
/// answer where it has 2^32 rows, cells or columns, which is more than the boxes of a document make.
pub fn table_grid(alloc: Global, boxes: &[BoxNode]) -> Result<TableGrid, NoMemory>
    ensures { IfOk result (IsTableGrid boxes.now) }
{
    let parts = table_parts(alloc, boxes)?;
    if collapses_at(boxes, parts.table) {
        return collapsed_grid(alloc, parts);
    }
    separate_grid(alloc, parts)
}

fn separate_grid(alloc: Global, parts: Parts<'_>) -> Result<TableGrid, NoMemory>
    requires parts { ArePartsOf parts.boxes parts }
    requires separate { collapses_in (slice_get parts.boxes parts.table) ≡ false }
    ensures { IfOk result (IsTableGrid parts.entry.boxes) }
{
    let cells = separate_cells(alloc, &parts)?;
    let borders = own_borders(parts.boxes, parts.table);
    let spacing = spacing_at(parts.boxes, parts.table);
    Ok(TableGrid {
        table: parts.table,
        rows: parts.rows,
        cells,
        column_boxes: parts.column_boxes,
        columns: parts.columns,
        spacing,
        collapses: false,
        borders,
    })
}

fn collapsed_grid(alloc: Global, parts: Parts<'_>) -> Result<TableGrid, NoMemory>
    requires parts { ArePartsOf parts.boxes parts }
    requires collapses { collapses_in (slice_get parts.boxes parts.table) ≡ true }
    ensures { IfOk result (IsTableGrid parts.entry.boxes) }
{
    let collapsed = collapsed_cells(alloc, &parts)?;
    let spacing = spacing_at(parts.boxes, parts.table);
    Ok(TableGrid {
        table: parts.table,
        rows: parts.rows,
        cells: collapsed.cells,
        column_boxes: parts.column_boxes,
        columns: parts.columns,
        spacing,
        collapses: true,
        borders: collapsed.borders,
    })
}

/// Whether the borders of the table whose table box stands at a place collapse.
fn collapses_at(boxes: &[BoxNode], table: usize) -> bool
    ensures { result ≡ collapses_in (slice_get boxes.now table) }
{
    match boxes.get(table) {
        Some(node) => collapses(&node.style.table),
        None => false,
    }
}

fn collapses(style: &TableStyle) -> bool
    ensures { result ≡ collapsing style.now.border_collapse }
{
    match style.border_collapse {
        BorderCollapse::Collapse => true,
        BorderCollapse::Separate => false,
    }
}

/// The spacing in that table.
fn spacing_at(boxes: &[BoxNode], table: usize) -> Spacing
    ensures spacing { result ≡ spacing_in (slice_get boxes.now table) }
    ensures used { IsUsedSpacing result }
{
    match boxes.get(table) {
        Some(node) => spacing_by(&node.style.table),
        None => NO_SPACING,
    }
}

const NO_SPACING: Spacing = Spacing {
    across: Unit(0),
    down: Unit(0),
};

fn spacing_by(style: &TableStyle) -> Spacing
    ensures spacing { result ≡ spacing_by style.now }
    ensures used { IsUsedSpacing result }
{
    if collapses(style) {
        return NO_SPACING;
    }
    let spacing = style.border_spacing;
    Spacing {
        across: size_of(spacing.horizontal),
        down: size_of(spacing.vertical),
    }
}
