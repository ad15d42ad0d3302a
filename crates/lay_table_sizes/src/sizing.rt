//! The used sizes of a table.

ghost use Rattle.std.specs.Prelude.{◌≡◌, ◌<◌, ◌≤◌, ℕ, false, All, IfOk, length, slice_get, Some};
ghost use Rattle.lay_units.specs.declared.length.Unit.{Unit as Length};
ghost use Rattle.lay_units.specs.Units.{IsPosition, IsUsedSize};
ghost use Rattle.lay_sizes.specs.SizeBounds.{SizeFits};
ghost use Rattle.lay_sizes.specs.SizeColumns.{HaveSizeBounds, sizes_at};
ghost use Rattle.lay_table_grid.specs.GridBounds.{PlacesAreBelow};
ghost use Rattle.lay_table_sizes.specs.Bounds.{most_columns};
ghost use Rattle.lay_table_sizes.specs.TableSizes.{AreAutoWidths, AreFixedWidths, AreTableWidths, AreTableWidthsAs, HasTableSizes};
ghost use Rattle.lay_table_sizes.specs.TableSizes.{held, held_width, sizes_of_box, table_box_sizes, table_width};

use crate::bounds::TableBounds;
use crate::cells::{cells_of, sum_of};
use crate::column_widths::columns_in;
use crate::grid::grid_of;
use crate::layouts::is_fixed;
use crate::sizes::TableSizes;
use crate::spaces::with_spacings;
use crate::table_box::{style_of_box, table_edges};
use crate::table_rule::TableRule;
use crate::wanted_width::{fixed_width, shrunk_width};
use crate::wrapper::wrapper_sizes;
use lay_box_tree::BoxNode;
use lay_grid::columns_fixed;
use lay_sizes::{
    BoxSizes, ContainingBlock, NO_SIZES, used_height, used_max_height, used_min_height,
};
use lay_style::Style;
use lay_table_grid::TableGrid;
use lay_units::{NoMemory, Unit, UnitList, clamp_size};
use lay_widths::BlockOut;
use std::alloc::Global;

/// A table that has its used sizes.
#[derive(Drop)]
pub struct SizedTable {
    /// Those of the boxes of its formatting context, in order.
    pub boxes: Vec<BoxSizes>,
    /// Its columns and cells.
    pub table: TableSizes,
}

/// The width that a table is to have, and the widths of its columns.
#[derive(Drop)]
struct TableWidths {
    wanted: Unit,
    columns: UnitList,
}

/// The used sizes of the boxes of a table's formatting context, and its columns and cells (CSS 2.2, 17.5.2). The own box is
/// the table's wrapper, and this is its containing block. The bounds count where the table is laid out by the automatic algorithm.
/// The bounds of a table are of as many columns as it has; of others the first so many count, and nothing is asked of columns
/// behind the last. NoMemory is also the answer where the table has more than 2^24 columns or its width isn't within 2^62 units;
/// no table of a document within its limits is such.
pub fn table_sizes(
    alloc: Global,
    boxes: &[BoxNode],
    containing: ContainingBlock,
    rule: TableRule,
    bounds: &TableBounds,
) -> Result<SizedTable, NoMemory>
    requires some { 0 < length boxes.now }
    requires containing { IsPosition containing.width.0 }
    ensures sizes { IfOk result (λ s. HasTableSizes containing rule bounds.now boxes.now s.boxes.items s.table) }
    ensures bounds { IfOk result (λ s. HaveSizeBounds s.boxes.items) }
{
    let grid = grid_of(alloc, boxes)?;
    let widths = table_widths(alloc, boxes, &grid, containing.width, bounds)?;
    let width = table_width(&grid, widths.wanted, widths.columns.as_slice())?;
    let table = table_box(&grid, containing, style_of_box(boxes, grid.table()), width);
    let wrapper = wrapper_sizes(rule, containing, style_of_box(boxes, 0), &table);
    let sizes = sizes_of_boxes(alloc, boxes.len(), grid.table(), wrapper, table)?;
    let columns = held(alloc, widths.columns.as_slice())?;
    let cells = cells_of(alloc, boxes.len(), &grid, columns.as_slice())?;
    Ok(SizedTable {
        boxes: sizes,
        table: TableSizes::new(alloc, grid, columns, cells)?,
    })
}

fn table_widths(
    alloc: Global,
    boxes: &[BoxNode],
    grid: &TableGrid,
    containing: Unit,
    bounds: &TableBounds,
) -> Result<TableWidths, NoMemory>
    requires some { 0 < length boxes.now }
    requires places { PlacesAreBelow (length boxes.now) grid.now }
    requires few { grid.now.columns ≤ most_columns }
    requires containing { IsPosition containing.0 }
    ensures widths { IfOk result (λ w. AreTableWidths containing boxes.now grid.now bounds.now w.wanted w.columns) }
    ensures count { IfOk result (λ w. length w.columns ≡ grid.now.columns) }
{
    if is_fixed(style_of_box(boxes, 0)) {
        return fixed_widths(alloc, boxes, grid, containing);
    }
    auto_widths(alloc, boxes, grid, containing, bounds)
}

/// Those of the fixed layout.
fn fixed_widths(
    alloc: Global,
    boxes: &[BoxNode],
    grid: &TableGrid,
    containing: Unit,
) -> Result<TableWidths, NoMemory>
    requires some { 0 < length boxes.now }
    requires places { PlacesAreBelow (length boxes.now) grid.now }
    requires few { grid.now.columns ≤ most_columns }
    requires containing { IsPosition containing.0 }
    ensures widths { IfOk result (λ w. AreFixedWidths containing boxes.now grid.now w.wanted w.columns) }
    ensures count { IfOk result (λ w. length w.columns ≡ grid.now.columns) }
{
    let wanted = fixed_width(boxes, grid, containing);
    let columns = columns_in(alloc, Some(wanted), boxes, grid, wanted)?;
    Ok(TableWidths {
        wanted,
        columns: columns_fixed(alloc, &columns)?,
    })
}

/// Those of the automatic layout.
fn auto_widths(
    alloc: Global,
    boxes: &[BoxNode],
    grid: &TableGrid,
    containing: Unit,
    bounds: &TableBounds,
) -> Result<TableWidths, NoMemory>
    requires some { 0 < length boxes.now }
    requires places { PlacesAreBelow (length boxes.now) grid.now }
    requires few { grid.now.columns ≤ most_columns }
    requires containing { IsPosition containing.0 }
    ensures widths { IfOk result (λ w. AreTableWidthsAs false containing boxes.now grid.now bounds.now w.wanted w.columns) }
    ensures count { IfOk result (λ w. length w.columns ≡ grid.now.columns) }
{
    let count = grid.columns() as usize;
    if bounds.columns().len() == count {
        return widths_by(alloc, boxes, grid, containing, bounds);
    }
    let own = bounds.of_columns(alloc, count)?;
    widths_by(alloc, boxes, grid, containing, &own)
}

/// Those by bounds of as many columns as the table has.
fn widths_by(
    alloc: Global,
    boxes: &[BoxNode],
    grid: &TableGrid,
    containing: Unit,
    bounds: &TableBounds,
) -> Result<TableWidths, NoMemory>
    requires some { 0 < length boxes.now }
    requires places { PlacesAreBelow (length boxes.now) grid.now }
    requires few { grid.now.columns ≤ most_columns }
    requires count { length bounds.now.columns ≡ grid.now.columns }
    requires containing { IsPosition containing.0 }
    ensures widths { IfOk result (λ w. AreAutoWidths containing boxes.now grid.now bounds.now w.wanted w.columns) }
    ensures count { IfOk result (λ w. length w.columns ≡ grid.now.columns) }
{
    let wanted = shrunk_width(boxes, grid, containing, bounds)?;
    let columns = bounds.columns_in(alloc, grid, wanted)?;
    Ok(TableWidths { wanted, columns })
}

/// The used width of the content of a table box that is to have the width `wanted` and has these columns.
fn table_width(grid: &TableGrid, wanted: Unit, columns: &[Unit]) -> Result<Unit, NoMemory>
    ensures value { IfOk result (λ v. v ≡ table_width grid.now wanted columns.now) }
    ensures size { IfOk result (λ v. IsUsedSize v.0) }
{
    let columns = with_spacings(grid, sum_of(columns)?)?;
    Ok(clamp_size(i128::from(wanted.0.max(columns.0))))
}

/// The table box in its wrapper.
fn table_box(grid: &TableGrid, containing: ContainingBlock, style: &Style, width: Unit) -> BoxSizes
    requires { IsUsedSize width.0 }
    ensures value { result ≡ table_box_sizes grid.now containing style.now width }
    ensures fits { SizeFits result }
{
    BoxSizes {
        containing: containing.width,
        widths: BlockOut {
            margin_left: Unit(0),
            width,
            margin_right: Unit(0),
        },
        edges: table_edges(grid, containing.width, style),
        margin_top: Unit(0),
        margin_bottom: Unit(0),
        height: used_height(containing.height, style.sizing.height),
        min_height: used_min_height(containing.height, style.sizing.min_height),
        max_height: used_max_height(containing.height, style.sizing.max_height),
    }
}

/// The sizes of so many boxes, of which the first is the wrapper and the one at `place` the table box.
fn sizes_of_boxes(
    alloc: Global,
    count: usize,
    place: usize,
    wrapper: BoxSizes,
    table: BoxSizes,
) -> Result<Vec<BoxSizes>, NoMemory>
    requires wrapper { SizeFits wrapper }
    requires table { SizeFits table }
    ensures count { IfOk result (λ v. length v.items ≡ count) }
    ensures each { IfOk result (λ v. (k : ℕ) → k < count → sizes_at v.items k ≡ sizes_of_box place wrapper table k) }
    ensures bounds { IfOk result (λ v. HaveSizeBounds v.items) }
{
    let mut sizes = Vec::with_capacity(alloc, count)?;
    for k in 0..count {
        sizes.push(sizes_of_box(place, wrapper, table, k))?;
    }
    Ok(sizes)
}

fn sizes_of_box(place: usize, wrapper: BoxSizes, table: BoxSizes, k: usize) -> BoxSizes
    requires wrapper { SizeFits wrapper }
    requires table { SizeFits table }
    ensures value { result ≡ sizes_of_box place wrapper table k }
    ensures fits { SizeFits result }
{
    if k == 0 {
        return wrapper;
    }
    if k == place {
        return table;
    }
    NO_SIZES
}

/// Used widths of columns.
fn held(alloc: Global, widths: &[Unit]) -> Result<Vec<Unit>, NoMemory>
    ensures value { IfOk result (λ v. v.items ≡ held widths.now) }
    ensures count { IfOk result (λ v. length v.items ≡ length widths.now) }
    ensures sizes { IfOk result (λ v. All (λ (width : Length). IsUsedSize width.0) v.items) }
{
    let mut used = Vec::with_capacity(alloc, widths.len())?;
    for k in 0..widths.len() {
        used.push(held_width(width_at(widths, k)))?;
    }
    Ok(used)
}

fn width_at(widths: &[Unit], k: usize) -> Unit
    requires { k < length widths.now }
    ensures { slice_get widths.now k ≡ Some result }
{
    widths[k]
}

fn held_width(width: Unit) -> Unit
    ensures value { result ≡ held_width width }
    ensures size { IsUsedSize result.0 }
{
    clamp_size(i128::from(width.0))
}
