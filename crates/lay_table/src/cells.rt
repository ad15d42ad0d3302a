//! The cells of a table.

ghost use Rattle.std.specs.Prelude.{◌≡◌, ◌<◌, length, IfOk};
ghost use Rattle.lay_units.specs.Units.{IsPosition};
ghost use Rattle.lay_sizes.specs.BoxSizes.{content_block};
ghost use Rattle.lay_sizes.specs.OwnBoxes.{OwnBoxFits, own_box_at};
ghost use Rattle.lay_sizes.specs.SizeBounds.{SizeFits};
ghost use Rattle.lay_sizes.specs.SizeColumns.{HaveSizeBounds, sizes_at};
ghost use Rattle.lay_table_grid.specs.GridBounds.{CellFits};
ghost use Rattle.lay_table_sizes.specs.CellSizes.{IsCellSized};
ghost use Rattle.lay_table.specs.RowNeeds.{align_of, cell_of, natural_box, style_of, table_sizes};
ghost use Rattle.lay_table.specs.TableRows.{HaveCellSizes, cell_size_of};

use crate::cell_align::{CellAlign, cell_align};
use crate::table_input::TableInput;
use lay_sizes::{BoxSizes, ContainingBlock, OwnBox, content_block};
use lay_style::Style;
use lay_table_grid::TableCell;
use lay_table_sizes::{CellSize, cell_sizes};
use lay_units::{NoMemory, Sides, Unit};
use std::alloc::Global;

/// The cell c of the table, in the order of its structure.
pub fn cell_of(input: &TableInput, c: usize) -> TableCell
    requires { c < length input.now.table.grid.cells }
    ensures cell { result ≡ cell_of input.now c }
    ensures fits { CellFits (length input.now.table.grid.rows) input.now.table.grid.columns result }
    ensures place { result.place < length input.now.boxes }
{
    let _ = input.boxes();
    input.grid().cells()[c]
}

/// The style of the box at this place.
pub(crate) fn style_of(input: &TableInput, place: usize) -> &Style
    requires { place < length input.now.boxes }
    ensures { result.now ≡ style_of input.now place }
{
    &input.boxes()[place].style
}

/// The box of the cell c by its content alone.
pub(crate) fn natural_box(input: &TableInput, c: usize) -> OwnBox
    requires { c < length input.now.table.grid.cells }
    ensures value { result ≡ natural_box input.now c }
    ensures fits { OwnBoxFits result }
{
    let cell = cell_of(input, c);
    own_box_at(input, cell.place)
}

/// The own box of the formatting context of the box at k, with its lengths in 1/64 px: that of a caption, or of a cell by its
/// content alone.
pub fn own_box_at(input: &TableInput, k: usize) -> OwnBox
    requires { k < length input.now.boxes }
    ensures value { result ≡ own_box_at input.now.inner k }
    ensures fits { OwnBoxFits result }
{
    let _ = input.boxes();
    input.inner()[k]
}

/// Where the content of the cell c stands in it.
pub(crate) fn align_of(input: &TableInput, c: usize) -> CellAlign
    requires { c < length input.now.table.grid.cells }
    ensures { result ≡ align_of input.now c }
{
    let cell = cell_of(input, c);
    cell_align(style_of(input, cell.place).text.vertical_align)
}

/// The used sizes of the table box, in 1/64 px.
pub fn table_sizes(input: &TableInput) -> BoxSizes
    ensures value { result ≡ table_sizes input.now }
    ensures fits { SizeFits result }
{
    let _ = input.boxes();
    sizes_at(input.sizes(), input.grid().table())
}

/// The used sizes with the number k, in 1/64 px.
pub fn sizes_at(sizes: &[BoxSizes], k: usize) -> BoxSizes
    requires place { k < length sizes.now }
    requires bounds { HaveSizeBounds sizes.now }
    ensures value { result ≡ sizes_at sizes.now k }
    ensures fits { SizeFits result }
{
    sizes[k]
}

/// The used sizes of the cells.
pub(crate) fn cell_boxes(alloc: Global, input: &TableInput) -> Result<Vec<BoxSizes>, NoMemory>
    ensures sizes { IfOk result (λ v. HaveCellSizes input.now v.items) }
    ensures fit { IfOk result (λ v. HaveSizeBounds v.items) }
{
    let table = table_sizes(input);
    let containing = containing_block(&table);
    let mut sizes = Vec::new(alloc);
    for c in 0..input.grid().cells().len() {
        sizes.push(cell_box(input, containing, c))?;
    }
    Ok(sizes)
}

/// The content box of the table box, which is the containing block of the cells.
fn containing_block(table: &BoxSizes) -> ContainingBlock
    requires { SizeFits table.now }
    ensures value { result ≡ content_block table.now }
    ensures width { IsPosition result.width.0 }
{
    content_block(table)
}

fn cell_box(input: &TableInput, containing: ContainingBlock, c: usize) -> BoxSizes
    requires cell { c < length input.now.table.grid.cells }
    requires containing { containing ≡ content_block (table_sizes input.now) }
    requires width { IsPosition containing.width.0 }
    ensures sized { IsCellSized containing (cell_size_of input.now c) (style_of input.now (cell_of input.now c).place) result }
    ensures fits { SizeFits result }
{
    let cell = cell_of(input, c);
    cell_sizes(
        containing,
        cell_size_of(input, c),
        style_of(input, cell.place),
    )
}

fn cell_size_of(input: &TableInput, c: usize) -> CellSize
    requires { c < length input.now.table.grid.cells }
    ensures { result ≡ cell_size_of input.now c }
{
    let cell = cell_of(input, c);
    match input.table().cell(cell.place) {
        Some(size) => size,
        None => NO_CELL_SIZE,
    }
}

const NO_CELL_SIZE: CellSize = CellSize {
    width: Unit(0),
    borders: Sides {
        top: Unit(0),
        right: Unit(0),
        bottom: Unit(0),
        left: Unit(0),
    },
};
