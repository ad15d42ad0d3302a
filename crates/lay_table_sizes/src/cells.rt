//! The sizes of cells.

ghost use Rattle.std.specs.Prelude.{◌≡◌, ◌≢◌, ◌<◌, ◌≤◌, ◌+◌, ◌-◌, ℕ, Some, IfOk};
ghost use Rattle.std.specs.Prelude.{length, slice_get, slice_index_or, None};
ghost use Rattle.lay_units.specs.Units.{IsUsedSize};
ghost use Rattle.lay_grid.specs.Shares.{sum_of};
ghost use Rattle.lay_table_grid.specs.GridBounds.{CellFits};
ghost use Rattle.lay_table_sizes.specs.Bounds.{ArePlaced};
ghost use Rattle.lay_table_sizes.specs.CellSizes.{cell_size, cell_size_at};

use crate::cell_size::CellSize;
use crate::spaces::spacings;
use lay_measure::sum;
use lay_table_grid::{TableCell, TableGrid};
use lay_units::{NoMemory, Unit};
use std::alloc::Global;

/// For each of so many boxes the size of the cell whose box it is, where the columns have these widths.
pub(crate) fn cells_of(
    alloc: Global,
    count: usize,
    grid: &TableGrid,
    columns: &[Unit],
) -> Result<Vec<Option<CellSize>>, NoMemory>
    requires { length columns.now ≡ grid.now.columns }
    ensures count { IfOk result (λ v. length v.items ≡ count) }
    ensures cells { IfOk result
        (λ v. (k : ℕ) → k < count → slice_index_or v.items k None ≡ cell_size_at grid.now.spacing.across columns.now grid.now.cells k) }
{
    let mut sizes = Vec::from_elem(alloc, None, count)?;
    let last = grid.cells().len();
    for done in 0..last {
        let cell = cell_of(grid, last - 1 - done);
        let size = cell_size(grid.spacing().across, columns, cell)?;
        put_cell(&mut sizes, cell.place, size);
    }
    Ok(sizes)
}

/// The k-th cell of a grid.
pub(crate) fn cell_of(grid: &TableGrid, k: usize) -> TableCell
    requires { k < length grid.now.cells }
    ensures at { slice_get grid.now.cells k ≡ Some result }
    ensures fits { CellFits (length grid.now.rows) grid.now.columns result }
    ensures placed { (count : ℕ) → ArePlaced count grid.now.cells → result.place < count }
{
    grid.cells()[k]
}

fn put_cell(sizes: &mut Vec<Option<CellSize>>, place: usize, size: CellSize)
    ensures count { length sizes.new.items ≡ length sizes.old.items }
    ensures here { place < length sizes.old.items → slice_index_or sizes.new.items place None ≡ Some size }
    ensures others { (k : ℕ) → k ≢ place → slice_index_or sizes.new.items k None ≡ slice_index_or sizes.old.items k None }
{
    if place < sizes.len() {
        sizes[place] = Some(size);
    }
}

/// The size of a cell. NoMemory is the answer where its columns aren't within 2^63 units together, as those of a document
/// within its limits are.
fn cell_size(spacing: Unit, columns: &[Unit], cell: TableCell) -> Result<CellSize, NoMemory>
    requires some { 1 ≤ cell.columns }
    requires inside { cell.column + cell.columns ≤ length columns.now }
    requires spacing { IsUsedSize spacing.0 }
    ensures { IfOk result (λ size. size ≡ cell_size spacing columns.now cell) }
{
    let first = cell.column as usize;
    let count = cell.columns as usize;
    let between = spacings(spacing, count - 1)?;
    let width = sum(sum_of(&columns[first..first + count])?, between)?;
    Ok(CellSize {
        width,
        borders: cell.borders,
    })
}

/// The sum of these widths.
pub(crate) fn sum_of(widths: &[Unit]) -> Result<Unit, NoMemory>
    ensures { IfOk result (λ v. v ≡ record { 0 = sum_of widths.now }) }
{
    let mut total = Unit(0);
    for k in 0..widths.len() {
        total = sum(total, widths[k])?;
    }
    Ok(total)
}
