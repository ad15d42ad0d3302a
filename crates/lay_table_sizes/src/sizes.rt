//! The columns and cells of a table.

ghost use Rattle.std.specs.Prelude.{◌≡◌, ◌<◌, IfOk};
ghost use Rattle.lay_table_sizes.specs.TableSizesValue.{TableSizesFit, cell_at};

use crate::cell_size::CellSize;
use lay_table_grid::TableGrid;
use lay_units::{NoMemory, Unit};
use std::alloc::Global;
use std::marker::Model;
use std::sync::Arc;

/// The grid of a table, the used width of each of its columns in 1/64 px, and for each box of its formatting context the size of
/// the cell whose box it is. Whoever is given them shares them.
#[derive(Drop)]
pub struct TableSizes {
    grid: Arc<TableGrid>,
    columns: Arc<Vec<Unit>>,
    cells: Arc<Vec<Option<CellSize>>>,
}

impl Model for TableSizes {
    ghost use Rattle.lay_table_sizes.specs.TableSizesValue.{TableSizesFit, TableSizesValue};

    ghost Value = { TableSizesValue };

    ghost view = { λ t. record { grid = t.grid.value; columns = t.columns.value.items; cells = t.cells.value.items } };

    ghost invariant = { λ t. TableSizesFit (record { grid = t.grid.value; columns = t.columns.value.items; cells = t.cells.value.items }) };
}

impl TableSizes {
    /// These columns and cells of this grid.
    pub(crate) fn new(
        alloc: Global,
        grid: TableGrid,
        columns: Vec<Unit>,
        cells: Vec<Option<CellSize>>,
    ) -> Result<TableSizes, NoMemory>
        requires { TableSizesFit (record { grid = grid; columns = columns.items; cells = cells.items }) }
        ensures { IfOk result (λ t. t ≡ record { grid = grid; columns = columns.items; cells = cells.items }) }
    {
        let grid = Arc::new(alloc, grid)?;
        let columns = Arc::new(alloc, columns)?;
        let cells = Arc::new(alloc, cells)?;
        Ok(TableSizes {
            grid,
            columns,
            cells,
        })
    }

    /// The grid of the table.
    pub fn grid(&self) -> &TableGrid
        ensures { result.now ≡ self.now.grid }
    {
        &self.grid
    }

    /// The width of each column, from 0 to 2^31 units.
    pub fn columns(&self) -> &[Unit]
        ensures columns { result.now ≡ self.now.columns }
        ensures fits { TableSizesFit self.now }
    {
        self.columns.as_slice()
    }

    /// For each box of the formatting context the size of the cell whose box it is; None where it is no cell's.
    pub fn cells(&self) -> &[Option<CellSize>]
        ensures { result.now ≡ self.now.cells }
    {
        self.cells.as_slice()
    }

    /// The size of the cell whose box stands at the place k; None where no cell's does.
    pub fn cell(&self, k: usize) -> Option<CellSize>
        ensures { result ≡ cell_at self.now k }
    {
        match self.cells.get(k) {
            Some(cell) => *cell,
            None => None,
        }
    }

    /// The sizes, shared: none is copied.
    pub fn share(&self) -> Result<TableSizes, NoMemory>
        ensures { IfOk result (λ t. t ≡ self.now) }
    {
        let grid = self.grid.clone()?;
        let columns = self.columns.clone()?;
        let cells = self.cells.clone()?;
        Ok(TableSizes {
            grid,
            columns,
            cells,
        })
    }
}
