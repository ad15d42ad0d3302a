//! The tree of cells that are all clean.

ghost use Rattle.std.specs.Prelude.{IfOk};
ghost use Rattle.lay_cells.specs.Reads.{AllClean};
ghost use Rattle.lay_context.specs.Medium.{Medium};
ghost use Rattle.lay_context.specs.Solves.{IsAssembled};
ghost use Rattle.lay_kept_cells.specs.Table.TableCells.{AreCellsOn, workings_in};

use crate::steps::clean_cells_are_known;
use crate::table::cell_table::CellTable;
use crate::table::cell_values::CellValues;
use lay_cell_work::Layout;
use lay_cells::Cells;
use lay_context::{LaidContexts, assemble};
use lay_frag::Tree;
use lay_units::NoMemory;
use std::alloc::Global;

/// The tree of the values that cells keep which are all clean. NoMemory is also the answer where one is too large to be told, which is so
/// of no document within the limits.
pub fn tree_of(alloc: Global, table: &CellTable, cells: &Cells<Layout>) -> Result<Tree, NoMemory>
    requires cells { (medium : Medium) × AreCellsOn medium table.now cells.now }
    requires clean { AllClean cells.now.rows }
    ensures { IfOk result (IsAssembled table.now.formatting_contexts (workings_in table.now cells.now.rows)) }
{
    clean_cells_are_known();
    let values = CellValues { table, cells };
    let laid = LaidContexts {
        contexts: table.formatting_contexts(),
        known: &values,
    };
    assemble(alloc, &laid)
}
