//! What the cell at a place is given.

ghost use Rattle.std.specs.Prelude.{◌≡◌, ◌<◌, Some, IfOk, length};
ghost use Rattle.std.specs.Arc.{arc_value};
ghost use Rattle.lay_cells.specs.Looks.{Looks};
ghost use Rattle.lay_cells.specs.Places.{AtPlace};
ghost use Rattle.lay_cells.specs.declared.answers.Look.TheVariants as look;
ghost use Rattle.lay_cell_work.specs.CellLaws.SoundCells.{input_now};
ghost use Rattle.lay_kept_cells.specs.Table.TableCells.{AreCellsOn, HaveNeeds, IsGivenBy, input_at};

use crate::steps::ready_to_input;
use crate::table::cell_table::CellTable;
use crate::table::cell_values::CellValues;
use crate::table::root_inputs::root_inputs;
use lay_cell_work::cell_laws::present_inputs_fit;
use lay_cell_work::{CellInput, Layout};
use lay_cells::Cells;
use lay_context::Medium;
use lay_shape::ContextPhase;
use lay_units::NoMemory;
use std::alloc::Global;
use std::sync::Arc;

/// What the cell at a place is given now, where a look shows that it is ready.
pub fn input_at(
    alloc: Global,
    medium: &Medium,
    table: &CellTable,
    cells: &Cells<Layout>,
    place: usize,
) -> Result<Arc<CellInput>, NoMemory>
    requires cells { AreCellsOn medium.now table.now cells.now }
    requires ready { AtPlace cells.now.rows place (λ r. Looks cells.now.rows r.key look.Ready) }
    ensures value { IfOk result (λ i. input_at medium.now table.now cells.now.rows place ≡ Some (arc_value i)) }
    ensures of { IfOk result (λ i. AtPlace cells.now.rows place (λ r. IsGivenBy medium.now table.now cells.now.rows r.key (arc_value i))) }
{
    ready_to_input();
    let cell = table.cell_at(place);
    let values = CellValues { table, cells };
    let input = cell_input(alloc, medium, &values, cell)?;
    let shared = Arc::new(alloc, input)?;
    Ok(shared)
}

/// What a cell is given, where the values are there that it needs.
fn cell_input(
    alloc: Global,
    medium: &Medium,
    values: &CellValues<'_>,
    cell: ContextPhase,
) -> Result<CellInput, NoMemory>
    requires within { cell.context < length values.now.table.now.contexts }
    requires needs { HaveNeeds values.now.table.now values.now.cells.now.rows cell }
    ensures { IfOk result
        (λ i. i
        ≡ input_now medium.now values.now.table.now.contexts values.now.table.now.formatting_contexts values.now.cells.now.rows cell.context
        cell.phase) }
{
    present_inputs_fit();
    let _ = values.table.contexts().len();
    let _ = values.table.formatting_contexts();
    let roots = root_inputs(alloc, medium, values, cell)?;
    let key = values.table.key_of(cell);
    Ok(CellInput::new(key, roots))
}
