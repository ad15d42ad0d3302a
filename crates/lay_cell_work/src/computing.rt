//! The value of a cell.

ghost use Rattle.std.specs.Prelude.{IfOk};
ghost use Rattle.lay_cell_work.specs.CellLocal.{IsCellLocal};

use crate::cell_input::CellInput;
use crate::cell_value::CellValue;
use crate::measuring::widths_of_roots;
use crate::placing::places_of_roots;
use crate::sizing::sizes_of_roots;
use lay_context::Phase;
use lay_units::NoMemory;
use std::alloc::Global;

/// The value of a cell that is given this, by itself.
pub fn value_of_cell(alloc: Global, input: &CellInput) -> Result<CellValue, NoMemory>
    ensures { IfOk result (IsCellLocal input.now) }
{
    match input.key().phase {
        Phase::Measure => Ok(CellValue::of_widths(widths_of_roots(alloc, input)?)),
        Phase::Size => Ok(CellValue::of_sizes(sizes_of_roots(alloc, input)?)),
        Phase::Place => Ok(CellValue::of_places(places_of_roots(alloc, input)?)),
    }
}
