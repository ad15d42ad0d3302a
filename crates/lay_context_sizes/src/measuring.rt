//! The preferred widths of one formatting context.

ghost use Rattle.std.specs.Prelude.{IfOk};
ghost use Rattle.lay_context_sizes.specs.ContextWidths.{HasFlowWidths, IsMeasured};

use crate::inputs::MeasureInput;
use crate::measured_context::MeasuredContext;
use crate::table_contexts::is_table;
use lay_box_tree::inline_parts;
use lay_measure::{MeasureIn, PreferredWidths, measure};
use lay_table_sizes::{TableBounds, measure_table};
use lay_units::NoMemory;
use std::alloc::Global;

/// The most boxes of a context that are measured. A document has fewer.
const MOST_BOXES: usize = 4294967295;

/// The preferred widths of a formatting context, with the bounds of a table of the automatic layout.
pub fn context_widths(alloc: Global, input: &MeasureInput) -> Result<MeasuredContext, NoMemory>
    ensures { IfOk result (IsMeasured input.now) }
{
    if is_table(input.boxes()) {
        let measured = measure_table(alloc, input.boxes(), input.inner())?;
        return Ok(MeasuredContext::new(measured.widths, measured.bounds));
    }
    let widths = flow_widths(alloc, input)?;
    Ok(MeasuredContext::new(widths, TableBounds::none()))
}

/// Those of boxes in block flow. NoMemory is also the answer for more boxes than 4,294,967,295, and where a width isn't
/// within 2^63 units of 0.
fn flow_widths(alloc: Global, input: &MeasureInput) -> Result<PreferredWidths, NoMemory>
    ensures { IfOk result (HasFlowWidths input.now) }
{
    let boxes = input.boxes();
    if boxes.len() > MOST_BOXES {
        return Err(NoMemory);
    }
    let parts = inline_parts(alloc, boxes)?;
    let of = MeasureIn::new(boxes, &parts, input.inner(), input.face());
    measure(alloc, &of.with_contents(input.contents()))
}
