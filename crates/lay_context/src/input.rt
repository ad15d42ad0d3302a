//! What a task of a layout is given.

use crate::flow_parts::FlowParts;
use crate::measure_parts::MeasureParts;
use crate::table_parts::TableParts;
use lay_abspos::StandInput;
use lay_context_sizes::SizeInput;

/// What a task is given.
#[derive(Drop)]
pub enum Input {
    /// What is measured.
    Measure(MeasureParts),
    /// Nothing, of a formatting context whose preferred widths don't count.
    Unmeasured,
    Size(SizeInput),
    Place(FlowParts, StandInput),
    PlaceTable(TableParts, StandInput),
}
