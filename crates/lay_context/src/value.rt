//! What the tasks of a layout answer.

use crate::placed_context::PlacedContext;
use lay_context_sizes::{MeasuredContext, SizedContext};

/// The value of a task.
#[derive(Drop)]
pub enum Value {
    Measure(MeasuredContext),
    Size(SizedContext),
    Place(PlacedContext),
}
