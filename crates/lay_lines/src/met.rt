//! The floats of lines.

use crate::content::LineFloat;
use lay_floats::NodePlace;

/// The floats that lines met: where those that stand are, in order, and those that wait until the line is over.
#[derive(Drop)]
pub struct Met {
    pub places: Vec<NodePlace>,
    pub put_off: Vec<LineFloat>,
}
