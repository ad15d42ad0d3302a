//! Block containers that hold lines.

use lay_units::Unit;

/// A block container that holds lines: the place of its box among those of its context, the width of its containing
/// block, and its content edges, in 1/64 px. The edges are counted as those of all floats of the context are.
#[derive(Clone, Copy)]
pub struct Container {
    pub place: usize,
    pub containing: Unit,
    pub left: Unit,
    pub right: Unit,
}
