//! The tasks of a layout.

/// What a formatting context is to be given.
#[derive(Clone, Copy, PartialEq, Eq, PartialOrd, Ord)]
pub enum Phase {
    /// Its preferred widths.
    Measure,
    /// The used sizes of its boxes.
    Size,
    /// Where its boxes stand.
    Place,
}

/// One phase of the formatting context with this number.
#[derive(Clone, Copy)]
pub struct Task {
    pub context: usize,
    pub phase: Phase,
}
