//! Preferred widths.

use lay_units::Unit;

/// How narrow content can be, and how wide it would like to be (CSS 2.2, 10.3.5), in 1/64 px.
#[derive(Clone, Copy, Debug, PartialEq, Eq)]
pub struct PreferredWidths {
    /// The preferred minimum width.
    pub minimum: Unit,
    /// The preferred width.
    pub preferred: Unit,
}

/// Those of nothing.
pub const NO_WIDTHS: PreferredWidths = PreferredWidths {
    minimum: Unit(0),
    preferred: Unit(0),
};
