//! What a table says of a cell's box.

use lay_units::{Sides, Unit};

/// The width of a cell's border box and the used widths of its borders, in 1/64 px. A border box is as wide as the columns
/// that the cell spans with the spacings between them.
#[derive(Clone, Copy, Debug, PartialEq, Eq)]
pub struct CellSize {
    pub width: Unit,
    pub borders: Sides,
}
