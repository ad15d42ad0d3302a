//! Where boxes stand.

use crate::Corner;
use lay_units::Unit;

/// Where a box stands, counted from the corner of the border box of its formatting context, in 1/64 px.
#[derive(Clone, Copy, PartialEq, Eq)]
pub struct Standing {
    /// The top left corner of its border box.
    pub corner: Corner,
    /// The height of its border box.
    pub height: Unit,
    /// How much further down what is in it stands: 0 but in table cells (CSS 2.2, 17.5.3).
    pub shift: Unit,
}
