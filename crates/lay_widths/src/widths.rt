//! Margins and widths.

ghost use Rattle.lay_widths.specs.BlockWidths.{IsHeld};

use lay_units::{Unit, clamp, clamp_size};

/// Used margins and width of a box, in 1/64 px: margins within 2^31 units of zero, the width from 0 to
/// 2^31 units.
#[derive(Clone, Copy, Debug, PartialEq, Eq)]
pub struct BlockOut {
    pub margin_left: Unit,
    pub width: Unit,
    pub margin_right: Unit,
}

/// Margins and width as the equation gives them, before they are held within their bounds.
#[derive(Clone, Copy, Debug, PartialEq, Eq)]
pub struct UsedWidths {
    pub margin_left: i128,
    pub width: i128,
    pub margin_right: i128,
}

pub fn held(widths: &UsedWidths) -> BlockOut
    ensures { IsHeld widths.now result }
{
    BlockOut {
        margin_left: clamp(widths.margin_left),
        width: clamp_size(widths.width),
        margin_right: clamp(widths.margin_right),
    }
}
