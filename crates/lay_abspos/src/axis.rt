//! One axis of an absolutely positioned box: what its used offsets, margins and size depend on.

use lay_units::{AbsOut, BlockIn, Len, Unit, clamp, clamp_size};

/// What the used offsets, margins and size of an absolutely positioned box depend on, along one axis, in 1/64 px.
/// Down, left and right stand for top and bottom, and width for height.
#[derive(Clone, Copy)]
pub struct Axis {
    /// Margins, borders, paddings, size and bounds, with percentages resolved; the containing block's padding box is
    /// `containing_width` wide.
    pub block: BlockIn,
    pub left: Len,
    pub right: Len,
    /// Where the box would stand in the flow, from the left edge of the containing block (9.3.1).
    pub static_left: Unit,
    pub content: ContentSize,
}

/// How large the content makes an auto size.
#[derive(Clone, Copy)]
pub enum ContentSize {
    /// Across: the preferred minimum and the preferred width, to which a box shrinks (10.3.5).
    Shrinks(Unit, Unit),
    /// Down: the height of the content (10.6.7).
    Stands(Unit),
}

/// Offsets, margins and size as the equation gives them, before they are held within their bounds.
#[derive(Clone, Copy)]
pub struct Offsets {
    pub left: i128,
    pub margin_left: i128,
    pub width: i128,
    pub margin_right: i128,
    pub right: i128,
}
