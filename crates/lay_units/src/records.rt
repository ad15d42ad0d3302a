//! Records that the geometry crates take and answer. All lengths are in 1/64 px.

ghost use Rattle.std.specs.Prelude.{◌≡◌};

use crate::Unit;
use std::marker::Model;

/// A rectangle: its left and top edge, its width and its height.
#[derive(Clone, Copy, Debug, PartialEq, Eq)]
pub struct Rect {
    pub x: Unit,
    pub y: Unit,
    pub w: Unit,
    pub h: Unit,
}

/// A length for each side of a box.
#[derive(Clone, Copy, Debug, PartialEq, Eq)]
pub struct Sides {
    pub top: Unit,
    pub right: Unit,
    pub bottom: Unit,
    pub left: Unit,
}

/// A computed length, with percentages resolved: `auto` or a length.
#[derive(Clone, Copy, Debug, PartialEq, Eq)]
pub enum Len {
    Auto,
    Of(Unit),
}

/// What the width of a box depends on (CSS 2.2, 10.3.3 and 10.4). For heights of absolutely
/// positioned boxes the left and right sides stand for the top and the bottom ones (10.6.4).
#[derive(Clone, Copy)]
pub struct BlockIn {
    /// The width of the containing block.
    pub containing_width: Unit,
    pub margin_left: Len,
    /// The used border and padding widths, from 0.
    pub border_left: Unit,
    pub padding_left: Unit,
    pub width: Len,
    pub padding_right: Unit,
    pub border_right: Unit,
    pub margin_right: Len,
    /// From 0.
    pub min_width: Unit,
    /// From 0; None where `max-width` is `none`.
    pub max_width: Option<Unit>,
}

/// Used offsets, margins and width of an absolutely positioned box (CSS 2.2, 10.3.7 and 10.3.8).
#[derive(Clone, Copy)]
pub struct AbsOut {
    pub left: Unit,
    pub margin_left: Unit,
    pub width: Unit,
    pub margin_right: Unit,
    pub right: Unit,
}

/// The byte place of a grapheme cluster in its text, and its width.
#[derive(Clone, Copy)]
pub struct ClusterWidth {
    pub place: usize,
    pub width: Unit,
}

/// The widths of the grapheme clusters of a text, in order.
#[derive(Drop)]
pub struct WidthList {
    items: Vec<ClusterWidth>,
}

impl Model for WidthList {
    ghost use Rattle.std.specs.Prelude.{List};
    ghost use Rattle.lay_units.specs.declared.records.ClusterWidth.{ClusterWidth};

    ghost Value = { List ClusterWidth };

    ghost view = { λ l. l.items.items };
}

impl WidthList {
    /// The list of these widths, which is taken over without a copy.
    pub fn new(items: Vec<ClusterWidth>) -> WidthList
        ensures { result ≡ items.items }
    {
        WidthList { items }
    }

    /// The widths, in order.
    pub fn as_slice(&self) -> &[ClusterWidth]
        ensures { result.now ≡ self.now }
    {
        self.items.as_slice()
    }

    /// The vector that the list was made of, without a copy.
    pub fn into_vec(self) -> Vec<ClusterWidth>
        ensures { result.items ≡ self }
    {
        self.items
    }
}
