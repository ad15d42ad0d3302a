//! Segments.

ghost use Rattle.std.specs.Prelude.{◌≡◌};

use crate::item::ItemList;
use std::marker::Model;

/// Content that no line breaks inside. A preserved linefeed ends it exactly where `forced`.
#[derive(Drop)]
pub struct Segment {
    pub items: ItemList,
    pub forced: bool,
}

/// Segments, in order.
#[derive(Drop)]
pub struct SegmentList {
    items: Vec<Segment>,
}

impl Model for SegmentList {
    ghost use Rattle.std.specs.Prelude.{List};
    ghost use Rattle.lay_space.specs.declared.segment.Segment.{Segment};

    ghost Value = { List Segment };

    ghost view = { λ l. l.items.items };
}

impl SegmentList {
    /// The list of these segments, which is taken over without a copy.
    pub fn new(items: Vec<Segment>) -> SegmentList
        ensures { result ≡ items.items }
    {
        SegmentList { items }
    }

    /// The segments, in order.
    pub fn as_slice(&self) -> &[Segment]
        ensures { result.now ≡ self.now }
    {
        self.items.as_slice()
    }
}
