//! The places of the boxes of a block formatting context.

ghost use Rattle.std.specs.Prelude.{◌≡◌};
ghost use Rattle.lay_flow.specs.Blocks.FlowPlaces.{AreNearPlaces, AreNearRows};

use lay_floats::Place;
use lay_lines::RowList;
use lay_units::Unit;
use std::marker::Model;

/// Where a border box stands in its context, in 1/64 px: its corner, counted downward from the top border
/// edge of the context's own box, and its height.
#[derive(Clone, Copy, Drop)]
pub struct BoxPlace {
    pub corner: Place,
    pub height: Unit,
}

/// The places of the boxes of a context in document order, and their lines.
#[derive(Drop)]
pub struct FlowPlaces {
    boxes: Vec<BoxPlace>,
    lines: Vec<RowList>,
}

impl Model for FlowPlaces {
    ghost use Rattle.lay_flow.specs.Blocks.FlowPlaces.{AreNearPlaces, AreNearRows, FlowPlacesValue};

    ghost Value = { FlowPlacesValue };

    ghost view = { λ p. record { boxes = p.boxes.items; lines = p.lines.items } };

    ghost invariant = { λ p. AreNearPlaces p.boxes.items × AreNearRows p.lines.items };
}

impl FlowPlaces {
    /// These border boxes, with these lines.
    pub fn new(boxes: Vec<BoxPlace>, lines: Vec<RowList>) -> Self
        requires boxes { AreNearPlaces boxes.items }
        requires lines { AreNearRows lines.items }
        ensures { result ≡ record { boxes = boxes.items; lines = lines.items } }
    {
        FlowPlaces { boxes, lines }
    }

    /// The border boxes.
    pub fn boxes(&self) -> &[BoxPlace]
        ensures value { result.now ≡ self.now.boxes }
        ensures near { AreNearPlaces self.now.boxes }
    {
        &self.boxes
    }

    /// The lines of each box; no other box than one that holds lines has any.
    pub fn lines(&self) -> &[RowList]
        ensures value { result.now ≡ self.now.lines }
        ensures near { AreNearRows self.now.lines }
    {
        &self.lines
    }
}
