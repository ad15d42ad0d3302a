//! What is given of where a formatting context stands itself.

ghost use Rattle.std.specs.Prelude.{◌≡◌};
ghost use Rattle.lay_abspos.specs.OwnOffsets.{StandInput as Plain};
ghost use Rattle.lay_abspos.specs.StandInputs.{StandInputFits};

use crate::own_place::OwnPlace;
use lay_box_tree::ContextBoxes;
use lay_placements::ContextSizes;
use lay_sizes::BoxSizes;
use lay_units::Unit;
use std::marker::Model;

/// The boxes of a formatting context with their used sizes, how far its left border edge is from that of its containing
/// block where it is absolutely positioned, and what says where it stands.
#[derive(Drop)]
pub struct StandInput {
    boxes: ContextBoxes,
    sizes: ContextSizes,
    left: Unit,
    position: OwnPlace,
}

impl Model for StandInput {
    ghost use Rattle.lay_abspos.specs.OwnOffsets.{StandInput as Plain};
    ghost use Rattle.lay_abspos.specs.StandInputs.{StandInputFits};

    ghost Value = { Plain };

    ghost view = { λ i. record { boxes = i.boxes; sizes = i.sizes; left = i.left; position = i.position } };

    ghost invariant = { λ i. StandInputFits (record { boxes = i.boxes; sizes = i.sizes; left = i.left; position = i.position }) };
}

impl StandInput {
    /// These boxes with these sizes, at this distance from the left, standing there.
    pub fn new(
        boxes: ContextBoxes,
        sizes: ContextSizes,
        left: Unit,
        position: OwnPlace,
    ) -> StandInput
        requires { StandInputFits (record { boxes = boxes; sizes = sizes; left = left; position = position }) }
        ensures { result ≡ record { boxes = boxes; sizes = sizes; left = left; position = position } }
    {
        StandInput {
            boxes,
            sizes,
            left,
            position,
        }
    }

    /// The boxes, with what is known of them.
    pub fn boxes(&self) -> &ContextBoxes
        ensures boxes { result.now ≡ self.now.boxes }
        ensures fits { StandInputFits self.now }
    {
        &self.boxes
    }

    /// The used sizes of the boxes.
    pub fn sizes(&self) -> &[BoxSizes]
        ensures { result.now ≡ self.now.sizes }
    {
        self.sizes.as_slice()
    }

    /// How far the left border edge is from that of the containing block.
    pub fn left(&self) -> Unit
        ensures { result ≡ self.now.left }
    {
        self.left
    }

    /// What says where it stands.
    pub fn position(&self) -> OwnPlace
        ensures position { result ≡ self.now.position }
        ensures fits { StandInputFits self.now }
    {
        self.position
    }
}
