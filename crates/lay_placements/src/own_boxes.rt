//! The boxes of the contexts inside one.

ghost use Rattle.std.specs.Prelude.{◌≡◌};
ghost use Rattle.lay_sizes.specs.OwnBoxes.{OwnBoxesFit};

use lay_sizes::OwnBox;
use std::marker::Model;

/// The boxes of inner contexts, among the boxes of one context.
#[derive(Drop)]
pub struct OwnBoxes {
    items: Vec<OwnBox>,
}

impl Model for OwnBoxes {
    ghost use Rattle.std.specs.Prelude.{List};
    ghost use Rattle.lay_sizes.specs.declared.own_boxes.OwnBox.{OwnBox};
    ghost use Rattle.lay_sizes.specs.OwnBoxes.{OwnBoxesFit};

    ghost Value = { List OwnBox };

    ghost view = { λ b. b.items.items };

    ghost invariant = { λ b. OwnBoxesFit b.items.items };
}

impl OwnBoxes {
    pub fn new(items: Vec<OwnBox>) -> OwnBoxes
        requires { OwnBoxesFit items.items }
        ensures { result ≡ items.items }
    {
        OwnBoxes { items }
    }

    pub fn as_slice(&self) -> &[OwnBox]
        ensures boxes { result.now ≡ self.now }
        ensures fit { OwnBoxesFit self.now }
    {
        self.items.as_slice()
    }
}
