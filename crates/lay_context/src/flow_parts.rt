//! What a formatting context in block flow is placed of.

ghost use Rattle.std.specs.Prelude.{◌≡◌};
ghost use Rattle.lay_line_items.specs.InlineContents.{AreContents};
ghost use Rattle.lay_sizes.specs.SizeColumns.{sizes_at};
ghost use Rattle.lay_flow_boxes.specs.PlaceInputs.{HeightRuleFits, PlaceInputFits, height_rule_of};

use crate::shared_pieces::SharedPieces;
use lay_box_tree::ContextBoxes;
use lay_face::Face;
use lay_flow::blocks::HeightRule;
use lay_flow_boxes::{PlaceInput, height_rule_of, own_sizes};
use lay_line_items::InlineContents;
use lay_placements::{ContextSizes, OwnBoxes};
use std::marker::Model;
use std::sync::Arc;

/// The boxes of a formatting context, their used sizes, the own boxes of the formatting contexts inside it, the pieces of the
/// anonymous ones among those, what is given of the height of its own box, and the face of texts, before any content of lines
/// is made.
#[derive(Drop)]
pub struct FlowParts {
    boxes: ContextBoxes,
    sizes: ContextSizes,
    inner: OwnBoxes,
    pieces: SharedPieces,
    own_height: HeightRule,
    face: Arc<Face>,
}

impl Model for FlowParts {
    ghost use Rattle.lay_flow_boxes.specs.PlaceInputs.{PlaceInput as Plain, PlaceInputFits};

    ghost Value = { Plain };

    ghost view = { λ i.
        record { boxes = i.boxes; sizes = i.sizes; inner = i.inner; pieces = i.pieces; own_height = i.own_height; face = i.face.value } };

    ghost invariant = { λ i.
        PlaceInputFits
        (record {
          boxes = i.boxes;
          sizes = i.sizes;
          inner = i.inner;
          pieces = i.pieces;
          own_height = i.own_height;
          face = i.face.value;
        }) };
}

impl FlowParts {
    /// These. What is given of the height of the own box is that of its used sizes.
    pub fn new(
        boxes: ContextBoxes,
        sizes: ContextSizes,
        inner: OwnBoxes,
        pieces: SharedPieces,
        face: Arc<Face>,
    ) -> FlowParts
        requires { PlaceInputFits
            (record {
              boxes = boxes;
              sizes = sizes;
              inner = inner;
              pieces = pieces;
              own_height = height_rule_of (sizes_at sizes 0);
              face = face.value;
            }) }
        ensures { result
            ≡ record {
              boxes = boxes;
              sizes = sizes;
              inner = inner;
              pieces = pieces;
              own_height = height_rule_of (sizes_at sizes 0);
              face = face.value;
            } }
    {
        let own_height = height_rule_of(own_sizes(&boxes, &sizes));
        FlowParts {
            boxes,
            sizes,
            inner,
            pieces,
            own_height,
            face,
        }
    }

    /// These parts, where that is given of the height of the own box.
    pub fn with_own_height(self, own_height: HeightRule) -> FlowParts
        requires { HeightRuleFits own_height }
        ensures { result ≡ record self { own_height = own_height } }
    {
        FlowParts { own_height, ..self }
    }

    /// The boxes.
    pub fn boxes(&self) -> &ContextBoxes
        ensures boxes { result.now ≡ self.now.boxes }
        ensures fits { PlaceInputFits self.now }
    {
        &self.boxes
    }

    /// Their used sizes.
    pub fn sizes(&self) -> &ContextSizes
        ensures { result.now ≡ self.now.sizes }
    {
        &self.sizes
    }

    /// The own boxes of inner formatting contexts.
    pub fn inner(&self) -> &OwnBoxes
        ensures { result.now ≡ self.now.inner }
    {
        &self.inner
    }

    /// The pieces of the anonymous ones among them.
    pub fn pieces(&self) -> &SharedPieces
        ensures { result.now ≡ self.now.pieces }
    {
        &self.pieces
    }

    /// What is given of the height of its own box.
    pub fn own_height(&self) -> HeightRule
        ensures { result ≡ self.now.own_height }
    {
        self.own_height
    }

    /// The face of texts.
    pub fn face(&self) -> &Arc<Face>
        ensures { result.now.value ≡ self.now.face }
    {
        &self.face
    }

    /// What the formatting context is placed of, with this content of the lines of its boxes.
    pub(crate) fn into_input(self, contents: InlineContents) -> PlaceInput
        requires { AreContents self.face self.boxes contents }
        ensures { result ≡ self }
    {
        let own_height = self.own_height;
        let pieces = self.pieces.into_inner();
        let input = PlaceInput::new(self.boxes, self.sizes, self.inner, pieces, self.face);
        input.with_own_height(own_height).with_contents(contents)
    }
}
