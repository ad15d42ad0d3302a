//! What the placement of a context is given.

ghost use Rattle.std.specs.Prelude.{◌≡◌, ◌<◌, IfSome, length};
ghost use Rattle.lay_box_tree.specs.Roles.{clear_at, role_at};
ghost use Rattle.lay_sizes.specs.SizeColumns.{sizes_at};
ghost use Rattle.lay_box_tree.specs.Containing.{container_of};
ghost use Rattle.lay_box_tree.specs.ContextBoxes.{is_float};
ghost use Rattle.lay_line_items.specs.InlineContents.{AreContents};
ghost use Rattle.lay_line_items.specs.InlineSegments.{segments_in};
ghost use Rattle.lay_flow_boxes.specs.PlaceInputs.{HeightRuleFits, PlaceInputFits, height_rule_of};

use lay_box_tree::{BoxNode, ContextBoxes, Role};
use lay_face::Face;
use lay_flow::blocks::HeightRule;
use lay_line_items::InlineContents;
use lay_placements::{ContextSizes, InnerPieces, OwnBoxes};
use lay_sizes::{BoxSizes, OwnBox};
use lay_space::Segment;
use lay_style::Clear;
use std::marker::Model;
use std::sync::Arc;

/// The boxes of a formatting context, their used sizes, the own boxes of the formatting contexts inside it, the pieces of the
/// anonymous ones among those, what is given of the height of its own box, and the face of texts. The content of lines may
/// be known already.
#[derive(Drop)]
pub struct PlaceInput {
    boxes: ContextBoxes,
    sizes: ContextSizes,
    inner: OwnBoxes,
    pieces: InnerPieces,
    own_height: HeightRule,
    face: Arc<Face>,
    contents: InlineContents,
}

impl Model for PlaceInput {
    ghost use Rattle.lay_line_items.specs.InlineContents.{AreContents};
    ghost use Rattle.lay_flow_boxes.specs.PlaceInputs.{PlaceInput as Plain, PlaceInputFits};

    ghost Value = { Plain };

    ghost view = { λ i.
        record { boxes = i.boxes; sizes = i.sizes; inner = i.inner; pieces = i.pieces; own_height = i.own_height; face = i.face.value } };

    ghost invariant = { λ i.
        PlaceInputFits
        (record {
          boxes = i.boxes;
          sizes = i.sizes;
          inner = i.inner;
          pieces = i.pieces;
          own_height = i.own_height;
          face = i.face.value;
        }) × AreContents i.face.value i.boxes i.contents };
}

impl PlaceInput {
    /// These. What is given of the height of the own box is that of its used sizes.
    pub fn new(
        boxes: ContextBoxes,
        sizes: ContextSizes,
        inner: OwnBoxes,
        pieces: InnerPieces,
        face: Arc<Face>,
    ) -> PlaceInput
        requires { PlaceInputFits
            (record {
              boxes = boxes;
              sizes = sizes;
              inner = inner;
              pieces = pieces;
              own_height = height_rule_of (sizes_at sizes 0);
              face = face.value;
            }) }
        ensures { result
            ≡ record {
              boxes = boxes;
              sizes = sizes;
              inner = inner;
              pieces = pieces;
              own_height = height_rule_of (sizes_at sizes 0);
              face = face.value;
            } }
    {
        let own_height = height_rule_of(own_sizes(&boxes, &sizes));
        PlaceInput {
            boxes,
            sizes,
            inner,
            pieces,
            own_height,
            face,
            contents: InlineContents::none(),
        }
    }

    /// The same, where that is given of the height of the own box, as of a table cell's, which its row stretches.
    pub fn with_own_height(self, own_height: HeightRule) -> PlaceInput
        requires { HeightRuleFits own_height }
        ensures { result ≡ record self { own_height = own_height } }
    {
        PlaceInput { own_height, ..self }
    }

    /// The same, with this content of the lines of its boxes.
    pub fn with_contents(self, contents: InlineContents) -> PlaceInput
        requires { AreContents self.face self.boxes contents }
        ensures { result ≡ self }
    {
        PlaceInput { contents, ..self }
    }

    /// The content of the lines of the box at k, where it is known.
    pub fn segments_at(&self, k: usize) -> Option<&[Segment]>
        ensures { IfSome result (λ s. s.now ≡ segments_in self.now.face self.now.boxes k) }
    {
        self.contents.at(k)
    }

    /// The pieces of the anonymous formatting contexts in it.
    pub fn pieces(&self) -> &InnerPieces
        ensures { result.now ≡ self.now.pieces }
    {
        &self.pieces
    }

    /// What is given of the height of its own box.
    pub fn own_height(&self) -> HeightRule
        ensures { result ≡ self.now.own_height }
    {
        self.own_height
    }

    /// The boxes, with what is known of them.
    pub fn context_boxes(&self) -> &ContextBoxes
        ensures boxes { result.now ≡ self.now.boxes }
        ensures fits { PlaceInputFits self.now }
    {
        &self.boxes
    }

    /// The face of texts.
    pub fn face(&self) -> &Face
        ensures { result.now ≡ self.now.face }
    {
        &self.face
    }

    /// The boxes, in order.
    pub fn boxes(&self) -> &[BoxNode]
        ensures boxes { result.now ≡ self.now.boxes }
        ensures fits { PlaceInputFits self.now }
    {
        self.boxes.as_slice()
    }

    /// Whether the box at k is that of an inner formatting context which floats.
    pub fn is_float(&self, k: usize) -> bool
        requires { k < length self.now.boxes }
        ensures { result ≡ is_float self.now.boxes k }
    {
        self.boxes.is_float(k)
    }

    /// What the box at k is in its formatting context.
    pub fn role(&self, k: usize) -> Role
        requires { k < length self.now.boxes }
        ensures { result ≡ role_at self.now.boxes k }
    {
        self.boxes.role(k)
    }

    /// The place of the nearest block container of the box at k.
    pub fn container(&self, k: usize) -> usize
        requires { k < length self.now.boxes }
        ensures container { result ≡ container_of self.now.boxes k }
        ensures within { result < length self.now.boxes }
        ensures before { 0 < k → result < k }
    {
        self.boxes.container(k)
    }

    /// The sides that the box at k clears.
    pub fn clear(&self, k: usize) -> Clear
        requires { k < length self.now.boxes }
        ensures { result ≡ clear_at self.now.boxes k }
    {
        self.boxes.clear(k)
    }

    /// The used sizes of the boxes.
    pub fn sizes(&self) -> &[BoxSizes]
        ensures { result.now ≡ self.now.sizes }
    {
        self.sizes.as_slice()
    }

    /// The own boxes of inner formatting contexts.
    pub fn inner(&self) -> &[OwnBox]
        ensures { result.now ≡ self.now.inner }
    {
        self.inner.as_slice()
    }
}

/// The used sizes of the own box.
pub fn own_sizes(boxes: &ContextBoxes, sizes: &ContextSizes) -> BoxSizes
    requires { length sizes.now ≡ length boxes.now }
    ensures { result ≡ sizes_at sizes.now 0 }
{
    let _ = boxes.as_slice();
    sizes.as_slice()[0]
}

/// What is given of the height of a box of these used sizes.
pub fn height_rule_of(sizes: BoxSizes) -> HeightRule
    ensures { result ≡ height_rule_of sizes }
{
    HeightRule {
        given: sizes.height,
        min: sizes.min_height,
        max: sizes.max_height,
    }
}
