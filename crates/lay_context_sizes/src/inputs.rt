//! What the preferred widths and the used sizes of a formatting context are worked out of.

ghost use Rattle.std.specs.Prelude.{◌≡◌};
ghost use Rattle.lay_line_items.specs.InlineContents.{AreContents};
ghost use Rattle.lay_box_tree.specs.ContextBoxes.{AreContextBoxes};
ghost use Rattle.lay_box_tree.specs.BoxColumns.{box_at};
ghost use Rattle.lay_context_sizes.specs.Inputs.{SizeInputFits};

use crate::measured_context::MeasuredContext;
use crate::setting::Setting;
use lay_box_tree::{BoxNode, ContextBoxes};
use lay_face::Face;
use lay_line_items::InlineContents;
use lay_measure::PreferredWidths;
use std::marker::Model;
use std::sync::Arc;

/// The boxes of a formatting context, the preferred widths of inner ones at the places of their boxes, and the face of
/// texts. The content of lines may be known already.
#[derive(Drop)]
pub struct MeasureInput {
    boxes: ContextBoxes,
    inner: Vec<PreferredWidths>,
    face: Arc<Face>,
    contents: InlineContents,
}

impl Model for MeasureInput {
    ghost use Rattle.lay_line_items.specs.InlineContents.{AreContents};
    ghost use Rattle.lay_context_sizes.specs.Inputs.{MeasureInput as Plain};

    ghost Value = { Plain };

    ghost view = { λ i. record { boxes = i.boxes; inner = i.inner.items; face = i.face.value } };

    ghost invariant = { λ i. AreContents i.face.value i.boxes i.contents };
}

impl MeasureInput {
    pub fn new(boxes: ContextBoxes, inner: Vec<PreferredWidths>, face: Arc<Face>) -> MeasureInput
        ensures { result ≡ record { boxes = boxes; inner = inner.items; face = face.value } }
    {
        MeasureInput {
            boxes,
            inner,
            face,
            contents: InlineContents::none(),
        }
    }

    /// This input, with this content of the lines of its boxes.
    pub fn with_contents(self, contents: InlineContents) -> MeasureInput
        requires { AreContents self.face self.boxes contents }
        ensures { result ≡ self }
    {
        MeasureInput { contents, ..self }
    }

    pub fn boxes(&self) -> &[BoxNode]
        ensures boxes { result.now ≡ self.now.boxes }
        ensures are { AreContextBoxes self.now.boxes }
    {
        self.boxes.as_slice()
    }

    pub fn inner(&self) -> &[PreferredWidths]
        ensures { result.now ≡ self.now.inner }
    {
        self.inner.as_slice()
    }

    pub fn face(&self) -> &Face
        ensures { result.now ≡ self.now.face }
    {
        &self.face
    }

    /// The content of lines, as far as it is known.
    pub fn contents(&self) -> &InlineContents
        ensures { AreContents self.now.face self.now.boxes result.now }
    {
        &self.contents
    }
}

/// The boxes of a formatting context, its preferred widths with the bounds of a table, and the setting of its own box.
#[derive(Drop)]
pub struct SizeInput {
    boxes: ContextBoxes,
    measured: MeasuredContext,
    setting: Setting,
}

impl Model for SizeInput {
    ghost use Rattle.lay_context_sizes.specs.Inputs.{SizeInput as Plain, SizeInputFits};

    ghost Value = { Plain };

    ghost view = { λ i. record { boxes = i.boxes; measured = i.measured; setting = i.setting } };

    ghost invariant = { λ i. SizeInputFits (record { boxes = i.boxes; measured = i.measured; setting = i.setting }) };
}

impl SizeInput {
    pub fn new(boxes: ContextBoxes, measured: MeasuredContext, setting: Setting) -> SizeInput
        requires { SizeInputFits (record { boxes = boxes; measured = measured; setting = setting }) }
        ensures { result ≡ record { boxes = boxes; measured = measured; setting = setting } }
    {
        SizeInput {
            boxes,
            measured,
            setting,
        }
    }

    /// The boxes, with what is known of them.
    pub fn context_boxes(&self) -> &ContextBoxes
        ensures boxes { result.now ≡ self.now.boxes }
        ensures fits { SizeInputFits self.now }
    {
        &self.boxes
    }

    pub fn boxes(&self) -> &[BoxNode]
        ensures boxes { result.now ≡ self.now.boxes }
        ensures fits { SizeInputFits self.now }
    {
        self.boxes.as_slice()
    }

    /// Its own box.
    pub fn own(&self) -> &BoxNode
        ensures { result.now ≡ box_at self.now.boxes 0 }
    {
        &self.boxes.as_slice()[0]
    }

    /// Its preferred widths, with the bounds of a table.
    pub fn measured(&self) -> &MeasuredContext
        ensures { result.now ≡ self.now.measured }
    {
        &self.measured
    }

    /// The setting of its own box.
    pub fn setting(&self) -> Setting
        ensures setting { result ≡ self.now.setting }
        ensures fits { SizeInputFits self.now }
    {
        self.setting
    }
}
