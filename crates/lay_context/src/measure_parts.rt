//! What a formatting context is measured of.

ghost use Rattle.std.specs.Prelude.{◌≡◌};
ghost use Rattle.lay_line_items.specs.InlineContents.{AreContents};

use lay_box_tree::ContextBoxes;
use lay_context_sizes::MeasureInput;
use lay_face::Face;
use lay_line_items::InlineContents;
use lay_measure::PreferredWidths;
use std::marker::Model;
use std::sync::Arc;

/// The boxes of a formatting context, the preferred widths of inner ones at the places of their boxes, and the face of texts, before
/// any content of lines is made.
#[derive(Drop)]
pub struct MeasureParts {
    boxes: ContextBoxes,
    inner: Vec<PreferredWidths>,
    face: Arc<Face>,
}

impl Model for MeasureParts {
    ghost use Rattle.lay_context_sizes.specs.Inputs.{MeasureInput as Plain};

    ghost Value = { Plain };

    ghost view = { λ i. record { boxes = i.boxes; inner = i.inner.items; face = i.face.value } };
}

impl MeasureParts {
    /// These.
    pub fn new(boxes: ContextBoxes, inner: Vec<PreferredWidths>, face: Arc<Face>) -> MeasureParts
        ensures { result ≡ record { boxes = boxes; inner = inner.items; face = face.value } }
    {
        MeasureParts { boxes, inner, face }
    }

    /// The boxes.
    pub fn boxes(&self) -> &ContextBoxes
        ensures { result.now ≡ self.now.boxes }
    {
        &self.boxes
    }

    /// The preferred widths of inner formatting contexts.
    pub fn inner(&self) -> &[PreferredWidths]
        ensures { result.now ≡ self.now.inner }
    {
        self.inner.as_slice()
    }

    /// The face of texts.
    pub fn face(&self) -> &Arc<Face>
        ensures { result.now.value ≡ self.now.face }
    {
        &self.face
    }

    /// What the formatting context is measured of, with this content of the lines of its boxes.
    pub(crate) fn into_input(self, contents: InlineContents) -> MeasureInput
        requires { AreContents self.face self.boxes contents }
        ensures { result ≡ self }
    {
        MeasureInput::new(self.boxes, self.inner, self.face).with_contents(contents)
    }
}
