//! What preferred widths depend on.

ghost use Rattle.std.specs.Prelude.{◌≡◌, IfSome};
ghost use Rattle.lay_box_tree.specs.InlineParts.{AreInlineParts};
ghost use Rattle.lay_line_items.specs.InlineContents.{AreContents};
ghost use Rattle.lay_line_items.specs.InlineSegments.{segments_in};
ghost use Rattle.lay_measure.specs.MeasureInValue.{inner_at, part_at};

use crate::preferred_widths::{NO_WIDTHS, PreferredWidths};
use lay_box_tree::{BoxNode, InlinePart};
use lay_face::Face;
use lay_line_items::InlineContents;
use lay_space::Segment;
use std::marker::Model;

/// The boxes of a context, lent: with which parts of inline boxes they are, the preferred widths of the inner
/// contexts in flow or floating, which stand at the places of their boxes, and the face. A table's wrapper has the
/// widths of its border box there. The content of lines may be known already.
#[derive(Drop)]
pub struct MeasureIn<'a> {
    boxes: &'a [BoxNode],
    parts: &'a [InlinePart],
    inner: &'a [PreferredWidths],
    face: &'a Face,
    contents: Option<&'a InlineContents>,
}

impl<'a> Model for MeasureIn<'a> {
    ghost use Rattle.std.specs.Prelude.{IfSome};
    ghost use Rattle.lay_box_tree.specs.InlineParts.{AreInlineParts};
    ghost use Rattle.lay_line_items.specs.InlineContents.{AreContents};
    ghost use Rattle.lay_measure.specs.MeasureInValue.{MeasureInValue};

    ghost Value = { MeasureInValue };

    ghost view = { λ m. record {
      boxes = m.boxes.now;
      parts = m.parts.now;
      inner = m.inner.now;
      face = m.face.now;
    } };

    ghost invariant = { λ m. AreInlineParts m.boxes.now m.parts.now × IfSome m.contents (λ c. AreContents m.face.now m.boxes.now c.now) };
}

impl<'a> MeasureIn<'a> {
    /// These boxes, parts, widths and face.
    pub fn new(
        boxes: &'a [BoxNode],
        parts: &'a [InlinePart],
        inner: &'a [PreferredWidths],
        face: &'a Face,
    ) -> MeasureIn<'a>
        requires { AreInlineParts boxes.now parts.now }
        ensures { result ≡ record { boxes = boxes.now; parts = parts.now; inner = inner.now; face = face.now } }
    {
        MeasureIn {
            boxes,
            parts,
            inner,
            face,
            contents: None,
        }
    }

    /// The same, with this content of their lines.
    pub fn with_contents(self, contents: &'a InlineContents) -> MeasureIn<'a>
        requires { AreContents self.face self.boxes contents.now }
        ensures { result ≡ self.entry }
    {
        MeasureIn {
            contents: Some(contents),
            ..self
        }
    }

    /// The content of the lines of the box at k, where it is known.
    pub(crate) fn segments_at(&self, k: usize) -> Option<&'a [Segment]>
        ensures { IfSome result (λ s. s.now ≡ segments_in self.now.face self.now.boxes k) }
    {
        match self.contents {
            Some(contents) => contents.at(k),
            None => None,
        }
    }

    pub(crate) fn boxes(&self) -> &'a [BoxNode]
        ensures { result.now ≡ self.now.boxes }
    {
        self.boxes
    }

    /// Which parts of inline boxes they are.
    pub(crate) fn parts(&self) -> &'a [InlinePart]
        ensures { AreInlineParts self.now.boxes result.now }
    {
        self.parts
    }

    pub(crate) fn face(&self) -> &'a Face
        ensures { result.now ≡ self.now.face }
    {
        self.face
    }

    /// Which part of an inline box the box at k is.
    pub(crate) fn part_at(&self, k: usize) -> InlinePart
        ensures { result ≡ part_at self.now k }
    {
        match self.parts.get(k) {
            Some(part) => *part,
            None => InlinePart {
                first: false,
                last: false,
            },
        }
    }

    /// The preferred widths of the inner context at k.
    pub(crate) fn inner_at(&self, k: usize) -> PreferredWidths
        ensures { result ≡ inner_at self.now k }
    {
        match self.inner.get(k) {
            Some(widths) => *widths,
            None => NO_WIDTHS,
        }
    }
}
