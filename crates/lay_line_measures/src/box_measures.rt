//! What the content of lines is measured by.

ghost use Rattle.std.specs.Prelude.{◌≡◌};
ghost use Rattle.lay_sizes.specs.OwnBoxes.{OwnBoxFits, own_box_at};
ghost use Rattle.lay_sizes.specs.SizeBounds.{SizeFits};
ghost use Rattle.lay_sizes.specs.SizeColumns.{sizes_at};
ghost use Rattle.lay_line_measures.specs.BoxMeasuresValue.{MeasuresFit, part_at};

use lay_box_tree::{BoxNode, InlinePart};
use lay_face::Face;
use lay_sizes::{BoxSizes, NO_OWN_BOX, NO_SIZES, OwnBox};
use std::marker::Model;

/// The boxes of a context with what they measure, lent: which parts of inline boxes they are, their used sizes, the boxes
/// of inner contexts from outside, and the face.
#[derive(Drop)]
pub struct BoxMeasures<'a> {
    boxes: &'a [BoxNode],
    parts: &'a [InlinePart],
    sizes: &'a [BoxSizes],
    inner: &'a [OwnBox],
    face: &'a Face,
}

impl<'a> Model for BoxMeasures<'a> {
    ghost use Rattle.lay_line_measures.specs.BoxMeasuresValue.{BoxMeasuresValue, MeasuresFit};

    ghost Value = { BoxMeasuresValue };

    ghost view = { λ m. record {
      boxes = m.boxes.now;
      parts = m.parts.now;
      sizes = m.sizes.now;
      inner = m.inner.now;
      face = m.face.now;
    } };

    ghost invariant = { λ m. MeasuresFit (record {
      boxes = m.boxes.now;
      parts = m.parts.now;
      sizes = m.sizes.now;
      inner = m.inner.now;
      face = m.face.now;
    }) };
}

impl<'a> BoxMeasures<'a> {
    /// The measures of these boxes.
    pub fn new(
        boxes: &'a [BoxNode],
        parts: &'a [InlinePart],
        sizes: &'a [BoxSizes],
        inner: &'a [OwnBox],
        face: &'a Face,
    ) -> BoxMeasures<'a>
        requires { MeasuresFit (record { boxes = boxes.now; parts = parts.now; sizes = sizes.now; inner = inner.now; face = face.now }) }
        ensures { result ≡ record { boxes = boxes.now; parts = parts.now; sizes = sizes.now; inner = inner.now; face = face.now } }
    {
        BoxMeasures {
            boxes,
            parts,
            sizes,
            inner,
            face,
        }
    }

    pub(crate) fn boxes(&self) -> &'a [BoxNode]
        ensures { result.now ≡ self.now.boxes }
    {
        self.boxes
    }

    pub(crate) fn face(&self) -> &'a Face
        ensures { result.now ≡ self.now.face }
    {
        self.face
    }

    /// Which part of an inline box the box at k is.
    pub(crate) fn part_at(&self, k: usize) -> InlinePart
        ensures { result ≡ part_at self.now k }
    {
        match self.parts.get(k) {
            Some(part) => *part,
            None => InlinePart {
                first: false,
                last: false,
            },
        }
    }

    /// The used sizes of the box at k.
    pub(crate) fn sizes_at(&self, k: usize) -> BoxSizes
        ensures value { result ≡ sizes_at self.now.sizes k }
        ensures fits { SizeFits result }
    {
        match self.sizes.get(k) {
            Some(sizes) => *sizes,
            None => NO_SIZES,
        }
    }

    /// The box at k from outside, where it is that of an inner context.
    pub(crate) fn own_box_at(&self, k: usize) -> OwnBox
        ensures value { result ≡ own_box_at self.now.inner k }
        ensures fits { OwnBoxFits result }
    {
        match self.inner.get(k) {
            Some(own) => *own,
            None => NO_OWN_BOX,
        }
    }
}
