//! The content of lines, kept.

ghost use Rattle.std.specs.Prelude.{List, ◌≡◌, ◌≤◌, [], length, Some, None, IfOk, IfSome};
ghost use Rattle.lay_doc.specs.Tree.{IsTree};
ghost use Rattle.lay_box_tree.specs.InlineParts.{AreInlineParts};
ghost use Rattle.lay_box_tree.specs.BoxColumns.{box_parents};
ghost use Rattle.lay_box_tree.specs.declared.box_tree.BoxNode.{BoxNode};
ghost use Rattle.lay_face.specs.FaceValue.{FaceValue};
ghost use Rattle.lay_line_items.specs.InlineContents.{AreContents, AreMarkedContents, kept_at};
ghost use Rattle.lay_line_items.specs.InlineSegments.{segments_in};

use crate::container_segments::inline_segments;
use lay_box_tree::{BoxNode, InlinePart, inline_parts};
use lay_face::Face;
use lay_space::{Segment, SegmentList};
use lay_units::NoMemory;
use std::alloc::Global;
use std::marker::Model;
use std::sync::Arc;

/// The most boxes of a context of which content is kept. A document has fewer.
const MOST_BOXES: usize = 4294967295;

/// The content of the lines of some block containers of one context, at the places of their boxes, made once for all who ask
/// for it. Whoever is given it shares it.
#[derive(Drop)]
pub struct InlineContents {
    shared: Option<Arc<KeptSegments>>,
}

/// The segments of a block container at each place of a box, where they are kept.
#[derive(Drop)]
struct KeptSegments {
    lists: Vec<Option<SegmentList>>,
}

impl Model for KeptSegments {
    ghost use Rattle.lay_line_items.specs.InlineContents.{KeptSegments as Plain};

    ghost Value = { Plain };

    ghost view = { λ k. k.lists.items };
}

impl Model for InlineContents {
    ghost use Rattle.lay_line_items.specs.InlineContents.{KeptSegments as Plain, kept_segments_or_none};

    ghost Value = { Plain };

    ghost view = { λ c. kept_segments_or_none c.shared };
}

impl InlineContents {
    /// Nothing is kept.
    pub fn none() -> InlineContents
        ensures { result ≡ [] }
    {
        InlineContents { shared: None }
    }

    /// The content of those of these boxes that are marked, in this face. More than 2^32 boxes are want of memory; no
    /// document has so many.
    pub fn new(
        alloc: Global,
        boxes: &[BoxNode],
        face: &Face,
        marked: &[bool],
    ) -> Result<InlineContents, NoMemory>
        requires tree { IsTree (box_parents boxes.now) }
        requires count { length marked.now ≡ length boxes.now }
        ensures { IfOk result (AreMarkedContents face.now boxes.now marked.now) }
    {
        if boxes.len() > MOST_BOXES {
            return Err(NoMemory);
        }
        let parts = inline_parts(alloc, boxes)?;
        let lists = kept_segments(alloc, boxes, &parts, face, marked)?;
        let shared = Arc::new(alloc, KeptSegments { lists })?;
        Ok(InlineContents {
            shared: Some(shared),
        })
    }

    /// The content of the lines of the box at a place, where it is kept.
    pub fn at(&self, k: usize) -> Option<&[Segment]>
        ensures some { IfSome result (λ s. kept_at self.now k ≡ Some s.now) }
        ensures none { result ≡ None → kept_at self.now k ≡ None }
        ensures content { (face : FaceValue) (boxes : List BoxNode) → AreContents face boxes self.now
            → IfSome result (λ s. s.now ≡ segments_in face boxes k) }
    {
        match &self.shared {
            Some(kept) => kept.at(k),
            None => None,
        }
    }

    /// The content, shared: nothing is copied.
    pub fn share(&self) -> Result<InlineContents, NoMemory>
        ensures { IfOk result (λ c. c ≡ self.now) }
    {
        match &self.shared {
            Some(kept) => Ok(InlineContents {
                shared: Some(kept.clone()?),
            }),
            None => Ok(InlineContents::none()),
        }
    }
}

impl KeptSegments {
    /// What is kept of the box at a place.
    fn at(&self, k: usize) -> Option<&[Segment]>
        ensures some { IfSome result (λ s. kept_at self.now k ≡ Some s.now) }
        ensures none { result ≡ None → kept_at self.now k ≡ None }
    {
        match self.lists.get(k) {
            Some(Some(segments)) => Some(segments.as_slice()),
            Some(None) | None => None,
        }
    }
}

/// The segments of each box that is marked.
fn kept_segments(
    alloc: Global,
    boxes: &[BoxNode],
    parts: &[InlinePart],
    face: &Face,
    marked: &[bool],
) -> Result<Vec<Option<SegmentList>>, NoMemory>
    requires tree { IsTree (box_parents boxes.now) }
    requires parts { AreInlineParts boxes.now parts.now }
    requires few { length boxes.now ≤ 4294967295 }
    requires count { length marked.now ≡ length boxes.now }
    ensures { IfOk result (λ v. AreMarkedContents face.now boxes.now marked.now v.items) }
{
    let mut lists = Vec::with_capacity(alloc, marked.len())?;
    for k in 0..marked.len() {
        let list = if marked[k] {
            Some(inline_segments(alloc, boxes, parts, k, face)?)
        } else {
            None
        };
        lists.push(list)?;
    }
    Ok(lists)
}
