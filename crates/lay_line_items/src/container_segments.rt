//! The segments of a block container.

ghost use Rattle.std.specs.Prelude.{◌≡◌, ◌<◌, ◌≤◌, length, IfOk};
ghost use Rattle.lay_doc.specs.Tree.{IsTree};
ghost use Rattle.lay_box_tree.specs.InlineParts.{AreInlineParts};
ghost use Rattle.lay_box_tree.specs.BoxColumns.{box_parents};
ghost use Rattle.lay_line_items.specs.InlineSegments.{items_in, segments_in};

use crate::container_items::inline_items;
use crate::measured::measured;
use crate::one_text::one_text;
use lay_box_tree::{BoxNode, InlinePart};
use lay_face::Face;
use lay_space::{ItemList, SegmentList, process, segments};
use lay_units::NoMemory;
use std::alloc::Global;

/// The content of the lines of the block container at a place of a context's boxes, which are these parts of inline boxes,
/// as white space processing leaves it and cut where lines may break, with the widths of its texts in 1/64 px (CSS 2.2,
/// 9.4.2, 16.4 and 16.6). Each item is named by the place of its box. A text of more than 2^20 bytes is want of memory; no
/// document has one.
pub fn inline_segments(
    alloc: Global,
    boxes: &[BoxNode],
    parts: &[InlinePart],
    container: usize,
    face: &Face,
) -> Result<SegmentList, NoMemory>
    requires tree { IsTree (box_parents boxes.now) }
    requires parts { AreInlineParts boxes.now parts.now }
    requires few { length boxes.now ≤ 4294967295 }
    requires there { container < length boxes.now }
    ensures { IfOk result (λ l. l ≡ segments_in face.now boxes.now container) }
{
    let items = measured_items(alloc, boxes, parts, container, face)?;
    segments(alloc, items.as_slice())
}

/// The items of a container with the widths of their texts, before they are cut into segments.
pub fn measured_items(
    alloc: Global,
    boxes: &[BoxNode],
    parts: &[InlinePart],
    container: usize,
    face: &Face,
) -> Result<ItemList, NoMemory>
    requires tree { IsTree (box_parents boxes.now) }
    requires parts { AreInlineParts boxes.now parts.now }
    requires few { length boxes.now ≤ 4294967295 }
    requires there { container < length boxes.now }
    ensures { IfOk result (λ l. l ≡ items_in face.now boxes.now container) }
{
    if let Some(text) = one_text(alloc, boxes, container, face)? {
        return Ok(ItemList::one(text));
    }
    let items = inline_items(alloc, boxes, parts, container)?;
    let left = process(alloc, items.as_slice())?;
    measured(alloc, face, boxes, left.as_slice())
}
