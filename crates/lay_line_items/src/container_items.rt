//! The inline content of a block container.

ghost use Rattle.std.specs.Prelude.{ℕ, ◌≡◌, ◌<◌, ◌≤◌, [], length, drop, reverse, IfOk};
ghost use Rattle.lay_doc.specs.Tree.{IsTree};
ghost use Rattle.lay_box_tree.specs.InlineParts.{AreInlineParts};
ghost use Rattle.lay_box_tree.specs.BoxColumns.{box_parents};
ghost use Rattle.lay_line_items.specs.InlineItems.{items_below, items_of};
ghost use Rattle.lay_line_items.specs.OpenBoxes.{Fall, all_items};

use crate::open_boxes::OpenBoxes;
use lay_box_tree::{BoxNode, InlinePart};
use lay_space::ItemList;
use lay_units::NoMemory;
use std::alloc::Global;

/// What stands in the lines of the block container at a place of a context's boxes, which are these parts of inline boxes,
/// in the order of the box tree (CSS 2.2, 9.2.2, 9.4.2 and 9.5). Each item is named by the place of its box.
pub fn inline_items(
    alloc: Global,
    boxes: &[BoxNode],
    parts: &[InlinePart],
    container: usize,
) -> Result<ItemList, NoMemory>
    requires tree { IsTree (box_parents boxes.now) }
    requires parts { AreInlineParts boxes.now parts.now }
    requires few { length boxes.now ≤ 4294967295 }
    requires there { container < length boxes.now }
    ensures { IfOk result (λ l. l ≡ items_of boxes.now container) }
{
    let mut below = OpenBoxes {
        items: Vec::new(alloc),
        inlines: Vec::new(alloc),
        container: container as u32,
    };
    for place in container + 1..boxes.len() {
        if boxes[place].parent < below.container {
            return all_items(below, boxes, place);
        }
        below.put(alloc, boxes, parts, place as u32)?;
    }
    all_items(below, boxes, boxes.len())
}

/// The items where no box from `place` on is below the container.
fn all_items(below: OpenBoxes, boxes: &[BoxNode], place: usize) -> Result<ItemList, NoMemory>
    requires over { (q : ℕ) → below.container ≤ q → q < place → items_below boxes.now q place (drop place boxes.now) ≡ [] }
    requires order { Fall below.container (reverse below.inlines.items) place }
    requires few { place ≤ 4294967295 }
    ensures { IfOk result (λ l. l ≡ all_items boxes.now below.container below.items.items (reverse below.inlines.items) place) }
{
    let mut below = below;
    let container = below.container;
    below.close_to(boxes, place as u32, container)?;
    Ok(ItemList::new(below.items))
}
