//! Items that have nothing inside.

ghost use Rattle.std.specs.Prelude.{◌≡◌, ◌<◌, ◌++◌, [], length, List, false, IfOk, OnOk};
ghost use Rattle.lay_box_tree.specs.Roles.{role_of};
ghost use Rattle.lay_space.specs.declared.item.Item.{Item};
ghost use Rattle.lay_space.specs.declared.item.Item.TheVariants as item;
ghost use Rattle.lay_line_items.specs.InlineItems.{items_at, mode_at, mode_of, text_of};
ghost use Rattle.lay_line_items.specs.OpenBoxes.{is_inline};

use crate::modes::mode_of;
use crate::open_boxes::push_item;
use lay_box_tree::{BoxKind, BoxNode, Role};
use lay_space::{Item, Mode};
use lay_units::{NoMemory, Text, WidthList};
use std::alloc::Global;

/// Puts what a box gives that is no inline box.
pub fn put_leaf(
    alloc: Global,
    items: &mut Vec<Item>,
    boxes: &[BoxNode],
    node: &BoxNode,
    place: u32,
) -> Result<(), NoMemory>
    requires parent { node.now.parent < length boxes.now }
    requires leaf { is_inline (role_of node.now) ≡ false }
    ensures { OnOk result ((inside : List Item) → items.new.items
        ≡ items.old.items ++ items_at boxes.now place node.now inside) }
{
    let item = match node.role() {
        Role::Text => text_item(alloc, node, place)?,
        Role::Atomic => Item::Atomic(place, mode_at(boxes, node.parent as usize)),
        Role::LeftFloat | Role::RightFloat => Item::Float(place),
        Role::Anchor => Item::Anchor(place),
        Role::Own | Role::Block | Role::Inline | Role::Solid | Role::TablePart => return Ok(()),
    };
    push_item(items, item)
}

/// The text of a box.
fn text_item(alloc: Global, node: &BoxNode, place: u32) -> Result<Item, NoMemory>
    ensures { IfOk result (λ i. i ≡ item.Text place (text_of node.now.kind) (mode_of node.now.style.text.white_space) []) }
{
    let text = match &node.kind {
        BoxKind::Text(text) => text.copy(alloc)?,
        _ => Text::new(String::new(alloc)),
    };
    Ok(Item::Text {
        node: place,
        text,
        mode: mode_of(node.style.text.white_space),
        widths: WidthList::new(Vec::new(alloc)),
    })
}

/// `white-space` of the box at a place.
fn mode_at(boxes: &[BoxNode], place: usize) -> Mode
    requires { place < length boxes.now }
    ensures { result ≡ mode_at boxes.now place }
{
    mode_of(boxes[place].style.text.white_space)
}
