//! Containers that hold one text.

ghost use Rattle.std.specs.Prelude.{◌≡◌, ◌<◌, ◌≤◌, ◌∷◌, [], length, drop, true, false, Some, IfOk, IfSome};
ghost use Rattle.lay_doc.specs.Tree.{IsTree};
ghost use Rattle.lay_box_tree.specs.BoxColumns.{box_parents};
ghost use Rattle.lay_box_tree.specs.Roles.{role_of};
ghost use Rattle.lay_box_tree.specs.declared.box_role.Role.TheVariants as role;
ghost use Rattle.lay_space.specs.WhiteSpace.{text_left};
ghost use Rattle.lay_line_items.specs.InlineItems.{items_below, mode_of};
ghost use Rattle.lay_line_items.specs.InlineSegments.{items_in, widths_in};

use crate::measured::{clean_widths, text_widths};
use crate::modes::mode_of;
use lay_box_tree::{BoxKind, BoxNode, Role};
use lay_face::Face;
use lay_space::Item;
use lay_units::{NoMemory, WidthList};
use std::alloc::Global;

/// The text of a container that holds it alone, with its widths, where white space processing leaves it as it is. None also
/// where that isn't seen at a look.
pub fn one_text(
    alloc: Global,
    boxes: &[BoxNode],
    container: usize,
    face: &Face,
) -> Result<Option<Item>, NoMemory>
    requires tree { IsTree (box_parents boxes.now) }
    requires few { length boxes.now ≤ 4294967295 }
    requires there { container < length boxes.now }
    ensures { IfOk result (λ o. IfSome o (λ i. items_in face.now boxes.now container ≡ i ∷ [])) }
{
    let place = container + 1;
    if place >= boxes.len() || !ends_before(boxes, container, place + 1) {
        return Ok(None);
    }
    let node = &boxes[place];
    let mode = mode_of(node.style.text.white_space);
    let BoxKind::Text(text) = &node.kind else {
        return Ok(None);
    };
    if !is_text_in(node, container) {
        return Ok(None);
    }
    let found = widths_if_it_stays(alloc, face, node, text.as_str())?;
    let Some(widths) = found else {
        return Ok(None);
    };
    Ok(Some(Item::Text {
        node: place as u32,
        text: text.copy(alloc)?,
        mode,
        widths,
    }))
}

/// Whether no box from `place` on is in the container.
fn ends_before(boxes: &[BoxNode], container: usize, place: usize) -> bool
    requires tree { IsTree (box_parents boxes.now) }
    requires behind { container < place }
    ensures { result ≡ true → items_below boxes.now container place (drop place boxes.now) ≡ [] }
{
    place >= boxes.len() || (boxes[place].parent as usize) < container
}

fn is_text_in(node: &BoxNode, container: usize) -> bool
    ensures parent { result ≡ true → node.now.parent ≡ container }
    ensures role { result ≡ true → role_of node.now ≡ role.Text }
{
    match node.role() {
        Role::Text => node.parent as usize == container,
        _ => false,
    }
}

/// The widths of a text of this box, where a look says that white space processing leaves it as it is.
fn widths_if_it_stays(
    alloc: Global,
    face: &Face,
    node: &BoxNode,
    text: &str,
) -> Result<Option<WidthList>, NoMemory>
    ensures stays { IfOk result (λ o. IfSome o (λ l. text_left false (mode_of node.now.style.text.white_space) text.now ≡ text.now)) }
    ensures widths { IfOk result (λ o. IfSome o (λ l. l ≡ widths_in face.now (Some node.now) text.now)) }
{
    let style = &node.style.text;
    if mode_of(style.white_space).collapses() {
        let widths = clean_widths(alloc, face, style, text)?;
        return Ok(widths);
    }
    Ok(Some(text_widths(alloc, face, style, text)?))
}
