//! The inline boxes that are open at a place of a context's boxes.

ghost use Rattle.std.specs.Prelude.{ℕ, ◌≡◌, ◌<◌, ◌≤◌, ◌+◌, ◌∷◌, ◌++◌, [], length, drop, reverse, Some, IfOk, OnOk};
ghost use Rattle.lay_doc.specs.Tree.{IsTree};
ghost use Rattle.lay_box_tree.specs.InlineParts.{AreInlineParts};
ghost use Rattle.lay_box_tree.specs.BoxColumns.{box_parents};
ghost use Rattle.lay_box_tree.specs.Containers.{box_parent};
ghost use Rattle.lay_space.specs.declared.item.Item.TheVariants as item;
ghost use Rattle.lay_line_items.specs.InlineItems.{items_below};
ghost use Rattle.lay_box_tree.specs.Roles.{role_of};
ghost use Rattle.lay_line_items.specs.OpenBoxes.{Fall, all_items, innermost, is_inline};

use crate::inline_starts::takes_room;
use crate::leaves::put_leaf;
use lay_box_tree::{BoxNode, InlinePart, Role};
use lay_space::Item;
use lay_units::NoMemory;
use std::alloc::Global;

/// The items of a container so far, and the places of its inline boxes that are open, outermost first.
#[derive(Drop)]
pub struct OpenBoxes {
    pub items: Vec<Item>,
    pub inlines: Vec<u32>,
    pub container: u32,
}

impl OpenBoxes {
    /// Puts what the box at a place gives by itself, behind the ends of the boxes that are over.
    pub fn put(
        &mut self,
        alloc: Global,
        boxes: &[BoxNode],
        parts: &[InlinePart],
        place: u32,
    ) -> Result<(), NoMemory>
        requires tree { IsTree (box_parents boxes.now) }
        requires parts { AreInlineParts boxes.now parts.now }
        requires there { place < length boxes.now }
        requires below { self.old.container ≤ box_parent boxes.now place }
        requires order { Fall self.old.container (reverse self.old.inlines.items) place }
        ensures items { OnOk result (all_items boxes.now self.old.container self.old.items.items (reverse self.old.inlines.items) place
            ≡ all_items boxes.now self.new.container self.new.items.items (reverse self.new.inlines.items) (place + 1)) }
        ensures order { OnOk result (Fall self.new.container (reverse self.new.inlines.items) (place + 1)) }
        ensures container { self.new.container ≡ self.old.container }
    {
        let node = &boxes[place as usize];
        let innermost = self.close_to(boxes, place, node.parent)?;
        if innermost != node.parent {
            return Ok(());
        }
        if is_inline(node) {
            let takes_room = takes_room(boxes, parts, node, place as usize);
            self.begin(place, takes_room)?;
            return Ok(());
        }
        put_leaf(alloc, &mut self.items, boxes, node, place)?;
        Ok(())
    }

    /// Ends the open boxes that stand behind the box at `parent`, in which no box from `place` on is, and says which
    /// box is open innermost then.
    pub fn close_to(&mut self, boxes: &[BoxNode], place: u32, parent: u32) -> Result<u32, NoMemory>
        requires over { (q : ℕ) → parent < q → q < place → items_below boxes.now q place (drop place boxes.now) ≡ [] }
        requires below { self.old.container ≤ parent }
        requires order { Fall self.old.container (reverse self.old.inlines.items) place }
        ensures items { OnOk result (all_items boxes.now self.old.container self.old.items.items (reverse self.old.inlines.items) place
            ≡ all_items boxes.now self.new.container self.new.items.items (reverse self.new.inlines.items) place) }
        ensures order { OnOk result (Fall self.new.container (reverse self.new.inlines.items) (parent + 1)) }
        ensures innermost { IfOk result (λ q. q ≡ innermost self.new.container (reverse self.new.inlines.items)) }
        ensures container { self.new.container ≡ self.old.container }
    {
        let _ = boxes;
        let _ = place;
        while let Some(top) = self.inlines.pop() {
            if top <= parent {
                self.inlines.push(top)?;
                return Ok(top);
            }
            push_item(&mut self.items, Item::End(top))?;
        }
        Ok(self.container)
    }

    /// Begins the inline box at a place.
    fn begin(&mut self, place: u32, takes_room: bool) -> Result<(), NoMemory>
        ensures items { OnOk result (self.new.items.items ≡ self.old.items.items ++ item.Start place takes_room ∷ []) }
        ensures inlines { OnOk result (reverse self.new.inlines.items ≡ place ∷ reverse self.old.inlines.items) }
        ensures container { self.new.container ≡ self.old.container }
    {
        push_item(&mut self.items, Item::Start(place, takes_room))?;
        self.inlines.push(place)?;
        Ok(())
    }
}

fn is_inline(node: &BoxNode) -> bool
    ensures { result ≡ is_inline (role_of node.now) }
{
    match node.role() {
        Role::Inline => true,
        _ => false,
    }
}

/// Puts an item behind these.
pub fn push_item(items: &mut Vec<Item>, item: Item) -> Result<(), NoMemory>
    ensures { OnOk result (items.new.items ≡ items.old.items ++ item ∷ []) }
{
    items.push(item)?;
    Ok(())
}
