//! The white space of inline content.

ghost use Rattle.std.specs.Prelude.{◌≡◌, [], ◌∷◌, ◌++◌, false, string_bytes, IfOk, OnOk};
ghost use Rattle.lay_space.specs.declared.item.Item.TheVariants as item;
ghost use Rattle.lay_space.specs.WhiteSpace.{text_left, space_after, processed};

use crate::collapsing::{Left, collapsed};
use crate::item::{Item, ItemList, Mode};
use lay_units::{NoMemory, Text, WidthList};
use std::alloc::Global;

/// The inline content of a block container as white space processing leaves it (CSS 2.2, 16.6.1). The
/// lists of widths are empty in it.
pub fn process(alloc: Global, items: &[Item]) -> Result<ItemList, NoMemory>
    ensures { IfOk result (λ l. l ≡ processed false items.now) }
{
    let mut out = Vec::with_capacity(alloc, items.len())?;
    let mut after_space = false;
    for k in 0..items.len() {
        after_space = put_processed(alloc, &mut out, &items[k], &items[k + 1..], after_space)?;
    }
    Ok(ItemList::new(out))
}

/// Puts what is left of one item, and says whether what follows stands after a collapsible space.
fn put_processed(
    alloc: Global,
    out: &mut Vec<Item>,
    item: &Item,
    rest: &[Item],
    after_space: bool,
) -> Result<bool, NoMemory>
    ensures { IfOk result (λ space. out.old.items ++ processed after_space (item.now ∷ rest.now)
        ≡ out.new.items ++ processed space rest.now) }
{
    let _ = rest;
    let (copy, space) = match item {
        Item::Text {
            node,
            text,
            mode,
            ..
        } => processed_text(alloc, *node, text.as_str(), *mode, after_space)?,
        Item::Atomic(node, mode) => (Item::Atomic(*node, *mode), false),
        Item::Start(node, takes_room) => (Item::Start(*node, *takes_room), after_space),
        Item::End(node) => (Item::End(*node), after_space),
        Item::Float(node) => (Item::Float(*node), after_space),
        Item::Anchor(node) => (Item::Anchor(*node), after_space),
    };
    push_item(out, copy)?;
    Ok(space)
}

/// What is left of a text, and whether what follows stands after a collapsible space.
fn processed_text(
    alloc: Global,
    node: u32,
    text: &str,
    mode: Mode,
    after_space: bool,
) -> Result<(Item, bool), NoMemory>
    ensures item { IfOk result (λ r. r.0 ≡ item.Text node (text_left after_space mode text.now) mode []) }
    ensures space { IfOk result (λ r. r.1 ≡ space_after after_space mode text.now) }
{
    let left = left_of(alloc, mode, text, after_space)?;
    let item = Item::Text {
        node,
        text: Text::new(left.text),
        mode,
        widths: WidthList::new(Vec::new(alloc)),
    };
    Ok((item, left.after_space))
}

fn left_of(alloc: Global, mode: Mode, text: &str, after_space: bool) -> Result<Left, NoMemory>
    ensures text { IfOk result (λ l. string_bytes l.text ≡ text_left after_space mode text.now) }
    ensures space { IfOk result (λ l. l.after_space ≡ space_after after_space mode text.now) }
{
    if mode.collapses() {
        return collapsed(alloc, mode, text, after_space);
    }
    Ok(Left {
        text: String::from_str(alloc, text)?,
        after_space: after_space && text.is_empty(),
    })
}

pub fn push_item(out: &mut Vec<Item>, item: Item) -> Result<(), NoMemory>
    ensures { OnOk result (out.new.items ≡ out.old.items ++ item ∷ []) }
{
    out.push(item)?;
    Ok(())
}
