//! Texts with the widths of their clusters.

ghost use Rattle.std.specs.Prelude.{◌≡◌, false, slice_get, IfOk, IfSome};
ghost use Rattle.lay_style.specs.LengthValues.{length_of, size_of};
ghost use Rattle.lay_face.specs.Clusters.{IsUsedSetting, widths_of};
ghost use Rattle.lay_space.specs.CleanTexts.{IsClean};
ghost use Rattle.lay_line_items.specs.GatheredWidths.{gathered};
ghost use Rattle.lay_line_items.specs.InlineSegments.{measured, measured_item, setting_of_text, widths_in};

use crate::gathered::gathered;
use crate::open_boxes::push_item;
use crate::plain_texts::{clean_gathered, plain_gathered};
use lay_box_tree::BoxNode;
use lay_face::{Face, Setting, is_plain};
use lay_space::{Item, ItemList};
use lay_style::{TextStyle, length_of, size_of};
use lay_units::{MOST_TEXT, NoMemory, WidthList};
use std::alloc::Global;

/// These items, each text with the widths of its clusters in the style of its box.
pub fn measured(
    alloc: Global,
    face: &Face,
    boxes: &[BoxNode],
    items: &[Item],
) -> Result<ItemList, NoMemory>
    ensures { IfOk result (λ l. l ≡ measured face.now boxes.now items.now) }
{
    let mut out = Vec::with_capacity(alloc, items.len())?;
    for k in 0..items.len() {
        let item = measured_item(alloc, face, boxes, &items[k])?;
        push_item(&mut out, item)?;
    }
    Ok(ItemList::new(out))
}

fn measured_item(
    alloc: Global,
    face: &Face,
    boxes: &[BoxNode],
    item: &Item,
) -> Result<Item, NoMemory>
    ensures { IfOk result (λ i. i ≡ measured_item face.now boxes.now item.now) }
{
    Ok(match item {
        Item::Text {
            node,
            text,
            mode,
            ..
        } => Item::Text {
            node: *node,
            text: text.copy(alloc)?,
            mode: *mode,
            widths: widths_at(alloc, face, boxes, *node, text.as_str())?,
        },
        Item::Atomic(node, mode) => Item::Atomic(*node, *mode),
        Item::Start(node, takes_room) => Item::Start(*node, *takes_room),
        Item::End(node) => Item::End(*node),
        Item::Float(node) => Item::Float(*node),
        Item::Anchor(node) => Item::Anchor(*node),
    })
}

/// The widths of the words and spaces of a text of the box at a place, and none where no box is there.
fn widths_at(
    alloc: Global,
    face: &Face,
    boxes: &[BoxNode],
    place: u32,
    text: &str,
) -> Result<WidthList, NoMemory>
    ensures { IfOk result (λ l. l ≡ widths_in face.now (slice_get boxes.now place) text.now) }
{
    match boxes.get(place as usize) {
        Some(node) => text_widths(alloc, face, &node.style.text, text),
        None => Ok(WidthList::new(Vec::new(alloc))),
    }
}

/// The widths of the words and spaces of a text in a style. No document has a text of more than 2^20 bytes; for one
/// there would be no memory.
pub fn text_widths(
    alloc: Global,
    face: &Face,
    style: &TextStyle,
    text: &str,
) -> Result<WidthList, NoMemory>
    ensures { IfOk result (λ l. l ≡ gathered text.now (widths_of face.now (setting_of_text style.now) text.now)) }
{
    if text.len() > MOST_TEXT {
        return Err(NoMemory);
    }
    let set = setting_of(style);
    let bytes = text.as_bytes();
    if is_plain(bytes) {
        return plain_gathered(alloc, face, set, bytes);
    }
    face.widths_fit(text, set.size, set.letter, set.word);
    let widths = face.cluster_widths(alloc, text, set.size, set.letter, set.word)?;
    gathered(alloc, bytes, widths.as_slice())
}

/// The widths of a text, where a look at its characters says that white space processing leaves it as it is.
pub fn clean_widths(
    alloc: Global,
    face: &Face,
    style: &TextStyle,
    text: &str,
) -> Result<Option<WidthList>, NoMemory>
    ensures { IfOk result
        (λ o. IfSome o (λ l. IsClean false text.now × (l ≡ gathered text.now (widths_of face.now (setting_of_text style.now) text.now)))) }
{
    if text.len() > MOST_TEXT {
        return Ok(None);
    }
    clean_gathered(alloc, face, setting_of(style), text.as_bytes())
}

fn setting_of(style: &TextStyle) -> Setting
    ensures value { result ≡ setting_of_text style.now }
    ensures used { IsUsedSetting result }
{
    Setting {
        size: size_of(style.font_size),
        letter: length_of(style.letter_spacing),
        word: length_of(style.word_spacing),
    }
}
