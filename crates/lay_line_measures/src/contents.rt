//! The content of the lines of a container.

ghost use Rattle.std.specs.Prelude.{◌≡◌, pos, ◌*ℤ◌, slice_get, None, IfOk, IfSome};
ghost use Rattle.lay_face.specs.Faces.{entry_of, thousandths_of};
ghost use Rattle.lay_space.specs.Segments.{segments_of};
ghost use Rattle.lay_lines.specs.Content.LineContents.{IsLineContent, IsTabDistance};
ghost use Rattle.lay_line_measures.specs.Contents.{content_in, content_with, indent_in, tab_in, used_indent};
ghost use Rattle.lay_line_measures.specs.LineHeights.{used_font_size};

use crate::box_measures::BoxMeasures;
use crate::container::Container;
use crate::inline_boxes::extent_at;
use crate::line_heights::font_size;
use crate::stretches::stretches_of;
use crate::text_stretches::stretches_of_items;
use lay_box_tree::BoxNode;
use lay_face::Face;
use lay_lines::content::{LineContent, Stretch, StretchList};
use lay_space::{Item, Segment};
use lay_style::{LengthPercentage, TextStyle};
use lay_units::{NoMemory, Unit, clamp, percent_of};
use std::alloc::Global;

/// The content of the lines of a container that has these segments, measured (CSS 2.2, 9.4.2, 10.8.1, 16.1 and 16.6.1);
/// None where it isn't within the bounds of a `LineContent`.
pub fn line_content(
    alloc: Global,
    measures: &BoxMeasures<'_>,
    container: Container,
    segments: &[Segment],
) -> Result<Option<LineContent>, NoMemory>
    ensures some { IfOk result (λ o. IfSome o (λ c. c ≡ content_in measures.now container segments.now)) }
    ensures fits { IfOk result (λ o. IfSome o IsLineContent) }
    ensures none { IfOk result (λ o. o ≡ None → IsLineContent (content_in measures.now container segments.now) → ⊥) }
{
    let stretches = stretches_of(alloc, measures, container, segments)?;
    Ok(content_with(measures, container, stretches))
}

/// The content of the lines of a container that has these items, as white space processing left them, with the widths of their texts.
pub fn line_content_of_items(
    alloc: Global,
    measures: &BoxMeasures<'_>,
    container: Container,
    items: &[Item],
) -> Result<Option<LineContent>, NoMemory>
    ensures some { IfOk result (λ o. IfSome o (λ c. c ≡ content_in measures.now container (segments_of items.now))) }
    ensures fits { IfOk result (λ o. IfSome o IsLineContent) }
    ensures none { IfOk result (λ o. o ≡ None → IsLineContent (content_in measures.now container (segments_of items.now)) → ⊥) }
{
    let stretches = stretches_of_items(alloc, measures, container, items)?;
    Ok(content_with(measures, container, stretches))
}

fn content_with(
    measures: &BoxMeasures<'_>,
    container: Container,
    stretches: Vec<Stretch>,
) -> Option<LineContent>
    ensures some { IfSome result (λ c. c ≡ content_with measures.now container stretches.items) }
    ensures fits { IfSome result IsLineContent }
    ensures none { result ≡ None → IsLineContent (content_with measures.now container stretches.items) → ⊥ }
{
    let tab = tab_at(measures, container.place)?;
    let strut = extent_at(measures, container.place);
    let indent = indent_at(measures.boxes(), container);
    LineContent::new(strut, indent, tab, StretchList::new(stretches))
}

/// `text-indent` of a container.
fn indent_at(boxes: &[BoxNode], container: Container) -> Unit
    ensures { result ≡ indent_in container.containing (slice_get boxes.now container.place) }
{
    match boxes.get(container.place) {
        Some(node) => used_indent(container.containing, node.style.text.text_indent),
        None => Unit(0),
    }
}

fn used_indent(containing: Unit, indent: LengthPercentage) -> Unit
    ensures { result ≡ used_indent containing indent }
{
    match indent {
        LengthPercentage::Length(length) => clamp(i128::from(length.0)),
        LengthPercentage::Percent(percent) => percent_of(percent, containing),
    }
}

/// The distance of the tab stops of a container, where it is within its bounds.
fn tab_at(measures: &BoxMeasures<'_>, place: usize) -> Option<Unit>
    ensures some { IfSome result (λ t. t.0 ≡ tab_in measures.now.face (slice_get measures.now.boxes place)) }
    ensures none { result ≡ None → IsTabDistance (tab_in measures.now.face (slice_get measures.now.boxes place)) → ⊥ }
{
    match measures.boxes().get(place) {
        Some(node) => tab_of(measures.face(), &node.style.text),
        None => Some(Unit(0)),
    }
}

/// The greatest distance of tab stops.
const MOST_TAB: i64 = 1 << 45;

/// Eight times the width of a space, where that is within its bounds.
fn tab_of(face: &Face, style: &TextStyle) -> Option<Unit>
    ensures some { IfSome result (λ t. t.0 ≡ pos 8 *ℤ thousandths_of (entry_of face.now 32) (used_font_size style.now)) }
    ensures none { result ≡ None → IsTabDistance (pos 8 *ℤ thousandths_of (entry_of face.now 32) (used_font_size style.now)) → ⊥ }
{
    let size = font_size(style);
    face.fits_at(size);
    let space = face.advance(' ', size);
    if space.0 > MOST_TAB || space.0 < -MOST_TAB {
        return None;
    }
    Some(Unit(8 * space.0))
}
