//! Which starts of inline boxes take room (CSS 2.2, 8.3 to 8.6).

ghost use Rattle.std.specs.Prelude.{◌≡◌, ◌<◌, length};
ghost use Rattle.lay_box_tree.specs.InlineParts.{AreInlineParts, is_first_part};
ghost use Rattle.lay_line_items.specs.InlineStarts.{has_left_edge, is_margin, is_padding, takes_room};

use lay_box_tree::{BoxNode, InlinePart};
use lay_style::{LengthPercentage, LengthPercentageOrAuto, Style};
use lay_units::is_nonzero;

/// Whether the start of this inline box, which is that at `place`, takes room in its line.
pub fn takes_room(boxes: &[BoxNode], parts: &[InlinePart], node: &BoxNode, place: usize) -> bool
    requires parts { AreInlineParts boxes.now parts.now }
    requires there { place < length boxes.now }
    ensures { result ≡ takes_room boxes.now place node.now }
{
    is_first(boxes, parts, place) && has_left_edge(&node.style)
}

/// Whether the box at a place is the first part of an inline box.
fn is_first(boxes: &[BoxNode], parts: &[InlinePart], place: usize) -> bool
    requires parts { AreInlineParts boxes.now parts.now }
    requires there { place < length boxes.now }
    ensures { result ≡ is_first_part boxes.now place }
{
    let _ = boxes;
    parts[place].first
}

/// Whether the left margin, border or padding isn't 0.
fn has_left_edge(style: &Style) -> bool
    ensures { result ≡ has_left_edge style.now }
{
    is_margin(style.margin.left)
        || is_nonzero(style.border.width.left.0)
        || is_padding(style.padding.left)
}

fn is_margin(margin: LengthPercentageOrAuto) -> bool
    ensures { result ≡ is_margin margin }
{
    match margin {
        LengthPercentageOrAuto::Auto => false,
        LengthPercentageOrAuto::Length(length) => is_nonzero(length.0),
        LengthPercentageOrAuto::Percent(percent) => is_nonzero(i64::from(percent.0)),
    }
}

fn is_padding(padding: LengthPercentage) -> bool
    ensures { result ≡ is_padding padding }
{
    match padding {
        LengthPercentage::Length(length) => is_nonzero(length.0),
        LengthPercentage::Percent(percent) => is_nonzero(i64::from(percent.0)),
    }
}
