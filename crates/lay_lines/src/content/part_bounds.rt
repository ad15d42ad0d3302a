//! Whether inline boxes and atomic boxes are within their bounds.

ghost use Rattle.std.specs.Prelude.{◌≡◌, ◌↔◌, ◌^◌, pos, IsTrue, All};
ghost use Rattle.lay_floats.specs.Within.{IsWithin};
ghost use Rattle.lay_valign.specs.PartsFit.{length_of};
ghost use Rattle.lay_lines.specs.Content.Extents.{height_of};
ghost use Rattle.lay_lines.specs.Content.LineContents.{ExtentWithin, PartWithin, ShiftWithin};

use crate::content::content::Part;
use crate::content::frame::Extent;
use lay_units::Unit;
use lay_valign::Shift;

pub fn are_parts_within(parts: &[Part]) -> bool
    ensures { IsTrue result ↔ All PartWithin parts.now }
{
    for part in parts {
        if !is_part_within(part) {
            return false;
        }
    }
    true
}

fn is_part_within(part: &Part) -> bool
    ensures { IsTrue result ↔ PartWithin part.now }
{
    match part {
        Part::Start(start) => is_extent_within(start.extent) && is_shift_within(start.shift),
        Part::Atomic(atomic) => is_height_within(atomic.extent) && is_shift_within(atomic.shift),
        _ => true,
    }
}

pub fn is_extent_within(extent: Extent) -> bool
    ensures { IsTrue result ↔ ExtentWithin extent }
{
    is_reach(extent.above) && is_reach(extent.below)
}

fn is_reach(length: Unit) -> bool
    ensures { IsTrue result ↔ IsWithin (pos (2 ^ 34)) length.0 }
{
    -17179869184 <= length.0 && length.0 <= 17179869184
}

fn is_height_within(extent: Extent) -> bool
    ensures { IsTrue result ↔ IsWithin (pos (2 ^ 34)) (height_of extent) }
{
    let height = height_of(extent);
    -17179869184 <= height && height <= 17179869184
}

fn height_of(extent: Extent) -> i128
    ensures { result ≡ height_of extent }
{
    i128::from(extent.above.0) + i128::from(extent.below.0)
}

fn is_shift_within(shift: Shift) -> bool
    ensures { IsTrue result ↔ ShiftWithin shift }
{
    let length = length_of(shift);
    -34359738368 <= length.0 && length.0 <= 34359738368
}

fn length_of(shift: Shift) -> Unit
    ensures { result.0 ≡ length_of shift }
{
    match shift {
        Shift::By(length)
        | Shift::Middle(length)
        | Shift::TextTop(length)
        | Shift::TextBottom(length) => length,
        Shift::Top | Shift::Bottom => Unit(0),
    }
}
