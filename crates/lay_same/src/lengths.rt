//! Whether two lengths are the same.

ghost use Rattle.std.specs.Prelude.{◌≡◌, ◌↔◌, IsTrue};

use lay_units::{Len, Rect, Sides, Unit};

pub(crate) fn same_length(a: Len, b: Len) -> bool
    ensures { IsTrue result ↔ (a ≡ b) }
{
    a == b
}

/// Whether two lengths are the same, or neither is there.
pub fn same_length_or_none(a: Option<Unit>, b: Option<Unit>) -> bool
    ensures { IsTrue result ↔ (a ≡ b) }
{
    match (a, b) {
        (Some(a), Some(b)) => a.0 == b.0,
        (None, None) => true,
        _ => false,
    }
}

/// Whether two lengths are the same on each side.
pub fn same_sides(a: &Sides, b: &Sides) -> bool
    ensures { IsTrue result ↔ (a.now ≡ b.now) }
{
    a.top.0 == b.top.0 && a.right.0 == b.right.0 && a.bottom.0 == b.bottom.0 && a.left.0 == b.left.0
}

/// Whether two rectangles are the same.
pub fn same_rect(a: &Rect, b: &Rect) -> bool
    ensures { IsTrue result ↔ (a.now ≡ b.now) }
{
    a.x.0 == b.x.0 && a.y.0 == b.y.0 && a.w.0 == b.w.0 && a.h.0 == b.h.0
}
