//! Whether two contexts of trees are the same.

ghost use Rattle.std.specs.Prelude.{◌≡◌, ◌↔◌, IsTrue};

use crate::{Frag, FragKind, Placed};
use lay_units::Rect;

/// Whether two contexts are the same: their elements, their border boxes, the shifts of their contents and their pieces.
pub fn same_context(a: &Placed, b: &Placed) -> bool
    ensures { IsTrue result ↔ (a.now ≡ b.now) }
{
    a.node().0 == b.node().0
        && a.shift().0 == b.shift().0
        && same_rect(a.rect(), b.rect())
        && same_pieces(a.pieces(), b.pieces())
}

/// Whether two lists of pieces are the same.
pub fn same_pieces(a: &[Frag], b: &[Frag]) -> bool
    ensures { IsTrue result ↔ (a.now ≡ b.now) }
{
    if a.len() != b.len() {
        return false;
    }
    for k in 0..a.len() {
        if !same_piece(&a[k], &b[k]) {
            return false;
        }
    }
    true
}

fn same_piece(a: &Frag, b: &Frag) -> bool
    ensures { IsTrue result ↔ (a.now ≡ b.now) }
{
    a.node.0 == b.node.0
        && a.part == b.part
        && same_kind(a.kind, b.kind)
        && same_rect(a.rect, b.rect)
}

fn same_kind(a: FragKind, b: FragKind) -> bool
    ensures { IsTrue result ↔ (a ≡ b) }
{
    a == b
}

fn same_rect(a: Rect, b: Rect) -> bool
    ensures { IsTrue result ↔ (a ≡ b) }
{
    a.x.0 == b.x.0 && a.y.0 == b.y.0 && a.w.0 == b.w.0 && a.h.0 == b.h.0
}
