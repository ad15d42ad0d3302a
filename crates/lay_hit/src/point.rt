//! Points, and which pieces hold them.

ghost use Rattle.std.specs.Prelude.{◌≡◌, ◌<◌, Some, length, slice_get, IfSome};
ghost use Rattle.lay_units.specs.Units.{IsPosition};
ghost use Rattle.lay_frag.specs.Pieces.{page_pieces, moved, IsContextInRange, IsRectInRange};
ghost use Rattle.lay_hit.specs.Hits.{holds, is_from, is_in_rect};
ghost use Rattle.lay_hit.specs.MovedPieces.{AreMoved};

use lay_frag::{Frag, Placed, further};
use lay_units::{Rect, Unit};

/// A point of the page, in 64ths of a px from its left and its top.
#[derive(Clone, Copy, Debug, PartialEq, Eq)]
pub struct Point {
    pub x: Unit,
    pub y: Unit,
}

/// The pieces of a context, and how far to the right and down all but the first stand on the page.
#[derive(Clone, Copy)]
pub(crate) struct MovedPieces<'a> {
    pub pieces: &'a [Frag],
    pub right: Unit,
    pub down: Unit,
}

/// The pieces of a context, which are asked about one by one.
pub(crate) fn moved_pieces(placed: &Placed) -> MovedPieces<'_>
    requires { IsContextInRange placed.now }
    ensures { AreMoved placed.now result }
{
    let rect = placed.rect();
    MovedPieces {
        pieces: placed.pieces(),
        right: rect.x,
        down: further(rect.y, placed.shift()),
    }
}

/// Whether the piece with this number holds the point, where it stands on the page.
pub(crate) fn holds_at(placed: &Placed, moved: MovedPieces<'_>, k: usize, at: Point) -> bool
    requires range { IsContextInRange placed.now }
    requires moved { AreMoved placed.now moved }
    requires place { k < length placed.now.pieces }
    ensures { IfSome (slice_get (page_pieces placed.now) k) (λ f. result ≡ holds at.x.0 at.y.0 f) }
{
    if k == 0 {
        return is_in(at, placed.rect());
    }
    is_in_moved(at, piece_at(moved.pieces, k), moved.right, moved.down)
}

/// Whether a piece holds the point that stands so far to the right and down. Most pieces of a page stand above the point or
/// below it.
fn is_in_moved(at: Point, piece: &Frag, right: Unit, down: Unit) -> bool
    requires range { IsRectInRange (moved right.0 down.0 piece.now).rect }
    ensures { result ≡ holds at.x.0 at.y.0 (moved right.0 down.0 piece.now) }
{
    is_from(further(down, piece.rect.y), piece.rect.h, at.y)
        && is_from(further(right, piece.rect.x), piece.rect.w, at.x)
}

/// Whether a rectangle holds the point.
fn is_in(at: Point, rect: Rect) -> bool
    requires { IsRectInRange rect }
    ensures { result ≡ is_in_rect at.x.0 at.y.0 rect }
{
    is_from(rect.x, rect.w, at.x) && is_from(rect.y, rect.h, at.y)
}

/// Whether v lies from an edge up to the one so far behind it.
fn is_from(edge: Unit, length: Unit, v: Unit) -> bool
    requires edge { IsPosition edge.0 }
    requires length { IsPosition length.0 }
    ensures { result ≡ is_from edge.0 length.0 v.0 }
{
    edge.0 <= v.0 && v.0 < edge.0 + length.0
}

fn piece_at(pieces: &[Frag], k: usize) -> &Frag
    requires { k < length pieces.now }
    ensures { slice_get pieces.now k ≡ Some result.now }
{
    &pieces[k]
}
