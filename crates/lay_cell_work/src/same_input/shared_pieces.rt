//! Whether the pieces of anonymous formatting contexts are the same.

ghost use Rattle.std.specs.Prelude.{◌≡◌, ◌↔◌, IsTrue, map};
ghost use Rattle.lay_placements.specs.InnerPieces.{inner_pieces_at, pieces_or_none};

use lay_context::SharedPieces;
use lay_frag::{Frag, Pieces, same_pieces};
use std::sync::Arc;

/// Whether the pieces of the anonymous formatting contexts in two others are the same.
pub(crate) fn same_shared_pieces(a: &SharedPieces, b: &SharedPieces) -> bool
    ensures { IsTrue result ↔ (a.now ≡ b.now) }
{
    same_lists(a.as_slice(), b.as_slice())
}

/// Whether these are the same, box by box.
fn same_lists(a: &[Option<Arc<Pieces>>], b: &[Option<Arc<Pieces>>]) -> bool
    ensures { IsTrue result ↔ (map pieces_or_none a.now ≡ map pieces_or_none b.now) }
{
    if a.len() != b.len() {
        return false;
    }
    for k in 0..a.len() {
        if !same_pieces(pieces_at(a, k), pieces_at(b, k)) {
            return false;
        }
    }
    true
}

/// The pieces of the anonymous formatting context of the box at k; no pieces, where it isn't that of one.
fn pieces_at(pieces: &[Option<Arc<Pieces>>], k: usize) -> &[Frag]
    ensures { result.now ≡ inner_pieces_at (map pieces_or_none pieces.now) k }
{
    match pieces.get(k) {
        Some(Some(pieces)) => pieces.as_slice(),
        Some(None) | None => &[],
    }
}
