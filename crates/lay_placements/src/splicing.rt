//! The pieces of anonymous formatting contexts among those of the one around them.

ghost use Rattle.std.specs.Prelude.{◌≡◌, ◌<◌, Some, length, slice_get, OnOk};
ghost use Rattle.lay_units.specs.Units.{IsPosition};
ghost use Rattle.lay_frag.specs.Pieces.{moved};
ghost use Rattle.lay_placements.specs.NearPieces.{AreNearPieces, IsRectNear};
ghost use Rattle.lay_placements.specs.PieceParts.{with_pieces};
ghost use Rattle.lay_placements.specs.Splicing.{border_box, spliced};
ghost use Rattle.lay_placements.specs.Standings.{IsStandingNear};

use crate::piece_list::PieceList;
use crate::standing::Standing;
use lay_frag::Frag;
use lay_units::{NoMemory, Rect, Unit, sum_of};

impl PieceList {
    /// Puts behind these those of an anonymous formatting context whose box is so wide and stands so, each counted from the
    /// corner of that box. NoMemory is also the answer where one comes to stand more than 2^60 units away, or there are
    /// more than 2^31; then the first of them may stand there.
    pub fn push_spliced(
        &mut self,
        width: Unit,
        standing: Standing,
        pieces: &[Frag],
    ) -> Result<(), NoMemory>
        requires standing { IsStandingNear standing }
        requires near { AreNearPieces pieces.now }
        ensures { OnOk result (self.new ≡ with_pieces self.old (spliced width standing pieces.now)) }
    {
        for k in 0..pieces.len() {
            self.push(spliced_piece(width, standing, pieces, k))?;
        }
        Ok(())
    }
}

/// The piece with this number, where the box stands.
fn spliced_piece(width: Unit, standing: Standing, pieces: &[Frag], k: usize) -> Frag
    requires standing { IsStandingNear standing }
    requires near { AreNearPieces pieces.now }
    requires place { k < length pieces.now }
    ensures { slice_get (spliced width standing pieces.now) k ≡ Some result }
{
    let piece = piece_at(pieces, k);
    if k == 0 {
        return Frag {
            rect: border_box(width, standing),
            ..piece
        };
    }
    let down = sum_of(standing.corner.y, standing.shift);
    moved(piece, standing.corner.x, down)
}

fn piece_at(pieces: &[Frag], k: usize) -> Frag
    requires near { AreNearPieces pieces.now }
    requires place { k < length pieces.now }
    ensures piece { slice_get pieces.now k ≡ Some result }
    ensures near { IsRectNear result.rect }
{
    pieces[k]
}

fn border_box(width: Unit, standing: Standing) -> Rect
    ensures { result ≡ border_box width standing }
{
    Rect {
        x: standing.corner.x,
        y: standing.corner.y,
        w: width,
        h: standing.height,
    }
}

/// A piece further right and further down.
fn moved(piece: Frag, right: Unit, down: Unit) -> Frag
    requires right { IsPosition right.0 }
    requires down { IsPosition down.0 }
    requires near { IsRectNear piece.rect }
    ensures { result ≡ moved right.0 down.0 piece }
{
    Frag {
        rect: Rect {
            x: sum_of(right, piece.rect.x),
            y: sum_of(down, piece.rect.y),
            ..piece.rect
        },
        ..piece
    }
}
