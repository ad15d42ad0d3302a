//! The piece that is asked for.

ghost use Rattle.std.specs.Prelude.{◌≡◌, IfOk};
ghost use Rattle.lay_drawing.specs.Hits.{hit_mark, hit_pieces, is_called};

use crate::changes::is_kind;
use crate::mark::{Mark, Marked};
use lay_frag::{Frag, FragKind};
use lay_units::NoMemory;
use std::alloc::Global;

/// The name of a piece: its kind, its node and its part.
#[derive(Clone, Copy)]
pub struct PieceName {
    pub kind: FragKind,
    pub node: u32,
    pub part: u32,
}

/// The pieces of one tree, of which those of this name are marked.
pub(crate) fn hit_pieces(
    alloc: Global,
    name: PieceName,
    pieces: &[Frag],
) -> Result<Vec<Marked>, NoMemory>
    ensures { IfOk result (λ v. v.items ≡ hit_pieces name pieces.now) }
{
    let mut marked = Vec::new(alloc);
    for piece in pieces {
        let mark = hit_mark(name, piece);
        marked.push(Marked {
            piece: *piece,
            mark,
        })?;
    }
    Ok(marked)
}

fn hit_mark(name: PieceName, piece: &Frag) -> Mark
    ensures { result ≡ hit_mark name piece.now }
{
    if is_called(name, piece) {
        Mark::Hit
    } else {
        Mark::Plain
    }
}

fn is_called(name: PieceName, piece: &Frag) -> bool
    ensures { result ≡ is_called name piece.now }
{
    is_kind(name.kind, piece.kind) && piece.node.0 == name.node && piece.part == name.part
}
