//! Trees.

ghost use Rattle.std.specs.Prelude.{◌≡◌, ◌+◌, ◌<◌, ◌^◌, Some, length, slice_get};
ghost use Rattle.lay_frag.specs.Pieces.{Context, frags_of, IsTreeInRange};

use crate::{Frag, Placed};
use std::marker::Model;

/// The layout of a document: its contexts in document order. The numbers of its rectangles and shifts,
/// and the page coordinates of its pieces, are below 2^62 in absolute value, and it has fewer than 2^32
/// pieces.
#[derive(Drop, Debug)]
pub struct Tree {
    contexts: Vec<Placed>,
}

impl Model for Tree {
    ghost use Rattle.std.specs.Prelude.{List};
    ghost use Rattle.lay_frag.specs.Pieces.{Context, IsTreeInRange};

    ghost Value = { List Context };

    ghost view = { λ t. t.contexts.items };

    ghost invariant = { λ t. IsTreeInRange t.contexts.items };
}

impl Tree {
    /// The tree of these contexts, which are taken over without a copy.
    pub fn new(contexts: Vec<Placed>) -> Tree
        requires { IsTreeInRange contexts.items }
        ensures { result ≡ contexts.items }
    {
        Tree { contexts }
    }

    /// Its contexts, in document order.
    pub fn contexts(&self) -> &[Placed]
        ensures contexts { result.now ≡ self.now }
        ensures in_range { IsTreeInRange self.now }
    {
        self.contexts.as_slice()
    }

    /// The number of its pieces.
    pub fn len(&self) -> usize
        ensures { result ≡ length (frags_of self.now) }
    {
        piece_count(&self.contexts)
    }

    /// The piece with this number, in page coordinates; None exactly where the number isn't below `len`.
    pub fn frag(&self, i: usize) -> Option<Frag>
        ensures { result ≡ slice_get (frags_of self.now) i }
    {
        frag_at(&self.contexts, i)
    }
}

fn piece_count(contexts: &[Placed]) -> usize
    requires { length (frags_of contexts.now) < 2 ^ 32 }
    ensures { result ≡ length (frags_of contexts.now) }
{
    let mut count = 0;
    for placed in contexts {
        count += placed.pieces().len();
    }
    count
}

fn frag_at(contexts: &[Placed], i: usize) -> Option<Frag>
    requires { IsTreeInRange contexts.now }
    ensures { result ≡ slice_get (frags_of contexts.now) i }
{
    let mut left = i;
    for placed in contexts {
        let count = placed.pieces().len();
        if left < count {
            return Some(placed.page_piece(left));
        }
        left -= count;
    }
    None
}
