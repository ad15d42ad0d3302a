//! The pieces of the anonymous formatting contexts in one.

ghost use Rattle.std.specs.Prelude.{◌≡◌, [], map};
ghost use Rattle.lay_placements.specs.InnerPieces.{AreNearInnerPieces, inner_pieces_at, pieces_or_none};
ghost use Rattle.lay_placements.specs.NearPieces.{AreNearPieces};

use lay_frag::{Frag, Pieces};
use std::alloc::Global;
use std::marker::Model;
use std::sync::Arc;

/// For each box of a formatting context the pieces of the anonymous one whose box it is, counted from the corner of that
/// box; None for the other boxes.
#[derive(Drop)]
pub struct InnerPieces {
    items: Vec<Option<Arc<Pieces>>>,
}

impl Model for InnerPieces {
    ghost use Rattle.std.specs.Prelude.{List, map};
    ghost use Rattle.lay_frag.specs.declared.frag.Frag.{Frag};
    ghost use Rattle.lay_placements.specs.InnerPieces.{AreNearInnerPieces, pieces_or_none};

    ghost Value = { List (List Frag) };

    ghost view = { λ p. map pieces_or_none p.items.items };

    ghost invariant = { λ p. AreNearInnerPieces (map pieces_or_none p.items.items) };
}

impl InnerPieces {
    /// These.
    pub fn new(items: Vec<Option<Arc<Pieces>>>) -> InnerPieces
        requires { AreNearInnerPieces (map pieces_or_none items.items) }
        ensures { result ≡ map pieces_or_none items.items }
    {
        InnerPieces { items }
    }

    /// Those of no box.
    pub fn none(alloc: Global) -> InnerPieces
        ensures { result ≡ [] }
    {
        InnerPieces {
            items: Vec::new(alloc),
        }
    }

    /// The pieces of the anonymous formatting context of the box at k; no pieces, where it isn't that of one.
    pub fn at(&self, k: usize) -> &[Frag]
        ensures pieces { result.now ≡ inner_pieces_at self.now k }
        ensures near { AreNearPieces result.now }
    {
        let _ = &self.items;
        self.found(k)
    }

    fn found(&self, k: usize) -> &[Frag]
        ensures { result.now ≡ inner_pieces_at self.now k }
    {
        match self.items.get(k) {
            Some(Some(pieces)) => pieces.as_slice(),
            Some(None) | None => &[],
        }
    }
}
