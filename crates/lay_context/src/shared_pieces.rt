//! The pieces of anonymous formatting contexts, as a task is given them.

ghost use Rattle.std.specs.Prelude.{◌≡◌, map};
ghost use Rattle.lay_placements.specs.InnerPieces.{AreNearInnerPieces, pieces_or_none};

use lay_frag::Pieces;
use lay_placements::InnerPieces;
use std::marker::Model;
use std::sync::Arc;

/// For each box of a formatting context the pieces of the anonymous one whose box it is, and None for the other boxes. Whoever is
/// given them shares the pieces.
#[derive(Drop)]
pub struct SharedPieces {
    items: Vec<Option<Arc<Pieces>>>,
}

impl Model for SharedPieces {
    ghost use Rattle.std.specs.Prelude.{List, map};
    ghost use Rattle.lay_frag.specs.declared.frag.Frag.{Frag};
    ghost use Rattle.lay_placements.specs.InnerPieces.{AreNearInnerPieces, pieces_or_none};

    ghost Value = { List (List Frag) };

    ghost view = { λ p. map pieces_or_none p.items.items };

    ghost invariant = { λ p. AreNearInnerPieces (map pieces_or_none p.items.items) };
}

impl SharedPieces {
    /// These.
    pub fn new(items: Vec<Option<Arc<Pieces>>>) -> SharedPieces
        requires { AreNearInnerPieces (map pieces_or_none items.items) }
        ensures { result ≡ map pieces_or_none items.items }
    {
        SharedPieces { items }
    }

    /// They, at the places of the boxes.
    pub fn as_slice(&self) -> &[Option<Arc<Pieces>>]
        ensures pieces { map pieces_or_none result.now ≡ self.now }
        ensures near { AreNearInnerPieces self.now }
    {
        self.items.as_slice()
    }

    /// As a placement is given them.
    pub(crate) fn into_inner(self) -> InnerPieces
        ensures pieces { result ≡ self }
        ensures near { AreNearInnerPieces self }
    {
        InnerPieces::new(self.items)
    }
}
