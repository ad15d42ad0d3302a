//! What the layout of a formatting context answers.

ghost use Rattle.std.specs.Prelude.{◌≡◌, [], IfOk};
ghost use Rattle.lay_placements.specs.Placements.{PlacementFits, no_placement};

use crate::standing::Standing;
use lay_frag::Pieces;
use lay_sizes::{NO_OWN_BOX, OwnBox};
use lay_units::NoMemory;
use std::alloc::Global;
use std::marker::Model;
use std::sync::Arc;

/// What the layout of a formatting context answers: its own box as the one around it takes it, its pieces, counted from
/// that, and where its boxes stand.
#[derive(Drop)]
pub struct Placement {
    own: OwnBox,
    pieces: Arc<Pieces>,
    standings: Vec<Standing>,
}

impl Model for Placement {
    ghost use Rattle.lay_placements.specs.Placements.{Placement as Plain, PlacementFits};

    ghost Value = { Plain };

    ghost view = { λ p. record { own = p.own; pieces = p.pieces.value; standings = p.standings.items } };

    ghost invariant = { λ p. PlacementFits (record { own = p.own; pieces = p.pieces.value; standings = p.standings.items }) };
}

impl Placement {
    /// The placement of these parts.
    pub fn new(own: OwnBox, pieces: Arc<Pieces>, standings: Vec<Standing>) -> Placement
        requires { PlacementFits (record { own = own; pieces = pieces.value; standings = standings.items }) }
        ensures { result ≡ record { own = own; pieces = pieces.value; standings = standings.items } }
    {
        Placement {
            own,
            pieces,
            standings,
        }
    }

    /// None: no box and no piece.
    pub fn none(alloc: Global, pieces: Arc<Pieces>) -> Placement
        requires { pieces.value ≡ [] }
        ensures { result ≡ no_placement }
    {
        Placement {
            own: NO_OWN_BOX,
            pieces,
            standings: Vec::new(alloc),
        }
    }

    /// Its own box.
    pub fn own(&self) -> OwnBox
        ensures own { result ≡ self.now.own }
        ensures fits { PlacementFits self.now }
    {
        self.own
    }

    /// Its pieces, shared.
    pub fn pieces(&self) -> Result<Arc<Pieces>, NoMemory>
        ensures pieces { IfOk result (λ p. p.value ≡ self.now.pieces) }
        ensures fits { PlacementFits self.now }
    {
        Ok(self.pieces.clone()?)
    }

    /// Where its boxes stand, in their order.
    pub fn standings(&self) -> &[Standing]
        ensures standings { result.now ≡ self.now.standings }
        ensures fits { PlacementFits self.now }
    {
        self.standings.as_slice()
    }
}
