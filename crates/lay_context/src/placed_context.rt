//! What a formatting context answers of places.

ghost use Rattle.std.specs.Prelude.{◌≡◌};
ghost use Rattle.lay_placements.specs.Corners.{IsCornerNear};
ghost use Rattle.lay_context.specs.PlacedContexts.{PlacedContext as Plain};

use lay_placements::{Corner, Placement};
use std::marker::Model;

/// The placement of a formatting context, and where it stands itself, if the one around it doesn't say so.
#[derive(Drop)]
pub struct PlacedContext {
    placement: Placement,
    offset: Corner,
}

impl Model for PlacedContext {
    ghost use Rattle.lay_placements.specs.Corners.{IsCornerNear};
    ghost use Rattle.lay_context.specs.PlacedContexts.{PlacedContext as Plain};

    ghost Value = { Plain };

    ghost view = { λ p. record { placement = p.placement; offset = p.offset } };

    ghost invariant = { λ p. IsCornerNear p.offset };
}

impl PlacedContext {
    pub(crate) fn new(placement: Placement, offset: Corner) -> PlacedContext
        requires { IsCornerNear offset }
        ensures { result ≡ record { placement = placement; offset = offset } }
    {
        PlacedContext { placement, offset }
    }

    /// Its placement.
    pub fn placement(&self) -> &Placement
        ensures { result.now ≡ self.now.placement }
    {
        &self.placement
    }

    /// Where it stands itself.
    pub fn offset(&self) -> Corner
        ensures offset { result ≡ self.now.offset }
        ensures near { IsCornerNear result }
    {
        self.offset
    }
}
