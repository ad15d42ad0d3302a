//! Where the boxes of one formatting context stand: the columns.

ghost use Rattle.std.specs.Prelude.{◌≡◌, IfOk};
ghost use Rattle.lay_units.specs.Units.{IsBoxSize};
ghost use Rattle.lay_abspos.specs.Relative.MoveBounds.{IsMoveNear};
ghost use Rattle.lay_abspos.specs.Relative.Moves.{move_at};
ghost use Rattle.lay_placement.specs.ContextPlaces.{HasPlaces, own_height, rows_at};
ghost use Rattle.lay_placement.specs.Counts.{HaveCounts};

use lay_abspos::relative::{BoxMoves, Offset, relative_moves};
use lay_flow::blocks::FlowPlaces;
use lay_flow::flow;
use lay_flow_boxes::{FlowShape, PlaceInput, flow_shape};
use lay_lines::Ended;
use lay_units::NoMemory;
use std::alloc::Global;
use std::marker::Model;

/// Where the boxes of one formatting context stand, in the order of the boxes, in 1/64 px. Positions are counted from the
/// corner of its own border box.
#[derive(Drop)]
pub(crate) struct BoxPlaces {
    /// The boxes as block flow takes them.
    pub shape: FlowShape,
    /// The corners and the heights of border boxes, and the lines of each box.
    pub places: FlowPlaces,
    /// By how much relative positioning moves them.
    pub moves: BoxMoves,
}

impl Model for BoxPlaces {
    ghost use Rattle.lay_placement.specs.ContextPlaces.{ContextPlaces};

    ghost Value = { ContextPlaces };

    ghost view = { λ p. record { shape = p.shape; places = p.places; moves = p.moves } };
}

/// Where the boxes of one formatting context stand. NoMemory is also the answer for more boxes than 2^23, for a left border
/// edge more than 2^49 units away, and where lines are out of the bounds of block flow.
pub(crate) fn context_places(alloc: Global, input: &PlaceInput) -> Result<BoxPlaces, NoMemory>
    ensures places { IfOk result (HasPlaces input.now) }
    ensures counts { IfOk result (HaveCounts input.now.boxes) }
    ensures own { IfOk result (λ p. IsBoxSize (own_height p).0) }
{
    let _ = input.boxes();
    let shape = flow_shape(alloc, input)?;
    let places = flow(alloc, shape.flow_boxes())?;
    let moves = relative_moves(alloc, input.context_boxes(), input.sizes())?;
    Ok(BoxPlaces {
        shape,
        places,
        moves,
    })
}

/// The lines of the box at k.
pub(crate) fn rows_at(places: &FlowPlaces, k: usize) -> &[Ended]
    ensures { result.now ≡ rows_at places.now k }
{
    match places.lines().get(k) {
        Some(rows) => rows.as_slice(),
        None => &[],
    }
}

/// By how much the box at k is moved, if there is one.
pub(crate) fn move_of(places: &BoxPlaces, k: usize) -> Offset
    ensures value { result ≡ move_at places.now.moves k }
    ensures near { IsMoveNear result }
{
    places.moves.at(k)
}
