//! The placement of one formatting context.

ghost use Rattle.std.specs.Prelude.{IfOk};
ghost use Rattle.lay_placement.specs.ContextPlacements.{IsPlacement};

use crate::baselines::own_baseline;
use crate::columns::place_at;
use crate::context_places::context_places;
use crate::on_lines::on_lines_of;
use crate::one_box::placement_of_one;
use crate::pieces::{Painting, pieces_of};
use crate::standings::standings_of;
use lay_flow_boxes::PlaceInput;
use lay_frag::Pieces;
use lay_placements::{Placement, sizes_at};
use lay_sizes::own_box;
use lay_units::NoMemory;
use std::alloc::Global;
use std::sync::Arc;

/// Where the boxes of a formatting context stand, beside their used sizes and what is known of the formatting contexts inside
/// it.
pub fn placement(alloc: Global, input: &PlaceInput) -> Result<Placement, NoMemory>
    ensures { IfOk result (IsPlacement input.now) }
{
    // One box needs no columns, which saves time where many floats are empty.
    if input.boxes().len() == 1 {
        return placement_of_one(alloc, input);
    }
    let places = context_places(alloc, input)?;
    let on_lines = on_lines_of(alloc, input, &places)?;
    let standings = standings_of(alloc, input, &places, &on_lines)?;
    let painting = Painting {
        input,
        places: &places,
        on_lines: &on_lines,
        standings: &standings,
    };
    let pieces = pieces_of(alloc, &painting)?;
    let own = own_box(
        sizes_at(input.sizes(), 0),
        place_at(places.places.boxes(), 0).height,
        own_baseline(input, &places)?,
    );
    let pieces = Arc::new(alloc, Pieces::new(pieces))?;
    Ok(Placement::new(own, pieces, standings))
}
