//! The placement of a table.

ghost use Rattle.std.specs.Prelude.{◌≡◌, IfOk, IfSome};
ghost use Rattle.lay_flow.specs.Blocks.FlowPlaces.{box_place_at};
ghost use Rattle.lay_sizes.specs.OwnBoxes.{IsBaseline, OwnBoxFits, own_box};
ghost use Rattle.lay_sizes.specs.SizeColumns.{sizes_at};
ghost use Rattle.lay_table.specs.PlaceBounds.{PlacesFit};
ghost use Rattle.lay_table.specs.TablePlacements.{IsTablePlacement, first_row_baseline};

use crate::captions::captions_of;
use crate::pieces::pieces_of;
use crate::places::{TablePlaces, place_at, table_places};
use crate::shifts::row_baseline;
use crate::standings::standings_of;
use crate::table_input::TableInput;
use crate::wrapper_flow::wrapper_sizes;
use lay_frag::Pieces;
use lay_placements::{Placement, near_sum};
use lay_sizes::{OwnBox, own_box};
use lay_units::{NoMemory, Unit};
use std::alloc::Global;
use std::sync::Arc;

/// The greatest distance of a baseline from the top of its box: 2^59.
const FARTHEST: i64 = 576460752303423488;

/// The placement of a table beside the sizes of its boxes and the formatting contexts inside it. NoMemory is also the answer where
/// a box stands more than 2^60 units away or a baseline is more than 2^59 units away, which is so in no document within
/// the limits, and for more rows than 2^30, captions than 2^23 or pieces than 2^31.
pub fn table_placement(alloc: Global, input: &TableInput) -> Result<Placement, NoMemory>
    ensures { IfOk result (IsTablePlacement input.now) }
{
    let captions = captions_of(alloc, input.boxes())?;
    let places = table_places(alloc, input, &captions)?;
    let standings = standings_of(alloc, input, &places, &captions)?;
    let pieces = pieces_of(alloc, input, &places, &standings)?;
    let own = own_box_of(input, &places)?;
    let pieces = Arc::new(alloc, Pieces::new(pieces))?;
    Ok(Placement::new(own, pieces, standings))
}

/// The wrapper as the formatting context around it takes it.
fn own_box_of(input: &TableInput, places: &TablePlaces) -> Result<OwnBox, NoMemory>
    requires { PlacesFit input.now places.now }
    ensures value { IfOk result
        (λ o. o ≡ own_box (sizes_at input.now.sizes 0) (box_place_at places.now.flow.boxes 0).height (first_row_baseline places.now)) }
    ensures fits { IfOk result OwnBoxFits }
{
    let baseline = first_baseline(input, places)?;
    let height = place_at(&places.flow, 0).height;
    Ok(own_box(wrapper_sizes(input), height, baseline))
}

/// The baseline of the first row. NoMemory is the answer where it is more than 2^59 units away.
fn first_baseline(input: &TableInput, places: &TablePlaces) -> Result<Option<Unit>, NoMemory>
    requires { PlacesFit input.now places.now }
    ensures value { IfOk result (λ b. b ≡ first_row_baseline places.now) }
    ensures near { IfOk result (λ b. IfSome b (λ u. IsBaseline u.0)) }
{
    let _ = input;
    let rows = places.rows.tracks();
    if rows.len() == 0 {
        return Ok(None);
    }
    let top = near_sum(places.content.y, rows.start(0))?;
    let baseline = near_sum(top, row_baseline(&places.rows, 0))?;
    Ok(Some(near_baseline(baseline)?))
}

/// A baseline. NoMemory is the answer where it is more than 2^59 units away.
fn near_baseline(baseline: Unit) -> Result<Unit, NoMemory>
    ensures value { IfOk result (λ u. u ≡ baseline) }
    ensures near { IfOk result (λ u. IsBaseline u.0) }
{
    if baseline.0 < -FARTHEST || baseline.0 > FARTHEST {
        return Err(NoMemory);
    }
    Ok(baseline)
}
