//! Where the boxes of one formatting context stand.

ghost use Rattle.std.specs.Prelude.{◌≡◌, ◌<◌, true, false, length, IfOk};
ghost use Rattle.lay_units.specs.Units.{IsNear};
ghost use Rattle.lay_box_tree.specs.Roles.{role_at};
ghost use Rattle.lay_abspos.specs.Relative.MoveBounds.{IsMoveNear};
ghost use Rattle.lay_flow_boxes.specs.ContextBlocks.{content_left, is_anchor};
ghost use Rattle.lay_placements.specs.Corners.{IsCornerNear};
ghost use Rattle.lay_placements.specs.Standings.{AreNearStandings, IsStandingNear};
ghost use Rattle.lay_placement.specs.BoxStandings.{border_height, corner_of_box, moved_corner, standing_of_box, standings_to};
ghost use Rattle.lay_placement.specs.Counts.{HaveCounts};
ghost use Rattle.lay_placement.specs.OnLines.{AreOnLines};
ghost use Rattle.lay_placement.specs.Restings.{IsResting};
ghost use Rattle.lay_placement.specs.StaticPositions.{static_position};

use crate::anchor_lines::anchor_lines;
use crate::columns::{length_at, place_at};
use crate::context_places::{BoxPlaces, move_of};
use crate::corners::{corner_in_flow, corners_of};
use lay_abspos::relative::Offset;
use lay_flow_boxes::{PlaceInput, is_anchor, own_box_at};
use lay_inlines::LinePieceList;
use lay_placements::{Corner, Standing, near_corner, sizes_at};
use lay_units::{NoMemory, Unit, sum_of};
use std::alloc::Global;

/// Where boxes come to rest: what the placement is given, where the flow and lines put its boxes, and the tops of the lines
/// that have its anchors.
#[derive(Clone, Copy)]
struct Resting<'a> {
    input: &'a PlaceInput,
    places: &'a BoxPlaces,
    corners: &'a [Corner],
    tops: &'a [Option<Unit>],
}

/// Where all boxes stand, in order, where these stand on lines. NoMemory is also the answer where one is more than 2^60 units
/// away from the own box, which it is in no document within the limits.
pub(crate) fn standings_of(
    alloc: Global,
    input: &PlaceInput,
    places: &BoxPlaces,
    on_lines: &[LinePieceList],
) -> Result<Vec<Standing>, NoMemory>
    requires counts { HaveCounts input.now.boxes places.now }
    requires on_lines { AreOnLines input.now places.now on_lines.now }
    ensures standings { IfOk result (λ v. v.items ≡ standings_to input.now places.now (length input.now.boxes)) }
    ensures near { IfOk result (λ v. AreNearStandings v.items) }
{
    let corners = corners_of(alloc, input, places, on_lines)?;
    let tops = anchor_lines(alloc, input, places)?;
    let of = Resting {
        input,
        places,
        corners: &corners,
        tops: &tops,
    };
    let count = input.boxes().len();
    let mut standings = Vec::with_capacity(alloc, count)?;
    for k in 0..count {
        let standing = standing_of_box(&of, k)?;
        standings.push(standing)?;
    }
    Ok(standings)
}

/// Where the box at k stands.
fn standing_of_box(of: &Resting<'_>, k: usize) -> Result<Standing, NoMemory>
    requires resting { IsResting of.now.input.now of.now.places.now of.now.corners.now of.now.tops.now }
    requires place { k < length of.now.input.now.boxes }
    ensures standing { IfOk result (λ s. s ≡ standing_of_box of.now.input.now of.now.places.now k) }
    ensures near { IfOk result IsStandingNear }
{
    if is_anchor(of.input.role(k)) {
        return standing_of_anchor(of, k);
    }
    let corner = moved_corner(move_of(of.places, k), corner_of_box(of, k))?;
    Ok(Standing {
        corner,
        height: border_height(of.input, of.places, k),
        shift: Unit(0),
    })
}

/// Where the box at k stands, which is an anchor.
fn standing_of_anchor(of: &Resting<'_>, k: usize) -> Result<Standing, NoMemory>
    requires resting { IsResting of.now.input.now of.now.places.now of.now.corners.now of.now.tops.now }
    requires place { k < length of.now.input.now.boxes }
    requires anchor { is_anchor (role_at of.now.input.now.boxes k) ≡ true }
    ensures standing { IfOk result (λ s. s ≡ standing_of_box of.now.input.now of.now.places.now k) }
    ensures near { IfOk result IsStandingNear }
{
    let corner = moved_corner(move_of(of.places, k), static_position(of, k)?)?;
    Ok(Standing {
        corner,
        height: Unit(0),
        shift: Unit(0),
    })
}

/// A corner that is moved so far.
fn moved_corner(by: Offset, corner: Corner) -> Result<Corner, NoMemory>
    requires by { IsMoveNear by }
    requires corner { IsCornerNear corner }
    ensures value { IfOk result (λ c. c ≡ moved_corner by corner) }
    ensures near { IfOk result IsCornerNear }
{
    near_corner(sum_of(by.right, corner.x), sum_of(by.down, corner.y))
}

/// Where the flow or lines put the border box of the box at k.
fn corner_of_box(of: &Resting<'_>, k: usize) -> Corner
    requires resting { IsResting of.now.input.now of.now.places.now of.now.corners.now of.now.tops.now }
    requires place { k < length of.now.input.now.boxes }
    ensures corner { result ≡ corner_of_box of.now.input.now of.now.places.now k }
    ensures near { IsCornerNear result }
{
    match of.corners.get(k) {
        Some(corner) => *corner,
        None => corner_in_flow(of.places, k),
    }
}

/// Where an absolutely positioned box would stand in flow, whose anchor is the box at k (CSS 2.2, 9.6).
fn static_position(of: &Resting<'_>, k: usize) -> Result<Corner, NoMemory>
    requires resting { IsResting of.now.input.now of.now.places.now of.now.corners.now of.now.tops.now }
    requires place { k < length of.now.input.now.boxes }
    requires anchor { is_anchor (role_at of.now.input.now.boxes k) ≡ true }
    ensures corner { IfOk result (λ c. c ≡ static_position of.now.input.now of.now.places.now k) }
    ensures near { IfOk result IsCornerNear }
{
    let places = of.places;
    let left = content_left(of.input, places, of.input.container(k));
    let top = match of.tops[k] {
        Some(top) => top,
        None => place_at(places.places.boxes(), k).corner.y,
    };
    near_corner(left, top)
}

/// The left content edge of the box at c.
fn content_left(input: &PlaceInput, places: &BoxPlaces, c: usize) -> Unit
    requires counts { HaveCounts input.now.boxes places.now }
    requires place { c < length input.now.boxes }
    ensures { result ≡ content_left places.now.shape.lefts input.now.sizes c }
{
    let _ = input.boxes();
    sum_of(
        length_at(places.shape.lefts(), c),
        sizes_at(input.sizes(), c).edges.left,
    )
}

/// The height of the border box of the box at k, which is no anchor.
fn border_height(input: &PlaceInput, places: &BoxPlaces, k: usize) -> Unit
    requires counts { HaveCounts input.now.boxes places.now }
    requires place { k < length input.now.boxes }
    requires no_anchor { is_anchor (role_at input.now.boxes k) ≡ false }
    ensures height { result ≡ border_height input.now places.now k }
    ensures near { IsNear result.0 }
{
    if input.context_boxes().is_inner(k) {
        return own_box_at(input.inner(), k).height;
    }
    place_at(places.places.boxes(), k).height
}
