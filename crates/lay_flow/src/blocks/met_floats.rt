//! Where lines put the floats that they met.

ghost use Rattle.std.specs.Prelude.{◌≡◌, ◌<◌, ◌==◌, ℕ, length, if◌then◌else◌, IfOk};
ghost use Rattle.lay_flow.specs.Blocks.FlowPlaces.{AreCorners, corner_at, place_or};

use lay_floats::{NodePlace, Place};
use lay_lines::NodePlaceList;
use lay_units::{NoMemory, Unit};
use std::alloc::Global;

/// A corner for each of so many boxes: the last of those that these lists have with its number.
pub fn line_corners(
    alloc: Global,
    count: usize,
    met: &[NodePlaceList],
) -> Result<Vec<Place>, NoMemory>
    ensures { IfOk result (λ r. AreCorners count met.now r.items) }
{
    let nowhere = Place {
        x: Unit(0),
        y: Unit(0),
    };
    let mut corners = vec![in alloc; nowhere; count]?;
    for k in 0..met.len() {
        write_all(&mut corners, met[k].as_slice());
    }
    Ok(corners)
}

fn write_all(corners: &mut Vec<Place>, places: &[NodePlace])
    ensures length_is { length corners.new.items ≡ length corners.old.items }
    ensures each { (k : ℕ) → k < length corners.old.items
        → corner_at corners.new.items k ≡ place_or (corner_at corners.old.items k) k places.now }
{
    for i in 0..places.len() {
        write_one(corners, places[i]);
    }
}

fn write_one(corners: &mut Vec<Place>, place: NodePlace)
    ensures length_is { length corners.new.items ≡ length corners.old.items }
    ensures each { (k : ℕ) → k < length corners.old.items
        → corner_at corners.new.items k ≡ (if place.node == k then place.place else corner_at corners.old.items k) }
{
    let node = place.node as usize;
    if node < corners.len() {
        corners[node] = place.place;
    }
}
