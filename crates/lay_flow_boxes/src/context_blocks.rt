//! The left edges of the boxes of one context.

ghost use Rattle.std.specs.Prelude.{◌≡◌, ◌<◌, ◌+ℤ◌, length, IfOk};
ghost use Rattle.lay_units.specs.Units.{IsPosition};
ghost use Rattle.lay_sizes.specs.SizeBounds.{SizeFits};
ghost use Rattle.lay_sizes.specs.OwnBoxes.{OwnBoxFits};
ghost use Rattle.lay_flow_boxes.specs.ContextBlocks.{content_left, left_of_box, HasLefts};
ghost use Rattle.lay_flow_boxes.specs.NearLefts.{AreNearLefts, IsNearLeft};

use crate::box_columns::{length_at, outside};
use crate::place_input::PlaceInput;
use lay_placements::sizes_at;
use lay_sizes::{BoxSizes, OwnBox};
use lay_units::{NoMemory, Unit, sum_of};
use std::alloc::Global;

/// The greatest distance of a left border edge from that of the context's own box. A document has none so far away: its
/// elements stand at most 128 deep, and the box of each is less than 2^33 units from the edge of the one around it.
const FARTHEST_LEFT: i64 = 1 << 49;

/// The left border edges of boxes in flow, where no float is beside them, from outer to inner boxes. NoMemory is also the
/// answer where one is more than 2^49 units away, which it is in no document within the limits.
pub(crate) fn lefts_of(alloc: Global, input: &PlaceInput) -> Result<Vec<Unit>, NoMemory>
    ensures lefts { IfOk result (λ v. HasLefts input.now.boxes input.now.sizes input.now.inner v.items) }
    ensures near { IfOk result (λ v. AreNearLefts v.items) }
{
    let boxes = input.boxes();
    let mut lefts = Vec::with_capacity(alloc, boxes.len())?;
    for k in 0..boxes.len() {
        let left = left_of_box(input, &lefts, k)?;
        lefts.push(left)?;
    }
    Ok(lefts)
}

/// The left border edge of the box at k, where those before it are known. NoMemory is the answer where it is more than 2^49
/// units away.
fn left_of_box(input: &PlaceInput, lefts: &[Unit], k: usize) -> Result<Unit, NoMemory>
    requires place { k < length input.now.boxes }
    requires known { length lefts.now ≡ k }
    requires near { AreNearLefts lefts.now }
    ensures left { IfOk result (λ l. l ≡ left_of_box input.now.boxes input.now.sizes input.now.inner lefts.now k) }
    ensures near { IfOk result (λ l. IsNearLeft l.0) }
{
    if k == 0 {
        return Ok(Unit(0));
    }
    let boxes = input.boxes();
    let own = outside(boxes, input.sizes(), input.inner(), k);
    near_left(with_margin(content_left(input, lefts, input.container(k)), own))
}

/// A left border edge. NoMemory is the answer where it is more than 2^49 units away, and nowhere else.
fn near_left(left: Unit) -> Result<Unit, NoMemory>
    ensures left { IfOk result (λ l. l ≡ left) }
    ensures near { IfOk result (λ l. IsNearLeft l.0) }
    ensures far { IsNearLeft left.0 → result ≡ Ok left }
{
    if left.0 < -FARTHEST_LEFT || left.0 > FARTHEST_LEFT {
        return Err(NoMemory);
    }
    Ok(left)
}

/// The border edge that is a box's left margin right of a content edge.
fn with_margin(content: Unit, own: OwnBox) -> Unit
    requires content { IsPosition content.0 }
    requires own { OwnBoxFits own }
    ensures { result ≡ record { 0 = content.0 +ℤ own.margin.left.0 } }
{
    sum_of(content, own.margin.left)
}

/// The left content edge of the box at k.
fn content_left(input: &PlaceInput, lefts: &[Unit], k: usize) -> Unit
    requires lefts { k < length lefts.now }
    requires boxes { k < length input.now.boxes }
    requires near { AreNearLefts lefts.now }
    ensures value { result ≡ content_left lefts.now input.now.sizes k }
    ensures near { IsPosition result.0 }
{
    let _ = input.boxes();
    inside_edge(length_at(lefts, k), sizes_at(input.sizes(), k))
}

/// The content edge of a box whose border box begins there.
pub(crate) fn inside_edge(left: Unit, sizes: BoxSizes) -> Unit
    requires left { IsNearLeft left.0 }
    requires sizes { SizeFits sizes }
    ensures value { result ≡ record { 0 = left.0 +ℤ sizes.edges.left.0 } }
    ensures near { IsPosition result.0 }
{
    sum_of(left, sizes.edges.left)
}

/// The right edge of a content that begins there.
pub(crate) fn content_right(left: Unit, sizes: BoxSizes) -> Unit
    requires left { IsPosition left.0 }
    requires sizes { SizeFits sizes }
    ensures { result ≡ record { 0 = left.0 +ℤ sizes.widths.width.0 } }
{
    sum_of(left, sizes.widths.width)
}
