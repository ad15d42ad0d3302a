//! Floats, solid boxes and lines find their places, in document order, once their marks are known.

ghost use Rattle.std.specs.Prelude.{◌≡◌, ◌+◌, ◌<◌, ◌≤◌, ◌++◌, ◌∷◌, [], length, true, OnOk, Some};
ghost use Rattle.std.specs.Int.{int_max};
ghost use Rattle.lay_flow.specs.Blocks.BlockFloats.{ceiling, float_request, solid_request, no_place, shape_at};
ghost use Rattle.lay_flow.specs.Blocks.BlockPositions.{is_lines, is_solid};
ghost use Rattle.lay_flow.specs.Blocks.Weights.{weight};
ghost use Rattle.lay_flow.specs.Blocks.MarginRuns.{block_at};
ghost use Rattle.lay_flow.specs.Pass.Knows.{AreExtentsKept};
ghost use Rattle.lay_flow.specs.Pass.Known.{ArePlaced, GoesOn};
ghost use Rattle.lay_flow.specs.Pass.Placed.{IsCeilingNear};

use crate::blocks::{BoxAt, Near, Shape};
use crate::columns::{length_at, write_at};
use crate::marked_boxes::{MarkedBox, MarkedBoxes};
use lay_floats::{FloatReq, Floats, Place, Side, SolidReq};
use lay_lines::{NodePlaceList, RowList};
use lay_units::{NoMemory, Unit, sum_of};
use std::alloc::Global;

/// What a pass keeps of floats, solid boxes and lines: the depths of boxes as far as they are known, the floats that
/// stand, and with an entry for each box so far its place, its lines, and the floats that they met.
#[derive(Drop)]
pub(crate) struct Placing {
    pub alloc: Global,
    pub extents: Vec<Unit>,
    pub floats: Floats,
    pub places: Vec<Place>,
    pub rows: Vec<RowList>,
    pub met: Vec<NodePlaceList>,
}

/// Places the boxes before m that have no place yet, where their marks are known.
pub(crate) fn place_up_to(
    of: &MarkedBoxes<'_>,
    placing: &mut Placing,
    m: usize,
) -> Result<(), NoMemory>
    requires within { m ≤ length of.now.boxes.list.now }
    requires order { length placing.old.places.items ≤ m }
    requires known { ArePlaced of.now.boxes.list.now of.now.marks.now placing.old (length placing.old.places.items) }
    ensures placed { OnOk result (GoesOn of.now.boxes.list.now of.now.marks.now placing.old placing.new) }
    ensures count { OnOk result (length placing.new.places.items ≡ m) }
    ensures kept { OnOk result
        (AreExtentsKept of.now.boxes.list.now (length placing.old.places.items) placing.old.extents.items placing.new.extents.items) }
{
    for k in placing.places.len()..m {
        let at = BoxAt { boxes: of.boxes, k };
        let of = MarkedBox {
            at,
            marks: of.marks,
        };
        place_one(&of, placing)?;
    }
    Ok(())
}

fn place_one(of: &MarkedBox<'_>, placing: &mut Placing) -> Result<(), NoMemory>
    requires known { ArePlaced of.now.at.boxes.list.now of.now.marks.now placing.old of.now.at.k }
    ensures placed { OnOk result (GoesOn of.now.at.boxes.list.now of.now.marks.now placing.old placing.new) }
    ensures count { OnOk result (length placing.new.places.items ≡ of.now.at.k + 1) }
    ensures kept { OnOk result (AreExtentsKept of.now.at.boxes.list.now of.now.at.k placing.old.extents.items placing.new.extents.items) }
{
    if let Some(side) = of.at.side() {
        place_float(of, placing, side)?;
        return Ok(());
    }
    let inside = of.at.block().inside;
    if inside.is_solid() {
        place_solid(of, placing)?;
        return Ok(());
    }
    if inside.is_lines() {
        place_lines(of, placing)?;
        return Ok(());
    }
    push_spot(placing, nowhere())?;
    Ok(())
}

fn place_float(of: &MarkedBox<'_>, placing: &mut Placing, side: Side) -> Result<(), NoMemory>
    requires float { (shape_at of.now.at.boxes.list.now of.now.at.k).float ≡ Some side }
    requires known { ArePlaced of.now.at.boxes.list.now of.now.marks.now placing.old of.now.at.k }
    ensures placed { OnOk result (GoesOn of.now.at.boxes.list.now of.now.marks.now placing.old placing.new) }
    ensures count { OnOk result (length placing.new.places.items ≡ of.now.at.k + 1) }
    ensures kept { OnOk result (placing.new.extents.items ≡ placing.old.extents.items) }
{
    let top = ceiling(of);
    let request = float_request(&of.at.shape(), side, top);
    let place = placing.floats.place(&request)?;
    push_spot(placing, place)?;
    Ok(())
}

fn place_solid(of: &MarkedBox<'_>, placing: &mut Placing) -> Result<(), NoMemory>
    requires solid { is_solid (block_at of.now.at.boxes.list.now of.now.at.k).inside ≡ true }
    requires known { ArePlaced of.now.at.boxes.list.now of.now.marks.now placing.old of.now.at.k }
    ensures placed { OnOk result (GoesOn of.now.at.boxes.list.now of.now.marks.now placing.old placing.new) }
    ensures count { OnOk result (length placing.new.places.items ≡ of.now.at.k + 1) }
    ensures kept { OnOk result (AreExtentsKept of.now.at.boxes.list.now of.now.at.k placing.old.extents.items placing.new.extents.items) }
{
    let shape = of.at.shape();
    let mark = length_at(of.marks, of.at.k);
    let place = placing.floats.fit_solid(&solid_request(&shape, mark));
    let from = Near { unit: mark };
    let top = Near { unit: place.y };
    let extent = sum_of(top.below(from), shape.height);
    write_at(&mut placing.extents, of.at.k, extent);
    push_spot(placing, place)?;
    Ok(())
}

fn place_lines(of: &MarkedBox<'_>, placing: &mut Placing) -> Result<(), NoMemory>
    requires lines { is_lines (block_at of.now.at.boxes.list.now of.now.at.k).inside ≡ true }
    requires known { ArePlaced of.now.at.boxes.list.now of.now.marks.now placing.old of.now.at.k }
    ensures placed { OnOk result (GoesOn of.now.at.boxes.list.now of.now.marks.now placing.old placing.new) }
    ensures count { OnOk result (length placing.new.places.items ≡ of.now.at.k + 1) }
    ensures kept { OnOk result (AreExtentsKept of.now.at.boxes.list.now of.now.at.k placing.old.extents.items placing.new.extents.items) }
{
    let edge = of.at.block().edge_top;
    let top = Near {
        unit: sum_of(length_at(of.marks, of.at.k), edge),
    };
    let lines = of.at.boxes.list[of.at.k].lay_lines(placing.alloc, &mut placing.floats, top)?;
    let end = Near { unit: lines.end };
    let depth = end.below(top);
    write_at(&mut placing.extents, of.at.k, depth);
    placing.places.push(nowhere())?;
    placing.rows.push(lines.rows)?;
    placing.met.push(lines.places)?;
    Ok(())
}

// The lower of its mark and of the top of its containing block's content.
fn ceiling(of: &MarkedBox<'_>) -> Unit
    requires { 0 < of.now.at.k }
    ensures value { result.0 ≡ ceiling of.now.at.boxes.list.now of.now.marks.now of.now.at.k }
    ensures near { IsCeilingNear (weight of.now.at.boxes.list.now of.now.at.k) result.0 }
{
    let parent = BoxAt {
        boxes: of.at.boxes,
        k: of.at.parent(),
    };
    let content = sum_of(length_at(of.marks, parent.k), parent.block().edge_top);
    lower(length_at(of.marks, of.at.k), content)
}

fn lower(a: Unit, b: Unit) -> Unit
    ensures { result.0 ≡ int_max a.0 b.0 }
{
    Unit(a.0.max(b.0))
}

fn float_request(shape: &Shape, side: Side, ceiling: Unit) -> FloatReq
    ensures { result ≡ float_request shape.now side ceiling.0 }
{
    FloatReq {
        side,
        width: shape.width,
        height: shape.height,
        left: shape.left,
        right: shape.right,
        ceiling,
        clear: shape.clear,
    }
}

fn solid_request(shape: &Shape, mark: Unit) -> SolidReq
    ensures { result ≡ solid_request shape.now mark.0 }
{
    SolidReq {
        x: shape.x,
        width: shape.width,
        height: shape.height,
        right: shape.right,
        top: mark,
    }
}

fn nowhere() -> Place
    ensures { result ≡ no_place }
{
    Place {
        x: Unit(0),
        y: Unit(0),
    }
}

// One more box, with this place and without lines.
fn push_spot(placing: &mut Placing, place: Place) -> Result<(), NoMemory>
    ensures extents { OnOk result (placing.new.extents.items ≡ placing.old.extents.items) }
    ensures floats { OnOk result (placing.new.floats ≡ placing.old.floats) }
    ensures places { OnOk result (placing.new.places.items ≡ placing.old.places.items ++ place ∷ []) }
    ensures rows { OnOk result (placing.new.rows.items ≡ placing.old.rows.items ++ [] ∷ []) }
    ensures met { OnOk result (placing.new.met.items ≡ placing.old.met.items ++ [] ∷ []) }
{
    placing.places.push(place)?;
    placing.rows.push(RowList::new(Vec::new(placing.alloc)))?;
    placing
        .met
        .push(NodePlaceList::new(Vec::new(placing.alloc)))?;
    Ok(())
}
