//! The flow of a block formatting context: a place for each of its boxes.

ghost use Rattle.std.specs.Prelude.{◌≡◌, ◌<◌, ◌+ℤ◌, pos, IfOk};
ghost use Rattle.lay_units.specs.Units.{IsUsed, IsNear};
ghost use Rattle.lay_floats.specs.Within.{IsWithin};
ghost use Rattle.lay_flow.specs.Blocks.Boxes.{box_at};
ghost use Rattle.lay_flow.specs.Blocks.FlowBoxes.{FloatBoxFits};
ghost use Rattle.lay_flow.specs.Blocks.FlowPlaces.{AreNearPlaces, IsFlowOf, IsNearPlace, border_box};
ghost use Rattle.lay_flow.specs.Blocks.FlowPlaces.{float_border_box, own_place, corner_at};
ghost use Rattle.lay_flow.specs.Pass.Columns.{AreBorderBoxes, AreNearColumns, IsFarPlace};
ghost use Rattle.lay_flow.specs.Blocks.Lengths.{length_at};

use crate::blocks::{BoxAt, BoxPlace, Boxes, FloatBox, FlowBox, FlowBoxes, FlowKind, FlowPlaces};
use crate::columns::{length_at, place_at};
use crate::flow_columns::{FlowColumns, flow_columns};
use lay_floats::Place;
use lay_units::{NoMemory, Unit};
use std::alloc::Global;

/// Where the boxes of a block formatting context stand, and their lines (CSS 2.2, 8.3.1, 9.4.1, 9.4.2, 9.5, 9.5.2,
/// 10.6.3, 10.6.7 and 10.7). NoMemory is the answer for want of memory alone.
pub fn flow(alloc: Global, boxes: &FlowBoxes) -> Result<FlowPlaces, NoMemory>
    ensures { IfOk result (IsFlowOf boxes.now) }
{
    let boxes = Boxes {
        list: boxes.as_slice(),
    };
    let columns = flow_columns(alloc, &boxes)?;
    let places = border_boxes(alloc, &boxes, &columns)?;
    Ok(FlowPlaces::new(places, columns.rows))
}

// The corner and the height of each border box.
fn border_boxes(
    alloc: Global,
    boxes: &Boxes<'_>,
    columns: &FlowColumns,
) -> Result<Vec<BoxPlace>, NoMemory>
    requires { AreNearColumns boxes.now.list.now columns.now }
    ensures places { IfOk result (λ r. AreBorderBoxes boxes.now.list.now columns.now r.items) }
    ensures near { IfOk result (λ r. AreNearPlaces r.items) }
{
    let mut places = Vec::with_capacity(alloc, boxes.list.len())?;
    for k in 0..boxes.list.len() {
        let at = BoxAt { boxes: *boxes, k };
        places.push(border_box_at(&at, columns))?;
    }
    Ok(places)
}

fn border_box_at(at: &BoxAt<'_>, columns: &FlowColumns) -> BoxPlace
    requires { AreNearColumns at.now.boxes.list.now columns.now }
    ensures value { result
        ≡ border_box (box_at at.now.boxes.list.now at.now.k).kind (record { 0 = length_at columns.now.tops.items at.now.k })
        (record { 0 = length_at columns.now.heights.items at.now.k })
        (own_place (box_at at.now.boxes.list.now at.now.k).kind (corner_at columns.now.places.items at.now.k)
        (corner_at columns.now.corners.items at.now.k)) }
    ensures near { IsNearPlace result }
{
    let mark = length_at(&columns.tops, at.k);
    let height = length_at(&columns.heights, at.k);
    let place = place_at(&columns.places, at.k);
    match &at.boxes.list[at.k].kind {
        FlowKind::Block(b) => in_flow(b.x, mark, height),
        FlowKind::Lines(l) => in_flow(l.block.x, mark, height),
        FlowKind::Solid(b) => BoxPlace {
            corner: place,
            height: b.height,
        },
        FlowKind::Float(b) => float_box(b, place),
        FlowKind::LineFloat(b) => float_box(b, place_at(&columns.corners, at.k)),
        FlowKind::Inline => in_flow(Unit(0), Unit(0), Unit(0)),
    }
}

fn in_flow(x: Unit, y: Unit, height: Unit) -> BoxPlace
    ensures { result ≡ record { corner = record { x = x; y = y }; height = height } }
{
    BoxPlace {
        corner: Place { x, y },
        height,
    }
}

fn float_box(b: &FloatBox, place: Place) -> BoxPlace
    requires fits { FloatBoxFits b.now }
    requires place { IsFarPlace place }
    ensures value { result ≡ float_border_box b.now place }
    ensures near { IsNearPlace result }
{
    BoxPlace {
        corner: Place {
            x: edge_inside(place.x, b.margin.left),
            y: edge_inside(place.y, b.margin.top),
        },
        height: b.height,
    }
}

// The edge that is a margin away from that of a margin box.
fn edge_inside(edge: Unit, margin: Unit) -> Unit
    requires edge { IsWithin (pos 1151795604700004352) edge.0 }
    requires margin { IsUsed margin.0 }
    ensures value { result ≡ record { 0 = edge.0 +ℤ margin.0 } }
    ensures near { IsNear result.0 }
{
    Unit(edge.0 + margin.0)
}
