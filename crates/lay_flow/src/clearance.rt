//! Clearance: it is decided before the top margin of a box is read, and begins a run (CSS 2.2, 9.5.2).

ghost use Rattle.std.specs.Prelude.{◌≡◌, ◌<◌, ◌⊎◌, true, false, length, None, OnOk};
ghost use Rattle.lay_units.specs.declared.length.Unit.{Unit};
ghost use Rattle.lay_floats.specs.ClearEdge.{Clears};
ghost use Rattle.lay_floats.specs.declared.requests.Clear.TheVariants.{None as clear_none};
ghost use Rattle.lay_flow.specs.Blocks.Boxes.{parent_at};
ghost use Rattle.lay_flow.specs.Blocks.BlockFloats.{shape_at};
ghost use Rattle.lay_flow.specs.Blocks.Clearance.{IsAbove, lower_of};
ghost use Rattle.lay_flow.specs.Pass.Clears.{HasWaitingFloat, IsAboveFloats, IsEdgeWithout, IsSideToClear};
ghost use Rattle.lay_flow.specs.Pass.Bounds.{IsEdgeNear};
ghost use Rattle.lay_flow.specs.Pass.Known.{IsKnown, IsReadyAt};
ghost use Rattle.lay_flow.specs.Blocks.Weights.{weight};

use crate::blocks::{BoxAt, ChildAt, Near};
use crate::columns::write_edge;
use crate::hypothetical_edge::hypothetical_edge;
use crate::margin_place::BoxInRun;
use crate::margin_run::{end_of, no_margin};
use crate::marked_boxes::MarkedBoxes;
use crate::pass::{Pass, RunStart};
use crate::placement::place_up_to;
use crate::settling::EndedRun;
use lay_floats::{Clear, Side};
use lay_units::{NoMemory, Unit};

/// Decides whether the box has clearance. If so, the run ends, and the clearance begins a new one. If it asks for
/// that, the boxes before the run are placed first, since their marks are known.
pub(crate) fn clear(child: &ChildAt<'_>, flow: &mut Pass) -> Result<(), NoMemory>
    requires { IsKnown child.now.at.boxes.list.now flow.old (parent_at child.now.at.boxes.list.now child.now.at.k) child.now.at.k }
    ensures { OnOk result (IsReadyAt child.now.at.boxes.list.now flow.new child.now.at.k) }
{
    if asks_to_clear(&child.at) {
        let marked = MarkedBoxes {
            boxes: child.at.boxes,
            marks: &flow.marks,
        };
        place_up_to(&marked, &mut flow.placing, flow.first)?;
        clear_floats(child, flow)?;
    }
    Ok(())
}

fn asks_to_clear(at: &BoxAt<'_>) -> bool
    ensures flows { result ≡ true → (shape_at at.now.boxes.list.now at.now.k).float ≡ None }
    ensures passes_none { result ≡ false → (shape_at at.now.boxes.list.now at.now.k).float ≡ None
        → (shape_at at.now.boxes.list.now at.now.k).clear ≡ clear_none }
{
    at.side().is_none() && at.clear() != Clear::None
}

// The box has clearance where a float that it goes past is in the run, or where it would stand above the lowest
// bottom of such floats.
fn clear_floats(child: &ChildAt<'_>, flow: &mut Pass) -> Result<(), NoMemory>
    requires flows { (shape_at child.now.at.boxes.list.now child.now.at.k).float ≡ None }
    requires settled { length flow.old.placing.places.items ≡ flow.old.first }
    requires known { IsKnown child.now.at.boxes.list.now flow.old (parent_at child.now.at.boxes.list.now child.now.at.k) child.now.at.k }
    ensures { OnOk result (IsReadyAt child.now.at.boxes.list.now flow.new child.now.at.k) }
{
    let bottom = flow.placing.floats.clear_edge(child.at.clear());
    let hypothetical = edge_without(child, flow);
    let before = BoxInRun {
        at: child.at,
        first: flow.first,
    };
    if has_waiting_float(&before) || is_above(hypothetical, bottom) {
        begin_cleared(child, flow, hypothetical)?;
    }
    Ok(())
}

// The hypothetical edge of the box.
fn edge_without(child: &ChildAt<'_>, flow: &Pass) -> Unit
    requires { IsKnown child.now.at.boxes.list.now flow.now (parent_at child.now.at.boxes.list.now child.now.at.k) child.now.at.k }
    ensures edge { IsEdgeWithout child.now.at.boxes.list.now flow.now child.now.at.k result.0 }
    ensures near { IsEdgeNear (weight child.now.at.boxes.list.now child.now.at.k) result.0 }
{
    match flow.start {
        RunStart::At(start) => {
            let before = BoxInRun {
                at: child.at,
                first: flow.first,
            };
            hypothetical_edge(&before, Near { unit: start }, flow.strut)
        }
        RunStart::HangsFrom(edge) => edge,
    }
}

// A float that the box goes past has its mark in the run.
fn has_waiting_float(before: &BoxInRun<'_>) -> bool
    ensures has { result ≡ true → HasWaitingFloat before.now.at.boxes.list.now before.now.first before.now.at.k }
    ensures hasnt { result ≡ false → ¬ HasWaitingFloat before.now.at.boxes.list.now before.now.first before.now.at.k }
{
    let clear = before.at.clear();
    for j in before.first..before.at.k {
        let at = BoxAt {
            boxes: before.at.boxes,
            k: j,
        };
        if is_cleared_float(at.side(), clear) {
            return true;
        }
    }
    false
}

fn is_cleared_float(float: Option<Side>, clear: Clear) -> bool
    ensures is { result ≡ true → IsSideToClear clear float }
    ensures isnt { result ≡ false → ¬ IsSideToClear clear float }
{
    match float {
        Some(side) => clears(clear, side),
        None => false,
    }
}

fn clears(clear: Clear, side: Side) -> bool
    ensures is { result ≡ true → Clears clear side }
    ensures isnt { result ≡ false → ¬ Clears clear side }
{
    match clear {
        Clear::None => false,
        Clear::Left => side == Side::Left,
        Clear::Right => side == Side::Right,
        Clear::Both => true,
    }
}

fn is_above(hypothetical: Unit, bottom: Option<Unit>) -> bool
    ensures is { result ≡ true → IsAbove hypothetical.0 bottom }
    ensures isnt { result ≡ false → ¬ IsAbove hypothetical.0 bottom }
{
    match bottom {
        Some(bottom) => hypothetical.0 < bottom.0,
        None => false,
    }
}

fn lower_of(bottom: Option<Unit>, hypothetical: Unit) -> Unit
    ensures { result.0 ≡ lower_of bottom hypothetical.0 }
{
    match bottom {
        Some(bottom) => Unit(bottom.0.max(hypothetical.0)),
        None => hypothetical,
    }
}

// The run ends, so that the floats in it stand, and the clearance begins one that hangs from its clear edge.
fn begin_cleared(child: &ChildAt<'_>, flow: &mut Pass, hypothetical: Unit) -> Result<(), NoMemory>
    requires flows { (shape_at child.now.at.boxes.list.now child.now.at.k).float ≡ None }
    requires settled { length flow.old.placing.places.items ≡ flow.old.first }
    requires known { IsKnown child.now.at.boxes.list.now flow.old (parent_at child.now.at.boxes.list.now child.now.at.k) child.now.at.k }
    requires edge { IsEdgeWithout child.now.at.boxes.list.now flow.old child.now.at.k hypothetical.0 }
    requires near { IsEdgeNear (weight child.now.at.boxes.list.now child.now.at.k) hypothetical.0 }
    requires decides { HasWaitingFloat child.now.at.boxes.list.now flow.old.first child.now.at.k
        ⊎ IsAboveFloats flow.old.placing.floats (shape_at child.now.at.boxes.list.now child.now.at.k).clear hypothetical.0 }
    ensures { OnOk result (IsReadyAt child.now.at.boxes.list.now flow.new child.now.at.k) }
{
    let end = end_of(flow.start, flow.strut);
    let run = EndedRun {
        boxes: child.at.boxes,
        through: &flow.through,
        first: flow.first,
        end: child.at.k,
        mark: end,
    };
    run.settle(&mut flow.marks);
    let marked = MarkedBoxes {
        boxes: child.at.boxes,
        marks: &flow.marks,
    };
    place_up_to(&marked, &mut flow.placing, child.at.k)?;
    let bottom = flow.placing.floats.clear_edge(child.at.clear());
    let edge = lower_of(bottom, hypothetical);
    write_edge(&mut flow.clear_edges, child.at.k, edge);
    flow.start = RunStart::HangsFrom(edge);
    flow.strut = no_margin();
    flow.first = child.at.k;
    Ok(())
}
