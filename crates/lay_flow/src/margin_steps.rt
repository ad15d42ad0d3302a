//! The steps of the pass: a box is opened or closed, and its top or bottom margin is read.

ghost use Rattle.std.specs.Prelude.{◌≡◌, ◌+◌, ◌<◌, ◌≤◌, ◌&&◌, not, true, false, length, OnOk};
ghost use Rattle.lay_flow.specs.Blocks.Boxes.{parent_at};
ghost use Rattle.lay_flow.specs.Blocks.MarginRuns.{block_at, may_collapse_through, may_join_bottoms, parts_tops};
ghost use Rattle.lay_flow.specs.Pass.Bounds.{is_barred, is_hanging, state_of};
ghost use Rattle.lay_flow.specs.Pass.Known.{IsKnown, IsReadyAt};

use crate::blocks::{ChildAt, Near, StandingBlock};
use crate::clearance::clear;
use crate::columns::{is_cleared, length_at, write_at, write_flag};
use crate::margin_place::EndingBox;
use crate::margin_run::{end_of, lone_margin, no_margin, run_start, with_margin};
use crate::marked_boxes::MarkedBoxes;
use crate::pass::{Pass, RunStart};
use crate::placement::place_up_to;
use crate::settling::EndedRun;
use lay_units::{NoMemory, Unit, sum_of};

/// Reads the clearance and the top margin of the box, which is then the innermost open one.
pub(crate) fn open(child: &ChildAt<'_>, flow: &mut Pass) -> Result<(), NoMemory>
    requires { IsKnown child.now.at.boxes.list.now flow.old (parent_at child.now.at.boxes.list.now child.now.at.k) child.now.at.k }
    ensures { OnOk result (IsKnown child.now.at.boxes.list.now flow.new child.now.at.k (child.now.at.k + 1)) }
{
    clear(child, flow)?;
    enter(child, flow);
    Ok(())
}

// Reads the top margin. Where no border and no padding ends the run, it goes on in the box.
fn enter(child: &ChildAt<'_>, flow: &mut Pass)
    requires { IsReadyAt child.now.at.boxes.list.now flow.old child.now.at.k }
    ensures { IsKnown child.now.at.boxes.list.now flow.new child.now.at.k (child.now.at.k + 1) }
{
    let block = child.at.block();
    if block.has_edge_top() {
        open_parting(child, flow);
    } else {
        flow.strut = with_margin(flow.strut, block.margin_top);
    }
}

// A border or a padding ends the run.
fn open_parting(child: &ChildAt<'_>, flow: &mut Pass)
    requires parting { parts_tops child.now.at.boxes.list.now child.now.at.k ≡ true }
    requires ready { IsReadyAt child.now.at.boxes.list.now flow.old child.now.at.k }
    ensures { IsKnown child.now.at.boxes.list.now flow.new child.now.at.k (child.now.at.k + 1) }
{
    let block = child.at.block();
    let strut = with_margin(flow.strut, block.margin_top);
    let mark = end_of(flow.start, strut);
    let run = EndedRun {
        boxes: child.at.boxes,
        through: &flow.through,
        first: flow.first,
        end: child.at.k + 1,
        mark,
    };
    run.settle(&mut flow.marks);
    let start = sum_of(mark, block.edge_top);
    flow.start = RunStart::At(start);
    flow.strut = no_margin();
    flow.first = child.at.k + 1;
}

/// Reads the bottom margin of the innermost open box.
pub(crate) fn close(ending: &EndingBox<'_>, flow: &mut Pass) -> Result<(), NoMemory>
    requires { IsKnown ending.now.at.boxes.list.now flow.old ending.now.at.k ending.now.next }
    ensures { OnOk result
        (IsKnown ending.now.at.boxes.list.now flow.new (parent_at ending.now.at.boxes.list.now ending.now.at.k) ending.now.next) }
{
    if ending.block.may_collapse_through() && flow.first <= ending.at.k {
        pass_through(ending, flow);
    } else if ending.block.may_join_bottoms() && !is_barred(ending, flow) {
        close_joined(ending, flow);
    } else {
        close_parted(ending, flow)?;
    }
    Ok(())
}

// The run was begun by clearance of a child of the box.
fn is_barred(ending: &EndingBox<'_>, flow: &Pass) -> bool
    requires { length flow.now.clear_edges.items ≡ length ending.now.at.boxes.list.now }
    ensures { result ≡ is_barred ending.now.at.boxes.list.now (state_of flow.now) ending.now.at.k }
{
    flow.first < flow.clear_edges.len()
        && is_cleared(&flow.clear_edges, flow.first)
        && ending.at.boxes.list[flow.first].parent == ending.at.k
}

// It is collapsed through. If its clearance began the run, that starts so far above its clear edge as the margins before
// its bottom margin collapse to.
fn pass_through(ending: &EndingBox<'_>, flow: &mut Pass)
    requires through { may_collapse_through (block_at ending.now.at.boxes.list.now ending.now.at.k) ≡ true }
    requires waiting { flow.old.first ≤ ending.now.at.k }
    requires known { IsKnown ending.now.at.boxes.list.now flow.old ending.now.at.k ending.now.next }
    ensures { IsKnown ending.now.at.boxes.list.now flow.new (parent_at ending.now.at.boxes.list.now ending.now.at.k) ending.now.next }
{
    if flow.start.is_hanging() && flow.first == ending.at.k {
        let edge = Near {
            unit: flow.start.position(),
        };
        let start = run_start(edge, flow.strut);
        flow.start = RunStart::At(start);
    }
    close_through(ending, flow);
}

// The run of its top margin goes on past its bottom margin.
fn close_through(ending: &EndingBox<'_>, flow: &mut Pass)
    requires through { may_collapse_through (block_at ending.now.at.boxes.list.now ending.now.at.k) ≡ true }
    requires waiting { flow.old.first ≤ ending.now.at.k }
    requires inside { is_hanging flow.old.start ≡ true → flow.old.first < ending.now.at.k }
    requires known { IsKnown ending.now.at.boxes.list.now flow.old ending.now.at.k ending.now.next }
    ensures { IsKnown ending.now.at.boxes.list.now flow.new (parent_at ending.now.at.boxes.list.now ending.now.at.k) ending.now.next }
{
    let mark = end_of(flow.start, flow.strut);
    write_at(&mut flow.marks, ending.at.k, mark);
    write_at(&mut flow.heights, ending.at.k, Unit(0));
    write_flag(&mut flow.through, ending.at.k, true);
    flow.strut = with_margin(flow.strut, ending.block.margin_bottom);
}

// Its bottom margin adjoins that of its last child.
fn close_joined(ending: &EndingBox<'_>, flow: &mut Pass)
    requires joined { may_join_bottoms (block_at ending.now.at.boxes.list.now ending.now.at.k) ≡ true }
    requires unbarred { is_barred ending.now.at.boxes.list.now (state_of flow.old) ending.now.at.k ≡ false }
    requires settled { may_collapse_through (block_at ending.now.at.boxes.list.now ending.now.at.k) ≡ true
        → ending.now.at.k < flow.old.first }
    requires known { IsKnown ending.now.at.boxes.list.now flow.old ending.now.at.k ending.now.next }
    ensures { IsKnown ending.now.at.boxes.list.now flow.new (parent_at ending.now.at.boxes.list.now ending.now.at.k) ending.now.next }
{
    let mark = length_at(&flow.marks, ending.at.k);
    let standing = StandingBlock {
        block: ending.block,
        mark,
        extent: length_at(&flow.placing.extents, ending.at.k),
    };
    let border = Near {
        unit: flow.start.position(),
    };
    let height = standing.height_to_border(border);
    write_at(&mut flow.heights, ending.at.k, height);
    let start = standing.bottom(height);
    flow.start = RunStart::At(start);
    flow.strut = with_margin(flow.strut, ending.block.margin_bottom);
}

// Its bottom margin begins a run.
fn close_parted(ending: &EndingBox<'_>, flow: &mut Pass) -> Result<(), NoMemory>
    requires parted { (may_join_bottoms (block_at ending.now.at.boxes.list.now ending.now.at.k)
        && not (is_barred ending.now.at.boxes.list.now (state_of flow.old) ending.now.at.k)) ≡ false }
    requires settled { may_collapse_through (block_at ending.now.at.boxes.list.now ending.now.at.k) ≡ true
        → ending.now.at.k < flow.old.first }
    requires known { IsKnown ending.now.at.boxes.list.now flow.old ending.now.at.k ending.now.next }
    ensures { OnOk result
        (IsKnown ending.now.at.boxes.list.now flow.new (parent_at ending.now.at.boxes.list.now ending.now.at.k) ending.now.next) }
{
    let end = end_of(flow.start, flow.strut);
    let run = EndedRun {
        boxes: ending.at.boxes,
        through: &flow.through,
        first: flow.first,
        end: ending.next,
        mark: end,
    };
    run.settle(&mut flow.marks);
    let marked = MarkedBoxes {
        boxes: ending.at.boxes,
        marks: &flow.marks,
    };
    place_up_to(&marked, &mut flow.placing, ending.next)?;
    let mark = length_at(&flow.marks, ending.at.k);
    let standing = StandingBlock {
        block: ending.block,
        mark,
        extent: length_at(&flow.placing.extents, ending.at.k),
    };
    let height = standing.height_to_margin(Near { unit: end });
    write_at(&mut flow.heights, ending.at.k, height);
    let start = standing.bottom(height);
    flow.start = RunStart::At(start);
    flow.strut = lone_margin(ending.block.margin_bottom);
    flow.first = ending.next;
    Ok(())
}
