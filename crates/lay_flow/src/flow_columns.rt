//! The places of the boxes of a context, in one pass over their margins in document order.

ghost use Rattle.std.specs.Prelude.{◌≡◌, ◌+◌, ◌-◌, ◌<◌, ◌≤◌, [], length, replicate, IfOk, OnOk};
ghost use Rattle.lay_units.specs.Lengths.{no_length};
ghost use Rattle.lay_flow.specs.Blocks.Boxes.{parent_at};
ghost use Rattle.lay_flow.specs.Pass.Bounds.{AreBoxHeights, AreNear};
ghost use Rattle.lay_flow.specs.Pass.Columns.{AreColumnsOf, AreNearColumns};
ghost use Rattle.lay_flow.specs.Pass.Known.{IsFinished, IsKnown};

use crate::blocks::{BoxAt, Boxes, ChildAt, Near, StandingBlock, line_corners};
use crate::columns::{length_at, write_at};
use crate::margin_place::EndingBox;
use crate::margin_run::{end_of, no_margin};
use crate::margin_steps::{close, open};
use crate::marked_boxes::MarkedBoxes;
use crate::pass::{Pass, RunStart};
use crate::placement::{Placing, place_up_to};
use crate::settling::EndedRun;
use lay_floats::{Clear, Floats, Place};
use lay_lines::RowList;
use lay_units::{NoMemory, Unit};
use std::alloc::Global;

/// The columns of a flow that its pass leaves, in 1/64 px. Positions are counted downward from the top border
/// edge of the context's own box.
#[derive(Drop)]
pub(crate) struct FlowColumns {
    /// The marks of the boxes.
    pub tops: Vec<Unit>,
    /// The heights of their border boxes, and of solid boxes how far they reach below their marks.
    pub heights: Vec<Unit>,
    /// The corners of the margin boxes of floats and of the border boxes of solid boxes, and (0, 0) for others.
    pub places: Vec<Place>,
    /// The lines of boxes that hold lines.
    pub rows: Vec<RowList>,
    /// The corners of the margin boxes of the floats that lines met, and (0, 0) for others.
    pub corners: Vec<Place>,
}

/// The columns of a context's flow.
pub(crate) fn flow_columns(alloc: Global, boxes: &Boxes<'_>) -> Result<FlowColumns, NoMemory>
    ensures columns { IfOk result (AreColumnsOf boxes.now.list.now) }
    ensures near { IfOk result (AreNearColumns boxes.now.list.now) }
{
    let mut flow = begin(alloc, boxes)?;
    for k in 1..boxes.list.len() {
        let at = BoxAt { boxes: *boxes, k };
        advance(&ChildAt { at }, &mut flow)?;
    }
    finish(boxes, &mut flow)?;
    let placing = flow.placing;
    let corners = line_corners(alloc, boxes.list.len(), &placing.met)?;
    Ok(FlowColumns {
        tops: flow.marks,
        heights: flow.heights,
        places: placing.places,
        rows: placing.rows,
        corners,
    })
}

// The top of the content of the context's own box: the pass is before its first child.
fn begin(alloc: Global, boxes: &Boxes<'_>) -> Result<Pass, NoMemory>
    ensures { IfOk result (λ flow. IsKnown boxes.now.list.now flow 0 1) }
{
    let count = boxes.list.len();
    let marks = vec![in alloc; Unit(0); count]?;
    let mut placing = none_placed(alloc, count)?;
    let marked = MarkedBoxes {
        boxes: *boxes,
        marks: &marks,
    };
    place_up_to(&marked, &mut placing, 1)?;
    let root = BoxAt {
        boxes: *boxes,
        k: 0,
    };
    Ok(Pass {
        marks,
        heights: vec![in alloc; Unit(0); count]?,
        through: vec![in alloc; false; count]?,
        clear_edges: vec![in alloc; None; count]?,
        start: RunStart::At(root.block().edge_top),
        strut: no_margin(),
        first: 1,
        placing,
    })
}

// No box is placed.
fn none_placed(alloc: Global, count: usize) -> Result<Placing, NoMemory>
    ensures extents { IfOk result (λ placing. placing.extents.items ≡ replicate count no_length) }
    ensures floats { IfOk result (λ placing. placing.floats ≡ []) }
    ensures places { IfOk result (λ placing. placing.places.items ≡ []) }
    ensures rows { IfOk result (λ placing. placing.rows.items ≡ []) }
    ensures met { IfOk result (λ placing. placing.met.items ≡ []) }
{
    Ok(Placing {
        alloc,
        extents: vec![in alloc; Unit(0); count]?,
        floats: Floats::new(alloc),
        places: Vec::new(alloc),
        rows: Vec::new(alloc),
        met: Vec::new(alloc),
    })
}

// Closes the open boxes that the box isn't in, and opens that one.
fn advance(child: &ChildAt<'_>, flow: &mut Pass) -> Result<(), NoMemory>
    requires { IsKnown child.now.at.boxes.list.now flow.old (child.now.at.k - 1) child.now.at.k }
    ensures { OnOk result (IsKnown child.now.at.boxes.list.now flow.new child.now.at.k (child.now.at.k + 1)) }
{
    close_to(&child.at.boxes, flow, child.at.k)?;
    open(child, flow)?;
    Ok(())
}

// Closes the open boxes that the box at m isn't in. The one before it is the innermost.
fn close_to(boxes: &Boxes<'_>, flow: &mut Pass, m: usize) -> Result<(), NoMemory>
    requires { IsKnown boxes.now.list.now flow.old (m - 1) m }
    ensures next { OnOk result (m < length boxes.now.list.now → IsKnown boxes.now.list.now flow.new (parent_at boxes.now.list.now m) m) }
    ensures last { OnOk result (length boxes.now.list.now ≤ m → IsKnown boxes.now.list.now flow.new 0 m) }
{
    let to = boxes.holder_at(m);
    let mut innermost = m - 1;
    while innermost != to {
        let at = BoxAt {
            boxes: *boxes,
            k: innermost,
        };
        let block = at.block();
        let ending = EndingBox {
            at,
            block: &block,
            next: m,
        };
        close(&ending, flow)?;
        innermost = at.parent();
    }
    Ok(())
}

// Closes all boxes, the context's own one last.
fn finish(boxes: &Boxes<'_>, flow: &mut Pass) -> Result<(), NoMemory>
    requires { IsKnown boxes.now.list.now flow.old (length boxes.now.list.now - 1) (length boxes.now.list.now) }
    ensures finished { OnOk result (IsFinished boxes.now.list.now flow.new) }
    ensures near { OnOk result (AreNear flow.new.marks.items) }
    ensures sized { OnOk result (AreBoxHeights boxes.now.list.now flow.new.heights.items) }
{
    let count = boxes.list.len();
    close_to(boxes, flow, count)?;
    close_root(boxes, flow)?;
    Ok(())
}

// The last run ends, and with it the content of the context's own box, which reaches round its floats.
fn close_root(boxes: &Boxes<'_>, flow: &mut Pass) -> Result<(), NoMemory>
    requires { IsKnown boxes.now.list.now flow.old 0 (length boxes.now.list.now) }
    ensures finished { OnOk result (IsFinished boxes.now.list.now flow.new) }
    ensures near { OnOk result (AreNear flow.new.marks.items) }
    ensures sized { OnOk result (AreBoxHeights boxes.now.list.now flow.new.heights.items) }
{
    let count = boxes.list.len();
    let end = end_of(flow.start, flow.strut);
    let run = EndedRun {
        boxes: *boxes,
        through: &flow.through,
        first: flow.first,
        end: count,
        mark: end,
    };
    run.settle(&mut flow.marks);
    let marked = MarkedBoxes {
        boxes: *boxes,
        marks: &flow.marks,
    };
    place_up_to(&marked, &mut flow.placing, count)?;
    let root = BoxAt {
        boxes: *boxes,
        k: 0,
    };
    let block = root.block();
    let mark = length_at(&flow.marks, 0);
    let bottom = flow.placing.floats.clear_edge(Clear::Both);
    let standing = StandingBlock {
        block: &block,
        mark,
        extent: length_at(&flow.placing.extents, 0),
    };
    let height = standing.root_height(standing.root_end(Near { unit: end }), bottom);
    write_at(&mut flow.heights, 0, height);
    Ok(())
}
