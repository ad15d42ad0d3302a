//! The boxes of one formatting context as its block flow takes them.

ghost use Rattle.std.specs.Prelude.{◌≡◌, ◌≤◌, length, IfOk};
ghost use Rattle.lay_flow_boxes.specs.FlowShapes.{IsFlowShape, most_flow_boxes};
ghost use Rattle.lay_flow_boxes.specs.NearLefts.{AreNearLefts};

use crate::context_blocks::lefts_of;
use crate::context_shapes::flow_boxes_of;
use crate::place_input::PlaceInput;
use lay_box_tree::{InlinePart, inline_parts};
use lay_flow::blocks::{FlowBoxes, is_light};
use lay_units::{NoMemory, Unit};
use std::alloc::Global;
use std::marker::Model;

/// The most boxes of a formatting context that block flow takes. A document has most where inline boxes stand in each other
/// and are broken around many blocks (CSS 2.2, 9.2.1.1): within the limits of its nodes and its depth about 2^20.
const MOST_BOXES: usize = 1 << 23;

/// The boxes of one formatting context as its block flow takes them, in their order, in 1/64 px. Horizontal positions are
/// counted from the left border edge of its own box.
#[derive(Drop)]
pub struct FlowShape {
    parts: Vec<InlinePart>,
    lefts: Vec<Unit>,
    flow_boxes: FlowBoxes,
}

impl Model for FlowShape {
    ghost use Rattle.lay_flow_boxes.specs.FlowShapes.{FlowShape as Plain};
    ghost use Rattle.lay_flow_boxes.specs.NearLefts.{AreNearLefts};

    ghost Value = { Plain };

    ghost view = { λ s. record { parts = s.parts.items; lefts = s.lefts.items; flow_boxes = s.flow_boxes } };

    ghost invariant = { λ s. AreNearLefts s.lefts.items };
}

impl FlowShape {
    /// Which parts of inline boxes the boxes are.
    pub fn parts(&self) -> &[InlinePart]
        ensures { result.now ≡ self.now.parts }
    {
        self.parts.as_slice()
    }

    /// The left border edges of boxes in flow, where no float is beside them; they are at most 2^49 units away.
    pub fn lefts(&self) -> &[Unit]
        ensures lefts { result.now ≡ self.now.lefts }
        ensures near { AreNearLefts self.now.lefts }
    {
        self.lefts.as_slice()
    }

    /// What the boxes are to the flow.
    pub fn flow_boxes(&self) -> &FlowBoxes
        ensures { result.now ≡ self.now.flow_boxes }
    {
        &self.flow_boxes
    }
}

/// The boxes of one formatting context as its block flow takes them. NoMemory is also the answer for more boxes than 2^23,
/// for a left border edge more than 2^49 units away, and where lines are out of the bounds of block flow.
pub fn flow_shape(alloc: Global, input: &PlaceInput) -> Result<FlowShape, NoMemory>
    ensures shape { IfOk result (IsFlowShape input.now) }
    ensures few { IfOk result (λ _. length input.now.boxes ≤ most_flow_boxes) }
{
    let boxes = input.boxes();
    if boxes.len() > MOST_BOXES {
        return Err(NoMemory);
    }
    let parts = inline_parts(alloc, boxes)?;
    let lefts = lefts_of(alloc, input)?;
    let flow_boxes = flow_boxes_of(alloc, input, &parts, &lefts)?;
    if !is_light(&flow_boxes) {
        return Err(NoMemory);
    }
    let flow_boxes = FlowBoxes::new(flow_boxes);
    Ok(FlowShape {
        parts,
        lefts,
        flow_boxes,
    })
}
