//! How much the boxes of a context have to lay out.

ghost use Rattle.std.specs.Prelude.{◌≡◌, ◌↔◌, ◌+◌, ◌≤◌, ◌<◌, IsTrue, length, None, IfSome};
ghost use Rattle.lay_flow.specs.Blocks.Weights.{weight, box_weight};

use crate::blocks::flow_box::{FlowBox, FlowKind};

/// Whether boxes, with their lines, are few enough to be a context's: each counts once, and one that holds lines
/// once more for each weight of their content. All together are at most 2^24 - 2^16.
pub fn is_light(boxes: &[FlowBox]) -> bool
    ensures { IsTrue result ↔ weight boxes.now (length boxes.now) ≤ 16711680 }
{
    let mut left = 16711680;
    for k in 0..boxes.len() {
        match spend_box(left, &boxes[k]) {
            None => return false,
            Some(rest) => left = rest,
        }
    }
    true
}

// What is left after the weight of a box.
fn spend_box(left: u64, flow_box: &FlowBox) -> Option<u64>
    ensures some { IfSome result (λ rest. box_weight flow_box.now.kind + rest ≡ left) }
    ensures none { result ≡ None → left < box_weight flow_box.now.kind }
{
    left.checked_sub(box_weight(flow_box))
}

fn box_weight(flow_box: &FlowBox) -> u64
    ensures { result ≡ box_weight flow_box.now.kind }
{
    match &flow_box.kind {
        FlowKind::Lines(l) => 1 + l.content.weight(),
        FlowKind::Block(_)
        | FlowKind::Solid(_)
        | FlowKind::Float(_)
        | FlowKind::LineFloat(_)
        | FlowKind::Inline => 1,
    }
}
