//! Which boxes can be the containing block of an absolutely positioned one.

ghost use Rattle.std.specs.Prelude.{◌≡◌, ◌<◌, IfSome, length};
ghost use Rattle.lay_style.specs.Positions.{is_positioned};
ghost use Rattle.lay_box_tree.specs.Containers.{box_parent};
ghost use Rattle.lay_positioned.specs.Holders.{IsHolderFor, IsNearestHolder, can_hold, is_holder, is_holder_at};

use lay_box_tree::{BoxKind, BoxNode, ContextBoxes, box_parent};
use lay_style::Position;

/// The one that counts for a box at k, if there is one among these boxes.
pub fn holder_for(is_fixed: bool, boxes: &ContextBoxes, k: usize) -> Option<usize>
    requires { k < length boxes.now }
    ensures holder { IsHolderFor is_fixed boxes.now k result }
    ensures within { IfSome result (λ h. h < length boxes.now) }
{
    if is_fixed {
        return None;
    }
    nearest_holder(boxes, k)
}

/// The nearest one around the box at k: a walk out to the own box.
fn nearest_holder(boxes: &ContextBoxes, k: usize) -> Option<usize>
    requires { k < length boxes.now }
    ensures holder { IsNearestHolder boxes.now k result }
    ensures within { IfSome result (λ h. h < length boxes.now) }
{
    let nodes = boxes.as_slice();
    let mut at = k;
    while at > 0 {
        let parent = box_parent(nodes, at);
        if is_holder_at(nodes, parent) {
            return Some(parent);
        }
        at = parent;
    }
    None
}

fn is_holder_at(boxes: &[BoxNode], k: usize) -> bool
    requires { k < length boxes.now }
    ensures { result ≡ is_holder_at boxes.now k }
{
    is_holder(&boxes[k])
}

fn is_holder(node: &BoxNode) -> bool
    ensures { result ≡ is_holder node.now }
{
    is_positioned(node.style.position) && can_hold(&node.kind)
}

fn is_positioned(position: Position) -> bool
    ensures { result ≡ is_positioned position }
{
    !matches!(position, Position::Static)
}

fn can_hold(kind: &BoxKind) -> bool
    ensures { result ≡ can_hold kind.now }
{
    matches!(
        kind,
        BoxKind::Block | BoxKind::InlineBlock | BoxKind::Wrapper | BoxKind::InlineWrapper
    )
}
