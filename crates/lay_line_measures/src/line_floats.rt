//! Floats in the content of lines.

ghost use Rattle.std.specs.Prelude.{◌≡◌, slice_get};
ghost use Rattle.lay_box_tree.specs.Roles.{clear_of_box};
ghost use Rattle.lay_sizes.specs.OwnBoxes.{OwnBoxFits};
ghost use Rattle.lay_line_measures.specs.LineFloats.{cleared_float_sides, clear_in, float_at, request_of, side_in};

use crate::box_measures::BoxMeasures;
use crate::container::Container;
use lay_box_tree::{BoxKind, BoxNode, Role};
use lay_floats::{Clear, FloatReq, Side};
use lay_lines::content::LineFloat;
use lay_sizes::OwnBox;
use lay_units::Unit;

/// The float at a place in a container. Its ceiling comes from its line.
pub(crate) fn float_at(measures: &BoxMeasures<'_>, container: Container, place: u32) -> LineFloat
    ensures { result ≡ float_at measures.now container place }
{
    let k = place as usize;
    let boxes = measures.boxes();
    LineFloat {
        node: place,
        req: request_of(
            side_at(boxes, k),
            clear_at(boxes, k),
            measures.own_box_at(k),
            container,
        ),
    }
}

fn request_of(side: Side, clear: Clear, own: OwnBox, container: Container) -> FloatReq
    requires { OwnBoxFits own }
    ensures { result ≡ request_of side clear own container }
{
    FloatReq {
        side,
        width: own.margin_width(),
        height: own.margin_height(),
        left: container.left,
        right: container.right,
        ceiling: Unit(0),
        clear,
    }
}

/// The side to which the float at k goes.
fn side_at(boxes: &[BoxNode], k: usize) -> Side
    ensures { result ≡ side_in (slice_get boxes.now k) }
{
    match boxes.get(k) {
        Some(node) => match node.role() {
            Role::RightFloat => Side::Right,
            _ => Side::Left,
        },
        None => Side::Left,
    }
}

/// The sides whose floats the float at k goes past (CSS 2.2, 9.5.2).
fn clear_at(boxes: &[BoxNode], k: usize) -> Clear
    ensures { result ≡ clear_in (slice_get boxes.now k) }
{
    match boxes.get(k) {
        Some(node) => cleared_sides(clear_of(node)),
        None => Clear::None,
    }
}

fn clear_of(node: &BoxNode) -> lay_style::Clear
    ensures { result ≡ clear_of_box node.now }
{
    match node.kind {
        BoxKind::Wrapper | BoxKind::InlineWrapper => lay_style::Clear::None,
        _ => node.style.clear,
    }
}

fn cleared_sides(clear: lay_style::Clear) -> Clear
    ensures { result ≡ cleared_float_sides clear }
{
    match clear {
        lay_style::Clear::None => Clear::None,
        lay_style::Clear::Left => Clear::Left,
        lay_style::Clear::Right => Clear::Right,
        lay_style::Clear::Both => Clear::Both,
    }
}
