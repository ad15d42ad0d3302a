//! The boxes of one context as its block formatting context takes them.

ghost use Rattle.std.specs.Prelude.{ℕ, ◌≡◌, ◌<◌, ◌≤◌, length, IfOk};
ghost use Rattle.lay_sizes.specs.SizeBounds.{SizeFits};
ghost use Rattle.lay_box_tree.specs.InlineParts.{AreInlineParts};
ghost use Rattle.lay_flow.specs.Blocks.Boxes.{box_at};
ghost use Rattle.lay_sizes.specs.OwnBoxes.{own_box_at};
ghost use Rattle.lay_flow_boxes.specs.ContextBlocks.{AreFlowBoxesOf, block_box, cleared_by, cleared_sides, float_box};
ghost use Rattle.lay_flow_boxes.specs.ContextBlocks.{float_side, flow_box_of, has_lines, height_rule, inner_box};
ghost use Rattle.lay_flow_boxes.specs.ContextBlocks.{is_anchor, kind_alone, kind_in_lines, own_block, side_of};
ghost use Rattle.lay_flow_boxes.specs.FlowShapes.{measures_in, most_flow_boxes};
ghost use Rattle.lay_flow_boxes.specs.LineBoxes.{IsShaping};
ghost use Rattle.lay_flow_boxes.specs.PlaceInputs.{height_rule_of};
ghost use Rattle.lay_flow_boxes.specs.NearLefts.{AreNearLefts, IsNearLeft};

use crate::box_columns::{is_inner, length_at, own_box_at, style_at};
use crate::context_blocks::{content_right, inside_edge};
use crate::inline_containers::inline_containers;
use crate::line_boxes::{Shaping, lines_in};
use crate::place_input::{PlaceInput, height_rule_of};
use lay_box_tree::{InlinePart, Role};
use lay_floats::{Clear, Side};
use lay_flow::blocks::{
    Across, BlockBox, FloatBox, FlowBox, FlowKind, HeightRule, LinesBox, SolidBox, Vertical,
};
use lay_placements::sizes_at;
use lay_sizes::{BoxSizes, OwnBox};
use lay_style::Float;
use lay_units::{Len, NoMemory, Unit};
use std::alloc::Global;

/// The boxes of a flow, for the left border edges of boxes.
pub(crate) fn flow_boxes_of(
    alloc: Global,
    input: &PlaceInput,
    parts: &[InlinePart],
    lefts: &[Unit],
) -> Result<Vec<FlowBox>, NoMemory>
    requires few { length input.now.boxes ≤ most_flow_boxes }
    requires parts { AreInlineParts input.now.boxes parts.now }
    requires lefts { length lefts.now ≡ length input.now.boxes }
    requires near { AreNearLefts lefts.now }
    ensures { IfOk result (λ v. AreFlowBoxesOf (measures_in input.now parts.now) input.now.own_height lefts.now v.items) }
{
    let inline_containers = inline_containers(alloc, input.context_boxes())?;
    let of = Shaping {
        input,
        parts,
        lefts,
        inline_containers: &inline_containers,
    };
    let count = input.boxes().len();
    let mut flow_boxes = Vec::with_capacity(alloc, count)?;
    for k in 0..count {
        let flow_box = flow_box_of(alloc, &of, &flow_boxes, k)?;
        flow_boxes.push(flow_box)?;
    }
    Ok(flow_boxes)
}

/// The box at k, where those before it are known.
fn flow_box_of(
    alloc: Global,
    of: &Shaping<'_>,
    flow_boxes: &[FlowBox],
    k: usize,
) -> Result<FlowBox, NoMemory>
    requires shaping { IsShaping of.now.input.now.boxes of.now.parts.now of.now.lefts.now of.now.inline_containers.now }
    requires place { k < length of.now.input.now.boxes }
    requires known { length flow_boxes.now ≡ k }
    requires before { (j : ℕ) → j < k
        → box_at flow_boxes.now j
        ≡ flow_box_of (measures_in of.now.input.now of.now.parts.now) of.now.input.now.own_height of.now.lefts.now j }
    ensures { IfOk result
        (λ b. b ≡ flow_box_of (measures_in of.now.input.now of.now.parts.now) of.now.input.now.own_height of.now.lefts.now k) }
{
    let parent = of.input.container(k);
    let in_lines = 0 < k && holds_lines(flow_boxes, parent);
    let kind = match lines_in(alloc, of, k)? {
        Some(content) => FlowKind::Lines(LinesBox {
            block: own_block(of, k),
            content,
        }),
        None if in_lines => kind_in_lines(of, k),
        None => kind_alone(of, k),
    };
    Ok(FlowBox { parent, kind })
}

/// Whether the flow box at k holds lines.
fn holds_lines(flow_boxes: &[FlowBox], k: usize) -> bool
    requires { k < length flow_boxes.now }
    ensures { result ≡ has_lines (box_at flow_boxes.now k).kind }
{
    matches!(flow_boxes[k].kind, FlowKind::Lines(_))
}

/// What the box at k is in the lines of its container, which place it if it floats.
fn kind_in_lines(of: &Shaping<'_>, k: usize) -> FlowKind
    requires { k < length of.now.input.now.boxes }
    ensures { result
        ≡ kind_in_lines (float_side of.now.input.now.boxes k) (cleared_by of.now.input.now.boxes k) (own_box_at of.now.input.now.inner k) }
{
    let input = of.input;
    let _ = input.context_boxes();
    match float_side(input, k) {
        None => FlowKind::Inline,
        Some(side) => FlowKind::LineFloat(float_box(
            side,
            cleared_by(input, k),
            own_box_at(input.inner(), k),
        )),
    }
}

/// What the box at k is, where it is in no lines. Anchors take no room, nor do inline boxes and texts then.
fn kind_alone(of: &Shaping<'_>, k: usize) -> FlowKind
    requires lefts { length of.now.lefts.now ≡ length of.now.input.now.boxes }
    requires near { AreNearLefts of.now.lefts.now }
    requires place { k < length of.now.input.now.boxes }
    ensures { result
        ≡ kind_alone of.now.input.now.boxes of.now.input.now.sizes of.now.input.now.inner of.now.input.now.own_height of.now.lefts.now k }
{
    let input = of.input;
    if is_anchor(input.role(k)) {
        return FlowKind::Block(EMPTY_BLOCK);
    }
    if is_inner(input.boxes(), k) {
        return inner_box(
            float_side(input, k),
            cleared_by(input, k),
            own_box_at(input.inner(), k),
            length_at(of.lefts, k),
        );
    }
    if input.role(k).is_inline_level() {
        return FlowKind::Block(EMPTY_BLOCK);
    }
    FlowKind::Block(own_block(of, k))
}

/// The block box at k.
fn own_block(of: &Shaping<'_>, k: usize) -> BlockBox
    requires lefts { length of.now.lefts.now ≡ length of.now.input.now.boxes }
    requires near { AreNearLefts of.now.lefts.now }
    requires place { k < length of.now.input.now.boxes }
    ensures { result ≡ own_block of.now.input.now.boxes of.now.input.now.sizes of.now.input.now.own_height of.now.lefts.now k }
{
    let input = of.input;
    let _ = input.context_boxes();
    block_box(
        cleared_by(input, k),
        sizes_at(input.sizes(), k),
        height_rule(input, k),
        length_at(of.lefts, k),
    )
}

/// What is given of the height of the box at k.
fn height_rule(input: &PlaceInput, k: usize) -> HeightRule
    requires { k < length input.now.boxes }
    ensures { result ≡ height_rule input.now.sizes input.now.own_height k }
{
    if k == 0 {
        return input.own_height();
    }
    let _ = input.context_boxes();
    height_rule_of(sizes_at(input.sizes(), k))
}

/// Whether a box is the anchor of an absolutely positioned one.
pub fn is_anchor(role: Role) -> bool
    ensures { result ≡ is_anchor role }
{
    matches!(role, Role::Anchor)
}

/// A block box that takes no room.
const EMPTY_BLOCK: BlockBox = BlockBox {
    clear: Clear::None,
    x: Unit(0),
    margin: Vertical {
        top: Unit(0),
        bottom: Unit(0),
    },
    inset: Vertical {
        top: Unit(0),
        bottom: Unit(0),
    },
    content: Across {
        left: Unit(0),
        right: Unit(0),
    },
    height: HeightRule {
        given: Len::Auto,
        min: Unit(0),
        max: None,
    },
};

fn block_box(clear: Clear, sizes: BoxSizes, height: HeightRule, left: Unit) -> BlockBox
    requires sizes { SizeFits sizes }
    requires left { IsNearLeft left.0 }
    ensures { result ≡ block_box clear sizes height left }
{
    let content = inside_edge(left, sizes);
    BlockBox {
        clear,
        x: left,
        margin: Vertical {
            top: sizes.margin_top,
            bottom: sizes.margin_bottom,
        },
        inset: Vertical {
            top: sizes.edges.top,
            bottom: sizes.edges.bottom,
        },
        content: Across {
            left: content,
            right: content_right(content, sizes),
        },
        height,
    }
}

/// The box of an inner context.
fn inner_box(float: Option<Side>, clear: Clear, own: OwnBox, left: Unit) -> FlowKind
    ensures { result ≡ inner_box float clear own left }
{
    match float {
        None => FlowKind::Solid(SolidBox {
            clear,
            x: left,
            margin: Vertical {
                top: own.margin.top,
                bottom: own.margin.bottom,
            },
            width: own.width,
            height: own.height,
        }),
        Some(side) => FlowKind::Float(float_box(side, clear, own)),
    }
}

fn float_box(side: Side, clear: Clear, own: OwnBox) -> FloatBox
    ensures { result ≡ float_box side clear own }
{
    FloatBox {
        side,
        clear,
        margin: own.margin,
        width: own.width,
        height: own.height,
    }
}

/// The side to which the box at k floats.
fn float_side(input: &PlaceInput, k: usize) -> Option<Side>
    requires { k < length input.now.boxes }
    ensures { result ≡ float_side input.now.boxes k }
{
    if input.is_float(k) {
        return side_of(style_at(input.boxes(), k).float);
    }
    None
}

fn side_of(float: Float) -> Option<Side>
    ensures { result ≡ side_of float }
{
    match float {
        Float::None => None,
        Float::Left => Some(Side::Left),
        Float::Right => Some(Side::Right),
    }
}

/// The sides whose floats the box at k goes past: none for the context's own box.
fn cleared_by(input: &PlaceInput, k: usize) -> Clear
    requires { k < length input.now.boxes }
    ensures { result ≡ cleared_by input.now.boxes k }
{
    if k == 0 {
        return Clear::None;
    }
    cleared_sides(input.clear(k))
}

fn cleared_sides(clear: lay_style::Clear) -> Clear
    ensures { result ≡ cleared_sides clear }
{
    match clear {
        lay_style::Clear::None => Clear::None,
        lay_style::Clear::Left => Clear::Left,
        lay_style::Clear::Right => Clear::Right,
        lay_style::Clear::Both => Clear::Both,
    }
}
