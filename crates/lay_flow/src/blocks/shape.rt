//! Boxes as the floats of their block formatting context see them.

ghost use Rattle.std.specs.Prelude.{◌≡◌, ◌+ℤ◌, None};
ghost use Rattle.lay_units.specs.Units.{IsUsed, IsBoxSize};
ghost use Rattle.lay_units.specs.Lengths.{no_length};
ghost use Rattle.lay_flow.specs.Blocks.BlockFloats.{content_of, no_shape, shape_of};
ghost use Rattle.lay_flow.specs.declared.blocks.flow_box.Across.{Across};
ghost use Rattle.lay_flow.specs.Blocks.FlowBoxes.{KindFits};

use crate::blocks::flow_box::{Across, BlockBox, FlowBox, FlowKind};
use lay_floats::{Clear, Side};
use lay_units::Unit;

/// What floats see of a box beside its mark. All is in 1/64 px.
#[derive(Clone, Copy)]
pub struct Shape {
    /// The side that it floats to. A box in flow has none.
    pub float: Option<Side>,
    /// The sides whose floats it goes past.
    pub clear: Clear,
    /// The content edges of its containing block.
    pub left: Unit,
    pub right: Unit,
    /// The left border edge of a box in flow, where no float is beside it.
    pub x: Unit,
    /// The size of a float's margin box, or of the border box of a solid one.
    pub width: Unit,
    pub height: Unit,
}

impl FlowBox {
    /// Its content edges.
    pub(crate) fn content(&self) -> Across
        ensures { result ≡ content_of self.now.kind }
    {
        match &self.kind {
            FlowKind::Block(b) => b.content,
            FlowKind::Lines(l) => l.block.content,
            FlowKind::Solid(_) | FlowKind::Float(_) | FlowKind::LineFloat(_) | FlowKind::Inline => {
                Across {
                    left: Unit(0),
                    right: Unit(0),
                }
            }
        }
    }

    /// The sides whose floats it goes past.
    pub(crate) fn clear(&self) -> Clear
        ensures { (around : Across) → result ≡ (shape_of around self.now.kind).clear }
    {
        match &self.kind {
            FlowKind::Block(b) => b.clear,
            FlowKind::Lines(l) => l.block.clear,
            FlowKind::Solid(b) => b.clear,
            FlowKind::Float(b) => b.clear,
            FlowKind::LineFloat(_) | FlowKind::Inline => Clear::None,
        }
    }

    /// The side that it floats to.
    pub(crate) fn side(&self) -> Option<Side>
        ensures { (around : Across) → result ≡ (shape_of around self.now.kind).float }
    {
        match &self.kind {
            FlowKind::Block(_) | FlowKind::Lines(_) | FlowKind::Solid(_) => None,
            FlowKind::Float(b) => Some(b.side),
            FlowKind::LineFloat(_) | FlowKind::Inline => None,
        }
    }

    /// It as floats see it, with these content edges around it.
    pub(crate) fn shape(&self, around: Across) -> Shape
        requires { KindFits self.now.kind }
        ensures { result ≡ shape_of around self.now.kind }
    {
        match &self.kind {
            FlowKind::Block(b) => in_flow(around, b),
            FlowKind::Lines(l) => in_flow(around, &l.block),
            FlowKind::Solid(b) => Shape {
                clear: b.clear,
                x: b.x,
                width: b.width,
                height: b.height,
                ..no_shape(around)
            },
            FlowKind::Float(b) => Shape {
                float: Some(b.side),
                clear: b.clear,
                width: with_margins(b.margin.left, b.width, b.margin.right),
                height: with_margins(b.margin.top, b.height, b.margin.bottom),
                ..no_shape(around)
            },
            FlowKind::LineFloat(_) | FlowKind::Inline => no_shape(around),
        }
    }
}

// A block box, whose size is known later.
fn in_flow(around: Across, b: &BlockBox) -> Shape
    ensures { result
        ≡ record {
          float = None;
          clear = b.now.clear;
          left = around.left;
          right = around.right;
          x = b.now.x;
          width = no_length;
          height = no_length;
        } }
{
    Shape {
        clear: b.clear,
        x: b.x,
        ..no_shape(around)
    }
}

// Nothing that floats see.
fn no_shape(around: Across) -> Shape
    ensures { result ≡ no_shape around }
{
    Shape {
        float: None,
        clear: Clear::None,
        left: around.left,
        right: around.right,
        x: Unit(0),
        width: Unit(0),
        height: Unit(0),
    }
}

// The size of a margin box.
fn with_margins(before: Unit, size: Unit, after: Unit) -> Unit
    requires before { IsUsed before.0 }
    requires size { IsBoxSize size.0 }
    requires after { IsUsed after.0 }
    ensures { result ≡ record { 0 = before.0 +ℤ size.0 +ℤ after.0 } }
{
    Unit(before.0 + size.0 + after.0)
}
