//! The boxes of a block formatting context (CSS 2.2, 9.4.1 and 9.5).

ghost use Rattle.std.specs.Prelude.{◌≡◌, List};
ghost use Rattle.lay_flow.specs.declared.blocks.flow_box.FlowBox.{FlowBox};
ghost use Rattle.lay_flow.specs.Blocks.FlowBoxes.{AreFlowBoxes};

use lay_floats::{Clear, Side};
use lay_lines::content::LineContent;
use lay_units::{Len, Sides, Unit};
use std::marker::Model;

/// A box of a block formatting context. All lengths are in 1/64 px, and horizontal positions are counted from
/// one origin of the context.
#[derive(Drop)]
pub struct FlowBox {
    /// The place of its parent among the boxes. That of the context's own box is 0.
    pub parent: usize,
    pub kind: FlowKind,
}

/// What a box is to its formatting context.
#[derive(Drop)]
pub enum FlowKind {
    /// A block box, in which further boxes of the context stand (9.4.1).
    Block(BlockBox),
    /// A block box that holds lines (9.4.2).
    Lines(LinesBox),
    /// A box that may not overlap floats: a table, a replaced box or the root of a formatting context of its
    /// own (9.5).
    Solid(SolidBox),
    /// A float (9.5.1).
    Float(FloatBox),
    /// A float that the lines of its parent meet, which place it.
    LineFloat(FloatBox),
    /// An inline box, or a text, in the lines of its parent.
    Inline,
}

/// A block box. Its margins, insets and horizontal edges are used values.
#[derive(Clone, Copy, Drop)]
pub struct BlockBox {
    pub clear: Clear,
    /// The left edge of its border box.
    pub x: Unit,
    pub margin: Vertical,
    /// Its border and its padding together.
    pub inset: Vertical,
    /// The edges of its content, which is the containing block of the boxes in it.
    pub content: Across,
    pub height: HeightRule,
}

/// A block box with lines in it.
#[derive(Drop)]
pub struct LinesBox {
    pub block: BlockBox,
    /// What its lines hold, measured.
    pub content: LineContent,
}

/// A box of a known size that may not overlap floats.
#[derive(Clone, Copy, Drop)]
pub struct SolidBox {
    pub clear: Clear,
    /// The left edge of its border box, where no float is beside it.
    pub x: Unit,
    pub margin: Vertical,
    /// The size of its border box.
    pub width: Unit,
    pub height: Unit,
}

/// A float.
#[derive(Clone, Copy, Drop)]
pub struct FloatBox {
    pub side: Side,
    pub clear: Clear,
    pub margin: Sides,
    /// The size of its border box.
    pub width: Unit,
    pub height: Unit,
}

/// Lengths above and below a box.
#[derive(Clone, Copy, Drop)]
pub struct Vertical {
    pub top: Unit,
    pub bottom: Unit,
}

/// Two vertical edges.
#[derive(Clone, Copy, Drop)]
pub struct Across {
    pub left: Unit,
    pub right: Unit,
}

/// What is given of the height of a block's content, with percentages resolved (10.5 and 10.7).
#[derive(Clone, Copy, Drop)]
pub struct HeightRule {
    pub given: Len,
    pub min: Unit,
    pub max: Option<Unit>,
}

/// The boxes of a block formatting context in document order, its own box first.
#[derive(Drop)]
pub struct FlowBoxes {
    items: Vec<FlowBox>,
}

impl Model for FlowBoxes {
    ghost Value = { List FlowBox };

    ghost view = { λ b. b.items.items };

    ghost invariant = { λ b. AreFlowBoxes b.items.items };
}

impl FlowBoxes {
    pub fn new(boxes: Vec<FlowBox>) -> Self
        requires { AreFlowBoxes boxes.items }
        ensures { result ≡ boxes.items }
    {
        FlowBoxes { items: boxes }
    }

    pub fn as_slice(&self) -> &[FlowBox]
        ensures value { result.now ≡ self.now }
        ensures are { AreFlowBoxes self.now }
    {
        &self.items
    }
}
