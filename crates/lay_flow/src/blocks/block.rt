//! Boxes as margins and heights see them.

ghost use Rattle.std.specs.Prelude.{◌≡◌};
ghost use Rattle.lay_flow.specs.Blocks.MarginRuns.{block_of, block_with};

use crate::blocks::flow_box::{BlockBox, FlowBox, FlowKind, SolidBox};
use lay_units::{Len, Unit};

/// What stands between the margins of a box.
#[derive(Clone, Copy)]
pub enum Inside {
    /// Boxes of the context, or nothing.
    Blocks,
    /// Lines.
    Lines,
    /// What is no part of the context.
    Solid,
}

/// The vertical sizes of a box, with percentages resolved. All are in 1/64 px.
#[derive(Clone, Copy)]
pub struct Block {
    /// Its used margins, which may be negative.
    pub margin_top: Unit,
    pub margin_bottom: Unit,
    /// Its border and its padding above its content, and below it.
    pub edge_top: Unit,
    pub edge_bottom: Unit,
    /// Its height and the bounds of that, of which no `max-height` is None.
    pub height: Len,
    pub min_height: Unit,
    pub max_height: Option<Unit>,
    pub inside: Inside,
}

/// An empty block.
const NO_BLOCK: Block = Block {
    margin_top: Unit(0),
    margin_bottom: Unit(0),
    edge_top: Unit(0),
    edge_bottom: Unit(0),
    height: Len::Auto,
    min_height: Unit(0),
    max_height: None,
    inside: Inside::Blocks,
};

impl FlowBox {
    /// The box as margins and heights see it.
    pub(crate) fn block(&self) -> Block
        ensures { result ≡ block_of self.now.kind }
    {
        match &self.kind {
            FlowKind::Block(b) => b.block(Inside::Blocks),
            FlowKind::Lines(l) => l.block.block(Inside::Lines),
            FlowKind::Solid(b) => Block {
                margin_top: b.margin.top,
                margin_bottom: b.margin.bottom,
                inside: Inside::Solid,
                ..NO_BLOCK
            },
            FlowKind::Float(_) | FlowKind::LineFloat(_) | FlowKind::Inline => NO_BLOCK,
        }
    }
}

impl BlockBox {
    // It as margins and heights see it, with this in it.
    fn block(&self, inside: Inside) -> Block
        ensures { result ≡ block_with self.now inside }
    {
        Block {
            margin_top: self.margin.top,
            margin_bottom: self.margin.bottom,
            edge_top: self.inset.top,
            edge_bottom: self.inset.bottom,
            height: self.height.given,
            min_height: self.height.min,
            max_height: self.height.max,
            inside,
        }
    }
}
