//! What of a block parts its margins (CSS 2.2, 8.3.1).

ghost use Rattle.std.specs.Prelude.{◌≡◌, ◌&&◌, not};
ghost use Rattle.lay_flow.specs.Blocks.BlockPositions.{is_lines, is_solid};
ghost use Rattle.lay_flow.specs.Blocks.MarginRuns.{is_auto_size, is_auto_or_zero, is_blocks};
ghost use Rattle.lay_flow.specs.Blocks.MarginRuns.{is_zero, may_collapse_through, may_join_bottoms};

use crate::blocks::block::{Block, Inside};
use lay_units::{Len, Unit};

fn is_zero(v: Unit) -> bool
    ensures { result ≡ is_zero v.0 }
{
    v.0 == 0
}

impl Inside {
    fn is_blocks(self) -> bool
        ensures { result ≡ is_blocks self }
    {
        match self {
            Inside::Blocks => true,
            Inside::Lines | Inside::Solid => false,
        }
    }

    /// Whether lines stand there.
    pub fn is_lines(self) -> bool
        ensures { result ≡ is_lines self }
    {
        match self {
            Inside::Lines => true,
            Inside::Blocks | Inside::Solid => false,
        }
    }

    /// Whether what stands there is no part of the context.
    pub fn is_solid(self) -> bool
        ensures { result ≡ is_solid self }
    {
        match self {
            Inside::Blocks | Inside::Lines => false,
            Inside::Solid => true,
        }
    }
}

fn is_auto(height: Len) -> bool
    ensures { result ≡ is_auto_size height }
{
    match height {
        Len::Auto => true,
        Len::Of(_) => false,
    }
}

fn is_auto_or_zero(height: Len) -> bool
    ensures { result ≡ is_auto_or_zero height }
{
    match height {
        Len::Auto => true,
        Len::Of(height) => is_zero(height),
    }
}

// Two margins adjoin (8.3.1):
// (a) the top margins of a box and of its first child, where no border and no padding stands between them, and the child has
//     no clearance;
// (b) the bottom margin of a box and the top margin of the next one, where that has no clearance;
// (c) the bottom margins of a last child and of its parent, where that has an auto height, no `min-height`, and no border and
//     no padding below its content;
// (d) the top and the bottom margin of a box without children in flow, or in which the margins of all adjoin, where that has
//     a height of auto or 0, no `min-height`, and no border and no padding.
// Clearance, for (a) and (b), is decided before the top margin of a box is read.
impl Block {
    /// (d) Whether nothing of the block itself parts its two margins.
    pub fn may_collapse_through(&self) -> bool
        ensures { result ≡ may_collapse_through self.now }
    {
        self.is_open_below() && is_zero(self.edge_top) && is_auto_or_zero(self.height)
    }

    /// (c) Whether nothing of the block itself parts its bottom margin from that of its last child.
    pub fn may_join_bottoms(&self) -> bool
        ensures { result ≡ may_join_bottoms self.now }
    {
        self.is_open_below() && is_auto(self.height)
    }

    // No border, padding or min-height stands before its bottom margin.
    fn is_open_below(&self) -> bool
        ensures { result ≡ (is_blocks self.now.inside && is_zero self.now.edge_bottom.0 && is_zero self.now.min_height.0) }
    {
        self.inside.is_blocks() && is_zero(self.edge_bottom) && is_zero(self.min_height)
    }

    /// (a) Whether a border or a padding parts its top margin from those of its children.
    pub fn has_edge_top(&self) -> bool
        ensures { result ≡ not (is_zero self.now.edge_top.0) }
    {
        !is_zero(self.edge_top)
    }
}
