//! The places of the sequence of margins of a context (CSS 2.2, 8.3.1).

ghost use Rattle.std.specs.Prelude.{◌≡◌, ◌<◌, ◌≤◌, length};
ghost use Rattle.lay_flow.specs.Blocks.Boxes.{parent_at};
ghost use Rattle.lay_flow.specs.Blocks.BlockSizes.{BlockFits};
ghost use Rattle.lay_flow.specs.Blocks.MarginRuns.{block_at};

use crate::blocks::{Block, BoxAt};

/// The innermost open box, which ends before the box at `next`.
#[derive(Clone, Copy)]
pub(crate) struct EndingBox<'a> {
    pub at: BoxAt<'a>,
    /// It as margins and heights see it.
    pub block: &'a Block,
    pub next: usize,
    ghost is: { block.now ≡ block_at at.boxes.list.now at.k },
    ghost fits: { BlockFits block.now },
    ghost positive: { 0 < at.k },
    ghost ends: { next < length at.boxes.list.now → parent_at at.boxes.list.now next < at.k },
}

/// A box before whose top margin a run comes that has the top margins of the boxes from `first` on.
#[derive(Clone, Copy)]
pub(crate) struct BoxInRun<'a> {
    pub at: BoxAt<'a>,
    pub first: usize,
    ghost least: { 0 < first },
    ghost most: { first ≤ at.k },
}
