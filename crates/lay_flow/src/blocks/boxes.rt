//! The boxes of a flow, as its pass reads them.

ghost use Rattle.std.specs.Prelude.{◌≡◌, ◌<◌, ◌≤◌, length};
ghost use Rattle.lay_flow.specs.Blocks.Boxes.{parent_at};
ghost use Rattle.lay_flow.specs.Blocks.FlowBoxes.{AreFlowBoxes};
ghost use Rattle.lay_flow.specs.Blocks.BlockFloats.{shape_at};
ghost use Rattle.lay_flow.specs.Blocks.BlockSizes.{BlockFits};
ghost use Rattle.lay_flow.specs.Blocks.MarginRuns.{block_at};
ghost use Rattle.lay_flow.specs.Blocks.OneProof.{AreFlowBoxes-prop};

use crate::blocks::block::Block;
use crate::blocks::flow_box::FlowBox;
use crate::blocks::shape::Shape;
use lay_floats::{Clear, Side};

/// The boxes of a block formatting context in document order, its own box first.
#[derive(Clone, Copy)]
pub struct Boxes<'a> {
    pub list: &'a [FlowBox],
    pub ghost are: { AreFlowBoxes list.now } by { AreFlowBoxes-prop list.now },
}

/// The box at k.
#[derive(Clone, Copy)]
pub struct BoxAt<'a> {
    pub boxes: Boxes<'a>,
    pub k: usize,
    pub ghost within: { k < length boxes.list.now },
}

/// A box that is not the context's own.
#[derive(Clone, Copy)]
pub struct ChildAt<'a> {
    pub at: BoxAt<'a>,
    pub ghost positive: { 0 < at.k },
}

impl Boxes<'_> {
    /// The box in which those stand that are open before the one at m: its parent, and at the end the context's own box.
    pub fn holder_at(&self, m: usize) -> usize
        ensures next { m < length self.now.list.now → parent_at self.now.list.now m ≡ result }
        ensures last { length self.now.list.now ≤ m → result ≡ 0 }
    {
        if m < self.list.len() {
            return self.list[m].parent;
        }
        0
    }
}

impl BoxAt<'_> {
    /// The place of its parent.
    pub fn parent(&self) -> usize
        ensures value { result ≡ parent_at self.now.boxes.list.now self.now.k }
        ensures before { 0 < self.now.k → result < self.now.k }
        ensures within { result < length self.now.boxes.list.now }
    {
        self.boxes.list[self.k].parent
    }

    /// It as margins and heights see it.
    pub fn block(&self) -> Block
        ensures value { result ≡ block_at self.now.boxes.list.now self.now.k }
        ensures fits { BlockFits result }
    {
        self.boxes.list[self.k].block()
    }

    /// It as floats see it.
    pub fn shape(&self) -> Shape
        ensures { result ≡ shape_at self.now.boxes.list.now self.now.k }
    {
        let around = self.boxes.list[self.parent()].content();
        self.boxes.list[self.k].shape(around)
    }

    /// The sides whose floats it goes past.
    pub fn clear(&self) -> Clear
        ensures { result ≡ (shape_at self.now.boxes.list.now self.now.k).clear }
    {
        self.boxes.list[self.k].clear()
    }

    /// The side that it floats to.
    pub fn side(&self) -> Option<Side>
        ensures { result ≡ (shape_at self.now.boxes.list.now self.now.k).float }
    {
        self.boxes.list[self.k].side()
    }
}
