//! The heights of blocks whose content is known (CSS 2.2, 10.6.3, 10.6.7 and 10.7).

ghost use Rattle.std.specs.Prelude.{◌≡◌, ◌-ℤ◌, ◌+ℤ◌, false, true, pos, IfSome};
ghost use Rattle.lay_units.specs.Units.{IsPosition, IsUsedSize, IsBoxSize, IsNear};
ghost use Rattle.lay_heights.specs.AutoHeights.{EndsFit, auto_height_of, root_height_of};
ghost use Rattle.lay_heights.specs.MinMax.{with_min_max_of};
ghost use Rattle.lay_flow.specs.Blocks.BlockPositions.{border_height, given_or_auto, held_end, held_height, is_lines, is_solid, line_end};
ghost use Rattle.lay_flow.specs.Blocks.BlockSizes.{BlockFits, IsLineDepth};

use crate::blocks::block::Block;
use crate::blocks::near::Near;
use lay_heights::{FlowEnds, auto_height_flow, auto_height_root, with_min_max};
use lay_units::{Len, Unit, sum_of};

/// A block whose content is known, and its mark.
#[derive(Clone, Copy)]
pub struct StandingBlock<'a> {
    pub block: &'a Block,
    pub mark: Unit,
    /// The depth of its lines, or of a solid box how far that reaches below its mark.
    pub extent: Unit,
    pub ghost fits: { BlockFits block.now },
    pub ghost near: { IsNear mark.0 },
    pub ghost lines: { is_lines block.now.inside ≡ true → IsLineDepth mark.0 block.now.edge_top.0 extent.0 },
}

impl StandingBlock<'_> {
    /// The height of its border box, where its content ends with the border of its last child. That of a solid
    /// box is its extent.
    pub fn height_to_border(&self, border: Near) -> Unit
        ensures value { result.0
            ≡ border_height self.now.block.now self.now.extent.0 (border.unit.0 -ℤ (self.now.mark.0 +ℤ self.now.block.now.edge_top.0)) }
        ensures size { is_solid self.now.block.now.inside ≡ false → IsBoxSize result.0 }
    {
        self.height_to(&FlowEnds {
            top: self.top(),
            line: None,
            margin: None,
            border: Some(border.unit),
        })
    }

    /// The height of its border box, where its content ends with its last line, or else with the bottom margin of
    /// its last child.
    pub fn height_to_margin(&self, margin: Near) -> Unit
        ensures value { result.0
            ≡ border_height self.now.block.now self.now.extent.0
            (held_height self.now.block.now.inside self.now.extent.0
            (margin.unit.0 -ℤ (self.now.mark.0 +ℤ self.now.block.now.edge_top.0))) }
        ensures size { is_solid self.now.block.now.inside ≡ false → IsBoxSize result.0 }
    {
        self.height_to(&FlowEnds {
            top: self.top(),
            line: self.line_end(),
            margin: Some(margin.unit),
            border: None,
        })
    }

    /// Its bottom border edge, for this height of its border box.
    pub fn bottom(&self, height: Unit) -> Unit
        requires { IsPosition height.0 }
        ensures { result ≡ record { 0 = self.now.mark.0 +ℤ height.0 } }
    {
        sum_of(self.mark, height)
    }

    // The top edge of its content.
    fn top(&self) -> Unit
        ensures { result ≡ record { 0 = self.now.mark.0 +ℤ self.now.block.now.edge_top.0 } }
    {
        sum_of(self.mark, self.block.edge_top)
    }

    // Where its lines end.
    fn line_end(&self) -> Option<Unit>
        ensures { result
            ≡ line_end self.now.block.now.inside (record { 0 = self.now.mark.0 +ℤ self.now.block.now.edge_top.0 }) self.now.extent.0 }
    {
        if self.block.inside.is_lines() {
            return Some(sum_of(self.top(), self.extent));
        }
        None
    }

    fn height_to(&self, ends: &FlowEnds) -> Unit
        requires { EndsFit ends.now }
        ensures value { result.0 ≡ border_height self.now.block.now self.now.extent.0 (auto_height_of ends.now) }
        ensures size { is_solid self.now.block.now.inside ≡ false → IsBoxSize result.0 }
    {
        if self.block.inside.is_solid() {
            return self.extent;
        }
        self.framed(auto_height_flow(ends))
    }

    /// Where the content of the context's own box ends: with its last line, or else with the last margin.
    pub fn root_end(&self, margin: Near) -> Near
        ensures { result.unit.0
            ≡ held_end self.now.block.now.inside (self.now.mark.0 +ℤ self.now.block.now.edge_top.0) self.now.extent.0 margin.unit.0 }
    {
        match self.line_end() {
            Some(end) => Near { unit: end },
            None => margin,
        }
    }

    /// The height of the border box of the context's own box, whose content ends at `end`, and its floats at a lowest
    /// bottom.
    pub fn root_height(&self, end: Near, floats: Option<Unit>) -> Unit
        requires { IfSome floats (λ v. IsPosition v.0) }
        ensures value { result.0
            ≡ border_height self.now.block.now (pos 0)
            (root_height_of (record { 0 = self.now.mark.0 +ℤ self.now.block.now.edge_top.0 }) end.unit floats) }
        ensures size { is_solid self.now.block.now.inside ≡ false → IsBoxSize result.0 }
    {
        if self.block.inside.is_solid() {
            return Unit(0);
        }
        self.framed(auto_height_root(self.top(), end.unit, floats))
    }

    // The height of its border box, for the auto height of its content.
    fn framed(&self, auto: Unit) -> Unit
        requires { IsUsedSize auto.0 }
        ensures value { result.0
            ≡ self.now.block.now.edge_top.0
            +ℤ with_min_max_of
            (given_or_auto self.now.block.now.height auto.0) self.now.block.now.min_height.0 self.now.block.now.max_height
            +ℤ self.now.block.now.edge_bottom.0 }
        ensures size { IsBoxSize result.0 }
    {
        let content = match self.block.height {
            Len::Auto => auto,
            Len::Of(given) => given,
        };
        let height = with_min_max(content, self.block.min_height, self.block.max_height);
        self.with_edges(height)
    }

    // This height of its content, with its borders and paddings above and below.
    fn with_edges(&self, height: Unit) -> Unit
        requires { IsUsedSize height.0 }
        ensures value { result.0 ≡ self.now.block.now.edge_top.0 +ℤ height.0 +ℤ self.now.block.now.edge_bottom.0 }
        ensures size { IsBoxSize result.0 }
    {
        Unit(self.block.edge_top.0 + height.0 + self.block.edge_bottom.0)
    }
}
