//! The content of the lines of a container.

ghost use Rattle.std.specs.Prelude.{◌≡◌, ◌↔◌, ◌<◌, ◌≤◌, IsTrue, None, IfSome};
ghost use Rattle.lay_lines.specs.Content.LineContents.{IsLineContent, boxes_of, content_of, lines_weight};

use crate::content::bounds::{Summary, summary_of};
use crate::content::content::Stretch;
use crate::content::frame::Extent;
use crate::content::lists::StretchList;
use lay_units::Unit;
use std::marker::Model;

/// The content of the lines of a container, measured, with the container's strut, its `text-indent` and the
/// distance between its tab stops. The strut and each inline box reach at most 2^34 units of 1/64 px, no atomic box and no float is
/// larger, and the length of an alignment is at most 2^35; the indent is a used length and the distance 0 to 2^45 units; no
/// float has a containing block edge further than 2^50 away; all widths together are at most 2^58 units, with a tab as wide as
/// the distance of stops; all atomic boxes, each together with its baseline, are at most 2^59 - 2^54 units high; inline boxes and
/// atomic boxes are at most 2^31, of which at most 128 stand in each other, and the weight is at most 16,711,680.
#[derive(Drop)]
pub struct LineContent {
    strut: Extent,
    indent: Unit,
    tab: Unit,
    stretches: StretchList,
    summary: Summary,
}

impl Model for LineContent {
    ghost use Rattle.std.specs.Prelude.{◌≡◌, ◌↔◌, ◌<◌, IsTrue};
    ghost use Rattle.lay_lines.specs.Content.LineContents.{LineContentValue, IsLineContent, boxes_of, content_of, lines_weight};

    ghost Value = { LineContentValue };

    ghost view = { λ c. content_of c.strut c.indent c.tab c.stretches };

    ghost invariant = { λ c. IsLineContent (content_of c.strut c.indent c.tab c.stretches)
        × (c.summary.weight ≡ lines_weight (content_of c.strut c.indent c.tab c.stretches))
        × (IsTrue c.summary.has_boxes ↔ 0 < boxes_of c.stretches) };
}

impl LineContent {
    /// None exactly where the bounds don't hold.
    pub fn new(
        strut: Extent,
        indent: Unit,
        tab: Unit,
        stretches: StretchList,
    ) -> Option<LineContent>
        ensures some { IfSome result (λ c. c ≡ content_of strut indent tab stretches) }
        ensures fits { IfSome result IsLineContent }
        ensures none { result ≡ None → IsLineContent (content_of strut indent tab stretches) → ⊥ }
    {
        match summary_of(strut, indent, tab, stretches.as_slice()) {
            None => None,
            Some(summary) => Some(LineContent {
                strut,
                indent,
                tab,
                stretches,
                summary,
            }),
        }
    }

    /// How far the container's strut reaches above and below the baseline.
    pub fn strut(&self) -> Extent
        ensures { result ≡ self.now.strut }
    {
        self.strut
    }

    pub fn indent(&self) -> Unit
        ensures { result ≡ self.now.indent }
    {
        self.indent
    }

    /// The distance between tab stops; 0 where there are none.
    pub fn tab(&self) -> Unit
        ensures { result ≡ self.now.tab }
    {
        self.tab
    }

    /// How much there is to lay out: nine for each of its stretches and their floats, one for each 2^36 units that its atomic
    /// boxes are high, each together with its baseline, and one more. Lines reach at most 2^36 units further for each weight.
    pub fn weight(&self) -> u64
        ensures value { result ≡ lines_weight self.now }
        ensures small { result ≤ 16711680 }
    {
        self.summary.weight
    }

    /// Whether it has inline boxes or atomic boxes.
    pub fn has_boxes(&self) -> bool
        ensures { IsTrue result ↔ 0 < boxes_of self.now.stretches }
    {
        self.summary.has_boxes
    }

    pub fn stretches(&self) -> &[Stretch]
        ensures value { result.now ≡ self.now.stretches }
        ensures fits { IsLineContent self.now }
    {
        self.stretches.as_slice()
    }
}
