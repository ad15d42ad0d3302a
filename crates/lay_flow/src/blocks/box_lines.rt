//! The lines of a box that holds lines, beside the floats that stand.

ghost use Rattle.std.specs.Prelude.{◌≡◌, ℕ, ◌+◌, ◌≤◌, All, pos, true, IfOk};
ghost use Rattle.lay_floats.specs.Within.{BoxWithin, IsWithin};
ghost use Rattle.lay_lines.specs.Lines.{AreLines, LinesWithin, growth, lines_with_floats};
ghost use Rattle.lay_flow.specs.Blocks.BlockFloats.{content_of, line_content_of};
ghost use Rattle.lay_flow.specs.Blocks.BlockPositions.{is_lines};
ghost use Rattle.lay_flow.specs.Blocks.FlowBoxes.{KindFits};
ghost use Rattle.lay_flow.specs.Blocks.MarginRuns.{block_of};

use crate::blocks::flow_box::{FlowBox, FlowKind};
use crate::blocks::near::Near;
use lay_floats::Floats;
use lay_lines::{Lines, lay};
use lay_units::NoMemory;
use std::alloc::Global;

impl FlowBox {
    /// The lines of a box that holds lines, from the top of its content.
    pub fn lay_lines(
        &self,
        alloc: Global,
        floats: &mut Floats,
        top: Near,
    ) -> Result<Lines, NoMemory>
        requires lines { is_lines (block_of self.now.kind).inside ≡ true }
        requires fits { KindFits self.now.kind }
        requires floats { All (BoxWithin (pos 1152921504606846976)) floats.old }
        ensures lines { IfOk result
            (λ out.
            AreLines (line_content_of self.now.kind) (content_of self.now.kind).left
            (content_of self.now.kind).right top.unit.0 floats.old (lines_with_floats out floats.new)) }
        ensures near { IfOk result
            (λ out. (r : ℕ) → 1125899906842624 ≤ r → r ≤ 1152921504606846976 → IsWithin (pos r) top.unit.0
            → All (BoxWithin (pos r)) floats.old
            → LinesWithin (pos (r + growth (line_content_of self.now.kind))) (lines_with_floats out floats.new)) }
    {
        match &self.kind {
            FlowKind::Lines(l) => {
                let content = self.content();
                lay(
                    alloc,
                    floats,
                    &l.content,
                    content.left,
                    content.right,
                    top.unit,
                )
            }
            _ => unreachable!(),
        }
    }
}
