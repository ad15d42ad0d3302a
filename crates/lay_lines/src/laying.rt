//! The lines of a container.

ghost use Rattle.std.specs.Prelude.{◌≡◌, ◌≤◌, ◌+◌, ◌^◌, ℕ, pos, All, IfOk, IfErr};
ghost use Rattle.lay_floats.specs.Within.{IsWithin, BoxWithin};
ghost use Rattle.lay_lines.specs.Lines.{LinesValue, AreLines, LinesWithin, growth, lines_with_floats, frame_of};
ghost use Rattle.lay_lines.specs.Meeting.{IsFront};

use crate::content::{Frame, LineContent};
use crate::laws::lines_are_near;
use crate::lists::{NodePlaceList, RowList};
use crate::rest::Rest;
use crate::rows::lay_rows;
use lay_floats::{Floats, place_within};
use lay_units::{NoMemory, Unit};
use std::alloc::Global;

/// The lines of a container, in order, the places of the floats that they met, in order, and where what follows
/// them begins.
#[derive(Drop)]
pub struct Lines {
    pub rows: RowList,
    pub places: NodePlaceList,
    pub end: Unit,
}

/// The lines of this content between two content edges, from a top downward (CSS 2.2, 9.4.2 and 9.5). The floats
/// that they meet are added to `floats`. After a NoMemory those in `floats` are the first ones of all that would
/// have been there. The edges are at most 2^50 units of 1/64 px from the origin, the top and the edges of all
/// floats at most 2^60.
pub fn lay(
    alloc: Global,
    floats: &mut Floats,
    content: &LineContent,
    left: Unit,
    right: Unit,
    top: Unit,
) -> Result<Lines, NoMemory>
    requires left { IsWithin (pos (2 ^ 50)) left.0 }
    requires right { IsWithin (pos (2 ^ 50)) right.0 }
    requires top { IsWithin (pos (2 ^ 60)) top.0 }
    requires floats { All (BoxWithin (pos (2 ^ 60))) floats.old }
    ensures lines { IfOk result (λ out. AreLines content.now left right top.0 floats.old (lines_with_floats out floats.new)) }
    ensures near { IfOk result (λ out. (r : ℕ) → 2 ^ 50 ≤ r → r ≤ 2 ^ 60 → IsWithin (pos r) top.0
        → All (BoxWithin (pos r)) floats.old → LinesWithin (pos (r + growth content.now)) (lines_with_floats out floats.new)) }
    ensures stopped { IfErr result (λ _. (v : LinesValue) → AreLines content.now left right top.0 floats.old v
        → IsFront floats.new v.floats) }
{
    place_within();
    lines_are_near();
    let all = Rest {
        frame: frame_of(content, left, right),
        top,
        stretches: content.stretches(),
        has_boxes: content.has_boxes(),
    };
    let rows = lay_rows(alloc, floats, all)?;
    Ok(Lines {
        rows: RowList::new(rows.rows),
        places: NodePlaceList::new(rows.places),
        end: rows.end,
    })
}

fn frame_of(content: &LineContent, left: Unit, right: Unit) -> Frame
    ensures { result ≡ frame_of content.now left right }
{
    Frame {
        left,
        right,
        strut: content.strut(),
        indent: content.indent(),
        tab: content.tab(),
    }
}
