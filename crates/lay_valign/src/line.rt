//! The shape of a line (CSS 2.2, 10.8.1).

ghost use Rattle.std.specs.Prelude.{◌≡◌, pos, ◌<◌, ◌≤ℤ◌, ◌-ℤ◌, length, IfOk};
ghost use Rattle.std.specs.Int.{int_max};
ghost use Rattle.lay_units.specs.Units.{IsPosition, IsWithinPower};
ghost use Rattle.lay_valign.specs.LineShape.{IsAligned, IsLine, IsRaised, IsShape, base_by};
ghost use Rattle.lay_valign.specs.LineShape.{base_of, beyond, shift_of};
ghost use Rattle.lay_valign.specs.PartsFit.{PartsFit};
ghost use Rattle.lay_valign.specs.Pass.Columns.{SubtreesFit};
ghost use Rattle.lay_valign.specs.Pass.Shifts.{AreShiftsTo};

use crate::parts::{LineEdge, LineShape, Part, Shift, part_of};
use crate::shift_list::ShiftList;
use crate::subtrees::Subtrees;
use crate::sums::{difference, narrow, sum};
use lay_units::{NoMemory, Unit};
use std::alloc::Global;

/// The shape of the line with these parts, of which the first is the strut.
pub fn align(alloc: Global, parts: &[Part]) -> Result<LineShape, NoMemory>
    requires { PartsFit parts.now }
    ensures { IfOk result (λ shape. IsShape parts.now shape) }
{
    let subtrees = Subtrees::new(alloc, parts)?;
    let (above, below) = extent(parts, &subtrees);
    let shifts = shifts_of(alloc, parts, &subtrees, above, below)?;
    Ok(LineShape {
        shifts,
        above,
        below,
    })
}

/// How far the line reaches above and below the strut's baseline.
fn extent(parts: &[Part], subtrees: &Subtrees) -> (Unit, Unit)
    requires parts { PartsFit parts.now }
    requires subtrees { SubtreesFit parts.now subtrees.now }
    ensures { IsLine parts.now subtrees.now result.0.0 result.1.0 }
{
    let strut_above = subtrees.above(0);
    let strut_below = subtrees.below(0);
    let below = extended(parts, subtrees, LineEdge::TopEdge, strut_below, strut_above);
    let above = extended(parts, subtrees, LineEdge::BottomEdge, strut_above, below);
    let line_above = narrow(above);
    let line_below = narrow(below);
    (line_above, line_below)
}

/// How far the line reaches beyond one edge, at least so far, if the subtrees that stand at the
/// other edge, which is so far from the baseline, lie within it.
fn extended(parts: &[Part], subtrees: &Subtrees, edge: LineEdge, least: i128, other: i128) -> i128
    requires subtrees { SubtreesFit parts.now subtrees.now }
    requires other { IsWithinPower 67 other }
    ensures value { IsRaised (IsAligned edge parts.now) (beyond subtrees.now other) least result }
    ensures most { result ≤ℤ int_max least (pos 36893488147419103232 -ℤ other) }
{
    let mut reach = least;
    for k in 1..parts.len() {
        if part_of(parts, k).shift.is_aligned(edge) {
            reach = reach.max(difference(subtrees.height(k), other));
        }
    }
    reach
}

/// How far the baseline of each part stands above the strut's.
fn shifts_of(
    alloc: Global,
    parts: &[Part],
    subtrees: &Subtrees,
    above: Unit,
    below: Unit,
) -> Result<ShiftList, NoMemory>
    requires parts { PartsFit parts.now }
    requires subtrees { SubtreesFit parts.now subtrees.now }
    requires line { IsLine parts.now subtrees.now above.0 below.0 }
    ensures { IfOk result (λ shifts. AreShiftsTo parts.now subtrees.now above.0 below.0 (length parts.now) shifts) }
{
    let mut shifts = Vec::new(alloc);
    for k in 0..parts.len() {
        shifts.push(shift(parts, subtrees, above, below, k))?;
    }
    Ok(ShiftList::new(shifts))
}

fn shift(parts: &[Part], subtrees: &Subtrees, above: Unit, below: Unit, k: usize) -> Unit
    requires parts { PartsFit parts.now }
    requires subtrees { SubtreesFit parts.now subtrees.now }
    requires line { IsLine parts.now subtrees.now above.0 below.0 }
    requires place { k < length parts.now }
    ensures { result.0 ≡ shift_of parts.now subtrees.now above.0 below.0 k }
{
    let base = base(parts, subtrees, above, below, subtrees.root(k));
    narrow(sum(base, subtrees.rise(k)))
}

/// How far a root's baseline stands above the strut's.
#[tactic(auto, using(crate::proofs::Extents::base_at))]
fn base(parts: &[Part], subtrees: &Subtrees, above: Unit, below: Unit, root: usize) -> i128
    requires subtrees { SubtreesFit parts.now subtrees.now }
    requires above { IsPosition above.0 }
    requires below { IsPosition below.0 }
    requires place { root < length parts.now }
    ensures value { result ≡ base_of parts.now subtrees.now above.0 below.0 root }
    ensures within { IsWithinPower 65 result }
{
    if root == 0 {
        return 0;
    }
    let shift = part_of(parts, root).shift;
    base_by(
        shift,
        subtrees.above(root),
        subtrees.below(root),
        above,
        below,
    )
}

fn base_by(shift: Shift, above: i128, below: i128, line_above: Unit, line_below: Unit) -> i128
    requires above { IsWithinPower 64 above }
    requires below { IsWithinPower 64 below }
    requires line_above { IsPosition line_above.0 }
    requires line_below { IsPosition line_below.0 }
    ensures value { result ≡ base_by shift above below line_above.0 line_below.0 }
    ensures within { IsWithinPower 65 result }
{
    match shift {
        Shift::Top => difference(i128::from(line_above.0), above),
        Shift::Bottom => difference(below, i128::from(line_below.0)),
        _ => 0,
    }
}
