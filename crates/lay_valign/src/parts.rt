//! The parts of a line, and what its shape is told as.

ghost use Rattle.std.specs.Prelude.{◌≡◌, ◌<◌, length};
ghost use Rattle.lay_valign.specs.Parts.{begins, is_aligned, part_at};

use crate::shift_list::ShiftList;
use lay_units::Unit;

/// How a part is aligned (CSS 2.2, 10.8.1). `By` raises its baseline so far above its parent's: it
/// serves `baseline`, `sub`, `super`, lengths and percentages. `Middle` has the parent's x-height,
/// `TextTop` its ascent and `TextBottom` its descent.
#[derive(Clone, Copy)]
pub enum Shift {
    By(Unit),
    Middle(Unit),
    TextTop(Unit),
    TextBottom(Unit),
    Top,
    Bottom,
}

/// An inline box, a text or an atomic box on a line: how far it reaches above and below its own
/// baseline (either may be negative), its alignment, and the place of its parent. The strut's
/// alignment and parent say nothing.
#[derive(Clone, Copy)]
pub struct Part {
    pub above: Unit,
    pub below: Unit,
    pub shift: Shift,
    pub parent: u32,
}

/// How far the baseline of each part stands above the strut's, and how far the line box reaches
/// above and below that.
#[derive(Drop)]
pub struct LineShape {
    pub shifts: ShiftList,
    pub above: Unit,
    pub below: Unit,
}

/// The edge of the line box that a `top` or `bottom` part is aligned with.
#[derive(Clone, Copy)]
pub enum LineEdge {
    TopEdge,
    BottomEdge,
}

impl Shift {
    /// Whether a part with this alignment begins an aligned subtree.
    pub fn begins_subtree(self) -> bool
        ensures { result ≡ begins self }
    {
        match self {
            Shift::Top | Shift::Bottom => true,
            _ => false,
        }
    }

    pub fn is_aligned(self, edge: LineEdge) -> bool
        ensures { result ≡ is_aligned edge self }
    {
        match (edge, self) {
            (LineEdge::TopEdge, Shift::Top) => true,
            (LineEdge::BottomEdge, Shift::Bottom) => true,
            _ => false,
        }
    }
}

pub fn part_of(parts: &[Part], k: usize) -> Part
    requires { k < length parts.now }
    ensures { result ≡ part_at parts.now k }
{
    parts[k]
}
