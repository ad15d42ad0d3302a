//! Where a node is painted among those that the same node paints.

ghost use Rattle.std.specs.Prelude.{◌≡◌, ◌<◌, length};
ghost use Rattle.lay_hit.specs.Ranks.{is_of_owner, is_under, paint_rank_at, step_of};
ghost use Rattle.lay_hit.specs.Fronts.{is_behind};
ghost use Rattle.lay_hit.specs.Questions.{page};

use crate::kinds::{PaintKind, kind_at, level_of};
use crate::question::Question;

/// The step of painting, and in it the level.
#[derive(Clone, Copy)]
pub(crate) struct Rank {
    step: u8,
    level: i64,
}

impl Rank {
    /// Whether a node of this rank is painted no later than one of the other.
    fn is_under(self, other: Rank) -> bool
        ensures { result ≡ is_under self other }
    {
        self.step < other.step || (self.step == other.step && self.level <= other.level)
    }
}

/// The step in which a node is painted.
fn step_of(kind: PaintKind, level: i64) -> u8
    ensures { result ≡ step_of kind level }
{
    match kind {
        PaintKind::Stacking if level < 0 => 2,
        PaintKind::Stacking if level > 0 => 7,
        PaintKind::Stacking | PaintKind::Layered => 6,
        PaintKind::Block => 3,
        PaintKind::Float => 4,
        PaintKind::Atomic | PaintKind::Inline => 5,
    }
}

/// The rank of the node at a place.
fn rank_at(q: &Question<'_>, place: usize) -> Rank
    requires styles { length q.now.styles.now ≡ length q.now.doc.now.nodes }
    requires place { place < length q.now.doc.now.nodes }
    ensures { result ≡ paint_rank_at (page q.now) place }
{
    let kind = kind_at(q.doc.nodes(), q.styles, place);
    let level = level_of(kind, &q.styles[place]);
    Rank {
        step: step_of(kind, level),
        level,
    }
}

/// Whether the node at j is painted no later than that at k, and stands first if they are of equal rank.
pub(crate) fn is_behind(q: &Question<'_>, j: usize, k: usize) -> bool
    requires styles { length q.now.styles.now ≡ length q.now.doc.now.nodes }
    requires low { j < length q.now.doc.now.nodes }
    requires high { k < length q.now.doc.now.nodes }
    ensures { result ≡ is_behind (page q.now) j k }
{
    let first = rank_at(q, j);
    let second = rank_at(q, k);
    first.is_under(second) && (!second.is_under(first) || j <= k)
}

/// Whether the owner of a node of this kind paints it, and not its group.
pub(crate) fn is_of_owner(kind: PaintKind) -> bool
    ensures { result ≡ is_of_owner kind }
{
    matches!(kind, PaintKind::Stacking | PaintKind::Layered)
}
