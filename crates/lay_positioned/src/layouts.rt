//! What is known of formatting contexts that are laid out.

ghost use Rattle.std.specs.Prelude.{ℕ, ◌≡◌, ◌<◌, IfOk, length};
ghost use Rattle.lay_sizes.specs.SizeColumns.{HaveSizeBounds};
ghost use Rattle.lay_placements.specs.Corners.{IsCornerNear};
ghost use Rattle.lay_placements.specs.Standings.{AreNearStandings, IsStandingNear, standing_at};
ghost use Rattle.lay_positioned.specs.Layouts.{Layout, content_corner, standing_of, step};

use crate::absolute::is_absolute;
use lay_contexts::FormattingContexts;
use lay_placements::{Corner, Standing, near_corner};
use lay_sizes::BoxSizes;
use lay_units::{NoMemory, Unit};

/// Who knows how the formatting contexts of a document are laid out, as far as they are. They are known by their numbers.
pub trait Layouts {
    /// What the formatting context with a number answers.
    ghost laid: { Self → ℕ → Layout };

    /// How many there are.
    ghost count: { Self → ℕ };

    /// The used sizes of the boxes of the formatting context with this number.
    fn sizes(&self, i: usize) -> &[BoxSizes]
        requires { i < count self.now }
        ensures sizes { result.now ≡ (laid self.now i).sizes }
        ensures bounds { HaveSizeBounds result.now };

    /// Where its boxes stand.
    fn standings(&self, i: usize) -> &[Standing]
        requires { i < count self.now }
        ensures standings { result.now ≡ (laid self.now i).standings }
        ensures near { AreNearStandings result.now };

    /// The corner of its border box in the formatting context around it, where it is absolutely positioned, and on the page
    /// where it is the root's.
    fn offset(&self, i: usize) -> Corner
        requires { i < count self.now }
        ensures offset { result ≡ (laid self.now i).offset }
        ensures near { IsCornerNear result };
}

const NO_STANDING: Standing = Standing {
    corner: Corner {
        x: Unit(0),
        y: Unit(0),
    },
    height: Unit(0),
    shift: Unit(0),
};

/// Where the box at k stands; where none does, at the corner.
pub(crate) fn standing_at(standings: &[Standing], k: usize) -> Standing
    requires near { AreNearStandings standings.now }
    ensures standing { result ≡ standing_at standings.now k }
    ensures near { IsStandingNear result }
{
    match standings.get(k) {
        Some(standing) => *standing,
        None => NO_STANDING,
    }
}

/// Where the box of the formatting context with this number stands in the one around it.
pub(crate) fn standing_of<L: Layouts>(
    contexts: &FormattingContexts,
    layouts: &L,
    i: usize,
) -> Standing
    requires within { 0 < i × i < length contexts.now }
    requires known { L.count layouts.now ≡ length contexts.now }
    ensures standing { result ≡ standing_of contexts.now (L.laid layouts.now) i }
    ensures near { IsStandingNear result }
{
    let context = contexts.at(i);
    standing_at(layouts.standings(context.outer()), context.outer_box())
}

/// How far the content of the formatting context with this number stands from the content of the one around it. NoMemory
/// is the answer where that is more than 2^60 units, which it is in no document within the limits.
pub(crate) fn step<L: Layouts>(
    contexts: &FormattingContexts,
    layouts: &L,
    i: usize,
) -> Result<Corner, NoMemory>
    requires within { 0 < i × i < length contexts.now }
    requires known { L.count layouts.now ≡ length contexts.now }
    ensures step { IfOk result (λ c. c ≡ step contexts.now (L.laid layouts.now) i) }
    ensures near { IfOk result IsCornerNear }
{
    if is_absolute(contexts, i) {
        return Ok(layouts.offset(i));
    }
    content_corner(standing_of(contexts, layouts, i))
}

/// Where what is in a box that stands so is counted from.
fn content_corner(standing: Standing) -> Result<Corner, NoMemory>
    requires { IsStandingNear standing }
    ensures corner { IfOk result (λ c. c ≡ content_corner standing) }
    ensures near { IfOk result IsCornerNear }
{
    near_corner(
        standing.corner.x,
        Unit(standing.corner.y.0 + standing.shift.0),
    )
}
