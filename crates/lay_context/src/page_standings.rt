//! How formatting contexts stand on the page. Of each this is asked once.

ghost use Rattle.std.specs.Prelude.{◌≡◌, ◌<◌, length, IfOk};
ghost use Rattle.lay_placements.specs.Standings.{AreNearStandings, IsStandingNear};
ghost use Rattle.lay_context.specs.PageCorners.{ArePageStandings, standing_of};

use crate::laid_contexts::LaidContexts;
use crate::page_corners::{standing_at, standing_of};
use crate::values::Values;
use lay_placements::Standing;
use lay_units::NoMemory;
use std::alloc::Global;

/// How the formatting contexts stand, in their order.
pub(crate) fn page_standings<V: Values>(
    alloc: Global,
    laid: &LaidContexts<'_, V>,
) -> Result<Vec<Standing>, NoMemory>
    ensures standings { IfOk result
        (λ v. ArePageStandings laid.now.contexts.now (V.workings laid.now.known.now).places v.items (length laid.now.contexts.now)) }
    ensures near { IfOk result (λ v. AreNearStandings v.items) }
{
    let count = laid.contexts.len();
    let mut standings = Vec::with_capacity(alloc, count)?;
    for i in 0..count {
        standings.push(standing_of(laid, i))?;
    }
    Ok(standings)
}

/// How the one with this number stands, as it is noted there.
pub(crate) fn noted_standing<V: Values>(
    laid: &LaidContexts<'_, V>,
    standings: &[Standing],
    i: usize,
) -> Standing
    requires within { i < length laid.now.contexts.now }
    requires noted { ArePageStandings laid.now.contexts.now (V.workings laid.now.known.now).places standings.now
        (length laid.now.contexts.now) }
    requires near { AreNearStandings standings.now }
    ensures standing { result ≡ standing_of laid.now.contexts.now (V.workings laid.now.known.now).places i }
    ensures fits { IsStandingNear result }
{
    let _ = laid.contexts.len();
    standing_at(standings, i)
}
