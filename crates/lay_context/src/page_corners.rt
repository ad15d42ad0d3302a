//! Where formatting contexts stand on the page.

ghost use Rattle.std.specs.Prelude.{◌≡◌, ◌<◌, ◌≤◌, length, IfOk};
ghost use Rattle.lay_placements.specs.Corners.{AreNearCorners, IsCornerNear, corner_at};
ghost use Rattle.lay_placements.specs.Standings.{AreNearStandings, IsStandingNear, standing_at};
ghost use Rattle.lay_context.specs.PageCorners.{ArePageStandings, HasPageCorners, beside, flow_standing, inner_corner, lowered};
ghost use Rattle.lay_context.specs.PageCorners.{own_standing, standing_of};
ghost use Rattle.lay_context.specs.PlacedContexts.{placed_in};

use crate::laid_contexts::LaidContexts;
use crate::page_standings::noted_standing;
use crate::placed_context::PlacedContext;
use crate::values::Values;
use lay_placements::{Corner, Standing, near_sum};
use lay_positioned::is_absolute;
use lay_units::{NoMemory, Unit};
use std::alloc::Global;

/// The corners of the border boxes of formatting contexts on the page, in their order, where it is noted how these stand.
pub(crate) fn page_corners<V: Values>(
    alloc: Global,
    laid: &LaidContexts<'_, V>,
    standings: &[Standing],
) -> Result<Vec<Corner>, NoMemory>
    requires noted { ArePageStandings laid.now.contexts.now (V.workings laid.now.known.now).places standings.now
        (length laid.now.contexts.now) }
    requires standings_near { AreNearStandings standings.now }
    ensures corners { IfOk result (λ v. HasPageCorners laid.now.contexts.now (V.workings laid.now.known.now).places v.items) }
    ensures near { IfOk result (λ v. AreNearCorners v.items) }
{
    let count = laid.contexts.len();
    let mut corners = Vec::with_capacity(alloc, count)?;
    for i in 0..count {
        let corner = page_corner(laid, standings, &corners, i)?;
        corners.push(corner)?;
    }
    Ok(corners)
}

/// The corner of the formatting context with this number on the page, where those of the ones before it are known.
fn page_corner<V: Values>(
    laid: &LaidContexts<'_, V>,
    standings: &[Standing],
    corners: &[Corner],
    i: usize,
) -> Result<Corner, NoMemory>
    requires noted { ArePageStandings laid.now.contexts.now (V.workings laid.now.known.now).places standings.now
        (length laid.now.contexts.now) }
    requires standings_near { AreNearStandings standings.now }
    requires within { i < length laid.now.contexts.now }
    requires before { i ≤ length corners.now }
    ensures first { IfOk result (λ c. i ≡ 0 → c ≡ (placed_in (V.workings laid.now.known.now).places 0).offset) }
    ensures inner { IfOk result (λ c. 0 < i → c ≡ inner_corner laid.now.contexts.now (V.workings laid.now.known.now).places corners.now i) }
    ensures near { IfOk result IsCornerNear }
{
    if i == 0 {
        return Ok(laid.known.placed(0).offset());
    }
    inner_corner(laid, standings, corners, i)
}

/// The corner of the formatting context with this number on the page, which isn't the root's, where those of the ones
/// before it are known.
fn inner_corner<V: Values>(
    laid: &LaidContexts<'_, V>,
    standings: &[Standing],
    corners: &[Corner],
    i: usize,
) -> Result<Corner, NoMemory>
    requires noted { ArePageStandings laid.now.contexts.now (V.workings laid.now.known.now).places standings.now
        (length laid.now.contexts.now) }
    requires standings_near { AreNearStandings standings.now }
    requires inner { 0 < i }
    requires within { i < length laid.now.contexts.now }
    requires before { i ≤ length corners.now }
    ensures corner { IfOk result (λ c. c ≡ inner_corner laid.now.contexts.now (V.workings laid.now.known.now).places corners.now i) }
    ensures near { IfOk result IsCornerNear }
{
    let outer = laid.contexts.at(i).outer();
    let shift = noted_standing(laid, standings, outer).shift;
    let content = lowered(shift, corner_at(corners, outer))?;
    beside(content, noted_standing(laid, standings, i).corner)
}

/// How the formatting context with this number stands.
pub(crate) fn standing_of<V: Values>(laid: &LaidContexts<'_, V>, i: usize) -> Standing
    requires { i < length laid.now.contexts.now }
    ensures standing { result ≡ standing_of laid.now.contexts.now (V.workings laid.now.known.now).places i }
    ensures fits { IsStandingNear result }
{
    if is_absolute(laid.contexts, i) {
        return own_standing(laid.known.placed(i));
    }
    flow_standing(laid, i)
}

/// How it stands in flow or floating.
fn flow_standing<V: Values>(laid: &LaidContexts<'_, V>, i: usize) -> Standing
    requires { i < length laid.now.contexts.now }
    ensures standing { result ≡ flow_standing laid.now.contexts.now (V.workings laid.now.known.now).places i }
    ensures fits { IsStandingNear result }
{
    if i == 0 {
        return own_standing(laid.known.placed(0));
    }
    let context = laid.contexts.at(i);
    standing_at(
        laid.known.placed(context.outer()).placement().standings(),
        context.outer_box(),
    )
}

pub(crate) fn standing_at(standings: &[Standing], k: usize) -> Standing
    requires { k < length standings.now }
    ensures { result ≡ standing_at standings.now k }
{
    standings[k]
}

/// The root and an absolutely positioned one stand where they say themselves.
fn own_standing(placed: &PlacedContext) -> Standing
    ensures standing { result ≡ own_standing placed.now }
    ensures fits { IsStandingNear result }
{
    Standing {
        corner: placed.offset(),
        height: placed.placement().own().height,
        shift: Unit(0),
    }
}

/// A corner that is counted from another one.
fn beside(outer: Corner, inner: Corner) -> Result<Corner, NoMemory>
    ensures corner { IfOk result (λ c. c ≡ beside outer inner) }
    ensures near { IfOk result IsCornerNear }
{
    Ok(Corner {
        x: near_sum(outer.x, inner.x)?,
        y: near_sum(outer.y, inner.y)?,
    })
}

/// A corner so much further down.
fn lowered(shift: Unit, corner: Corner) -> Result<Corner, NoMemory>
    ensures { IfOk result (λ c. c ≡ lowered shift corner) }
{
    Ok(Corner {
        x: corner.x,
        y: near_sum(corner.y, shift)?,
    })
}

pub(crate) fn corner_at(corners: &[Corner], i: usize) -> Corner
    requires { i < length corners.now }
    ensures { result ≡ corner_at corners.now i }
{
    corners[i]
}
