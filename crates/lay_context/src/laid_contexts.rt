//! The formatting contexts of a document, when all is known of them.

ghost use Rattle.std.specs.Prelude.{◌≡◌, length};
ghost use Rattle.lay_placements.specs.Corners.{AreNearCorners};
ghost use Rattle.lay_placements.specs.Standings.{AreNearStandings};
ghost use Rattle.lay_context.specs.PageCorners.{ArePageStandings};
ghost use Rattle.lay_context.specs.Settling.{AreKnown};

use crate::values::Values;
use lay_contexts::FormattingContexts;
use lay_placements::{Corner, Standing};

/// The formatting contexts of a document, with the values of all of them.
#[derive(Drop)]
pub struct LaidContexts<'a, V: Values> {
    pub contexts: &'a FormattingContexts,
    pub known: &'a V,
    ghost are: { AreKnown contexts.now (V.workings known.now) },
}

/// Laid formatting contexts, with how each one stands, and the corner of its border box on the page.
#[derive(Drop)]
pub(crate) struct ContextsOnPage<'a, 'b, V: Values> {
    pub laid: LaidContexts<'a, V>,
    pub standings: &'b [Standing],
    pub corners: &'b [Corner],
    ghost noted: { ArePageStandings laid.contexts.now (V.workings laid.known.now).places standings.now (length laid.contexts.now) },
    ghost standings_near: { AreNearStandings standings.now },
    ghost count: { length corners.now ≡ length laid.contexts.now },
    ghost near: { AreNearCorners corners.now },
}
