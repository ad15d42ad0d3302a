//! The containing blocks of absolutely positioned boxes.

ghost use Rattle.std.specs.Prelude.{◌≡◌, ◌<◌, IfOk, length};
ghost use Rattle.lay_sizes.specs.UsedLengths.{or_zero};
ghost use Rattle.lay_contexts.specs.FormattingContexts.{boxes_in};
ghost use Rattle.lay_placements.specs.NearPieces.{IsRectNear};
ghost use Rattle.lay_positioned.specs.ContainingRects.{IsContainingRect, viewport_rect};
ghost use Rattle.lay_abspos.specs.ViewportBounds.{ViewportFits};

use crate::holders::holder_for;
use crate::layouts::{Layouts, step};
use crate::padding_boxes::padding_box;
use crate::rects::seen_from;
use lay_contexts::FormattingContexts;
use lay_sizes::{ContainingBlock, or_zero};
use lay_units::{NoMemory, Rect, Unit};

/// Where an anchor stands: the number of its formatting context, and its place there.
#[derive(Clone, Copy)]
pub(crate) struct Anchor {
    pub(crate) context: usize,
    pub(crate) place: usize,
}

/// The containing block of an absolutely positioned box that has its anchor there, counted as where the anchor stands. The
/// formatting contexts from there out to that of the containing block are laid out. NoMemory is the answer where one is more
/// than 2^60 units from another, which it is in no document within the limits.
pub(crate) fn containing_rect<L: Layouts>(
    viewport: ContainingBlock,
    is_fixed: bool,
    contexts: &FormattingContexts,
    layouts: &L,
    anchor: Anchor,
) -> Result<Rect, NoMemory>
    requires viewport { ViewportFits viewport }
    requires known { L.count layouts.now ≡ length contexts.now }
    requires within { anchor.context < length contexts.now }
    requires place { anchor.place < length (boxes_in contexts.now anchor.context) }
    ensures rect { IfOk result (IsContainingRect viewport is_fixed contexts.now (L.laid layouts.now) anchor.context anchor.place) }
    ensures near { IfOk result IsRectNear }
{
    let i = anchor.context;
    let context = contexts.at(i);
    if let Some(holder) = holder_for(is_fixed, context.boxes(), anchor.place) {
        return padding_box(context.boxes(), layouts, i, holder);
    }
    if i == 0 {
        return seen_from(layouts.offset(0), viewport_rect(viewport));
    }
    let outside = containing_rect(
        viewport,
        is_fixed,
        contexts,
        layouts,
        Anchor {
            context: context.outer(),
            place: context.outer_box(),
        },
    )?;
    seen_from(step(contexts, layouts, i)?, outside)
}

/// The viewport on the page.
pub(crate) fn viewport_rect(viewport: ContainingBlock) -> Rect
    requires { ViewportFits viewport }
    ensures rect { result ≡ viewport_rect viewport }
    ensures near { IsRectNear result }
{
    Rect {
        x: Unit(0),
        y: Unit(0),
        w: viewport.width,
        h: or_zero(viewport.height),
    }
}
