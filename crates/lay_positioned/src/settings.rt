//! What an absolutely positioned box is given from outside.

ghost use Rattle.std.specs.Prelude.{◌≡◌, ◌<◌, IfOk, length};
ghost use Rattle.lay_placements.specs.Corners.{IsCornerNear};
ghost use Rattle.lay_placements.specs.NearPieces.{IsRectNear};
ghost use Rattle.lay_positioned.specs.Settings.{IsInnerSetting, IsSetting, absolute_setting, setting_beside};
ghost use Rattle.lay_abspos.specs.AbsoluteSettings.{SettingFits};
ghost use Rattle.lay_abspos.specs.ViewportBounds.{ViewportFits};

use crate::absolute::is_fixed;
use crate::containing_rects::{Anchor, containing_rect, viewport_rect};
use crate::layouts::{Layouts, standing_of};
use crate::rects::difference;
use lay_abspos::AbsoluteSetting;
use lay_contexts::FormattingContexts;
use lay_placements::Corner;
use lay_sizes::ContainingBlock;
use lay_units::{NoMemory, Rect, Unit};

/// What the absolutely positioned formatting context with the number i is given, where the ones on the way to its containing
/// block are laid out. NoMemory is the answer where one is more than 2^60 units from another, which it is in no document
/// within the limits.
pub fn setting<L: Layouts>(
    viewport: ContainingBlock,
    contexts: &FormattingContexts,
    layouts: &L,
    i: usize,
) -> Result<AbsoluteSetting, NoMemory>
    requires viewport { ViewportFits viewport }
    requires known { L.count layouts.now ≡ length contexts.now }
    requires within { i < length contexts.now }
    ensures setting { IfOk result (IsSetting viewport contexts.now (L.laid layouts.now) i) }
    ensures value { IfOk result (λ s. s ≡ absolute_setting viewport contexts.now (L.laid layouts.now) i) }
    ensures fits { IfOk result SettingFits }
{
    let _ = contexts.at(i);
    found_setting(viewport, contexts, layouts, i)
}

fn found_setting<L: Layouts>(
    viewport: ContainingBlock,
    contexts: &FormattingContexts,
    layouts: &L,
    i: usize,
) -> Result<AbsoluteSetting, NoMemory>
    requires viewport { ViewportFits viewport }
    requires known { L.count layouts.now ≡ length contexts.now }
    requires within { i < length contexts.now }
    ensures setting { IfOk result (IsSetting viewport contexts.now (L.laid layouts.now) i) }
    ensures fits { IfOk result SettingFits }
{
    if i == 0 {
        return Ok(AbsoluteSetting {
            rect: viewport_rect(viewport),
            static_left: Unit(0),
            static_top: Unit(0),
        });
    }
    inner_setting(viewport, contexts, layouts, i)
}

fn inner_setting<L: Layouts>(
    viewport: ContainingBlock,
    contexts: &FormattingContexts,
    layouts: &L,
    i: usize,
) -> Result<AbsoluteSetting, NoMemory>
    requires viewport { ViewportFits viewport }
    requires known { L.count layouts.now ≡ length contexts.now }
    requires within { 0 < i × i < length contexts.now }
    ensures setting { IfOk result (IsInnerSetting viewport contexts.now (L.laid layouts.now) i) }
    ensures fits { IfOk result SettingFits }
{
    let context = contexts.at(i);
    let rect = containing_rect(
        viewport,
        is_fixed(contexts, i),
        contexts,
        layouts,
        Anchor {
            context: context.outer(),
            place: context.outer_box(),
        },
    )?;
    Ok(setting_beside(rect, standing_of(contexts, layouts, i).corner))
}

/// An anchor in a containing block.
fn setting_beside(rect: Rect, anchor: Corner) -> AbsoluteSetting
    requires rect { IsRectNear rect }
    requires anchor { IsCornerNear anchor }
    ensures setting { result ≡ setting_beside rect anchor }
    ensures fits { SettingFits result }
{
    AbsoluteSetting {
        rect,
        static_left: difference(anchor.x, rect.x),
        static_top: difference(anchor.y, rect.y),
    }
}
