//! What an absolutely positioned box is given from outside.

ghost use Rattle.std.specs.Prelude.{◌≡◌};
ghost use Rattle.lay_abspos.specs.AbsoluteSettings.{block_in};

use lay_sizes::ContainingBlock;
use lay_units::{Len, Rect, Unit};

/// What an absolutely positioned box is given from outside (CSS 2.2, 10.1 and 10.3.7), in 1/64 px.
#[derive(Clone, Copy, PartialEq, Eq)]
pub struct AbsoluteSetting {
    /// Its containing block, counted as where its anchor stands in the formatting context around it.
    pub rect: Rect,
    /// Where it would stand in flow, from the left and the top edge of the containing block.
    pub static_left: Unit,
    pub static_top: Unit,
}

/// The containing block as other rules take one.
pub fn block_in(setting: &AbsoluteSetting) -> ContainingBlock
    ensures { result ≡ block_in setting.now }
{
    ContainingBlock {
        width: setting.rect.w,
        height: Len::Of(setting.rect.h),
    }
}
