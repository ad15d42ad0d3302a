//! `white-space` of boxes.

ghost use Rattle.std.specs.Prelude.{◌≡◌};
ghost use Rattle.lay_line_items.specs.InlineItems.{mode_of};

use lay_space::Mode;
use lay_style::WhiteSpace;

/// How a value of `white-space` treats white space (CSS 2.2, 16.6).
pub fn mode_of(value: WhiteSpace) -> Mode
    ensures { result ≡ mode_of value }
{
    match value {
        WhiteSpace::Normal => Mode::Normal,
        WhiteSpace::Pre => Mode::Pre,
        WhiteSpace::Nowrap => Mode::NoWrap,
        WhiteSpace::PreWrap => Mode::PreWrap,
        WhiteSpace::PreLine => Mode::PreLine,
    }
}
