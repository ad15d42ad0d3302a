//! Boxes of replaced elements.

ghost use Rattle.std.specs.Prelude.{◌≡◌};
ghost use Rattle.lay_units.specs.Units.{IsPosition, IsUsedSize};
ghost use Rattle.lay_widths.specs.ReplacedFits.{ReplacedFits};
ghost use Rattle.lay_sizes.specs.ReplacedBoxes.{replaced_of, replaced_size_of};

use crate::sizing::ContainingBlock;
use crate::used_lengths::{
    used_height, used_limit, used_max_height, used_min_height, used_size, used_width,
};
use lay_style::Style;
use lay_units::Unit;
use lay_widths::{ReplacedIn, ReplacedSize, natural_length, replaced_size};

/// The natural size of a replaced element, in 1/64 px. A length below 1 counts as 1.
#[derive(Clone, Copy, PartialEq, Eq)]
pub struct NaturalSize {
    pub width: Unit,
    pub height: Unit,
}

/// The used size of a replaced element of this natural size and style (CSS 2.2, 10.3.2, 10.4, 10.6.2 and 10.7).
pub fn replaced_size_of(
    containing: ContainingBlock,
    natural: NaturalSize,
    style: &Style,
) -> ReplacedSize
    requires { IsPosition containing.width.0 }
    ensures value { result ≡ replaced_size_of containing natural style.now }
    ensures width { IsUsedSize result.width.0 }
    ensures height { IsUsedSize result.height.0 }
{
    replaced_size(&replaced_of(containing, natural, style))
}

fn replaced_of(containing: ContainingBlock, natural: NaturalSize, style: &Style) -> ReplacedIn
    requires { IsPosition containing.width.0 }
    ensures value { result ≡ replaced_of containing natural style.now }
    ensures fits { ReplacedFits result }
{
    let width = containing.width;
    let height = containing.height;
    ReplacedIn {
        natural_width: natural_length(natural.width),
        natural_height: natural_length(natural.height),
        width: used_width(width, style.sizing.width),
        height: used_height(height, style.sizing.height),
        min_width: used_size(width, style.sizing.min_width),
        max_width: used_limit(width, style.sizing.max_width),
        min_height: used_min_height(height, style.sizing.min_height),
        max_height: used_max_height(height, style.sizing.max_height),
    }
}
