//! Widths of replaced elements.

ghost use Rattle.std.specs.Prelude.{◌≡◌, IfSome};
ghost use Rattle.lay_units.specs.Units.{IsSize};
ghost use Rattle.lay_widths.specs.Lengths.{LenIsSize};
ghost use Rattle.lay_widths.specs.ReplacedFits.{ReplacedFits};
ghost use Rattle.lay_measure.specs.ReplacedWidths.{length_or_auto, replaced_of_natural_size, replaced_width};
ghost use Rattle.lay_measure.specs.Contributions.{limit_of, size_or_zero};

use crate::contributions::{limit_of, size_or_zero};
use lay_style::{LengthPercentage, LengthPercentageOrAuto, LengthPercentageOrNone, Style, size_of};
use lay_units::{Len, Unit};
use lay_widths::{ReplacedIn, natural_length, replaced_size};

/// The width of a replaced element of these natural sizes, whatever is around it.
pub(crate) fn replaced_width(w: Unit, h: Unit, style: &Style) -> Unit
    ensures { result.0 ≡ replaced_width w h style.now }
{
    replaced_size(&replaced_of(w, h, style)).width
}

fn replaced_of(w: Unit, h: Unit, style: &Style) -> ReplacedIn
    ensures value { result ≡ replaced_of_natural_size w h style.now }
    ensures fits { ReplacedFits result }
{
    let sizing = &style.sizing;
    ReplacedIn {
        natural_width: natural_length(w),
        natural_height: natural_length(h),
        width: length_or_auto(sizing.width),
        height: length_or_auto(sizing.height),
        min_width: least(sizing.min_width),
        max_width: greatest(sizing.max_width),
        min_height: least(sizing.min_height),
        max_height: greatest(sizing.max_height),
    }
}

/// A `width` or a `height`, of which a percentage is `auto`.
pub fn length_or_auto(size: LengthPercentageOrAuto) -> Len
    ensures value { result ≡ length_or_auto size }
    ensures size { LenIsSize result }
{
    match size {
        LengthPercentageOrAuto::Length(length) => Len::Of(size_of(length)),
        LengthPercentageOrAuto::Auto | LengthPercentageOrAuto::Percent(_) => Len::Auto,
    }
}

fn least(size: LengthPercentage) -> Unit
    ensures value { result ≡ size_or_zero size }
    ensures size { IsSize result.0 }
{
    size_or_zero(size)
}

fn greatest(limit: LengthPercentageOrNone) -> Option<Unit>
    ensures value { result ≡ limit_of limit }
    ensures size { IfSome result (λ v. IsSize v.0) }
{
    limit_of(limit)
}
