//! Used lengths: percentages taken of the width or the height of the containing block.

ghost use Rattle.std.specs.Prelude.{◌≡◌, IfSome};
ghost use Rattle.lay_units.specs.Units.{IsPosition, IsUsedSize, percentage_of, IsSize};
ghost use Rattle.lay_style.specs.LengthValues.{length_of, size_of};
ghost use Rattle.lay_widths.specs.Lengths.{BlockFits, LenFits, LenIsSize};
ghost use Rattle.lay_sizes.specs.SizeBounds.{AreInsets, IsInset};
ghost use Rattle.lay_sizes.specs.UsedLengths.{or_zero, used_margin, used_vertical_margin, used_width, used_size, used_limit, used_height};
ghost use Rattle.lay_sizes.specs.UsedLengths.{used_min_height, used_max_height, definite_height, block_of, edge_of, edges_of};

use lay_heights::with_min_max;
use lay_style::{
    LengthPercentage, LengthPercentageOrAuto, LengthPercentageOrNone, Style, length_of, size_of,
};
use lay_units::{BlockIn, Len, Percent, Sides, Unit, percent_of};

/// What the used widths of a block depend on, for the width of its containing block.
pub fn block_of(containing: Unit, style: &Style) -> BlockIn
    requires { IsPosition containing.0 }
    ensures value { result ≡ block_of containing style.now }
    ensures fits { BlockFits result }
{
    BlockIn {
        containing_width: containing,
        margin_left: used_margin(containing, style.margin.left),
        border_left: size_of(style.border.width.left),
        padding_left: used_size(containing, style.padding.left),
        width: used_width(containing, style.sizing.width),
        padding_right: used_size(containing, style.padding.right),
        border_right: size_of(style.border.width.right),
        margin_right: used_margin(containing, style.margin.right),
        min_width: used_size(containing, style.sizing.min_width),
        max_width: used_limit(containing, style.sizing.max_width),
    }
}

/// The border and the padding of each side together, for the width of the containing block.
pub fn edges_of(containing: Unit, style: &Style) -> Sides
    ensures value { result ≡ edges_of containing style.now }
    ensures insets { AreInsets result }
{
    Sides {
        top: inset_of(containing, style.border.width.top, style.padding.top),
        right: inset_of(containing, style.border.width.right, style.padding.right),
        bottom: inset_of(containing, style.border.width.bottom, style.padding.bottom),
        left: inset_of(containing, style.border.width.left, style.padding.left),
    }
}

/// A border and a padding together, for the width of the containing block, from 0.
pub fn edge_of(containing: Unit, border: Unit, padding: LengthPercentage) -> Unit
    ensures { result ≡ edge_of containing border padding }
{
    inset_of(containing, border, padding)
}

/// The same, with its bounds.
fn inset_of(containing: Unit, border: Unit, padding: LengthPercentage) -> Unit
    ensures value { result ≡ edge_of containing border padding }
    ensures inset { IsInset result.0 }
{
    Unit(size_of(border).0 + used_size(containing, padding).0)
}

/// A margin or an offset, for the length that its percentages are of.
pub fn used_margin(containing: Unit, margin: LengthPercentageOrAuto) -> Len
    ensures value { result ≡ used_margin containing margin }
    ensures fits { LenFits result }
{
    match margin {
        LengthPercentageOrAuto::Auto => Len::Auto,
        LengthPercentageOrAuto::Length(length) => Len::Of(length_of(length)),
        LengthPercentageOrAuto::Percent(percent) => {
            Len::Of(length_of(percent_of(percent, containing)))
        }
    }
}

/// A margin above or below, for the width of the containing block. An auto one is 0 (CSS 2.2, 10.6.3).
pub fn used_vertical_margin(containing: Unit, margin: LengthPercentageOrAuto) -> Unit
    ensures { result ≡ used_vertical_margin containing margin }
{
    or_zero(used_margin(containing, margin))
}

/// A length, and 0 for `auto`.
pub fn or_zero(length: Len) -> Unit
    ensures { result ≡ or_zero length }
{
    match length {
        Len::Auto => Unit(0),
        Len::Of(length) => length,
    }
}

/// A `height`, for the height of the containing block.
pub fn used_height(containing: Len, height: LengthPercentageOrAuto) -> Len
    ensures value { result ≡ used_height containing height }
    ensures size { LenIsSize result }
{
    match (height, containing) {
        (LengthPercentageOrAuto::Auto, _) => Len::Auto,
        (LengthPercentageOrAuto::Length(length), _) => Len::Of(size_of(length)),
        (LengthPercentageOrAuto::Percent(_), Len::Auto) => Len::Auto,
        (LengthPercentageOrAuto::Percent(percent), Len::Of(containing)) => {
            Len::Of(share_of(percent, containing))
        }
    }
}

/// A `min-height`, for the height of the containing block.
pub fn used_min_height(containing: Len, height: LengthPercentage) -> Unit
    ensures value { result ≡ used_min_height containing height }
    ensures size { IsSize result.0 }
{
    match (height, containing) {
        (LengthPercentage::Length(length), _) => size_of(length),
        (LengthPercentage::Percent(_), Len::Auto) => Unit(0),
        (LengthPercentage::Percent(percent), Len::Of(containing)) => share_of(percent, containing),
    }
}

/// A `max-height`, for the height of the containing block; None where there is none.
pub fn used_max_height(containing: Len, height: LengthPercentageOrNone) -> Option<Unit>
    ensures value { result ≡ used_max_height containing height }
    ensures size { IfSome result (λ v. IsSize v.0) }
{
    match (height, containing) {
        (LengthPercentageOrNone::None, _) => None,
        (LengthPercentageOrNone::Length(length), _) => Some(size_of(length)),
        (LengthPercentageOrNone::Percent(_), Len::Auto) => None,
        (LengthPercentageOrNone::Percent(percent), Len::Of(containing)) => {
            Some(share_of(percent, containing))
        }
    }
}

/// The height of a content where it doesn't depend on what is in it.
pub(crate) fn definite_height(height: Len, min: Unit, max: Option<Unit>) -> Len
    ensures { result ≡ definite_height height min max }
{
    match height {
        Len::Auto => Len::Auto,
        Len::Of(height) => Len::Of(with_min_max(height, min, max)),
    }
}

/// A `width`, for the width of the containing block.
pub fn used_width(containing: Unit, width: LengthPercentageOrAuto) -> Len
    ensures value { result ≡ used_width containing width }
    ensures size { LenIsSize result }
{
    match width {
        LengthPercentageOrAuto::Auto => Len::Auto,
        LengthPercentageOrAuto::Length(length) => Len::Of(size_of(length)),
        LengthPercentageOrAuto::Percent(percent) => Len::Of(share_of(percent, containing)),
    }
}

/// A padding or a `min-width`, for the width of the containing block, from 0.
pub fn used_size(containing: Unit, size: LengthPercentage) -> Unit
    ensures value { result ≡ used_size containing size }
    ensures size { IsUsedSize result.0 }
{
    match size {
        LengthPercentage::Length(length) => size_of(length),
        LengthPercentage::Percent(percent) => share_of(percent, containing),
    }
}

/// A `max-width`, for the width of the containing block; None where there is none.
pub fn used_limit(containing: Unit, limit: LengthPercentageOrNone) -> Option<Unit>
    ensures value { result ≡ used_limit containing limit }
    ensures size { IfSome result (λ v. IsSize v.0) }
{
    match limit {
        LengthPercentageOrNone::None => None,
        LengthPercentageOrNone::Length(length) => Some(size_of(length)),
        LengthPercentageOrNone::Percent(percent) => Some(share_of(percent, containing)),
    }
}

/// A percentage of a length, from 0.
fn share_of(percent: Percent, length: Unit) -> Unit
    ensures value { result ≡ size_of (percentage_of percent.0 length.0) }
    ensures size { IsUsedSize result.0 }
{
    size_of(percent_of(percent, length))
}
