//! Whether two computed lengths are the same.

ghost use Rattle.std.specs.Prelude.{◌≡◌, ◌↔◌, IsTrue};

use lay_style::{
    BorderSpacing, LengthPercentage, LengthPercentageOrAuto, LengthPercentageOrNone, LineHeight,
    VerticalAlign, ZIndex,
};

pub(crate) fn same_length_percentage(a: LengthPercentage, b: LengthPercentage) -> bool
    ensures { IsTrue result ↔ (a ≡ b) }
{
    a == b
}

pub(crate) fn same_length_percentage_or_auto(
    a: LengthPercentageOrAuto,
    b: LengthPercentageOrAuto,
) -> bool
    ensures { IsTrue result ↔ (a ≡ b) }
{
    a == b
}

pub(crate) fn same_length_percentage_or_none(
    a: LengthPercentageOrNone,
    b: LengthPercentageOrNone,
) -> bool
    ensures { IsTrue result ↔ (a ≡ b) }
{
    a == b
}

pub(crate) fn same_line_height(a: LineHeight, b: LineHeight) -> bool
    ensures { IsTrue result ↔ (a ≡ b) }
{
    a == b
}

pub(crate) fn same_vertical_align(a: VerticalAlign, b: VerticalAlign) -> bool
    ensures { IsTrue result ↔ (a ≡ b) }
{
    a == b
}

pub(crate) fn same_z_index(a: ZIndex, b: ZIndex) -> bool
    ensures { IsTrue result ↔ (a ≡ b) }
{
    a == b
}

pub(crate) fn same_border_spacing(a: BorderSpacing, b: BorderSpacing) -> bool
    ensures { IsTrue result ↔ (a ≡ b) }
{
    a.horizontal.0 == b.horizontal.0 && a.vertical.0 == b.vertical.0
}
