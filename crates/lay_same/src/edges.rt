//! Whether the values of the sides of two boxes are the same.

ghost use Rattle.std.specs.Prelude.{◌≡◌, ◌↔◌, IsTrue};

use crate::keywords::same_border_style;
use crate::style_lengths::{same_length_percentage, same_length_percentage_or_auto};
use lay_style::{BorderStyle, Edges, LengthPercentage, LengthPercentageOrAuto};
use lay_units::Unit;

pub(crate) fn same_lengths(a: &Edges<Unit>, b: &Edges<Unit>) -> bool
    ensures { IsTrue result ↔ (a.now ≡ b.now) }
{
    a.top.0 == b.top.0 && a.right.0 == b.right.0 && a.bottom.0 == b.bottom.0 && a.left.0 == b.left.0
}

pub(crate) fn same_border_styles(a: &Edges<BorderStyle>, b: &Edges<BorderStyle>) -> bool
    ensures { IsTrue result ↔ (a.now ≡ b.now) }
{
    same_border_style(a.top, b.top)
        && same_border_style(a.right, b.right)
        && same_border_style(a.bottom, b.bottom)
        && same_border_style(a.left, b.left)
}

pub(crate) fn same_length_percentages(
    a: &Edges<LengthPercentage>,
    b: &Edges<LengthPercentage>,
) -> bool
    ensures { IsTrue result ↔ (a.now ≡ b.now) }
{
    same_length_percentage(a.top, b.top)
        && same_length_percentage(a.right, b.right)
        && same_length_percentage(a.bottom, b.bottom)
        && same_length_percentage(a.left, b.left)
}

pub(crate) fn same_length_percentages_or_auto(
    a: &Edges<LengthPercentageOrAuto>,
    b: &Edges<LengthPercentageOrAuto>,
) -> bool
    ensures { IsTrue result ↔ (a.now ≡ b.now) }
{
    same_length_percentage_or_auto(a.top, b.top)
        && same_length_percentage_or_auto(a.right, b.right)
        && same_length_percentage_or_auto(a.bottom, b.bottom)
        && same_length_percentage_or_auto(a.left, b.left)
}
