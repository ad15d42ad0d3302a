//! Which algorithm lays a table out.

ghost use Rattle.std.specs.Prelude.{◌≡◌};
ghost use Rattle.lay_table_sizes.specs.TableLayouts.{asks_fixed, has_width, is_fixed};

use lay_style::{LengthPercentageOrAuto, Style, TableLayout};

/// Whether a table of this style is laid out by the fixed algorithm (CSS 2.2, 17.5.2). All others are by the automatic one.
pub fn is_fixed(style: &Style) -> bool
    ensures { result ≡ is_fixed style.now }
{
    asks_fixed(style.table.layout) && has_width(style.sizing.width)
}

fn asks_fixed(layout: TableLayout) -> bool
    ensures { result ≡ asks_fixed layout }
{
    match layout {
        TableLayout::Fixed => true,
        TableLayout::Auto => false,
    }
}

/// Whether this width is a length or a percentage (CSS 2.2, 10.2).
pub fn has_width(width: LengthPercentageOrAuto) -> bool
    ensures { result ≡ has_width width }
{
    match width {
        LengthPercentageOrAuto::Auto => false,
        LengthPercentageOrAuto::Length(_) | LengthPercentageOrAuto::Percent(_) => true,
    }
}
