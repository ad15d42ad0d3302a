//! The wrapper of a table.

ghost use Rattle.std.specs.Prelude.{◌≡◌};
ghost use Rattle.lay_units.specs.Units.{IsPosition, IsUsedSize};
ghost use Rattle.lay_widths.specs.Lengths.{BlockFits};
ghost use Rattle.lay_sizes.specs.SizeBounds.{SizeFits};
ghost use Rattle.lay_table_sizes.specs.TableSizes.{AreWrapperWidths, IsWrapperSized, wrapper_block, wrapper_width};

use crate::table_rule::TableRule;
use lay_sizes::{
    BoxSizes, ContainingBlock, border_width, used_margin, used_vertical_margin, widths_beside,
};
use lay_style::Style;
use lay_units::{BlockIn, Len, Sides, Unit, clamp_size};
use lay_widths::{BlockOut, solve_block};

/// The used sizes of the wrapper of a table box of these sizes.
pub(crate) fn wrapper_sizes(
    rule: TableRule,
    containing: ContainingBlock,
    style: &Style,
    table: &BoxSizes,
) -> BoxSizes
    requires containing { IsPosition containing.width.0 }
    requires table { SizeFits table.now }
    ensures sized { IsWrapperSized rule containing style.now table.now result }
    ensures fits { SizeFits result }
{
    let around = containing.width;
    BoxSizes {
        containing: around,
        widths: wrapper_widths(rule, around, style, wrapper_width(table)),
        edges: Sides {
            top: Unit(0),
            right: Unit(0),
            bottom: Unit(0),
            left: Unit(0),
        },
        margin_top: used_vertical_margin(around, style.margin.top),
        margin_bottom: used_vertical_margin(around, style.margin.bottom),
        height: Len::Auto,
        min_height: Unit(0),
        max_height: None,
    }
}

/// How wide it is.
fn wrapper_width(table: &BoxSizes) -> Unit
    requires { SizeFits table.now }
    ensures value { result ≡ wrapper_width table.now }
    ensures size { IsUsedSize result.0 }
{
    clamp_size(i128::from(border_width(table).0))
}

/// Its margins, beside this width.
fn wrapper_widths(rule: TableRule, containing: Unit, style: &Style, width: Unit) -> BlockOut
    requires containing { IsPosition containing.0 }
    requires width { IsUsedSize width.0 }
    ensures { AreWrapperWidths rule containing style.now width result }
{
    let block = wrapper_block(containing, style, width);
    match rule {
        TableRule::Block => solve_block(&block),
        TableRule::ShrinkToFit => widths_beside(&block, width),
    }
}

fn wrapper_block(containing: Unit, style: &Style, width: Unit) -> BlockIn
    requires containing { IsPosition containing.0 }
    requires width { IsUsedSize width.0 }
    ensures value { result ≡ wrapper_block containing style.now width }
    ensures fits { BlockFits result }
{
    BlockIn {
        containing_width: containing,
        margin_left: used_margin(containing, style.margin.left),
        border_left: Unit(0),
        padding_left: Unit(0),
        width: Len::Of(width),
        padding_right: Unit(0),
        border_right: Unit(0),
        margin_right: used_margin(containing, style.margin.right),
        min_width: Unit(0),
        max_width: None,
    }
}
