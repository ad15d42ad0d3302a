//! Room beside borders, paddings and margins.

ghost use Rattle.std.specs.Prelude.{◌≡◌, ◌-ℤ◌};
ghost use Rattle.lay_widths.specs.Lengths.{BlockFits, IsBelow, edges_of, together};

use crate::wide::{difference, length_or_zero, sum};
use lay_units::BlockIn;

/// What a width leaves of the containing block beside borders, paddings and margins, auto margins counted as zero, in
/// 1/64 px. It may be negative.
pub fn room_beside(block: &BlockIn, width: i128) -> i128
    requires fits { BlockFits block.now }
    requires width { IsBelow 80 width }
    ensures value { result ≡ block.now.containing_width.0 -ℤ together block.now width }
    ensures below { IsBelow 82 result }
{
    difference(
        i128::from(block.containing_width.0),
        width_together(block, width),
    )
}

fn width_together(block: &BlockIn, width: i128) -> i128
    requires fits { BlockFits block.now }
    requires width { IsBelow 80 width }
    ensures value { result ≡ together block.now width }
    ensures below { IsBelow 81 result }
{
    let margins = sum(
        length_or_zero(block.margin_left),
        length_or_zero(block.margin_right),
    );
    sum(sum(edges(block), margins), width)
}

/// The borders and paddings of both sides, in 1/64 px.
pub fn edges(block: &BlockIn) -> i128
    requires fits { BlockFits block.now }
    ensures value { result ≡ edges_of block.now }
    ensures below { IsBelow 64 result }
{
    let left = sum(
        i128::from(block.border_left.0),
        i128::from(block.padding_left.0),
    );
    let right = sum(
        i128::from(block.padding_right.0),
        i128::from(block.border_right.0),
    );
    sum(left, right)
}
