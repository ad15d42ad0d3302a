//! Blocks in flow (CSS 2.2, 10.3.3 and 10.4).

ghost use Rattle.std.specs.Prelude.{◌≡◌};
ghost use Rattle.lay_units.specs.Units.{IsPosition};
ghost use Rattle.lay_widths.specs.Lengths.{BlockFits, IsBelow, LenFits, sum_of_widths};
ghost use Rattle.lay_widths.specs.BlockWidths.{IsUsedBlock, SolvesBlock, AutoWidth, GivenWidth, width_in};

use crate::min_max::{WidthRules, bounded};
use crate::room::{edges, room_beside};
use crate::wide::{difference, floor_half, length_or_zero, sum};
use crate::widths::{BlockOut, UsedWidths, held};
use lay_units::{BlockIn, Len};

/// The used margins and width of a block in flow that isn't replaced (CSS 2.2, 10.3.3 and 10.4). The
/// lengths given are below 2^62 units of 1/64 px in absolute value.
pub fn solve_block(block: &BlockIn) -> BlockOut
    requires fits { BlockFits block.now }
    ensures { IsUsedBlock block.now result }
{
    let rules = BlockRules { block };
    held(&bounded(&rules, block.width, block.min_width, block.max_width))
}

#[derive(Clone, Copy)]
struct BlockRules<'a> {
    block: &'a BlockIn,
}

impl WidthRules for BlockRules<'_> {
    type Used = UsedWidths;

    ghost fit = { λ r. BlockFits r.block.now };

    ghost give = { λ r. SolvesBlock r.block.now };

    ghost width = { width_in };

    fn widths_for(&self, computed: Len) -> UsedWidths
        requires fit { BlockFits self.now.block.now }
        requires computed { LenFits computed }
        ensures { SolvesBlock self.now.block.now computed result }
    {
        match computed {
            Len::Auto => auto_width(self.block),
            Len::Of(width) => given_width(self.block, i128::from(width.0)),
        }
    }

    fn width_in(&self, used: UsedWidths) -> i128
        ensures { result ≡ width_in used }
    {
        used.width
    }
}

// 1. Auto margins are zero, and the width follows.
// 2. Where no room is left for a width, it is zero, and margin-right follows.
fn auto_width(block: &BlockIn) -> UsedWidths
    requires fits { BlockFits block.now }
    ensures equation { sum_of_widths block.now result ≡ block.now.containing_width.0 }
    ensures widths { AutoWidth block.now result }
{
    let margin_left = length_or_zero(block.margin_left);
    let width = room_beside(block, 0);
    if width < 0 {
        return margin_right_follows(block, margin_left, 0);
    }
    UsedWidths {
        margin_left,
        width,
        margin_right: length_or_zero(block.margin_right),
    }
}

// 1. Too wide: auto margins are zero, and margin-right follows.
// 2. Nothing is auto, or margin-right alone: margin-right follows.
// 3. Margin-left alone is auto: it follows.
// 4. Both are auto: they are equal, but for a unit that margin-right has more.
fn given_width(block: &BlockIn, width: i128) -> UsedWidths
    requires fits { BlockFits block.now }
    requires width { IsPosition width }
    ensures equation { sum_of_widths block.now result ≡ block.now.containing_width.0 }
    ensures widths { GivenWidth block.now width result }
{
    let room = room_beside(block, width);
    if room < 0 {
        return margin_right_follows(block, length_or_zero(block.margin_left), width);
    }
    match (block.margin_left, block.margin_right) {
        (Len::Of(left), _) => margin_right_follows(block, i128::from(left.0), width),
        (Len::Auto, Len::Of(right)) => UsedWidths {
            margin_left: room,
            width,
            margin_right: i128::from(right.0),
        },
        (Len::Auto, Len::Auto) => margin_right_follows(block, floor_half(room), width),
    }
}

fn margin_right_follows(block: &BlockIn, margin_left: i128, width: i128) -> UsedWidths
    requires fits { BlockFits block.now }
    requires margin_left { IsBelow 80 margin_left }
    requires width { IsBelow 80 width }
    ensures equation { sum_of_widths block.now result ≡ block.now.containing_width.0 }
    ensures left { result.margin_left ≡ margin_left }
    ensures width { result.width ≡ width }
{
    let taken = sum(sum(edges(block), margin_left), width);
    UsedWidths {
        margin_left,
        width,
        margin_right: difference(i128::from(block.containing_width.0), taken),
    }
}
