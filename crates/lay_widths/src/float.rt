//! Floats (CSS 2.2, 10.3.5 and 10.4).

ghost use Rattle.std.specs.Prelude.{◌≡◌};
ghost use Rattle.lay_widths.specs.Lengths.{BlockFits, IsBelow, LenFits};
ghost use Rattle.lay_widths.specs.BlockWidths.{width_in};
ghost use Rattle.lay_widths.specs.FloatWidths.{IsUsedFloat, SolvesFloat, float_width_of, shrink_to_fit_of};

use crate::min_max::{WidthRules, bounded};
use crate::room::room_beside;
use crate::wide::length_or_zero;
use crate::widths::{BlockOut, UsedWidths, held};
use lay_units::{BlockIn, Len, Unit};

/// The used margins and width of a float that isn't replaced, from the preferred minimum and the
/// preferred width of its content (CSS 2.2, 10.3.5 and 10.4). The block's lengths are below 2^62 units
/// of 1/64 px in absolute value.
pub fn solve_float(block: &BlockIn, preferred_minimum: Unit, preferred: Unit) -> BlockOut
    requires fits { BlockFits block.now }
    ensures { IsUsedFloat block.now preferred_minimum preferred result }
{
    let rules = FloatRules {
        block,
        preferred_minimum,
        preferred,
    };
    held(&bounded(&rules, block.width, block.min_width, block.max_width))
}

#[derive(Clone, Copy)]
struct FloatRules<'a> {
    block: &'a BlockIn,
    preferred_minimum: Unit,
    preferred: Unit,
}

impl WidthRules for FloatRules<'_> {
    type Used = UsedWidths;

    ghost fit = { λ r. BlockFits r.block.now };

    ghost give = { λ r. SolvesFloat r.block.now r.preferred_minimum r.preferred };

    ghost width = { width_in };

    // 1. Auto margins are zero.
    // 2. An auto width shrinks to fit; a given one is used as it is.
    fn widths_for(&self, computed: Len) -> UsedWidths
        requires fit { BlockFits self.now.block.now }
        requires computed { LenFits computed }
        ensures { SolvesFloat self.now.block.now self.now.preferred_minimum self.now.preferred computed result }
    {
        UsedWidths {
            margin_left: length_or_zero(self.block.margin_left),
            width: float_width(self.block, self.preferred_minimum, self.preferred, computed),
            margin_right: length_or_zero(self.block.margin_right),
        }
    }

    fn width_in(&self, used: UsedWidths) -> i128
        ensures { result ≡ width_in used }
    {
        used.width
    }
}

fn float_width(block: &BlockIn, preferred_minimum: Unit, preferred: Unit, computed: Len) -> i128
    requires fits { BlockFits block.now }
    ensures { result ≡ float_width_of block.now preferred_minimum preferred computed }
{
    match computed {
        Len::Auto => shrink_to_fit(preferred_minimum, room_beside(block, 0), preferred),
        Len::Of(width) => i128::from(width.0),
    }
}

/// An auto width that shrinks to fit the width that is available, in 1/64 px (10.3.5).
pub fn shrink_to_fit(preferred_minimum: Unit, available: i128, preferred: Unit) -> i128
    ensures value { result ≡ shrink_to_fit_of preferred_minimum.0 available preferred.0 }
    ensures below { IsBelow 64 result }
{
    i128::from(preferred_minimum.0)
        .max(available)
        .min(i128::from(preferred.0))
}
