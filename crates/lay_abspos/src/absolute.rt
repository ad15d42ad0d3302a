//! Absolutely positioned boxes that aren't replaced (CSS 2.2, 10.3.7 and 10.6.4).

ghost use Rattle.std.specs.Prelude.{◌≡◌, ◌-ℤ◌, ◌≤ℤ◌, ◌<ℤ◌, pos};
ghost use Rattle.lay_units.specs.Units.{IsPosition};
ghost use Rattle.lay_widths.specs.Lengths.{IsBelow, LenFits};
ghost use Rattle.lay_abspos.specs.AbsoluteFits.{AxisFits};
ghost use Rattle.lay_abspos.specs.AbsoluteAxis.{
  Cases,
  GivenAll,
  HasGivenMargins,
  AreHeldOffsets,
  IsUsedAxis,
  SolvesAxis,
  across,
  available_beside,
  first_share_of,
  axis_width_in,
};

use crate::axis::{Axis, ContentSize, Offsets};
use crate::following::{
    available, fitting_size, left_follows, margin_left_follows, margin_right_follows,
    right_follows, room_inside, wide,
};
use lay_units::{AbsOut, Len, Unit, clamp, clamp_size};
use lay_widths::{WidthRules, bounded, difference, floor_half};

/// The used offsets, margins and size of an absolutely positioned box along one axis, within 2^31 units of 1/64 px of
/// zero, the size from 0 (CSS 2.2, 10.3.7 and 10.6.4, with the bounds of 10.4 and 10.7). The lengths given are below
/// 2^62 units in absolute value.
pub fn solve_absolute(axis: &Axis) -> AbsOut
    requires fits { AxisFits axis.now }
    ensures { IsUsedAxis axis.now result }
{
    let rules = AxisRules { axis };
    let used = bounded(
        &rules,
        axis.block.width,
        axis.block.min_width,
        axis.block.max_width,
    );
    held(&used)
}

fn held(used: &Offsets) -> AbsOut
    ensures { AreHeldOffsets used.now result }
{
    AbsOut {
        left: clamp(used.left),
        margin_left: clamp(used.margin_left),
        width: clamp_size(used.width),
        margin_right: clamp(used.margin_right),
        right: clamp(used.right),
    }
}

#[derive(Clone, Copy)]
struct AxisRules<'a> {
    axis: &'a Axis,
}

impl WidthRules for AxisRules<'_> {
    type Used = Offsets;

    ghost fit = { λ r. AxisFits r.axis.now };

    ghost give = { λ r. SolvesAxis r.axis.now };

    ghost width = { axis_width_in };

    fn widths_for(&self, computed: Len) -> Offsets
        requires fit { AxisFits self.now.axis.now }
        requires computed { LenFits computed }
        ensures { SolvesAxis self.now.axis.now computed result }
    {
        cases(self.axis, self.axis.left, computed, self.axis.right)
    }

    fn width_in(&self, used: Offsets) -> i128
        ensures { result ≡ axis_width_in used }
    {
        used.width
    }
}

// 1. Left and width are auto: the width goes by the content, and left follows.
// 2. Left and right are auto: left is the static position, and right follows.
// 3. Width and right are auto: the width goes by the content, and right follows. So it is where all three are auto, with
//    left at the static position.
// 4. Left alone is auto: it follows.
// 5. The width alone is auto: it follows.
// 6. Right alone is auto: it follows.
fn cases(axis: &Axis, left: Len, computed: Len, right: Len) -> Offsets
    requires fits { AxisFits axis.now }
    requires left { LenFits left }
    requires computed { LenFits computed }
    requires right { LenFits right }
    ensures equation { across axis.now.block result ≡ axis.now.block.containing_width.0 }
    ensures cases { Cases axis.now left computed right result }
{
    let stands = i128::from(axis.static_left.0);
    match (left, computed, right) {
        (Len::Auto, Len::Auto, Len::Auto) => right_follows(
            axis,
            stands,
            fitting_size(axis, stands, 0),
        ),
        (Len::Of(left), Len::Of(width), Len::Of(right)) => all_given(axis, left, width, right),
        (Len::Auto, Len::Auto, Len::Of(right)) => left_follows(
            axis,
            fitting_size(axis, 0, i128::from(right.0)),
            i128::from(right.0),
        ),
        (Len::Auto, Len::Of(width), Len::Auto) => right_follows(axis, stands, i128::from(width.0)),
        (Len::Of(left), Len::Auto, Len::Auto) => right_follows(
            axis,
            i128::from(left.0),
            fitting_size(axis, i128::from(left.0), 0),
        ),
        (Len::Auto, Len::Of(width), Len::Of(right)) => left_follows(
            axis,
            i128::from(width.0),
            i128::from(right.0),
        ),
        (Len::Of(left), Len::Auto, Len::Of(right)) => width_follows(axis, left, right),
        (Len::Of(left), Len::Of(width), Len::Auto) => right_follows(
            axis,
            i128::from(left.0),
            i128::from(width.0),
        ),
    }
}

// 5. The width follows, where there is room for one; else it is zero, and right follows.
fn width_follows(axis: &Axis, left: Unit, right: Unit) -> Offsets
    requires fits { AxisFits axis.now }
    requires left { IsPosition left.0 }
    requires right { IsPosition right.0 }
    ensures equation { across axis.now.block result ≡ axis.now.block.containing_width.0 }
    ensures margins { HasGivenMargins axis.now.block result }
    ensures left { result.left ≡ left.0 }
    ensures room { pos 0 ≤ℤ available_beside axis.now.block left.0 right.0 → result.right ≡ right.0 }
    ensures no_room { available_beside axis.now.block left.0 right.0 <ℤ pos 0 → result.width ≡ pos 0 }
{
    let (left, right) = (wide(left), wide(right));
    let room = available(axis, left, right);
    if room < 0 {
        return right_follows(axis, left, 0);
    }
    left_follows(axis, room, right)
}

// 1. Nothing is auto: right is ignored, and follows.
// 2. One margin is auto: it follows.
// 3. Both are auto: they are equal, but for a unit that margin-right has more, and but for a margin-left that would be
//    negative across.
fn all_given(axis: &Axis, left: Unit, width: Unit, right: Unit) -> Offsets
    requires fits { AxisFits axis.now }
    requires left { IsPosition left.0 }
    requires width { IsPosition width.0 }
    requires right { IsPosition right.0 }
    ensures equation { across axis.now.block result ≡ axis.now.block.containing_width.0 }
    ensures left { result.left ≡ left.0 }
    ensures width { result.width ≡ width.0 }
    ensures margins { GivenAll axis.now axis.now.block.margin_left axis.now.block.margin_right right.0 result }
{
    match (axis.block.margin_left, axis.block.margin_right) {
        (Len::Of(_), Len::Of(_)) => right_follows(axis, wide(left), wide(width)),
        (Len::Of(margin), Len::Auto) => {
            margin_right_follows(
                room_inside(axis),
                wide(left),
                wide(margin),
                wide(width),
                wide(right),
            )
        }
        (Len::Auto, Len::Of(margin)) => {
            margin_left_follows(
                room_inside(axis),
                wide(left),
                wide(width),
                wide(margin),
                wide(right),
            )
        }
        (Len::Auto, Len::Auto) => shared_margins(axis, left, width, right),
    }
}

fn shared_margins(axis: &Axis, left: Unit, width: Unit, right: Unit) -> Offsets
    requires fits { AxisFits axis.now }
    ensures equation { across axis.now.block result ≡ axis.now.block.containing_width.0 }
    ensures left { result.left ≡ left.0 }
    ensures width { result.width ≡ width.0 }
    ensures right { result.right ≡ right.0 }
    ensures margin { result.margin_left ≡ first_share_of axis.now.content (available_beside axis.now.block left.0 right.0 -ℤ width.0) }
{
    let margin_left = first_share(axis.content, rest(axis, left, width, right));
    margin_right_follows(
        room_inside(axis),
        wide(left),
        margin_left,
        wide(width),
        wide(right),
    )
}

fn rest(axis: &Axis, left: Unit, width: Unit, right: Unit) -> i128
    requires fits { AxisFits axis.now }
    ensures value { result ≡ available_beside axis.now.block left.0 right.0 -ℤ width.0 }
    ensures below { IsBelow 96 result }
{
    difference(available(axis, wide(left), wide(right)), wide(width))
}

fn first_share(content: ContentSize, rest: i128) -> i128
    requires rest { IsBelow 96 rest }
    ensures value { result ≡ first_share_of content rest }
    ensures below { IsBelow 97 result }
{
    match content {
        ContentSize::Shrinks(_, _) if rest < 0 => 0,
        _ => floor_half(rest),
    }
}
