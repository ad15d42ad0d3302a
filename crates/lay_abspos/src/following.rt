//! Which of left, width and right follows from the equation, where the margins are as given and auto ones are zero.

ghost use Rattle.std.specs.Prelude.{◌≡◌, ◌+ℤ◌, ◌-ℤ◌};
ghost use Rattle.lay_widths.specs.Lengths.{IsBelow, edges_of};
ghost use Rattle.lay_abspos.specs.AbsoluteFits.{AxisFits};
ghost use Rattle.lay_abspos.specs.AbsoluteAxis.{HasGivenMargins, across, available_beside, filled_by, fitting};

use crate::axis::{Axis, ContentSize, Offsets};
use lay_units::Unit;
use lay_widths::{difference, edges, length_or_zero, room_beside, shrink_to_fit, sum};

pub fn available(axis: &Axis, left: i128, right: i128) -> i128
    requires fits { AxisFits axis.now }
    requires left { IsBelow 90 left }
    requires right { IsBelow 90 right }
    ensures value { result ≡ available_beside axis.now.block left right }
    ensures below { IsBelow 93 result }
{
    difference(difference(room_beside(&axis.block, 0), left), right)
}

/// The size that an auto one has by the content, beside these offsets.
pub fn fitting_size(axis: &Axis, left: i128, right: i128) -> i128
    requires fits { AxisFits axis.now }
    requires left { IsBelow 90 left }
    requires right { IsBelow 90 right }
    ensures value { result ≡ fitting axis.now left right }
    ensures below { IsBelow 94 result }
{
    match axis.content {
        ContentSize::Shrinks(minimum, preferred) => shrink_to_fit(
            minimum,
            available(axis, left, right),
            preferred,
        ),
        ContentSize::Stands(height) => i128::from(height.0),
    }
}

pub fn right_follows(axis: &Axis, left: i128, width: i128) -> Offsets
    requires fits { AxisFits axis.now }
    requires left { IsBelow 90 left }
    requires width { IsBelow 94 width }
    ensures equation { across axis.now.block result ≡ axis.now.block.containing_width.0 }
    ensures margins { HasGivenMargins axis.now.block result }
    ensures left { result.left ≡ left }
    ensures width { result.width ≡ width }
{
    Offsets {
        left,
        margin_left: length_or_zero(axis.block.margin_left),
        width,
        margin_right: length_or_zero(axis.block.margin_right),
        right: difference(available(axis, left, 0), width),
    }
}

pub fn left_follows(axis: &Axis, width: i128, right: i128) -> Offsets
    requires fits { AxisFits axis.now }
    requires width { IsBelow 94 width }
    requires right { IsBelow 90 right }
    ensures equation { across axis.now.block result ≡ axis.now.block.containing_width.0 }
    ensures margins { HasGivenMargins axis.now.block result }
    ensures width { result.width ≡ width }
    ensures right { result.right ≡ right }
{
    Offsets {
        left: difference(available(axis, 0, right), width),
        margin_left: length_or_zero(axis.block.margin_left),
        width,
        margin_right: length_or_zero(axis.block.margin_right),
        right,
    }
}

/// What borders and paddings leave of the containing block.
pub fn room_inside(axis: &Axis) -> i128
    requires fits { AxisFits axis.now }
    ensures value { result ≡ axis.now.block.containing_width.0 -ℤ edges_of axis.now.block }
    ensures below { IsBelow 65 result }
{
    difference(wide(axis.block.containing_width), edges(&axis.block))
}

/// Offsets, margins and width that fill a room, with margin-right to follow.
pub fn margin_right_follows(
    room: i128,
    left: i128,
    margin_left: i128,
    width: i128,
    right: i128,
) -> Offsets
    requires room { IsBelow 65 room }
    requires left { IsBelow 64 left }
    requires margin_left { IsBelow 97 margin_left }
    requires width { IsBelow 64 width }
    requires right { IsBelow 64 right }
    ensures filled { filled_by result ≡ room }
    ensures left { result.left ≡ left }
    ensures margin { result.margin_left ≡ margin_left }
    ensures width { result.width ≡ width }
    ensures right { result.right ≡ right }
{
    let taken = total(left, margin_left, width, right);
    Offsets {
        left,
        margin_left,
        width,
        margin_right: difference(room, taken),
        right,
    }
}

/// Offsets, margins and width that fill a room, with margin-left to follow.
pub fn margin_left_follows(
    room: i128,
    left: i128,
    width: i128,
    margin_right: i128,
    right: i128,
) -> Offsets
    requires room { IsBelow 65 room }
    requires left { IsBelow 64 left }
    requires width { IsBelow 64 width }
    requires margin_right { IsBelow 64 margin_right }
    requires right { IsBelow 64 right }
    ensures filled { filled_by result ≡ room }
    ensures left { result.left ≡ left }
    ensures width { result.width ≡ width }
    ensures margin { result.margin_right ≡ margin_right }
    ensures right { result.right ≡ right }
{
    let taken = total(left, width, margin_right, right);
    Offsets {
        left,
        margin_left: difference(room, taken),
        width,
        margin_right,
        right,
    }
}

fn total(a: i128, b: i128, c: i128, d: i128) -> i128
    requires a { IsBelow 97 a }
    requires b { IsBelow 97 b }
    requires c { IsBelow 97 c }
    requires d { IsBelow 97 d }
    ensures value { result ≡ a +ℤ b +ℤ c +ℤ d }
    ensures below { IsBelow 99 result }
{
    sum(sum(sum(a, b), c), d)
}

/// A length, as sums of lengths have it.
pub fn wide(length: Unit) -> i128
    ensures value { result ≡ length.0 }
    ensures below { IsBelow 64 result }
{
    i128::from(length.0)
}
