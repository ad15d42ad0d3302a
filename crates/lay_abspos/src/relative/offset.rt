//! The offset of one box (CSS 2.2, 9.4.3).

ghost use Rattle.std.specs.Prelude.{◌≡◌};
ghost use Rattle.lay_units.specs.Units.{IsUsed};
ghost use Rattle.lay_abspos.specs.Relative.RelativeOffsets.{IsOffsetUsed, LenIsUsed, distance_of};
ghost use Rattle.lay_abspos.specs.Relative.RelativeOffsets.{is_relative, relative_offset, used_offset};

use lay_sizes::ContainingBlock;
use lay_style::{LengthPercentageOrAuto, Position, Style};
use lay_units::{Len, Unit, clamp, percent_of};

/// How far something is moved to the right and down, in 1/64 px.
#[derive(Clone, Copy)]
pub struct Offset {
    pub right: Unit,
    pub down: Unit,
}

/// Not moved.
pub(crate) const NO_OFFSET: Offset = Offset {
    right: Unit(0),
    down: Unit(0),
};

/// By how much a box of this style is moved by itself beside its containing block: at most 2^31 units each way. Only a
/// relatively positioned one is.
pub fn relative_offset(containing: ContainingBlock, style: &Style) -> Offset
    ensures value { result ≡ relative_offset containing style.now }
    ensures used { IsOffsetUsed result }
{
    if !is_relative(style.position) {
        return NO_OFFSET;
    }
    let width = Len::Of(containing.width);
    let height = containing.height;
    let offset = &style.offset;
    Offset {
        right: distance_of(
            used_offset(width, offset.left),
            used_offset(width, offset.right),
        ),
        down: distance_of(
            used_offset(height, offset.top),
            used_offset(height, offset.bottom),
        ),
    }
}

pub(crate) fn is_relative(position: Position) -> bool
    ensures { result ≡ is_relative position }
{
    matches!(position, Position::Relative)
}

/// An offset beside the extent of the containing block, of which it may be a percentage.
fn used_offset(extent: Len, offset: LengthPercentageOrAuto) -> Len
    ensures value { result ≡ used_offset extent offset }
    ensures used { LenIsUsed result }
{
    match (offset, extent) {
        (LengthPercentageOrAuto::Auto, _) => Len::Auto,
        (LengthPercentageOrAuto::Length(length), _) => Len::Of(clamp(length.0 as i128)),
        (LengthPercentageOrAuto::Percent(_), Len::Auto) => Len::Auto,
        (LengthPercentageOrAuto::Percent(percent), Len::Of(extent)) => {
            Len::Of(percent_of(percent, extent))
        }
    }
}

/// How far a box is moved away from the side of the first of these offsets. The first wins over the second.
fn distance_of(before: Len, after: Len) -> Unit
    requires before { LenIsUsed before }
    requires after { LenIsUsed after }
    ensures value { result ≡ distance_of before after }
    ensures used { IsUsed result.0 }
{
    match (before, after) {
        (Len::Of(before), _) => before,
        (Len::Auto, Len::Of(after)) => Unit(-after.0),
        (Len::Auto, Len::Auto) => Unit(0),
    }
}
