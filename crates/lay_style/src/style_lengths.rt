//! Computed values that are lengths or percentages. Lengths are in 1/64 px, and at most 2^31 of them from 0.

use lay_units::{Percent, Unit};

/// A size, a margin or an offset: `auto`, a length, or a percentage of the containing block.
#[derive(Clone, Copy, Debug, PartialEq, Eq)]
pub enum LengthPercentageOrAuto {
    Auto,
    Length(Unit),
    Percent(Percent),
}

/// A length, or a percentage of the containing block.
#[derive(Clone, Copy, Debug, PartialEq, Eq)]
pub enum LengthPercentage {
    Length(Unit),
    Percent(Percent),
}

/// A greatest size: `none`, a length, or a percentage of the containing block.
#[derive(Clone, Copy, Debug, PartialEq, Eq)]
pub enum LengthPercentageOrNone {
    None,
    Length(Unit),
    Percent(Percent),
}

/// `line-height` (CSS 2.2, 10.8.1). A number, in thousandths, is inherited as that number.
#[derive(Clone, Copy, Debug, PartialEq, Eq)]
pub enum LineHeight {
    Normal,
    Number(i64),
    Length(Unit),
}

/// `vertical-align` (10.8.1). A percentage is one of the box's own line height.
#[derive(Clone, Copy, Debug, PartialEq, Eq)]
pub enum VerticalAlign {
    Baseline,
    Sub,
    Super,
    Top,
    TextTop,
    Middle,
    Bottom,
    TextBottom,
    Length(Unit),
    Percent(Percent),
}

/// `z-index` (9.9.1), a whole number in thousandths.
#[derive(Clone, Copy, Debug, PartialEq, Eq)]
pub enum ZIndex {
    Auto,
    Number(i64),
}

/// `border-spacing` (17.6.1), from 0.
#[derive(Clone, Copy, Debug, PartialEq, Eq)]
pub struct BorderSpacing {
    pub horizontal: Unit,
    pub vertical: Unit,
}
