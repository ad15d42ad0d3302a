//! The values that each property takes, as `specs/Values.antt` has them.

ghost use Rattle.std.specs.Prelude.{◌≡◌, ◌≤◌, ◌^◌};
ghost use Rattle.lay_style.specs.Values.{takes_word, lengths_of, percentages_of, is_number_within, is_whole};
ghost use Rattle.lay_style.specs.Values.{is_number_of, is_spacing, is_pair_of, is_value_of};
ghost use Rattle.lay_style.specs.NumberKinds.{number_range_of};

use crate::property::{Given, OneLength, Property, Word};
use crate::words::{
    is_auto, is_border_collapse, is_border_style, is_border_width, is_caption_side, is_clear,
    is_display, is_empty_cells, is_float, is_font_size, is_none, is_normal, is_overflow,
    is_position, is_table_layout, is_text_align, is_vertical_align, is_visibility, is_white_space,
};

/// The greatest distance of a length from 0, in 1/64 px.
const LENGTH: u64 = 2147483648;

/// The greatest distance of an em or a number from 0, in thousandths.
const THOUSANDTHS: u64 = 1000000000000;

/// The greatest distance of a percentage from 0, in hundredths.
const HUNDREDTHS: u64 = 1073741824;

/// Which numbers a property takes of one kind.
#[derive(Clone, Copy)]
pub enum Numbers {
    Never,
    FromZero,
    Any,
}

/// Whether the property takes this value.
pub fn is_value_of(property: Property, value: Given) -> bool
    ensures { result ≡ is_value_of property value }
{
    match value {
        Given::Keyword(word) => takes_word(property, word),
        Given::Length(length) => is_within(lengths_of(property), LENGTH, length.0),
        Given::Em(em) => is_within(lengths_of(property), THOUSANDTHS, em),
        Given::Percent(percent) => {
            is_within(percentages_of(property), HUNDREDTHS, percent.0 as i64)
        }
        Given::Number(number) => is_number_of(property, number),
        Given::Pair(a, b) => is_pair_of(property, a, b),
        Given::Inherit => true,
    }
}

/// Whether it is one of the property's keywords, but for `inherit`.
fn takes_word(property: Property, word: Word) -> bool
    ensures { result ≡ takes_word property word }
{
    match property {
        Property::Display => is_display(word),
        Property::Position => is_position(word),
        Property::Float => is_float(word),
        Property::Clear => is_clear(word),
        Property::Top
        | Property::Right
        | Property::Bottom
        | Property::Left
        | Property::ZIndex
        | Property::Width
        | Property::Height
        | Property::MarginTop
        | Property::MarginRight
        | Property::MarginBottom
        | Property::MarginLeft => is_auto(word),
        Property::MaxWidth | Property::MaxHeight => is_none(word),
        Property::BorderTopWidth
        | Property::BorderRightWidth
        | Property::BorderBottomWidth
        | Property::BorderLeftWidth => is_border_width(word),
        Property::BorderTopStyle
        | Property::BorderRightStyle
        | Property::BorderBottomStyle
        | Property::BorderLeftStyle => is_border_style(word),
        Property::Overflow => is_overflow(word),
        Property::FontSize => is_font_size(word),
        Property::LineHeight | Property::LetterSpacing | Property::WordSpacing => is_normal(word),
        Property::TextAlign => is_text_align(word),
        Property::WhiteSpace => is_white_space(word),
        Property::VerticalAlign => is_vertical_align(word),
        Property::TableLayout => is_table_layout(word),
        Property::BorderCollapse => is_border_collapse(word),
        Property::CaptionSide => is_caption_side(word),
        Property::Visibility => is_visibility(word),
        Property::EmptyCells => is_empty_cells(word),
        _ => false,
    }
}

/// The property's lengths, in 1/64 px or in em.
fn lengths_of(property: Property) -> Numbers
    ensures { number_range_of result ≡ lengths_of property }
{
    match property {
        Property::Top
        | Property::Right
        | Property::Bottom
        | Property::Left
        | Property::MarginTop
        | Property::MarginRight
        | Property::MarginBottom
        | Property::MarginLeft
        | Property::TextIndent
        | Property::LetterSpacing
        | Property::WordSpacing
        | Property::VerticalAlign => Numbers::Any,
        Property::Width
        | Property::Height
        | Property::MinWidth
        | Property::MinHeight
        | Property::MaxWidth
        | Property::MaxHeight
        | Property::PaddingTop
        | Property::PaddingRight
        | Property::PaddingBottom
        | Property::PaddingLeft
        | Property::BorderTopWidth
        | Property::BorderRightWidth
        | Property::BorderBottomWidth
        | Property::BorderLeftWidth
        | Property::FontSize
        | Property::LineHeight
        | Property::BorderSpacing => Numbers::FromZero,
        _ => Numbers::Never,
    }
}

/// The property's percentages.
fn percentages_of(property: Property) -> Numbers
    ensures { number_range_of result ≡ percentages_of property }
{
    match property {
        Property::BorderTopWidth
        | Property::BorderRightWidth
        | Property::BorderBottomWidth
        | Property::BorderLeftWidth
        | Property::LetterSpacing
        | Property::WordSpacing
        | Property::BorderSpacing => Numbers::Never,
        _ => lengths_of(property),
    }
}

/// Whether it is such a number, at most the limit from 0.
fn is_within(numbers: Numbers, limit: u64, v: i64) -> bool
    requires { limit ≤ 10 ^ 12 }
    ensures { result ≡ is_number_within (number_range_of numbers) limit v }
{
    let limit = limit as i64;
    match numbers {
        Numbers::Never => false,
        Numbers::FromZero => 0 <= v && v <= limit,
        Numbers::Any => -limit <= v && v <= limit,
    }
}

/// Whether it is a whole number, in thousandths.
fn is_whole(v: i64) -> bool
    ensures { result ≡ is_whole v }
{
    v.rem_euclid(1000) == 0
}

fn is_number_of(property: Property, v: i64) -> bool
    ensures { result ≡ is_number_of property v }
{
    match property {
        Property::ZIndex => is_within(Numbers::Any, THOUSANDTHS, v) && is_whole(v),
        Property::LineHeight => is_within(Numbers::FromZero, THOUSANDTHS, v),
        _ => false,
    }
}

fn is_spacing(spacing: OneLength) -> bool
    ensures { result ≡ is_spacing spacing }
{
    match spacing {
        OneLength::Length(length) => is_within(Numbers::FromZero, LENGTH, length.0),
        OneLength::Em(em) => is_within(Numbers::FromZero, THOUSANDTHS, em),
    }
}

fn is_pair_of(property: Property, a: OneLength, b: OneLength) -> bool
    ensures { result ≡ is_pair_of property a b }
{
    match property {
        Property::BorderSpacing => is_spacing(a) && is_spacing(b),
        _ => false,
    }
}
