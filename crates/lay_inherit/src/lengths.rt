//! The computed values of the properties that have lengths, percentages and numbers (CSS 2.2, 4.3.2 and
//! 6.1.2). Lengths are in 1/64 px, an em is given in thousandths; `font` is the computed font size of
//! the same node.

ghost use Rattle.std.specs.Prelude.{◌≡◌, ◌*ℤ◌, pos};
ghost use Rattle.lay_units.specs.Units.{floor_div};
ghost use Rattle.lay_style.specs.LengthValues.{ems_of, percents_of, length_of, size_of, px, offset_of, size_or_auto_of};
ghost use Rattle.lay_style.specs.LengthValues.{size_measure_of, size_or_none_of, indent_of, spacing_of, border_width_of, font_size_of};
ghost use Rattle.lay_style.specs.LengthValues.{line_height_of, vertical_align_of, z_index_of, one_spacing_of, border_spacing_of};

use lay_style::{
    BorderSpacing, Given, LengthPercentage, LengthPercentageOrAuto, LengthPercentageOrNone,
    LineHeight, OneLength, VerticalAlign, Word, ZIndex,
};
use lay_units::{Percent, Unit, clamp, clamp_size};

fn product(a: i64, b: i64) -> i128
    ensures { result ≡ a *ℤ b }
{
    i128::from(a) * i128::from(b)
}

/// So many thousandths of a font size, rounded down.
fn ems_of(thousandths: i64, font: Unit) -> i128
    ensures { result ≡ ems_of thousandths font }
{
    product(thousandths, font.0).div_euclid(1000)
}

/// So many hundredths of a percent of a font size, rounded down.
fn percents_of(percent: Percent, font: Unit) -> i128
    ensures { result ≡ percents_of percent.0 font }
{
    product(i64::from(percent.0), font.0).div_euclid(10000)
}

/// A length in units.
fn length(unit: Unit) -> Unit
    ensures { result ≡ length_of unit.0 }
{
    clamp(i128::from(unit.0))
}

/// A length in thousandths of an em.
fn em_length(thousandths: i64, font: Unit) -> Unit
    ensures { result ≡ length_of (ems_of thousandths font) }
{
    clamp(ems_of(thousandths, font))
}

/// A length in units that can't be negative.
fn size(unit: Unit) -> Unit
    ensures { result ≡ size_of unit.0 }
{
    clamp_size(i128::from(unit.0))
}

/// A length in thousandths of an em that can't be negative.
fn em_size(thousandths: i64, font: Unit) -> Unit
    ensures { result ≡ size_of (ems_of thousandths font) }
{
    clamp_size(ems_of(thousandths, font))
}

/// A percentage of a font size that can't be negative.
fn percent_size(percent: Percent, font: Unit) -> Unit
    ensures { result ≡ size_of (percents_of percent.0 font) }
{
    clamp_size(percents_of(percent, font))
}

/// So many px.
pub(crate) fn px(n: u8) -> Unit
    ensures { result ≡ px n }
{
    Unit(64 * i64::from(n))
}

/// `top`, `right`, `bottom`, `left` (9.3.2) and the margins (8.3).
pub(crate) fn offset_of(font: Unit, given: Given) -> LengthPercentageOrAuto
    ensures { result ≡ offset_of font given }
{
    match given {
        Given::Length(unit) => LengthPercentageOrAuto::Length(length(unit)),
        Given::Em(thousandths) => LengthPercentageOrAuto::Length(em_length(thousandths, font)),
        Given::Percent(percent) => LengthPercentageOrAuto::Percent(percent),
        _ => LengthPercentageOrAuto::Auto,
    }
}

/// `width` (10.2) and `height` (10.5).
pub(crate) fn size_or_auto_of(font: Unit, given: Given) -> LengthPercentageOrAuto
    ensures { result ≡ size_or_auto_of font given }
{
    match given {
        Given::Length(unit) => LengthPercentageOrAuto::Length(size(unit)),
        Given::Em(thousandths) => LengthPercentageOrAuto::Length(em_size(thousandths, font)),
        Given::Percent(percent) => LengthPercentageOrAuto::Percent(percent),
        _ => LengthPercentageOrAuto::Auto,
    }
}

/// `min-width` (10.4), `min-height` (10.7) and the paddings (8.4).
pub(crate) fn size_measure_of(font: Unit, given: Given) -> LengthPercentage
    ensures { result ≡ size_measure_of font given }
{
    match given {
        Given::Length(unit) => LengthPercentage::Length(size(unit)),
        Given::Em(thousandths) => LengthPercentage::Length(em_size(thousandths, font)),
        Given::Percent(percent) => LengthPercentage::Percent(percent),
        _ => LengthPercentage::Length(px(0)),
    }
}

/// `max-width` (10.4) and `max-height` (10.7).
pub(crate) fn size_or_none_of(font: Unit, given: Given) -> LengthPercentageOrNone
    ensures { result ≡ size_or_none_of font given }
{
    match given {
        Given::Length(unit) => LengthPercentageOrNone::Length(size(unit)),
        Given::Em(thousandths) => LengthPercentageOrNone::Length(em_size(thousandths, font)),
        Given::Percent(percent) => LengthPercentageOrNone::Percent(percent),
        _ => LengthPercentageOrNone::None,
    }
}

/// `text-indent` (16.1).
pub(crate) fn indent_of(font: Unit, given: Given) -> LengthPercentage
    ensures { result ≡ indent_of font given }
{
    match given {
        Given::Length(unit) => LengthPercentage::Length(length(unit)),
        Given::Em(thousandths) => LengthPercentage::Length(em_length(thousandths, font)),
        Given::Percent(percent) => LengthPercentage::Percent(percent),
        _ => LengthPercentage::Length(px(0)),
    }
}

/// `letter-spacing` and `word-spacing` (16.4), of which `normal` is 0.
pub(crate) fn spacing_of(font: Unit, given: Given) -> Unit
    ensures { result ≡ spacing_of font given }
{
    match given {
        Given::Length(unit) => length(unit),
        Given::Em(thousandths) => em_length(thousandths, font),
        _ => px(0),
    }
}

/// The width of a border where there is one (8.5.1).
pub(crate) fn border_width_of(font: Unit, given: Given) -> Unit
    ensures { result ≡ border_width_of font given }
{
    match given {
        Given::Keyword(Word::Thin) => px(1),
        Given::Keyword(Word::Thick) => px(5),
        Given::Length(unit) => size(unit),
        Given::Em(thousandths) => em_size(thousandths, font),
        _ => px(3),
    }
}

/// Six fifths of a font size, rounded down.
fn larger_than(parent: Unit) -> Unit
    ensures { result ≡ size_of (floor_div (pos 6 *ℤ parent.0) 5) }
{
    clamp_size(product(6, parent.0).div_euclid(5))
}

/// Five sixths of a font size, rounded down.
fn smaller_than(parent: Unit) -> Unit
    ensures { result ≡ size_of (floor_div (pos 5 *ℤ parent.0) 6) }
{
    clamp_size(product(5, parent.0).div_euclid(6))
}

/// `font-size` beside the font size of the parent (15.7).
pub(crate) fn font_size_of(parent: Unit, given: Given) -> Unit
    ensures { result ≡ font_size_of parent given }
{
    match given {
        Given::Keyword(Word::XxSmall) => px(9),
        Given::Keyword(Word::XSmall) => px(10),
        Given::Keyword(Word::Small) => px(13),
        Given::Keyword(Word::Large) => px(18),
        Given::Keyword(Word::XLarge) => px(24),
        Given::Keyword(Word::XxLarge) => px(32),
        Given::Keyword(Word::Larger) => larger_than(parent),
        Given::Keyword(Word::Smaller) => smaller_than(parent),
        Given::Length(unit) => size(unit),
        Given::Em(thousandths) => em_size(thousandths, parent),
        Given::Percent(percent) => percent_size(percent, parent),
        _ => px(16),
    }
}

/// `line-height` (10.8.1).
pub(crate) fn line_height_of(font: Unit, given: Given) -> LineHeight
    ensures { result ≡ line_height_of font given }
{
    match given {
        Given::Number(thousandths) => LineHeight::Number(thousandths),
        Given::Length(unit) => LineHeight::Length(size(unit)),
        Given::Em(thousandths) => LineHeight::Length(em_size(thousandths, font)),
        Given::Percent(percent) => LineHeight::Length(percent_size(percent, font)),
        _ => LineHeight::Normal,
    }
}

/// `vertical-align` (10.8.1).
pub(crate) fn vertical_align_of(font: Unit, given: Given) -> VerticalAlign
    ensures { result ≡ vertical_align_of font given }
{
    match given {
        Given::Keyword(Word::Sub) => VerticalAlign::Sub,
        Given::Keyword(Word::Super) => VerticalAlign::Super,
        Given::Keyword(Word::Top) => VerticalAlign::Top,
        Given::Keyword(Word::TextTop) => VerticalAlign::TextTop,
        Given::Keyword(Word::Middle) => VerticalAlign::Middle,
        Given::Keyword(Word::Bottom) => VerticalAlign::Bottom,
        Given::Keyword(Word::TextBottom) => VerticalAlign::TextBottom,
        Given::Length(unit) => VerticalAlign::Length(length(unit)),
        Given::Em(thousandths) => VerticalAlign::Length(em_length(thousandths, font)),
        Given::Percent(percent) => VerticalAlign::Percent(percent),
        _ => VerticalAlign::Baseline,
    }
}

/// `z-index` (9.9.1).
pub(crate) fn z_index_of(given: Given) -> ZIndex
    ensures { result ≡ z_index_of given }
{
    match given {
        Given::Number(thousandths) => ZIndex::Number(thousandths),
        _ => ZIndex::Auto,
    }
}

/// One length of `border-spacing`.
fn one_spacing_of(font: Unit, given: OneLength) -> Unit
    ensures { result ≡ one_spacing_of font given }
{
    match given {
        OneLength::Length(unit) => size(unit),
        OneLength::Em(thousandths) => em_size(thousandths, font),
    }
}

/// One spacing both ways.
fn even_spacing(one: Unit) -> BorderSpacing
    ensures { result ≡ record { horizontal = one; vertical = one } }
{
    BorderSpacing {
        horizontal: one,
        vertical: one,
    }
}

/// `border-spacing` (17.6.1): one length counts for both.
pub(crate) fn border_spacing_of(font: Unit, given: Given) -> BorderSpacing
    ensures { result ≡ border_spacing_of font given }
{
    match given {
        Given::Length(unit) => even_spacing(size(unit)),
        Given::Em(thousandths) => even_spacing(em_size(thousandths, font)),
        Given::Pair(first, second) => BorderSpacing {
            horizontal: one_spacing_of(font, first),
            vertical: one_spacing_of(font, second),
        },
        _ => even_spacing(px(0)),
    }
}
