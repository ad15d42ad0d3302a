//! Lengths, percentages and bare numbers.

ghost use Rattle.std.specs.Prelude.{◌≡◌, ◌<◌, ◌≤◌, ◌*◌, ◌^◌};
ghost use Rattle.lay_values.specs.Numbers.{IsShort};
ghost use Rattle.lay_values.specs.Lengths.{suffix_name, of_length, suffix_of, length_value};
ghost use Rattle.lay_values.specs.Lengths.{thousandths, hundredths, bare_value, value_with};

use crate::numbers::{Decimal, scaled};
use crate::words::is_spelled;
use lay_style::{Given, Property};
use lay_units::{Percent, Unit, clamp};

/// The greatest distance of a percentage from 0, in hundredths.
const HUNDREDTHS: i128 = 1073741824;

/// What stands behind a number.
#[derive(Clone, Copy)]
pub enum Suffix {
    Nothing,
    Percent,
    Em,
    Px,
    In,
    Cm,
    Mm,
    Pt,
    Pc,
}

/// The suffix as the standard writes it.
fn suffix_name(suffix: Suffix) -> &'static str
    ensures { result.now ≡ suffix_name suffix }
{
    match suffix {
        Suffix::Nothing => "",
        Suffix::Percent => "%",
        Suffix::Em => "em",
        Suffix::Px => "px",
        Suffix::In => "in",
        Suffix::Cm => "cm",
        Suffix::Mm => "mm",
        Suffix::Pt => "pt",
        Suffix::Pc => "pc",
    }
}

/// The suffixes of this length.
fn of_length(length: usize) -> &'static [Suffix]
    ensures { result.now ≡ of_length length }
{
    match length {
        0 => &[Suffix::Nothing],
        1 => &[Suffix::Percent],
        2 => &[
            Suffix::Em,
            Suffix::Px,
            Suffix::In,
            Suffix::Cm,
            Suffix::Mm,
            Suffix::Pt,
            Suffix::Pc,
        ],
        _ => &[],
    }
}

/// The suffix that a text is, in any case.
pub(crate) fn suffix_of(text: &[u8]) -> Option<Suffix>
    ensures { result ≡ suffix_of text.now }
{
    let suffixes = of_length(text.len());
    for suffix in suffixes {
        if is_spelled(text, suffix_name(*suffix)) {
            return Some(*suffix);
        }
    }
    None
}

/// So many times `numerator` over `denominator` px, as a length: rounded down to units once, and clamped.
fn length_value(number: Decimal, numerator: u32, denominator: u32) -> Given
    requires short { IsShort number }
    requires numerator { numerator ≤ 10 ^ 4 }
    requires positive { 0 < denominator }
    requires denominator { denominator ≤ 10 ^ 3 }
    ensures { result ≡ length_value numerator denominator number }
{
    Given::Length(clamp(scaled(number, 64 * numerator, denominator)))
}

/// The number in thousandths, rounded down.
fn thousandths(number: Decimal) -> i64
    requires { IsShort number }
    ensures { result ≡ thousandths number }
{
    scaled(number, 1000, 1) as i64
}

/// The percentage in hundredths, rounded down and clamped.
fn hundredths(number: Decimal) -> Percent
    requires { IsShort number }
    ensures { result.0 ≡ hundredths number }
{
    Percent(scaled(number, 100, 1).clamp(-HUNDREDTHS, HUNDREDTHS) as i32)
}

/// A number with nothing behind it: one of the property's numbers, or the length 0.
fn bare_value(property: Property, number: Decimal) -> Option<Given>
    requires { IsShort number }
    ensures { result ≡ bare_value property number }
{
    match property {
        Property::ZIndex if number.places != 0 => None,
        Property::ZIndex | Property::LineHeight => Some(Given::Number(thousandths(number))),
        _ if number.mantissa != 0 => None,
        _ => Some(Given::Length(Unit(0))),
    }
}

/// The value of a number and what stands behind it (CSS 2.2, 4.3.2 and 4.3.3).
pub(crate) fn value_with(property: Property, number: Decimal, suffix: Suffix) -> Option<Given>
    requires { IsShort number }
    ensures { result ≡ value_with property number suffix }
{
    match suffix {
        Suffix::Nothing => bare_value(property, number),
        Suffix::Percent => Some(Given::Percent(hundredths(number))),
        Suffix::Em => Some(Given::Em(thousandths(number))),
        Suffix::Px => Some(length_value(number, 1, 1)),
        Suffix::In => Some(length_value(number, 96, 1)),
        Suffix::Cm => Some(length_value(number, 9600, 254)),
        Suffix::Mm => Some(length_value(number, 960, 254)),
        Suffix::Pt => Some(length_value(number, 96, 72)),
        Suffix::Pc => Some(length_value(number, 12 * 96, 72)),
    }
}
