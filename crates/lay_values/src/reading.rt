//! The text of a property's value.

ghost use Rattle.std.specs.Prelude.{◌≡◌, ◌≤◌, [], true, false, IfSome, length, map, option_map};
ghost use Rattle.std.specs.Str.{IsAscii, is_utf8};
ghost use Rattle.std.specs.Char.{to_ascii_lowercase};
ghost use Rattle.std.specs.Result.{result_ok};
ghost use Rattle.lay_style.specs.declared.property.Property.TheVariants.{BorderSpacing};
ghost use Rattle.lay_values.specs.Numbers.{IsShort, leading, behind, number_of};
ghost use Rattle.lay_values.specs.Reading.{without_front, trimmed, is_of_number, measure_of, one_length_of, one_spacing, spacings_of};
ghost use Rattle.lay_values.specs.Reading.{is_of_word, numeric_of, begins_with_letter, value_of, declaration_from, read_declaration};

use crate::lengths::{suffix_of, value_with};
use crate::names::{property_named, property_of};
use crate::numbers::{Decimal, number_of, split_digits, whole_number};
use crate::words::keyword_of;
use lay_style::{Decl, Given, OneLength, Property};
use std::alloc::Global;

/// Why a name and a text give no declaration.
#[derive(Clone, Copy, Debug)]
pub enum ValueFault {
    /// No property has the name.
    BadProperty,
    /// The property has the name, and the text is none of its values.
    BadValue,
    NoMemory,
}

/// A text without the white space at its front.
pub fn without_front(text: &[u8]) -> &[u8]
    ensures rest { result.now ≡ without_front text.now }
    ensures shorter { length result.now ≤ length text.now }
{
    text.trim_ascii_start()
}

/// A text without the white space at both its ends.
pub fn trimmed(text: &[u8]) -> &[u8]
    ensures rest { result.now ≡ trimmed text.now }
    ensures ascii { IsAscii result.now → IsAscii text.now }
{
    text.trim_ascii_start().trim_ascii_end()
}

fn is_of_number(byte: u8) -> bool
    ensures { result ≡ is_of_number byte }
{
    byte.is_ascii_digit() || byte == b'+' || byte == b'-' || byte == b'.'
}

/// The digits, signs and points that a text begins with, and what stands behind them.
fn split_number(text: &[u8]) -> (&[u8], &[u8])
    ensures number { result.0.now ≡ leading is_of_number text.now }
    ensures suffix { result.1.now ≡ behind is_of_number text.now }
{
    for (i, b) in text.iter().enumerate() {
        if !is_of_number(*b) {
            return text.split_at(i);
        }
    }
    text.split_at(text.len())
}

/// What a text begins with before its first white space, and the rest.
fn split_word(text: &[u8]) -> (&[u8], &[u8])
    ensures word { result.0.now ≡ leading is_of_word text.now }
    ensures rest { result.1.now ≡ behind is_of_word text.now }
{
    for (i, b) in text.iter().enumerate() {
        if b.is_ascii_whitespace() {
            return text.split_at(i);
        }
    }
    text.split_at(text.len())
}

/// Whether a text goes on as a number.
fn goes_on(text: &[u8]) -> bool
    ensures { result ≡ false → (leading is_of_number text.now ≡ []) × (behind is_of_number text.now ≡ text.now) }
{
    match text {
        [] => false,
        [first, ..] => is_of_number(*first),
    }
}

/// The number that the digits, signs and points at the front of a text are, and what stands behind them.
#[tactic(auto, using(crate::proofs::Wholes::whole_number_is, crate::proofs::Wholes::digits_behind))]
fn split_measure(text: &[u8]) -> Option<(Decimal, &[u8])>
    ensures number { option_map (λ r. r.0) result ≡ number_of (leading is_of_number text.now) }
    ensures short { IfSome result (λ r. IsShort r.0) }
    ensures suffix { IfSome result (λ r. r.1.now ≡ behind is_of_number text.now) }
{
    let (digits, rest) = split_digits(text);
    // Most numbers are digits alone.
    if !goes_on(rest) {
        return Some((whole_number(digits)?, rest));
    }
    let (number, suffix) = split_number(text);
    Some((number_of(number)?, suffix))
}

/// A number, and then a unit, `%` or nothing.
fn measure_of(property: Property, text: &[u8]) -> Option<Given>
    ensures { result ≡ measure_of property text.now }
{
    let (number, suffix) = split_measure(text)?;
    value_with(property, number, suffix_of(suffix)?)
}

fn one_length_of(value: Given) -> Option<OneLength>
    ensures { result ≡ one_length_of value }
{
    match value {
        Given::Length(length) => Some(OneLength::Length(length)),
        Given::Em(em) => Some(OneLength::Em(em)),
        _ => None,
    }
}

/// One of two lengths of `border-spacing`.
fn spacing_of(text: &[u8]) -> Option<OneLength>
    ensures { result ≡ one_spacing text.now }
{
    one_length_of(measure_of(Property::BorderSpacing, text)?)
}

/// One length of `border-spacing`, or two of them (CSS 2.2, 17.6.1).
fn spacings_of(first: &[u8], second: &[u8]) -> Option<Given>
    ensures { result ≡ spacings_of first.now second.now }
{
    if second.is_empty() {
        return measure_of(Property::BorderSpacing, first);
    }
    Some(Given::Pair(spacing_of(first)?, spacing_of(second)?))
}

fn numeric_of(property: Property, text: &[u8]) -> Option<Given>
    ensures { result ≡ numeric_of property text.now }
{
    match property {
        Property::BorderSpacing => {
            let (first, rest) = split_word(text);
            spacings_of(first, without_front(rest))
        }
        _ => measure_of(property, text),
    }
}

fn begins_with_letter(text: &[u8]) -> bool
    ensures { result ≡ begins_with_letter text.now }
{
    match text {
        [] => false,
        [first, ..] => first.is_ascii_alphabetic(),
    }
}

/// The value that a text is, for a property.
fn value_of(property: Property, text: &[u8]) -> Option<Given>
    ensures { result ≡ value_of property text.now }
{
    if begins_with_letter(text) {
        keyword_of(text)
    } else {
        numeric_of(property, text)
    }
}

fn declared_value(property: Property, text: &[u8]) -> Option<Decl>
    ensures decl { result ≡ declaration_from property text.now }
    ensures utf8 { IfSome result (λ _. is_utf8 text.now ≡ true) }
{
    let Some(value) = value_of(property, trimmed(text)) else {
        return None;
    };
    Decl::new(property, value)
}

/// The declaration that bytes give as a property's name and the text of its value: what `read` answers for them, or None where it
/// answers a fault. Bytes that give one are UTF-8, and the name has no capital.
pub fn read_bytes(name: &[u8], text: &[u8]) -> Option<Decl>
    ensures decl { result ≡ result_ok (read_declaration name.now text.now) }
    ensures name { IfSome result (λ _. is_utf8 name.now ≡ true) }
    ensures small { IfSome result (λ _. map to_ascii_lowercase name.now ≡ name.now) }
    ensures text { IfSome result (λ _. is_utf8 text.now ≡ true) }
{
    let property = property_named(name)?;
    let decl = declared_value(property, text)?;
    Some(decl)
}

/// The declaration that a property's name and the text of a value give (CSS 2.2, 4.1.8): `BadProperty`
/// where no property has the name, and else `BadValue` where the text is none of the property's values.
/// Nothing is allocated, so memory can't run out.
pub fn read(_alloc: Global, property: &str, text: &str) -> Result<Decl, ValueFault>
    ensures { result ≡ read_declaration property.now text.now }
{
    let Some(property) = property_of(property) else {
        return Err(ValueFault::BadProperty);
    };
    match declared_value(property, text.as_bytes()) {
        Some(decl) => Ok(decl),
        None => Err(ValueFault::BadValue),
    }
}
