//! Lengths in px, written exactly.

ghost use Rattle.std.specs.Prelude.{◌≡◌, ◌++◌, ◌<◌, OnOk, string_bytes};
ghost use Rattle.lay_drawing.specs.Pixels.{fraction_digits, fraction_text, magnitude_text, px_text, FractionsAreExact};

use lay_units::NoMemory;
use std::fmt::Write;

/// Adds a length, which is given in units of 1/64 px.
pub(crate) fn push_px(text: &mut String, units: i128) -> Result<(), NoMemory>
    ensures { OnOk result (string_bytes text.new ≡ string_bytes text.old ++ px_text units) }
{
    if units < 0 {
        text.push_str("-")?;
    }
    push_magnitude(text, units.unsigned_abs())
}

fn push_magnitude(text: &mut String, units: u128) -> Result<(), NoMemory>
    ensures { OnOk result (string_bytes text.new ≡ string_bytes text.old ++ magnitude_text units) }
{
    let whole = units / 64;
    write!(text, "{whole}")?;
    push_fraction(text, (units % 64) as u32)
}

fn push_fraction(text: &mut String, rest: u32) -> Result<(), NoMemory>
    requires { rest < 64 }
    ensures { OnOk result (string_bytes text.new ≡ string_bytes text.old ++ fraction_text rest) }
{
    if rest == 0 {
        return Ok(());
    }
    text.push_str(".")?;
    push_digits(text, rest)
}

fn push_digits(text: &mut String, rest: u32) -> Result<(), NoMemory>
    requires { rest < 64 }
    ensures { OnOk result (string_bytes text.new ≡ string_bytes text.old ++ fraction_digits 6 rest) }
{
    let mut left = rest;
    for _ in 0..6u32 {
        if left == 0 {
            return Ok(());
        }
        let digit = left * 10 / 64;
        write!(text, "{digit}")?;
        left = left * 10 % 64;
    }
    Ok(())
}

/// Nothing is rounded.
pub fn fractions_are_exact()
    ensures { FractionsAreExact }
{}
