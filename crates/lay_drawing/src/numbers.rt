//! Numbers as a report writes them: decimal, without leading zeros, a minus in front of negative ones.

ghost use Rattle.std.specs.Prelude.{◌≡◌};
ghost use Rattle.std.specs.List.{list_all};
ghost use Rattle.std.specs.Char.{is_ascii_digit};
ghost use Rattle.lay_drawing.specs.Reading.{is_numeral, number_of, small_of, position_of, negative_of, positive_of};

use lay_units::Unit;
use std::str;

/// The number below 2^64 that is written so.
pub(crate) fn number(text: &[u8]) -> Option<u64>
    ensures { result ≡ number_of text.now }
{
    if !is_numeral(text) {
        return None;
    }
    match str::from_utf8(text) {
        Ok(digits) => match digits.parse::<u64>() {
            Ok(n) => Some(n),
            Err(_) => None,
        },
        Err(_) => None,
    }
}

fn is_numeral(text: &[u8]) -> bool
    ensures { result ≡ is_numeral text.now }
{
    match text.split_first() {
        None => false,
        Some((first, rest)) => { all_digits(text) && (rest.is_empty() || *first != b'0') }
    }
}

fn all_digits(text: &[u8]) -> bool
    ensures { result ≡ list_all is_ascii_digit text.now }
{
    text.iter().all(|b| b.is_ascii_digit())
}

/// The number below 2^32 that is written so.
pub(crate) fn small(text: &[u8]) -> Option<u32>
    ensures { result ≡ small_of text.now }
{
    let n = number(text)?;
    if n < 1 << 32 { Some(n as u32) } else { None }
}

/// The position that is written so, below 2^62 in absolute value.
pub(crate) fn position(text: &[u8]) -> Option<Unit>
    ensures { result ≡ position_of text.now }
{
    match text.split_first() {
        None => None,
        Some((first, rest)) => {
            if *first == b'-' {
                negative(rest)
            } else {
                positive(text)
            }
        }
    }
}

fn negative(digits: &[u8]) -> Option<Unit>
    ensures { result ≡ negative_of digits.now }
{
    let n = number(digits)?;
    if 0 < n && n < 1 << 62 {
        Some(Unit(-(n as i64)))
    } else {
        None
    }
}

fn positive(digits: &[u8]) -> Option<Unit>
    ensures { result ≡ positive_of digits.now }
{
    let n = number(digits)?;
    if n < 1 << 62 {
        Some(Unit(n as i64))
    } else {
        None
    }
}
