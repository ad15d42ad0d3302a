//! Spans of rows and columns.

ghost use Rattle.std.specs.Prelude.{◌+◌, ◌≤◌, IfOk};

use crate::rows::number;
use anyhow::{Result, bail};

/// `PLACE+COUNT=REST`: the first of so many rows or columns, how many are spanned, and what is said after these.
pub fn spanned(word: &str, count: usize) -> Result<(u8, u8, &str)>
    ensures some { IfOk result (λ t. 1 ≤ t.1) }
    ensures inside { IfOk result (λ t. t.0 + t.1 ≤ count) }
{
    let Some((place, rest)) = word.split_once('+') else {
        bail!("no place: {word}");
    };
    let Some((span, rest)) = rest.split_once('=') else {
        bail!("no span: {word}");
    };
    let place = number::<u8>(place)?;
    let span = number::<u8>(span)?;
    if span == 0 || place as usize + span as usize > count {
        bail!("outside: {word}");
    }
    Ok((place, span, rest))
}
