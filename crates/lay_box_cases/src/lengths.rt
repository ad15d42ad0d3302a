//! Sections of rows, and lengths from 0 to 65,535 units.

ghost use Rattle.std.specs.Prelude.{◌≤◌, length, All, IfOk};
ghost use Rattle.lay_units.specs.Units.{IsSize};
ghost use Rattle.lay_grid.specs.Automatic.Sizes.{MayBeSize};
ghost use Rattle.lay_box_cases.specs.Small.{IsSmall, MayBeSmall};

use anyhow::{Result, bail};
use lay_case_reading::{Row, number};
use lay_units::Unit;
use std::alloc::Global;

/// The most lengths of a section.
const MOST: usize = 255;

/// The first section of a row, and what stands after it.
pub(crate) fn section(text: &str) -> Result<(&str, &str)> {
    match text.split_once(';') {
        Some(parts) => Ok(parts),
        None => bail!("a section is missing: {text}"),
    }
}

/// The two lengths of a section.
pub(crate) fn two_lengths(text: &str) -> Result<(Unit, Unit)>
    ensures first { IfOk result (λ t. IsSmall t.0.0) }
    ensures second { IfOk result (λ t. IsSmall t.1.0) }
    ensures first_size { IfOk result (λ t. IsSize t.0.0) }
    ensures second_size { IfOk result (λ t. IsSize t.1.0) }
{
    let mut cells = Row::new(text);
    let first = cells.number()?;
    let second = cells.number()?;
    cells.end()?;
    Ok((units(first), units(second)))
}

/// At most 255 lengths.
pub(crate) fn lengths(alloc: Global, text: &str) -> Result<Vec<Unit>>
    ensures few { IfOk result (λ v. length v.items ≤ 255) }
    ensures small { IfOk result (λ v. All (λ (u : Unit). IsSmall u.0) v.items) }
{
    let mut lengths = Vec::new(alloc);
    for word in text.split_whitespace() {
        if lengths.len() == MOST {
            bail!("too many lengths");
        }
        lengths.push(length(word)?)?;
    }
    Ok(lengths)
}

/// At most 255 lengths, None where `auto` or `none` stands.
pub(crate) fn lengths_or_none(alloc: Global, text: &str) -> Result<Vec<Option<Unit>>>
    ensures few { IfOk result (λ v. length v.items ≤ 255) }
    ensures small { IfOk result (λ v. All MayBeSmall v.items) }
    ensures sizes { IfOk result (λ v. All MayBeSize v.items) }
{
    let mut lengths = Vec::new(alloc);
    for word in text.split_whitespace() {
        if lengths.len() == MOST {
            bail!("too many lengths");
        }
        lengths.push(length_or_none(word)?)?;
    }
    Ok(lengths)
}

/// The length that a word is.
pub(crate) fn length(word: &str) -> Result<Unit>
    ensures small { IfOk result (λ u. IsSmall u.0) }
    ensures size { IfOk result (λ u. IsSize u.0) }
{
    Ok(units(number(word)?))
}

/// The length that a word is, None where it is `auto` or `none`.
pub(crate) fn length_or_none(word: &str) -> Result<Option<Unit>>
    ensures small { IfOk result MayBeSmall }
    ensures size { IfOk result MayBeSize }
{
    if word == "auto" || word == "none" {
        return Ok(None);
    }
    Ok(Some(length(word)?))
}

fn units(v: u16) -> Unit
    ensures small { IsSmall result.0 }
    ensures size { IsSize result.0 }
{
    Unit(i64::from(v))
}
