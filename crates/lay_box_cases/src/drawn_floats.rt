//! Places floats from draws, once by `Floats` and once by a plain list, where each float is compared with all that
//! stand.

use crate::float_draws::Draws;
use crate::float_page::Page;
use crate::plain_floats::Plain;
use anyhow::Result;
use lay_case_reading::Row;
use std::alloc::Global;

/// Whether the places are the same, of so many floats that are drawn from a seed: `SEED COUNT`.
pub(crate) fn compared(alloc: Global, text: &str) -> Result<String> {
    let (seed, count) = asked(text)?;
    match first_difference(alloc, seed, count)? {
        Some(k) => Ok(format!(in alloc; "other places of float {k}")?),
        None => Ok(String::from_str(alloc, "the same places")?),
    }
}

/// A sum over the places by `Floats` alone.
pub(crate) fn summed(alloc: Global, text: &str) -> Result<String> {
    let (seed, count) = asked(text)?;
    let sum = sum_of_places(alloc, seed, count)?;
    Ok(format!(in alloc; "{sum}")?)
}

fn asked(text: &str) -> Result<(u16, u16)> {
    let mut cells = Row::new(text);
    let seed = cells.number()?;
    let count = cells.number()?;
    cells.end()?;
    Ok((seed, count))
}

/// The first float that has other places, if one has.
fn first_difference(alloc: Global, seed: u16, count: u16) -> Result<Option<u16>> {
    let mut draws = Draws::new(seed);
    let mut page = Page::new(alloc);
    let mut plain = Plain::new(alloc);
    for k in 0..count {
        let float = draws.float();
        let place = page.put(&float.request())?;
        if (place.x.0, place.y.0) != plain.put(&float)? {
            return Ok(Some(k));
        }
    }
    Ok(None)
}

/// A sum over the places.
fn sum_of_places(alloc: Global, seed: u16, count: u16) -> Result<i64> {
    let mut draws = Draws::new(seed);
    let mut page = Page::new(alloc);
    let mut sum: i64 = 0;
    for _ in 0..count {
        let float = draws.float();
        let place = page.put(&float.request())?;
        sum = sum
            .wrapping_mul(31)
            .wrapping_add(place.x.0)
            .wrapping_mul(31)
            .wrapping_add(place.y.0);
    }
    Ok(sum)
}
