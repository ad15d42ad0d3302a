//! Documents that are too long to be written out.

use anyhow::{Context, Result};
use std::alloc::Global;

/// The bytes of a document in which a line `times COUNT TEXT` stands for so many copies of TEXT, with no line
/// break before or behind them. In a copy `<n>` is its number, from 1, and `<n-1>` the number before.
pub fn with_copies(alloc: Global, document: &str) -> Result<Vec<u8>> {
    let mut bytes = Vec::new(alloc);
    let mut behind_a_line = false;
    for line in document.split('\n') {
        match line.strip_prefix("times ") {
            Some(copies) => {
                add_copies(alloc, &mut bytes, copies)?;
                behind_a_line = false;
            }
            None => {
                if behind_a_line {
                    bytes.push(b'\n')?;
                }
                bytes.extend_from_slice(line.as_bytes())?;
                behind_a_line = true;
            }
        }
    }
    Ok(bytes)
}

fn add_copies(alloc: Global, bytes: &mut Vec<u8>, copies: &str) -> Result<()> {
    let (count, text) = copies.split_once(' ').context("copies of nothing")?;
    for before in 0..count.parse::<u32>().context("so many copies")? {
        let number = format!(in alloc; "{}", u64::from(before) + 1)?;
        let number_before = format!(in alloc; "{before}")?;
        let copy = text.replace(alloc, "<n-1>", number_before.as_str())?;
        let copy = copy.replace(alloc, "<n>", number.as_str())?;
        bytes.extend_from_slice(copy.as_bytes())?;
    }
    Ok(())
}
