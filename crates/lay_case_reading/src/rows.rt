//! Rows of tables.

use anyhow::{Result, bail};
use lay_units::NoMemory;
use std::num::ParseIntError;
use std::str::{FromStr, SplitWhitespace};

/// The cells that are left of a row.
#[derive(Drop)]
pub struct Row<'a> {
    words: SplitWhitespace<'a>,
}

impl<'a> Row<'a> {
    pub fn new(row: &'a str) -> Row<'a> {
        Row {
            words: row.split_whitespace(),
        }
    }

    /// The next cell, where there is one more.
    pub fn word(&mut self) -> Option<&'a str> {
        self.words.next()
    }

    /// The number in the next cell.
    pub fn number<T: FromStr<Err = ParseIntError>>(&mut self) -> Result<T> {
        match self.words.next() {
            Some(word) => number(word),
            None => bail!("a cell is missing"),
        }
    }

    /// The number in the next cell, None where `auto` or `none` stands there.
    pub fn number_or_none<T: FromStr<Err = ParseIntError>>(&mut self) -> Result<Option<T>> {
        match self.words.next() {
            Some("auto" | "none") => Ok(None),
            Some(word) => Ok(Some(number(word)?)),
            None => bail!("a cell is missing"),
        }
    }

    /// Ends the row, which has no further cell.
    pub fn end(mut self) -> Result<()> {
        match self.words.next() {
            Some(word) => bail!("a cell too many: {word}"),
            None => Ok(()),
        }
    }
}

/// The number that a word is.
pub fn number<T: FromStr<Err = ParseIntError>>(word: &str) -> Result<T> {
    match word.parse::<T>() {
        Ok(number) => Ok(number),
        Err(_) => bail!("no number: {word}"),
    }
}

/// What is given where there is memory.
pub fn ample<T: Drop>(given: Result<T, NoMemory>) -> Result<T> {
    match given {
        Ok(given) => Ok(given),
        Err(_) => bail!("out of memory"),
    }
}
