//! Answers to calls on a core, as text.

use crate::keys::Key;
use lay_history::edits::Reply;
use lay_units::NoMemory;
use std::alloc::Global;

/// The answer to a call, by how it is written.
#[derive(Drop)]
pub enum Said {
    /// A word alone.
    Word(&'static str),
    /// A number alone.
    Number(u64),
    /// A word and a number, as `busy 4`.
    Numbered(&'static str, u64),
    /// A word and the key of a cell, as `waiting Size 4`.
    Keyed(&'static str, Key),
    /// `granted` with the key of a claim and its number.
    Granted(Key, u64),
    /// What is written at full length.
    Text(String),
}

impl Said {
    /// The answer of a call that lacks memory.
    pub const LACKS: Said = Said::Word("no memory");

    /// The answer as a text.
    pub fn text(self, alloc: Global) -> Result<String, NoMemory> {
        match self {
            Said::Word(word) => Ok(String::from_str(alloc, word)?),
            Said::Number(number) => Ok(format!(in alloc; "{number}")?),
            Said::Numbered(word, number) => Ok(format!(in alloc; "{word} {number}")?),
            Said::Keyed(word, key) => Ok(format!(in alloc; "{word} {}", key.text(alloc)?)?),
            Said::Granted(key, number) => {
                Ok(format!(in alloc; "granted {} {number}", key.text(alloc)?)?)
            }
            Said::Text(text) => Ok(text),
        }
    }
}

/// A reply as a report writes it.
pub fn shown_reply(alloc: Global, reply: Reply) -> Result<Said, NoMemory> {
    match reply {
        Reply::Accepted(version) => Ok(Said::Numbered("accepted", version)),
        Reply::Refused { fault, .. } => Ok(Said::Text(format!(in alloc; "refused {fault:?}")?)),
        Reply::Shown(version) => Ok(Said::Numbered("shown", version)),
        Reply::NoMemory => Ok(Said::LACKS),
    }
}

/// Adds a claim to a list of claims, as `10 Measure 3`.
pub fn push_claim(alloc: Global, text: &mut String, number: u64, key: Key) -> Result<(), NoMemory> {
    let comma = if text.is_empty() { "" } else { ", " };
    Ok(write!(text, "{comma}{number} {}", key.text(alloc)?)?)
}

/// Adds a count to a list of counts, as `cleaned 2`, where it isn't 0.
pub fn push_count(text: &mut String, name: &str, count: u32) -> Result<(), NoMemory> {
    if count > 0 {
        let comma = if text.is_empty() { "" } else { ", " };
        write!(text, "{comma}{name} {count}")?;
    }
    Ok(())
}
