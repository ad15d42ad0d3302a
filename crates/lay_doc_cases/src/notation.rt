//! What several kinds of calls write alike.

use lay_style::{Decl, Decls};
use lay_units::NoMemory;
use lay_values::read;
use std::alloc::{AllocError, Global};
use std::fmt::Debug;

/// The answer to a call that has none of its own.
pub(crate) fn done(alloc: Global) -> Result<Option<String>, NoMemory> {
    Ok(Some(String::from_str(alloc, "done")?))
}

/// A value as `Debug` writes it.
pub(crate) fn shown<T: Debug + Drop>(alloc: Global, value: T) -> Result<String, AllocError> {
    format!(in alloc; "{value:?}")
}

/// Two numbers with a blank between them.
pub(crate) fn two_numbers(text: &str) -> Option<(u32, u32)> {
    let (first, second) = text.split_once(' ')?;
    Some((first.parse::<u32>().ok()?, second.parse::<u32>().ok()?))
}

/// Numbers with blanks between them.
pub(crate) fn numbers(alloc: Global, text: &str) -> Result<Option<Vec<u32>>, NoMemory> {
    let mut numbers = Vec::new(alloc);
    for word in text.split(' ') {
        if word.is_empty() {
            continue;
        }
        let Ok(number) = word.parse::<u32>() else {
            return Ok(None);
        };
        numbers.push(number)?;
    }
    Ok(Some(numbers))
}

/// The declaration `PROPERTY: VALUE`.
pub(crate) fn declaration(alloc: Global, text: &str) -> Option<Decl> {
    let (name, value) = text.split_once(": ")?;
    read(alloc, name, value).ok()
}

/// Declarations with `; ` between them.
pub(crate) fn declarations(alloc: Global, text: &str) -> Result<Option<Decls>, NoMemory> {
    let mut decls = Decls::new(alloc);
    for text in text.split("; ") {
        if text.is_empty() {
            continue;
        }
        let Some(decl) = declaration(alloc, text) else {
            return Ok(None);
        };
        decls.set(decl)?;
    }
    Ok(Some(decls))
}
