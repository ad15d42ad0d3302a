//! The texts of values (CSS 2.2, 4.1.8 and 4.3): a call is `NAME: TEXT`, the name of a property and the
//! text of a value, and its answer the property with the value, or the fault. `\t`, `\n`, `\r`, `\f`,
//! `\v`, `\0` and `\_` stand for white space, a vertical tab, the byte 0 and a no-break space.

use crate::case::Subject;
use lay_units::NoMemory;
use lay_values::read;
use std::alloc::{AllocError, Global};

/// The reader of values.
#[derive(Drop)]
pub(crate) struct ReadValues;

impl Subject for ReadValues {
    fn answer(&mut self, alloc: Global, line: &str) -> Result<Option<String>, NoMemory> {
        let line = unescaped(alloc, line)?;
        match line.as_str().split_once(':') {
            Some((name, text)) => {
                let text = text.strip_prefix(' ').unwrap_or(text);
                Ok(Some(given(alloc, name, text)?))
            }
            None => Ok(None),
        }
    }
}

/// The value that is read, or the fault.
fn given(alloc: Global, name: &str, text: &str) -> Result<String, AllocError> {
    match read(alloc, name, text) {
        Ok(decl) => format!(in alloc; "{:?} {:?}", decl.property(), decl.value()),
        Err(fault) => format!(in alloc; "{fault:?}"),
    }
}

/// What can't be seen in a line, and how it is written there.
const ESCAPES: [(&str, &str); 7] = [
    ("\\t", "\t"),
    ("\\n", "\n"),
    ("\\r", "\r"),
    ("\\f", "\u{c}"),
    ("\\v", "\u{b}"),
    ("\\0", "\u{0}"),
    ("\\_", "\u{a0}"),
];

fn unescaped(alloc: Global, line: &str) -> Result<String, AllocError> {
    let mut text = String::from_str(alloc, line)?;
    for (escape, meant) in ESCAPES {
        text = text.replace(alloc, escape, meant)?;
    }
    Ok(text)
}
