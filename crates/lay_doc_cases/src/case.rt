//! Cases.

use anyhow::{Result, bail};
use lay_units::NoMemory;
use std::alloc::Global;

/// What a case is about: it is told the calls of the case, and answers them.
pub(crate) trait Subject {
    /// The answer to a call; None where the line is none.
    fn answer(&mut self, alloc: Global, line: &str) -> Result<Option<String>, NoMemory>;
}

/// The first line of a case that has another answer than it says, with that answer.
pub(crate) fn first_difference<S: Subject>(
    alloc: Global,
    subject: &mut S,
    lines: &str,
) -> Result<Option<String>> {
    for line in lines.lines() {
        if let Some(found) = difference(alloc, subject, line)? {
            return Ok(Some(found));
        }
    }
    Ok(None)
}

/// Makes the call of a line, if it has one, and answers what is other than it says.
fn difference<S: Subject>(alloc: Global, subject: &mut S, line: &str) -> Result<Option<String>> {
    if line.is_empty() || line.starts_with('#') {
        return Ok(None);
    }
    let (call, wanted) = line.split_once(" -> ").unwrap_or((line, "done"));
    match subject.answer(alloc, call) {
        Ok(Some(answer)) if answer.as_str() == wanted => Ok(None),
        Ok(Some(answer)) => Ok(Some(format!(in alloc; "{call} -> {answer}")?)),
        Ok(None) => bail!("no call: {call}"),
        Err(NoMemory) => bail!("out of memory"),
    }
}
