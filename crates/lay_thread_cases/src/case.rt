//! Cases. A call that lacks memory is made again, and has then the answer that its line says. What its line says behind ` | `, as in
//! `claim 1 -> 16 Measure 5 | draws -> 15`, is what stands between the two.

use crate::calls::OneCore;
use anyhow::{Result, bail};
use lay_units::NoMemory;
use std::alloc::{AllocError, Global};
use std::sync::Wait;
use std::thread::Threads;
use std::time::Clock;

/// What came of a case.
#[derive(Drop)]
pub(crate) struct Comparison {
    /// The first call that has another answer than its line says, with that answer.
    pub other: Option<String>,
    /// The calls that lacked memory, each behind a comma.
    pub lacking: String,
}

/// What comes of a case.
pub(crate) fn compared<R: Threads + Wait + Clock + Sync>(
    rt: &R,
    alloc: Global,
    core: &mut OneCore,
    lines: &str,
) -> Result<Comparison> {
    let mut lacking = String::new(alloc);
    for line in lines.lines() {
        let other = other_at_last(rt, alloc, core, line, &mut lacking)?;
        if other.is_some() {
            return Ok(Comparison { other, lacking });
        }
    }
    Ok(Comparison {
        other: None,
        lacking,
    })
}

/// Makes the call of a line, once more where it lacks memory, and answers what is other than the line says.
fn other_at_last<R: Threads + Wait + Clock + Sync>(
    rt: &R,
    alloc: Global,
    core: &mut OneCore,
    line: &str,
    lacking: &mut String,
) -> Result<Option<String>> {
    let (line, between) = line.split_once(" | ").unwrap_or((line, ""));
    let other = other_answer(rt, alloc, core, line)?;
    if !lacks(&other) {
        return Ok(other);
    }
    write!(lacking, ", {} lacked memory", call_and_answer(line).0)?;
    answer_again(rt, alloc, core, line, between)
}

/// A call, and its answer.
fn call_and_answer(line: &str) -> (&str, &str) {
    line.split_once(" -> ").unwrap_or((line, "done"))
}

/// Whether a call has lacked memory, by its answer where that is another than the line says.
fn lacks(other: &Option<String>) -> bool {
    match other {
        Some(other) => other.as_str().ends_with(" -> no memory"),
        None => false,
    }
}

/// Looks at what stands behind a call that lacked memory, and makes it again; answers what is other than the lines say.
fn answer_again<R: Threads + Wait + Clock + Sync>(
    rt: &R,
    alloc: Global,
    core: &mut OneCore,
    line: &str,
    between: &str,
) -> Result<Option<String>> {
    for state in between.split(" | ") {
        let other = other_answer(rt, alloc, core, state)?;
        if other.is_some() {
            return Ok(other);
        }
    }
    other_answer(rt, alloc, core, line)
}

/// Makes the call of a line, if it has one, and answers what is other than it says.
fn other_answer<R: Threads + Wait + Clock + Sync>(
    rt: &R,
    alloc: Global,
    core: &mut OneCore,
    line: &str,
) -> Result<Option<String>> {
    if line.is_empty() || line.starts_with('#') {
        return Ok(None);
    }
    let (call, wanted) = call_and_answer(line);
    match core.answer(rt, alloc, call) {
        Ok(Some(answer)) => Ok(told(alloc, call, answer.as_str(), wanted)?),
        Ok(None) => bail!("no call: {call}"),
        Err(NoMemory) => bail!("out of memory"),
    }
}

/// A call with its answer, where that is another than the wanted one.
fn told(
    alloc: Global,
    call: &str,
    answer: &str,
    wanted: &str,
) -> Result<Option<String>, AllocError> {
    if answer == wanted {
        return Ok(None);
    }
    Ok(Some(format!(in alloc; "{call} -> {answer}")?))
}
