//! What comes of cases whose calls are made on a subject.

use crate::lines::CallLine;
use crate::trial::Trial;
use anyhow::{Result, bail};
use lay_units::NoMemory;
use std::alloc::{AllocError, Global};

/// More calls than a case has.
const MOST: u64 = 1_000_000_000;

/// What the calls of a case are made on.
pub trait Subject {
    /// The answer to a call; None where the line is none.
    fn answer(&mut self, alloc: Global, line: &str) -> Result<Option<String>, NoMemory>;
}

/// What came of a case.
#[derive(Drop)]
pub struct Comparison {
    /// The first call that has another answer than its line says, with that answer.
    pub other: Option<String>,
    /// The calls that lacked memory, each after a comma.
    pub lacking: String,
}

impl Comparison {
    /// All is as it should be.
    pub(crate) fn new(alloc: Global) -> Comparison {
        Comparison {
            other: None,
            lacking: String::new(alloc),
        }
    }

    /// Notes a call that lacked memory.
    pub(crate) fn push_lacking(&mut self, call: &str) -> Result<(), AllocError> {
        write!(self.lacking, ", {call} lacked memory")
    }
}

/// What comes of a case.
pub fn compared<S: Subject>(alloc: Global, subject: &mut S, lines: &str) -> Result<Comparison> {
    let mut trial = Trial::new(alloc, lines)?;
    for _ in 0..MOST {
        let Some(call) = trial.next_call() else {
            return Ok(trial.comparison());
        };
        let answer = answer(alloc, subject, call)?;
        trial.take(alloc, answer.as_str())?;
    }
    bail!("no call is the last one")
}

/// A case with the answers that come.
pub fn answers<S: Subject>(alloc: Global, subject: &mut S, lines: &str) -> Result<String> {
    let mut text = String::new(alloc);
    for line in lines.lines() {
        match CallLine::read(line) {
            Some(line) => {
                let answer = answer(alloc, subject, line.call)?;
                push_call(&mut text, &line, answer.as_str())?;
            }
            None => writeln!(text, "{line}")?,
        }
    }
    Ok(text)
}

/// Adds the line of a call with its answer.
fn push_call(text: &mut String, line: &CallLine<'_>, answer: &str) -> Result<(), AllocError> {
    text.push_str(line.call)?;
    if answer != "done" {
        write!(text, " -> {answer}")?;
    }
    if !line.between.is_empty() {
        write!(text, " | {}", line.between)?;
    }
    text.push('\n')
}

/// The answer to a call.
fn answer<S: Subject>(alloc: Global, subject: &mut S, call: &str) -> Result<String> {
    told(call, subject.answer(alloc, call))
}

/// The answer to a call, where it is one and there was memory.
pub fn told(call: &str, answer: Result<Option<String>, NoMemory>) -> Result<String> {
    match answer {
        Ok(Some(answer)) => Ok(answer),
        Ok(None) => bail!("no call: {call}"),
        Err(NoMemory) => bail!("out of memory"),
    }
}
