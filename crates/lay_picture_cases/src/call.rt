//! Calls.

use crate::terms::Terms;
use anyhow::{Result, bail};
use lay_drawing::{Ending, draw};
use lay_outside::{FixedSink, MemSink, MemSource, SafeSource};
use std::alloc::{AllocError, Global};

/// How a call ended, and what was written.
#[derive(Drop)]
pub struct Answer {
    ending: Ending,
    bytes: Vec<u8>,
}

impl Answer {
    /// What was written.
    pub(crate) fn bytes(&self) -> &[u8] {
        self.bytes.as_slice()
    }
}

/// The name of how it ended.
pub(crate) fn ending(answer: &Answer) -> &'static str {
    match answer.ending {
        Ending::Drawn => "drawn",
        Ending::Refused => "refused",
        Ending::Usage => "usage",
        Ending::ReadFault => "read fault",
        Ending::WriteFault => "write fault",
        Ending::NoMemory => "no memory",
    }
}

/// Makes the call on these terms, over the bytes of a report.
pub(crate) fn answer_to(alloc: Global, terms: &Terms<'_>, report: Vec<u8>) -> Result<Answer> {
    let words = words(alloc, terms.words)?;
    if terms.are_plain {
        over_plain_streams(alloc, &words, terms.room, report)
    } else {
        over_counted_streams(alloc, &words, terms, report)
    }
}

/// Makes it over a source that never fails, and a sink that fails where it is full.
fn over_plain_streams(
    alloc: Global,
    words: &[String],
    room: usize,
    report: Vec<u8>,
) -> Result<Answer> {
    let mut source = SafeSource::new(report);
    let Ok(mut sink) = FixedSink::new(alloc, room) else {
        bail!("out of memory");
    };
    let ending = draw(alloc, words, &mut source, &mut sink);
    Ok(Answer {
        ending,
        bytes: sink.bytes().to_vec(alloc)?,
    })
}

/// Makes it over streams that count their calls, of which one may fail.
fn over_counted_streams(
    alloc: Global,
    words: &[String],
    terms: &Terms<'_>,
    report: Vec<u8>,
) -> Result<Answer> {
    let failing_reads = vec![in alloc; terms.failing_read]?;
    let failing_writes = vec![in alloc; terms.failing_write]?;
    let mut source = MemSource::new(report, terms.most.max(1), failing_reads);
    let Ok(mut sink) = MemSink::new(alloc, terms.room, terms.most.max(1), failing_writes) else {
        bail!("out of memory");
    };
    let ending = draw(alloc, words, &mut source, &mut sink);
    Ok(Answer {
        ending,
        bytes: sink.bytes().to_vec(alloc)?,
    })
}

/// The words between blanks.
fn words(alloc: Global, line: &str) -> Result<Vec<String>, AllocError> {
    let mut words = Vec::new(alloc);
    if !line.is_empty() {
        for word in line.split(' ') {
            words.push(String::from_str(alloc, word)?)?;
        }
    }
    Ok(words)
}
