//! Calls in a row over one document. `sweep reads` and `sweep writes` let each call of the source or of the sink fail in turn, from the
//! first on, until one is behind the end and the answer is the wanted one: before that each failing read has to give `ReadFault` and
//! nothing, and each failing write `WriteFault` and what the writes before it took. `sweep fronts` goes through the proper fronts of
//! the document, each of which has to give the wanted answer.

use crate::call::call;
use anyhow::{Result, bail};
use lay_case_terms::{Answer, Sweep, Terms, Wanted};
use std::alloc::Global;
use std::sync::Wait;
use std::thread::Threads;

/// The most calls in a row.
const MOST: u64 = 100_000;

/// A case whose calls go in a row.
#[derive(Clone, Copy)]
pub(crate) struct Swept<'a> {
    pub sweep: Sweep,
    pub terms: &'a Terms<'a>,
    pub document: &'a [u8],
    pub wanted: &'a Wanted<'a>,
}

/// The first answer that isn't as it has to be; None where each is.
pub(crate) fn first_wrong<R: Threads + Wait + Sync>(
    rt: &R,
    alloc: Global,
    swept: &Swept<'_>,
) -> Result<Option<Answer>> {
    match swept.sweep {
        Sweep::Fronts => wrong_front(rt, alloc, swept),
        Sweep::Reads | Sweep::Writes => wrong_fault(rt, alloc, swept),
    }
}

fn wrong_front<R: Threads + Wait + Sync>(
    rt: &R,
    alloc: Global,
    swept: &Swept<'_>,
) -> Result<Option<Answer>> {
    let mut front = Vec::new(alloc);
    for byte in swept.document {
        let answer = call(rt, alloc, swept.terms, front.to_vec(alloc)?)?;
        if !swept.wanted.is(&answer) {
            return Ok(Some(answer));
        }
        front.push(*byte)?;
    }
    Ok(None)
}

fn wrong_fault<R: Threads + Wait + Sync>(
    rt: &R,
    alloc: Global,
    swept: &Swept<'_>,
) -> Result<Option<Answer>> {
    for before in 0..MOST {
        let terms = swept.terms.failing(swept.sweep, before + 1);
        let answer = call(rt, alloc, &terms, swept.document.to_vec(alloc)?)?;
        if swept.wanted.is(&answer) {
            return Ok(None);
        }
        if !is_fault(swept, before, &answer) {
            return Ok(Some(answer));
        }
    }
    bail!("no call is the last one")
}

/// Whether the answer is that of a call that fails behind so many others.
fn is_fault(swept: &Swept<'_>, before: u64, answer: &Answer) -> bool {
    if let Sweep::Reads = swept.sweep {
        return answer.status() == "ReadFault" && answer.bytes().is_empty();
    }
    let Some(taken) = swept.terms.writing().most.checked_mul(before as usize) else {
        return false;
    };
    match swept.wanted.text.as_bytes().get(..taken) {
        Some(front) => answer.status() == "WriteFault" && answer.bytes() == front,
        None => false,
    }
}
