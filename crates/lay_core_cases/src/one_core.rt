//! The core of a case. Where a call on it lacks memory the answer is `no memory`. Where the request was one of the program's own, the
//! program ends.

use crate::claims::Claims;
use crate::core_calls::{BATCH, CoreCalls, Handed};
use crate::questions::{counts, question};
use crate::said;
use lay_case_reading::{CellCall, CoreCall, EditorCall, Grants, Said, Subject, Taken, shown_reply};
use lay_cell_work::Claim;
use lay_cell_work::claim_lists::Outcomes;
use lay_history::edits::Reply;
use lay_units::NoMemory;
use std::alloc::Global;

/// The core of a case, the calls of editors on it, the claims that it granted, and how many there were.
#[derive(Drop)]
pub(crate) struct OneCore<C> {
    core: C,
    calls: u32,
    claims: Claims,
    grants: Grants,
}

impl<C: CoreCalls> Subject for OneCore<C> {
    fn answer(&mut self, alloc: Global, line: &str) -> Result<Option<String>, NoMemory> {
        let Some(call) = CoreCall::read(alloc, line)? else {
            return Ok(None);
        };
        match self.said(alloc, call)? {
            Some(said) => Ok(Some(said.text(alloc)?)),
            None => Ok(None),
        }
    }
}

impl<C: CoreCalls> OneCore<C> {
    pub(crate) fn new(alloc: Global, core: C) -> OneCore<C> {
        OneCore {
            core,
            calls: 0,
            claims: Claims::new(alloc),
            grants: Grants::new(alloc),
        }
    }

    /// The answer to a call; None where it can't be made.
    fn said(&mut self, alloc: Global, call: CoreCall) -> Result<Option<Said>, NoMemory> {
        match call {
            CoreCall::Editor(call) => self.replied(alloc, call),
            CoreCall::Cell(call) => cell_said(alloc, &mut self.core, &mut self.claims, call),
            CoreCall::Question(asked) => Ok(Some(question(alloc, &self.core, asked)?)),
            CoreCall::Settle => Ok(self.core.settled()),
            CoreCall::Publish => Ok(Some(self.core.published())),
            CoreCall::Granted => Ok(Some(granted(alloc, &self.core, &mut self.grants)?)),
        }
    }

    /// The reply to a call of an editor.
    fn replied(&mut self, alloc: Global, call: EditorCall) -> Result<Option<Said>, NoMemory> {
        match editor_reply(&mut self.core, self.calls, call) {
            Some(reply) => {
                self.calls = self.calls.wrapping_add(1);
                Ok(Some(shown_reply(alloc, reply)?))
            }
            None => Ok(None),
        }
    }
}

fn editor_reply<C: CoreCalls>(core: &mut C, index: u32, call: EditorCall) -> Option<Reply> {
    match call {
        EditorCall::Edit(edits) => core.reply_to_edits(index, edits),
        EditorCall::Latest => core.reply_to_latest(index),
        EditorCall::Sync => core.reply_to_sync(index),
    }
}

/// The cells that were granted since the last time.
fn granted<C: CoreCalls>(alloc: Global, core: &C, grants: &mut Grants) -> Result<Said, NoMemory> {
    let nodes = core.nodes(alloc)?;
    let counts = counts(alloc, core, nodes.as_slice())?;
    Ok(Said::Text(grants.since(alloc, counts, core.numbers().laid)?))
}

/// The answer to a call of one who works on the cells.
fn cell_said<C: CoreCalls>(
    alloc: Global,
    core: &mut C,
    claims: &mut Claims,
    call: CellCall,
) -> Result<Option<Said>, NoMemory> {
    match call {
        CellCall::Claim(key) => Ok(Some(claims.answered(core.claimed(key))?)),
        CellCall::ClaimNext => Ok(Some(claims.next(core.next_claim())?)),
        CellCall::ClaimSome(limit) => claim_some(alloc, core, claims, limit),
        CellCall::Finish { number, under } => match claims.again(number, under)? {
            Some(claim) => Ok(Some(finish(alloc, core, claim))),
            None => Ok(None),
        },
        CellCall::FinishAll(all) => finish_all(alloc, core, claims, all.as_slice()),
        CellCall::GiveBack(number) => match claims.again(number, number)? {
            Some(claim) => Ok(Some(core.released(claim))),
            None => Ok(None),
        },
    }
}

fn claim_some<C: CoreCalls>(
    alloc: Global,
    core: &mut C,
    claims: &mut Claims,
    limit: u32,
) -> Result<Option<Said>, NoMemory> {
    match core.some_claims(alloc, limit)? {
        Handed::Claims(list) => Ok(Some(claims.all_granted(alloc, list)?)),
        Handed::Nothing(said) => Ok(Some(said)),
        Handed::OutOfBounds => Ok(None),
    }
}

/// Works a claim out, and finishes it.
fn finish<C: CoreCalls>(alloc: Global, core: &mut C, claim: Claim) -> Said {
    match claim.compute(alloc) {
        Ok(done) => core.finished(done),
        Err(_claim) => Said::LACKS,
    }
}

fn finish_all<C: CoreCalls>(
    alloc: Global,
    core: &mut C,
    claims: &Claims,
    all: &[Taken],
) -> Result<Option<Said>, NoMemory> {
    let Some(outcomes) = claims.outcomes(alloc, all)? else {
        return Ok(None);
    };
    if outcomes.len() > BATCH as usize {
        return Ok(None);
    }
    let tally = core.all_finished(Outcomes::new(outcomes));
    Ok(Some(said::tally(alloc, &tally)?))
}
