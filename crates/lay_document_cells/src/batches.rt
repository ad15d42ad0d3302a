//! Claims by the batch, and what comes of them.

ghost use Rattle.std.specs.Prelude.{◌≡◌, ◌≤◌, ◌<◌, [], length, Ok, None};
ghost use Rattle.lay_document_cells.specs.Batches.{CellsClaimSome, IsBatchAnswer};
ghost use Rattle.lay_document_cells.specs.Claims.{CellsDrawFew};
ghost use Rattle.lay_document_cells.specs.Outcomes.{CellsFinishAll, tally_sum};

use crate::answers::Next;
use crate::document_cells::DocumentCells;
use crate::idle::{Idle, IdleKind};
use crate::tally::Tally;
use lay_cell_work::claim_lists::{ClaimList, Outcome, Outcomes};
use lay_units::NoMemory;

/// How a batch is answered where this is the first answer to a claim.
fn batch_answer(first: Next) -> Result<Option<Idle>, NoMemory>
    ensures { IsBatchAnswer first result }
{
    match first {
        Next::Granted(_) => Ok(None),
        Next::Settled => Ok(Some(Idle::new(IdleKind::Settled))),
        Next::Busy(number) => Ok(Some(Idle::new(IdleKind::Busy(number)))),
        Next::Spent => Ok(Some(Idle::new(IdleKind::Spent))),
        Next::NoMemory => Err(NoMemory),
    }
}

/// How a batch is answered where so many claims were granted before this answer.
fn batch_end(granted: u32, answer: Next) -> Result<Option<Idle>, NoMemory>
    ensures none { granted ≡ 0 → IsBatchAnswer answer result }
    ensures some { 0 < granted → result ≡ Ok None }
{
    if granted == 0 {
        return batch_answer(answer);
    }
    Ok(None)
}

impl DocumentCells {
    /// Claims the next cell again and again, until the list has so many claims or one isn't granted, in one walk over the cells. None is
    /// answered where a claim was got; else why there is none, or that memory ran out.
    pub fn claim_some(&mut self, limit: u32, list: &mut ClaimList) -> Result<Option<Idle>, NoMemory>
        requires limit { 0 < limit }
        requires room { limit ≤ list.old.room }
        requires empty { list.old.claims ≡ [] }
        ensures answers { CellsClaimSome self.old limit list.new.claims result self.new }
        ensures room { list.new.room ≡ list.old.room }
        ensures draws { CellsDrawFew self.old self.new }
    {
        self.cells.sound();
        let mut walk = self.first_walk();
        for turn in 0..limit {
            match self.claim_behind(&mut walk) {
                Next::Granted(claim) => list.push(claim),
                other => return batch_end(turn, other),
            }
        }
        Ok(None)
    }

    /// Finishes each value, gives each other claim back, and counts the answers. No memory is taken.
    pub fn finish_all(&mut self, outcomes: Outcomes) -> Tally
        ensures answers { CellsFinishAll self.old outcomes result self.new }
        ensures all { tally_sum result ≡ length outcomes }
        ensures draws { self.new.cells.draws ≡ self.old.cells.draws }
    {
        let mut tally = Tally::new();
        for outcome in outcomes.into_vec() {
            match outcome {
                Outcome::Done(done) => tally.count_finished(self.finish(done)),
                Outcome::NoMemory(claim) => tally.count_released(self.give_back(claim)),
            }
        }
        tally
    }
}
