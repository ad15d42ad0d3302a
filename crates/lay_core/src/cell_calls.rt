//! The calls of those who work on cells.

ghost use Rattle.std.specs.Prelude.{◌≡◌, ◌≤◌, ◌<◌, [], IfNone, IfSome, length};
ghost use Rattle.lay_cells.specs.Looks.{IsGone};
ghost use Rattle.lay_cells.specs.Reads.{IsLaid, IsPaid};
ghost use Rattle.lay_document_cells.specs.Outcomes.{tally_sum};
ghost use Rattle.lay_core.specs.Claims.{AnswersClaim, AnswersNext, ClaimsSome, DrawsFew, FinishesAll, FinishesTo, GivesBackTo};

use crate::core_state::Core;
use lay_cell_work::claim_lists::{ClaimList, Outcomes};
use lay_cell_work::{Claim, Layout};
use lay_cells::{Done, Finished, Released};
use lay_document_cells::{Answer, Idle, Next, Tally, claims_work};
use lay_shape::CellKey;
use lay_units::NoMemory;

impl Core {
    /// A claim of the cell of a key. Where 2^63 numbers are drawn or more, none is granted: the others are kept for edits and settling.
    pub fn claim(&mut self, key: CellKey) -> Answer
        ensures answers { AnswersClaim self.old key result self.new }
        ensures draws { DrawsFew self.old self.new }
    {
        claims_work();
        let answer = self.cells.claim(key);
        self.cells.sound();
        answer
    }

    /// A claim of the next cell that there is to claim.
    pub fn claim_next(&mut self) -> Next
        ensures answers { AnswersNext self.old result self.new }
        ensures draws { DrawsFew self.old self.new }
    {
        claims_work();
        let next = self.cells.claim_next();
        self.cells.sound();
        next
    }

    /// Claims of the next cell, until the empty list has so many or one isn't granted. None is answered where a claim was got; else why
    /// there is none, or that memory ran out.
    pub fn claim_some(&mut self, limit: u32, list: &mut ClaimList) -> Result<Option<Idle>, NoMemory>
        requires limit { 0 < limit }
        requires room { limit ≤ list.old.room }
        requires empty { list.old.claims ≡ [] }
        ensures answers { ClaimsSome self.old limit list.new.claims result self.new }
        ensures room { list.new.room ≡ list.old.room }
        ensures draws { DrawsFew self.old self.new }
    {
        claims_work();
        let idle = self.cells.claim_some(limit, list);
        self.cells.sound();
        idle
    }

    /// Finished work.
    pub fn finish(&mut self, done: Done<Layout>) -> Finished
        ensures { FinishesTo self.old done result self.new }
    {
        let finished = self.cells.finish(done);
        self.cells.sound();
        finished
    }

    /// Finishes each value, gives each other claim back, and counts the answers. No memory is taken.
    pub fn finish_all(&mut self, outcomes: Outcomes) -> Tally
        ensures answers { FinishesAll self.old outcomes result self.new }
        ensures all { tally_sum result ≡ length outcomes }
        ensures draws { self.new.cells.draws ≡ self.old.cells.draws }
    {
        claims_work();
        let tally = self.cells.finish_all(outcomes);
        self.cells.sound();
        tally
    }

    /// A claim that comes back without a value. No memory is taken.
    pub fn give_back(&mut self, claim: Claim) -> Released
        ensures answers { GivesBackTo self.old claim.key claim.number result self.new }
        ensures draws { self.new.cells.draws ≡ self.old.cells.draws }
    {
        let released = self.cells.give_back(claim);
        self.cells.sound();
        released
    }

    /// How many claims of the cell of a key were granted; None exactly where no cell has it.
    pub fn laid_of(&self, key: CellKey) -> Option<u64>
        ensures some { IfSome result (IsLaid self.now.cells.rows key) }
        ensures paid { IfSome result (IsPaid self.now.cells.rows key) }
        ensures none { IfNone result (IsGone self.now.cells.rows key) }
    {
        self.cells.laid_of(key)
    }

    /// The greatest number that was drawn: each cell that is made draws one, each grant, and each value that serves again.
    pub fn draws(&self) -> u64
        ensures { result ≡ self.now.cells.draws }
    {
        self.cells.draws()
    }
}
