//! The walk over the cells that looks for the next one to claim.

ghost use Rattle.std.specs.Prelude.{◌≡◌, ◌+◌, ◌≤◌, ◌<◌, ◌^◌, ◌-◌, IfOk, OnErr, length};
ghost use Rattle.std.specs.Arc.{arc_value};
ghost use Rattle.lay_cells.specs.Looks.{Looks};
ghost use Rattle.lay_cells.specs.Places.{AtPlace};
ghost use Rattle.lay_cells.specs.declared.answers.Look.TheVariants as look;
ghost use Rattle.lay_document_cells.specs.Claims.{CellsAnswerNext, CellsDrawFew, HasDirtyCell, IsOpenToClaims};
ghost use Rattle.lay_document_cells.specs.Steps.{ClaimsTo};
ghost use Rattle.lay_document_cells.specs.Walks.{DrawsFrom, IsLeastAfter, IsLesser, IsWalked, PassesAt};

use crate::answers::Next;
use crate::document_cells::DocumentCells;
use lay_cell_work::{CellInput, Claim, Layout};
use lay_cells::progress::claims_keep_rows;
use lay_cells::{Claimed, Look};
use lay_units::NoMemory;
use std::sync::Arc;

/// So many numbers are drawn by claims; those above are kept for edits and for settling.
pub(crate) const CLAIM_NUMBERS: u64 = 1 << 63;

/// What becomes of a cell that a walk comes to.
#[derive(Drop)]
pub(crate) enum Passed {
    /// The claim of it is granted.
    Granted(Claim),
    /// It is ready, and has a claim of this number for what it is given now.
    Claimed(u64),
    /// It isn't ready, or its kept value serves again.
    Nothing,
}

/// How far a walk came: the cells before this place are passed, and this is the least number of their claims.
#[derive(Clone, Copy)]
pub(crate) struct Walk {
    pub(crate) place: usize,
    pub(crate) least: Option<u64>,
}

/// The least of these.
fn lesser(least: Option<u64>, number: u64) -> Option<u64>
    ensures { IsLesser least number result }
{
    match least {
        Some(other) if other < number => Some(other),
        _ => Some(number),
    }
}

/// The least number of the claims of cells that a walk passed, where this became of the last of them.
fn least_after(least: Option<u64>, passed: &Passed) -> Option<u64>
    ensures { IsLeastAfter least passed.now result }
{
    match passed {
        Passed::Granted(claim) => lesser(least, claim.number()),
        Passed::Claimed(number) => lesser(least, *number),
        Passed::Nothing => least,
    }
}

impl DocumentCells {
    /// Claims the cell at a place, which is ready, for what it is given now. On an error all is as before.
    pub(crate) fn claim_present(
        &mut self,
        place: usize,
    ) -> Result<(Claimed, Arc<CellInput>), NoMemory>
        requires ready { AtPlace self.old.cells.rows place (λ r. Looks self.old.cells.rows r.key look.Ready) }
        requires draws { self.old.cells.draws ≤ 2 ^ 64 - 2 ^ 20 }
        ensures ok { IfOk result (λ a. AtPlace self.old.cells.rows place (λ r. ClaimsTo self.old r.key (arc_value a.1) a.0 self.new)) }
        ensures err { OnErr result (self.new ≡ self.old) }
    {
        let input = self.input_at(place)?;
        let shared = input.clone()?;
        let answer = self.claim_input(place, shared);
        Ok((answer, input))
    }

    /// Passes the cell at a place, which is ready. No input is made where the cell is claimed already.
    fn pass_ready(&mut self, place: usize) -> Result<Passed, NoMemory>
        requires ready { AtPlace self.old.cells.rows place (λ r. Looks self.old.cells.rows r.key look.Ready) }
        requires draws { self.old.cells.draws ≤ 2 ^ 64 - 2 ^ 20 }
        ensures ok { IfOk result (λ p. PassesAt self.old place p self.new) }
        ensures same { OnErr result (self.new ≡ self.old) }
    {
        claims_keep_rows::<Layout>();
        self.cells.sound();
        if let Some(number) = self.cells.claimed_at(place) {
            return Ok(Passed::Claimed(number));
        }
        if self.can_reuse(place) {
            self.reuse_given(place);
            return Ok(Passed::Nothing);
        }
        let key = self.cells.key_at(place);
        let (answer, input) = self.claim_present(place)?;
        match answer {
            Claimed::Granted(number) => Ok(Passed::Granted(Claim::new(key, number, input))),
            Claimed::Reused => Ok(Passed::Nothing),
            Claimed::Taken(number) => Ok(Passed::Claimed(number)),
        }
    }

    /// Passes the cell at a place. On an error, which comes only where it is dirty, all is as before.
    fn pass(&mut self, place: usize) -> Result<Passed, NoMemory>
        requires within { place < length self.old.cells.rows }
        requires draws { self.old.cells.draws ≤ 2 ^ 64 - 2 ^ 20 }
        ensures ok { IfOk result (λ p. PassesAt self.old place p self.new) }
        ensures same { OnErr result (self.new ≡ self.old) }
        ensures dirty { OnErr result (HasDirtyCell self.old.cells.rows) }
    {
        self.cells.sound();
        match self.cells.look_at(place) {
            Look::Ready => self.pass_ready(place),
            _ => Ok(Passed::Nothing),
        }
    }

    /// Goes on with a walk until a claim is granted.
    fn walk_on(&mut self, walk: &mut Walk) -> Next
        requires walked { IsWalked self.old.cells.rows walk.old.place walk.old.least }
        requires open { IsOpenToClaims self.old }
        ensures answers { CellsAnswerNext self.old result self.new }
        ensures walked { IsWalked self.new.cells.rows walk.new.place walk.new.least }
        ensures draws { self.new.cells.draws + walk.old.place ≤ self.old.cells.draws + walk.new.place }
        ensures further { walk.old.place ≤ walk.new.place }
        ensures count { length self.new.cells.rows ≡ length self.old.cells.rows }
    {
        self.cells.sound();
        for place in walk.place..self.cells.len() {
            let passed = match self.pass(place) {
                Ok(passed) => passed,
                Err(NoMemory) => return Next::NoMemory,
            };
            let least = least_after(walk.least, &passed);
            *walk = Walk {
                place: place + 1,
                least,
            };
            if let Passed::Granted(claim) = passed {
                return Next::Granted(claim);
            }
        }
        match walk.least {
            Some(number) => Next::Busy(number),
            None => Next::Settled,
        }
    }

    /// A claim of the next cell, where the cells that a walk passed need not be seen again.
    pub(crate) fn claim_behind(&mut self, walk: &mut Walk) -> Next
        requires walked { IsWalked self.old.cells.rows walk.old.place walk.old.least }
        ensures answers { CellsAnswerNext self.old result self.new }
        ensures walked { IsWalked self.new.cells.rows walk.new.place walk.new.least }
        ensures draws { DrawsFrom self.old walk.old.place walk.new.place self.new }
        ensures further { walk.old.place ≤ walk.new.place }
        ensures count { length self.new.cells.rows ≡ length self.old.cells.rows }
    {
        match self.cells.first_dirty() {
            None => Next::Settled,
            Some(_key) => {
                if self.cells.draws() < CLAIM_NUMBERS {
                    self.walk_on(walk)
                } else {
                    Next::Spent
                }
            }
        }
    }

    /// The walk from the first dirty cell on.
    pub(crate) fn first_walk(&self) -> Walk
        ensures { IsWalked self.now.cells.rows result.place result.least }
    {
        let place = match self.cells.dirty_from(0) {
            Some(first) => first,
            None => self.cells.len(),
        };
        Walk { place, least: None }
    }

    /// Claims the next cell that there is to claim: goes through the cells in order, claims each that is ready, and answers the first
    /// claim that is granted. A cell whose kept value serves again is clean then.
    pub fn claim_next(&mut self) -> Next
        ensures answers { CellsAnswerNext self.old result self.new }
        ensures draws { CellsDrawFew self.old self.new }
    {
        self.cells.sound();
        let mut walk = self.first_walk();
        self.claim_behind(&mut walk)
    }
}
