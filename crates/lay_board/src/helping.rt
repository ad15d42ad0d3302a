//! How a call helps before its turn, so that little is left to lay out under the lock.

ghost use Rattle.std.specs.Prelude.{◌≡◌, ◌≤◌, [], length, vec_capacity};
ghost use Rattle.lay_cell_work.specs.ClaimLists.Outcomes.{IsOutcomeOf};

use crate::batches::Batch;
use crate::engine::Engine;
use crate::turn::{give_core, visit};
use lay_cell_work::Claim;
use lay_cell_work::claim_lists::{ClaimList, Outcome, Outcomes};
use lay_outside::{Gate, Point};
use std::alloc::Global;
use std::sync::Wait;

/// How many cells a call claims at once.
const CELLS: u32 = 64;

/// How often it does so at most: no document has more cells than that comes to.
const ROUNDS: u32 = 4_096;

impl Engine {
    /// Helps where no version is published yet.
    pub(crate) fn help_at_first<R: Wait, G: Gate>(&self, rt: &R, alloc: Global, gate: &G) {
        if !self.is_published(rt) {
            self.help(rt, alloc, gate);
        }
    }

    /// Whether a version is published.
    fn is_published<R: Wait>(&self, rt: &R) -> bool {
        let _turn = self.enter(rt);
        let (core, seat) = visit(rt, &self.table);
        let some = !core.trees().is_empty();
        let _seat = give_core(&self.table, seat, core);
        some
    }

    /// Lays out batches of cells until there is none to claim, or memory is wanting.
    pub(crate) fn help<R: Wait, G: Gate>(&self, rt: &R, alloc: Global, gate: &G) {
        for _round in 0..ROUNDS {
            if !self.help_once(rt, alloc, gate) {
                return;
            }
        }
    }

    /// Lays out a batch. False where there is none, or memory is wanting.
    fn help_once<R: Wait, G: Gate>(&self, rt: &R, alloc: Global, gate: &G) -> bool {
        let Ok(room) = Vec::with_capacity(alloc, CELLS as usize) else {
            return false;
        };
        let Ok(Batch::Claims(claims)) = self.claim_batch(rt, alloc, CELLS) else {
            return false;
        };
        let outcomes = computed(alloc, claims, room, gate);
        self.finish_all(rt, outcomes).back() == 0
    }
}

/// What comes of each claim, in order, on the calling thread.
fn computed<G: Gate>(
    alloc: Global,
    claims: ClaimList,
    mut outcomes: Vec<Outcome>,
    gate: &G,
) -> Outcomes
    requires room { (outcomes.items ≡ []) × (length claims.claims ≤ vec_capacity outcomes) }
    ensures { length result ≡ length claims.claims }
{
    for claim in claims.into_vec() {
        outcomes.push_reserved(outcome_of(alloc, claim, gate));
    }
    Outcomes::new(outcomes)
}

/// What comes of a claim, between two points of a gate.
fn outcome_of<G: Gate>(alloc: Global, claim: Claim, gate: &G) -> Outcome
    ensures { IsOutcomeOf claim result }
{
    let number = claim.number();
    gate.at(Point::LayStart(number));
    let done = claim.compute(alloc);
    gate.at(Point::LayEnd(number));
    match done {
        Ok(done) => Outcome::Done(done),
        Err(claim) => Outcome::NoMemory(claim),
    }
}
