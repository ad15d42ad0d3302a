//! Claims of cells by the batch, for those who lay them out.

ghost use Rattle.std.specs.Prelude.{◌≡◌, ◌<◌, ◌≤◌, [], length, IfErr, IfOk};
ghost use Rattle.lay_document_cells.specs.Outcomes.{tally_sum};
ghost use Rattle.lay_board.specs.Batches.{Exchanges, FinishesBatch, GivesBatch, GrantsBatch};
ghost use Rattle.lay_board.specs.Cores.{IsQuiet};

use crate::engine::Engine;
use crate::turn::{give_core, visit};
use lay_cell_work::claim_lists::{ClaimList, Outcomes};
use lay_core::Core;
use lay_document_cells::{Idle, Tally};
use lay_units::NoMemory;
use std::alloc::Global;
use std::sync::Wait;

/// Claims of cells, or why there are none.
#[derive(Drop)]
pub enum Batch {
    Claims(ClaimList),
    Idle(Idle),
}

/// What a turn comes to in which outcomes are handed in and cells are claimed.
#[derive(Drop)]
pub struct Exchange {
    /// How often each answer came to what was handed in.
    pub tally: Tally,
    /// Claims of cells, or why there are none. NoMemory stands here where no claim is granted.
    pub batch: Result<Batch, NoMemory>,
}

impl Engine {
    /// At most so many claims, at least one, which the core grants one after another in one turn of the lock; or why it grants none. Room
    /// for them is taken before the turn. NoMemory is answered where no claim is granted.
    pub fn claim_batch<R: Wait>(&self, rt: &R, alloc: Global, limit: u32) -> Result<Batch, NoMemory>
        requires limit { (0 < limit) × (limit ≤ 64) }
        ensures claims { IfOk result (GivesBatch self.now.origin limit) }
    {
        let list = ClaimList::with_room(alloc, limit)?;
        let _turn = self.enter(rt);
        let (mut core, seat) = visit(rt, &self.table);
        let batch = granted(&mut core, limit, Ok(list));
        let _seat = give_core(&self.table, seat, core);
        batch
    }

    /// What came of claims, each handed in to the core in one turn of the lock; how often each answer came. It takes no memory.
    pub fn finish_all<R: Wait>(&self, rt: &R, outcomes: Outcomes) -> Tally
        ensures finishes { FinishesBatch self.now.origin outcomes result }
        ensures all { tally_sum result ≡ length outcomes }
    {
        let _turn = self.enter(rt);
        let (mut core, seat) = visit(rt, &self.table);
        let tally = core.finish_all(outcomes);
        let _seat = give_core(&self.table, seat, core);
        tally
    }

    /// Does `finish_all` and, right after it, `claim_batch`, in one turn of the lock. What came of claims is handed in also where
    /// there is no room for others.
    pub fn exchange<R: Wait>(
        &self,
        rt: &R,
        alloc: Global,
        outcomes: Outcomes,
        limit: u32,
    ) -> Exchange
        requires limit { (0 < limit) × (limit ≤ 64) }
        ensures exchanges { Exchanges self.now.origin limit outcomes result }
        ensures all { tally_sum result.tally ≡ length outcomes }
    {
        let list = ClaimList::with_room(alloc, limit);
        let _turn = self.enter(rt);
        self.exchange_inside(rt, outcomes, limit, list)
    }

    /// Does `exchange` if nobody has the lock. Else it doesn't wait: the outcomes come back.
    pub fn try_exchange<R: Wait>(
        &self,
        rt: &R,
        alloc: Global,
        outcomes: Outcomes,
        limit: u32,
    ) -> Result<Exchange, Outcomes>
        requires limit { (0 < limit) × (limit ≤ 64) }
        ensures exchanges { IfOk result (Exchanges self.now.origin limit outcomes) }
        ensures all { IfOk result (λ e. tally_sum e.tally ≡ length outcomes) }
        ensures busy { IfErr result (λ os. os ≡ outcomes) }
    {
        let list = ClaimList::with_room(alloc, limit);
        match self.gate.try_lock() {
            Some(_turn) => Ok(self.exchange_inside(rt, outcomes, limit, list)),
            None => Err(outcomes),
        }
    }

    /// What is done while the lock is had.
    fn exchange_inside<R: Wait>(
        &self,
        rt: &R,
        outcomes: Outcomes,
        limit: u32,
        list: Result<ClaimList, NoMemory>,
    ) -> Exchange
        requires limit { 0 < limit }
        requires list { IfOk list (λ l. l ≡ record { claims = []; room = limit }) }
        ensures exchanges { Exchanges self.now.origin limit outcomes result }
        ensures all { tally_sum result.tally ≡ length outcomes }
    {
        let (mut core, seat) = visit(rt, &self.table);
        let tally = core.finish_all(outcomes);
        let batch = granted(&mut core, limit, list);
        let _seat = give_core(&self.table, seat, core);
        Exchange { tally, batch }
    }
}

/// What the core grants now, where there is an empty list with room for so many claims.
fn granted(
    core: &mut Core,
    limit: u32,
    list: Result<ClaimList, NoMemory>,
) -> Result<Batch, NoMemory>
    requires limit { 0 < limit }
    requires list { IfOk list (λ l. l ≡ record { claims = []; room = limit }) }
    ensures grants { IfOk result (λ b. GrantsBatch core.old limit b core.new) }
    ensures quiet { IsQuiet core.old core.new }
{
    let mut list = list?;
    match core.claim_some(limit, &mut list)? {
        None => Ok(Batch::Claims(list)),
        Some(idle) => Ok(Batch::Idle(idle)),
    }
}
