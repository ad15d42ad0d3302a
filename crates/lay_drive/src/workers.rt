//! The workers of a run.

ghost use Rattle.std.specs.Prelude.{◌≡◌, ◌<◌, ◌≤◌, [], vec_capacity};

use crate::session::Session;
use lay_board::{Batch, Exchange};
use lay_cell_work::claim_lists::{ClaimList, Outcome, Outcomes};
use lay_core::IdleKind;
use lay_outside::Gate;
use lay_pool::Hand;
use std::alloc::Global;
use std::sync::Wait;
use std::thread::Threads;
use std::{mem, thread};

/// How many turns of a worker may get claims.
const COUNTED_TURNS: u32 = 1_048_576;

/// How many turns of a worker may come to nothing in a row for want of memory: what lacks it is tried again so often, and not for ever.
const LACKING_TURNS: u32 = 64;

/// How many claims are taken at a time by a worker that has none left.
const BATCH: u32 = 64;

/// How many it computes before it hands in what came of them and takes as many more. While another has the lock it goes on with the rest.
const PART: usize = 48;

/// How many it computes then before it looks for the lock again.
const FEW: usize = 8;

/// How often it looks.
const LOOKS: u32 = 2;

/// The bytes of a page.
const PAGE: usize = 4096;

/// The pages that a batch takes, or more. An allocator gives what is greater than 128 KiB back to the system at once.
const PAGES: usize = 29;

/// A worker: what it shares with the others, its claims, and what came of those that it has computed and not handed in yet.
#[derive(Drop)]
struct Worker<'a, G: Gate> {
    session: &'a Session,
    gate: &'a G,
    hand: Hand,
    held: Outcomes,
}

/// What a turn of a worker came to.
#[derive(Clone, Copy)]
enum Turn {
    /// There were claims.
    Counted,
    /// Nothing was done, since memory was wanting.
    Lacking,
    /// There was nothing to do, and something has changed since.
    Quiet,
    /// There is nothing to do, and nothing is left that could make work.
    Over,
}

/// All workers, each on a thread of its own where one can be made. What they leave is settled by whoever closes the engine.
pub(crate) fn work_all<R: Threads + Wait + Sync, G: Gate + Sync>(
    rt: &R,
    session: &Session,
    hands: Vec<Hand>,
    gate: &G,
) {
    let one = |hand: Hand| -> () { work(rt, session, hand, gate) };
    let _ended = thread::map_vec(rt, hands, &one);
}

/// A worker, until all editors have ended and nothing is left to claim or to steal, no claim can be numbered any more, memory was wanting
/// for so many turns, or so many have passed.
fn work<R: Wait, G: Gate>(rt: &R, session: &Session, hand: Hand, gate: &G) {
    let mut counted = 0;
    let mut lacking = 0;
    let held = Outcomes::new(Vec::new(session.alloc));
    let mut worker = Worker {
        session,
        gate,
        hand,
        held,
    };
    session.progress.come(rt);
    for _ in rt.forever() {
        if counted >= COUNTED_TURNS || lacking >= LACKING_TURNS {
            break;
        }
        match worker.take_turn(rt) {
            Turn::Counted => {
                counted += 1;
                lacking = 0;
            }
            Turn::Lacking => lacking += 1,
            Turn::Quiet => {}
            Turn::Over => break,
        }
    }
    let _tally = session.engine.finish_all(rt, worker.held);
    session.progress.go(rt);
}

impl<'a, G: Gate> Worker<'a, G> {
    /// One turn: a worker hands in what it has, takes claims, where there are any, and computes them, or else those of others.
    fn take_turn<R: Wait>(&mut self, rt: &R) -> Turn {
        // read before anything is looked for, so that a change behind that wakes the worker
        let seen = self.session.progress.changes(rt);
        make_room(self.session.alloc);
        let Ok(room) = Vec::with_capacity(self.session.alloc, BATCH as usize) else {
            return Turn::Lacking;
        };
        let Some(exchange) = self.exchange(rt) else {
            return Turn::Lacking;
        };
        let lacking = is_lacking(&exchange);
        match exchange.batch {
            Ok(Batch::Claims(claims)) => {
                let all_dealt = self.deal(rt, claims, room);
                self.compute(PART);
                if all_dealt && !lacking {
                    Turn::Counted
                } else {
                    Turn::Lacking
                }
            }
            Ok(Batch::Idle(idle)) if matches!(idle.kind(), IdleKind::Spent) => Turn::Over,
            Ok(Batch::Idle(_)) => {
                self.compute(BATCH as usize);
                match self.held.len() {
                    0 if lacking => Turn::Lacking,
                    0 => self.stand_by(rt, seen),
                    _ => Turn::Counted,
                }
            }
            Err(_) => Turn::Lacking,
        }
    }

    /// Hands in what came of its claims, and claims. While another has the lock it computes more, where it has claims left. None where
    /// memory is wanting; then it has all as before.
    fn exchange<R: Wait>(&mut self, rt: &R) -> Option<Exchange> {
        let Ok(room) = Vec::with_capacity(self.session.alloc, BATCH as usize) else {
            return None;
        };
        let mut held = mem::replace(&mut self.held, Outcomes::new(room));
        for _look in 0..LOOKS {
            if !self.hand.has_claims() {
                break;
            }
            match self
                .session
                .engine
                .try_exchange(rt, self.session.alloc, held, PART as u32)
            {
                Ok(exchange) => return Some(exchange),
                Err(back) => { held = self.hand.work_on(self.session.alloc, self.gate, back, FEW) }
            }
        }
        let limit = self.wanted();
        Some(
            self.session
                .engine
                .exchange(rt, self.session.alloc, held, limit),
        )
    }

    /// How many claims it asks for.
    fn wanted(&self) -> u32
        ensures { (0 < result) × (result ≤ 64) }
    {
        if self.hand.has_claims() {
            PART as u32
        } else {
            BATCH
        }
    }

    /// Is dealt claims, which others may steal. Those that there is no memory for are given back; true where there are none.
    fn deal<R: Wait>(&mut self, rt: &R, claims: ClaimList, room: Vec<Outcome>) -> bool
        requires { (room.items ≡ []) × (64 ≤ vec_capacity room) }
    {
        let several = claims.len() > 1;
        let refused = self.hand.deal(claims, room);
        let all_dealt = refused.len() == 0;
        if !all_dealt {
            let _tally = self.session.engine.finish_all(rt, refused);
        }
        if several {
            self.session.progress.share(rt);
        }
        all_dealt
    }

    /// Computes at most so many claims, its own and then those of others.
    fn compute(&mut self, most: usize) {
        let none = Outcomes::new(Vec::new(self.session.alloc));
        let held = mem::replace(&mut self.held, none);
        self.held = self.hand.work_on(self.session.alloc, self.gate, held, most);
    }

    /// A worker for which there is nothing to do waits until something has changed, unless nothing is to be waited for.
    fn stand_by<R: Wait>(&self, rt: &R, seen: u64) -> Turn {
        if self.session.progress.wait_past(rt, seen) {
            Turn::Quiet
        } else {
            Turn::Over
        }
    }
}

/// Whether claims came back for want of memory, and nothing else was handed in.
fn is_lacking(exchange: &Exchange) -> bool {
    let tally = &exchange.tally;
    tally.back() > 0
        && tally.cleaned() == 0
        && tally.stored() == 0
        && tally.superseded() == 0
        && tally.gone() == 0
}

/// Takes memory for a batch at once, writes to each of its pages and gives it back to the thread's own heap. A heap that grows by itself
/// asks the system for each page, and all threads wait for each other there; the page itself comes where it is written to first, which
/// is to be before the thread has the lock.
fn make_room(alloc: Global) {
    let mut room: Vec<[u8; PAGE]> = Vec::new(alloc);
    if room.reserve(PAGES).is_err() {
        return;
    }
    for _page in 0..PAGES {
        let _written = room.push([0; PAGE]);
    }
}
