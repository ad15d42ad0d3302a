//! Batches of claims on the cells of a core.

ghost use Rattle.std.specs.Prelude.{◌<◌, ◌≤◌, IfSome};

use crate::core_calls::{batch, claim_some, finish_all};
use crate::shown;
use lay_cell_work::Claim;
use lay_cell_work::claim_lists::{ClaimList, Outcome, Outcomes};
use lay_core::{Core, Idle};
use lay_outside::Gate;
use lay_pool::{Hand, hands};
use lay_units::NoMemory;
use std::alloc::Global;
use std::thread;
use std::thread::Threads;

/// The most claims of a batch.
const BATCH: u32 = 64;

/// More batches than a document has cells.
const BATCHES: u32 = 1_000_000;

/// How far a batch is.
#[derive(Drop)]
pub(crate) enum Batch {
    /// There is none.
    None,
    /// Its claims are handed out.
    Claims(ClaimList),
    /// They are computed, where memory wasn't wanting.
    Outcomes(Outcomes),
}

/// A batch whose claims are computed. Where they were, those are computed once more for which memory was wanting.
pub(crate) fn computed<R: Threads + Sync, G: Gate + Sync>(
    rt: &R,
    alloc: Global,
    held: Batch,
    workers: u32,
    gate: &G,
) -> Result<Batch, NoMemory>
    requires { (0 < workers) × (workers ≤ 16) }
{
    match held {
        Batch::None => Ok(Batch::None),
        Batch::Claims(claims) => match batch(rt, alloc, claims, workers, gate) {
            Ok(outcomes) => Ok(Batch::Outcomes(outcomes)),
            Err(claims) => Ok(Batch::Claims(claims)),
        },
        Batch::Outcomes(outcomes) => completed(alloc, outcomes),
    }
}

fn completed(alloc: Global, outcomes: Outcomes) -> Result<Batch, NoMemory> {
    let mut all = Vec::new(alloc);
    for outcome in outcomes.into_vec() {
        all.push(completed_one(alloc, outcome))?;
    }
    if all.len() > BATCH as usize {
        return Ok(Batch::None);
    }
    Ok(Batch::Outcomes(Outcomes::new(all)))
}

fn completed_one(alloc: Global, outcome: Outcome) -> Outcome {
    match outcome {
        Outcome::Done(done) => Outcome::Done(done),
        Outcome::NoMemory(claim) => once_more(alloc, claim),
    }
}

fn once_more(alloc: Global, claim: Claim) -> Outcome {
    match claim.compute(alloc) {
        Ok(done) => Outcome::Done(done),
        Err(claim) => Outcome::NoMemory(claim),
    }
}

/// The claims of two lists, as far as there is room for them in one.
pub(crate) fn joined(
    alloc: Global,
    first: ClaimList,
    second: ClaimList,
) -> Result<ClaimList, NoMemory> {
    let mut all = ClaimList::with_room(alloc, BATCH)?;
    add_all(&mut all, first);
    add_all(&mut all, second);
    Ok(all)
}

fn add_all(all: &mut ClaimList, claims: ClaimList) {
    for claim in claims.into_vec() {
        if all.len() < all.room() as usize {
            all.push(claim);
        }
    }
}

/// What comes of claims that are dealt to the first of so many workers, each on a thread of its own.
pub(crate) fn shared<R: Threads + Sync, G: Gate + Sync>(
    rt: &R,
    alloc: Global,
    claims: ClaimList,
    workers: u32,
    gate: &G,
) -> Result<Vec<Outcomes>, NoMemory> {
    let mut hands = hands(alloc, workers)?;
    let mut all = Vec::new(alloc);
    if let Some(refused) = dealt(alloc, hands.as_mut_slice(), claims)? {
        all.push(refused)?;
    }
    add_works(rt, alloc, hands, gate, &mut all)?;
    Ok(all)
}

/// Deals claims to the first of these workers; those that there is no memory for are outcomes at once.
fn dealt(
    alloc: Global,
    hands: &mut [Hand],
    claims: ClaimList,
) -> Result<Option<Outcomes>, NoMemory> {
    let room = Vec::with_capacity(alloc, claims.len())?;
    match hands.first_mut() {
        Some(first) => Ok(Some(first.deal(claims, room))),
        None => Ok(None),
    }
}

/// Has each of these work, on a thread of its own, and adds what comes of that.
fn add_works<R: Threads + Sync, G: Gate + Sync>(
    rt: &R,
    alloc: Global,
    hands: Vec<Hand>,
    gate: &G,
    all: &mut Vec<Outcomes>,
) -> Result<(), NoMemory> {
    let work = |mut hand: Hand| -> Result<Outcomes, NoMemory> { hand.work(alloc, gate) };
    for outcomes in thread::map_vec(rt, hands, &work)? {
        all.push(outcomes?)?;
    }
    Ok(())
}

/// The number of a text, from 1 to the greatest one; None where it is none.
pub(crate) fn number(text: &str, greatest: u32) -> Option<u32>
    ensures { IfSome result (λ n. (0 < n) × (n ≤ greatest)) }
{
    match text.parse::<u32>() {
        Ok(number) if 0 < number && number <= greatest => Some(number),
        _ => None,
    }
}

/// Lays the document of a core out by batches, as `LIMIT WORKERS` says, and says why there is no more to lay out.
pub(crate) fn lay<R: Threads + Sync, G: Gate + Sync>(
    rt: &R,
    alloc: Global,
    core: &mut Core,
    rest: &str,
    gate: &G,
) -> Result<Option<String>, NoMemory> {
    let Some((limit, workers)) = rest.split_once(' ') else {
        return Ok(None);
    };
    let (Some(limit), Some(workers)) = (number(limit, 64), number(workers, 16)) else {
        return Ok(None);
    };
    for _batch in 0..BATCHES {
        let claims = match next_claims(alloc, core, limit)? {
            Ok(claims) => claims,
            Err(idle) => return Ok(Some(shown::idle(alloc, &idle)?)),
        };
        let Ok(outcomes) = batch(rt, alloc, claims, workers, gate) else {
            return Err(NoMemory);
        };
        let _tally = finish_all(core, outcomes);
    }
    Ok(None)
}

/// At most so many claims, or why there is none.
fn next_claims(
    alloc: Global,
    core: &mut Core,
    limit: u32,
) -> Result<Result<ClaimList, Idle>, NoMemory>
    requires { (0 < limit) × (limit ≤ 64) }
{
    let mut list = ClaimList::with_room(alloc, limit)?;
    match claim_some(core, limit, &mut list)? {
        Some(idle) => Ok(Err(idle)),
        None => Ok(Ok(list)),
    }
}
