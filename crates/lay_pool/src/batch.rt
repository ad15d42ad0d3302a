//! The batch.

ghost use Rattle.std.specs.Prelude.{◌≡◌, ◌≢◌, ◌<◌, ◌≤◌, ℕ, [], IfErr, IfOk, Option, Some, slice_get, vec_capacity, vec_len};
ghost use Rattle.std.specs.List.{All};
ghost use Rattle.lay_cell_work.specs.ClaimLists.Outcomes.{AreOutcomesOf, Work};
ghost use Rattle.lay_pool.specs.Finds.{AreFoundOf};

use crate::deques::{Deque, deal};
use crate::draining::drained;
use crate::member::{Finds, Member};
use crate::notes::{no_notes, note_all};
use lay_cell_work::claim_lists::{ClaimList, Outcome, Outcomes};
use lay_cell_work::{Claim, Layout};
use lay_cells::Done;
use lay_outside::Gate;
use lay_units::NoMemory;
use std::alloc::{AllocError, Global};
use std::thread;
use std::thread::Threads;

/// What comes of each claim, at its place, computed by so many threads that steal from each other: by the calling one alone, in order,
/// where there is one worker or one claim. The gate is told of the start and the end of each. For want of memory before the first claim is
/// computed, the claims come back. No program calls it.
pub fn run_batch<R: Threads + Sync, G: Gate + Sync>(
    rt: &R,
    alloc: Global,
    claims: ClaimList,
    workers: u32,
    gate: &G,
) -> Result<Outcomes, (NoMemory, ClaimList)>
    requires { (0 < workers) × (workers ≤ 16) }
    ensures ok { IfOk result (AreOutcomesOf claims.claims) }
    ensures back { IfErr result (λ e. e.1 ≡ claims) }
{
    let count = claims.as_slice().len();
    let Ok(ready) = prepared(alloc, count, thread_count(workers, count)) else {
        return Err((NoMemory, claims));
    };
    let Ready {
        members,
        mut notes,
        outcomes,
    } = ready;
    let found = found_by_all(rt, alloc, claims.as_slice(), members, gate);
    note_all(&mut notes, found, claims.as_slice());
    let outcomes = drained(alloc, claims.into_vec(), notes, outcomes, gate);
    Ok(Outcomes::new(outcomes))
}

/// How many threads compute so many claims beside the calling one: none where one would do it alone.
fn thread_count(workers: u32, claims: usize) -> usize {
    let threads = claims.min(workers as usize);
    if threads > 1 { threads } else { 0 }
}

/// What is needed before a claim is computed: a member for each thread, a note for each claim, and room for the outcomes.
#[derive(Drop)]
struct Ready {
    members: Vec<Member>,
    notes: Vec<Option<Option<Done<Layout>>>>,
    outcomes: Vec<Outcome>,
}

fn prepared(alloc: Global, claims: usize, threads: usize) -> Result<Ready, NoMemory>
    ensures notes { IfOk result
        (λ r. (vec_len r.notes ≡ claims) × ((place : ℕ) (d : Option Work) → slice_get r.notes.items place ≢ Some (Some d))) }
    ensures outcomes { IfOk result (λ r. (r.outcomes.items ≡ []) × (claims ≤ vec_capacity r.outcomes)) }
{
    let members = members_of(alloc, deal(alloc, threads, claims)?, claims)?;
    let notes = no_notes(alloc, claims)?;
    let outcomes = Vec::with_capacity(alloc, claims)?;
    Ok(Ready {
        members,
        notes,
        outcomes,
    })
}

fn members_of(
    alloc: Global,
    deques: Vec<Deque<usize>>,
    room: usize,
) -> Result<Vec<Member>, NoMemory> {
    let mut members = Vec::with_capacity(alloc, deques.len())?;
    for deque in deques {
        let finds = Finds::with_room(alloc, room)?;
        members.push(Member { deque, finds })?;
    }
    Ok(members)
}

/// What each member finds, on a thread of its own.
fn found_by_all<R: Threads + Sync, G: Gate + Sync>(
    rt: &R,
    alloc: Global,
    claims: &[Claim],
    members: Vec<Member>,
    gate: &G,
) -> Result<Vec<Finds>, AllocError>
    ensures { IfOk result (λ v. All (AreFoundOf claims.now) v.items) }
{
    let work = |member: Member| -> Finds
        ensures { AreFoundOf claims.entry.now result }
    { member.work(alloc, claims, gate) };
    thread::map_vec(rt, members, &work)
}
