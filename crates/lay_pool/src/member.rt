//! One thread of a batch.

ghost use Rattle.std.specs.Prelude.{◌≡◌, [], IfOk, IfSome};
ghost use Rattle.std.specs.List.{All};
ghost use Rattle.lay_cell_work.specs.ClaimLists.Outcomes.{IsWorkOf};
ghost use Rattle.lay_pool.specs.Finds.{AreFoundOf, IsFoundOf};

use crate::deques::Deque;
use lay_cell_work::{Claim, Layout};
use lay_cells::Done;
use lay_outside::{Gate, Point};
use lay_units::NoMemory;
use std::alloc::Global;
use std::marker::Model;

/// What came of the claim at a place: work that is done, or nothing for want of memory.
#[derive(Drop)]
pub(crate) struct Found {
    pub(crate) place: usize,
    pub(crate) done: Option<Done<Layout>>,
}

/// What a thread found.
#[derive(Drop)]
pub(crate) struct Finds {
    items: Vec<Found>,
}

impl Model for Finds {
    ghost use Rattle.std.specs.Prelude.{List};
    ghost use Rattle.lay_pool.specs.declared.member.Found.{Found};

    ghost Value = { List Found };

    ghost view = { λ f. f.items.items };
}

impl Finds {
    /// Nothing yet, with room for so many.
    pub(crate) fn with_room(alloc: Global, room: usize) -> Result<Finds, NoMemory>
        ensures { IfOk result (λ f. f ≡ []) }
    {
        Ok(Finds {
            items: Vec::with_capacity(alloc, room)?,
        })
    }

    pub(crate) fn into_vec(self) -> Vec<Found>
        ensures { result.items ≡ self }
    {
        self.items
    }
}

/// A thread's deque, and room for what it finds.
#[derive(Drop)]
pub(crate) struct Member {
    pub(crate) deque: Deque<usize>,
    pub(crate) finds: Finds,
}

impl Member {
    /// Works until no place is left to take, or there is no room.
    pub(crate) fn work<G: Gate>(self, alloc: Global, claims: &[Claim], gate: &G) -> Finds
        ensures { AreFoundOf claims.now result }
    {
        let Member { mut deque, finds } = self;
        let mut found = finds.into_vec();
        found.clear();
        for _turn in 0..claims.len() {
            let Some(place) = deque.next() else {
                break;
            };
            if !find(alloc, claims, place, gate, &mut found) {
                break;
            }
        }
        Finds { items: found }
    }
}

/// Computes the claim at a place. False where there is no room for what came of it.
fn find<G: Gate>(
    alloc: Global,
    claims: &[Claim],
    place: usize,
    gate: &G,
    found: &mut Vec<Found>,
) -> bool
    requires { All (IsFoundOf claims.now) found.old.items }
    ensures { All (IsFoundOf claims.now) found.new.items }
{
    let Some(claim) = claims.get(place) else {
        return true;
    };
    let done = computed(alloc, claim, gate);
    found.push(Found { place, done }).is_ok()
}

/// Computes a claim, between two points of a gate. None for want of memory.
pub(crate) fn computed<G: Gate>(alloc: Global, claim: &Claim, gate: &G) -> Option<Done<Layout>>
    ensures { IfSome result (IsWorkOf claim.now) }
{
    gate.at(Point::LayStart(claim.number()));
    let done = claim.solve(alloc).ok();
    gate.at(Point::LayEnd(claim.number()));
    done
}
