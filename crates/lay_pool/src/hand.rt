//! Workers that live on from batch to batch, and steal from each other.

ghost use Rattle.std.specs.Prelude.{◌≡◌, ◌+◌, ◌≤◌, ◌<◌, ◌⊎◌, ◌++◌, ◌∷◌, [], length, vec_capacity, vec_len, IfOk};
ghost use Rattle.std.specs.List.{All};
ghost use Rattle.lay_cell_work.specs.ClaimLists.Outcomes.{IsOutcomeOf};
ghost use Rattle.lay_cell_work.specs.declared.claim_lists.outcome.Outcome.TheVariants as outcome;
ghost use Rattle.lay_pool.specs.Hands.{AddsWork, ComesOf, IsRefusedOf};

use crate::deques::Deque;
use crate::member::computed;
use lay_cell_work::Claim;
use lay_cell_work::claim_lists::{ClaimList, Outcome, Outcomes};
use lay_outside::Gate;
use lay_units::NoMemory;
use std::alloc::Global;

/// How many claims a worker computes at most before it hands in what came of them.
const BATCH: usize = 64;

/// The claims of a worker, which the others may steal, and where it may steal theirs.
#[derive(Drop)]
pub struct Hand {
    deque: Deque<Claim>,
}

/// So many workers with no claims, each of which may steal from all others.
pub fn hands(alloc: Global, count: u32) -> Result<Vec<Hand>, NoMemory>
    ensures count { IfOk result (λ v. vec_len v ≡ count) }
{
    let mut hands: Vec<Hand> = Vec::with_capacity(alloc, count as usize)?;
    for _hand in 0..count {
        let deque = Deque::new(alloc)?;
        let mut hand = Hand { deque };
        meet(&mut hands, &mut hand)?;
        hands.push(hand)?;
    }
    Ok(hands)
}

/// Lets each of these steal from one more, and that one from each of these.
fn meet(hands: &mut [Hand], more: &mut Hand) -> Result<(), NoMemory> {
    for hand in hands.iter_mut() {
        hand.deque.meet(&mut more.deque)?;
    }
    Ok(())
}

impl Hand {
    /// Takes claims, in their order: from then on others may steal them. Those that there is no memory for are outcomes at once.
    pub fn deal(&mut self, claims: ClaimList, mut refused: Vec<Outcome>) -> Outcomes
        requires room { (refused.items ≡ []) × (length claims.claims ≤ vec_capacity refused) }
        ensures few { length result ≤ length claims.claims }
        ensures refused { All (IsRefusedOf claims.claims) result }
    {
        for claim in claims.into_vec() {
            self.take(claim, &mut refused);
        }
        Outcomes::new(refused)
    }

    /// Takes a claim.
    fn take(&mut self, claim: Claim, refused: &mut Vec<Outcome>)
        requires room { length refused.old.items < vec_capacity refused.old }
        ensures len { length refused.new.items ≤ length refused.old.items + 1 }
        ensures capacity { vec_capacity refused.new ≡ vec_capacity refused.old }
        ensures own { (refused.new.items ≡ refused.old.items) ⊎ (refused.new.items ≡ refused.old.items ++ outcome.NoMemory claim ∷ []) }
    {
        if let Err(claim) = self.deque.push(claim) {
            refused.push_reserved(Outcome::NoMemory(claim));
        }
    }

    /// Whether it has claims of its own that nobody has taken yet.
    pub fn has_claims(&self) -> bool {
        self.deque.has_tasks()
    }

    /// What comes of its own claims and, once it has none, of those of others: of at most 64, and of none where there is none to take.
    /// The gate is told of the start and the end of each. On an error none was taken. No program calls it: workers go on with `work_on`.
    pub fn work<G: Gate>(&mut self, alloc: Global, gate: &G) -> Result<Outcomes, NoMemory>
        ensures { IfOk result (λ os. All ComesOf os) }
    {
        let room = Vec::with_capacity(alloc, BATCH)?;
        Ok(self.work_on(alloc, gate, Outcomes::new(room), BATCH))
    }

    /// What comes of such claims, behind outcomes that it has already: of at most so many more, until there are 64 outcomes or no room for
    /// another.
    pub fn work_on<G: Gate>(
        &mut self,
        alloc: Global,
        gate: &G,
        held: Outcomes,
        most: usize,
    ) -> Outcomes
        ensures { AddsWork most held result }
    {
        let mut outcomes = held.into_vec();
        for _turn in 0..most {
            if outcomes.len() >= BATCH {
                break;
            }
            let Ok(()) = outcomes.reserve(1) else {
                break;
            };
            let Some(claim) = self.deque.next() else {
                break;
            };
            outcomes.push_reserved(outcome_of(alloc, claim, gate));
        }
        Outcomes::new(outcomes)
    }
}

fn outcome_of<G: Gate>(alloc: Global, claim: Claim, gate: &G) -> Outcome
    ensures { IsOutcomeOf claim result }
{
    match computed(alloc, &claim, gate) {
        Some(done) => Outcome::Done(done),
        None => Outcome::NoMemory(claim),
    }
}
