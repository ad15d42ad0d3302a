//! The outcomes of a batch, in order.

ghost use Rattle.std.specs.Prelude.{◌≡◌, ◌<◌, ◌≤◌, ℕ, [], IfSome, Option, Some, slice_get, vec_capacity, vec_len};
ghost use Rattle.lay_cell_work.specs.ClaimLists.Outcomes.{AreOutcomesOf, IsOutcomeOf, IsWorkOf, Work};
ghost use Rattle.lay_pool.specs.Finds.{AreNotesOf};

use crate::member::computed;
use crate::notes::take_note;
use lay_cell_work::claim_lists::Outcome;
use lay_cell_work::{Claim, Layout};
use lay_cells::Done;
use lay_outside::Gate;
use std::alloc::Global;

/// The outcome of each claim at its place: what was noted, or else what comes of computing it here.
pub(crate) fn drained<G: Gate>(
    alloc: Global,
    claims: Vec<Claim>,
    mut notes: Vec<Option<Option<Done<Layout>>>>,
    mut outcomes: Vec<Outcome>,
    gate: &G,
) -> Vec<Outcome>
    requires notes { AreNotesOf claims.items notes.items }
    requires len { vec_len notes ≡ vec_len claims }
    requires room { (outcomes.items ≡ []) × (vec_len claims ≤ vec_capacity outcomes) }
    ensures { AreOutcomesOf claims.items result.items }
{
    let mut place = 0;
    for claim in claims {
        let outcome = outcome_at(alloc, &mut notes, place, claim, gate);
        outcomes.push_reserved(outcome);
        place += 1;
    }
    outcomes
}

fn outcome_at<G: Gate>(
    alloc: Global,
    notes: &mut Vec<Option<Option<Done<Layout>>>>,
    place: usize,
    claim: Claim,
    gate: &G,
) -> Outcome
    requires place { place < vec_len notes.old }
    requires noted { (d : Option Work) → slice_get notes.old.items place ≡ Some (Some d) → IfSome d (IsWorkOf claim) }
    ensures own { IsOutcomeOf claim result }
    ensures len { vec_len notes.new ≡ vec_len notes.old }
    ensures kept { (at : ℕ) (d : Option Work) → slice_get notes.new.items at ≡ Some (Some d)
        → slice_get notes.old.items at ≡ Some (Some d) }
{
    match take_note(notes, place) {
        Some(done) => outcome_of(claim, done),
        None => {
            let done = computed(alloc, &claim, gate);
            outcome_of(claim, done)
        }
    }
}

fn outcome_of(claim: Claim, done: Option<Done<Layout>>) -> Outcome
    requires { IfSome done (IsWorkOf claim) }
    ensures { IsOutcomeOf claim result }
{
    match done {
        Some(done) => Outcome::Done(done),
        None => Outcome::NoMemory(claim),
    }
}
