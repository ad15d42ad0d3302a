//! What is noted of the claims of a batch: at the place of each nothing yet, or what came of it.

ghost use Rattle.std.specs.Prelude.{◌≡◌, ◌≢◌, ◌<◌, ◌⊎◌, ℕ, IfOk, IfSome, Option, Some, slice_get, vec_len};
ghost use Rattle.std.specs.List.{All};
ghost use Rattle.lay_cell_work.specs.ClaimLists.Outcomes.{Work};
ghost use Rattle.lay_pool.specs.Finds.{AreFoundOf, AreNotesOf, IsFoundOf};

use crate::member::{Finds, Found};
use lay_cell_work::{Claim, Layout};
use lay_cells::Done;
use lay_units::NoMemory;
use std::alloc::{AllocError, Global};

/// Nothing yet at so many places.
pub(crate) fn no_notes(
    alloc: Global,
    count: usize,
) -> Result<Vec<Option<Option<Done<Layout>>>>, NoMemory>
    ensures len { IfOk result (λ v. vec_len v ≡ count) }
    ensures none { IfOk result (λ v. (place : ℕ) (d : Option Work) → slice_get v.items place ≢ Some (Some d)) }
{
    let mut notes = Vec::with_capacity(alloc, count)?;
    for _place in 0..count {
        notes.push(None)?;
    }
    Ok(notes)
}

/// Notes what all threads found. Where they could not be started nothing is noted.
pub(crate) fn note_all(
    notes: &mut Vec<Option<Option<Done<Layout>>>>,
    found: Result<Vec<Finds>, AllocError>,
    claims: &[Claim],
)
    requires notes { AreNotesOf claims.now notes.old.items }
    requires found { IfOk found (λ v. All (AreFoundOf claims.now) v.items) }
    ensures notes { AreNotesOf claims.now notes.new.items }
    ensures len { vec_len notes.new ≡ vec_len notes.old }
{
    let Ok(found) = found else {
        return;
    };
    for finds in found {
        note(notes, finds, claims);
    }
}

/// Notes what a thread found, each at its place.
fn note(notes: &mut Vec<Option<Option<Done<Layout>>>>, finds: Finds, claims: &[Claim])
    requires notes { AreNotesOf claims.now notes.old.items }
    requires found { AreFoundOf claims.now finds }
    ensures notes { AreNotesOf claims.now notes.new.items }
    ensures len { vec_len notes.new ≡ vec_len notes.old }
{
    for one in finds.into_vec() {
        note_one(notes, one, claims);
    }
}

fn note_one(notes: &mut Vec<Option<Option<Done<Layout>>>>, one: Found, claims: &[Claim])
    requires notes { AreNotesOf claims.now notes.old.items }
    requires found { IsFoundOf claims.now one }
    ensures notes { AreNotesOf claims.now notes.new.items }
    ensures len { vec_len notes.new ≡ vec_len notes.old }
{
    let Found { place, done } = one;
    set(notes, place, done);
}

fn set(notes: &mut Vec<Option<Option<Done<Layout>>>>, place: usize, done: Option<Done<Layout>>)
    ensures len { vec_len notes.new ≡ vec_len notes.old }
    ensures set { (at : ℕ) (d : Option Work) → slice_get notes.new.items at ≡ Some (Some d)
        → ((at ≡ place) × (d ≡ done)) ⊎ (slice_get notes.old.items at ≡ Some (Some d)) }
{
    if place < notes.len() {
        notes[place] = Some(done);
    }
}

/// What is noted at a place, which is noted no longer.
pub(crate) fn take_note(
    notes: &mut Vec<Option<Option<Done<Layout>>>>,
    place: usize,
) -> Option<Option<Done<Layout>>>
    requires { place < vec_len notes.old }
    ensures len { vec_len notes.new ≡ vec_len notes.old }
    ensures some { IfSome result (λ d. slice_get notes.old.items place ≡ Some (Some d)) }
    ensures kept { (at : ℕ) (d : Option Work) → slice_get notes.new.items at ≡ Some (Some d)
        → slice_get notes.old.items at ≡ Some (Some d) }
{
    notes[place].take()
}
