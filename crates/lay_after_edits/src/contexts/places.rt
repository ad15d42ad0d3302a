//! Where the elements of contexts stand in a document.

ghost use Rattle.std.specs.Prelude.{ℕ, ◌≡◌, ◌<◌, ◌≤◌, IfNone, IfOk, IfSome, length, slice_index};
ghost use Rattle.lay_boxgen.specs.ContextWalk.{Rise};
ghost use Rattle.lay_contexts.specs.Contexts.{context_at};
ghost use Rattle.lay_after_edits.specs.Contexts.Reach.{ArePlacesOf};

use lay_contexts::Contexts;
use lay_units::NoMemory;
use std::alloc::Global;

/// The places of the elements of these contexts.
pub(crate) fn places_of(alloc: Global, contexts: &Contexts) -> Result<Vec<usize>, NoMemory>
    ensures { IfOk result (λ v. ArePlacesOf contexts.now v.items) }
{
    let mut places = Vec::with_capacity(alloc, contexts.len())?;
    for i in 0..contexts.len() {
        places.push(place_of(contexts, i))?;
    }
    Ok(places)
}

/// The place of the element of the context with the number i.
fn place_of(contexts: &Contexts, i: usize) -> usize
    requires { i < length contexts.now }
    ensures { result ≡ (context_at contexts.now i).place }
{
    contexts.at(i).place()
}

/// How many of these places stand before another one.
fn count_before(places: &[usize], place: usize) -> usize
    requires rising { Rise places.now }
    ensures within { result ≤ length places.now }
    ensures before { (i : ℕ) → i < result → slice_index places.now i < place }
    ensures from { (i : ℕ) → result ≤ i → i < length places.now → place ≤ slice_index places.now i }
{
    let mut low = 0;
    let mut high = places.len();
    while low < high {
        let middle = low + (high - low) / 2;
        if places[middle] < place {
            low = middle + 1;
        } else {
            high = middle;
        }
    }
    low
}

/// The number that this place has among these.
pub(crate) fn number_at(places: &[usize], place: usize) -> Option<usize>
    requires rising { Rise places.now }
    ensures some { IfSome result (λ i. (i < length places.now) × (slice_index places.now i ≡ place)) }
    ensures none { IfNone result ((i : ℕ) → i < length places.now → slice_index places.now i ≡ place → ⊥) }
{
    let number = count_before(places, place);
    if number < places.len() && places[number] == place {
        return Some(number);
    }
    None
}
