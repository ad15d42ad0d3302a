//! The nearest context of each node.

ghost use Rattle.std.specs.Prelude.{◌≡◌, ◌<◌, ◌+◌, false, IfOk, IsTrue, length, slice_index};
ghost use Rattle.lay_doc.specs.Document.{parents_of};
ghost use Rattle.lay_contexts.specs.ListedContexts.{AreContextPlaces};
ghost use Rattle.lay_after_edits.specs.Contexts.Near.{AreNearTo, IsNearTo};

use crate::contexts::doc_pair::DocPair;
use lay_doc::Doc;
use lay_units::NoMemory;
use std::alloc::Global;

/// For each node of a document the number of the context that is its own, or else the nearest one around it; these are the places of all
/// contexts.
pub(crate) fn near_contexts(
    alloc: Global,
    of: &DocPair<'_>,
    places: &[usize],
) -> Result<Vec<usize>, NoMemory>
    requires { AreContextPlaces of.now.doc.now.nodes of.now.was.now places.now }
    ensures { IfOk result (λ v. AreNearTo of.now.doc.now.nodes of.now.was.now places.now v.items (length of.now.doc.now.nodes)) }
{
    let _ = of.doc.nodes();
    let count = of.doc.len();
    let mut near = Vec::with_capacity(alloc, count)?;
    let mut next = 0;
    for k in 0..count {
        next = push_near(of, places, &mut near, next)?;
    }
    Ok(near)
}

/// Adds that of one more node. Answers how many contexts stand before the next one.
fn push_near(
    of: &DocPair<'_>,
    places: &[usize],
    near: &mut Vec<usize>,
    next: usize,
) -> Result<usize, NoMemory>
    requires places { AreContextPlaces of.now.doc.now.nodes of.now.was.now places.now }
    requires here { length near.old.items < length of.now.doc.now.nodes }
    requires known { IsNearTo of.now.doc.now.nodes of.now.was.now places.now near.old.items next (length near.old.items) }
    ensures { IfOk result (λ n. IsNearTo of.now.doc.now.nodes of.now.was.now places.now near.new.items n (length near.old.items + 1)) }
{
    let _ = of.doc.nodes();
    let k = near.len();
    if is_place(places, next, k) {
        near.push(next)?;
        return Ok(next + 1);
    }
    let up = near_above(of.doc, near, k);
    near.push(up)?;
    Ok(next)
}

/// Whether the context with this number stands at k.
fn is_place(places: &[usize], number: usize, k: usize) -> bool
    ensures yes { IsTrue result → (number < length places.now) × (slice_index places.now number ≡ k) }
    ensures no { result ≡ false → number < length places.now → slice_index places.now number ≡ k → ⊥ }
{
    number < places.len() && places[number] == k
}

/// What is nearest to the parent of the node at k.
fn near_above(doc: &Doc, near: &[usize], k: usize) -> usize
    requires here { k < length doc.now.nodes }
    requires known { length near.now ≡ k }
    ensures { 0 < k → result ≡ slice_index near.now (slice_index (parents_of doc.now.nodes) k) }
{
    if k == 0 {
        return 0;
    }
    let _ = doc.nodes();
    near[doc.parent_place(k)]
}
