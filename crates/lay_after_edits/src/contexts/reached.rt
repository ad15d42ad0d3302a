//! Which contexts have one of some nodes among their own.

ghost use Rattle.std.specs.Prelude.{◌≡◌, ◌<◌, ◌+◌, IfOk, length};
ghost use Rattle.lay_contexts.specs.ListedContexts.{AreContextPlaces};
ghost use Rattle.lay_after_edits.specs.Contexts.Near.{AreReached, AreReachedTo, MarksNearest};

use crate::contexts::doc_pair::DocPair;
use crate::contexts::marks::mark;
use crate::contexts::near::near_contexts;
use lay_doc::Doc;
use lay_units::NoMemory;
use std::alloc::Global;

/// For each context, by these places, whether one of its own nodes has such a flag.
pub(crate) fn reached_contexts(
    alloc: Global,
    of: &DocPair<'_>,
    made: &[bool],
    places: &[usize],
) -> Result<Vec<bool>, NoMemory>
    requires places { AreContextPlaces of.now.doc.now.nodes of.now.was.now places.now }
    requires count { length made.now ≡ length of.now.doc.now.nodes }
    ensures { IfOk result (λ v. AreReached of.now.doc.now.nodes of.now.was.now places.now made.now v.items) }
{
    let _ = of.doc.nodes();
    let near = near_contexts(alloc, of, places)?;
    let mut reached = vec![in alloc; false; places.len()]?;
    for k in 0..of.doc.len() {
        mark_if_made(&mut reached, of.doc, &near, made, k);
    }
    Ok(reached)
}

/// Flags the nearest contexts of the node at k and of its parent, if it has a flag.
fn mark_if_made(reached: &mut Vec<bool>, doc: &Doc, near: &[usize], made: &[bool], k: usize)
    requires here { k < length doc.now.nodes }
    requires count { length near.now ≡ length doc.now.nodes }
    requires flags { length made.now ≡ length doc.now.nodes }
    requires known { AreReachedTo doc.now.nodes near.now made.now reached.old.items k }
    ensures to { AreReachedTo doc.now.nodes near.now made.now reached.new.items (k + 1) }
    ensures as_many { length reached.new.items ≡ length reached.old.items }
{
    if !made[k] {
        return;
    }
    mark_nearest(reached, doc, near, k);
}

/// Flags the nearest contexts of the node at k and of its parent.
fn mark_nearest(reached: &mut Vec<bool>, doc: &Doc, near: &[usize], k: usize)
    requires here { k < length doc.now.nodes }
    requires count { length near.now ≡ length doc.now.nodes }
    ensures { MarksNearest doc.now.nodes near.now k reached.old.items reached.new.items }
{
    let _ = doc.nodes();
    mark(reached, near[k]);
    mark(reached, near[doc.parent_place(k)]);
}
