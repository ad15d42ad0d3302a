//! What an edit of the declarations or the text of one node reaches.

ghost use Rattle.std.specs.Prelude.{ℕ, ◌≡◌, ◌<◌, ◌↔◌, IfOk, IfSome, IsSome, IsTrue, Some, length, slice_index};
ghost use Rattle.lay_style.specs.Places.{place_of};
ghost use Rattle.lay_doc.specs.Document.{ids_of};
ghost use Rattle.lay_contexts.specs.ContextTree.{IsAround};
ghost use Rattle.lay_contexts.specs.ListedContexts.{AreContextPlaces};
ghost use Rattle.lay_after_edits.specs.Contexts.Reach.{AreReachFlags, IsChange, IsEditReach, IsReachedContext};

use crate::contexts::edited_doc::EditedDoc;
use crate::contexts::places::number_at;
use lay_doc::{Edit, NodeId};
use lay_units::NoMemory;
use std::alloc::Global;

/// Nodes beside each other, from the place `from` up to `until`, and the number of the context around them.
#[derive(Clone, Copy)]
pub(crate) struct Reach {
    pub(crate) from: usize,
    pub(crate) until: usize,
    pub(crate) around: Option<usize>,
}

/// The node of which an edit changes declarations or the text, if it is such an edit.
pub(crate) fn changed_node(edit: &Edit) -> Option<NodeId>
    ensures { IfSome result (λ node. IsChange edit.now node.0) }
{
    match edit {
        Edit::SetStyle { node, .. } => Some(*node),
        Edit::ClearStyle { node, .. } => Some(*node),
        Edit::SetText { node, .. } => Some(*node),
        _ => None,
    }
}

/// What an edit of this node reaches.
pub(crate) fn reach_of(of: &EditedDoc<'_>, places: &[usize], node: NodeId) -> Reach
    requires places { AreContextPlaces of.now.doc.now.nodes of.now.was.now places.now }
    requires styles { length of.now.was.now ≡ length of.now.doc.now.nodes }
    requires node { IsSome (place_of node.0 (ids_of of.now.doc.now.nodes)) }
    ensures { IsEditReach of.now.doc.now.nodes of.now.was.now places.now node.0 result }
{
    let _ = of.doc.nodes();
    match of.doc.find(node) {
        None => unreachable!(),
        Some(from) => Reach {
            from,
            until: of.doc.end_of(from),
            around: number_around(of, places, from),
        },
    }
}

/// The number of the context around the node at a place.
fn number_around(of: &EditedDoc<'_>, places: &[usize], place: usize) -> Option<usize>
    requires places { AreContextPlaces of.now.doc.now.nodes of.now.was.now places.now }
    requires within { place < length of.now.doc.now.nodes }
    ensures { (i : ℕ) → i < length places.now → IsAround of.now.doc.now.nodes of.now.was.now place (slice_index places.now i)
        → result ≡ Some i }
{
    let _ = of.doc.nodes();
    let mut at = place;
    while at > 0 {
        at = of.doc.parent_place(at);
        let number = number_at(places, at);
        if number.is_some() {
            return number;
        }
    }
    None
}

/// For each context, by these places, whether it is reached.
pub(crate) fn reached_flags(
    alloc: Global,
    reach: Reach,
    places: &[usize],
) -> Result<Vec<bool>, NoMemory>
    ensures { IfOk result (λ v. AreReachFlags reach places.now v.items (length places.now)) }
{
    let mut flags = Vec::with_capacity(alloc, places.len())?;
    for i in 0..places.len() {
        flags.push(is_reached(reach, i, places[i]))?;
    }
    Ok(flags)
}

/// Whether the context with the number i and its element at this place is reached.
fn is_reached(reach: Reach, i: usize, place: usize) -> bool
    ensures { IsTrue result ↔ IsReachedContext reach i place }
{
    if let Some(around) = reach.around {
        if around == i {
            return true;
        }
    }
    reach.from <= place && place < reach.until
}
