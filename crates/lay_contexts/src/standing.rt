//! Where the boxes of contexts stand outside them.

ghost use Rattle.std.specs.Prelude.{◌≡◌, ◌<◌, IfOk, IfSome, Some, true, length, slice_index};
ghost use Rattle.lay_doc.specs.Document.{ids_of};
ghost use Rattle.lay_box_tree.specs.ContextBoxes.{is_inner};
ghost use Rattle.lay_contexts.specs.ContextTree.{boxes_of_place};
ghost use Rattle.lay_contexts.specs.ContextList.{boxes_at};
ghost use Rattle.lay_contexts.specs.ListedContexts.{AreStanding, boxes_of_places};

use lay_box_tree::ContextBoxes;
use lay_doc::{Doc, NodeId};
use lay_style::Computed;
use lay_units::NoMemory;
use std::alloc::Global;

/// Where the box of a context stands: in the context with the number `around`, at the place `at` among its boxes.
#[derive(Clone, Copy)]
pub struct Standing {
    pub around: usize,
    pub at: usize,
}

/// The contexts of a document: the places of their nodes, of each node that is one its number among them, and the boxes
/// of each.
#[derive(Clone, Copy)]
pub(crate) struct Listed<'a> {
    pub doc: &'a Doc,
    pub computed: &'a Computed,
    pub places: &'a [usize],
    pub numbers: &'a [usize],
    pub boxes: &'a [ContextBoxes],
}

/// Where the box of each context stands, as far as it is the box of an inner context somewhere.
pub(crate) fn stands_of(alloc: Global, of: &Listed<'_>) -> Result<Vec<Option<Standing>>, NoMemory>
    requires { of.now.boxes.now ≡ boxes_of_places of.now.doc.now.nodes of.now.computed.now of.now.places.now }
    ensures { IfOk result (λ v. AreStanding of.now.doc.now.nodes of.now.computed.now of.now.places.now v.items) }
{
    let mut stands = vec![in alloc; None; of.places.len()]?;
    for around in 0..of.places.len() {
        note_inner(of, around, &mut stands);
    }
    Ok(stands)
}

/// Notes where the inner contexts of the one with this number stand.
fn note_inner(of: &Listed<'_>, around: usize, stands: &mut Vec<Option<Standing>>)
    requires within { around < length of.now.places.now }
    requires boxes { of.now.boxes.now ≡ boxes_of_places of.now.doc.now.nodes of.now.computed.now of.now.places.now }
    requires before { AreStanding of.now.doc.now.nodes of.now.computed.now of.now.places.now stands.old.items }
    ensures { AreStanding of.now.doc.now.nodes of.now.computed.now of.now.places.now stands.new.items }
{
    let boxes = boxes_at(of.boxes, around);
    for at in 0..boxes.as_slice().len() {
        if boxes.is_inner(at) {
            note(of, boxes, Standing { around, at }, stands);
        }
    }
}

/// Notes that the box of a context stands there.
fn note(
    of: &Listed<'_>,
    boxes: &ContextBoxes,
    standing: Standing,
    stands: &mut Vec<Option<Standing>>,
)
    requires around { standing.around < length of.now.places.now }
    requires boxes { boxes.now ≡ boxes_of_place of.now.doc.now.nodes of.now.computed.now (slice_index of.now.places.now standing.around) }
    requires at { standing.at < length boxes.now }
    requires inner { is_inner boxes.now standing.at ≡ true }
    requires before { AreStanding of.now.doc.now.nodes of.now.computed.now of.now.places.now stands.old.items }
    ensures { AreStanding of.now.doc.now.nodes of.now.computed.now of.now.places.now stands.new.items }
{
    if let Some(number) = number_of(of, boxes.as_slice()[standing.at].node) {
        stands[number] = Some(standing);
    }
}

/// The number of the context of the node with this id.
fn number_of(of: &Listed<'_>, id: NodeId) -> Option<usize>
    ensures within { IfSome result (λ j. j < length of.now.places.now) }
    ensures node { IfSome result (λ j. slice_index (ids_of of.now.doc.now.nodes) (slice_index of.now.places.now j) ≡ id.0) }
{
    let place = of.doc.find(id)?;
    let number = *of.numbers.get(place)?;
    if *of.places.get(number)? == place {
        return Some(number);
    }
    None
}

/// The boxes of the context with this number.
pub(crate) fn boxes_at(boxes: &[ContextBoxes], i: usize) -> &ContextBoxes
    requires { i < length boxes.now }
    ensures { result.now ≡ boxes_at boxes.now i }
{
    &boxes[i]
}
