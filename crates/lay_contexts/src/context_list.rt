//! The contexts of a document with their boxes, in document order.

ghost use Rattle.std.specs.Prelude.{◌≡◌, ◌<◌, IfOk, length, map, replicate};
ghost use Rattle.std.specs.Arc.{arc_value};
ghost use Rattle.lay_contexts.specs.DocumentContexts.{AreDocumentContexts, root_spot, spot_at};
ghost use Rattle.lay_contexts.specs.ContextList.{AreContextsOf, AreNumberedTo, boxes_at, boxes_of_spots, spot_of};
ghost use Rattle.lay_contexts.specs.ContextOrder.{AreInOrder};
ghost use Rattle.lay_contexts.specs.ListedContexts.{AreContextPlaces, AreSpots, IsSpot, boxes_of_places};

use crate::ContextSpot;
use crate::context_places::context_places;
use crate::contexts::{Context, Contexts};
use crate::standing::{Listed, Standing, boxes_at, stands_of};
use lay_box_tree::ContextBoxes;
use lay_boxgen::boxes_of_contexts;
use lay_doc::Doc;
use lay_style::Computed;
use lay_units::NoMemory;
use std::alloc::Global;
use std::sync::Arc;

/// Where the boxes of contexts stand, and the boxes of each.
#[derive(Drop)]
struct ContextList {
    spots: Vec<ContextSpot>,
    boxes: Vec<ContextBoxes>,
}

/// The contexts of a document, with a style for each node. NoMemory is also the answer where a context stood in no
/// other, which none does.
pub fn contexts_of(alloc: Global, doc: &Doc, computed: &Computed) -> Result<Contexts, NoMemory>
    requires styles { length computed.now ≡ length doc.now.nodes }
    ensures { IfOk result (AreContextsOf doc.now.nodes computed.now) }
{
    let _ = doc.nodes();
    let list = context_list(alloc, doc, computed)?;
    let mut items = without_inner(alloc, &list)?;
    number_inner(&list, &mut items);
    let all = shared(alloc, items)?;
    Ok(Contexts::new(all))
}

/// Where the boxes of a document's contexts stand, and their boxes.
fn context_list(alloc: Global, doc: &Doc, computed: &Computed) -> Result<ContextList, NoMemory>
    requires styles { length computed.now ≡ length doc.now.nodes }
    ensures spots { IfOk result (λ l. AreDocumentContexts doc.now.nodes computed.now l.spots.items) }
    ensures boxes { IfOk result (λ l. l.boxes.items ≡ boxes_of_spots doc.now.nodes computed.now l.spots.items) }
    ensures order { IfOk result (λ l. AreInOrder l.spots.items l.boxes.items) }
{
    let _ = doc.nodes();
    let places = context_places(alloc, doc, computed)?;
    let numbers = numbers_of(alloc, doc.len(), &places)?;
    let boxes = boxes_of(alloc, doc, computed, &places)?;
    let listed = Listed {
        doc,
        computed,
        places: &places,
        numbers: &numbers,
        boxes: &boxes,
    };
    let stands = stands_of(alloc, &listed)?;
    let spots = spots_of(alloc, &places, &stands)?;
    Ok(ContextList { spots, boxes })
}

/// For each of so many nodes that is at one of these places the number of that.
fn numbers_of(alloc: Global, count: usize, places: &[usize]) -> Result<Vec<usize>, NoMemory> {
    let mut numbers = vec![in alloc; 0; count]?;
    for number in 0..places.len() {
        let place = places[number];
        if place < numbers.len() {
            numbers[place] = number;
        }
    }
    Ok(numbers)
}

/// The boxes of the contexts at these places.
fn boxes_of(
    alloc: Global,
    doc: &Doc,
    computed: &Computed,
    places: &[usize],
) -> Result<Vec<ContextBoxes>, NoMemory>
    requires styles { length computed.now ≡ length doc.now.nodes }
    requires places { AreContextPlaces doc.now.nodes computed.now places.now }
    ensures { IfOk result (λ v. v.items ≡ boxes_of_places doc.now.nodes computed.now places.now) }
{
    let _ = doc.nodes();
    let mut trees = boxes_of_contexts(alloc, doc, computed, places)?;
    let mut all = Vec::with_capacity(alloc, places.len())?;
    for _ in 0..places.len() {
        let Some(tree) = trees.pop() else {
            unreachable!();
        };
        let boxes = ContextBoxes::new(alloc, tree)?;
        all.push(boxes)?;
    }
    Ok(all)
}

/// The contexts at these places, whose boxes stand there.
fn spots_of(
    alloc: Global,
    places: &[usize],
    stands: &[Option<Standing>],
) -> Result<Vec<ContextSpot>, NoMemory>
    requires { length stands.now ≡ length places.now }
    ensures { IfOk result (λ v. AreSpots places.now stands.now v.items) }
{
    let mut spots = Vec::with_capacity(alloc, places.len())?;
    for number in 0..places.len() {
        spots.push(spot(number, places[number], stands[number])?)?;
    }
    Ok(spots)
}

/// The context with this number at a place, whose box stands there. NoMemory is the answer where that isn't found, and where
/// the first context isn't the root's: no document has either.
fn spot(number: usize, place: usize, standing: Option<Standing>) -> Result<ContextSpot, NoMemory>
    ensures { IfOk result (IsSpot number place standing) }
{
    if number == 0 {
        return root_spot(place);
    }
    match standing {
        Some(standing) => Ok(ContextSpot {
            place,
            around: standing.around,
            at: standing.at,
        }),
        None => Err(NoMemory),
    }
}

/// The root's context, where it is at this place.
fn root_spot(place: usize) -> Result<ContextSpot, NoMemory>
    ensures { IfOk result (λ s. (s ≡ root_spot) × (place ≡ 0)) }
{
    if place > 0 {
        return Err(NoMemory);
    }
    Ok(ContextSpot {
        place: 0,
        around: 0,
        at: 0,
    })
}

/// These contexts, in which no number of an inner one stands yet.
fn without_inner(alloc: Global, list: &ContextList) -> Result<Vec<Context>, NoMemory>
    requires { length list.now.boxes.items ≡ length list.now.spots.items }
    ensures { IfOk result (λ v. AreNumberedTo list.now.spots.items list.now.boxes.items v.items 1) }
{
    let mut items = Vec::with_capacity(alloc, list.spots.len())?;
    for i in 0..list.spots.len() {
        let context = blank_context(alloc, spot_at(&list.spots, i), boxes_at(&list.boxes, i))?;
        items.push(context)?;
    }
    Ok(items)
}

/// The context at a spot, in which no number stands yet.
fn blank_context(
    alloc: Global,
    spot: ContextSpot,
    boxes: &ContextBoxes,
) -> Result<Context, NoMemory>
    ensures spot { IfOk result (λ c. spot_of c ≡ spot) }
    ensures boxes { IfOk result (λ c. c.boxes ≡ boxes.now) }
    ensures inner { IfOk result (λ c. c.inner ≡ replicate (length c.boxes) 0) }
{
    let inner = vec![in alloc; 0; boxes.as_slice().len()]?;
    Ok(Context::new(spot, boxes.share()?, inner))
}

fn spot_at(spots: &[ContextSpot], i: usize) -> ContextSpot
    requires { i < length spots.now }
    ensures { result ≡ spot_at spots.now i }
{
    spots[i]
}

/// Notes the number of each context in the one around it.
fn number_inner(list: &ContextList, items: &mut Vec<Context>)
    requires order { AreInOrder list.now.spots.items list.now.boxes.items }
    requires before { AreNumberedTo list.now.spots.items list.now.boxes.items items.old.items 1 }
    ensures { AreNumberedTo list.now.spots.items list.now.boxes.items items.new.items (length list.now.spots.items) }
{
    for j in 1..list.spots.len() {
        let spot = list.spots[j];
        items[spot.around].set_inner(spot.at, j);
    }
}

/// The same contexts, each to be shared.
fn shared(alloc: Global, items: Vec<Context>) -> Result<Vec<Arc<Context>>, NoMemory>
    ensures { IfOk result (λ v. map arc_value v.items ≡ items.items) }
{
    let mut all = Vec::with_capacity(alloc, items.len())?;
    for context in items {
        let one = Arc::new(alloc, context)?;
        all.push(one)?;
    }
    Ok(all)
}
