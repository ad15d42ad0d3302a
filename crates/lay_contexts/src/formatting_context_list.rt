//! The formatting contexts of a document, in order.

ghost use Rattle.std.specs.Prelude.{◌≡◌, ◌<◌, ◌+◌, true, IfOk, OnOk, length};
ghost use Rattle.lay_contexts.specs.Contexts.{boxes_in};
ghost use Rattle.lay_contexts.specs.FormattingContextList.{AreFormattingContextsOf, formatting_context_of};
ghost use Rattle.lay_contexts.specs.FormattingContextList.{inner_number, inner_numbers, number_at, rank_at, spot_of};
ghost use Rattle.lay_contexts.specs.Homes.{is_root};
ghost use Rattle.lay_contexts.specs.Listed.{AreListedTo};
ghost use Rattle.lay_contexts.specs.Partings.{ArePartings, homes_of};

use crate::Contexts;
use crate::formatting_context::{FormattingContext, FormattingContexts};
use crate::homes::place_at;
use crate::parting::{Parting, parting_at, partings};
use crate::root_boxes::boxes_of_root;
use crate::roots::is_root;
use crate::spot::Spot;
use lay_units::NoMemory;
use std::alloc::Global;
use std::sync::Arc;

/// The formatting contexts of a document that has these contexts. NoMemory is also the answer for more than 16,777,216,
/// which no document has.
pub fn formatting_contexts(
    alloc: Global,
    contexts: &Contexts,
) -> Result<FormattingContexts, NoMemory>
    ensures { IfOk result (AreFormattingContextsOf contexts.now) }
{
    let partings = partings(alloc, contexts)?;
    let mut items = Vec::new(alloc);
    for i in 0..contexts.len() {
        list_context(alloc, contexts, &partings, i, &mut items)?;
    }
    Ok(FormattingContexts::new(items))
}

/// Lists the formatting contexts of the context i.
fn list_context(
    alloc: Global,
    contexts: &Contexts,
    partings: &[Parting],
    i: usize,
    items: &mut Vec<FormattingContext>,
) -> Result<(), NoMemory>
    requires partings { ArePartings contexts.now partings.now }
    requires within { i < length contexts.now }
    requires before { AreListedTo contexts.now (homes_of partings.now) items.old.items i 0 }
    ensures { OnOk result (AreListedTo contexts.now (homes_of partings.now) items.new.items (i + 1) 0) }
{
    let boxes = contexts.at(i).boxes().as_slice();
    for r in 0..boxes.len() {
        if is_root(boxes, r) {
            let context = formatting_context(alloc, contexts, partings, i, r)?;
            items.push(context)?;
        }
    }
    Ok(())
}

/// The formatting context of the root r of the context i.
fn formatting_context(
    alloc: Global,
    contexts: &Contexts,
    partings: &[Parting],
    i: usize,
    r: usize,
) -> Result<FormattingContext, NoMemory>
    requires partings { ArePartings contexts.now partings.now }
    requires within { i < length contexts.now }
    requires inside { r < length (boxes_in contexts.now i) }
    requires root { is_root (boxes_in contexts.now i) r ≡ true }
    ensures { IfOk result (λ c. c ≡ formatting_context_of contexts.now (homes_of partings.now) i r) }
{
    let parting = parting_at(partings, i);
    let spot = spot(contexts, i, r);
    let boxes = boxes_of_root(alloc, contexts.at(i).boxes(), parting, parting.number(0), r)?;
    let inner = Arc::new(alloc, inner_numbers(alloc, contexts, partings, i, r)?)?;
    Ok(FormattingContext {
        anonymous: r > 0,
        outer: number_at(contexts, partings, spot),
        outer_box: rank_at(contexts, partings, spot),
        boxes,
        inner,
    })
}

/// Where the box of the formatting context of the root r of the context i stands.
fn spot(contexts: &Contexts, i: usize, r: usize) -> Spot
    requires within { i < length contexts.now }
    requires inside { r < length (boxes_in contexts.now i) }
    ensures spot { result ≡ spot_of contexts.now i r }
    ensures within { result.context < length contexts.now }
    ensures inside { result.place < length (boxes_in contexts.now result.context) }
{
    if r > 0 {
        return Spot {
            context: i,
            place: r,
        };
    }
    if i == 0 {
        return Spot {
            context: 0,
            place: 0,
        };
    }
    let context = contexts.at(i);
    Spot {
        context: context.outer(),
        place: context.outer_box(),
    }
}

/// The number of the formatting context that a spot is in.
fn number_at(contexts: &Contexts, partings: &[Parting], spot: Spot) -> usize
    requires partings { ArePartings contexts.now partings.now }
    requires within { spot.context < length contexts.now }
    requires inside { spot.place < length (boxes_in contexts.now spot.context) }
    ensures { result ≡ number_at contexts.now (homes_of partings.now) spot }
{
    let _ = contexts.at(spot.context);
    let parting = parting_at(partings, spot.context);
    parting.number(parting.home(spot.place))
}

/// The place of a spot there.
fn rank_at(contexts: &Contexts, partings: &[Parting], spot: Spot) -> usize
    requires partings { ArePartings contexts.now partings.now }
    requires within { spot.context < length contexts.now }
    requires inside { spot.place < length (boxes_in contexts.now spot.context) }
    ensures { result ≡ rank_at (homes_of partings.now) spot }
{
    let _ = contexts.at(spot.context);
    parting_at(partings, spot.context).rank(spot.place)
}

/// The numbers of the formatting contexts inside that of the root r of the context i, among its boxes.
fn inner_numbers(
    alloc: Global,
    contexts: &Contexts,
    partings: &[Parting],
    i: usize,
    r: usize,
) -> Result<Vec<usize>, NoMemory>
    requires partings { ArePartings contexts.now partings.now }
    requires within { i < length contexts.now }
    requires inside { r < length (boxes_in contexts.now i) }
    ensures { IfOk result (λ v. v.items ≡ inner_numbers contexts.now (homes_of partings.now) i r) }
{
    let parting = parting_at(partings, i);
    let count = parting.count_at_home(r);
    let mut numbers = Vec::with_capacity(alloc, count.saturating_add(1))?;
    numbers.push(0)?;
    for a in 0..count {
        let number = inner_number(contexts, partings, i, parting.at_home(r, a));
        numbers.push(number)?;
    }
    Ok(numbers)
}

/// The number of the inner formatting context whose box the box at k of the context i is, or 0.
fn inner_number(contexts: &Contexts, partings: &[Parting], i: usize, k: usize) -> usize
    requires partings { ArePartings contexts.now partings.now }
    requires within { i < length contexts.now }
    requires inside { k < length (boxes_in contexts.now i) }
    ensures { result ≡ inner_number contexts.now i k }
{
    let context = contexts.at(i);
    if is_root(context.boxes().as_slice(), k) {
        return parting_at(partings, i).number(k);
    }
    let inner = place_at(context.inner(), k);
    parting_at(partings, inner).number(0)
}
