//! Columns over the boxes of a root, with what other roots of the context give it.

ghost use Rattle.std.specs.Prelude.{◌≡◌, ◌<◌, [], length, slice_get, slice_index_or, IfOk};
ghost use Rattle.lay_measure.specs.MeasureInValue.{no_widths};
ghost use Rattle.lay_placements.specs.InnerPieces.{inner_pieces_at, pieces_or_none};
ghost use Rattle.lay_placements.specs.NearPieces.{AreNearPieces};
ghost use Rattle.lay_sizes.specs.OwnBoxes.{OwnBoxFits, no_own_box, own_box_at};
ghost use Rattle.lay_cell_work.specs.CellColumns.{filled, filled_at};
ghost use Rattle.lay_cell_work.specs.CellValues.{Places, Widths, own_boxes, own_pieces, own_widths};

use lay_context::{PlacedContext, SharedPieces};
use lay_context_sizes::MeasuredContext;
use lay_frag::Pieces;
use lay_measure::{NO_WIDTHS, PreferredWidths};
use lay_placements::OwnBoxes;
use lay_sizes::{NO_OWN_BOX, OwnBox};
use lay_units::NoMemory;
use std::alloc::Global;
use std::sync::Arc;

/// The preferred widths that are given, with those of the roots that are linked.
pub(crate) fn filled_widths(
    alloc: Global,
    given: &[PreferredWidths],
    links: &[Option<usize>],
    own: &[MeasuredContext],
) -> Result<Vec<PreferredWidths>, NoMemory>
    ensures { IfOk result (λ v. v.items ≡ filled no_widths (own_widths (Widths own.now)) links.now given.now) }
{
    let mut widths = Vec::with_capacity(alloc, given.len())?;
    for k in 0..given.len() {
        widths.push(widths_at(given, links, own, k))?;
    }
    Ok(widths)
}

fn widths_at(
    given: &[PreferredWidths],
    links: &[Option<usize>],
    own: &[MeasuredContext],
    k: usize,
) -> PreferredWidths
    requires { k < length given.now }
    ensures { result ≡ filled_at no_widths (own_widths (Widths own.now)) (slice_get links.now k) (slice_index_or given.now k no_widths) }
{
    match links.get(k) {
        Some(Some(r)) => widths_of(own, *r),
        Some(None) | None => given[k],
    }
}

/// The preferred widths of the root r; none where that isn't there.
fn widths_of(own: &[MeasuredContext], r: usize) -> PreferredWidths
    ensures { result ≡ slice_index_or (own_widths (Widths own.now)) r no_widths }
{
    match own.get(r) {
        Some(measured) => measured.widths(),
        None => NO_WIDTHS,
    }
}

/// The own boxes that are given, with those of the roots that are linked.
pub(crate) fn filled_boxes(
    alloc: Global,
    given: &OwnBoxes,
    links: &[Option<usize>],
    places: &[PlacedContext],
) -> Result<OwnBoxes, NoMemory>
    ensures { IfOk result (λ b. b ≡ filled no_own_box (own_boxes (Places places.now)) links.now given.now) }
{
    let count = given.as_slice().len();
    let mut boxes = Vec::with_capacity(alloc, count)?;
    for k in 0..count {
        boxes.push(box_at(given, links, places, k))?;
    }
    Ok(OwnBoxes::new(boxes))
}

fn box_at(given: &OwnBoxes, links: &[Option<usize>], places: &[PlacedContext], k: usize) -> OwnBox
    requires { k < length given.now }
    ensures value { result ≡ filled_at no_own_box (own_boxes (Places places.now)) (slice_get links.now k) (own_box_at given.now k) }
    ensures fits { OwnBoxFits result }
{
    match links.get(k) {
        Some(Some(r)) => box_of(places, *r),
        Some(None) | None => given_box(given, k),
    }
}

fn given_box(given: &OwnBoxes, k: usize) -> OwnBox
    requires { k < length given.now }
    ensures value { result ≡ own_box_at given.now k }
    ensures fits { OwnBoxFits result }
{
    given.as_slice()[k]
}

/// The own box of the root r; none where that isn't there.
fn box_of(places: &[PlacedContext], r: usize) -> OwnBox
    ensures value { result ≡ own_box_at (own_boxes (Places places.now)) r }
    ensures fits { OwnBoxFits result }
{
    match places.get(r) {
        Some(placed) => placed.placement().own(),
        None => NO_OWN_BOX,
    }
}

/// The pieces that are given, with those of the roots that are linked.
pub(crate) fn filled_pieces(
    alloc: Global,
    given: &SharedPieces,
    links: &[Option<usize>],
    places: &[PlacedContext],
) -> Result<SharedPieces, NoMemory>
    ensures { IfOk result (λ p. p ≡ filled [] (own_pieces (Places places.now)) links.now given.now) }
{
    let count = given.as_slice().len();
    let mut pieces = Vec::with_capacity(alloc, count)?;
    for k in 0..count {
        pieces.push(pieces_at(given, links, places, k)?)?;
    }
    Ok(SharedPieces::new(pieces))
}

fn pieces_at(
    given: &SharedPieces,
    links: &[Option<usize>],
    places: &[PlacedContext],
    k: usize,
) -> Result<Option<Arc<Pieces>>, NoMemory>
    ensures pieces { IfOk result
        (λ p. pieces_or_none p ≡ filled_at [] (own_pieces (Places places.now)) (slice_get links.now k) (inner_pieces_at given.now k)) }
    ensures near { IfOk result (λ p. AreNearPieces (pieces_or_none p)) }
{
    match links.get(k) {
        Some(Some(r)) => pieces_of(places, *r),
        Some(None) | None => given_pieces(given, k),
    }
}

/// The pieces that are given at the box at k, shared.
fn given_pieces(given: &SharedPieces, k: usize) -> Result<Option<Arc<Pieces>>, NoMemory>
    ensures pieces { IfOk result (λ p. pieces_or_none p ≡ inner_pieces_at given.now k) }
    ensures near { IfOk result (λ p. AreNearPieces (pieces_or_none p)) }
{
    let _ = given.as_slice();
    found_pieces(given, k)
}

fn found_pieces(given: &SharedPieces, k: usize) -> Result<Option<Arc<Pieces>>, NoMemory>
    ensures { IfOk result (λ p. pieces_or_none p ≡ inner_pieces_at given.now k) }
{
    match given.as_slice().get(k) {
        Some(Some(pieces)) => Ok(Some(pieces.clone()?)),
        Some(None) | None => Ok(None),
    }
}

/// The pieces of the root r, shared; none where that isn't there.
fn pieces_of(places: &[PlacedContext], r: usize) -> Result<Option<Arc<Pieces>>, NoMemory>
    ensures pieces { IfOk result (λ p. pieces_or_none p ≡ inner_pieces_at (own_pieces (Places places.now)) r) }
    ensures near { IfOk result (λ p. AreNearPieces (pieces_or_none p)) }
{
    match places.get(r) {
        Some(placed) => Ok(Some(placed.placement().pieces()?)),
        None => Ok(None),
    }
}
