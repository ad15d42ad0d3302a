//! The corners of the boxes of one formatting context.

ghost use Rattle.std.specs.Prelude.{ℕ, ◌≡◌, ◌<◌, ◌&&◌, [], ◌∷◌, IsFalse, false, nat_lt, length, IfOk, OnOk};
ghost use Rattle.lay_placement.specs.AtomicCorners.{corner_among, corner_of_piece, has_atomic, is_atomic_piece};
ghost use Rattle.lay_placements.specs.Corners.{AreNearCorners, IsCornerNear, corner_at};
ghost use Rattle.lay_placement.specs.BoxStandings.{corner_in_flow, corner_of_box};
ghost use Rattle.lay_placement.specs.Counts.{HaveCounts};
ghost use Rattle.lay_placement.specs.OnLines.{AreOnLines, on_lines_at};
ghost use Rattle.lay_placement.specs.Restings.{kept_corner};

use crate::columns::place_at;
use crate::context_places::BoxPlaces;
use crate::on_lines::on_lines_at;
use lay_flow_boxes::PlaceInput;
use lay_inlines::{LinePiece, LinePieceKind, LinePieceList};
use lay_placements::{Corner, near_corner};
use lay_units::NoMemory;
use std::alloc::Global;

/// The corners of the border boxes of all boxes, in order, where these stand on lines; nothing is kept where lines hold no
/// atomic box, so that each stands where the flow puts it. NoMemory is also the answer where one is more than 2^60 units
/// away from that of the context's own box, which it is in no document within the limits.
pub(crate) fn corners_of(
    alloc: Global,
    input: &PlaceInput,
    places: &BoxPlaces,
    on_lines: &[LinePieceList],
) -> Result<Vec<Corner>, NoMemory>
    requires counts { HaveCounts input.now.boxes places.now }
    requires on_lines { AreOnLines input.now places.now on_lines.now }
    ensures each { IfOk result
        (λ v. (k : ℕ) → k < length input.now.boxes → kept_corner places.now.places v.items k ≡ corner_of_box input.now places.now k) }
    ensures near { IfOk result (λ v. AreNearCorners v.items) }
{
    if !has_atomics(on_lines) {
        return Ok(Vec::new(alloc));
    }
    corners_of_each(alloc, input, places, on_lines)
}

/// Whether one of these boxes has an atomic box on its lines.
fn has_atomics(on_lines: &[LinePieceList]) -> bool
    ensures { IsFalse result → (j : ℕ) → has_atomic (on_lines_at on_lines.now j) ≡ false }
{
    for j in 0..on_lines.len() {
        if has_atomic(on_lines_at(on_lines, j)) {
            return true;
        }
    }
    false
}

/// Whether one of these pieces is that of an atomic box.
fn has_atomic(pieces: &[LinePiece]) -> bool
    ensures { result ≡ has_atomic pieces.now }
{
    for i in 0..pieces.len() {
        if is_atomic(pieces[i].kind) {
            return true;
        }
    }
    false
}

/// The same, where lines may hold atomic boxes: the corner of each box.
fn corners_of_each(
    alloc: Global,
    input: &PlaceInput,
    places: &BoxPlaces,
    on_lines: &[LinePieceList],
) -> Result<Vec<Corner>, NoMemory>
    requires counts { HaveCounts input.now.boxes places.now }
    requires on_lines { AreOnLines input.now places.now on_lines.now }
    ensures each { IfOk result
        (λ v. (k : ℕ) → k < length input.now.boxes → kept_corner places.now.places v.items k ≡ corner_of_box input.now places.now k) }
    ensures near { IfOk result (λ v. AreNearCorners v.items) }
{
    let mut corners = corners_in_flow(alloc, places)?;
    for k in 0..input.boxes().len() {
        put_atomics(&mut corners, on_lines_at(on_lines, k))?;
    }
    Ok(corners)
}

/// Where the flow puts the border box of each box.
fn corners_in_flow(alloc: Global, places: &BoxPlaces) -> Result<Vec<Corner>, NoMemory>
    ensures count { IfOk result (λ v. length v.items ≡ length places.now.places.boxes) }
    ensures each { IfOk result
        (λ v. (k : ℕ) → k < length places.now.places.boxes → corner_at v.items k ≡ corner_in_flow places.now.places k) }
    ensures near { IfOk result (λ v. AreNearCorners v.items) }
{
    let count = places.places.boxes().len();
    let mut corners = Vec::with_capacity(alloc, count)?;
    for k in 0..count {
        let corner = corner_in_flow(places, k);
        corners.push(corner)?;
    }
    Ok(corners)
}

/// Puts each atomic box among these pieces where it stands.
fn put_atomics(corners: &mut Vec<Corner>, pieces: &[LinePiece]) -> Result<(), NoMemory>
    requires near { AreNearCorners corners.old.items }
    ensures count { OnOk result (length corners.new.items ≡ length corners.old.items) }
    ensures each { OnOk result
        ((k : ℕ) → k < length corners.old.items
        → corner_at corners.new.items k ≡ corner_among pieces.now k (corner_at corners.old.items k)) }
    ensures near { OnOk result (AreNearCorners corners.new.items) }
{
    for i in 0..pieces.len() {
        put_atomic(corners, pieces[i])?;
    }
    Ok(())
}

/// The same for one piece.
fn put_atomic(corners: &mut Vec<Corner>, piece: LinePiece) -> Result<(), NoMemory>
    requires near { AreNearCorners corners.old.items }
    ensures count { OnOk result (length corners.new.items ≡ length corners.old.items) }
    ensures each { OnOk result
        ((k : ℕ) → k < length corners.old.items
        → corner_at corners.new.items k ≡ corner_among (piece ∷ []) k (corner_at corners.old.items k)) }
    ensures near { OnOk result (AreNearCorners corners.new.items) }
{
    if !is_atomic_among(piece, corners.len()) {
        return Ok(());
    }
    corners[piece.node as usize] = corner_of_piece(piece)?;
    Ok(())
}

/// Whether this is the piece of an atomic box that is one of so many boxes.
fn is_atomic_among(piece: LinePiece, count: usize) -> bool
    ensures { result ≡ (is_atomic_piece piece.kind && nat_lt piece.node count) }
{
    is_atomic(piece.kind) && (piece.node as usize) < count
}

fn is_atomic(kind: LinePieceKind) -> bool
    ensures { result ≡ is_atomic_piece kind }
{
    matches!(kind, LinePieceKind::Atomic)
}

fn corner_of_piece(piece: LinePiece) -> Result<Corner, NoMemory>
    ensures corner { IfOk result (λ c. c ≡ corner_of_piece piece) }
    ensures near { IfOk result IsCornerNear }
{
    near_corner(piece.rect.x, piece.rect.y)
}

/// Where the flow puts the border box of the box at k, counted from the corner of the context's own.
pub(crate) fn corner_in_flow(places: &BoxPlaces, k: usize) -> Corner
    requires { k < length places.now.places.boxes }
    ensures corner { result ≡ corner_in_flow places.now.places k }
    ensures near { IsCornerNear result }
{
    let corner = place_at(places.places.boxes(), k).corner;
    Corner {
        x: corner.x,
        y: corner.y,
    }
}
