//! By how much the boxes of one formatting context are moved.

ghost use Rattle.std.specs.Prelude.{◌≡◌, ◌<◌, IsFalse, length, IfOk};
ghost use Rattle.lay_sizes.specs.SizeColumns.{HaveSizeBounds};
ghost use Rattle.lay_abspos.specs.Relative.FormerParents.{AreFormerParents};
ghost use Rattle.lay_abspos.specs.Relative.MoveBounds.{AreNearMoves, IsMoveNear};
ghost use Rattle.lay_abspos.specs.Relative.Moves.{HasMoves, NoneIsRelative, carrier, is_movable, move_of, own_offset, offset_sum};
ghost use Rattle.lay_abspos.specs.Relative.RelativeOffsets.{IsOffsetUsed};

use crate::relative::box_moves::BoxMoves;
use crate::relative::former_parents;
use crate::relative::offset::{NO_OFFSET, Offset, is_relative, relative_offset};
use lay_box_tree::{ContextBoxes, Role};
use lay_placements::{block_around, near_sum};
use lay_sizes::BoxSizes;
use lay_units::NoMemory;
use std::alloc::Global;

/// By how much each box of a formatting context of these used sizes is moved from where it stands, from outer to inner boxes, in
/// 1/64 px. NoMemory is also the answer where one is moved by more than 2^60 units, which it is in no document within the
/// limits.
pub fn relative_moves(
    alloc: Global,
    boxes: &ContextBoxes,
    sizes: &[BoxSizes],
) -> Result<BoxMoves, NoMemory>
    requires count { length sizes.now ≡ length boxes.now }
    requires bounds { HaveSizeBounds sizes.now }
    ensures { IfOk result (HasMoves boxes.now sizes.now) }
{
    if !has_relative(boxes) {
        return Ok(BoxMoves::none(boxes.as_slice().len()));
    }
    let moves = moves_of(alloc, boxes, sizes)?;
    Ok(BoxMoves::new(moves))
}

/// Whether one of these boxes is relatively positioned.
fn has_relative(boxes: &ContextBoxes) -> bool
    ensures { IsFalse result → NoneIsRelative boxes.now }
{
    for k in 0..boxes.as_slice().len() {
        if is_relative(boxes.style(k).position) {
            return true;
        }
    }
    false
}

/// The moves of these boxes, of which each may be moved.
fn moves_of(
    alloc: Global,
    boxes: &ContextBoxes,
    sizes: &[BoxSizes],
) -> Result<Vec<Offset>, NoMemory>
    requires count { length sizes.now ≡ length boxes.now }
    requires bounds { HaveSizeBounds sizes.now }
    ensures moves { IfOk result (λ v. HasMoves boxes.now sizes.now v.items) }
    ensures near { IfOk result (λ v. AreNearMoves v.items) }
{
    let formers = former_parents(alloc, boxes.tree())?;
    let count = boxes.as_slice().len();
    let mut moves = Vec::with_capacity(alloc, count)?;
    for k in 0..count {
        let offset = move_of(boxes, sizes, &formers, &moves, k)?;
        moves.push(offset)?;
    }
    Ok(moves)
}

/// By how much the box at k is moved, where that is known of the boxes before it.
fn move_of(
    boxes: &ContextBoxes,
    sizes: &[BoxSizes],
    formers: &[Option<usize>],
    moves: &[Offset],
    k: usize,
) -> Result<Offset, NoMemory>
    requires place { k < length boxes.now }
    requires count { length sizes.now ≡ length boxes.now }
    requires bounds { HaveSizeBounds sizes.now }
    requires formers { AreFormerParents boxes.now formers.now }
    requires known { length moves.now ≡ k }
    requires near { AreNearMoves moves.now }
    ensures offset { IfOk result (λ o. o ≡ move_of boxes.now sizes.now formers.now moves.now k) }
    ensures near { IfOk result IsMoveNear }
{
    if k == 0 {
        return Ok(NO_OFFSET);
    }
    let own = own_offset(boxes, sizes, k);
    sum_of(own, moves[carrier(boxes, formers, k)])
}

/// By how much the box at k is moved by itself.
fn own_offset(boxes: &ContextBoxes, sizes: &[BoxSizes], k: usize) -> Offset
    requires place { k < length boxes.now }
    requires count { length sizes.now ≡ length boxes.now }
    requires bounds { HaveSizeBounds sizes.now }
    ensures value { result ≡ own_offset boxes.now sizes.now k }
    ensures used { IsOffsetUsed result }
{
    let style = boxes.style(k);
    if !is_relative(style.position) || !is_movable(boxes.role(k)) {
        return NO_OFFSET;
    }
    let _ = boxes.container(k);
    relative_offset(block_around(boxes, sizes, k), style)
}

/// Whether relative positioning acts on what has this role.
fn is_movable(role: Role) -> bool
    ensures { result ≡ is_movable role }
{
    !matches!(
        role,
        Role::Own | Role::Anchor | Role::TablePart | Role::Text
    )
}

/// The box with which the box at k is moved.
fn carrier(boxes: &ContextBoxes, formers: &[Option<usize>], k: usize) -> usize
    requires place { k < length boxes.now }
    requires behind { 0 < k }
    requires formers { AreFormerParents boxes.now formers.now }
    ensures value { result ≡ carrier boxes.now formers.now k }
    ensures before { result < k }
{
    let _ = boxes.as_slice();
    former_or_parent(boxes, formers, k)
}

fn former_or_parent(boxes: &ContextBoxes, formers: &[Option<usize>], k: usize) -> usize
    requires place { k < length boxes.now }
    requires formers { AreFormerParents boxes.now formers.now }
    ensures { result ≡ carrier boxes.now formers.now k }
{
    match formers[k] {
        Some(part) => part,
        None => boxes.as_slice()[k].parent as usize,
    }
}

/// The sum of a box's own offset and the move of what it is moved with. NoMemory is the answer where it is more than 2^60
/// units.
fn sum_of(own: Offset, carried: Offset) -> Result<Offset, NoMemory>
    requires own { IsOffsetUsed own }
    requires carried { IsMoveNear carried }
    ensures sum { IfOk result (λ o. o ≡ offset_sum own carried) }
    ensures near { IfOk result IsMoveNear }
{
    let right = near_sum(own.right, carried.right)?;
    let down = near_sum(own.down, carried.down)?;
    Ok(Offset { right, down })
}
