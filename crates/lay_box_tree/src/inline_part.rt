//! First and last parts of inline boxes (CSS 2.2, 9.2.1.1).

ghost use Rattle.std.specs.Prelude.{◌≡◌, ◌≢◌, ◌<◌, ◌+◌, ℕ, Some, length, slice_index_or, IfOk, OnOk};
ghost use Rattle.std.specs.BTreeMap.{get};
ghost use Rattle.std.specs.Ordering.{nat_cmp};
ghost use Rattle.lay_box_tree.specs.InlineParts.{AreInlineParts, id_at, is_first_part, is_inline_at, is_last_part, no_part};
ghost use Rattle.lay_box_tree.specs.LatestParts.{IsLatest};

use crate::{BoxKind, BoxNode};
use lay_units::NoMemory;
use std::alloc::Global;
use std::collections::BTreeMap;

/// Which part of its element's inline box a box is. One that isn't broken is both the first and the last, and what is no
/// inline box neither.
#[derive(Clone, Copy, Debug, PartialEq, Eq)]
pub struct InlinePart {
    /// The left margin, border and padding of the element stand on it.
    pub first: bool,
    /// The right ones stand on it.
    pub last: bool,
}

/// For each box of a context which part of an inline box it is.
pub fn inline_parts(alloc: Global, boxes: &[BoxNode]) -> Result<Vec<InlinePart>, NoMemory>
    ensures { IfOk result (λ v. AreInlineParts boxes.now v.items) }
{
    let mut latest = BTreeMap::new(alloc);
    let mut parts = first_parts(alloc, boxes, &mut latest)?;
    put_last_parts(boxes, &latest, &mut parts);
    Ok(parts)
}

/// Whether each box is the first part of an inline box. `latest` comes to have the place of the last part of each.
fn first_parts(
    alloc: Global,
    boxes: &[BoxNode],
    latest: &mut BTreeMap<u32, usize>,
) -> Result<Vec<InlinePart>, NoMemory>
    requires { (id : ℕ) → IsLatest boxes.now 0 id (get nat_cmp latest.old id) }
    ensures count { IfOk result (λ v. length v.items ≡ length boxes.now) }
    ensures each { IfOk result
        (λ v. (k : ℕ) → k < length boxes.now → (slice_index_or v.items k no_part).first ≡ is_first_part boxes.now k) }
    ensures latest { OnOk result ((id : ℕ) → IsLatest boxes.now (length boxes.now) id (get nat_cmp latest.new id)) }
{
    let mut parts = Vec::with_capacity(alloc, boxes.len())?;
    for k in 0..boxes.len() {
        let first = take_note(boxes, latest, k)?;
        parts.push(InlinePart { first, last: false })?;
    }
    Ok(parts)
}

/// Says of each box whether it is the last part of an inline box, where these are the places of the last ones.
fn put_last_parts(boxes: &[BoxNode], latest: &BTreeMap<u32, usize>, parts: &mut [InlinePart])
    requires count { length parts.old ≡ length boxes.now }
    requires first { (k : ℕ) → k < length boxes.now → (slice_index_or parts.old k no_part).first ≡ is_first_part boxes.now k }
    requires latest { (id : ℕ) → IsLatest boxes.now (length boxes.now) id (get nat_cmp latest.now id) }
    ensures { AreInlineParts boxes.now parts.new }
{
    for k in 0..boxes.len() {
        let first = parts[k].first;
        let last = is_last_part(boxes, latest, k);
        parts[k] = InlinePart { first, last };
    }
}

/// Notes the box at k, if it is an inline box, as the latest part. Whether it is the first one.
fn take_note(
    boxes: &[BoxNode],
    latest: &mut BTreeMap<u32, usize>,
    k: usize,
) -> Result<bool, NoMemory>
    requires within { k < length boxes.now }
    requires before { (id : ℕ) → IsLatest boxes.now k id (get nat_cmp latest.old id) }
    ensures first { IfOk result (λ b. b ≡ is_first_part boxes.now k) }
    ensures after { OnOk result ((id : ℕ) → IsLatest boxes.now (k + 1) id (get nat_cmp latest.new id)) }
{
    if !is_inline_at(boxes, k) {
        return Ok(false);
    }
    let earlier = put_latest(latest, id_at(boxes, k), k)?;
    Ok(earlier.is_none())
}

/// Gives an id its latest place, and answers the one that it had.
pub fn put_latest(
    latest: &mut BTreeMap<u32, usize>,
    id: u32,
    place: usize,
) -> Result<Option<usize>, NoMemory>
    ensures earlier { IfOk result (λ o. o ≡ get nat_cmp latest.old id) }
    ensures here { OnOk result (get nat_cmp latest.new id ≡ Some place) }
    ensures others { OnOk result ((k : ℕ) → k ≢ id → get nat_cmp latest.new k ≡ get nat_cmp latest.old k) }
{
    match latest.insert(id, place) {
        Ok(earlier) => Ok(earlier),
        Err(_) => Err(NoMemory),
    }
}

/// The latest place of an id.
fn latest_of(latest: &BTreeMap<u32, usize>, id: u32) -> Option<usize>
    ensures { result ≡ get nat_cmp latest.now id }
{
    latest.get(&id).copied()
}

/// The id of the node of the box at k.
pub fn id_at(boxes: &[BoxNode], k: usize) -> u32
    requires { k < length boxes.now }
    ensures { result ≡ id_at boxes.now k }
{
    boxes[k].node.0
}

/// Whether the box at k is an inline box.
pub fn is_inline_at(boxes: &[BoxNode], k: usize) -> bool
    requires { k < length boxes.now }
    ensures { result ≡ is_inline_at boxes.now k }
{
    matches!(boxes[k].kind, BoxKind::Inline)
}

/// Whether the box at k is the last part of an inline box, where these are the places of the last ones.
fn is_last_part(boxes: &[BoxNode], latest: &BTreeMap<u32, usize>, k: usize) -> bool
    requires within { k < length boxes.now }
    requires latest { (id : ℕ) → IsLatest boxes.now (length boxes.now) id (get nat_cmp latest.now id) }
    ensures { result ≡ is_last_part boxes.now k }
{
    if !is_inline_at(boxes, k) {
        return false;
    }
    match latest_of(latest, id_at(boxes, k)) {
        Some(last) => last == k,
        None => false,
    }
}
