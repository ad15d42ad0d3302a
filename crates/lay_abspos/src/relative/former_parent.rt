//! The inline box that held a box before it was broken (CSS 2.2, 9.2.1.1).

ghost use Rattle.std.specs.Prelude.{◌≡◌, ◌<◌, ◌+◌, ◌≤◌, ℕ, length, slice_index, IfOk, OnOk, IsFalse, IsTrue, false, MatchOption, true};
ghost use Rattle.lay_doc.specs.Tree.{IsTree};
ghost use Rattle.lay_box_tree.specs.InlineParts.{is_inline_at};
ghost use Rattle.lay_box_tree.specs.BoxColumns.{box_parents};
ghost use Rattle.lay_abspos.specs.Relative.FormerParents.{AreFormerParents, IsFormerParent};
ghost use Rattle.lay_abspos.specs.Relative.OpenParts.{AreNextPlaces, AreOpen, GoesOn};
ghost use Rattle.lay_abspos.specs.Relative.SubtreeEnds.{IsEnd};

use crate::relative::next_place::next_places;
use crate::relative::subtree_end::subtree_ends;
use lay_box_tree::{BoxNode, BoxTree, box_parent, is_inline_at};
use lay_units::NoMemory;
use std::alloc::Global;

/// For each box the place of the part before it of the innermost inline box that held it before it broke that.
pub fn former_parents(alloc: Global, tree: &BoxTree) -> Result<Vec<Option<usize>>, NoMemory>
    ensures { IfOk result (λ v. AreFormerParents tree.now v.items) }
{
    if !has_inline(tree.as_slice()) {
        return Ok(vec![in alloc; None; tree.as_slice().len()]?);
    }
    parents_of(alloc, tree)
}

/// The same, where there may be an inline box.
fn parents_of(alloc: Global, tree: &BoxTree) -> Result<Vec<Option<usize>>, NoMemory>
    ensures { IfOk result (λ v. AreFormerParents tree.now v.items) }
{
    let boxes = tree.as_slice();
    let next = next_places(alloc, boxes)?;
    let ends = subtree_ends(alloc, boxes)?;
    let mut parts = Vec::new(alloc);
    let mut parents = Vec::with_capacity(alloc, boxes.len())?;
    for k in 0..boxes.len() {
        let parent = former_parent(boxes, &next, ends[k], &mut parts, k);
        parents.push(parent)?;
        note_open(boxes, &mut parts, k)?;
    }
    Ok(parents)
}

/// Whether there is an inline box among these boxes.
fn has_inline(boxes: &[BoxNode]) -> bool
    ensures { IsFalse result → (k : ℕ) → k < length boxes.now → is_inline_at boxes.now k ≡ false }
{
    for k in 0..boxes.len() {
        if is_inline_at(boxes, k) {
            return true;
        }
    }
    false
}

/// The former parent of the box at k. Parts that can have held no box from there on are dropped.
fn former_parent(
    boxes: &[BoxNode],
    next: &[usize],
    end: usize,
    parts: &mut Vec<usize>,
    k: usize,
) -> Option<usize>
    requires tree { IsTree (box_parents boxes.now) }
    requires within { k < length boxes.now }
    requires next { AreNextPlaces boxes.now next.now }
    requires end { IsEnd boxes.now k end }
    requires before { AreOpen boxes.now k parts.old.items }
    ensures parent { IsFormerParent boxes.now k result }
    ensures after { AreOpen boxes.now k parts.new.items }
{
    while is_top_over(next, end, parts) {
        parts.pop();
    }
    nearest(parts, box_parent(boxes, k))
}

/// Whether the next part of the topmost of these parts, if there is one, stands before the place `end`.
fn is_top_over(next: &[usize], end: usize, parts: &[usize]) -> bool
    requires { (i : ℕ) → i < length parts.now → slice_index parts.now i < length next.now }
    ensures over { IsTrue result → (i : ℕ) × (i + 1 ≡ length parts.now) × (slice_index next.now (slice_index parts.now i) < end) }
    ensures goes_on { result ≡ false → GoesOn next.now parts.now end }
{
    match parts.len() {
        0 => false,
        n => next[parts[n - 1]] < end,
    }
}

/// The topmost of these parts, if it stands behind the place `parent`.
fn nearest(parts: &[usize], parent: usize) -> Option<usize>
    ensures { MatchOption result ((i : ℕ) → i + 1 ≡ length parts.now → slice_index parts.now i ≤ parent)
        (λ p. (i : ℕ) × (i + 1 ≡ length parts.now) × (slice_index parts.now i ≡ p) × (parent < p)) }
{
    match parts.len() {
        0 => None,
        n if parent < parts[n - 1] => Some(parts[n - 1]),
        _ => None,
    }
}

/// Notes the box at k, if it is an inline box.
fn note_open(boxes: &[BoxNode], parts: &mut Vec<usize>, k: usize) -> Result<(), NoMemory>
    requires within { k < length boxes.now }
    requires before { AreOpen boxes.now k parts.old.items }
    ensures { OnOk result (AreOpen boxes.now (k + 1) parts.new.items) }
{
    if is_inline_at(boxes, k) {
        parts.push(k)?;
    }
    Ok(())
}
