//! The next part of each part of an inline box.

ghost use Rattle.std.specs.Prelude.{◌<◌, ◌+◌, ℕ, Some, length, IfOk, OnOk};
ghost use Rattle.std.specs.BTreeMap.{get};
ghost use Rattle.std.specs.Ordering.{nat_cmp};
ghost use Rattle.lay_box_tree.specs.InlineParts.{id_at, is_inline_at};
ghost use Rattle.lay_box_tree.specs.LatestParts.{IsLatest};
ghost use Rattle.lay_abspos.specs.Relative.OpenParts.{AreNextPlaces, AreNextTo};

use lay_box_tree::{BoxNode, id_at, is_inline_at, put_latest};
use lay_units::NoMemory;
use std::alloc::Global;
use std::collections::BTreeMap;

/// For each part of an inline box the place of the next part, and 0 for the last; what it says of other boxes means nothing.
pub(crate) fn next_places(alloc: Global, boxes: &[BoxNode]) -> Result<Vec<usize>, NoMemory>
    ensures { IfOk result (λ v. AreNextPlaces boxes.now v.items) }
{
    let mut latest = BTreeMap::new(alloc);
    let mut next = vec![in alloc; 0; boxes.len()]?;
    for k in 0..boxes.len() {
        note_part(boxes, &mut latest, &mut next, k)?;
    }
    Ok(next)
}

/// Notes the box at k, if it is an inline box, as the latest part and as the next one of the part before it.
fn note_part(
    boxes: &[BoxNode],
    latest: &mut BTreeMap<u32, usize>,
    next: &mut [usize],
    k: usize,
) -> Result<(), NoMemory>
    requires within { k < length boxes.now }
    requires latest { (id : ℕ) → IsLatest boxes.now k id (get nat_cmp latest.old id) }
    requires next { AreNextTo boxes.now next.old k }
    ensures latest { OnOk result ((id : ℕ) → IsLatest boxes.now (k + 1) id (get nat_cmp latest.new id)) }
    ensures next { OnOk result (AreNextTo boxes.now next.new (k + 1)) }
{
    if !is_inline_at(boxes, k) {
        return Ok(());
    }
    match put_latest(latest, id_at(boxes, k), k)? {
        Some(place) => {
            next[place] = k;
            Ok(())
        }
        None => Ok(()),
    }
}
