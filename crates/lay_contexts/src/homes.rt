//! The home of each box of a context.

ghost use Rattle.std.specs.Prelude.{ℕ, ◌≡◌, ◌<◌, IfOk, length, slice_index};
ghost use Rattle.lay_box_tree.specs.ContextBoxes.{AreContextBoxes};
ghost use Rattle.lay_contexts.specs.Homes.{AreHomes, IsHome};

use crate::roots::{box_parent, is_root};
use lay_box_tree::BoxNode;
use lay_units::NoMemory;
use std::alloc::Global;

/// The home of each of these boxes.
pub(crate) fn homes(alloc: Global, boxes: &[BoxNode]) -> Result<Vec<usize>, NoMemory>
    requires { AreContextBoxes boxes.now }
    ensures { IfOk result (λ v. AreHomes boxes.now v.items) }
{
    let mut homes = Vec::with_capacity(alloc, boxes.len())?;
    for k in 0..boxes.len() {
        let home = home(boxes, &homes, k);
        homes.push(home)?;
    }
    Ok(homes)
}

/// The home of the box at k, where those of the boxes before it are known.
fn home(boxes: &[BoxNode], homes: &[usize], k: usize) -> usize
    requires there { k < length boxes.now }
    requires are { AreContextBoxes boxes.now }
    requires count { length homes.now ≡ k }
    requires known { (j : ℕ) → j < k → IsHome boxes.now j (slice_index homes.now j) }
    ensures { IsHome boxes.now k result }
{
    let parent = box_parent(boxes, k);
    if is_root(boxes, parent) {
        return parent;
    }
    place_at(homes, parent)
}

/// The place that a column has at k.
pub(crate) fn place_at(column: &[usize], k: usize) -> usize
    requires { k < length column.now }
    ensures { result ≡ slice_index column.now k }
{
    column[k]
}
