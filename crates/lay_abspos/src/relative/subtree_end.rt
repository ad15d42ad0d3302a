//! The place behind each box and all that is in it.

ghost use Rattle.std.specs.Prelude.{◌<◌, ◌+◌, length, IfOk};
ghost use Rattle.lay_doc.specs.Tree.{IsTree};
ghost use Rattle.lay_box_tree.specs.BoxColumns.{box_parents};
ghost use Rattle.lay_box_tree.specs.Containers.{box_parent};
ghost use Rattle.lay_abspos.specs.Relative.SubtreeEnds.{AreEnds, AreEndsTo};

use lay_box_tree::{BoxNode, box_parent};
use lay_units::NoMemory;
use std::alloc::Global;

/// The end of each box.
pub(crate) fn subtree_ends(alloc: Global, boxes: &[BoxNode]) -> Result<Vec<usize>, NoMemory>
    requires { IsTree (box_parents boxes.now) }
    ensures { IfOk result (λ v. AreEnds boxes.now v.items) }
{
    let mut ends = vec![in alloc; boxes.len(); boxes.len()]?;
    for k in 1..boxes.len() {
        end_at(boxes, &mut ends, k);
    }
    Ok(ends)
}

/// Gives the place k to the boxes that end there: from the box before it up to the parent of the one at k.
fn end_at(boxes: &[BoxNode], ends: &mut [usize], k: usize)
    requires tree { IsTree (box_parents boxes.now) }
    requires behind { 0 < k }
    requires within { k < length boxes.now }
    requires before { AreEndsTo boxes.now ends.old k }
    ensures { AreEndsTo boxes.now ends.new (k + 1) }
{
    let parent = box_parent(boxes, k);
    let mut at = k - 1;
    while at > parent {
        ends[at] = k;
        at = box_parent(boxes, at);
    }
}
