//! The nearest block container of each box (CSS 2.2, 10.1).

ghost use Rattle.std.specs.Prelude.{ℕ, ◌≡◌, ◌<◌, length, slice_index, IfOk};
ghost use Rattle.lay_doc.specs.Tree.{IsTree};
ghost use Rattle.lay_box_tree.specs.BoxColumns.{box_parents};
ghost use Rattle.lay_box_tree.specs.Containers.{counts, box_parent, IsContainer, AreContainers};

use crate::box_tree::{BoxKind, BoxNode, BoxTree};
use lay_units::NoMemory;
use std::alloc::Global;

impl BoxNode {
    ghost use Rattle.lay_box_tree.specs.Kinds.{is_block_container_kind};

    /// Whether it holds blocks or lines (9.2.1).
    pub fn is_block_container(&self) -> bool
        ensures { result ≡ is_block_container_kind self.now.kind }
    {
        matches!(
            self.kind,
            BoxKind::Block
                | BoxKind::InlineBlock
                | BoxKind::Cell { .. }
                | BoxKind::Caption
                | BoxKind::Wrapper
                | BoxKind::InlineWrapper
        )
    }
}

/// Whether the box at a place is a block container, or the context's own box.
fn counts(boxes: &[BoxNode], place: usize) -> bool
    requires { place < length boxes.now }
    ensures { result ≡ counts boxes.now place }
{
    place == 0 || boxes[place].is_block_container()
}

/// The place of the parent of the box at a place.
pub fn box_parent(boxes: &[BoxNode], place: usize) -> usize
    requires { place < length boxes.now }
    ensures { result ≡ box_parent boxes.now place }
{
    boxes[place].parent as usize
}

/// The place that a column has at a place.
fn place_at(column: &[usize], place: usize) -> usize
    requires { place < length column.now }
    ensures { result ≡ slice_index column.now place }
{
    column[place]
}

/// The nearest block container of the box at a place, where those of the boxes before it are known.
fn container(boxes: &[BoxNode], containers: &[usize], place: usize) -> usize
    requires there { place < length boxes.now }
    requires tree { IsTree (box_parents boxes.now) }
    requires count { length containers.now ≡ place }
    requires known { (k : ℕ) → k < place → IsContainer boxes.now k (slice_index containers.now k) }
    ensures { IsContainer boxes.now place result }
{
    let parent = box_parent(boxes, place);
    if counts(boxes, parent) {
        return parent;
    }
    place_at(containers, parent)
}

impl BoxTree {
    /// The place of the nearest block container of each box; the context's own box is its own.
    pub fn containers(&self, alloc: Global) -> Result<Vec<usize>, NoMemory>
        ensures { IfOk result (λ v. AreContainers self.now v.items) }
    {
        let boxes = self.as_slice();
        let mut containers = Vec::with_capacity(alloc, boxes.len())?;
        for place in 0..boxes.len() {
            let container = container(boxes, &containers, place);
            containers.push(container)?;
        }
        Ok(containers)
    }
}
