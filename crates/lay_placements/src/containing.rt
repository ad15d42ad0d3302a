//! The containing blocks of the boxes of one context.

ghost use Rattle.std.specs.Prelude.{◌≡◌, ◌<◌, ◌≤◌, length};
ghost use Rattle.lay_units.specs.Units.{IsPosition};
ghost use Rattle.lay_placements.specs.ContainingBlocks.{block_around, containing_block_at, height_holder};
ghost use Rattle.lay_box_tree.specs.Containing.{container_of};
ghost use Rattle.lay_sizes.specs.SizeColumns.{HaveSizeBounds, sizes_at};

use lay_box_tree::ContextBoxes;
use lay_sizes::{BoxSizes, ContainingBlock, content_block};

/// The containing block of the box at k, which isn't the context's own, where the sizes of its container and of the
/// boxes before that are known (CSS 2.2, 10.1).
pub fn block_around(boxes: &ContextBoxes, sizes: &[BoxSizes], k: usize) -> ContainingBlock
    requires place { k < length boxes.now }
    requires known { container_of boxes.now k < length sizes.now }
    requires bounds { HaveSizeBounds sizes.now }
    ensures block { result ≡ block_around boxes.now sizes.now k }
    ensures near { IsPosition result.width.0 }
{
    block_in(boxes, sizes, boxes.container(k))
}

/// The containing block that the block container at c is to what is in it.
pub fn block_in(boxes: &ContextBoxes, sizes: &[BoxSizes], c: usize) -> ContainingBlock
    requires place { c < length boxes.now }
    requires known { c < length sizes.now }
    requires bounds { HaveSizeBounds sizes.now }
    ensures block { result ≡ containing_block_at boxes.now sizes.now c }
    ensures near { IsPosition result.width.0 }
{
    let holder = height_holder(boxes, c);
    ContainingBlock {
        width: content_block(&sizes_at(sizes, c)).width,
        height: content_block(&sizes_at(sizes, holder)).height,
    }
}

/// The box whose height percentages in the box at c refer to.
fn height_holder(boxes: &ContextBoxes, c: usize) -> usize
    requires { c < length boxes.now }
    ensures holder { result ≡ height_holder boxes.now c }
    ensures before { result ≤ c }
{
    if boxes.is_anonymous(c) {
        return boxes.container(c);
    }
    c
}

/// The used sizes of the box at k.
pub fn sizes_at(sizes: &[BoxSizes], k: usize) -> BoxSizes
    requires { k < length sizes.now }
    ensures { result ≡ sizes_at sizes.now k }
{
    sizes[k]
}
