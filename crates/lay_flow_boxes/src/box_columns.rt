//! Reading the columns of one context's boxes.

ghost use Rattle.std.specs.Prelude.{◌≡◌, ◌<◌, length};
ghost use Rattle.lay_style.specs.ComputedStyle.{style_at};
ghost use Rattle.lay_box_tree.specs.BoxColumns.{box_styles};
ghost use Rattle.lay_flow.specs.Blocks.Lengths.{length_at};
ghost use Rattle.lay_sizes.specs.SizeColumns.{HaveSizeBounds, sizes_at};
ghost use Rattle.lay_sizes.specs.OwnBoxes.{OwnBoxFits, OwnBoxesFit, own_box_at};
ghost use Rattle.lay_flow_boxes.specs.Outside.{outside};
ghost use Rattle.lay_box_tree.specs.ContextBoxes.{is_inner};

use lay_box_tree::BoxNode;
use lay_placements::sizes_at;
use lay_sizes::{BoxSizes, OwnBox, own_box};
use lay_style::Style;
use lay_units::Unit;

pub(crate) fn style_at(boxes: &[BoxNode], k: usize) -> &Style
    requires { k < length boxes.now }
    ensures { result.now ≡ style_at (box_styles boxes.now) k }
{
    &boxes[k].style
}

/// The box at k is that of an inner context.
pub(crate) fn is_inner(boxes: &[BoxNode], k: usize) -> bool
    requires { k < length boxes.now }
    ensures { result ≡ is_inner boxes.now k }
{
    boxes[k].inner
}

pub(crate) fn length_at(column: &[Unit], k: usize) -> Unit
    requires { k < length column.now }
    ensures { result ≡ record { 0 = length_at column.now k } }
{
    column[k]
}

/// The box at k from outside, where these are the boxes of inner contexts.
pub(crate) fn outside(boxes: &[BoxNode], sizes: &[BoxSizes], inner: &[OwnBox], k: usize) -> OwnBox
    requires boxes { k < length boxes.now }
    requires sizes { k < length sizes.now }
    requires inner { k < length inner.now }
    requires size_bounds { HaveSizeBounds sizes.now }
    requires inner_bounds { OwnBoxesFit inner.now }
    ensures value { result ≡ outside boxes.now sizes.now inner.now k }
    ensures fits { OwnBoxFits result }
{
    if is_inner(boxes, k) {
        return own_box_at(inner, k);
    }
    own_box(sizes_at(sizes, k), Unit(0), None)
}

/// The own box of the formatting context whose box is at k.
pub fn own_box_at(inner: &[OwnBox], k: usize) -> OwnBox
    requires { k < length inner.now }
    ensures { result ≡ own_box_at inner.now k }
{
    inner[k]
}
