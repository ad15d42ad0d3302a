//! Where a formatting context stands by itself.

ghost use Rattle.std.specs.Prelude.{◌≡◌, ◌+ℤ◌, IfOk};
ghost use Rattle.lay_units.specs.Units.{IsUsed, IsNear};
ghost use Rattle.lay_sizes.specs.SizeBounds.{SizeFits};
ghost use Rattle.lay_sizes.specs.SizeColumns.{sizes_at};
ghost use Rattle.lay_placements.specs.Corners.{IsCornerNear};
ghost use Rattle.lay_abspos.specs.OwnOffsets.{IsOwnOffset, is_right, root_corner, root_left};
ghost use Rattle.lay_abspos.specs.StandInputs.{IsRootEdge};

use crate::absolute_offset;
use crate::own_place::OwnPlace;
use crate::relative::relative_offset;
use crate::root_box::RootBox;
use crate::stand_input::StandInput;
use lay_box_tree::Flow;
use lay_boxgen::flow_of;
use lay_placements::{Corner, Placement};
use lay_sizes::BoxSizes;
use lay_style::{Float, Style};
use lay_units::{NoMemory, Unit};

const NO_CORNER: Corner = Corner {
    x: Unit(0),
    y: Unit(0),
};

/// Where the formatting context that is placed so stands by itself: the corner of its border box, in 1/64 px, at most 2^60 units
/// away from where it is counted. NoMemory is the answer where an absolutely positioned one is further away, which none of a
/// document within the limits is.
pub fn own_offset(input: &StandInput, placement: &Placement) -> Result<Corner, NoMemory>
    ensures offset { IfOk result (IsOwnOffset input.now placement.now.own) }
    ensures near { IfOk result IsCornerNear }
{
    let boxes = input.boxes();
    match input.position() {
        OwnPlace::Inner => Ok(NO_CORNER),
        OwnPlace::Root(viewport) => {
            let sizes = own_sizes(input);
            Ok(root_corner(&RootBox { viewport, sizes }, boxes.style(0)))
        }
        OwnPlace::Absolute(setting) => {
            let height = placement.own().height;
            absolute_offset(&setting, &boxes.as_slice()[0], input.left(), height)
        }
    }
}

/// The used sizes of the own box.
fn own_sizes(input: &StandInput) -> BoxSizes
    ensures sizes { result ≡ sizes_at input.now.sizes 0 }
    ensures fits { SizeFits result }
{
    let _ = input.boxes();
    input.sizes()[0]
}

/// Where the root's border box stands.
fn root_corner(root: &RootBox, style: &Style) -> Corner
    ensures corner { result ≡ root_corner root.now.viewport style.now root.now.sizes }
    ensures near { IsCornerNear result }
{
    let offset = relative_offset(root.viewport, style);
    Corner {
        x: moved(root_left(root, style), offset.right),
        y: moved(root.sizes.margin_top, offset.down),
    }
}

fn moved(edge: Unit, by: Unit) -> Unit
    requires edge { IsRootEdge edge.0 }
    requires by { IsUsed by.0 }
    ensures sum { result ≡ record { 0 = edge.0 +ℤ by.0 } }
    ensures near { IsNear result.0 }
{
    Unit(edge.0 + by.0)
}

fn root_left(root: &RootBox, style: &Style) -> Unit
    ensures left { result ≡ root_left root.now.viewport style.now root.now.sizes }
    ensures bounds { IsRootEdge result.0 }
{
    if is_right(flow_of(style), style.float) {
        return root.left_of_right();
    }
    root.sizes.widths.margin_left
}

fn is_right(flow: Flow, float: Float) -> bool
    ensures { result ≡ is_right flow float }
{
    matches!((flow, float), (Flow::Floating, Float::Right))
}
