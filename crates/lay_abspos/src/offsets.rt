//! Where absolutely positioned boxes stand.

ghost use Rattle.std.specs.Prelude.{◌≡◌, IfErr, IfOk};
ghost use Rattle.lay_units.specs.Units.{IsBoxSize};
ghost use Rattle.lay_abspos.specs.AbsoluteFits.{AxisFits};
ghost use Rattle.lay_placements.specs.Corners.{IsCornerNear};
ghost use Rattle.lay_placements.specs.declared.corner.Corner.{Corner};
ghost use Rattle.lay_box_tree.specs.Kinds.{is_wrapper};
ghost use Rattle.lay_abspos.specs.OffsetBounds.{IsStart};
ghost use Rattle.lay_abspos.specs.Offsets.{IsOffset, axis_of_height};
ghost use Rattle.lay_abspos.specs.AbsoluteSettings.{SettingFits};

use crate::axes::{axis_down, content_height, wrapper_down};
use crate::lengths::moved;
use crate::setting::{AbsoluteSetting, block_in};
use crate::sizes::{border_start, own_axis_down, solved};
use crate::{Axis, ContentSize};
use lay_box_tree::{BoxNode, is_wrapper};
use lay_placements::{Corner, near_corner};
use lay_units::{Len, NoMemory, Unit};

/// The corner of the border box of this box, counted as its containing block is: its left edge is so far from that of the
/// containing block, and it is so high (CSS 2.2, 10.6.4 and 10.6.5). NoMemory is the answer where it is more than 2^60 units
/// away, and nowhere else.
pub fn absolute_offset(
    setting: &AbsoluteSetting,
    own: &BoxNode,
    left: Unit,
    height: Unit,
) -> Result<Corner, NoMemory>
    requires setting { SettingFits setting.now }
    requires left { IsStart left.0 }
    requires height { IsBoxSize height.0 }
    ensures offset { IfOk result (IsOffset setting.now own.now left height) }
    ensures near { IfOk result IsCornerNear }
    ensures far { IfErr result (λ e. (corner : Corner) → IsOffset setting.now own.now left height corner → IsCornerNear corner → ⊥) }
{
    let corner = corner_inside(setting, own, left, height);
    near_corner(corner.x, corner.y)
}

/// The corner, however far away.
fn corner_inside(setting: &AbsoluteSetting, own: &BoxNode, left: Unit, height: Unit) -> Corner
    requires setting { SettingFits setting.now }
    requires left { IsStart left.0 }
    requires height { IsBoxSize height.0 }
    ensures { IsOffset setting.now own.now left height result }
{
    let axis = axis_of_height(is_wrapper(&own.kind), setting, own, height);
    let top = border_start(&solved(&axis));
    let rect = setting.rect;
    Corner {
        x: moved(rect.x, left),
        y: moved(rect.y, top),
    }
}

/// The equation down, of a box whose border box is so high.
fn axis_of_height(is_table: bool, setting: &AbsoluteSetting, own: &BoxNode, height: Unit) -> Axis
    requires setting { SettingFits setting.now }
    requires height { IsBoxSize height.0 }
    ensures axis { result ≡ axis_of_height is_table setting.now own.now height }
    ensures fits { AxisFits result }
{
    if is_table {
        let block = wrapper_down(setting, &own.style, Len::Of(height));
        return axis_down(setting, &own.style, block, ContentSize::Stands(Unit(0)));
    }
    own_axis_down(
        setting,
        own,
        content_height(block_in(setting), &own.style, height),
    )
}
