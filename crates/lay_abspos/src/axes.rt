//! What the equations of an absolutely positioned box stand over.

ghost use Rattle.std.specs.Prelude.{◌≡◌};
ghost use Rattle.lay_units.specs.Units.{IsPosition};
ghost use Rattle.lay_style.specs.LengthValues.{size_of};
ghost use Rattle.lay_widths.specs.Lengths.{BlockFits, LenFits, LenIsSize};
ghost use Rattle.lay_abspos.specs.AbsoluteFits.{AxisFits};
ghost use Rattle.lay_abspos.specs.AbsoluteAxes.{axis_across, axis_down, block_across, block_down, content_box_height};
ghost use Rattle.lay_abspos.specs.AbsoluteAxes.{natural_in, wrapper_across, block_without_edges, wrapper_down};
ghost use Rattle.lay_abspos.specs.AbsoluteSettings.{SettingFits};

use crate::lengths::inside;
use crate::setting::AbsoluteSetting;
use crate::{Axis, ContentSize};
use lay_box_tree::BoxKind;
use lay_sizes::{
    ContainingBlock, NaturalSize, block_of, edges_of, height_of, max_height_of, min_height_of,
    replaced_size_of, used_margin, used_size, with_width,
};
use lay_style::{Style, size_of};
use lay_units::{BlockIn, Len, Unit};

/// This block between these offsets, across.
pub(crate) fn axis_across(
    setting: &AbsoluteSetting,
    style: &Style,
    block: BlockIn,
    content: ContentSize,
) -> Axis
    requires setting { SettingFits setting.now }
    requires block { BlockFits block }
    ensures axis { result ≡ axis_across setting.now style.now block content }
    ensures fits { AxisFits result }
{
    let containing = setting.rect.w;
    Axis {
        block,
        left: used_margin(containing, style.offset.left),
        right: used_margin(containing, style.offset.right),
        static_left: setting.static_left,
        content,
    }
}

/// This block between these offsets, down.
pub(crate) fn axis_down(
    setting: &AbsoluteSetting,
    style: &Style,
    block: BlockIn,
    content: ContentSize,
) -> Axis
    requires setting { SettingFits setting.now }
    requires block { BlockFits block }
    ensures axis { result ≡ axis_down setting.now style.now block content }
    ensures fits { AxisFits result }
{
    let containing = setting.rect.h;
    Axis {
        block,
        left: used_margin(containing, style.offset.top),
        right: used_margin(containing, style.offset.bottom),
        static_left: setting.static_top,
        content,
    }
}

/// The natural size of a replaced element.
pub(crate) fn natural_in(kind: &BoxKind) -> Option<NaturalSize>
    ensures { result ≡ natural_in kind.now }
{
    match kind {
        BoxKind::Replaced { w, h, .. } => Some(NaturalSize {
            width: *w,
            height: *h,
        }),
        _ => None,
    }
}

/// Across, of a box that is no table.
pub(crate) fn block_across(
    containing: ContainingBlock,
    natural: Option<NaturalSize>,
    style: &Style,
) -> BlockIn
    requires { IsPosition containing.width.0 }
    ensures block { result ≡ block_across containing natural style.now }
    ensures fits { BlockFits result }
{
    let block = block_of(containing.width, style);
    match natural {
        None => block,
        Some(natural) => with_width(&block, replaced_size_of(containing, natural, style).width),
    }
}

/// And down, in a containing block of this height.
pub(crate) fn block_down(
    containing: ContainingBlock,
    natural: Option<NaturalSize>,
    style: &Style,
    height: Unit,
) -> BlockIn
    requires width { IsPosition containing.width.0 }
    requires height { IsPosition height.0 }
    ensures block { result ≡ block_down containing natural style.now height }
    ensures fits { BlockFits result }
{
    let width = containing.width;
    BlockIn {
        containing_width: height,
        margin_left: used_margin(width, style.margin.top),
        border_left: size_of(style.border.width.top),
        padding_left: used_size(width, style.padding.top),
        width: height_of(containing, natural, style),
        padding_right: used_size(width, style.padding.bottom),
        border_right: size_of(style.border.width.bottom),
        margin_right: used_margin(width, style.margin.bottom),
        min_width: min_height_of(containing, natural, style),
        max_width: max_height_of(containing, natural, style),
    }
}

/// The height of the content of a border box that is so high.
pub(crate) fn content_height(containing: ContainingBlock, style: &Style, height: Unit) -> Unit
    requires { IsPosition height.0 }
    ensures { result ≡ content_box_height containing style.now height }
{
    let edges = edges_of(containing.width, style);
    inside(height, edges.top, edges.bottom)
}

/// The wrapper of a table, across.
pub(crate) fn wrapper_across(setting: &AbsoluteSetting, style: &Style, width: Len) -> BlockIn
    requires setting { SettingFits setting.now }
    requires width { LenIsSize width }
    ensures block { result ≡ wrapper_across setting.now style.now width }
    ensures fits { BlockFits result }
{
    let containing = setting.rect.w;
    wrapper_block(
        containing,
        used_margin(containing, style.margin.left),
        width,
        used_margin(containing, style.margin.right),
    )
}

/// And down.
pub(crate) fn wrapper_down(setting: &AbsoluteSetting, style: &Style, height: Len) -> BlockIn
    requires setting { SettingFits setting.now }
    requires height { LenIsSize height }
    ensures block { result ≡ wrapper_down setting.now style.now height }
    ensures fits { BlockFits result }
{
    let containing = setting.rect.w;
    wrapper_block(
        setting.rect.h,
        used_margin(containing, style.margin.top),
        height,
        used_margin(containing, style.margin.bottom),
    )
}

/// A box without borders and paddings, between these margins.
fn wrapper_block(containing: Unit, before: Len, size: Len, after: Len) -> BlockIn
    requires containing { IsPosition containing.0 }
    requires before { LenFits before }
    requires size { LenIsSize size }
    requires after { LenFits after }
    ensures block { result ≡ block_without_edges containing before size after }
    ensures fits { BlockFits result }
{
    BlockIn {
        containing_width: containing,
        margin_left: before,
        border_left: Unit(0),
        padding_left: Unit(0),
        width: size,
        padding_right: Unit(0),
        border_right: Unit(0),
        margin_right: after,
        min_width: Unit(0),
        max_width: None,
    }
}
