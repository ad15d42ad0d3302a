//! The used sizes of absolutely positioned boxes.

ghost use Rattle.std.specs.Prelude.{◌≡◌, IfSome};
ghost use Rattle.lay_units.specs.Units.{IsUsedSize};
ghost use Rattle.lay_abspos.specs.AbsoluteAxis.{IsUsedAxis};
ghost use Rattle.lay_abspos.specs.AbsoluteFits.{AxisFits};
ghost use Rattle.lay_sizes.specs.BoxSizes.{natural_of};
ghost use Rattle.lay_sizes.specs.SizeBounds.{SizeFits};
ghost use Rattle.lay_abspos.specs.AbsoluteSizes.{IsAbsoluteSized, IsStretchedHeight, border_start};
ghost use Rattle.lay_abspos.specs.AbsoluteSizes.{is_auto_len, is_stretched, own_axis_across, own_axis_down, widths_in};
ghost use Rattle.lay_abspos.specs.OffsetBounds.{AbsOutFits, IsStart};
ghost use Rattle.lay_abspos.specs.AbsoluteSettings.{SettingFits};

use crate::axes::{axis_across, axis_down, block_across, block_down, natural_in};
use crate::setting::{AbsoluteSetting, block_in};
use crate::{Axis, ContentSize, solve_absolute};
use lay_box_tree::{BoxNode, is_wrapper};
use lay_sizes::{BoxSizes, NaturalSize, WidthRule, box_sizes, height_of, used_margin};
use lay_units::{AbsOut, Len, Unit};
use lay_widths::BlockOut;

/// The used sizes of an absolutely positioned box, and how far its left border edge is from the left edge of its containing
/// block, in 1/64 px.
#[derive(Clone, Copy)]
pub struct AbsoluteSizes {
    pub sizes: BoxSizes,
    pub left: Unit,
}

/// The used sizes of this box, which is no table, in its setting (CSS 2.2, 10.3.7 and 10.3.8). The preferred widths of its
/// content are within 2^63 units of 0.
pub fn absolute_sizes(
    setting: &AbsoluteSetting,
    own: &BoxNode,
    preferred_minimum: Unit,
    preferred: Unit,
) -> AbsoluteSizes
    requires { SettingFits setting.now }
    ensures sized { IsAbsoluteSized setting.now own.now preferred_minimum preferred result.sizes result.left }
    ensures fits { SizeFits result.sizes }
    ensures left { IsStart result.left.0 }
{
    let natural = natural_in(&own.kind);
    let rule = width_rule(natural, preferred_minimum, preferred);
    let other = box_sizes(block_in(setting), rule, &own.style);
    let axis = own_axis_across(setting, own, preferred_minimum, preferred);
    let out = solved(&axis);
    AbsoluteSizes {
        sizes: BoxSizes {
            containing: other.containing,
            widths: widths_in(&out),
            edges: other.edges,
            margin_top: other.margin_top,
            margin_bottom: other.margin_bottom,
            height: other.height,
            min_height: other.min_height,
            max_height: other.max_height,
        },
        left: border_start(&out),
    }
}

/// A rule of widths for what has this natural size, or these preferred widths.
fn width_rule(natural: Option<NaturalSize>, preferred_minimum: Unit, preferred: Unit) -> WidthRule
    ensures { natural_of result ≡ natural }
{
    match natural {
        Some(natural) => WidthRule::Replaced(natural),
        None => WidthRule::ShrinksToFit {
            preferred_minimum,
            preferred,
        },
    }
}

/// The equation across.
fn own_axis_across(
    setting: &AbsoluteSetting,
    own: &BoxNode,
    preferred_minimum: Unit,
    preferred: Unit,
) -> Axis
    requires { SettingFits setting.now }
    ensures axis { result ≡ own_axis_across setting.now own.now preferred_minimum preferred }
    ensures fits { AxisFits result }
{
    let block = block_across(block_in(setting), natural_in(&own.kind), &own.style);
    axis_across(
        setting,
        &own.style,
        block,
        ContentSize::Shrinks(preferred_minimum, preferred),
    )
}

/// The equation down, of a box whose content is so high.
pub(crate) fn own_axis_down(setting: &AbsoluteSetting, own: &BoxNode, height: Unit) -> Axis
    requires { SettingFits setting.now }
    ensures axis { result ≡ own_axis_down setting.now own.now height }
    ensures fits { AxisFits result }
{
    let natural = natural_in(&own.kind);
    let block = block_down(block_in(setting), natural, &own.style, setting.rect.h);
    axis_down(setting, &own.style, block, ContentSize::Stands(height))
}

/// The offsets, margins and size along an axis.
pub(crate) fn solved(axis: &Axis) -> AbsOut
    requires { AxisFits axis.now }
    ensures used { IsUsedAxis axis.now result }
    ensures fits { AbsOutFits result }
{
    solve_absolute(axis)
}

fn widths_in(out: &AbsOut) -> BlockOut
    ensures { result ≡ widths_in out.now }
{
    BlockOut {
        margin_left: out.margin_left,
        width: out.width,
        margin_right: out.margin_right,
    }
}

/// From the edge of a containing block to that of a border box.
pub(crate) fn border_start(out: &AbsOut) -> Unit
    requires { AbsOutFits out.now }
    ensures value { result ≡ border_start out.now }
    ensures near { IsStart result.0 }
{
    Unit(out.left.0 + out.margin_left.0)
}

/// The height of the content of this box, where it is that between `top` and `bottom` (10.6.4).
pub fn stretched_height(setting: &AbsoluteSetting, own: &BoxNode) -> Option<Unit>
    requires { SettingFits setting.now }
    ensures height { IsStretchedHeight setting.now own.now result }
    ensures size { IfSome result (λ h. IsUsedSize h.0) }
{
    if !is_stretched(setting, own) {
        return None;
    }
    let out = solved(&own_axis_down(setting, own, Unit(0)));
    Some(out.width)
}

/// Whether it is. No table takes it.
fn is_stretched(setting: &AbsoluteSetting, own: &BoxNode) -> bool
    requires { SettingFits setting.now }
    ensures { result ≡ is_stretched setting.now own.now }
{
    let containing = setting.rect.h;
    let height = height_of(block_in(setting), natural_in(&own.kind), &own.style);
    !is_wrapper(&own.kind)
        && is_auto(height)
        && !is_auto(used_margin(containing, own.style.offset.top))
        && !is_auto(used_margin(containing, own.style.offset.bottom))
}

fn is_auto(length: Len) -> bool
    ensures { result ≡ is_auto_len length }
{
    matches!(length, Len::Auto)
}
