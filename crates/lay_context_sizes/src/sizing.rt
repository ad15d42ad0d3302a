//! The used sizes of one formatting context.

ghost use Rattle.std.specs.Prelude.{◌≡◌, ◌<◌, true, IfOk};
ghost use Rattle.lay_sizes.specs.SizeBounds.{SizeFits};
ghost use Rattle.lay_sizes.specs.SizeColumns.{HaveSizeBounds, sizes_at};
ghost use Rattle.lay_abspos.specs.OffsetBounds.{IsStart};
ghost use Rattle.lay_context_sizes.specs.ContextSizes.{HasSizes, IsStretchedIn, IsWrapperLeft, table_rule_as};
ghost use Rattle.lay_context_sizes.specs.Inputs.{OwnSettingFits};
ghost use Rattle.lay_context_sizes.specs.ContextSizes.{IsStretchedSize};
ghost use Rattle.lay_context_sizes.specs.TableContexts.{is_table};

use crate::flow_sizes::flow_sizes;
use crate::inputs::SizeInput;
use crate::setting::Setting;
use crate::sized_context::SizedContext;
use crate::table_contexts::is_table;
use lay_abspos::{stretched_height, table_left};
use lay_box_tree::{BoxKind, BoxNode, Flow};
use lay_placements::ContextSizes;
use lay_sizes::{BoxSizes, NO_SIZES};
use lay_table_sizes::{SizedTable, TableRule, table_sizes};
use lay_units::{NoMemory, Unit};
use std::alloc::Global;

/// The used sizes of a formatting context.
pub fn context_sizes(alloc: Global, input: &SizeInput) -> Result<SizedContext, NoMemory>
    ensures { IfOk result (HasSizes input.now) }
{
    if is_table(input.boxes()) {
        return sized_table(alloc, input);
    }
    let flow = flow_sizes(alloc, input)?;
    let stretched = stretched_in(input.setting(), input.own());
    Ok(SizedContext::new(flow.sizes, None, flow.left, stretched))
}

/// Those of a table.
fn sized_table(alloc: Global, input: &SizeInput) -> Result<SizedContext, NoMemory>
    requires { is_table input.now.boxes ≡ true }
    ensures { IfOk result (HasSizes input.now) }
{
    let boxes = input.boxes();
    let setting = input.setting();
    let rule = table_rule(input.own());
    let bounds = input.measured().table();
    let sized = table_sizes(alloc, boxes, setting.containing(), rule, bounds)?;
    let sizes = ContextSizes::new(alloc, sized.boxes)?;
    let left = wrapper_left(setting, input.own(), sizes_at(sizes.as_slice(), 0));
    let stretched = stretched_in(setting, input.own());
    Ok(SizedContext::new(sizes, Some(sized.table), left, stretched))
}

/// Where the wrapper of a table stands across, which has these sizes.
fn wrapper_left(setting: Setting, own: &BoxNode, sizes: BoxSizes) -> Unit
    requires setting { OwnSettingFits setting }
    requires sizes { SizeFits sizes }
    ensures left { IsWrapperLeft setting own.now sizes result }
    ensures near { IsStart result.0 }
{
    match setting {
        Setting::Absolute(setting) => table_left(&setting, &own.style, sizes.widths.width),
        Setting::Block(_) | Setting::Cell { .. } => Unit(0),
    }
}

/// The height of the content of the own box, where it is stretched.
fn stretched_in(setting: Setting, own: &BoxNode) -> Option<Unit>
    requires { OwnSettingFits setting }
    ensures height { IsStretchedIn setting own.now result }
    ensures size { IsStretchedSize result }
{
    match setting {
        Setting::Absolute(setting) => stretched_height(&setting, own),
        Setting::Block(_) | Setting::Cell { .. } => None,
    }
}

/// The sizes of the box at k, or none past the end.
fn sizes_at(sizes: &[BoxSizes], k: usize) -> BoxSizes
    requires bounds { HaveSizeBounds sizes.now }
    ensures sizes { result ≡ sizes_at sizes.now k }
    ensures fits { SizeFits result }
{
    match sizes.get(k) {
        Some(found) => *found,
        None => NO_SIZES,
    }
}

/// Which rule gives a table with this wrapper its margins.
fn table_rule(own: &BoxNode) -> TableRule
    ensures { result ≡ table_rule_as own.now.flow own.now.kind }
{
    match (own.flow, &own.kind) {
        (Flow::InFlow, BoxKind::Wrapper) => TableRule::Block,
        _ => TableRule::ShrinkToFit,
    }
}
