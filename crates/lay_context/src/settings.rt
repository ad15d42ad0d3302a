//! In which setting the own boxes of formatting contexts are sized.

ghost use Rattle.std.specs.Prelude.{◌≡◌, ◌<◌, false, length, IfOk};
ghost use Rattle.lay_sizes.specs.SizeBounds.{SizeFits};
ghost use Rattle.lay_sizes.specs.SizeColumns.{sizes_at};
ghost use Rattle.lay_positioned.specs.Absolute.{is_absolute};
ghost use Rattle.lay_positioned.specs.Settings.{absolute_setting};
ghost use Rattle.lay_abspos.specs.AbsoluteSettings.{SettingFits};
ghost use Rattle.lay_context_sizes.specs.Inputs.{OwnSettingFits};
ghost use Rattle.lay_abspos.specs.StandInputs.{OwnPlaceFits};
ghost use Rattle.lay_context.specs.Settings.{caption_block, cell_given, given_cell_size, flow_setting, laid};
ghost use Rattle.lay_context.specs.Settings.{own_place_of, setting_as, setting_in, setting_in_table, setting_of};

use crate::known_context::{KnownContext, ReadyToSize};
use crate::medium::Medium;
use crate::values::Values;
use lay_abspos::{AbsoluteSetting, OwnPlace};
use lay_box_tree::ContextBoxes;
use lay_context_sizes::{Setting, SizedContext};
use lay_placements::{ContextSizes, block_around};
use lay_positioned::{is_absolute, setting};
use lay_sizes::{BoxSizes, ContainingBlock, NO_SIZES, content_block};
use lay_table_sizes::{CellSize, TableSizes};
use lay_units::{Len, NoMemory};

/// The setting of the own box of a formatting context. NoMemory is the answer where formatting contexts on the way to its
/// containing block are more than 2^60 units from another, which they are in no document within the limits.
pub(crate) fn setting_of<V: Values>(
    medium: &Medium,
    ready: &ReadyToSize<'_, V>,
) -> Result<Setting, NoMemory>
    ensures setting { IfOk result
        (λ s. s ≡ setting_of medium.now.viewport ready.now.at.contexts.now (V.workings ready.now.at.known.now) ready.now.at.number) }
    ensures fits { IfOk result OwnSettingFits }
{
    if is_absolute(ready.at.contexts, ready.at.number) {
        return Ok(Setting::Absolute(absolute_setting(medium, &ready.at)?));
    }
    Ok(flow_setting(medium, ready))
}

/// What says where a formatting context stands. NoMemory is the answer as for its setting.
pub(crate) fn own_place_of<V: Values>(
    medium: &Medium,
    at: &KnownContext<'_, V>,
) -> Result<OwnPlace, NoMemory>
    ensures position { IfOk result
        (λ p. p ≡ own_place_of medium.now.viewport at.now.contexts.now (V.workings at.now.known.now) at.now.number) }
    ensures fits { IfOk result OwnPlaceFits }
{
    if is_absolute(at.contexts, at.number) {
        return Ok(OwnPlace::Absolute(absolute_setting(medium, at)?));
    }
    if at.number == 0 {
        return Ok(OwnPlace::Root(medium.viewport()));
    }
    Ok(OwnPlace::Inner)
}

/// What an absolutely positioned one is given.
fn absolute_setting<V: Values>(
    medium: &Medium,
    at: &KnownContext<'_, V>,
) -> Result<AbsoluteSetting, NoMemory>
    ensures setting { IfOk result
        (λ s. s ≡ absolute_setting medium.now.viewport at.now.contexts.now (laid (V.workings at.now.known.now)) at.now.number) }
    ensures fits { IfOk result SettingFits }
{
    setting(medium.viewport(), at.contexts, at, at.number)
}

/// The setting of the own box of a formatting context in flow or floating.
fn flow_setting<V: Values>(medium: &Medium, ready: &ReadyToSize<'_, V>) -> Setting
    requires flow { is_absolute ready.now.at.contexts.now ready.now.at.number ≡ false }
    ensures setting { result
        ≡ flow_setting medium.now.viewport ready.now.at.contexts.now (V.workings ready.now.at.known.now).sizes ready.now.at.number }
    ensures fits { OwnSettingFits result }
{
    let at = &ready.at;
    if at.number == 0 {
        return Setting::Block(medium.viewport());
    }
    let context = at.formatting_context();
    let boxes = at.contexts.at(context.outer()).boxes();
    let sized = at.known.sizes(context.outer());
    setting_in(boxes, sized, context.outer_box())
}

/// What a formatting context is given as a cell.
pub(crate) fn cell_of<V: Values>(at: &KnownContext<'_, V>) -> Option<CellSize>
    ensures { result ≡ given_cell_size at.now.contexts.now (V.workings at.now.known.now).sizes at.now.number }
{
    let context = at.formatting_context();
    if at.number > 0 {
        return cell_given(at.known.sizes(context.outer()).table(), context.outer_box());
    }
    None
}

/// What the cell with the box at k is given, where that is a box of a table.
fn cell_given(table: &Option<TableSizes>, k: usize) -> Option<CellSize>
    ensures { result ≡ cell_given table.now k }
{
    match table {
        Some(table) => table.cell(k),
        None => None,
    }
}

/// The setting of the box at k among these, which have these sizes.
pub fn setting_in(boxes: &ContextBoxes, sized: &SizedContext, k: usize) -> Setting
    requires place { k < length boxes.now }
    requires known { length sized.now.boxes ≡ length boxes.now }
    ensures setting { result ≡ setting_in boxes.now sized.now k }
    ensures fits { OwnSettingFits result }
{
    setting_as(boxes, sized.boxes(), sized.table(), k)
}

fn setting_as(
    boxes: &ContextBoxes,
    sizes: &ContextSizes,
    table: &Option<TableSizes>,
    k: usize,
) -> Setting
    requires place { k < length boxes.now }
    requires known { length sizes.now ≡ length boxes.now }
    ensures setting { result ≡ setting_as boxes.now sizes.now table.now k }
    ensures fits { OwnSettingFits result }
{
    let _ = boxes.as_slice();
    match table {
        None => Setting::Block(block_around(boxes, sizes.as_slice(), k)),
        Some(table) => setting_in_table(sizes, table, table.cell(k)),
    }
}

/// The setting of a box in a table, where this is what a cell is given.
fn setting_in_table(sizes: &ContextSizes, table: &TableSizes, cell: Option<CellSize>) -> Setting
    ensures setting { result ≡ setting_in_table sizes.now table.now cell }
    ensures fits { OwnSettingFits result }
{
    match cell {
        Some(cell) => Setting::Cell {
            containing: content_block(&sizes_or_none(sizes, table.grid().table())),
            cell,
        },
        None => Setting::Block(caption_block(sizes_or_none(sizes, 0))),
    }
}

/// The wrapper of these sizes, as the containing block of its captions.
fn caption_block(wrapper: BoxSizes) -> ContainingBlock
    ensures { result ≡ caption_block wrapper }
{
    ContainingBlock {
        width: wrapper.widths.width,
        height: Len::Auto,
    }
}

/// The sizes of the box at k, or none past the end.
fn sizes_or_none(sizes: &ContextSizes, k: usize) -> BoxSizes
    ensures sizes { result ≡ sizes_at sizes.now k }
    ensures fits { SizeFits result }
{
    let column = sizes.as_slice();
    if k < column.len() {
        return column[k];
    }
    NO_SIZES
}
