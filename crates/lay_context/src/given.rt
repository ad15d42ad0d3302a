//! What a task is given, from the values of the tasks that it needs.

ghost use Rattle.std.specs.Prelude.{◌≡◌, ◌<◌, Some, IfOk, length, slice_index};
ghost use Rattle.lay_sizes.specs.OwnBoxes.{OwnBoxFits, OwnBoxesFit};
ghost use Rattle.lay_placements.specs.InnerPieces.{AreNearInnerPieces, pieces_or_none};
ghost use Rattle.lay_placements.specs.NearPieces.{AreNearPieces};
ghost use Rattle.lay_contexts.specs.FormattingContexts.{formatting_context_at};
ghost use Rattle.lay_context.specs.DocumentLayout.{flow_number, inner_boxes, inner_pieces, inner_widths};
ghost use Rattle.lay_context.specs.DocumentLayout.{inner_widths_in, own_box_in, pieces_in};
ghost use Rattle.lay_context.specs.Local.{flow_input, input_of, measure_as, measure_input};
ghost use Rattle.lay_context.specs.Local.{place_input, size_input, stand_input, table_input};
ghost use Rattle.lay_context.specs.Settings.{sizes_in};
ghost use Rattle.lay_context.specs.Settling.{IsReady};

use crate::flow_parts::FlowParts;
use crate::formatted_document::FormattedDocument;
use crate::input::Input;
use crate::known_context::{KnownContext, ReadyToPlace, ReadyToSize};
use crate::measure_parts::MeasureParts;
use crate::medium::Medium;
use crate::own_heights::own_height_rule;
use crate::settings::{own_place_of, setting_of};
use crate::shared_pieces::SharedPieces;
use crate::table_parts::TableParts;
use crate::task::{Phase, Task};
use crate::values::Values;
use lay_abspos::StandInput;
use lay_context_sizes::SizeInput;
use lay_contexts::FormattingContexts;
use lay_frag::Pieces;
use lay_measure::{NO_WIDTHS, PreferredWidths};
use lay_placements::OwnBoxes;
use lay_positioned::is_absolute;
use lay_sizes::{NO_OWN_BOX, OwnBox};
use lay_table_sizes::TableSizes;
use lay_units::NoMemory;
use std::alloc::Global;
use std::sync::Arc;

/// What a task is given, where the values that it needs are known.
pub fn input_of<V: Values>(
    alloc: Global,
    document: &FormattedDocument<'_>,
    known: &V,
    task: Task,
) -> Result<Input, NoMemory>
    requires ready { IsReady document.now.contexts.now (V.workings known.now) task }
    ensures { IfOk result (λ i. i ≡ input_of document.now.medium.now document.now.contexts.now (V.workings known.now) task) }
{
    let medium = document.medium;
    let at = KnownContext {
        contexts: document.contexts,
        known,
        number: task.context,
    };
    match task.phase {
        Phase::Measure => {
            let is_measured = document.is_measured(task.context);
            measure_as(alloc, medium, is_measured, &at)
        }
        Phase::Size => Ok(Input::Size(size_input(medium, &ReadyToSize { at })?)),
        Phase::Place => place_input(alloc, medium, &ReadyToPlace { at }),
    }
}

/// What the preferred widths of a formatting context are worked out of, where they count.
fn measure_as<V: Values>(
    alloc: Global,
    medium: &Medium,
    is_measured: bool,
    at: &KnownContext<'_, V>,
) -> Result<Input, NoMemory>
    ensures { IfOk result
        (λ v. v ≡ measure_as is_measured (measure_input medium.now at.now.contexts.now (V.workings at.now.known.now) at.now.number)) }
{
    if is_measured {
        Ok(Input::Measure(measure_input(alloc, medium, at)?))
    } else {
        Ok(Input::Unmeasured)
    }
}

fn measure_input<V: Values>(
    alloc: Global,
    medium: &Medium,
    at: &KnownContext<'_, V>,
) -> Result<MeasureParts, NoMemory>
    ensures { IfOk result (λ v. v ≡ measure_input medium.now at.now.contexts.now (V.workings at.now.known.now) at.now.number) }
{
    let boxes = at.formatting_context().boxes().share()?;
    let inner = inner_widths(alloc, at)?;
    let face = medium.face()?;
    Ok(MeasureParts::new(boxes, inner, face))
}

fn size_input<V: Values>(medium: &Medium, ready: &ReadyToSize<'_, V>) -> Result<SizeInput, NoMemory>
    ensures { IfOk result
        (λ v. v ≡ size_input medium.now ready.now.at.contexts.now (V.workings ready.now.at.known.now) ready.now.at.number) }
{
    let at = &ready.at;
    let boxes = at.formatting_context().boxes().share()?;
    let setting = setting_of(medium, ready)?;
    let measured = at.known.widths(at.number).share()?;
    Ok(SizeInput::new(boxes, measured, setting))
}

fn place_input<V: Values>(
    alloc: Global,
    medium: &Medium,
    ready: &ReadyToPlace<'_, V>,
) -> Result<Input, NoMemory>
    ensures { IfOk result
        (λ v. v ≡ place_input medium.now ready.now.at.contexts.now (V.workings ready.now.at.known.now) ready.now.at.number) }
{
    let stand = stand_input(medium, ready)?;
    match ready.at.known.sizes(ready.at.number).shared_table()? {
        Some(table) => {
            let table = table_input(alloc, ready, table)?;
            Ok(Input::PlaceTable(table, stand))
        }
        None => {
            let flow = flow_input(alloc, medium, ready)?;
            Ok(Input::Place(flow, stand))
        }
    }
}

/// What says where the formatting context stands itself.
fn stand_input<V: Values>(
    medium: &Medium,
    ready: &ReadyToPlace<'_, V>,
) -> Result<StandInput, NoMemory>
    ensures { IfOk result
        (λ v. v ≡ stand_input medium.now ready.now.at.contexts.now (V.workings ready.now.at.known.now) ready.now.at.number) }
{
    let at = &ready.at;
    let boxes = at.formatting_context().boxes().share()?;
    let sized = at.known.sizes(at.number);
    let sizes = sized.boxes().share()?;
    let _ = sizes.as_slice();
    let position = own_place_of(medium, at)?;
    Ok(StandInput::new(boxes, sizes, sized.left(), position))
}

/// What the placement of a table is given.
fn table_input<V: Values>(
    alloc: Global,
    ready: &ReadyToPlace<'_, V>,
    table: TableSizes,
) -> Result<TableParts, NoMemory>
    requires table { (sizes_in (V.workings ready.now.at.known.now).sizes ready.now.at.number).table ≡ Some table }
    ensures { IfOk result (λ v. v ≡ table_input ready.now.at.contexts.now (V.workings ready.now.at.known.now) ready.now.at.number table) }
{
    let at = &ready.at;
    let boxes = at.formatting_context().boxes().share()?;
    let sizes = at.known.sizes(at.number).boxes().share()?;
    let _ = sizes.as_slice();
    let inner = inner_boxes(alloc, at)?;
    let pieces = inner_pieces(alloc, at)?;
    Ok(TableParts::new(boxes, sizes, table, inner, pieces))
}

/// What the placement of boxes in block flow is given.
fn flow_input<V: Values>(
    alloc: Global,
    medium: &Medium,
    ready: &ReadyToPlace<'_, V>,
) -> Result<FlowParts, NoMemory>
    ensures { IfOk result
        (λ v. v ≡ flow_input medium.now ready.now.at.contexts.now (V.workings ready.now.at.known.now) ready.now.at.number) }
{
    let at = &ready.at;
    let boxes = at.formatting_context().boxes().share()?;
    let sized = at.known.sizes(at.number);
    let sizes = sized.boxes().share()?;
    let _ = sizes.as_slice();
    let inner = inner_boxes(alloc, at)?;
    let pieces = inner_pieces(alloc, at)?;
    let own_height = own_height_rule(&boxes, sized);
    let face = medium.face()?;
    let flow = FlowParts::new(boxes, sizes, inner, pieces, face);
    Ok(flow.with_own_height(own_height))
}

/// The formatting context in flow or floating whose box the one at k is; where there is none, that with the number 0.
fn inner_at<'a, V: Values>(at: &KnownContext<'a, V>, k: usize) -> KnownContext<'a, V>
    requires { k < length (formatting_context_at at.now.contexts.now at.now.number).inner }
    ensures contexts { result.contexts.now ≡ at.now.contexts.now }
    ensures known { result.known.now ≡ at.now.known.now }
    ensures number { result.number
        ≡ flow_number at.now.contexts.now (slice_index (formatting_context_at at.now.contexts.now at.now.number).inner k) }
{
    let inner = at.formatting_context().inner();
    let number = flow_number(at.contexts, inner[k]);
    KnownContext {
        contexts: at.contexts,
        known: at.known,
        number,
    }
}

/// The number of a formatting context in flow or floating; of another one 0.
fn flow_number(contexts: &FormattingContexts, number: usize) -> usize
    requires { number < length contexts.now }
    ensures number { result ≡ flow_number contexts.now number }
    ensures within { result < length contexts.now }
{
    if is_absolute(contexts, number) {
        return 0;
    }
    number
}

/// The preferred widths of the formatting contexts inside this one.
fn inner_widths<V: Values>(
    alloc: Global,
    at: &KnownContext<'_, V>,
) -> Result<Vec<PreferredWidths>, NoMemory>
    ensures { IfOk result (λ v. v.items ≡ inner_widths at.now.contexts.now (V.workings at.now.known.now).widths at.now.number) }
{
    let count = at.formatting_context().inner().len();
    let mut widths = Vec::with_capacity(alloc, count)?;
    for k in 0..count {
        widths.push(inner_widths_in(&inner_at(at, k)))?;
    }
    Ok(widths)
}

/// The preferred widths of this one, where 0 stands for none.
fn inner_widths_in<V: Values>(at: &KnownContext<'_, V>) -> PreferredWidths
    ensures { result ≡ inner_widths_in (V.workings at.now.known.now).widths at.now.number }
{
    if at.number == 0 {
        return NO_WIDTHS;
    }
    at.known.widths(at.number).widths()
}

/// The own boxes of the formatting contexts inside this one.
fn inner_boxes<V: Values>(alloc: Global, at: &KnownContext<'_, V>) -> Result<OwnBoxes, NoMemory>
    ensures boxes { IfOk result (λ b. b ≡ inner_boxes at.now.contexts.now (V.workings at.now.known.now).places at.now.number) }
    ensures fit { IfOk result OwnBoxesFit }
{
    let count = at.formatting_context().inner().len();
    let mut boxes = Vec::with_capacity(alloc, count)?;
    for k in 0..count {
        boxes.push(own_box_in(&inner_at(at, k)))?;
    }
    Ok(OwnBoxes::new(boxes))
}

/// The own box of this one, where 0 stands for none.
fn own_box_in<V: Values>(at: &KnownContext<'_, V>) -> OwnBox
    ensures value { result ≡ own_box_in (V.workings at.now.known.now).places at.now.number }
    ensures fits { OwnBoxFits result }
{
    if at.number == 0 {
        return NO_OWN_BOX;
    }
    at.known.placed(at.number).placement().own()
}

/// The pieces of those of the formatting contexts inside this one that are anonymous.
fn inner_pieces<V: Values>(
    alloc: Global,
    at: &KnownContext<'_, V>,
) -> Result<SharedPieces, NoMemory>
    ensures pieces { IfOk result (λ p. p ≡ inner_pieces at.now.contexts.now (V.workings at.now.known.now).places at.now.number) }
    ensures near { IfOk result AreNearInnerPieces }
{
    let count = at.formatting_context().inner().len();
    let mut pieces = Vec::with_capacity(alloc, count)?;
    for k in 0..count {
        pieces.push(pieces_in(&inner_at(at, k))?)?;
    }
    Ok(SharedPieces::new(pieces))
}

/// The pieces of this one where it is anonymous, and 0 stands for none.
fn pieces_in<V: Values>(at: &KnownContext<'_, V>) -> Result<Option<Arc<Pieces>>, NoMemory>
    ensures pieces { IfOk result
        (λ p. pieces_or_none p ≡ pieces_in at.now.contexts.now (V.workings at.now.known.now).places at.now.number) }
    ensures near { IfOk result (λ p. AreNearPieces (pieces_or_none p)) }
{
    if at.number == 0 || !at.formatting_context().is_anonymous() {
        return Ok(None);
    }
    Ok(Some(at.known.placed(at.number).placement().pieces()?))
}
