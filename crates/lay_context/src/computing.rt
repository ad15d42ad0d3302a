//! The value of a task.

ghost use Rattle.std.specs.Prelude.{◌≡◌, IfOk};
ghost use Rattle.lay_abspos.specs.OwnOffsets.{IsOwnOffset};
ghost use Rattle.lay_context.specs.declared.input.Input.TheVariants.{Measure, Place, PlaceTable, Size};
ghost use Rattle.lay_context.specs.Local.{IsLocal};
ghost use Rattle.lay_context.specs.GivenContents.{AreContentsOf};
ghost use Rattle.lay_context.specs.SharedContents.{asked_by_placement};

use crate::flow_parts::FlowParts;
use crate::input::Input;
use crate::measure_parts::MeasureParts;
use crate::placed_context::PlacedContext;
use crate::table_parts::TableParts;
use crate::value::Value;
use lay_abspos::{StandInput, own_offset};
use lay_box_tree::ContextBoxes;
use lay_context_sizes::{MeasureInput, MeasuredContext, SizeInput, context_sizes, context_widths};
use lay_flow_boxes::{Asked, PlaceInput, contents_of, is_any_asked};
use lay_line_items::InlineContents;
use lay_placement::placement;
use lay_placements::Placement;
use lay_table::table_placement;
use lay_units::NoMemory;
use std::alloc::Global;

/// The preferred widths of a formatting context that is measured.
pub fn value_of_measure(alloc: Global, parts: MeasureParts) -> Result<Value, NoMemory>
    ensures { IfOk result (IsLocal (Measure parts)) }
{
    measured(alloc, &parts.into_input(InlineContents::none()))
}

/// The sizes of a formatting context.
pub fn value_of_size(alloc: Global, input: &SizeInput) -> Result<Value, NoMemory>
    ensures { IfOk result (IsLocal (Size input.now)) }
{
    let _ = input.boxes();
    Ok(Value::Size(context_sizes(alloc, input)?))
}

/// The placement of a formatting context in block flow. The line of each of its anchors is looked up, so the content of these
/// lines is made once before, where a text stands in some.
pub fn value_of_flow(alloc: Global, parts: FlowParts, stand: &StandInput) -> Result<Value, NoMemory>
    ensures { IfOk result (IsLocal (Place parts stand.now)) }
{
    let asked = asked_by_placement(parts.boxes());
    let contents = contents_of(alloc, parts.boxes(), parts.face(), asked)?;
    placed_in_flow(alloc, &parts.into_input(contents), stand)
}

/// For which of these boxes a placement asks more than once.
pub(crate) fn asked_by_placement(boxes: &ContextBoxes) -> Asked
    ensures { result ≡ asked_by_placement boxes.now }
{
    if is_any_asked(boxes.as_slice(), Asked::Texts) {
        Asked::Anchors
    } else {
        Asked::Nothing
    }
}

/// That of a table's.
pub fn value_of_table(
    alloc: Global,
    parts: TableParts,
    stand: &StandInput,
) -> Result<Value, NoMemory>
    ensures { IfOk result (IsLocal (PlaceTable parts stand.now)) }
{
    Ok(Value::Place(placed(table_placement(alloc, &parts.into_input())?, stand)?))
}

/// The value of a task that is given this, where this content of lines is known.
pub(crate) fn compute_with(
    alloc: Global,
    input: Input,
    contents: &InlineContents,
) -> Result<Value, NoMemory>
    requires { AreContentsOf input contents.now }
    ensures { IfOk result (IsLocal input) }
{
    match input {
        Input::Measure(parts) => measured(alloc, &parts.into_input(contents.share()?)),
        Input::Unmeasured => Ok(Value::Measure(MeasuredContext::none())),
        Input::Size(input) => value_of_size(alloc, &input),
        Input::Place(parts, stand) => {
            placed_in_flow(alloc, &parts.into_input(contents.share()?), &stand)
        }
        Input::PlaceTable(parts, stand) => value_of_table(alloc, parts, &stand),
    }
}

fn measured(alloc: Global, input: &MeasureInput) -> Result<Value, NoMemory>
    ensures { IfOk result (IsLocal (Measure input.now)) }
{
    Ok(Value::Measure(context_widths(alloc, input)?))
}

fn placed_in_flow(alloc: Global, input: &PlaceInput, stand: &StandInput) -> Result<Value, NoMemory>
    ensures { IfOk result (IsLocal (Place input.now stand.now)) }
{
    let _ = input.boxes();
    Ok(Value::Place(placed(placement(alloc, input)?, stand)?))
}

/// A placement, with where its formatting context stands itself.
fn placed(placement: Placement, stand: &StandInput) -> Result<PlacedContext, NoMemory>
    ensures placement { IfOk result (λ p. p.placement ≡ placement) }
    ensures offset { IfOk result (λ p. IsOwnOffset stand.now placement.own p.offset) }
{
    let offset = own_offset(stand, &placement)?;
    Ok(PlacedContext::new(placement, offset))
}
