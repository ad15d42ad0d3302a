//! The laws. The functions do nothing.

ghost use Rattle.lay_cell_work.specs.CellLaws.Laws.{OneCellLocal, PresentInputsFit, PresentInputsLeadInward, ValuesStandAtNumbers};
ghost use Rattle.lay_cell_work.specs.CellLaws.SameContexts.{CounterpartsAreOfOneNode, MeasureInputsAreKept};
ghost use Rattle.lay_cell_work.specs.CellLaws.SameContexts.{PlaceInputsAreKept, SizeInputsAreKept};
ghost use Rattle.lay_cell_work.specs.CellLaws.SoundCells.{CleanCellsSolve};
ghost use Rattle.lay_context_sizes.specs.ContextSizes.{SizedContext};
ghost use Rattle.lay_context_sizes.specs.MeasuredContexts.{MeasuredContext};
ghost use Rattle.lay_context.specs.PlacedContexts.{PlacedContext};

use lay_context::{measured_where_shrunk, one_local};
use lay_contexts::{anonymous_boxes_are_in_flow, one_home};
use lay_positioned::{one_nearest_holder, settings_are_values, settings_come_of_ways};

/// Values that are laid end to end stand at the numbers of their formatting contexts.
pub fn values_stand_at_numbers()
    ensures widths { ValuesStandAtNumbers MeasuredContext }
    ensures sizes { ValuesStandAtNumbers SizedContext }
    ensures places { ValuesStandAtNumbers PlacedContext }
{}

/// Beside what it is given a cell has one value, where what its roots give each other goes one way.
pub fn one_cell_local()
    ensures { OneCellLocal }
{
    one_local();
}

/// What cells are given among the contexts of a document goes one way.
pub fn present_inputs_lead_inward()
    ensures { PresentInputsLeadInward }
{}

/// What cells are given among the contexts of a document is what the type of their inputs asks for.
pub fn present_inputs_fit()
    ensures { PresentInputsFit }
{}

/// Where all cells are clean, the tree of the values that they keep is the layout of the document.
pub fn clean_cells_solve()
    ensures { CleanCellsSolve }
{
    anonymous_boxes_are_in_flow();
}

/// To be measured a context is given what it was, where it and what the contexts inside it answered are the same.
pub fn measure_inputs_are_kept()
    ensures { MeasureInputsAreKept }
{
    one_home();
    measured_where_shrunk();
}

/// To be sized a context is given what it was, where it, its preferred widths and what is around it are the same; of an absolutely
/// positioned one all that is on the way out to its containing block.
pub fn size_inputs_are_kept()
    ensures { SizeInputsAreKept }
{
    one_home();
    measured_where_shrunk();
    one_nearest_holder();
    settings_come_of_ways();
    settings_are_values();
}

/// To be placed a context is given what it was, where it, its sizes and what the contexts inside it answered are the same, and of an
/// absolutely positioned one all that is on the way out to its containing block.
pub fn place_inputs_are_kept()
    ensures { PlaceInputsAreKept }
{
    one_home();
    measured_where_shrunk();
    one_nearest_holder();
    settings_come_of_ways();
    settings_are_values();
}

/// At the same box of contexts with the same boxes stand contexts of one node.
pub fn counterparts_are_of_one_node()
    ensures { CounterpartsAreOfOneNode }
{}
