//! The laws of the definitions: each column has one value.

ghost use Rattle.lay_flow.specs.Blocks.Laws.{AdjoiningRuns, CollapsedThrough, OneBlockLayout, OneContextFlow};
ghost use Rattle.lay_flow.specs.Blocks.Laws.{OneFlowOf, OneHypothetical, SomeBlockLayout, SomeHypothetical, OneTest};
ghost use Rattle.lay_flow.specs.Blocks.Laws.{SomeContextFlow, SomeFlowByClearances, SomeFlowOf};

use lay_lines::some_lines;

/// The layout of a context's blocks is the only one, where the boxes with clearance and their clear edges are given.
pub fn one_block_layout()
    ensures { OneBlockLayout }
{}

/// The blocks of a context have a layout, whichever boxes have clearance.
pub fn some_block_layout()
    ensures { SomeBlockLayout }
{}

/// A context has a flow, whichever boxes have clearance and wherever their clear edges are.
pub fn some_flow_by_clearances()
    ensures { SomeFlowByClearances }
{
    some_lines();
}

/// The boxes of a context have a flow.
pub fn some_context_flow()
    ensures { SomeContextFlow }
{
    some_flow_by_clearances();
}

/// The boxes of a context have places.
pub fn some_flow_of()
    ensures { SomeFlowOf }
{
    some_context_flow();
}

/// The flow of a context is the only one.
pub fn one_context_flow()
    ensures { OneContextFlow }
{}

/// The places of a context's boxes are the only ones that meet their definition.
pub fn one_flow_of()
    ensures { OneFlowOf }
{}

/// The hypothetical layout of a box is the only one.
pub fn one_hypothetical()
    ensures { OneHypothetical }
{}

/// Each box has a hypothetical layout.
pub fn some_hypothetical()
    ensures { SomeHypothetical }
{}

/// Floats as they stand without a box's clearance and as they stand at last decide alike whether it has clearance.
pub fn one_test()
    ensures { OneTest }
{}

/// The runs of a layout are the longest chains of margins of which each adjoins the next (CSS 2.2, 8.3.1).
pub fn adjoining_runs()
    ensures { AdjoiningRuns }
{}

/// A box is collapsed through just where its children are, and nothing of its own parts its margins
/// (CSS 2.2, 8.3.1).
pub fn collapsed_through()
    ensures { CollapsedThrough }
{}
