//! The laws of the definitions: a task has one value and needs what the table says, so that a document has one
//! layout.

ghost use Rattle.lay_context.specs.Laws.{AbsoluteBoxesStandInContainingBlocks, InputsComeOfNeeds, MeasuredGoesInward};
ghost use Rattle.lay_context.specs.Laws.{MeasuredWhereShrunk, MeasuringAllChangesNoTree, NeedsComeFirst, OneLocal, OnePageCorners};
ghost use Rattle.lay_context.specs.Laws.{LayoutsAreShort, OneSolution};
ghost use Rattle.lay_context.specs.SomeLayouts.{SomeLayout, SomeLocal, SomePageCorners, SomeTree};

use lay_context_sizes::{
    one_context_sizes, one_context_widths, some_context_sizes, some_context_widths,
    widths_count_where_shrunk,
};
use lay_contexts::{formatting_contexts_stand_in_order, one_formatting_context_list};
use lay_placement::{one_placement, some_placement};
use lay_table::{one_table_placement, some_table_placement};
use lay_table_grid::grids_are_of_boxes;

/// Beside what it is given a task has one value.
pub fn one_local()
    ensures { OneLocal }
{
    one_context_widths();
    one_context_sizes();
    one_placement();
    one_table_placement();
}

/// Where the values that a task needs are equal, it is given the same, also among other formatting contexts that are alike for it.
pub fn inputs_come_of_needs()
    ensures { InputsComeOfNeeds }
{}

/// A formatting context is measured just where its own box or one around it may shrink to fit.
pub fn measured_where_shrunk()
    ensures { MeasuredWhereShrunk }
{}

/// What is inside a formatting context that is measured is measured too.
pub fn measured_goes_inward()
    ensures { MeasuredGoesInward }
{}

/// To work out the preferred widths of each formatting context, also where they don't count, changes no tree.
pub fn measuring_all_changes_no_tree()
    ensures { MeasuringAllChangesNoTree }
{
    one_context_widths();
    one_context_sizes();
    one_placement();
    one_table_placement();
    widths_count_where_shrunk();
    formatting_contexts_stand_in_order();
}

/// What a task needs has its turn before it.
pub fn needs_come_first()
    ensures { NeedsComeFirst }
{}

/// Formatting contexts that are placed stand on the page in one way.
pub fn one_page_corners()
    ensures { OnePageCorners }
{}

/// An absolutely positioned formatting context stands in its containing block on the page (CSS 2.2, 10.1 and 10.3.7).
pub fn absolute_boxes_stand_in_containing_blocks()
    ensures { AbsoluteBoxesStandInContainingBlocks }
{}

/// Two trees that solve one document are equal.
pub fn one_solution()
    ensures { OneSolution }
{
    one_context_widths();
    one_context_sizes();
    one_placement();
    one_table_placement();
    one_formatting_context_list();
    formatting_contexts_stand_in_order();
}

/// Beside what it is given a task has a value.
pub fn some_local()
    ensures { SomeLocal }
{
    some_context_widths();
    some_context_sizes();
    some_placement();
    some_table_placement();
}

/// Formatting contexts that are placed stand on the page.
pub fn some_page_corners()
    ensures { SomePageCorners }
{}

/// Formatting contexts have a tree that solves them.
pub fn some_tree()
    ensures { SomeTree }
{
    some_local();
    grids_are_of_boxes();
}

/// Each document has a layout in each face.
pub fn some_layout()
    ensures { SomeLayout }
{
    some_tree();
    formatting_contexts_stand_in_order();
}

/// A layout has no more contexts than its document has nodes.
pub fn layouts_are_short()
    ensures { LayoutsAreShort }
{}
