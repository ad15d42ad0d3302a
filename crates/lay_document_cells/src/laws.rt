//! The laws of the definitions. The functions do nothing.

ghost use Rattle.lay_document_cells.specs.TreeLengths.{TreesListContexts};
ghost use Rattle.lay_document_cells.specs.Laws.{BatchesWork, ClaimsWork, CleanCellsAreCounted, NextClaimsWork, OneEdit, OutcomesWork};
ghost use Rattle.lay_document_cells.specs.Laws.{SettlingGivesNothingBack, SettlingWorks, StoppingWorks, WorkKeepsCells};

use lay_cell_work::Layout;
use lay_cells::progress::{
    claims_count, claims_keep_rows, clean_cells_count, finishes_count, finishes_keep_rows,
    give_backs_count, give_backs_keep_rows, keeping_is_transitive,
};
use lay_cells::{one_marking, one_reshape};
use lay_contexts::{one_context_list, one_formatting_context_list};
use lay_doc::one_style_column;
use lay_shape::touched::one_list_of_touched_keys;
use lay_shape::{cells_have_a_shape, contexts_are_of_own_nodes};

/// Work on cells makes none anew, drops none and dirties none, and each grant is counted.
pub fn work_keeps_cells()
    ensures { WorkKeepsCells }
{
    claims_keep_rows::<Layout>();
    finishes_keep_rows::<Layout>();
    give_backs_keep_rows::<Layout>();
    keeping_is_transitive::<Layout>();
    claims_count::<Layout>();
    finishes_count::<Layout>();
    give_backs_count::<Layout>();
}

/// Settling is work.
pub fn settling_works()
    ensures { SettlingWorks }
{}

/// It is too where memory runs out.
pub fn stopping_works()
    ensures { StoppingWorks }
{}

/// Claims are work, and so is what comes of them.
pub fn claims_work()
    ensures claims { ClaimsWork }
    ensures next_claims { NextClaimsWork }
    ensures batches { BatchesWork }
    ensures outcomes { OutcomesWork }
{}

/// No claim is given back where cells are settled.
pub fn settling_gives_nothing_back()
    ensures { SettlingGivesNothingBack }
{
    claims_keep_rows::<Layout>();
    finishes_keep_rows::<Layout>();
}

/// A list of edits leaves one state.
pub fn one_edit()
    ensures { OneEdit }
{
    one_style_column();
    one_context_list();
    one_formatting_context_list();
    one_list_of_touched_keys();
    one_reshape::<Layout>();
    one_marking::<Layout>();
    cells_have_a_shape();
    contexts_are_of_own_nodes();
}

/// A tree has a context for each of those of its document.
pub fn trees_list_contexts()
    ensures { TreesListContexts }
{}

/// Where all cells are clean, three grants were counted for each context.
pub fn clean_cells_are_counted()
    ensures { CleanCellsAreCounted }
{
    clean_cells_count::<Layout>();
    contexts_are_of_own_nodes();
}
