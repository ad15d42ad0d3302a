//! The laws of reports that are checked, of summaries, and of what is seen at a point.

ghost use Rattle.lay_cli.specs.Laws.{OneHitReport, OneSummary, RunReportsAreAnsweredYes, SummariesComeOfNumbers};

use crate::run_reports::run_reports_are_yes;
use lay_context::one_solution;
use lay_core::last_tree;
use lay_doc::one_style_column;
use lay_generator::{generated_nodes_stay, generated_runs_come_to_one};

/// Each report that `run` writes is answered `yes` by `check`.
pub fn run_reports_are_answered_yes()
    ensures { RunReportsAreAnsweredYes }
{
    run_reports_are_yes();
}

/// Where each list of edits was accepted, the summary of a generated run comes of its size and its seed alone.
pub fn summaries_come_of_numbers()
    ensures { SummariesComeOfNumbers }
{
    generated_runs_come_to_one();
    generated_nodes_stay();
    last_tree();
    one_solution();
}

/// So two calls of `gen` with the same numbers write the same.
pub fn one_summary()
    ensures { OneSummary }
{}

/// There is one line for a run and a point.
pub fn one_hit_report()
    ensures { OneHitReport }
{
    one_solution();
    one_style_column();
}
