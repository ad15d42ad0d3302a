//! The laws of reports of runs.

ghost use Rattle.lay_cli.specs.RunReports.Laws.{PublishedTreesAreLayouts, ReachedTreesAreLayouts, RunReportsAreLegal, RunReportsAreYes};

use lay_audit::one_verdict;
use lay_context::one_solution;
use lay_core::core_laws::versions_are_documents;
use lay_core::last_tree;
use lay_json::styled::{one_styled_check, runs_are_styled_beside_reports};

/// The report of a core that answered its editors, and whose last version is published, is a legal report.
pub fn run_reports_are_legal()
    ensures { RunReportsAreLegal }
{
    last_tree();
}

/// Where it stands beside the run document, the verdict on it is yes.
pub fn run_reports_are_yes()
    ensures { RunReportsAreYes }
{
    run_reports_are_legal();
    one_verdict();
    one_styled_check();
    runs_are_styled_beside_reports();
}

/// The tree of a published version is the one that a layout of its document from scratch makes.
pub fn published_trees_are_layouts()
    ensures { PublishedTreesAreLayouts }
{
    one_solution();
}

/// So it is in every core that calls led to, which each core is.
pub fn reached_trees_are_layouts()
    ensures { ReachedTreesAreLayouts }
{
    one_solution();
    versions_are_documents();
}
