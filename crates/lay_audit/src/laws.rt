//! The laws of verdicts.

ghost use Rattle.lay_audit.specs.Laws.{AlikeAreEqual, BadLineIsThere, BadLinesCountFromOne, FaultsAreRefused};
ghost use Rattle.lay_audit.specs.Laws.{OneVerdict, SomeReportIsLegal, YesIsLegal};

use lay_context::one_solution;

/// There is one verdict on a text.
pub fn one_verdict()
    ensures { OneVerdict }
{}

/// It is yes just on legal reports.
pub fn yes_is_legal()
    ensures { YesIsLegal }
{}

/// Texts that have all lines of one of them and its end in common are equal.
pub fn alike_are_equal()
    ensures { AlikeAreEqual }
{}

/// The number of the first bad line is at most that of the text's lines, and one more for its end.
pub fn bad_line_is_there()
    ensures { BadLineIsThere }
{}

/// Where the document before any edit has a layout, some report is legal.
pub fn some_report_is_legal()
    ensures { SomeReportIsLegal }
{
    one_solution();
}

/// So the first bad line has a number from 1 on.
pub fn bad_lines_count_from_one()
    ensures { BadLinesCountFromOne }
{
    one_solution();
}

/// In a legal history an edit alone that has a fault is refused for it: memory doesn't run out first.
pub fn faults_are_refused()
    ensures { FaultsAreRefused }
{}
