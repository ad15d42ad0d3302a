//! The laws of verdicts on checks.

ghost use Rattle.lay_audit.specs.Check.Laws.{OneVerdictLine, YesIsForLegalReports};

use crate::{one_verdict, yes_is_legal};

/// There is one line on a check.
pub fn one_verdict_line()
    ensures { OneVerdictLine }
{
    one_verdict();
}

/// It is `yes` just where the report is a legal one.
pub fn yes_is_for_legal_reports()
    ensures { YesIsForLegalReports }
{
    yes_is_legal();
}
