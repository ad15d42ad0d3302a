//! The verdict on a report.

ghost use Rattle.std.specs.Prelude.{IfOk};
ghost use Rattle.lay_audit.specs.Check.Judging.{IsVerdictOn};

use crate::audit;
use crate::check::verdict_line::verdict_line;
use lay_json::styled::Check;
use lay_units::{NoMemory, Text};
use std::alloc::Global;

/// The line of the verdict on the report of a check. Nothing that the report says is trusted.
pub fn verdict_on(alloc: Global, check: &Check) -> Result<Text, NoMemory>
    ensures { IfOk result (IsVerdictOn check.now) }
{
    let run = &check.run;
    let scripts = run.scripts().as_slice();
    let verdict = audit(alloc, run.doc(), run.face(), scripts, check.report.as_str())?;
    verdict_line(alloc, verdict)
}
