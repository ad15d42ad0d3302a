//! A run document beside a report.

ghost use Rattle.std.specs.Prelude.{◌≡◌};
ghost use Rattle.serde_json.specs.View.{view};
ghost use Rattle.lay_json.specs.Fields.{map_read, Gives};
ghost use Rattle.lay_json.specs.CheckDocuments.{check_of, report_in, run_in};

use crate::check_in::CheckIn;
use crate::fault::{Field, InputFault, Spot};
use crate::fields::{object_of, required, required_text};
use crate::reading::input_of;
use crate::sheet_names::copied;
use lay_units::Text;
use serde_json::Value;
use std::alloc::Global;

/// The run document of a check.
fn run_in(check: &Value) -> Result<&Value, InputFault>
    ensures { map_read (λ v. view v.now) result ≡ run_in (view check.now) }
{
    object_of(check, Field::Check, Spot::Run)?;
    required(check, Field::Run, Spot::Run)
}

/// The report of a check.
fn report_in(alloc: Global, check: &Value) -> Result<Text, InputFault>
    ensures { Gives result (report_in (view check.now)) }
{
    let report = required_text(check, Field::Report, Spot::Run)?;
    let report = copied(alloc, report)?;
    Ok(report)
}

/// What a check is asked of, or its first fault.
pub(crate) fn check_of(alloc: Global, check: &Value) -> Result<CheckIn, InputFault>
    ensures { Gives result (check_of (view check.now)) }
{
    let run = run_in(check)?;
    let (run, sheet) = input_of(alloc, run)?;
    let report = report_in(alloc, check)?;
    Ok(CheckIn { run, sheet, report })
}
