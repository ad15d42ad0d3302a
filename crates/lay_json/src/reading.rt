//! The reading of bytes.

ghost use Rattle.std.specs.Prelude.{◌≢◌, ◌≤◌, length, Err};
ghost use Rattle.serde_json.specs.View.{view};
ghost use Rattle.lay_json.specs.Fields.{Gives};
ghost use Rattle.lay_json.specs.SheetNames.{input_of};
ghost use Rattle.lay_json.specs.Reading.{IsRunReading, IsInput, IsCheck};

use crate::check::check_of;
use crate::check_in::CheckIn;
use crate::fault::InputFault;
use crate::pulled::pulled_input;
use crate::run::run_of;
use crate::sheet_in::SheetIn;
use crate::sheet_names::sheet_of;
use crate::spans::Halt;
use lay_run::RunDoc;
use serde_json::{Category, Value};
use std::alloc::Global;

const MOST_BYTES: usize = 16777216;

/// The run that the bytes of a run document say, or their first fault.
pub fn read_run(alloc: Global, bytes: &[u8]) -> Result<RunDoc, InputFault>
    ensures { result ≢ Err InputFault.NoMemory → IsRunReading bytes.now result }
{
    if bytes.len() > MOST_BYTES {
        return Err(InputFault::TooLong);
    }
    match Value::from_slice(alloc, bytes) {
        Ok(value) => run_of(alloc, &value),
        Err(fault) if fault.classify() == Category::Memory => Err(InputFault::NoMemory),
        Err(_) => Err(InputFault::BadJson),
    }
}

/// The run with its sheet and names that a value says.
pub(crate) fn input_of(alloc: Global, value: &Value) -> Result<(RunDoc, SheetIn), InputFault>
    ensures { Gives result (input_of (view value.now)) }
{
    let run = run_of(alloc, value)?;
    let sheet = sheet_of(alloc, value)?;
    Ok((run, sheet))
}

/// What `read_input` answers, of the tree of the bytes.
fn whole_input(alloc: Global, bytes: &[u8]) -> Result<(RunDoc, SheetIn), InputFault>
    requires { length bytes.now ≤ 16777216 }
    ensures { result ≢ Err InputFault.NoMemory → IsInput bytes.now result }
{
    match Value::from_slice(alloc, bytes) {
        Ok(value) => input_of(alloc, &value),
        Err(fault) if fault.classify() == Category::Memory => Err(InputFault::NoMemory),
        Err(_) => Err(InputFault::BadJson),
    }
}

/// The run that the bytes of a run document say, with its style sheet and what its nodes are called, or their first fault. Faults of
/// the run come before those of the sheet and the names.
pub fn read_input(alloc: Global, bytes: &[u8]) -> Result<(RunDoc, SheetIn), InputFault>
    ensures { result ≢ Err InputFault.NoMemory → IsInput bytes.now result }
{
    if bytes.len() > MOST_BYTES {
        return Err(InputFault::TooLong);
    }
    match pulled_input(alloc, bytes) {
        Ok(input) => Ok(input),
        Err(Halt::NoMemory) => Err(InputFault::NoMemory),
        Err(Halt::Doubt) => whole_input(alloc, bytes),
    }
}

/// The run, sheet and report that the bytes of a check say, or their first fault.
pub fn read_check(alloc: Global, bytes: &[u8]) -> Result<CheckIn, InputFault>
    ensures { result ≢ Err InputFault.NoMemory → IsCheck bytes.now result }
{
    if bytes.len() > MOST_BYTES {
        return Err(InputFault::TooLong);
    }
    match Value::from_slice(alloc, bytes) {
        Ok(value) => check_of(alloc, &value),
        Err(fault) if fault.classify() == Category::Memory => Err(InputFault::NoMemory),
        Err(_) => Err(InputFault::BadJson),
    }
}
