//! The check that a source's bytes spell.

ghost use Rattle.std.specs.Prelude.{◌≡◌, IfOk, IfErr, IfSome, OnOk};
ghost use Rattle.lay_outside.specs.Outside.{Rose, IsDrained};
ghost use Rattle.lay_cli.specs.Checks.{IsAsked, IsCheckInput, IsFaultOfCheck};
ghost use Rattle.lay_cli.specs.Input.{IsReadOut};

use crate::input::{SourceFault, read_all};
use crate::refusal::fault_line;
use crate::run_input::Lack;
use lay_json::InputFault;
use lay_json::styled::{Check, read_styled_check};
use lay_outside::Source;
use lay_units::{NoMemory, Text};
use std::alloc::Global;

/// What was read.
#[derive(Drop)]
pub enum CheckInput {
    /// What is to be checked.
    Asked(Check),
    /// The line that says why the bytes are refused.
    Refusal(Text),
}

/// What the bytes that a source has left spell.
pub(crate) fn check_input<S: Source>(alloc: Global, source: &mut S) -> Result<CheckInput, Lack>
    ensures input { IfOk result (λ input. IfSome (S.left source.old) (λ bytes. IsCheckInput bytes input)) }
    ensures drained { IfOk result (λ input. IsAsked input → IsDrained (S.left source.old) (S.left source.new)) }
    ensures read_out { OnOk result (IsReadOut (S.left source.old) (S.left source.new)) }
    ensures failed { IfErr result (λ e. e ≡ Lack.Failed → Rose (S.faults source.old) (S.faults source.new)) }
{
    match read_all(alloc, source) {
        Ok(bytes) => Ok(check_in(alloc, &bytes)?),
        Err(SourceFault::TooLong) => {
            Ok(CheckInput::Refusal(fault_line(alloc, InputFault::TooLong)?))
        }
        Err(SourceFault::Failed) => Err(Lack::Failed),
        Err(SourceFault::NoMemory) => Err(Lack::NoMemory),
    }
}

/// What these bytes spell.
fn check_in(alloc: Global, bytes: &[u8]) -> Result<CheckInput, NoMemory>
    ensures { IfOk result (IsCheckInput bytes.now) }
{
    match read_styled_check(alloc, bytes) {
        Ok(check) => Ok(CheckInput::Asked(check)),
        Err(fault) => refusal_of_check(alloc, fault),
    }
}

/// The refusal of bytes that have this fault.
fn refusal_of_check(alloc: Global, fault: InputFault) -> Result<CheckInput, NoMemory>
    ensures { IfOk result (IsFaultOfCheck fault) }
{
    if fault == InputFault::NoMemory {
        return Err(NoMemory);
    }
    Ok(CheckInput::Refusal(fault_line(alloc, fault)?))
}
