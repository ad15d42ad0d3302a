//! The run that a source's bytes spell.

ghost use Rattle.std.specs.Prelude.{◌≡◌, IfOk, IfErr, IfSome, OnOk};
ghost use Rattle.lay_outside.specs.Outside.{Rose, IsDrained};
ghost use Rattle.lay_cli.specs.Answers.{IsFaultInput, IsRunOrRefusal, IsInputRun};
ghost use Rattle.lay_cli.specs.Input.{IsReadOut};

use crate::input::{SourceFault, read_all};
use crate::refusal::fault_line;
use lay_json::InputFault;
use lay_json::styled::read_styled;
use lay_outside::Source;
use lay_run::RunDoc;
use lay_units::{NoMemory, Text};
use std::alloc::Global;

/// What was read.
#[derive(Drop)]
pub enum Input {
    /// The run.
    Run(RunDoc),
    /// The line that says why the bytes are refused.
    Refusal(Text),
}

/// Why nothing was read.
#[derive(Clone, Copy, Debug, PartialEq, Eq)]
pub enum Lack {
    /// A read failed.
    Failed,
    /// Memory ran out.
    NoMemory,
}

impl From<NoMemory> for Lack {
    ghost use Rattle.std.specs.Prelude.{◌≡◌};
    ghost use Rattle.lay_cli.specs.declared.run_input.Lack.TheVariants.{NoMemory as ran_out};

    ghost from_gives = { λ _ e. e ≡ ran_out };

    fn from(_: NoMemory) -> Lack {
        Lack::NoMemory
    }
}

/// What the bytes that a source has left spell.
pub(crate) fn run_input<S: Source>(alloc: Global, source: &mut S) -> Result<Input, Lack>
    ensures input { IfOk result (λ input. IfSome (S.left source.old) (λ bytes. IsRunOrRefusal bytes input)) }
    ensures drained { IfOk result (λ input. IsInputRun input → IsDrained (S.left source.old) (S.left source.new)) }
    ensures read_out { OnOk result (IsReadOut (S.left source.old) (S.left source.new)) }
    ensures failed { IfErr result (λ e. e ≡ Lack.Failed → Rose (S.faults source.old) (S.faults source.new)) }
{
    match read_all(alloc, source) {
        Ok(bytes) => Ok(input_in(alloc, &bytes)?),
        Err(SourceFault::TooLong) => Ok(Input::Refusal(fault_line(alloc, InputFault::TooLong)?)),
        Err(SourceFault::Failed) => Err(Lack::Failed),
        Err(SourceFault::NoMemory) => Err(Lack::NoMemory),
    }
}

/// What these bytes spell.
fn input_in(alloc: Global, bytes: &[u8]) -> Result<Input, NoMemory>
    ensures { IfOk result (IsRunOrRefusal bytes.now) }
{
    match read_styled(alloc, bytes) {
        Ok(run) => Ok(Input::Run(run)),
        Err(fault) => refusal_of(alloc, fault),
    }
}

/// The refusal of bytes that have this fault.
fn refusal_of(alloc: Global, fault: InputFault) -> Result<Input, NoMemory>
    ensures { IfOk result (IsFaultInput fault) }
{
    if fault == InputFault::NoMemory {
        return Err(NoMemory);
    }
    Ok(Input::Refusal(fault_line(alloc, fault)?))
}
