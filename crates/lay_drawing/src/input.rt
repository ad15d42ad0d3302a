//! Reading a report from a source.

ghost use Rattle.std.specs.Prelude.{◌≡◌, ◌⊎◌, OnOk, IfOk, IfErr, ℕ, List, Some};
ghost use Rattle.lay_drawing.specs.Input.{HasReport, IsCause};
ghost use Rattle.lay_outside.specs.Outside.{IsDrained};
ghost use Rattle.lay_drawing.specs.States.{HasRead, WasReport, Reads, Stops, StopsAtEnd};
ghost use Rattle.lay_drawing.specs.declared.state.Stop.{Stop};
ghost use Rattle.lay_drawing.specs.Input.{fault_of};

use crate::state::{Reading, Stop};
use lay_outside::Source;
use std::alloc::Global;

/// Why the report isn't there.
#[derive(Clone, Copy)]
pub enum InputFault {
    /// The line of this number, from 1, isn't one of a report.
    BadLine(u64),
    /// A read failed.
    Failed,
    /// Memory ran out, or 2^64 - 1 reads came to no end.
    NoMemory,
}

/// What the report that the source has left shows of the wanted version.
pub(crate) fn read_report<S: Source>(
    alloc: Global,
    wanted: Option<u64>,
    source: &mut S,
) -> Result<Reading, InputFault>
    ensures wanted { IfOk result (λ r. r.wanted ≡ wanted) }
    ensures report { IfOk result (λ r. HasReport (S.left source.old) r) }
    ensures drained { OnOk result (IsDrained (S.left source.old) (S.left source.new)) }
    ensures cause { IfErr result (IsCause (S.faults source.old) (S.faults source.new) (S.left source.old)) }
{
    let mut reading = Reading::new(alloc, wanted);
    let mut buffer = [0u8; 4096];
    for _ in 0..u64::MAX {
        match source.read(&mut buffer) {
            Ok(0) => return ended(reading),
            Ok(n) => match reading.read(alloc, &buffer[..n]) {
                Ok(()) => {}
                Err(stop) => return Err(fault_of(stop)),
            },
            Err(_) => return Err(InputFault::Failed),
        }
    }
    Err(InputFault::NoMemory)
}

/// What was read of two versions.
#[derive(Drop)]
pub struct Both {
    pub before: Reading,
    pub after: Reading,
}

/// What the report that the source has left shows of two versions.
pub(crate) fn read_both<S: Source>(
    alloc: Global,
    versions: (u64, u64),
    source: &mut S,
) -> Result<Both, InputFault>
    ensures wanted { IfOk result (λ b. (b.before.wanted ≡ Some versions.0) × (b.after.wanted ≡ Some versions.1)) }
    ensures report { IfOk result (λ b. HasReport (S.left source.old) b.before × HasReport (S.left source.old) b.after) }
    ensures drained { OnOk result (IsDrained (S.left source.old) (S.left source.new)) }
    ensures cause { IfErr result (IsCause (S.faults source.old) (S.faults source.new) (S.left source.old)) }
{
    let mut both = Both {
        before: Reading::new(alloc, Some(versions.0)),
        after: Reading::new(alloc, Some(versions.1)),
    };
    let mut buffer = [0u8; 4096];
    for _ in 0..u64::MAX {
        match source.read(&mut buffer) {
            Ok(0) => return both_ended(both),
            Ok(n) => match both_read(alloc, &mut both, &buffer[..n]) {
                Ok(()) => {}
                Err(stop) => return Err(fault_of(stop)),
            },
            Err(_) => return Err(InputFault::Failed),
        }
    }
    Err(InputFault::NoMemory)
}

fn both_read(alloc: Global, both: &mut Both, bytes: &[u8]) -> Result<(), Stop>
    ensures ok { OnOk result (Reads both.old.before bytes.now both.new.before × Reads both.old.after bytes.now both.new.after) }
    ensures err { IfErr result (λ stop. Stops both.old.before bytes.now stop ⊎ Stops both.old.after bytes.now stop) }
{
    match both.before.read(alloc, bytes) {
        Ok(()) => both.after.read(alloc, bytes),
        Err(stop) => Err(stop),
    }
}

/// What was read of both, where nothing comes any more.
fn both_ended(both: Both) -> Result<Both, InputFault>
    ensures same { IfOk result (λ b. b ≡ both) }
    ensures before { OnOk result ((bytes : List ℕ) → HasRead both.before bytes → WasReport both.before bytes) }
    ensures after { OnOk result ((bytes : List ℕ) → HasRead both.after bytes → WasReport both.after bytes) }
    ensures err { IfErr result (λ f. (stop : Stop) × (StopsAtEnd both.before stop ⊎ StopsAtEnd both.after stop) × (f ≡ fault_of stop)) }
{
    match both.before.end() {
        Ok(()) => match both.after.end() {
            Ok(()) => Ok(both),
            Err(stop) => Err(fault_of(stop)),
        },
        Err(stop) => Err(fault_of(stop)),
    }
}

/// What was read, where nothing comes any more.
fn ended(reading: Reading) -> Result<Reading, InputFault>
    ensures ok { IfOk result (λ r. (r ≡ reading) × ((bytes : List ℕ) → HasRead reading bytes → WasReport reading bytes)) }
    ensures err { IfErr result (λ f. (stop : Stop) × StopsAtEnd reading stop × (f ≡ fault_of stop)) }
{
    match reading.end() {
        Ok(()) => Ok(reading),
        Err(stop) => Err(fault_of(stop)),
    }
}

fn fault_of(stop: Stop) -> InputFault
    ensures { result ≡ fault_of stop }
{
    match stop {
        Stop::BadLine(number) => InputFault::BadLine(number),
        Stop::NoMemory => InputFault::NoMemory,
    }
}
