//! Reading a source to its end.

ghost use Rattle.std.specs.Prelude.{◌≡◌, ◌<◌, ◌≤◌, ◌++◌, length, IfOk, OnOk, IfErr};
ghost use Rattle.lay_cli.specs.Input.{WasAll, CausesSourceFault};
ghost use Rattle.lay_outside.specs.Outside.{IsDrained};

use lay_outside::Source;
use std::alloc::Global;

/// The most bytes of a run document.
const MOST: usize = 16777216;

/// Why the input isn't there.
#[derive(Clone, Copy)]
pub enum SourceFault {
    /// More than 16,777,216 bytes come.
    TooLong,
    /// A read failed.
    Failed,
    /// Memory ran out.
    NoMemory,
}

/// All bytes that a source has left, at most 16,777,216.
pub(crate) fn read_all<S: Source>(alloc: Global, source: &mut S) -> Result<Vec<u8>, SourceFault>
    ensures all { IfOk result (λ v. WasAll (S.left source.old) v.items) }
    ensures drained { OnOk result (IsDrained (S.left source.old) (S.left source.new)) }
    ensures within { IfOk result (λ v. length v.items ≤ 16777216) }
    ensures cause { IfErr result (CausesSourceFault (S.faults source.old) (S.faults source.new) (S.left source.old)) }
{
    let mut bytes = Vec::new(alloc);
    let mut buffer = [0u8; 4096];
    for _ in 0..MOST + 1 {
        match source.read(&mut buffer) {
            Ok(0) => return Ok(bytes),
            Ok(n) => {
                extend(&mut bytes, &buffer[..n])?;
                if bytes.len() > MOST {
                    return Err(SourceFault::TooLong);
                }
            }
            Err(_) => return Err(SourceFault::Failed),
        }
    }
    Err(SourceFault::TooLong)
}

fn extend(bytes: &mut Vec<u8>, piece: &[u8]) -> Result<(), SourceFault>
    ensures ok { OnOk result (bytes.new.items ≡ bytes.old.items ++ piece.now) }
    ensures err { IfErr result (λ e. e ≡ SourceFault.NoMemory) }
{
    match bytes.extend_from_slice(piece) {
        Ok(()) => Ok(()),
        Err(_) => Err(SourceFault::NoMemory),
    }
}
