//! Writing one text, and the status of what was written.

ghost use Rattle.std.specs.Prelude.{◌≡◌, ◌≢◌, ◌⊎◌};
ghost use Rattle.lay_outside.specs.Outside.{Rose, Took, TookFront};
ghost use Rattle.lay_cli.specs.Statuses.{status_of};

use crate::status::Status;
use lay_outside::{Sink, write_all};
use lay_report::ReportFault;

/// Writes a text and answers the status, or that the sink failed.
pub(crate) fn told<K: Sink>(sink: &mut K, text: &str, status: Status) -> Status
    ensures told { result ≢ Status.WriteFault → (result ≡ status) × Took (K.taken sink.old) (K.taken sink.new) text.now }
    ensures failed { status ≢ Status.WriteFault → result ≡ Status.WriteFault → Rose (K.faults sink.old) (K.faults sink.new) }
    ensures front { status ≢ Status.WriteFault → result ≡ Status.WriteFault → TookFront (K.taken sink.old) (K.taken sink.new) text.now }
    ensures either { (result ≡ status) ⊎ (result ≡ Status.WriteFault) }
{
    match write_all(sink, text.as_bytes()) {
        Ok(()) => status,
        Err(_) => Status::WriteFault,
    }
}

/// The status of a report that wasn't written whole.
pub(crate) fn status_of(fault: ReportFault) -> Status
    ensures { result ≡ status_of fault }
{
    match fault {
        ReportFault::WriteFault => Status::WriteFault,
        ReportFault::NoMemory => Status::NoMemory,
    }
}
