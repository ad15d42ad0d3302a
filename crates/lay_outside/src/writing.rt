//! Writing a text into a sink.

ghost use Rattle.std.specs.Prelude.{◌≡◌, ◌<◌, ◌≤◌, drop, length, OnOk, OnErr};
ghost use Rattle.lay_outside.specs.Outside.{Rose, Took, TookFront};

use crate::{Failed, Sink};

/// Writes all of a text, or a front of it where the sink fails.
pub fn write_all<K: Sink>(sink: &mut K, text: &[u8]) -> Result<(), Failed>
    ensures ok { OnOk result (Took (K.taken sink.old) (K.taken sink.new) text.now) }
    ensures front { OnErr result (TookFront (K.taken sink.old) (K.taken sink.new) text.now) }
    ensures failed { OnErr result (Rose (K.faults sink.old) (K.faults sink.new)) }
    ensures never_falls { K.faults sink.old ≤ K.faults sink.new }
{
    let mut done = 0;
    while done < text.len() {
        match sink.write(behind(text, done)) {
            Ok(0) => return Err(Failed),
            Ok(n) => done += n,
            Err(_) => return Err(Failed),
        }
    }
    Ok(())
}

fn behind(text: &[u8], n: usize) -> &[u8]
    requires { n ≤ length text.now }
    ensures { result.now ≡ drop n text.now }
{
    &text[n..]
}
