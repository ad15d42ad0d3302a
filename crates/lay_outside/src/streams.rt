//! The real streams. They tell the bytes that std's reader and writer tell: those of a slice or a vector are known, those of a
//! file, a pipe or a terminal aren't.

ghost use Rattle.std.specs.Prelude.{◌≡◌};

use crate::{Failed, Sink, Source};
use std::io::{Read, Write};

/// A reader as a source.
#[derive(Drop)]
pub struct InputSource<R> {
    reader: R,
    faults: u64,
}

impl<R> InputSource<R> {
    /// A source over this reader, without faults so far.
    pub fn new(reader: R) -> InputSource<R>
        ensures { result ≡ record { reader = reader; faults = 0 } }
    {
        InputSource { reader, faults: 0 }
    }
}

impl<R: Read + Drop> Source for InputSource<R> {
    ghost left = { λ s. R.remaining s.reader };

    ghost faults = { λ s. s.faults };

    fn read(&mut self, buf: &mut [u8]) -> Result<usize, Failed> {
        match self.reader.read(buf) {
            Ok(n) => Ok(n),
            Err(_) => {
                self.faults = self.faults.saturating_add(1);
                Err(Failed)
            }
        }
    }
}

/// A writer as a sink, flushed in each write.
#[derive(Drop)]
pub struct OutputSink<W> {
    writer: W,
    faults: u64,
}

impl<W> OutputSink<W> {
    /// A sink over this writer, without faults so far.
    pub fn new(writer: W) -> OutputSink<W>
        ensures { result ≡ record { writer = writer; faults = 0 } }
    {
        OutputSink { writer, faults: 0 }
    }
}

impl<W: Write + Drop> Sink for OutputSink<W> {
    ghost taken = { λ s. W.contents s.writer };

    ghost faults = { λ s. s.faults };

    fn write(&mut self, piece: &[u8]) -> Result<usize, Failed> {
        let written = self.writer.write(piece);
        let flushed = self.writer.flush();
        if let (Ok(n), Ok(())) = (written, flushed) {
            if n == 0 && !piece.is_empty() {
                self.faults = self.faults.saturating_add(1);
            }
            return Ok(n);
        }
        self.faults = self.faults.saturating_add(1);
        Err(Failed)
    }
}
