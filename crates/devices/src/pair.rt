//! A reader and a writer as one device.
ghost use Rattle.std.specs.Prelude.{None};

use crate::device::{Device, ReadFault, Sink, Source, WriteFault};

/// A reader and a writer as one device, for a function that reads and writes. It reports no log: the order of its reads
/// and writes is known only where one thing makes both, as a connection.
#[derive(Drop)]
pub struct Pair<R, W> {
    /// What is read.
    pub reader: R,
    /// What is written.
    pub writer: W,
}

impl<R: Source, W: Sink> Device for Pair<R, W> {
    ghost log = { λ _. None };

    ghost input = { λ p. R.input p.reader };

    ghost output = { λ p. W.output p.writer };
}

impl<R: Source, W: Sink> Source for Pair<R, W> {
    ghost remaining = { λ p. R.remaining p.reader };

    ghost failures = { λ p. R.failures p.reader };

    ghost reads = { λ p. R.reads p.reader };

    ghost sees = { λ p. R.sees p.reader };

    fn read(&mut self, buf: &mut [u8]) -> Result<usize, ReadFault> {
        self.reader.read(buf)
    }
}

impl<R: Source, W: Sink> Sink for Pair<R, W> {
    ghost contents = { λ p. W.contents p.writer };

    ghost failures = { λ p. W.failures p.writer };

    ghost shows = { λ p. W.shows p.writer };

    fn write_all(&mut self, bytes: &[u8]) -> Result<(), WriteFault> {
        self.writer.write_all(bytes)
    }
}
