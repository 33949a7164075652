//! The readers and writers of `std::io` as devices.
ghost use Rattle.std.specs.Prelude.{◌≡◌, IfErr, None, OnOk, refl};
ghost use Rattle.std.specs.Io.KnownBytes.{Appends};
ghost use Rattle.devices.specs.Devices.{AppendsFront, unread_input, unwritten_output};

use crate::device::{Device, ReadFault, Sink, Source, WriteFault};
use std::io;
use std::io::{Read, Write};

/// A reader that counts its reads and failures.
#[derive(Drop)]
pub struct Reading<R> {
    /// The reader itself.
    pub inner: R,
    /// How many reads were tried; it stops at the largest number.
    pub reads: u64,
    /// How many reads failed; it stops at the largest number.
    pub failures: u64,
}

impl<R> Reading<R> {
    /// A reader with both counts at zero.
    pub fn new(inner: R) -> Reading<R>
        ensures { result ≡ record { inner = inner; reads = 0; failures = 0 } }
    {
        Reading {
            inner,
            reads: 0,
            failures: 0,
        }
    }
}

impl<R: Read> Device for Reading<R> {
    ghost log = { λ _. None };

    ghost input = { λ r. record { left = R.remaining r.inner; reads = r.reads; failures = r.failures } };

    ghost output = { λ _. unwritten_output };
}

impl<R: Read> Source for Reading<R> {
    ghost remaining = { λ r. R.remaining r.inner };

    ghost failures = { λ r. r.failures };

    ghost reads = { λ r. r.reads };

    ghost sees = { λ _. refl };

    fn read(&mut self, buf: &mut [u8]) -> Result<usize, ReadFault> {
        self.reads = self.reads.saturating_add(1);
        match self.inner.read(buf) {
            Ok(n) => Ok(n),
            Err(error) => {
                if error.kind() == io::ErrorKind::Interrupted {
                    return Err(ReadFault::Interrupted);
                }
                self.failures = self.failures.saturating_add(1);
                Err(ReadFault::Failed)
            }
        }
    }
}

/// A writer that counts its failures.
#[derive(Drop)]
pub struct Writing<W> {
    /// The writer itself.
    pub inner: W,
    /// How many writes failed; it stops at the largest number.
    pub failures: u64,
}

impl<W> Writing<W> {
    /// A writer with its count at zero.
    pub fn new(inner: W) -> Writing<W>
        ensures { result ≡ record { inner = inner; failures = 0 } }
    {
        Writing { inner, failures: 0 }
    }
}

/// Writes all the bytes, and flushes. A write that is interrupted is tried again.
#[tactic(auto, using(crate::proofs::WriteLemmas::many_writes))]
fn write_through<W: Write>(writer: &mut W, bytes: &[u8]) -> Result<(), WriteFault>
    ensures bytes { OnOk result (Appends (W.contents writer.old) (W.contents writer.new) bytes.now) }
    ensures front { IfErr result (λ _. AppendsFront (W.contents writer.old) (W.contents writer.new) bytes.now) }
{
    let mut written = 0;
    'writes: for turn in 0..u64::MAX {
        if written == bytes.len() {
            return match writer.flush() {
                Ok(()) => Ok(()),
                Err(_) => Err(WriteFault),
            };
        }
        match writer.write(&bytes[written..]) {
            Ok(0) => return Err(WriteFault),
            Ok(n) => written += n,
            Err(error) => {
                if error.kind() != io::ErrorKind::Interrupted {
                    return Err(WriteFault);
                }
            }
        }
    }
    Err(WriteFault)
}

impl<W: Write> Device for Writing<W> {
    ghost log = { λ _. None };

    ghost input = { λ _. unread_input };

    ghost output = { λ w. record { bytes = W.contents w.inner; failures = w.failures } };
}

impl<W: Write> Sink for Writing<W> {
    ghost contents = { λ w. W.contents w.inner };

    ghost failures = { λ w. w.failures };

    ghost shows = { λ _. refl };

    fn write_all(&mut self, bytes: &[u8]) -> Result<(), WriteFault> {
        match write_through(&mut self.inner, bytes) {
            Ok(()) => Ok(()),
            Err(fault) => {
                self.failures = self.failures.saturating_add(1);
                Err(fault)
            }
        }
    }
}
