//! What a program asks of a reader and of a writer.
ghost use Rattle.std.specs.Prelude.{◌≡◌, ◌≤◌, ℕ, List, Option, IfOk, IfErr, OnOk, length};
ghost use Rattle.std.specs.Io.KnownBytes.{Appends, ReadConsumes};
ghost use Rattle.devices.specs.Devices.{AppendsFront, CountsRead, InputSeen, OutputSeen, RisesBy};
ghost use Rattle.devices.specs.Logs.{Gives, Grows, Log, read_events};

use thiserror::Error;

/// Why a read gave nothing.
#[derive(Clone, Copy, Debug, PartialEq, Eq, Error)]
pub enum ReadFault {
    /// The read was interrupted; another one may succeed.
    #[error("the read was interrupted")]
    Interrupted,
    /// The reader failed.
    #[error("the reader failed")]
    Failed,
}

/// The writer failed. It may have taken some bytes, which are the first of those to be written.
#[derive(Clone, Copy, Debug, PartialEq, Eq, Error)]
#[error("the writer failed")]
pub struct WriteFault;

/// A device that is read, or written, or both. With both, one log has the reads and the writes in their order, so a
/// contract can say what was written before a read.
pub trait Device {
    /// The reads and writes in their order, where the device reports them. A read that fails leaves the log as it was.
    ghost log: { Self → Log };

    /// What is known of its reading side. A write leaves it as it is.
    ghost input: { Self → InputSeen };

    /// What is known of its writing side. A read leaves it as it is.
    ghost output: { Self → OutputSeen };
}

/// A reader.
pub trait Source: Device {
    /// The bytes that are still to be read, where the reader reports them.
    ghost remaining: { Self → Option (List ℕ) };

    /// How many reads failed.
    ghost failures: { Self → ℕ };

    /// How many reads were tried.
    ghost reads: { Self → ℕ };

    /// Reads some bytes into the front of `buf` and answers how many; 0 only at the end of the input,
    /// or where `buf` is empty. After a fault nothing was read.
    fn read(&mut self, buf: &mut [u8]) -> Result<usize, ReadFault>
        ensures bound { IfOk result (λ n. n ≤ length buf.new) }
        ensures bytes { ReadConsumes (remaining self.old) (remaining self.new) result buf.new }
        ensures counts { CountsRead (failures self.old) (failures self.new) (reads self.old) (reads self.new) result }
        ensures logged { Grows (Self.log self.old) (Self.log self.new) (read_events result buf.new) }
        ensures keeps { Self.output self.new ≡ Self.output self.old };

    /// The reading side of the device is what is reported here.
    ghost sees: { (d : Self) → Self.input d ≡ record { left = remaining d; reads = reads d; failures = failures d } };
}

/// A writer.
pub trait Sink: Device {
    /// The bytes that were written, where the writer reports them.
    ghost contents: { Self → Option (List ℕ) };

    /// How many writes failed.
    ghost failures: { Self → ℕ };

    /// Writes all the bytes, and flushes. After a fault a prefix of the bytes was written.
    fn write_all(&mut self, bytes: &[u8]) -> Result<(), WriteFault>
        ensures bytes { OnOk result (Appends (contents self.old) (contents self.new) bytes.now) }
        ensures front { IfErr result (λ _. AppendsFront (contents self.old) (contents self.new) bytes.now) }
        ensures later { failures self.old ≤ failures self.new }
        ensures steady { OnOk result (failures self.new ≡ failures self.old) }
        ensures cause { IfErr result (λ _. RisesBy 1 (failures self.old) (failures self.new)) }
        ensures logged { Gives (Self.log self.old) (Self.log self.new) bytes.now result }
        ensures keeps { Self.input self.new ≡ Self.input self.old };

    /// The writing side of the device is what is reported here.
    ghost shows: { (d : Self) → Self.output d ≡ record { bytes = contents d; failures = failures d } };
}
