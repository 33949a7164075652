//! A reader, a writer and a file that give and take little at a time, are interrupted, and fail where a test says so.
ghost use Rattle.std.specs.Prelude.{◌≡◌, IfOk, Some, map, string_bytes};

use devices::{FileFault, Files};
use std::alloc::{AllocError, Global};
use std::io;
use std::io::{Read, Write};

/// Calls of a device, which are counted from 0: the first one, and the first one behind them.
pub(crate) type Calls = (u64, u64);

/// No call.
pub(crate) const NONE: Calls = (0, 0);

/// A reader that gives `first` bytes, and then `step` bytes at a time. Some reads are interrupted, and some fail.
#[derive(Drop)]
pub(crate) struct SlowReader<'a> {
    pub(crate) left: &'a [u8],
    pub(crate) first: usize,
    pub(crate) step: usize,
    pub(crate) reads: u64,
    pub(crate) interrupted: Calls,
    pub(crate) failing: Calls,
}

impl<'a> SlowReader<'a> {
    /// A reader that isn't interrupted and doesn't fail.
    pub(crate) fn new(text: &'a [u8], first: usize, step: usize) -> SlowReader<'a> {
        SlowReader {
            left: text,
            first,
            step,
            reads: 0,
            interrupted: NONE,
            failing: NONE,
        }
    }
}

impl Read for SlowReader<'_> {
    fn read(&mut self, buf: &mut [u8]) -> io::Result<usize> {
        let turn = self.reads;
        self.reads = turn.saturating_add(1);
        if self.interrupted.0 <= turn && turn < self.interrupted.1 {
            return Err(io::Error::from(io::ErrorKind::Interrupted));
        }
        if self.failing.0 <= turn && turn < self.failing.1 {
            return Err(io::Error::from(io::ErrorKind::Other));
        }
        let wanted = if turn == 0 { self.first } else { self.step };
        let most = buf.len().min(wanted).min(self.left.len());
        buf[..most].copy_from_slice(&self.left[..most]);
        self.left = &self.left[most..];
        Ok(most)
    }
}

/// A writer that takes `step` bytes at a time, `room` in all and in `writes` writes, and then fails. What was flushed
/// is counted.
#[derive(Drop)]
pub(crate) struct SmallWriter {
    pub(crate) held: Vec<u8>,
    pub(crate) flushed: usize,
    pub(crate) step: usize,
    pub(crate) room: usize,
    pub(crate) writes: usize,
}

impl SmallWriter {
    /// A writer that takes all bytes in as many writes.
    pub(crate) fn new(alloc: Global, step: usize, writes: usize) -> SmallWriter {
        SmallWriter {
            held: Vec::new(alloc),
            flushed: 0,
            step,
            room: usize::MAX,
            writes,
        }
    }
}

impl Write for SmallWriter {
    fn write(&mut self, buf: &[u8]) -> io::Result<usize> {
        let most = buf.len().min(self.step).min(self.room);
        if most == 0 || self.writes == 0 {
            return Err(io::Error::from(io::ErrorKind::Other));
        }
        self.held.extend_from_slice(&buf[..most])?;
        self.room -= most;
        self.writes -= 1;
        Ok(most)
    }

    fn flush(&mut self) -> io::Result<()> {
        self.flushed = self.held.len();
        Ok(())
    }
}

/// The file `in.po`, and a log of what was written. Reads, or writes, fail where that is asked for.
#[derive(Drop)]
pub(crate) struct OneFile<'a> {
    pub(crate) bytes: &'a [u8],
    pub(crate) log: Vec<(String, Vec<u8>)>,
    pub(crate) can_read: bool,
    pub(crate) can_write: bool,
    pub(crate) failures: u64,
}

impl<'a> OneFile<'a> {
    /// A file before the first call.
    pub(crate) fn new(
        alloc: Global,
        bytes: &'a [u8],
        can_read: bool,
        can_write: bool,
    ) -> OneFile<'a> {
        OneFile {
            bytes,
            log: Vec::new(alloc),
            can_read,
            can_write,
            failures: 0,
        }
    }
}

/// What the log keeps of a file.
fn logged(alloc: Global, name: &str, bytes: &[u8]) -> Result<(String, Vec<u8>), AllocError>
    ensures { IfOk result (λ file. (string_bytes file.0 ≡ name.now) × (file.1.items ≡ bytes.now)) }
{
    Ok((name.to_string(alloc)?, bytes.to_vec(alloc)?))
}

impl Files for OneFile<'_> {
    ghost content = { λ files name. Some files.bytes.now };

    ghost written = { λ files. Some (map (λ file. (string_bytes file.0, file.1.items)) files.log.items) };

    ghost failures = { λ files. files.failures };

    fn read(&mut self, alloc: Global, name: &str, limit: usize) -> Result<Vec<u8>, FileFault> {
        if !self.can_read || name != "in.po" {
            self.failures = self.failures.saturating_add(1);
            return Err(FileFault::Device);
        }
        let most = limit.min(self.bytes.len());
        match self.bytes[..most].to_vec(alloc) {
            Ok(bytes) => Ok(bytes),
            Err(_) => Err(FileFault::Memory),
        }
    }

    fn write(&mut self, alloc: Global, name: &str, bytes: &[u8]) -> Result<(), FileFault> {
        if !self.can_write {
            self.failures = self.failures.saturating_add(1);
            return Err(FileFault::Device);
        }
        match logged(alloc, name, bytes) {
            Ok(file) => match self.log.push(file) {
                Ok(()) => Ok(()),
                Err(_) => Err(FileFault::Memory),
            },
            Err(_) => Err(FileFault::Memory),
        }
    }
}
