//! Failures of files, counted.
ghost use Rattle.std.specs.Prelude.{◌≡◌, ◌≤◌};
ghost use Rattle.devices.specs.Devices.{RisesBy};

use crate::file::FileFault;
use std::io;
use std::io::ErrorKind;

/// A count of the failures of files.
#[derive(Clone, Copy, Debug)]
pub(crate) struct FileFailures {
    /// How many calls failed; it stops at the largest number.
    pub(crate) count: u64,
}

impl FileFailures {
    /// Counts a failure.
    pub(crate) fn fail(&mut self) -> FileFault
        ensures later { self.old.count ≤ self.new.count }
        ensures counted { RisesBy 1 self.old.count self.new.count }
    {
        self.count = self.count.saturating_add(1);
        FileFault::Device
    }

    /// What an error means. It is counted, unless memory ran out.
    pub(crate) fn fault_of(&mut self, error: &io::Error) -> FileFault
        ensures later { self.old.count ≤ self.new.count }
        ensures counted { result ≡ FileFault.Device → RisesBy 1 self.old.count self.new.count }
    {
        match error.kind() {
            ErrorKind::OutOfMemory => FileFault::Memory,
            _ => self.fail(),
        }
    }
}
