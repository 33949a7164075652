//! The files of the system.
ghost use Rattle.std.specs.Prelude.{None};

use crate::adapters::Reading;
use crate::failures::FileFailures;
use crate::file::{FileFault, Files};
use crate::input::{InputFault, read_expected};
use crate::replace::write_file;
use std::alloc::Global;
use std::fs::File;

/// The files of the system, by their paths.
#[derive(Drop)]
pub struct Disk<'a> {
    rt: &'a HostRuntime,
    failures: FileFailures,
}

impl<'a> Disk<'a> {
    /// The files of the system that `rt` gives, none of which has failed yet.
    pub fn new(rt: &'a HostRuntime) -> Disk<'a> {
        Disk {
            rt,
            failures: FileFailures { count: 0 },
        }
    }
}

/// The length of a file, or 0 if it isn't known.
fn length_of(file: &File) -> usize {
    match file.metadata() {
        Ok(metadata) => usize::try_from(metadata.len()).unwrap_or(0),
        Err(_) => 0,
    }
}

impl Files for Disk<'_> {
    ghost content = { λ _ name. None };

    ghost written = { λ _. None };

    ghost failures = { λ disk. disk.failures.count };

    fn read(&mut self, alloc: Global, name: &str, limit: usize) -> Result<Vec<u8>, FileFault> {
        let file = match File::open(self.rt, name) {
            Ok(file) => file,
            Err(error) => return Err(self.failures.fault_of(&error)),
        };
        let expected = length_of(&file);
        match read_expected(alloc, &mut Reading::new(file), limit, expected) {
            Ok(bytes) => Ok(bytes),
            Err(InputFault::Memory) => Err(FileFault::Memory),
            Err(InputFault::Unreadable) => Err(self.failures.fail()),
        }
    }

    fn write(&mut self, alloc: Global, name: &str, bytes: &[u8]) -> Result<(), FileFault> {
        match write_file(self.rt, alloc, name, bytes) {
            Ok(()) => Ok(()),
            Err(error) => Err(self.failures.fault_of(&error)),
        }
    }
}
