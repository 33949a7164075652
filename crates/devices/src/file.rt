//! What a program asks of files that have names.
ghost use Rattle.std.specs.Prelude.{◌≡◌, ℕ, List, Option, IfOk, IfSome, IsErrOf, OnOk, take};
ghost use Rattle.devices.specs.Files.{CountsFault, KeepsLog, Log, Logs, MayLog};

use std::alloc::Global;
use thiserror::Error;

/// Why a file couldn't be read or written.
#[derive(Clone, Copy, Debug, PartialEq, Eq, Error)]
pub enum FileFault {
    /// The file, or the device that holds it, failed.
    #[error("the file can't be read or written")]
    Device,
    /// Memory ran out.
    #[error("out of memory")]
    Memory,
}

/// Files that are read and written whole, by their names.
pub trait Files {
    /// The bytes of the file of a name, where the files report them.
    ghost content: { Self → List ℕ → Option (List ℕ) };

    /// Which files were written, in order: the name and the bytes of each, where the files report them.
    ghost written: { Self → Log };

    /// How many reads and writes failed.
    ghost failures: { Self → ℕ };

    /// The first `limit` bytes of a file, or all of them where it has no more. No file is written.
    fn read(&mut self, alloc: Global, name: &str, limit: usize) -> Result<Vec<u8>, FileFault>
        ensures bytes { IfOk result (λ v. IfSome (content self.old name.now) (λ xs. v.items ≡ take limit xs)) }
        ensures none_written { KeepsLog (written self.old) (written self.new) }
        ensures counts { CountsFault (failures self.old) (failures self.new) result };

    /// Writes a file with these bytes, and creates it if there is none. After `Memory` no file was written;
    /// after `Device` the file may have any bytes, but no other was written.
    fn write(&mut self, alloc: Global, name: &str, bytes: &[u8]) -> Result<(), FileFault>
        ensures bytes { OnOk result (Logs (written self.old) (written self.new) name.now bytes.now) }
        ensures none_written { IsErrOf result FileFault.Memory → KeepsLog (written self.old) (written self.new) }
        ensures no_other { IsErrOf result FileFault.Device → MayLog (written self.old) (written self.new) name.now }
        ensures counts { CountsFault (failures self.old) (failures self.new) result };
}
