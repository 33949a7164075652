//! Devices that are read and written: what they report of their bytes, and how they count their failures.
//!
//! A program is written over the traits `Source`, `Sink` and `Files`, so that its contract can say which
//! bytes it read and wrote, and that it blames a device only where that device failed. `Reading` and
//! `Writing` make the first two of the readers and writers of `std::io`, and `Disk` has the files of the system, which
//! it replaces in one step. `LineInput` finds the lines of an input as it arrives.
#![tactic(auto)]

mod adapters;
mod beside;
mod device;
mod disk;
mod failures;
mod file;
mod incoming;
mod input;
mod late_errors;
mod pair;
mod replace;
mod stream;

pub use adapters::{Reading, Writing};
pub use device::{Device, ReadFault, Sink, Source, WriteFault};
pub use disk::Disk;
pub use file::{FileFault, Files};
pub use incoming::{LineInput, LineInputFault};
pub use input::{InputFault, MOST_READS, read_all, read_expected};
pub use pair::Pair;
