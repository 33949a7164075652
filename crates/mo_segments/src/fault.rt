//! Why the system-dependent part of a file can't be read.
ghost use Rattle.std.specs.Prelude.{◌≡◌};
ghost use Rattle.mo_segments.specs.declared.fault.DependentFault.TheVariants.{Memory};

use std::alloc::{AllocError, AllocFailed};
use std::error::Error;
use std::fmt;

/// Why the system-dependent part of a file can't be read. If an allocation fails, `Memory` may be reported instead of
/// any other result.
#[derive(Clone, Copy, Debug, PartialEq, Eq)]
pub enum DependentFault {
    /// A segment doesn't lie in the file, or doesn't end in a NUL.
    Segment,
    /// A descriptor of a system-dependent string doesn't lie in the file.
    Descriptor,
    /// A descriptor names a segment that the file doesn't have.
    SegmentNumber,
    /// A piece of a system-dependent string doesn't lie in the file.
    Text,
    /// The last piece of a system-dependent string doesn't end in a NUL.
    OpenText,
    /// A descriptor and its text take more bytes than there is room for.
    Swollen,
    /// An allocation failed. This says nothing about the bytes.
    Memory,
}

impl From<AllocError> for DependentFault {
    ghost from_gives = { λ _ e. e ≡ Memory };

    fn from(_error: AllocError) -> DependentFault {
        DependentFault::Memory
    }
}

impl<T: Drop> From<AllocFailed<T>> for DependentFault {
    ghost from_gives = { λ _ e. e ≡ Memory };

    fn from(_error: AllocFailed<T>) -> DependentFault {
        DependentFault::Memory
    }
}

impl DependentFault {
    fn text(self) -> &'static str {
        match self {
            DependentFault::Segment => "bad segment",
            DependentFault::Descriptor => "descriptor out of bounds",
            DependentFault::SegmentNumber => "unknown segment number",
            DependentFault::Text => "system-dependent string out of bounds",
            DependentFault::OpenText => "system-dependent string not closed",
            DependentFault::Swollen => "system-dependent strings too large",
            DependentFault::Memory => "out of memory",
        }
    }
}

impl fmt::Display for DependentFault {
    fn fmt<W: fmt::Write>(&self, f: &mut fmt::Formatter<W>) -> fmt::Result {
        f.write_str(self.text())
    }
}

impl Error for DependentFault {}
