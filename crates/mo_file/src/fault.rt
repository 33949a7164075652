//! Why bytes are refused as an MO file.
ghost use Rattle.std.specs.Prelude.{◌≡◌};
ghost use Rattle.mo_file.specs.declared.fault.MoFault.TheVariants.{Memory};

use std::alloc::{AllocError, AllocFailed};
use std::error::Error;
use std::fmt;

/// Why bytes are refused as an MO file. If several reasons apply, the first in this list is reported. If an allocation
/// fails, `Memory` may be reported instead of any other result.
#[derive(Clone, Copy, Debug, PartialEq, Eq)]
pub enum MoFault {
    /// There are more than 268,435,456 bytes.
    TooLarge,
    /// There are fewer than the 28 bytes of a header.
    Short,
    /// The first word is the magic number in neither byte order.
    Magic,
    /// The revision isn't 0.
    Revision,
    /// A table, or a string with the byte after it, doesn't lie in the file.
    Bounds,
    /// A string isn't followed by a NUL.
    NoNul,
    /// A string isn't UTF-8, or a key holds byte 4 twice or more.
    BadText,
    /// An original holds NUL twice or more, or has no plural and a translation of several forms.
    Forms,
    /// The keys don't rise strictly by bytes.
    Order,
    /// The header names a charset that isn't accepted.
    Charset,
    /// The file that would be written of the map would have more than 268,435,456 bytes.
    Swollen,
    /// An allocation failed. This says nothing about the bytes.
    Memory,
}

impl From<AllocError> for MoFault {
    ghost from_gives = { λ _ e. e ≡ Memory };

    fn from(_error: AllocError) -> MoFault {
        MoFault::Memory
    }
}

impl<T: Drop> From<AllocFailed<T>> for MoFault {
    ghost from_gives = { λ _ e. e ≡ Memory };

    fn from(_error: AllocFailed<T>) -> MoFault {
        MoFault::Memory
    }
}

impl MoFault {
    fn text(self) -> &'static str {
        match self {
            MoFault::TooLarge => "file too large",
            MoFault::Short => "file too short",
            MoFault::Magic => "not an MO file",
            MoFault::Revision => "unknown revision",
            MoFault::Bounds => "out of bounds",
            MoFault::NoNul => "string not closed",
            MoFault::BadText => "bad text",
            MoFault::Forms => "wrong plural forms",
            MoFault::Order => "keys out of order",
            MoFault::Charset => "unsupported charset",
            MoFault::Swollen => "map too large",
            MoFault::Memory => "out of memory",
        }
    }
}

impl fmt::Display for MoFault {
    fn fmt<W: fmt::Write>(&self, f: &mut fmt::Formatter<W>) -> fmt::Result {
        f.write_str(self.text())
    }
}

impl Error for MoFault {}
