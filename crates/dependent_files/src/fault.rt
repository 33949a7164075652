//! Why a PO text has no MO file.
ghost use Rattle.std.specs.Prelude.{◌≡◌};
ghost use Rattle.po_checks.specs.Refusal.{out_of_memory};
ghost use Rattle.any_charset.specs.declared.fault.TextFault.TheVariants.{Load};
ghost use Rattle.dependent_files.specs.declared.fault.FileFault.TheVariants.{Text};

use any_charset::TextFault;
use mo_file::MoFault;
use std::alloc::{AllocError, AllocFailed};
use thiserror::Error;

/// Why a PO text has no MO file. If an allocation fails, a `Text` with `LoadKind::Memory` may be reported instead of
/// any other result.
#[derive(Clone, Copy, Debug, PartialEq, Eq, Error)]
pub enum FileFault {
    /// The text is refused.
    #[error("{0}")]
    Text(TextFault),
    /// The file would have more than 268,435,456 bytes, or its system-dependent strings take more than that when they
    /// are read.
    #[error("file too large")]
    TooLarge,
    /// The file that was written doesn't read as the messages. This was never seen, and would be a defect of this
    /// library.
    #[error("file not read back")]
    NotReadBack,
    /// The static messages, or all messages as this machine has them, have no catalogue.
    #[error("{0}")]
    Catalogue(MoFault),
}

impl From<TextFault> for FileFault {
    ghost from_gives = { λ fault result. result ≡ Text fault };

    fn from(fault: TextFault) -> FileFault {
        FileFault::Text(fault)
    }
}

impl From<AllocError> for FileFault {
    ghost from_gives = { λ _ result. result ≡ Text (Load out_of_memory) };

    fn from(error: AllocError) -> FileFault {
        FileFault::Text(TextFault::from(error))
    }
}

impl<T: Drop> From<AllocFailed<T>> for FileFault {
    ghost from_gives = { λ _ result. result ≡ Text (Load out_of_memory) };

    fn from(_failed: AllocFailed<T>) -> FileFault {
        FileFault::from(AllocError)
    }
}
