//! Why bytes are refused as an MO file in any charset.
ghost use Rattle.std.specs.Prelude.{◌≡◌};
ghost use Rattle.mo_file.specs.declared.fault.MoFault.TheVariants.{Memory};
ghost use Rattle.mo_revisions.specs.declared.fault.AnyMoFault.TheVariants.{Mo as OfMo};
ghost use Rattle.mo_charsets.specs.declared.fault.RecodedFault.TheVariants.{Any};

use mo_file::MoFault;
use mo_revisions::AnyMoFault;
use std::alloc::{AllocError, AllocFailed};
use thiserror::Error;

/// Why bytes are refused as an MO file in any charset. If an allocation fails, `Memory` may be reported instead of any
/// other result.
#[derive(Clone, Copy, Debug, PartialEq, Eq, Error)]
pub enum RecodedFault {
    /// The file is refused as one in UTF-8, or it is in another charset and refused once it is decoded.
    #[error("{0}")]
    Any(AnyMoFault),
    /// The charset that the header names has no character for a byte of a string.
    #[error("byte without a character")]
    NoCharacter,
}

impl From<AnyMoFault> for RecodedFault {
    ghost from_gives = { λ fault result. result ≡ Any fault };

    fn from(fault: AnyMoFault) -> RecodedFault {
        RecodedFault::Any(fault)
    }
}

impl From<MoFault> for RecodedFault {
    ghost from_gives = { λ fault result. result ≡ Any (OfMo fault) };

    fn from(fault: MoFault) -> RecodedFault {
        RecodedFault::Any(AnyMoFault::Mo(fault))
    }
}

impl From<AllocError> for RecodedFault {
    ghost from_gives = { λ _ result. result ≡ Any (OfMo Memory) };

    fn from(_error: AllocError) -> RecodedFault {
        RecodedFault::Any(AnyMoFault::Mo(MoFault::Memory))
    }
}

impl<T: Drop> From<AllocFailed<T>> for RecodedFault {
    ghost from_gives = { λ _ result. result ≡ Any (OfMo Memory) };

    fn from(_failed: AllocFailed<T>) -> RecodedFault {
        RecodedFault::from(AllocError)
    }
}
