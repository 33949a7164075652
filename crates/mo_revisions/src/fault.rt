//! Why bytes are refused as an MO file of any revision.
ghost use Rattle.std.specs.Prelude.{◌≡◌};
ghost use Rattle.mo_file.specs.declared.fault.MoFault.TheVariants.{Memory};
ghost use Rattle.mo_revisions.specs.declared.fault.AnyMoFault.TheVariants.{Dependent, Mo};

use mo_file::MoFault;
use mo_segments::DependentFault;
use std::alloc::AllocError;
use thiserror::Error;

/// Why bytes are refused as an MO file of any revision. If an allocation fails, the `Memory` of either fault may be
/// reported instead of any other result.
#[derive(Clone, Copy, Debug, PartialEq, Eq, Error)]
pub enum AnyMoFault {
    /// The file's minor revision is 1, and the header isn't 48 bytes long or a table of the system-dependent part
    /// doesn't lie in the file.
    #[error("system-dependent tables out of bounds")]
    Tables,
    /// The system-dependent part can't be read.
    #[error("{0}")]
    Dependent(DependentFault),
    /// The header or the static strings are refused, or the file of revision 0.0 with the same messages is.
    #[error("{0}")]
    Mo(MoFault),
}

impl From<MoFault> for AnyMoFault {
    ghost from_gives = { λ fault result. result ≡ Mo fault };

    fn from(fault: MoFault) -> AnyMoFault {
        AnyMoFault::Mo(fault)
    }
}

impl From<DependentFault> for AnyMoFault {
    ghost from_gives = { λ fault result. result ≡ Dependent fault };

    fn from(fault: DependentFault) -> AnyMoFault {
        AnyMoFault::Dependent(fault)
    }
}

impl From<AllocError> for AnyMoFault {
    ghost from_gives = { λ _ result. result ≡ Mo Memory };

    fn from(_error: AllocError) -> AnyMoFault {
        AnyMoFault::Mo(MoFault::Memory)
    }
}
