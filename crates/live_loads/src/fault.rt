//! Why a load is refused.
ghost use Rattle.std.specs.Prelude.{◌≡◌};
ghost use Rattle.live_loads.specs.declared.fault.StoreFault.TheVariants.{Memory};

use catalogue::LoadFault;
use mo_file::MoFault;
use std::alloc::{AllocError, AllocFailed};
use thiserror::Error;

/// Why a load was refused: if several reasons hold, the first of this list.
#[derive(Clone, Copy, Debug, PartialEq, Eq, Error)]
pub enum StoreFault {
    /// The domain or the locale isn't a name.
    #[error("not a name")]
    BadName,
    /// The store has accepted as many loads as it takes.
    #[error("as many loads as the store takes")]
    VersionsSpent,
    /// The PO text is refused for this reason.
    #[error("the text is refused")]
    Refused(LoadFault),
    /// The MO file is refused for this reason, which is never `MoFault::Memory`.
    #[error("the MO file is refused: {0}")]
    RefusedMo(MoFault),
    /// Out of memory, which may be returned in place of any result that comes after the checks of the names and the
    /// room.
    #[error("out of memory")]
    Memory,
}

impl From<AllocError> for StoreFault {
    ghost from_gives = { λ _ fault. fault ≡ Memory };

    fn from(_: AllocError) -> StoreFault {
        StoreFault::Memory
    }
}

impl<T: Drop> From<AllocFailed<T>> for StoreFault {
    ghost from_gives = { λ _ fault. fault ≡ Memory };

    fn from(_: AllocFailed<T>) -> StoreFault {
        StoreFault::Memory
    }
}
