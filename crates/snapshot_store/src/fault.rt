//! Why a store isn't opened, and why nothing is published. Loads are refused with `live_loads::StoreFault`.
ghost use Rattle.std.specs.Prelude.{◌≡◌};
ghost use Rattle.snapshot_store.specs.declared.fault.PublishFault.TheVariants.{Memory};

use std::alloc::{AllocError, AllocFailed};
use thiserror::Error;

/// Why no store was opened.
#[derive(Clone, Copy, Debug, PartialEq, Eq, Error)]
pub enum OpenFault {
    /// Out of memory.
    #[error("out of memory")]
    Memory,
}

/// Why nothing was published. The store is as it was.
#[derive(Clone, Copy, Debug, PartialEq, Eq, Error)]
pub enum PublishFault {
    /// Out of memory.
    #[error("out of memory")]
    Memory,
    /// Some reader is just copying from each free slot, which takes 63 readers that are stopped there: try again.
    #[error("busy")]
    Busy,
    /// There are no more numbers for versions.
    #[error("no more versions")]
    Spent,
}

impl From<AllocError> for OpenFault {
    fn from(_: AllocError) -> OpenFault {
        OpenFault::Memory
    }
}

impl<T: Drop> From<AllocFailed<T>> for OpenFault {
    fn from(_: AllocFailed<T>) -> OpenFault {
        OpenFault::Memory
    }
}

impl From<AllocError> for PublishFault {
    ghost from_gives = { λ _ fault. fault ≡ Memory };

    fn from(_: AllocError) -> PublishFault {
        PublishFault::Memory
    }
}

impl<T: Drop> From<AllocFailed<T>> for PublishFault {
    ghost from_gives = { λ _ fault. fault ≡ Memory };

    fn from(_: AllocFailed<T>) -> PublishFault {
        PublishFault::Memory
    }
}
