//! Notices of what is published.
ghost use Rattle.std.specs.Prelude.{◌≡◌};
ghost use Rattle.live_loads.specs.Batches.{version_of};

use crate::Version;
use crate::seen::Seen;
use std::marker::Model;

/// A notice of what was published when it was made, for the readers of the same store. Contracts see it as the
/// published batches.
#[derive(Drop)]
pub struct Notice {
    pub(crate) seen: Seen,
}

impl Model for Notice {
    ghost use Rattle.live_loads.specs.Seen.{SeenValue};

    ghost Value = { SeenValue };

    ghost view = { λ notice. notice.seen };
}

impl Notice {
    pub(crate) fn new(seen: &Seen) -> Notice
        ensures { result ≡ seen.now }
    {
        Notice { seen: seen.again() }
    }

    /// The number of loads published when the notice was made.
    pub fn version(&self) -> Version
        ensures { result ≡ version_of self.now.batches }
    {
        self.seen.version()
    }
}
