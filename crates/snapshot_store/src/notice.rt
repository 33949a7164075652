//! Notices of what is published.
ghost use Rattle.std.specs.Prelude.{◌≡◌};
ghost use Rattle.live_loads.specs.Batches.{version_of};

use crate::book::Known;
use std::marker::Model;

/// A notice of what was published when it was made, for the readers of the same store. It keeps no version alive.
/// Contracts see it as the published batches.
#[derive(Drop)]
pub struct Notice {
    version: u64,
    known: Known,
}

impl Model for Notice {
    ghost use Rattle.std.specs.Prelude.{◌≡◌};
    ghost use Rattle.live_loads.specs.Batches.{version_of};
    ghost use Rattle.live_loads.specs.Seen.{SeenValue};

    ghost Value = { SeenValue };

    ghost view = { λ notice. notice.known };

    ghost invariant = { λ notice. notice.version ≡ version_of notice.known.batches };
}

impl Notice {
    pub(crate) fn new(version: u64, known: Known) -> Notice
        requires { version ≡ version_of known.batches }
        ensures { result ≡ known }
    {
        Notice { version, known }
    }

    pub(crate) fn known(&self) -> &Known
        ensures { result.now ≡ self.now }
    {
        &self.known
    }

    /// The number of loads that were published.
    pub fn version(&self) -> u64
        ensures { result ≡ version_of self.now.batches }
    {
        self.version
    }
}
