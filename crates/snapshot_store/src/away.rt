//! Readers that are in no version.
ghost use Rattle.std.specs.Prelude.{◌≡◌, IfOk, IfErr};
ghost use Rattle.std.specs.Arc.{arc_value};
ghost use Rattle.live_loads.specs.Batches.{StartsWith, version_of};

use crate::book::{Known, tie};
use crate::notice::Notice;
use crate::reader::Reader;
use crate::shared::Shared;
use std::marker::Model;
use std::sync::Arc;

/// A reader that has left its version. It keeps no version alive, and knows which one it left, so that it never enters
/// an older one. Contracts see it as the batches of the version that it left.
#[derive(Drop)]
pub struct Away {
    shared: Arc<Shared>,
    /// The number of loads that are published in the version that was left.
    version: u64,
    known: Known,
}

impl Model for Away {
    ghost use Rattle.std.specs.Prelude.{◌≡◌};
    ghost use Rattle.std.specs.Arc.{arc_value};
    ghost use Rattle.live_loads.specs.Batches.{version_of};
    ghost use Rattle.live_loads.specs.Seen.{SeenValue};

    ghost Value = { SeenValue };

    ghost view = { λ a. a.known };

    ghost invariant = { λ a. ((arc_value a.shared).shown.word.book ≡ a.known.book)
        × (a.version ≡ version_of a.known.batches) };
}

impl Away {
    pub(crate) fn new(shared: Arc<Shared>, version: u64, known: Known) -> Away
        requires book { (arc_value shared).shown.word.book ≡ known.book }
        requires version { version ≡ version_of known.batches }
        ensures { result ≡ known }
    {
        Away {
            shared,
            version,
            known,
        }
    }

    /// That the version that was left was shown.
    pub(crate) fn known(&self) -> &Known
        ensures { result.now ≡ self.now }
    {
        &self.known
    }

    /// The number of loads that are published in the version that was left.
    pub fn version(&self) -> u64
        ensures { result ≡ version_of self.now.batches }
    {
        self.version
    }

    /// Enters the newest version, which is never older than the one that was left. It waits for nothing, and allocates
    /// nothing. Fails, and stays away, only after 2^64 failed attempts.
    pub fn enter(self) -> Result<Reader, Away>
        ensures later { IfOk result (λ reader. StartsWith reader.batches self.batches) }
        ensures book { IfOk result (λ reader. reader.book ≡ self.book) }
        ensures stays { IfErr result (λ away. away ≡ self) }
    {
        let Some((snapshot, found)) = self.shared.newest(&self.known) else {
            return Err(self);
        };
        tie(snapshot.seen(), &self.known);
        let Away {
            shared,
            version: _,
            known: _,
        } = self;
        Ok(Reader::new(shared, snapshot, found))
    }

    /// Like `enter`; the version isn't older than the notice's either, whichever thread made the notice. The notice
    /// must be of this reader's store.
    pub fn enter_after(self, notice: &Notice) -> Result<Reader, Away>
        requires { notice.now.book ≡ self.book }
        ensures sees { IfOk result (λ reader. StartsWith reader.batches notice.now.batches) }
        ensures later { IfOk result (λ reader. StartsWith reader.batches self.batches) }
        ensures book { IfOk result (λ reader. reader.book ≡ self.book) }
        ensures stays { IfErr result (λ away. (away.book ≡ self.book) × StartsWith away.batches self.batches) }
    {
        let mut reader = self.enter()?;
        if reader.enter_after(notice) {
            Ok(reader)
        } else {
            Err(reader.leave())
        }
    }
}
