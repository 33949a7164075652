//! Readers.
ghost use Rattle.std.specs.Prelude.{◌≡◌, ◌≤◌, ◌/◌, length, IsTrue, IsFalse};
ghost use Rattle.std.specs.Arc.{arc_value};
ghost use Rattle.live_loads.specs.Batches.{StartsWith, version_of};
ghost use Rattle.snapshot_store.specs.Holding.{IsSetOf};

use crate::away::Away;
use crate::book::{Known, Seen, shown_after, tie};
use crate::notice::Notice;
use crate::shared::{SLOTS, Shared};
use crate::snapshot::Snapshot;
use live_set::CatalogueSet;
use std::marker::Model;
use std::sync::Arc;

/// A reader of a store, in the snapshot that it entered last. None of its methods waits or allocates, and a reader
/// frees nothing while the store has its publisher. Contracts see it as the batches of that snapshot.
#[derive(Drop)]
pub struct Reader {
    shared: Arc<Shared>,
    snapshot: Arc<Snapshot>,
    known: Known,
}

impl Model for Reader {
    ghost use Rattle.std.specs.Prelude.{◌≡◌};
    ghost use Rattle.std.specs.Arc.{arc_value};
    ghost use Rattle.live_loads.specs.Seen.{SeenValue};

    ghost Value = { SeenValue };

    ghost view = { λ r. arc_value r.snapshot };

    // The snapshot that a reader is in was shown.
    ghost invariant = { λ r. ((arc_value r.shared).shown.word.book ≡ (arc_value r.snapshot).book)
        × (r.known ≡ arc_value r.snapshot) };
}

impl Reader {
    pub(crate) fn new(shared: Arc<Shared>, snapshot: Arc<Snapshot>, known: Known) -> Reader
        requires { ((arc_value shared).shown.word.book ≡ (arc_value snapshot).book) × (known ≡ arc_value snapshot) }
        ensures { result ≡ arc_value snapshot }
    {
        Reader {
            shared,
            snapshot,
            known,
        }
    }

    /// The batches of the snapshot that was entered last.
    pub(crate) fn seen(&self) -> &Seen
        ensures { result.now ≡ self.now }
    {
        self.snapshot.seen()
    }

    /// That this snapshot was shown.
    pub(crate) fn known(&self) -> &Known
        ensures { result.now ≡ self.now }
    {
        &self.known
    }

    /// Whether an entry would find nothing new. It costs one load, as such an entry does, and moves nothing. What it
    /// returns depends on other threads, so no clause says it.
    pub fn is_current(&self) -> bool {
        let (word, _) = shown_after(&self.shared.shown, &self.known);
        word / SLOTS == self.snapshot.batch_count()
    }

    /// Enters the newest snapshot. It is never older than the one that was entered before. If nothing new is published,
    /// this costs one load.
    pub fn enter(&mut self)
        ensures later { StartsWith self.new.batches self.old.batches }
        ensures book { self.new.book ≡ self.old.book }
    {
        let known = self.known.again();
        self.enter_after_known(&known);
    }

    /// Like `enter`; the snapshot isn't older than the notice's either, whichever thread made the notice. The notice
    /// must be of this reader's store. Returns false, and stays in its snapshot, only after 2^64 failed attempts.
    pub fn enter_after(&mut self, notice: &Notice) -> bool
        requires { notice.now.book ≡ self.old.book }
        ensures sees { IsTrue result → StartsWith self.new.batches notice.now.batches }
        ensures stays { IsFalse result → self.new ≡ self.old }
        ensures later { StartsWith self.new.batches self.old.batches }
        ensures book { self.new.book ≡ self.old.book }
    {
        self.enter_after_known(notice.known())
    }

    fn enter_after_known(&mut self, known: &Known) -> bool
        requires { known.now.book ≡ self.old.book }
        ensures sees { IsTrue result → StartsWith self.new.batches known.now.batches }
        ensures stays { IsFalse result → self.new ≡ self.old }
        ensures later { StartsWith self.new.batches self.old.batches }
        ensures book { self.new.book ≡ self.old.book }
    {
        let (word, _) = shown_after(&self.shared.shown, known);
        if word / SLOTS == self.snapshot.batch_count() {
            tie(self.snapshot.seen(), known);
            return true;
        }
        let Some((snapshot, found)) = self.shared.newest(known) else {
            return false;
        };
        // It is never older than what was entered, though no contract says so.
        if !self.snapshot.begins(&snapshot) {
            return false;
        }
        tie(snapshot.seen(), known);
        self.snapshot = snapshot;
        self.known = found;
        true
    }

    /// Leaves the snapshot, so that this reader keeps none alive. The publisher frees it, at its next publish or
    /// `reclaim`, if no other reader is in it.
    pub fn leave(self) -> Away
        ensures { result ≡ self }
    {
        let Reader {
            shared,
            snapshot,
            known,
        } = self;
        Away::new(shared, snapshot.version(), known)
    }

    /// The number of loads that are published in the snapshot that was entered last.
    pub fn version(&self) -> u64
        ensures { result ≡ version_of self.now.batches }
    {
        self.snapshot.version()
    }

    /// The set of the snapshot that was entered last. It is lent until the next entry.
    pub fn set(&self) -> &CatalogueSet
        ensures { IsSetOf self.now.batches result.now }
    {
        self.snapshot.set()
    }
}
