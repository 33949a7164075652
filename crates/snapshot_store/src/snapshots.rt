//! The snapshot that is published, and those that it replaced.
ghost use Rattle.std.specs.Prelude.{◌≡◌, ◌++◌, ◌∷◌, [], IfOk};
ghost use Rattle.std.specs.Arc.{arc_value};
ghost use Rattle.live_set.specs.Sets.{fold as fold_of};
ghost use Rattle.live_loads.specs.Batches.{joined_loads};

use crate::book::Seen;
use crate::snapshot::{Snapshot, with_loads};
use live_set::{CatalogueSet, Load};
use std::alloc::{AllocError, AllocFailed, Global};
use std::marker::Model;
use std::mem::replace;
use std::sync::Arc;

/// The versions of a publisher. Contracts see the published one.
#[derive(Drop)]
pub(crate) struct Snapshots {
    current: Arc<Snapshot>,
    /// Older versions that a reader may have. Readers only let go of a snapshot; what is freed, is freed here.
    retired: Vec<Arc<Snapshot>>,
}

impl Model for Snapshots {
    ghost use Rattle.std.specs.Arc.{arc_value};
    ghost use Rattle.live_loads.specs.Seen.{SeenValue};

    ghost Value = { SeenValue };

    ghost view = { λ v. arc_value v.current };
}

impl Snapshots {
    /// The snapshot of no batches.
    pub(crate) fn first(alloc: Global, seen: &Seen) -> Result<Snapshots, AllocFailed<Snapshot>>
        requires { seen.now.batches ≡ [] }
        ensures { IfOk result (λ snapshots. snapshots ≡ seen.now) }
    {
        Ok(Snapshots {
            current: Arc::new(alloc, Snapshot::first(alloc, seen))?,
            retired: Vec::new(alloc),
        })
    }

    /// The snapshot that is published.
    pub(crate) fn current(&self) -> &Arc<Snapshot>
        ensures { arc_value result.now ≡ self.now }
    {
        &self.current
    }

    /// The number of replaced versions that aren't freed.
    pub(crate) fn retained(&self) -> usize {
        self.retired.len()
    }

    /// The set of the next snapshot, which has this batch. It shares all other catalogues with the published one.
    #[tactic(auto, using(crate::proofs::Growing::set_add))]
    pub(crate) fn next_set(
        &self,
        alloc: Global,
        batch: &Vec<Load>,
    ) -> Result<CatalogueSet, AllocError>
        ensures { IfOk result (λ set. set ≡ fold_of (joined_loads (self.now.batches ++ batch.now.items ∷ []))) }
    {
        with_loads(self.current.copy_of_set(alloc)?, batch)
    }

    /// From now on this snapshot is the published one: that so far, with the batch. The batch is left empty.
    pub(crate) fn advance(&mut self, snapshot: Arc<Snapshot>, batch: &mut Vec<Load>)
        ensures current { self.new ≡ arc_value snapshot }
        ensures batch { batch.new.items ≡ [] }
    {
        let was = replace(&mut self.current, snapshot);
        batch.clear();
        // `make_room` made sure that there is room.
        drop(self.retired.push(was));
        self.reclaim();
    }

    /// Makes room in the list for one more snapshot.
    pub(crate) fn make_room(&mut self) -> Result<(), AllocError>
        ensures { self.new ≡ self.old }
    {
        self.retired.reserve(1)
    }

    /// Frees the replaced versions that only this list has.
    pub(crate) fn reclaim(&mut self)
        ensures { self.new ≡ self.old }
    {
        self.retired
            .retain(|snapshot| Arc::strong_count(snapshot) > 1);
    }
}
