//! Snapshots: the set of catalogues after some batches.
ghost use Rattle.std.specs.Prelude.{◌≡◌, ◌+◌, ◌<◌, ◌^◌, ◌++◌, ◌∷◌, [], length, fold, MatchBool, IfOk, IfSome};
ghost use Rattle.live_set.specs.Sets.{with_load, fold as fold_of};
ghost use Rattle.live_loads.specs.Batches.{StartsWith, joined_loads, version_of};
ghost use Rattle.snapshot_store.specs.Holding.{IsSetOf};

use crate::book::{Head, Seen, Turn, add_batch};
use live_set::{CatalogueSet, Load};
use std::alloc::{AllocError, Global};
use std::marker::Model;

/// A version that was made. Contracts see it as the batches up to and with its own.
#[derive(Drop)]
pub(crate) struct Snapshot {
    seen: Seen,
    /// The number of loads.
    version: u64,
    set: CatalogueSet,
}

impl Model for Snapshot {
    ghost use Rattle.std.specs.Prelude.{◌≡◌};
    ghost use Rattle.live_set.specs.Sets.{fold};
    ghost use Rattle.live_loads.specs.Batches.{joined_loads, version_of};
    ghost use Rattle.live_loads.specs.Seen.{SeenValue};

    ghost Value = { SeenValue };

    ghost view = { λ v. v.seen };

    ghost invariant = { λ v. (v.version ≡ version_of v.seen.batches) × (v.set ≡ fold (joined_loads v.seen.batches)) };
}

/// The set with these loads, one after another. It shares their catalogues.
pub(crate) fn with_loads(set: CatalogueSet, loads: &Vec<Load>) -> Result<CatalogueSet, AllocError>
    ensures { IfOk result (λ grown. grown ≡ fold with_load set loads.now.items) }
{
    let mut grown = set;
    'loads: for load in loads {
        grown.absorb(load)?;
    }
    Ok(grown)
}

impl Snapshot {
    /// The version of no batches.
    pub(crate) fn first(alloc: Global, seen: &Seen) -> Snapshot
        requires { seen.now.batches ≡ [] }
        ensures { result ≡ seen.now }
    {
        Snapshot {
            seen: seen.again(),
            version: 0,
            set: CatalogueSet::new(alloc),
        }
    }

    /// The number of batches.
    pub(crate) fn batch_count(&self) -> u64
        ensures { result ≡ length self.now.batches }
    {
        self.seen.batch_count()
    }

    /// The number of loads.
    pub(crate) fn version(&self) -> u64
        ensures { result ≡ version_of self.now.batches }
    {
        self.version
    }

    pub(crate) fn seen(&self) -> &Seen
        ensures { result.now ≡ self.now }
    {
        &self.seen
    }

    #[tactic(auto, using(crate::proofs::Growing::set_of))]
    pub(crate) fn set(&self) -> &CatalogueSet
        ensures { IsSetOf self.now.batches result.now }
    {
        &self.set
    }

    /// Whether `self` is a beginning of `other`; if not, `other` is a shorter beginning of `self`.
    pub(crate) fn begins(&self, other: &Snapshot) -> bool
        requires { other.now.book ≡ self.now.book }
        ensures { MatchBool result (StartsWith other.now.batches self.now.batches)
            (StartsWith self.now.batches other.now.batches
            × (length other.now.batches < length self.now.batches)) }
    {
        self.seen.begins(&other.seen)
    }

    /// A copy of the set, which shares all catalogues with it.
    pub(crate) fn copy_of_set(&self, alloc: Global) -> Result<CatalogueSet, AllocError>
        ensures { IfOk result (λ set. set ≡ fold_of (joined_loads self.now.batches)) }
    {
        self.set.try_clone(alloc)
    }

    /// The next version, which has the batch and this set, and the turn to show the one after it. Returns `None` if the
    /// book has moved on.
    pub(crate) fn next(
        &self,
        head: &Head,
        batch: &Vec<Load>,
        set: CatalogueSet,
    ) -> Option<(Snapshot, Turn)>
        requires book { head.now.word.book ≡ self.now.book }
        requires room { length self.now.batches + 1 < 2 ^ 58 }
        requires loads { version_of self.now.batches + length batch.now.items < 2 ^ 64 }
        requires set { set ≡ fold_of (joined_loads (self.now.batches ++ batch.now.items ∷ [])) }
        ensures version { IfSome result (λ r. r.0
            ≡ record { book = self.now.book; batches = self.now.batches ++ batch.now.items ∷ [] }) }
        ensures turn { IfSome result (λ r. (r.1.book ≡ self.now.book)
            × (r.1.shown ≡ length self.now.batches + 1)) }
    {
        let (seen, turn) = add_batch(head, &self.seen, batch)?;
        let next = Snapshot {
            seen,
            version: self.version + batch.len() as u64,
            set,
        };
        Some((next, turn))
    }
}
