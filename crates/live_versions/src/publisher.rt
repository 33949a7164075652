//! The publisher: what it loads is pending until it publishes.
ghost use Rattle.std.specs.Prelude.{◌≡◌, ◌≢◌, [], length, drop, IfOk, OnOk, OnErr};
ghost use Rattle.std.specs.Arc.{arc_value};
ghost use Rattle.live_loads.specs.Batches.{version_of, after_publish};
ghost use Rattle.live_loads.specs.Store.{AreNames, HasRoom, IsWithin, AddsLoad, room_of};

use crate::Version;
use crate::fault::PublishFault;
use crate::notice::Notice;
use crate::rule::Shown;
use crate::seal::{Seal, Sealing, bundle_of};
use crate::seen::Seen;
use crate::writer::{StoreWriter, append_load, append_seal, just_shown, publish_at};
use live_loads::Room;
use live_set::Load;
use std::alloc::AllocError;
use std::marker::Model;
use std::snapshot::Snapshot;
use std::sync::{Arc, Wait};

/// Loads and publishes catalogues. It isn't `Drop`: end it with `end`.
///
/// Contracts see it as the published batches, the pending loads, and the number of loads that it may accept in all.
pub struct Publisher {
    writer: StoreWriter,
    sealing: Arc<Sealing>,
    seen: Seen,
    most: u64,
    /// The number of pending loads.
    pending: u64,
}

impl Model for Publisher {
    ghost use Rattle.std.specs.Prelude.{◌≡◌, ◌+◌, ◌≤◌, ◌<◌, ◌^◌, drop, length};
    ghost use Rattle.std.specs.Arc.{arc_value};
    ghost use Rattle.live_loads.specs.Store.{StoreValue};
    ghost use Rattle.live_loads.specs.Batches.{version_of};
    ghost use Rattle.live_versions.specs.Changes.{loads_of};

    ghost Value = { StoreValue };

    ghost view = { λ p.
        record { seen = p.seen; pending = loads_of (drop p.writer.behind p.writer.log.items); most = p.most } };

    ghost invariant = { λ p. (p.writer.desk.shown.value.seen ≡ p.seen)
        × ((arc_value p.sealing).head.word.book ≡ p.seen.book)
        × (p.pending ≡ length (loads_of (drop p.writer.behind p.writer.log.items)))
        × (version_of p.seen.batches + p.pending ≤ p.most) × (p.most < 2 ^ 64) };
}

impl Publisher {
    pub(crate) fn new(
        writer: StoreWriter,
        sealing: Arc<Sealing>,
        seen: Seen,
        most: u64,
    ) -> Publisher
        requires shown { (writer.desk.shown.value.seen ≡ seen) × (seen.batches ≡ []) }
        requires pending { drop writer.behind writer.log.items ≡ [] }
        requires sealing { (arc_value sealing).head.word.book ≡ seen.book }
        ensures { result ≡ record { seen = seen; pending = []; most = most } }
    {
        Publisher {
            writer,
            sealing,
            seen,
            most,
            pending: 0,
        }
    }

    /// The number of published loads.
    pub fn version(&self) -> Version
        ensures version { result ≡ version_of self.now.seen.batches }

        // Published and pending loads together never exceed what the store takes.
        ensures within { IsWithin self.now }
    {
        self.seen.version()
    }

    /// The number of pending loads: accepted and not yet published.
    pub fn pending(&self) -> u64
        ensures count { result ≡ length self.now.pending }

        // Published and pending loads together never exceed what the store takes.
        ensures within { IsWithin self.now }
    {
        self.pending
    }

    /// A notice of what is published now.
    pub fn tell(&mut self) -> Notice
        ensures notice { result ≡ self.old.seen }
        ensures same { self.new ≡ self.old }
    {
        Notice::new(&self.seen)
    }

    /// How many loads are accepted, of how many.
    pub(crate) fn room(&self) -> Room
        ensures is { result ≡ room_of self.now }
        ensures within { IsWithin self.now }
    {
        Room {
            accepted: self.seen.version() + self.pending,
            most: self.most,
        }
    }

    /// Appends a load to the pending ones.
    pub(crate) fn append(&mut self, load: Load) -> Result<(), AllocError>
        requires names { AreNames load.domain load.locale }
        requires room { HasRoom self.old }
        ensures ok { OnOk result (AddsLoad self.old load.domain load.locale load.map self.new) }
        ensures err { OnErr result (self.new ≡ self.old) }
        ensures seen { self.new.seen ≡ self.old.seen }
    {
        append_load(&mut self.writer, load)?;
        self.pending += 1;
        Ok(())
    }

    /// Publishes all pending loads in one step, as one batch, and returns the new version. If nothing is pending, the
    /// version stays as it is.
    ///
    /// If memory runs out, nothing changes: the loads stay pending, and the next publish takes them together with those
    /// accepted meanwhile. It waits for readers that are still in the copy that it writes next, which are those that
    /// entered before the last publish. So a `Pinned` that is never left may keep it from returning.
    pub fn publish<R: Wait>(&mut self, rt: &R) -> Result<Version, PublishFault>
        ensures ok { IfOk result (λ _.
            self.new.seen ≡ record {
              book = self.old.seen.book;
              batches = after_publish self.old.seen.batches self.old.pending;
            }) }
        ensures version { IfOk result (λ version. version ≡ version_of self.new.seen.batches) }
        ensures empty { IfOk result (λ _. self.new.pending ≡ []) }
        ensures err { OnErr result (self.new ≡ self.old) }

        // With nothing pending it doesn't allocate, and can't run out of memory.
        ensures memory { OnErr result (self.old.pending ≢ []) }
        ensures most { self.new.most ≡ self.old.most }

        // It stays the publisher of the same store.
        ensures book { self.new.seen.book ≡ self.old.seen.book }
    {
        if self.pending == 0 {
            return Ok(self.seen.version());
        }
        let Ok(sealing) = Arc::try_clone(&self.sealing) else {
            return Err(PublishFault::Memory);
        };
        let bundle = bundle_of(&self.writer);
        let seal = Seal::new(sealing, self.seen.again(), self.pending, bundle);
        let shown = Snapshot::of(&seal);
        if append_seal(&mut self.writer, seal).is_err() {
            return Err(PublishFault::Memory);
        }
        if publish_at(rt, &mut self.writer, &shown).is_err() {
            return Err(PublishFault::Memory);
        }
        self.seen = just_shown(rt, &self.writer);
        self.pending = 0;
        Ok(self.seen.version())
    }

    /// Ends the publisher and drops its pending loads. Readers that enter from now on may find the store closed. It
    /// waits until every `Pinned` is left.
    pub fn end<R: Wait>(self, rt: &R) {
        drop(self.close(rt));
    }

    /// Closes the store and returns the copy that readers entered last: it has what was published, and nothing pending.
    fn close<R: Wait>(self, rt: &R) -> Box<Shown>
        ensures { result.value.seen ≡ self.seen }
    {
        let Publisher {
            writer,
            sealing: _,
            seen: _,
            most: _,
            pending: _,
        } = self;
        writer.take(rt)
    }
}
