//! The publisher: what it loads is pending until it publishes.
ghost use Rattle.std.specs.Prelude.{◌≡◌, ◌≢◌, ◌≤◌, ◌<◌, ◌+◌, ◌/◌, ◌%◌, ◌^◌, ◌↔◌, ◌++◌, ◌∷◌, []};
ghost use Rattle.std.specs.Prelude.{length, MatchBool, IsTrue, IfOk, IfErr, OnOk, OnErr};
ghost use Rattle.std.specs.Arc.{arc_value};
ghost use Rattle.live_loads.specs.Batches.{StartsWith, version_of, after_publish};
ghost use Rattle.live_loads.specs.Store.{AreNames, HasRoom, IsWithin, AddsLoad, room_of};
ghost use Rattle.snapshot_store.specs.Holding.{store_holding, most_loads};
ghost use Rattle.snapshot_store.specs.declared.fault.PublishFault.TheVariants.{Memory, Spent};

use crate::away::Away;
use crate::book::{Head, Known, Seen, Turn, first_turn, open_book, show, shown_after, wait};
use crate::entrance::Entrance;
use crate::fault::{OpenFault, PublishFault};
use crate::notice::Notice;
use crate::reader::Reader;
use crate::shared::{Held, LAST, SLOTS, Shared};
use crate::snapshot::Snapshot;
use crate::snapshots::Snapshots;
use counted_slot::{FREE, PRESENT};
use live_loads::Room;
use live_set::Load;
use std::alloc::{AllocError, Global};
use std::marker::Model;
use std::mem::replace;
use std::sync::Arc;

/// The number of loads that a store takes.
const MOST: u64 = 0x3ff_ffff_ffff_ffff;

/// Loads and publishes catalogues. Contracts see it as the published batches, the pending loads, and the number of
/// loads that it may accept in all.
#[derive(Drop)]
pub struct Publisher {
    /// The word by which batches are made. Readers never look at it, so it isn't among what they share.
    head: Head,
    shared: Arc<Shared>,
    snapshots: Snapshots,
    /// The empty beginning of the store's book.
    beginning: Seen,
    known: Known,
    /// Only who has it shows a version, so readers see no more than what is published.
    turn: Turn,
    pending: Vec<Load>,
}

impl Model for Publisher {
    ghost use Rattle.std.specs.Prelude.{◌≡◌, ◌+◌, ◌≤◌, [], length};
    ghost use Rattle.std.specs.Arc.{arc_value};
    ghost use Rattle.live_loads.specs.Batches.{version_of};
    ghost use Rattle.live_loads.specs.Store.{StoreValue};
    ghost use Rattle.snapshot_store.specs.Holding.{store_holding, most_loads};

    ghost Value = { StoreValue };

    ghost view = { λ p. store_holding p.snapshots p.pending.items };

    ghost invariant = { λ p. (p.head.word.book ≡ p.snapshots.book)
        × ((arc_value p.shared).shown.word.book ≡ p.snapshots.book)
        × (p.beginning.batches ≡ []) × (p.beginning.book ≡ p.snapshots.book)
        × (p.known ≡ p.snapshots)
        × (p.turn.book ≡ p.snapshots.book) × (p.turn.shown ≡ length p.snapshots.batches)
        × (version_of p.snapshots.batches + length p.pending.items ≤ most_loads) };
}

/// Opens a store in which nothing is published.
pub fn open_store(alloc: Global) -> Result<Publisher, OpenFault>
    ensures { IfOk result (λ p. (p ≡ store_holding p.seen []) × (p.seen.batches ≡ [])) }
{
    let (head, shown, beginning) = open_book();
    // Nobody has the book yet; but no proof knows that the first turn wasn't given.
    let Some(turn) = first_turn(&head, &beginning) else {
        return Err(OpenFault::Memory);
    };
    let snapshots = Snapshots::first(alloc, &beginning)?;
    let shared = Arc::new(
        alloc,
        Shared::new(alloc, shown, &beginning, snapshots.current())?,
    )?;
    let known = Known::first(&beginning);
    Ok(Publisher {
        head,
        shared,
        snapshots,
        beginning,
        known,
        turn,
        pending: Vec::new(alloc),
    })
}

/// Puts the version into its place, which nobody else has. Returns whether it did.
fn fill(room: &mut Arc<Snapshot>, snapshot: Snapshot) -> bool
    ensures { MatchBool result (arc_value room.new ≡ snapshot) (arc_value room.new ≡ arc_value room.old) }
{
    match Arc::get_mut(room) {
        Some(at) => {
            *at = snapshot;
            true
        }
        None => false,
    }
}

impl Publisher {
    /// The number of published loads.
    pub fn version(&self) -> u64
        ensures version { result ≡ version_of self.now.seen.batches }

        // Published and pending loads together never exceed what the store takes.
        ensures within { IsWithin self.now }
    {
        self.snapshots.current().version()
    }

    /// The number of pending loads: accepted and not yet published.
    pub fn pending(&self) -> u64
        ensures count { result ≡ length self.now.pending }
        ensures within { IsWithin self.now }
    {
        self.pending.len() as u64
    }

    /// The number of replaced versions that aren't freed. Right after `reclaim` these are the ones that a reader has.
    pub fn retained(&self) -> usize {
        self.snapshots.retained()
    }

    /// Frees the replaced versions that no reader has. Each publish does so as well.
    pub fn reclaim(&mut self)
        ensures { self.new ≡ self.old }
    {
        // A slot that isn't shown has nothing but versions that were replaced.
        if self.snapshots.retained() == 0 {
            return;
        }
        let (word, _) = shown_after(&self.shared.shown, &self.known);
        self.shared.empty_others(word);
        self.snapshots.reclaim();
    }

    /// A notice of what is published now.
    pub fn tell(&self) -> Notice
        ensures { result ≡ self.now.seen }
    {
        Notice::new(self.snapshots.current().version(), self.known.again())
    }

    /// A reader of this store, in the version that was published last. Fails if there are 2^31 readers already.
    pub fn reader(&self) -> Result<Reader, AllocError>
        ensures { IfOk result (λ reader. reader ≡ self.now.seen) }
    {
        let shared = Arc::try_clone(&self.shared)?;
        let snapshot = Arc::try_clone(self.snapshots.current())?;
        Ok(Reader::new(shared, snapshot, self.known.again()))
    }

    /// An entrance to this store: readers can be made there while this publisher publishes. Fails if there are 2^31
    /// readers already.
    pub fn entrance(&self) -> Result<Entrance, AllocError>
        ensures { IfOk result (λ entrance. entrance ≡ self.now.seen) }
    {
        let shared = Arc::try_clone(&self.shared)?;
        Ok(Entrance::new(shared, self.known.again()))
    }

    /// Whether a reader of this store is in the version that is published now.
    pub fn is_entered_by(&self, reader: &Reader) -> bool
        requires { reader.now.book ≡ self.now.seen.book }
        ensures { MatchBool result (reader.now ≡ self.now.seen) (reader.now ≢ self.now.seen) }
    {
        self.snapshots.current().seen().is_same(reader.seen())
    }

    /// What a reader of this store has seen is a beginning of what is published. It tells callers so, and changes
    /// nothing. No publish is running meanwhile, since it needs the publisher.
    pub fn bounds(&mut self, reader: &Reader)
        requires { reader.now.book ≡ self.old.seen.book }
        ensures same { self.new ≡ self.old }
        ensures begins { StartsWith self.new.seen.batches reader.now.batches }
    {
        self.bounds_known(reader.known());
    }

    /// Like `bounds`, of a reader that has left.
    pub fn bounds_away(&mut self, away: &Away)
        requires { away.now.book ≡ self.old.seen.book }
        ensures same { self.new ≡ self.old }
        ensures begins { StartsWith self.new.seen.batches away.now.batches }
    {
        self.bounds_known(away.known());
    }

    fn bounds_known(&mut self, known: &Known)
        requires { known.now.book ≡ self.old.seen.book }
        ensures same { self.new ≡ self.old }
        ensures begins { StartsWith self.new.seen.batches known.now.batches }
    {
        let seen = self.snapshots.current().seen();
        wait(&self.head, seen, &mut self.turn, known);
    }

    /// How many loads are accepted, of how many.
    pub(crate) fn room(&self) -> Room
        ensures is { result ≡ room_of self.now }
        ensures within { IsWithin self.now }
    {
        Room {
            accepted: self.snapshots.current().version() + self.pending.len() as u64,
            most: MOST,
        }
    }

    /// Appends a load to the pending ones.
    pub(crate) fn append(&mut self, load: Load) -> Result<(), AllocError>
        requires names { AreNames load.domain load.locale }
        requires room { HasRoom self.old }
        ensures ok { OnOk result (AddsLoad self.old load.domain load.locale load.map self.new) }
        ensures err { OnErr result (self.new ≡ self.old) }
        ensures seen { self.new.seen ≡ self.old.seen }
    {
        Ok(self.pending.push(load)?)
    }

    /// Publishes all pending loads in one step, as one batch, and returns the new version. If nothing is pending, the
    /// version stays as it is. It waits for nothing.
    ///
    /// On a fault nothing changes: the loads stay pending, and the next publish takes them together with those accepted
    /// meanwhile. After `Busy` a later call may succeed.
    #[tactic(auto, using(crate::proofs::Growing::published_some))]
    pub fn publish(&mut self, alloc: Global) -> Result<u64, PublishFault>
        ensures ok { IfOk result (λ _. self.new.seen ≡ record {
          book = self.old.seen.book;
          batches = after_publish self.old.seen.batches self.old.pending;
        }) }
        ensures version { IfOk result (λ version. version ≡ version_of self.new.seen.batches) }
        ensures empty { IfOk result (λ _. self.new.pending ≡ []) }
        ensures err { OnErr result (self.new ≡ self.old) }

        // With nothing pending it doesn't allocate, and can't fail.
        ensures memory { OnErr result (self.old.pending ≢ []) }

        // It is `Spent` only where as many batches are published as have numbers.
        ensures spent { IfErr result (λ fault. fault ≡ Spent → most_loads ≤ length self.old.seen.batches) }
        ensures most { self.new.most ≡ self.old.most }

        // It stays the publisher of the same store.
        ensures book { self.new.seen.book ≡ self.old.seen.book }
    {
        self.reclaim();
        if !self.pending.is_empty() {
            self.publish_pending(alloc)?;
        }
        Ok(self.snapshots.current().version())
    }

    /// Publishes what is pending as one batch.
    fn publish_pending(&mut self, alloc: Global) -> Result<(), PublishFault>
        ensures ok { OnOk result (self.new ≡ store_holding record {
          book = self.old.seen.book;
          batches = self.old.seen.batches ++ self.old.pending ∷ [];
        } []) }
        ensures err { OnErr result (self.new ≡ self.old) }
        ensures spent { IfErr result (λ fault. fault ≡ Spent → most_loads ≤ length self.old.seen.batches) }
    {
        let last = self.snapshots.current().batch_count();
        if last >= LAST {
            return Err(PublishFault::Spent);
        }
        // Once the batch is in the book nothing may fail, so all memory is taken before.
        let set = self.snapshots.next_set(alloc, &self.pending)?;
        let mut room = Arc::new(alloc, Snapshot::first(alloc, &self.beginning))?;
        self.snapshots.make_room()?;
        let (word, _) = shown_after(&self.shared.shown, &self.known);
        if word / SLOTS > last {
            return Err(PublishFault::Memory);
        }
        let Some((at, claim)) = self.shared.any_room(word) else {
            return Err(PublishFault::Busy);
        };
        // Nothing below fails, since a store has one publisher; but no proof says that.
        let Some((snapshot, next)) = self
            .snapshots
            .current()
            .next(&self.head, &self.pending, set)
        else {
            drop(claim.put(None, FREE));
            return Err(PublishFault::Memory);
        };
        if !fill(&mut room, snapshot) {
            drop(claim.put(None, FREE));
            return Err(PublishFault::Memory);
        }
        let Ok(mine) = Arc::try_clone(&room) else {
            drop(claim.put(None, FREE));
            return Err(PublishFault::Memory);
        };
        drop(claim.put(Some(Held { snapshot: room }), PRESENT));
        self.go_on(mine, word, at, next)
    }

    /// Shows the version, which is in slot `at`, in place of the one that the word names. From then on it is the one
    /// that is published, and nothing is pending.
    #[tactic(auto, using(crate::proofs::Growing::version_added))]
    fn go_on(
        &mut self,
        snapshot: Arc<Snapshot>,
        word: u64,
        at: u64,
        next: Turn,
    ) -> Result<(), PublishFault>
        requires snapshot { arc_value snapshot ≡ record {
          book = self.old.seen.book;
          batches = self.old.seen.batches ++ self.old.pending ∷ [];
        } }
        requires slot { (at < 64) × (at ≢ word % 64) }
        requires word { length self.old.seen.batches ≡ word / 64 }
        requires room { length self.old.seen.batches + 1 < 2 ^ 58 }
        requires next { (next.book ≡ self.old.seen.book) × (next.shown ≡ length self.old.seen.batches + 1) }
        ensures ok { OnOk result (self.new ≡ store_holding (arc_value snapshot) []) }
        ensures err { OnErr result (self.new ≡ self.old) }
        ensures fault { IfErr result (λ fault. fault ≡ Memory) }
    {
        let turn = replace(&mut self.turn, next);
        match show(&self.shared.shown, snapshot.seen(), word, at, turn) {
            Ok(known) => {
                self.shared.empty_others(at);
                self.known = known;
                self.snapshots.advance(snapshot, &mut self.pending);
                Ok(())
            }
            Err(turn) => {
                self.turn = turn;
                Err(PublishFault::Memory)
            }
        }
    }
}
