//! What the publisher and the readers share: some slots, and the number of the snapshot that is shown.
//!
//! A slot has the `Arc` of a snapshot, and counts who is just copying it. The publisher changes only a slot in which no
//! one is, and never the one of the snapshot that is shown.
ghost use Rattle.std.specs.Prelude.{◌≡◌, ◌≢◌, ◌<◌, length, ◌≤◌, ◌*◌, ◌/◌, ◌%◌, ◌^◌, ◌+◌, All, IfSome, IfOk};
ghost use Rattle.std.specs.Arc.{arc_value};
ghost use Rattle.counted_slot.specs.Counting.{readers};

use crate::book::{Known, Seen, Shown, shown_after};
use crate::snapshot::Snapshot;
use counted_slot::{Claim, Counted, FREE, Fits, MOST_READERS, ONE_READER, PRESENT, TAKEN};
use std::alloc::{AllocError, Global};
use std::sync::Arc;

/// With fewer readers than slots but one, a slot is always free for the publisher.
pub(crate) const SLOTS: u64 = 64;

/// How many slots a cache line of 64 bytes has, and how many such lines the slots take.
const IN_A_LINE: u64 = 4;

const LINES: u64 = SLOTS / IN_A_LINE;

/// The greatest number of a snapshot.
pub(crate) const LAST: u64 = 0x3ff_ffff_ffff_ffff;

/// A snapshot in a slot.
#[derive(Drop)]
pub(crate) struct Held {
    pub(crate) snapshot: Arc<Snapshot>,
}

/// A slot has versions of one book alone.
impl Fits for Held {
    type Tag = Seen;

    ghost fits = { λ tag held. (arc_value held.snapshot).book ≡ tag.book };
}

pub(crate) type Slot = Counted<Option<Held>>;

#[derive(Drop)]
pub(crate) struct Shared {
    pub(crate) shown: Shown,
    slots: Vec<Slot>,
    pub ghost one_book: { All (λ tag. tag.book ≡ shown.word.book) slots.items },
}

/// How far from a slot its 63 neighbours are, in the order in which a publish tries them: 4, 8, .., 60, 1, 5, .., 63.
fn distance(turn: u64) -> u64
    ensures range { result < 64 }
    ensures some { 0 < turn % 64 → 0 < result }
{
    turn % LINES * IN_A_LINE + turn % SLOTS / LINES
}

/// The slot that is `distance` places after slot `at`, in a ring.
fn slot_after(at: u64, distance: u64) -> u64
    ensures slot { result < 64 }
    ensures other { 0 < distance → distance < 64 → result ≢ at % 64 }
{
    (at % SLOTS + distance % SLOTS) % SLOTS
}

fn readers_of(word: u64) -> u64
    ensures { result ≡ readers word }
{
    word % 0x1_0000_0000 / 4
}

/// Slots with nothing in them, for versions of this book.
fn new_slots(alloc: Global, seen: &Seen) -> Result<Vec<Slot>, AllocError>
    ensures { IfOk result (λ slots. All (λ tag. tag.book ≡ seen.now.book) slots.items) }
{
    let mut slots = Vec::new(alloc);
    for _ in 0..SLOTS {
        slots.push(Counted::new(None, seen))?;
    }
    Ok(slots)
}

impl Shared {
    /// Slots of which the first one has this snapshot, which is shown, and the others nothing.
    pub(crate) fn new(
        alloc: Global,
        shown: Shown,
        seen: &Seen,
        first: &Arc<Snapshot>,
    ) -> Result<Shared, AllocError>
        requires seen { shown.word.book ≡ seen.now.book }
        requires first { (arc_value first.now).book ≡ shown.word.book }
        ensures { IfOk result (λ shared. shared.shown ≡ shown) }
    {
        let slots = new_slots(alloc, seen)?;
        let shared = Shared { shown, slots };
        let snapshot = Arc::try_clone(first)?;
        let Some(claim) = shared.room(0) else {
            return Err(AllocError);
        };
        drop(claim.put(Some(Held { snapshot }), PRESENT));
        Ok(shared)
    }

    fn slot(&self, at: u64) -> Option<&Slot>
        ensures { IfSome result (λ slot. slot.now.book ≡ self.now.shown.word.book) }
    {
        self.slots.get((at % SLOTS) as usize)
    }

    /// The right to write a slot, where no one is copying what is in it.
    fn room(&self, at: u64) -> Option<Claim<'_, Option<Held>>>
        ensures { IfSome result (λ claim. (claim.right ≡ 2) × (claim.tag.book ≡ self.now.shown.word.book)) }
    {
        let slot = self.slot(at)?;
        let seen = slot.load();
        if seen % 4 == TAKEN || readers_of(seen) != 0 {
            return None;
        }
        let (found, claim) = slot.turn(seen, TAKEN);
        if found != seen {
            claim.done();
            return None;
        }
        Some(claim)
    }

    /// The right to write any slot but that of this word. Slots of other cache lines come first, so that who copies
    /// what is in that slot isn't disturbed.
    pub(crate) fn any_room(&self, word: u64) -> Option<(u64, Claim<'_, Option<Held>>)>
        ensures { IfSome result (λ r. (r.0 < 64) × (r.0 ≢ word % 64) × (r.1.right ≡ 2)
            × (r.1.tag.book ≡ self.now.shown.word.book)) }
    {
        for turn in 1..SLOTS {
            let at = slot_after(word, distance(turn));
            if let Some(claim) = self.room(at) {
                return Some((at, claim));
            }
        }
        None
    }

    /// A copy of what is in a slot, if something is.
    fn copy(&self, at: u64) -> Option<Arc<Snapshot>>
        ensures { IfSome result (λ snapshot. (arc_value snapshot).book ≡ self.now.shown.word.book) }
    {
        let slot = self.slot(at)?;
        for _ in 0..u64::MAX {
            let seen = slot.load();
            if seen % 4 != PRESENT || readers_of(seen) == MOST_READERS {
                return None;
            }
            let (found, claim) = slot.turn(seen, seen + ONE_READER);
            if found == seen {
                return copied(claim);
            }
            claim.done();
        }
        None
    }

    /// The snapshot that is shown, which is not behind what is known, and that it was shown. It gives up only where it
    /// failed very often.
    pub(crate) fn newest(&self, known: &Known) -> Option<(Arc<Snapshot>, Known)>
        requires { known.now.book ≡ self.now.shown.word.book }
        ensures { IfSome result (λ r. (r.1 ≡ arc_value r.0) × ((arc_value r.0).book ≡ self.now.shown.word.book)
            × (length known.now.batches ≤ length (arc_value r.0).batches)) }
    {
        for _ in 0..u64::MAX {
            let (word, sight) = shown_after(&self.shown, known);
            if let Some(snapshot) = self.copy(word) {
                // The slot may have a later snapshot already, which is not shown yet.
                if snapshot.batch_count() == word / SLOTS {
                    let found = Known::found(snapshot.seen(), sight);
                    return Some((snapshot, found));
                }
            }
        }
        None
    }

    /// Empties all slots but this one. One in which someone is copying keeps its snapshot until a later call.
    pub(crate) fn empty_others(&self, but: u64) {
        for turn in 1..SLOTS {
            self.empty(slot_after(but, turn), but);
        }
    }

    /// Empties a slot other than the shown one, unless nothing is in it or someone is copying what is.
    fn empty(&self, at: u64, shown: u64)
        requires { at ≢ shown % 64 }
    {
        match self.slot(at) {
            Some(slot) if slot.load() % 4 != FREE => {}
            _ => return,
        }
        if let Some(claim) = self.room(at) {
            drop(claim.put(None, FREE));
        }
    }
}

/// A copy of what the claim lets its holder read.
fn copied(claim: Claim<'_, Option<Held>>) -> Option<Arc<Snapshot>>
    requires { claim.right ≡ 1 }
    ensures { IfSome result (λ snapshot. (arc_value snapshot).book ≡ claim.entry.tag.book) }
{
    let copy = match claim.get() {
        Some(held) => Arc::try_clone(&held.snapshot).ok(),
        None => None,
    };
    claim.leave();
    copy
}
