//! The slots of an index, which lead from the hash of a key to its entry.
ghost use Rattle.std.specs.Prelude.{◌≡◌, ◌<◌, ◌≤◌, [], length, true, Contains, IfSome, IfNone, IsTrue};
ghost use Rattle.std.specs.List.{AllWithin};
ghost use Rattle.entry_search.specs.Index.{hash_alone, hash_within, Climbs, IsCut, HasNoSlot};

use mo_image::EntryExtents;
use std::hash::{FoldHasher, Hasher};
use std::marker::Model;

/// How far from its home a slot is looked for before the binary search.
const REACH: usize = 6;

/// A table of this many slots (256 kB, for some 11,000 entries) is large: a look-up waits for memory.
const LARGE: usize = 16_384;

/// A slot leads from a hash of an entry straight to the entry's texts. It has 16 bytes: four slots fill a cache line.
#[derive(Clone, Copy)]
pub(crate) struct Slot {
    /// The hash of the entry's key, or of its context and msgid: the upper 32 bits of the hasher's 64.
    pub(crate) hash: u32,
    /// Where the entry's texts lie.
    pub(crate) extents: EntryExtents,
}

/// Slots in rising order of their hashes, each near the home of its hash. There are about three slots for every two
/// entries, since some are stored twice.
#[derive(Drop)]
pub(crate) struct SlotTable {
    slots: Vec<Slot>,
    /// The number of slots that the hashes are spread over.
    spread: usize,
}

impl Model for SlotTable {
    ghost use Rattle.std.specs.Prelude.{List};
    ghost use Rattle.entry_search.specs.declared.slot_table.Slot.{Slot};
    ghost use Rattle.entry_search.specs.Index.{Climbs};

    ghost Value = { List Slot };

    ghost view = { λ table. table.slots.items };

    ghost invariant = { λ table. Climbs table.slots.items };
}

/// Hashes a key, or a msgid without a context.
#[inline]
pub(crate) fn hash_alone(key: &[u8]) -> u32
    ensures { result ≡ hash_alone key.now }
{
    let mut hasher = FoldHasher::default();
    hasher.write(key);
    (hasher.finish() >> 32) as u32
}

/// Hashes a msgid in a context.
#[inline]
pub(crate) fn hash_within(context: &[u8], id: &[u8]) -> u32
    ensures { result ≡ hash_within context.now id.now }
{
    let mut hasher = FoldHasher::default();
    hasher.write(context);
    hasher.write(id);
    (hasher.finish() >> 32) as u32
}

/// Returns the home of a hash: the index where its slot is expected if slots are spread over `spread` indexes.
#[inline(always)]
pub(crate) fn home(hash: u32, spread: usize) -> usize
    ensures { result < 4294967296 }
{
    (u64::from(hash).wrapping_mul(spread as u64) >> 32) as usize
}

/// Counts the slots with hashes below the bound. It compares every slot, so that no branch waits for memory.
#[inline(always)]
fn count_below(slots: &[Slot], bound: u32) -> usize {
    let mut below: usize = 0;
    'slots: for slot in slots {
        below = below.wrapping_add(usize::from(slot.hash < bound));
    }
    below
}

/// Returns the slot of this hash among `REACH` slots.
#[inline(always)]
fn slot_in(near: &[Slot; REACH], hash: u32) -> Option<&Slot>
    ensures some { IfSome result (λ slot. Contains near.now slot.now) }
    ensures hash { IfSome result (λ slot. slot.now.hash ≡ hash) }
{
    let slot = near.get(count_below(near, hash))?;
    if slot.hash == hash { Some(slot) } else { None }
}

/// Returns the slot of this hash among fewer slots than `REACH`.
fn slot_among(few: &[Slot], hash: u32) -> Option<&Slot>
    ensures some { IfSome result (λ slot. Contains few.now slot.now) }
    ensures hash { IfSome result (λ slot. slot.now.hash ≡ hash) }
{
    few.iter().find(|slot| slot.hash == hash)
}

impl SlotTable {
    pub(crate) fn new(slots: Vec<Slot>, spread: usize) -> SlotTable
        requires { Climbs slots.items }
        ensures { result ≡ slots.items }
    {
        SlotTable { slots, spread }
    }

    /// Whether there are no slots.
    #[inline]
    pub(crate) fn is_empty(&self) -> bool
        ensures { result ≡ true → self.now ≡ [] }
    {
        self.slots.is_empty()
    }

    /// Whether the table doesn't fit into the memory that is next to a processor.
    #[inline(always)]
    pub(crate) fn is_large(&self) -> bool {
        self.slots.len() >= LARGE
    }

    /// Returns the slot of this hash, if it has this index or one of the next few.
    #[inline(always)]
    fn slot_near(&self, hash: u32, slot_index: usize) -> Option<&Slot>
        ensures some { IfSome result (λ slot. Contains self.now slot.now) }
        ensures hash { IfSome result (λ slot. slot.now.hash ≡ hash) }
    {
        let behind = self.slots.get(slot_index..)?;
        match behind.first_chunk() {
            Some(near) => slot_in(near, hash),
            None => slot_among(behind, hash),
        }
    }

    /// Whether all slots before `cut` have hashes below the bound.
    fn is_below(&self, bound: u32, cut: usize) -> bool
        requires { cut ≤ length self.now }
        ensures { IsTrue result → AllWithin (λ slot. slot.hash < bound) self.now 0 cut }
    {
        cut == 0 || self.slots[cut - 1].hash < bound
    }

    /// Whether no slot from `cut` on has a hash below the bound.
    fn is_above(&self, bound: u32, cut: usize) -> bool
        requires { cut ≤ length self.now }
        ensures { IsTrue result → AllWithin (λ slot. bound ≤ slot.hash) self.now cut (length self.now) }
    {
        cut == self.slots.len() || bound <= self.slots[cut].hash
    }

    /// Counts the slots with hashes below the bound, if the last of them is near `slot_index`.
    #[inline(always)]
    fn cut_near(&self, bound: u32, slot_index: usize) -> Option<usize>
        ensures { IfSome result (λ cut. IsCut self.now bound cut) }
    {
        let end = slot_index.saturating_add(REACH).min(self.slots.len());
        let start = slot_index.saturating_sub(REACH).min(end);
        let cut = start.saturating_add(count_below(&self.slots[start..end], bound));
        let cut = cut.min(self.slots.len());
        if self.is_below(bound, cut) && self.is_above(bound, cut) {
            Some(cut)
        } else {
            None
        }
    }

    /// Counts the slots with hashes below the bound, by binary search if the last of them is far from `slot_index`.
    fn cut(&self, bound: u32, slot_index: usize) -> usize
        ensures { IsCut self.now bound result }
    {
        match self.cut_near(bound, slot_index) {
            Some(cut) => cut,
            None => self.slots.partition_point(|slot| slot.hash < bound),
        }
    }

    /// Returns the slot at `cut`, if it has this hash.
    fn slot_at(&self, hash: u32, cut: usize) -> Option<&Slot>
        requires { IsCut self.now hash cut }
        ensures some { IfSome result (λ slot. Contains self.now slot.now) }
        ensures hash { IfSome result (λ slot. slot.now.hash ≡ hash) }
        ensures none { IfNone result (HasNoSlot self.now hash) }
    {
        let slot = self.slots.get(cut)?;
        if slot.hash == hash { Some(slot) } else { None }
    }

    /// Returns the slot of this hash, if there is one, however far it is from its home.
    #[inline(never)]
    fn slot_found(&self, hash: u32, home: usize) -> Option<&Slot>
        ensures some { IfSome result (λ slot. Contains self.now slot.now) }
        ensures hash { IfSome result (λ slot. slot.now.hash ≡ hash) }
        ensures none { IfNone result (HasNoSlot self.now hash) }
    {
        self.slot_at(hash, self.cut(hash, home))
    }

    /// Returns the slot of this hash, if there is one.
    #[inline(always)]
    pub(crate) fn slot_of(&self, hash: u32) -> Option<&Slot>
        ensures some { IfSome result (λ slot. Contains self.now slot.now) }
        ensures hash { IfSome result (λ slot. slot.now.hash ≡ hash) }
        ensures none { IfNone result (HasNoSlot self.now hash) }
    {
        let home = home(hash, self.spread);
        match self.slot_near(hash, home) {
            Some(slot) => Some(slot),
            None => self.slot_found(hash, home),
        }
    }

    /// Returns the index where the slot of this hash should be. It may be another's, and there may be no such slot.
    #[inline(always)]
    pub(crate) fn likely_slot(&self, hash: u32) -> usize {
        let home = home(hash, self.spread);
        let Some(behind) = self.slots.get(home..) else {
            return home;
        };
        let near: Option<&[Slot; REACH]> = behind.first_chunk();
        match near {
            Some(near) => home.wrapping_add(count_below(near, hash)),
            None => home,
        }
    }

    /// Returns the slot with this index, if there is one.
    #[inline(always)]
    pub(crate) fn at(&self, slot_index: usize) -> Option<&Slot>
        ensures { IfSome result (λ slot. Contains self.now slot.now) }
    {
        self.slots.get(slot_index)
    }
}
