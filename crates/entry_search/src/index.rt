//! The index: finds an entry by the hash of its key, with one comparison of keys.
ghost use Rattle.std.specs.Prelude.{◌≡◌, false, Contains, IfNone, IfSome};
ghost use Rattle.entry_search.specs.Index.{HasNoSlot};

use crate::slot_table::{Slot, SlotTable};
use std::marker::Model;

/// The entries of a catalogue by the hashes of their keys. Keys may share a hash by chance, or because somebody chose
/// them to; they are found by binary search, and all others by their slots.
#[derive(Drop)]
pub(crate) struct Index {
    slots: SlotTable,
    /// One slot for each hash that several entries have.
    shared: SlotTable,
}

impl Model for Index {
    ghost use Rattle.entry_search.specs.Index.{IndexValue};

    ghost Value = { IndexValue };

    ghost view = { λ index. record { slots = index.slots; shared = index.shared } };
}

impl Index {
    pub(crate) fn new(slots: SlotTable, shared: SlotTable) -> Index
        ensures { result ≡ record { slots = slots; shared = shared } }
    {
        Index { slots, shared }
    }

    /// Whether several entries have this hash. The contract is one-sided: a needless `true` only costs a binary search.
    #[inline]
    pub(crate) fn is_shared(&self, hash: u32) -> bool
        ensures { result ≡ false → HasNoSlot self.now.shared hash }
    {
        !self.shared.is_empty() && self.shared.slot_of(hash).is_some()
    }

    /// Returns the slot of this hash, if there is one.
    #[inline(always)]
    pub(crate) fn slot_of(&self, hash: u32) -> Option<&Slot>
        ensures some { IfSome result (λ slot. Contains self.now.slots slot.now) }
        ensures hash { IfSome result (λ slot. slot.now.hash ≡ hash) }
        ensures none { IfNone result (HasNoSlot self.now.slots hash) }
    {
        self.slots.slot_of(hash)
    }

    /// Whether a look-up has to wait for memory (`SlotTable::is_large`).
    #[inline(always)]
    pub(crate) fn is_large(&self) -> bool {
        self.slots.is_large()
    }

    /// Returns the index where the slot of this hash should be (`SlotTable::likely_slot`).
    #[inline(always)]
    pub(crate) fn likely_slot(&self, hash: u32) -> usize {
        self.slots.likely_slot(hash)
    }

    /// Returns the slot with this index, if there is one.
    #[inline(always)]
    pub(crate) fn at(&self, slot_index: usize) -> Option<&Slot>
        ensures { IfSome result (λ slot. Contains self.now.slots slot.now) }
    {
        self.slots.at(slot_index)
    }
}
