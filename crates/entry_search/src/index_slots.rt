//! Builds the index of a catalogue's entries.
ghost use Rattle.std.specs.Prelude.{◌<◌, length, Contains, IfOk, OnOk};
ghost use Rattle.mo_image.specs.Map.{IsLawful};
ghost use Rattle.entry_search.specs.declared.slot_table.Slot.{Slot};
ghost use Rattle.entry_search.specs.Index.{AddsSlotsOf, Climbs, IsIndex, NamesEntries, OneForEachHash};

use crate::index::Index;
use crate::slot_table::{Slot, SlotTable, hash_alone, hash_within, home};
use mo_image::Image;
use std::alloc::{AllocError, Global};

/// The slots of the greatest hashes go behind the last home. There are only a few, unless somebody chose the keys.
const ROOM_BEHIND: usize = 64;

/// Appends the slots by which the index finds the i-th entry: one for its key and, if it has a context, one for its
/// context and msgid.
fn push_slots(slots: &mut Vec<Slot>, image: &Image, i: usize) -> Result<(), AllocError>
    requires { i < length image.now }
    ensures { OnOk result (AddsSlotsOf image.now i slots.old.items slots.new.items) }
{
    let extents = image.extents(i);
    let entry = image.entry_in(&extents);
    let hash = hash_alone(entry.key().as_bytes());
    slots.push(Slot { hash, extents })?;
    if let Some(context) = entry.context() {
        let hash = hash_within(context.as_bytes(), entry.id().as_bytes());
        slots.push(Slot { hash, extents })?;
    }
    Ok(())
}

/// Returns the slots of all entries, in the order of the entries.
fn list_slots(alloc: Global, image: &Image) -> Result<Vec<Slot>, AllocError>
    ensures names { IfOk result (λ slots. NamesEntries image.now slots.items) }
    ensures lawful { IsLawful image.now }
{
    let count = image.len();
    let mut slots = Vec::with_capacity(alloc, count)?;
    'entries: for i in 0..count {
        push_slots(&mut slots, image, i)?;
    }
    Ok(slots)
}

/// Returns the slots of all entries, in rising order of their hashes.
fn sort_slots(alloc: Global, image: &Image) -> Result<Vec<Slot>, AllocError>
    ensures lawful { IsLawful image.now }
    ensures names { IfOk result (λ slots. NamesEntries image.now slots.items) }
    ensures climbs { IfOk result (λ slots. Climbs slots.items) }
{
    let mut slots = list_slots(alloc, image)?;
    slots.sort_unstable_by_key(|slot| slot.hash);
    Ok(slots)
}

/// Returns a slot of each hash that several of the sorted slots have.
fn shared_slots(alloc: Global, slots: &[Slot]) -> Result<Vec<Slot>, AllocError>
    requires { Climbs slots.now }
    ensures climbs { IfOk result (λ shared. Climbs shared.items) }
    ensures one { IfOk result (λ shared. OneForEachHash slots.now shared.items) }
{
    let mut shared = Vec::new(alloc);
    'slots: for i in 1..slots.len() {
        if slots[i - 1].hash == slots[i].hash {
            shared.push(slots[i])?;
        }
    }
    Ok(shared)
}

/// Spreads the sorted slots out: each goes to its hash's home or after it, and is repeated to fill the room before it.
fn spread_out(alloc: Global, slots: &[Slot], spread: usize) -> Result<Vec<Slot>, AllocError>
    requires { Climbs slots.now }
    ensures climbs { IfOk result (λ spread. Climbs spread.items) }
    ensures same { IfOk result (λ spread. (x : Slot) → (Contains slots.now x → Contains spread.items x)
        × (Contains spread.items x → Contains slots.now x)) }
{
    let mut placed = Vec::with_capacity(alloc, spread.saturating_add(ROOM_BEHIND))?;
    'slots: for slot in slots {
        let end = home(slot.hash, spread).max(placed.len()) + 1;
        placed.resize(end, *slot)?;
    }
    Ok(placed)
}

/// Builds the index of a catalogue's entries. The only error is a failed allocation.
pub(crate) fn index_of(alloc: Global, image: &Image) -> Result<Index, AllocError>
    ensures { IfOk result (λ index. IsIndex image.now index) }
{
    let slots = sort_slots(alloc, image)?;
    let shared = shared_slots(alloc, &slots)?;
    let spread = slots.len() + slots.len() / 2;
    let placed = spread_out(alloc, &slots, spread)?;
    let several = shared.len();
    Ok(Index::new(
        SlotTable::new(placed, spread),
        SlotTable::new(shared, several),
    ))
}
