//! The hash table of a file (GNU gettext manual, "MO Files").
ghost use Rattle.std.specs.Prelude.{◌≡◌, ◌*◌, ◌<◌, ◌≤◌, ◌^◌, ◌+◌, length, map, IfOk, OnOk, slice_set, ◌++◌};
ghost use Rattle.std.specs.List.{flat_map};
ghost use Rattle.mo_image.specs.Entry.{key};
ghost use Rattle.mo_image.specs.MoFile.{most_file, word};
ghost use Rattle.mo_dependent.specs.Hashing.{hash, hash_step, probe, taken_count, IsFirstFree, IsHashTable, IsPrime};

use crate::words::push_word;
use mo_image::Image;
use std::alloc::{AllocError, Global};

/// The hash value of a string after one more byte.
fn hash_step(hash: u32, byte: u8) -> u32
    ensures { result ≡ hash_step hash byte }
{
    let full = (u64::from(hash) * 16 + u64::from(byte)) % 0x1_0000_0000;
    (full % 0x1000_0000) as u32 ^ (full / 0x1000_0000 * 16) as u32
}

/// The hash value of a string.
fn hash_of(key: &[u8]) -> u32
    ensures { result ≡ hash key.now }
{
    let mut hash = 0;
    'bytes: for i in 0..key.len() {
        hash = hash_step(hash, key[i]);
    }
    hash
}

/// The slot that a string with this hash value tries after `k` others.
fn probe(size: usize, hash: u32, k: usize) -> usize
    requires some { 2 < size }
    requires small { size ≤ most_file }
    requires k { k < size }
    ensures slot { result ≡ probe size hash k }
    ensures within { result < size }
{
    let hash = hash as usize;
    (hash + k * (1 + hash % (size - 2))) % size
}

/// The first free slot that a string with this hash value tries.
fn first_free(slots: &[u32], hash: u32) -> usize
    requires some { 2 < length slots.now }
    requires small { length slots.now ≤ most_file }
    requires prime { IsPrime (length slots.now) }
    requires free { taken_count slots.now < length slots.now }
    ensures free { IsFirstFree slots.now hash result }
    ensures within { result < length slots.now }
{
    'tries: for k in 0..slots.len() {
        let slot = probe(slots.len(), hash, k);
        if slots[slot] == 0 {
            return slot;
        }
    }
    unreachable!()
}

/// The slots of the hash table: 0 for a free one, and otherwise the number of a message, counted from 1.
pub(crate) fn hash_table(
    alloc: Global,
    statics: &Image,
    size: usize,
) -> Result<Vec<u32>, AllocError>
    requires some { 2 < size }
    requires small { size ≤ most_file }
    requires prime { IsPrime size }
    requires room { length statics.now < size }
    ensures table { IfOk result (λ v. IsHashTable size (map key statics.now) v.items) }
    ensures len { IfOk result (λ v. length v.items ≡ size) }
{
    let mut slots = vec![in alloc; 0; size]?;
    'messages: for i in 0..statics.len() {
        let slot = first_free(slots.as_slice(), hash_of(statics.entry(i).key().as_bytes()));
        slots[slot] = (i + 1) as u32;
    }
    Ok(slots)
}

/// Appends the slots.
pub(crate) fn push_slots(out: &mut Vec<u8>, slots: &[u32]) -> Result<(), AllocError>
    ensures { OnOk result (out.new.items ≡ out.old.items ++ flat_map word slots.now) }
{
    'slots: for i in 0..slots.len() {
        push_word(out, slots[i] as usize)?;
    }
    Ok(())
}
