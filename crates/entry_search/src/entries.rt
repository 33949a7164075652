//! The entries of a catalogue, found by their keys.
ghost use Rattle.std.specs.Prelude.{◌≡◌, length, option_map};
ghost use Rattle.mo_image.specs.Entry.{key_bytes};
ghost use Rattle.mo_image.specs.Map.{entry_at};
ghost use Rattle.entry_search.specs.Search.{AtMostDigits};

use crate::find::{find_counted_in, find_in, find_near};
use crate::index::Index;
use crate::index_slots::index_of;
use crate::{AskedKey, Steps};
use mo_image::{EntryRef, Image};
use std::alloc::{AllocError, Global};
use std::marker::Model;
use std::sync::ledger::Ledger;

/// The hint that says nothing: it is larger than any slot of an index.
pub const NO_HINT: u64 = u64::MAX;

/// The entries of a catalogue, in rising order of the keys' bytes, with an index once `index` has been called.
/// Contracts see it as the list of the entries.
#[derive(Drop)]
pub struct Entries {
    image: Image,
    index: Option<Index>,
}

impl Model for Entries {
    ghost use Rattle.std.specs.Prelude.{List};
    ghost use Rattle.mo_image.specs.Entry.{Entry};

    ghost Value = { List Entry };

    ghost use Rattle.std.specs.Prelude.{IfSome};
    ghost use Rattle.entry_search.specs.Index.{IsIndex};

    ghost view = { λ e. e.image };

    ghost invariant = { λ e. IfSome e.index (λ index. IsIndex e.image index) };
}

impl Entries {
    /// Makes the entries of an image, without an index.
    pub fn new(image: Image) -> Entries
        ensures { result ≡ image }
    {
        Entries { image, index: None }
    }

    /// The entries as their one MO file.
    pub fn image(&self) -> &Image
        ensures { result.now ≡ self.now }
    {
        &self.image
    }

    /// Builds an index of the keys' hashes, with which a search is a single comparison of keys. The entries don't
    /// change. If an allocation fails, nothing is changed.
    ///
    /// Hashes have 32 bits. Keys that share one are still found by binary search.
    pub fn index(&mut self, alloc: Global) -> Result<(), AllocError>
        ensures { self.new ≡ self.old }
    {
        self.index = Some(index_of(alloc, &self.image)?);
        Ok(())
    }

    /// Finds the entry of a msgid, in a context or in none, by their bytes, which needn't be UTF-8. `None` means that
    /// there is no such entry.
    #[inline(always)]
    pub fn find(&self, context: Option<&[u8]>, id: &[u8]) -> Option<EntryRef<'_>>
        ensures { result ≡ entry_at self.now (key_bytes (option_map (λ s. s.now) context.entry) id.now) }
    {
        self.find_asked(&AskedKey::new(context, id))
    }

    /// Finds the entry of a key that was made before, as `find` does. To look one key up in several catalogues, make it
    /// once.
    #[inline(always)]
    pub fn find_asked(&self, asked: &AskedKey<'_>) -> Option<EntryRef<'_>>
        ensures { result ≡ entry_at self.now asked.now }
    {
        find_in(&self.image, self.index.as_ref(), asked)
    }

    /// Returns a hint for `find_hinted`: where the index should have the entry of this key. To look up many keys, first
    /// get the hints of all of them; a processor waits for the index's memory for several of them at once. It is
    /// `NO_HINT` if the index is so small that there is nothing to wait for.
    #[inline(always)]
    pub fn hint(&self, asked: &AskedKey<'_>) -> u64 {
        match &self.index {
            Some(index) if index.is_large() => index.likely_slot(asked.hash()) as u64,
            _ => NO_HINT,
        }
    }

    /// Finds the entry of a msgid as `find` does, whatever the hint is. It takes the least time with the hint of the
    /// msgid's key (`hint`).
    #[inline(always)]
    pub fn find_hinted(&self, context: Option<&[u8]>, id: &[u8], hint: u64) -> Option<EntryRef<'_>>
        ensures { result ≡ entry_at self.now (key_bytes (option_map (λ s. s.now) context.entry) id.now) }
    {
        find_near(&self.image, self.index.as_ref(), context, id, hint as usize)
    }

    /// Finds the entry of a msgid as `find` does, and counts the steps: at most as many as the number of entries has
    /// binary digits.
    pub fn find_counted<L: Ledger>(
        &self,
        context: Option<&[u8]>,
        id: &[u8],
        steps: &mut Steps<L>,
    ) -> Option<EntryRef<'_>>
        ensures found { result ≡ entry_at self.now (key_bytes (option_map (λ s. s.now) context.entry) id.now) }
        ensures cost { AtMostDigits (length self.now) steps.old steps.new }
    {
        let asked = AskedKey::new(context, id);
        find_counted_in(&self.image, self.index.as_ref(), &asked, steps)
    }
}
