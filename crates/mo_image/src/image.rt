//! The entries of a catalogue, kept as the bytes of their MO file.
ghost use Rattle.std.specs.Prelude.{◌≡◌, ℕ, ◌+◌, ◌*◌, ◌<◌, ◌≤◌, ◌↔◌, List, length, slice_get, Some, IfOk, IfSome};
ghost use Rattle.std.specs.Prelude.{IsTrue};
ghost use Rattle.byteorder.specs.Endian.{little_number};
ghost use Rattle.mo_image.specs.Entry.{Entry, key};
ghost use Rattle.mo_image.specs.Map.{IsFileOf, IsLawful};
ghost use Rattle.mo_image.specs.MoFile.{header_len, spelling};
ghost use Rattle.byte_text.specs.Cut.{offset_of};
ghost use Rattle.mo_image.specs.Tables.{word_at, string_at};
ghost use Rattle.mo_image.specs.Pairs.{key_part};
ghost use Rattle.mo_image.specs.Image.{listing, IsImage, NamesText};
ghost use Rattle.mo_image.specs.Extents.{AreExtents, AreExtentsOf, AreTexts, AreTextsOf};

use crate::EntryRef;
use crate::extent::{EntryExtents, TextExtents, extent_at, text_in, text_with_nul_in};
use crate::layout::{COUNT_AT, HEADER_LEN, ROW_LEN};
use crate::writer::{EntryList, spell};
use byte_text::offset_of;
use byteorder::{ByteOrder, LittleEndian};
use std::alloc::{AllocError, Global};
use std::marker::Model;

/// The entries of a catalogue, in rising order of the keys' bytes, as their one MO file (GNU gettext manual, "MO
/// Files"): the header, the table of originals, the table of translations, and the strings.
///
/// Contracts see it as the list of its entries.
#[derive(Drop)]
pub struct Image {
    bytes: Vec<u8>,
}

impl Model for Image {
    ghost use Rattle.std.specs.Prelude.{List};
    ghost use Rattle.mo_image.specs.Entry.{Entry};

    ghost Value = { List Entry };

    ghost use Rattle.mo_image.specs.Pairs.{key_part};
    ghost use Rattle.mo_image.specs.Image.{listing, IsImage};

    ghost view = { λ image. listing image.bytes.items };

    ghost invariant = { λ image. IsImage image.bytes.items };
}

/// Reads a word of 32 bits.
#[inline(always)]
fn word(bytes: &[u8], offset: usize) -> usize
    requires { offset + 4 ≤ length bytes.now }
    ensures { result ≡ word_at little_number bytes.now offset }
{
    LittleEndian::read_u32(&bytes[offset..]) as usize
}

/// Returns the text that the row at this offset names.
#[inline(always)]
fn text(bytes: &[u8], offset: usize) -> &str
    requires { NamesText bytes.now offset }
    ensures { result.now ≡ string_at little_number bytes.now offset }
{
    text_in(bytes, extent_at(bytes, offset))
}

/// The number of entries, by the header.
#[inline(always)]
fn count_of(bytes: &[u8]) -> usize
    requires { IsImage bytes.now }
    ensures { result ≡ length (listing bytes.now) }
{
    word(bytes, COUNT_AT)
}

/// Returns the original of the i-th entry: its key, followed by a NUL and the plural if there is one.
fn original_of(bytes: &[u8], i: usize) -> &str
    requires image { IsImage bytes.now }
    requires within { i < length (listing bytes.now) }
    ensures string { result.now ≡ string_at little_number bytes.now (header_len + 8 * i) }
    ensures key { IfSome (slice_get (listing bytes.now) i) (λ e. key_part result.now ≡ key e) }
{
    text(bytes, HEADER_LEN + ROW_LEN * i)
}

/// The length of an original's key.
#[inline(always)]
fn key_len(original: &str) -> u32
    requires { length original.now < 4294967296 }
    ensures offset { result ≡ offset_of 0 original.now }
    ensures within { result ≤ length original.now }
{
    offset_of(original.as_bytes(), 0) as u32
}

/// Returns where the texts of the i-th entry lie.
#[inline(always)]
fn texts_of(bytes: &[u8], i: usize) -> TextExtents
    requires image { IsImage bytes.now }
    requires within { i < length (listing bytes.now) }
    ensures texts { AreTextsOf bytes.now (length (listing bytes.now)) i result }
    ensures key { result.key_len ≤ result.original.len }
{
    let originals = HEADER_LEN + ROW_LEN * i;
    let translations = originals + ROW_LEN * count_of(bytes);
    TextExtents {
        original: extent_at(bytes, originals),
        translation: extent_at(bytes, translations),
        key_len: key_len(text(bytes, originals)),
    }
}

/// Returns the entry whose texts lie at these extents.
#[inline(always)]
fn entry_of<'a>(bytes: &'a [u8], texts: &TextExtents) -> EntryRef<'a>
    requires image { IsImage bytes.now }
    requires extents { AreTexts bytes.now (length (listing bytes.now)) texts.now }
    ensures { (i : ℕ) → AreTextsOf bytes.now (length (listing bytes.now)) i texts.now
        → slice_get (listing bytes.now) i ≡ Some result }
{
    EntryRef::new(
        text_in(bytes, texts.original),
        texts.key_len as usize,
        text_in(bytes, texts.translation),
        text_with_nul_in(bytes, texts.translation),
    )
}

/// Returns where the strings of the i-th entry lie.
#[inline(always)]
fn extents_of(bytes: &[u8], i: usize) -> EntryExtents
    requires image { IsImage bytes.now }
    requires within { i < length (listing bytes.now) }
    ensures { AreExtentsOf bytes.now (length (listing bytes.now)) i result }
{
    EntryExtents::new(&texts_of(bytes, i), i as u32)
}

/// Returns where the texts of an entry lie, without reading the tables if the entry is short.
#[inline(always)]
fn texts_in(bytes: &[u8], extents: &EntryExtents) -> TextExtents
    requires image { IsImage bytes.now }
    requires extents { AreExtents bytes.now (length (listing bytes.now)) extents.now }
    ensures { (i : ℕ) → AreExtentsOf bytes.now (length (listing bytes.now)) i extents.now
        → AreTextsOf bytes.now (length (listing bytes.now)) i result }
{
    match extents.number() {
        Some(i) => texts_of(bytes, i as usize),
        None => extents.unpacked(),
    }
}

/// Returns the entry whose strings lie at these extents.
#[inline(always)]
fn entry_in<'a>(bytes: &'a [u8], extents: &EntryExtents) -> EntryRef<'a>
    requires image { IsImage bytes.now }
    requires extents { AreExtents bytes.now (length (listing bytes.now)) extents.now }
    ensures { (i : ℕ) → AreExtentsOf bytes.now (length (listing bytes.now)) i extents.now
        → slice_get (listing bytes.now) i ≡ Some result }
{
    entry_of(bytes, &texts_in(bytes, extents))
}

impl Image {
    /// Makes the image of a list of entries. The only error is a failed allocation.
    pub fn spelled<L: EntryList>(alloc: Global, list: &L) -> Result<Image, AllocError>
        requires { IsLawful (L.entries list.now) }
        ensures { IfOk result (λ image. image ≡ L.entries list.now) }
    {
        Image::spelled_over(Vec::new(alloc), list)
    }

    /// Makes the image of a list of entries in `memory`, whose contents are dropped.
    pub fn spelled_over<L: EntryList>(memory: Vec<u8>, list: &L) -> Result<Image, AllocError>
        requires { IsLawful (L.entries list.now) }
        ensures { IfOk result (λ image. image ≡ L.entries list.now) }
    {
        let bytes = spell(memory, list)?;
        Ok(Image { bytes })
    }

    /// Makes the image of an MO file, which it keeps as it is.
    pub fn of_file(file: Vec<u8>) -> Image
        requires { (m : List Entry) × IsFileOf file.items m }
        ensures { IsFileOf file.items result }
    {
        Image { bytes: file }
    }

    /// Makes the image of an MO file, by copying it. The only error is a failed allocation.
    pub fn copied(alloc: Global, file: &[u8]) -> Result<Image, AllocError>
        requires { (m : List Entry) × IsFileOf file.now m }
        ensures { IfOk result (λ image. IsFileOf file.now image) }
    {
        let mut bytes = Vec::with_capacity(alloc, file.len())?;
        bytes.extend_from_slice(file)?;
        Ok(Image::of_file(bytes))
    }

    /// The number of entries.
    #[inline(always)]
    pub fn len(&self) -> usize
        ensures len { result ≡ length self.now }
        ensures lawful { IsLawful self.now }
    {
        count_of(&self.bytes)
    }

    /// Whether there are no entries.
    pub fn is_empty(&self) -> bool
        ensures { IsTrue result ↔ (length self.now ≡ 0) }
    {
        self.len() == 0
    }

    /// Returns the i-th entry.
    #[inline(always)]
    pub fn entry(&self, i: usize) -> EntryRef<'_>
        requires { i < length self.now }
        ensures { slice_get self.now i ≡ Some result }
    {
        entry_of(&self.bytes, &texts_of(&self.bytes, i))
    }

    /// Returns the original of the i-th entry: its key, followed by a NUL and the plural if there is one.
    pub fn original(&self, i: usize) -> &str
        requires { i < length self.now }
        ensures { IfSome (slice_get self.now i) (λ e. key_part result.now ≡ key e) }
    {
        original_of(&self.bytes, i)
    }

    /// Returns where the strings of the i-th entry lie in the file.
    pub fn extents(&self, i: usize) -> EntryExtents
        requires { i < length self.now }
        ensures { AreExtentsOf (spelling self.now) (length self.now) i result }
    {
        extents_of(&self.bytes, i)
    }

    /// Returns the entry whose strings lie at these extents. The tables are only read for a long entry.
    #[inline(always)]
    pub fn entry_in(&self, extents: &EntryExtents) -> EntryRef<'_>
        requires { AreExtents (spelling self.now) (length self.now) extents.now }
        ensures entry { (i : ℕ) → AreExtentsOf (spelling self.now) (length self.now) i extents.now
            → slice_get self.now i ≡ Some result }
        ensures lawful { IsLawful self.now }
    {
        entry_in(&self.bytes, extents)
    }

    /// Returns the MO file.
    pub fn file(&self) -> &[u8]
        ensures file { result.now ≡ spelling self.now }
        ensures lawful { IsLawful self.now }
    {
        &self.bytes
    }
}
