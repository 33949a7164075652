//! Writes the MO file of a list of entries (GNU gettext manual, "MO Files").
//!
//! The file has a header of seven words; a table of the originals and one of the translations, with the length and the
//! offset of each string; and then the originals and the translations themselves.
ghost use Rattle.std.specs.Prelude.{◌≡◌, ◌+◌, ◌*◌, ◌^◌, ◌<◌, ◌++◌, List, length, IfOk, OnOk, Some, slice_get};
ghost use Rattle.mo_image.specs.Entry.{Entry, original, translation};
ghost use Rattle.mo_image.specs.Map.{IsLawful};
ghost use Rattle.mo_image.specs.MoFile.{header_len, word, with_nul, pool, pairs, header, spelling};
ghost use Rattle.mo_image.specs.Strings.{string_of, strings_of};

use crate::layout::{self, MAGIC};
use crate::messages::{EntryStrings, OwnedStrings};
use byteorder::{ByteOrder, LittleEndian};
use std::alloc::AllocError;

/// The length of the header, as a word of the file.
const HEADER_LEN: u32 = layout::HEADER_LEN as u32;

/// The length of a table's row, as a word of the file.
const ROW_LEN: u32 = layout::ROW_LEN as u32;

/// A list of entries that lends their strings one at a time.
pub trait EntryList {
    /// The entries, in rising order of their keys' bytes.
    ghost entries: { Self → List Entry };

    /// The number of entries.
    fn count(&self) -> usize
        ensures { result ≡ length (entries self.now) };

    /// Returns the strings of the i-th entry.
    fn strings_at(&self, i: usize) -> EntryStrings<'_>
        requires { i < length (entries self.now) }
        ensures { slice_get (entries self.now) i ≡ Some result };
}

impl<'a> EntryList for Vec<EntryStrings<'a>> {
    ghost entries = { λ strings. strings.items };

    fn count(&self) -> usize {
        self.len()
    }

    fn strings_at(&self, i: usize) -> EntryStrings<'_> {
        self[i].again()
    }
}

impl EntryList for Vec<OwnedStrings> {
    ghost use Rattle.mo_image.specs.Stored.{stored_entries};

    ghost entries = { λ messages. stored_entries messages.items };

    fn count(&self) -> usize {
        self.len()
    }

    fn strings_at(&self, i: usize) -> EntryStrings<'_> {
        self[i].lend()
    }
}

/// The two strings that an MO file has of an entry.
#[derive(Clone, Copy)]
enum Side {
    Original,
    Translation,
}

/// Appends a little-endian word of 32 bits.
fn push_word(out: &mut Vec<u8>, n: u32) -> Result<(), AllocError>
    ensures { OnOk result (out.new.items ≡ out.old.items ++ word n) }
{
    let mut bytes = [0; 4];
    LittleEndian::write_u32(&mut bytes, n);
    out.extend_from_slice(&bytes)
}

/// Appends a text and a NUL.
fn push_with_nul(out: &mut Vec<u8>, text: &str) -> Result<(), AllocError>
    ensures { OnOk result (out.new.items ≡ out.old.items ++ with_nul text.now) }
{
    out.extend_from_slice(text.as_bytes())?;
    out.push(0)?;
    Ok(())
}

/// Appends the original with its NUL: the key and a NUL, and the plural and a NUL if there is one.
fn push_original(out: &mut Vec<u8>, entry: &EntryStrings<'_>) -> Result<(), AllocError>
    ensures { OnOk result (out.new.items ≡ out.old.items ++ with_nul (original entry.now)) }
{
    push_with_nul(out, entry.key())?;
    if let Some(plural) = entry.plural() {
        push_with_nul(out, plural)?;
    }
    Ok(())
}

/// Appends the string of one side, with its NUL.
fn push_string(out: &mut Vec<u8>, side: Side, entry: &EntryStrings<'_>) -> Result<(), AllocError>
    ensures { OnOk result (out.new.items ≡ out.old.items ++ with_nul (string_of side entry.now)) }
{
    match side {
        Side::Original => push_original(out, entry),
        Side::Translation => push_with_nul(out, entry.translation()),
    }
}

/// The length of the original, without the NUL after it.
fn original_len(entry: &EntryStrings<'_>) -> usize
    requires { length (original entry.now) < 2 ^ 32 }
    ensures { result ≡ length (original entry.now) }
{
    match entry.plural() {
        Some(plural) => entry.key().len() + 1 + plural.len(),
        None => entry.key().len(),
    }
}

/// The length of the string of one side, without the NUL after it.
fn string_len(side: Side, entry: &EntryStrings<'_>) -> usize
    requires { length (string_of side entry.now) < 2 ^ 32 }
    ensures { result ≡ length (string_of side entry.now) }
{
    match side {
        Side::Original => original_len(entry),
        Side::Translation => entry.translation().len(),
    }
}

/// The length of all strings of one side, each with the NUL after it.
fn pool_len<L: EntryList>(list: &L, side: Side) -> usize
    requires { length (pool (strings_of side (L.entries list.now))) < 2 ^ 32 }
    ensures { result ≡ length (pool (strings_of side (L.entries list.now))) }
{
    let mut len = 0;
    for i in 0..list.count() {
        len += string_len(side, &list.strings_at(i)) + 1;
    }
    len
}

/// Appends the table of one side, whose strings begin at the offset `at`.
fn push_pairs<L: EntryList>(
    out: &mut Vec<u8>,
    list: &L,
    side: Side,
    mut at: u32,
) -> Result<(), AllocError>
    requires { at + length (pool (strings_of side (L.entries list.now))) < 2 ^ 32 }
    ensures { OnOk result (out.new.items ≡ out.old.items ++ pairs at (strings_of side (L.entries list.now))) }
{
    for i in 0..list.count() {
        let len = string_len(side, &list.strings_at(i)) as u32;
        push_word(out, len)?;
        push_word(out, at)?;
        at += len + 1;
    }
    Ok(())
}

/// Appends the strings of one side.
fn push_pool<L: EntryList>(out: &mut Vec<u8>, list: &L, side: Side) -> Result<(), AllocError>
    ensures { OnOk result (out.new.items ≡ out.old.items ++ pool (strings_of side (L.entries list.now))) }
{
    for i in 0..list.count() {
        push_string(out, side, &list.strings_at(i))?;
    }
    Ok(())
}

/// Appends the header of a file of `n` entries and no hash table.
fn push_header(out: &mut Vec<u8>, n: u32) -> Result<(), AllocError>
    requires { header_len + 16 * n < 2 ^ 32 }
    ensures { OnOk result (out.new.items ≡ out.old.items ++ header n) }
{
    push_word(out, MAGIC)?;
    push_word(out, 0)?;
    push_word(out, n)?;
    push_word(out, HEADER_LEN)?;
    push_word(out, HEADER_LEN + ROW_LEN * n)?;
    push_word(out, 0)?;
    push_word(out, HEADER_LEN + 2 * ROW_LEN * n)
}

/// Writes the one MO file of the entries over `memory`, which grows at most once: revision 0, little-endian, no hash
/// table and no padding.
#[tactic(auto, using(crate::proofs::Writing::part_lengths))]
pub(crate) fn spell<L: EntryList>(memory: Vec<u8>, list: &L) -> Result<Vec<u8>, AllocError>
    requires { IsLawful (L.entries list.now) }
    ensures { IfOk result (λ v. v.items ≡ spelling (L.entries list.now)) }
{
    let n = list.count() as u32;
    let originals = pool_len(list, Side::Original) as u32;
    let translations = pool_len(list, Side::Translation) as u32;
    let first = HEADER_LEN + 2 * ROW_LEN * n;
    let mut out = memory;
    out.clear();
    out.reserve_exact((first + originals + translations) as usize)?;
    push_header(&mut out, n)?;
    push_pairs(&mut out, list, Side::Original, first)?;
    push_pairs(&mut out, list, Side::Translation, first + originals)?;
    push_pool(&mut out, list, Side::Original)?;
    push_pool(&mut out, list, Side::Translation)?;
    Ok(out)
}
