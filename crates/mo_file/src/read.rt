//! Reading MO files.
ghost use Rattle.std.specs.Prelude.{◌≡◌, ◌+◌, ◌^◌, ◌<◌, ◌≤◌, length, IfOk, IfErr, IsTrue, Some, option_map};
ghost use Rattle.std.specs.Str.{IsUtf8};
ghost use Rattle.mo_file.specs.Tables.{string_at};
ghost use Rattle.mo_file.specs.MoReading.{table_at, file_by, StringLies, before_nul, TableLies, AreOriginalTexts};
ghost use Rattle.byteorder.specs.Endian.{little_number};
ghost use Rattle.catalogue.specs.Map.{IsFileOf};
ghost use Rattle.mo_file.specs.MoReading.{file_of, AreTranslationTexts, PassesBelow, Refused, Mo};
ghost use Rattle.mo_file.specs.Owned.{IsUnread};
ghost use Rattle.mo_file.specs.Pairs.{plural_part, entry_of, entries_of_rows, named_in};

use crate::fault::MoFault;
use crate::own::is_own;
use crate::refusals::{check_all, is_low_first};
use crate::write::write_mo;
use byte_text::split_at_byte;
use byteorder::{BigEndian, ByteOrder, LittleEndian};
use catalogue::{Catalogue, EntryStrings};
use mo_image::{COUNT_AT, ORIGINALS_AT, ROW_LEN, TRANSLATIONS_AT};
use mo_tables::{string, word};
use std::alloc::{AllocError, Global};

/// Returns the string of a row, which has been checked to be UTF-8.
fn text<T: ByteOrder>(bytes: &[u8], offset: usize) -> &str
    requires row { offset + 8 ≤ length bytes.now }
    requires lies { StringLies T.number_of bytes.now offset }
    requires utf8 { IsUtf8 (string_at T.number_of bytes.now offset) }
    ensures { result.now ≡ string_at T.number_of bytes.now offset }
{
    let string = string::<T>(bytes, offset);
    unsafe { str::from_utf8_unchecked(string) }
}

/// Splits an original into its key and its plural, if it has one.
fn split_original(original: &str) -> (&str, Option<&str>)
    ensures key { result.0.now ≡ before_nul original.now }
    ensures plural { option_map (λ s. s.now) result.1 ≡ plural_part original.now }
{
    match split_at_byte(original, 0) {
        Some((key, plural)) => (key, Some(plural)),
        None => (original, None),
    }
}

/// Returns the entry of an original and a translation.
fn entry_strings<'a>(original: &'a str, translation: &'a str) -> EntryStrings<'a>
    ensures { result ≡ entry_of original.now translation.now }
{
    let (key, plural) = split_original(original);
    EntryStrings::new(key, plural, translation)
}

/// Reads the entries of two tables of `n` rows.
fn entries<'a, T: ByteOrder>(
    alloc: Global,
    bytes: &'a [u8],
    originals: usize,
    translations: usize,
    n: usize,
) -> Result<Vec<EntryStrings<'a>>, AllocError>
    requires originals { TableLies (table_at T.number_of bytes.now originals n) }
    requires translations { TableLies (table_at T.number_of bytes.now translations n) }
    requires original_texts { AreOriginalTexts (table_at T.number_of bytes.now originals n) }
    requires translation_texts { AreTranslationTexts (table_at T.number_of bytes.now translations n) }
    ensures { IfOk result (λ v. v.items ≡ entries_of_rows T.number_of bytes.now originals translations n) }
{
    let mut entries = Vec::with_capacity(alloc, n)?;
    for i in 0..n {
        let original = text::<T>(bytes, originals + ROW_LEN * i);
        let translation = text::<T>(bytes, translations + ROW_LEN * i);
        entries.push(entry_strings(original, translation))?;
    }
    Ok(entries)
}

/// Reads the map of a file that has passed all tests.
fn read_file<T: ByteOrder>(alloc: Global, bytes: &[u8]) -> Result<Catalogue, AllocError>
    requires { PassesBelow (file_by T.number_of bytes.now) 12 }
    ensures { IfOk result (λ c. c ≡ named_in T.number_of bytes.now) }
{
    let n = word::<T>(bytes, COUNT_AT);
    let entries = entries::<T>(
        alloc,
        bytes,
        word::<T>(bytes, ORIGINALS_AT),
        word::<T>(bytes, TRANSLATIONS_AT),
        n,
    )?;
    Catalogue::from_strings(alloc, entries)
}

/// Reads the map of a file that has passed all tests, in the byte order of its magic number.
fn read_strings(alloc: Global, bytes: &[u8]) -> Result<Catalogue, AllocError>
    requires { PassesBelow (file_of bytes.now) 12 }
    ensures { IfOk result (Mo bytes.now) }
{
    if is_low_first(bytes) {
        read_file::<LittleEndian>(alloc, bytes)
    } else {
        read_file::<BigEndian>(alloc, bytes)
    }
}

/// Whether a file that has passed all tests is in the layout of `write_mo`.
fn is_written(bytes: &[u8]) -> bool
    requires { PassesBelow (file_of bytes.now) 12 }
    ensures { IsTrue result → IsFileOf bytes.now (named_in little_number bytes.now) }
{
    is_low_first(bytes) && is_own(bytes)
}

/// Reads an MO file in either byte order, wherever its strings lie (GNU gettext manual, "MO Files"). The hash table is
/// ignored. A file in the layout of `write_mo` is copied as a whole.
///
/// The error is the first refusal that holds, or `MoFault::Memory`.
pub fn read_mo(alloc: Global, bytes: &[u8]) -> Result<Catalogue, MoFault>
    ensures ok { IfOk result (λ c. Mo bytes.now c) }
    ensures err { IfErr result (λ f. Refused bytes.now f) }
{
    check_all(alloc, bytes)?;
    if is_written(bytes) {
        return Ok(Catalogue::from_file(alloc, bytes)?);
    }
    Ok(read_strings(alloc, bytes)?)
}

/// Reads the map of a file that has passed all tests, and keeps a file in the layout of `write_mo`.
fn read_owned(alloc: Global, bytes: Vec<u8>) -> Result<Catalogue, AllocError>
    requires { PassesBelow (file_of bytes.items) 12 }
    ensures { IfOk result (Mo bytes.items) }
{
    if is_written(&bytes) {
        return Ok(Catalogue::from_owned_file(alloc, bytes)?);
    }
    read_strings(alloc, &bytes)
}

/// Why `read_owned_mo` made no catalogue.
#[derive(Drop)]
pub struct Unread {
    pub fault: MoFault,
    /// The bytes as they were, or none if the fault is `MoFault::Memory`.
    pub bytes: Vec<u8>,
}

/// Reads an MO file as `read_mo` does, and keeps a file in the layout of `write_mo` instead of copying it. Bytes that
/// are refused come back with the reason.
pub fn read_owned_mo(alloc: Global, bytes: Vec<u8>) -> Result<Catalogue, Unread>
    ensures ok { IfOk result (Mo bytes.items) }
    ensures err { IfErr result (IsUnread bytes.items) }
{
    if let Err(fault) = check_all(alloc, &bytes) {
        return Err(Unread { fault, bytes });
    }
    match read_owned(alloc, bytes) {
        Ok(catalogue) => Ok(catalogue),
        Err(_) => Err(Unread {
            fault: MoFault::Memory,
            bytes: Vec::new(alloc),
        }),
    }
}

/// Writes a catalogue and reads it back. The result is the same map; the only error is `MoFault::Memory`.
pub fn reread(alloc: Global, catalogue: &Catalogue) -> Result<Catalogue, MoFault>
    ensures ok { IfOk result (λ c. c ≡ catalogue.now) }
    ensures err { IfErr result (λ f. f ≡ MoFault.Memory) }
{
    let file = write_mo(alloc, catalogue)?;
    read_mo(alloc, file.as_slice())
}
