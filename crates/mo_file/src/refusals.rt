//! The tests of an MO file, one per refusal. Each scans the whole file, so the refusal that is reported is the first in
//! their order, wherever in the file it applies.
ghost use Rattle.std.specs.Prelude.{◌≡◌, ◌↔◌, ◌≤◌, length, IsTrue, OnOk, IfOk, IfErr};
ghost use Rattle.byteorder.specs.Endian.{little_number};
ghost use Rattle.catalogue.specs.MoFile.{header_len, magic_number, most_file};
ghost use Rattle.mo_tables.specs.MoTables.{AreSound};
ghost use Rattle.mo_file.specs.MoReading.{file_by, file_of, Passes, PassesBelow, RefusedBy, Refused, IsMoFile};

use crate::fault::MoFault;
use byteorder::{BigEndian, ByteOrder, LittleEndian};
use mo_image::{COUNT_AT, HEADER_LEN, MAGIC, MAX_LEN, ORIGINALS_AT, REVISION_AT, TRANSLATIONS_AT};
use mo_tables::{
    all_have_nul, are_sound, fits, have_lawful_forms, have_lawful_headers, have_lawful_texts,
    keys_rise, overlapping_keys_rise, table_lies, word,
};
use std::alloc::{AllocError, Global};

/// Whether both tables and all their strings lie in the file.
pub fn passes_bounds<T: ByteOrder>(bytes: &[u8]) -> bool
    requires { header_len ≤ length bytes.now }
    ensures { IsTrue result ↔ Passes (file_by T.number_of bytes.now) MoFault.Bounds }
{
    let n = word::<T>(bytes, COUNT_AT);
    table_lies::<T>(bytes, word::<T>(bytes, ORIGINALS_AT), n)
        && table_lies::<T>(bytes, word::<T>(bytes, TRANSLATIONS_AT), n)
}

/// Whether every string is followed by a NUL.
pub fn passes_closing<T: ByteOrder>(bytes: &[u8]) -> bool
    requires long { header_len ≤ length bytes.now }
    requires lies { Passes (file_by T.number_of bytes.now) MoFault.Bounds }
    ensures { IsTrue result ↔ Passes (file_by T.number_of bytes.now) MoFault.NoNul }
{
    let n = word::<T>(bytes, COUNT_AT);
    all_have_nul::<T>(bytes, word::<T>(bytes, ORIGINALS_AT), n)
        && all_have_nul::<T>(bytes, word::<T>(bytes, TRANSLATIONS_AT), n)
}

/// Whether all strings are lawful texts.
fn passes_texts<T: ByteOrder>(
    alloc: Global,
    bytes: &[u8],
    overlap: bool,
) -> Result<bool, AllocError>
    requires long { header_len ≤ length bytes.now }
    requires lies { Passes (file_by T.number_of bytes.now) MoFault.Bounds }
    ensures { IfOk result (λ yes. IsTrue yes ↔ Passes (file_by T.number_of bytes.now) MoFault.BadText) }
{
    let n = word::<T>(bytes, COUNT_AT);
    let originals = word::<T>(bytes, ORIGINALS_AT);
    let translations = word::<T>(bytes, TRANSLATIONS_AT);
    have_lawful_texts::<T>(alloc, bytes, originals, translations, n, overlap)
}

/// Whether every entry has lawful forms.
fn passes_forms<T: ByteOrder>(
    alloc: Global,
    bytes: &[u8],
    overlap: bool,
) -> Result<bool, AllocError>
    requires long { header_len ≤ length bytes.now }
    requires lies { Passes (file_by T.number_of bytes.now) MoFault.Bounds }
    ensures { IfOk result (λ yes. IsTrue yes ↔ Passes (file_by T.number_of bytes.now) MoFault.Forms) }
{
    let n = word::<T>(bytes, COUNT_AT);
    let originals = word::<T>(bytes, ORIGINALS_AT);
    let translations = word::<T>(bytes, TRANSLATIONS_AT);
    have_lawful_forms::<T>(alloc, bytes, originals, translations, n, overlap)
}

/// Whether the keys rise. `overlap` selects the method for strings that overlap.
fn passes_order<T: ByteOrder>(
    alloc: Global,
    bytes: &[u8],
    overlap: bool,
) -> Result<bool, AllocError>
    requires short { length bytes.now ≤ most_file }
    requires long { header_len ≤ length bytes.now }
    requires lies { Passes (file_by T.number_of bytes.now) MoFault.Bounds }
    requires with_nul { Passes (file_by T.number_of bytes.now) MoFault.NoNul }
    ensures { IfOk result (λ yes. IsTrue yes ↔ Passes (file_by T.number_of bytes.now) MoFault.Order) }
{
    let n = word::<T>(bytes, COUNT_AT);
    let originals = word::<T>(bytes, ORIGINALS_AT);
    if overlap {
        let translations = word::<T>(bytes, TRANSLATIONS_AT);
        return overlapping_keys_rise::<T>(alloc, bytes, originals, translations, n);
    }
    Ok(keys_rise::<T>(bytes, originals, n))
}

/// Whether the header, if there is one, names an accepted charset or none.
fn passes_charset<T: ByteOrder>(bytes: &[u8]) -> bool
    requires long { header_len ≤ length bytes.now }
    requires lies { Passes (file_by T.number_of bytes.now) MoFault.Bounds }
    requires texts { Passes (file_by T.number_of bytes.now) MoFault.BadText }
    ensures { IsTrue result ↔ Passes (file_by T.number_of bytes.now) MoFault.Charset }
{
    let n = word::<T>(bytes, COUNT_AT);
    have_lawful_headers::<T>(
        bytes,
        word::<T>(bytes, ORIGINALS_AT),
        word::<T>(bytes, TRANSLATIONS_AT),
        n,
    )
}

/// Whether a NUL ends each string and the strings pass all their tests, as far as a single pass over the rows can tell.
fn is_sound<T: ByteOrder>(bytes: &[u8]) -> bool
    requires long { header_len ≤ length bytes.now }
    requires lies { Passes (file_by T.number_of bytes.now) MoFault.Bounds }
    ensures { let file = file_by T.number_of bytes.now in
        IsTrue result → AreSound file.originals file.translations }
{
    let n = word::<T>(bytes, COUNT_AT);
    let originals = word::<T>(bytes, ORIGINALS_AT);
    are_sound::<T>(bytes, originals, word::<T>(bytes, TRANSLATIONS_AT), n)
}

/// Whether the file that would be written of the map is within the size limit.
pub fn passes_size<T: ByteOrder>(bytes: &[u8]) -> bool
    requires short { length bytes.now ≤ most_file }
    requires long { header_len ≤ length bytes.now }
    requires lies { Passes (file_by T.number_of bytes.now) MoFault.Bounds }
    ensures { IsTrue result ↔ Passes (file_by T.number_of bytes.now) MoFault.Swollen }
{
    let n = word::<T>(bytes, COUNT_AT);
    fits::<T>(
        bytes,
        word::<T>(bytes, ORIGINALS_AT),
        word::<T>(bytes, TRANSLATIONS_AT),
        n,
    )
}

/// Runs the tests of a file in one byte order, in the order of the refusals. If the strings together are longer than a
/// file may be, they may overlap: the tests that read whole strings then sort them, so that shared bytes aren't read
/// for each string.
fn check_file<T: ByteOrder>(alloc: Global, bytes: &[u8]) -> Result<(), MoFault>
    requires short { length bytes.now ≤ most_file }
    requires long { header_len ≤ length bytes.now }
    requires passed { PassesBelow (file_by T.number_of bytes.now) 4 }
    ensures ok { OnOk result (PassesBelow (file_by T.number_of bytes.now) 12) }
    ensures err { IfErr result (λ f. RefusedBy (file_by T.number_of bytes.now) f) }
{
    if word::<T>(bytes, REVISION_AT) != 0 {
        return Err(MoFault::Revision);
    }
    if !passes_bounds::<T>(bytes) {
        return Err(MoFault::Bounds);
    }
    let overlap = !passes_size::<T>(bytes);
    if !overlap && is_sound::<T>(bytes) {
        return Ok(());
    }
    if !passes_closing::<T>(bytes) {
        return Err(MoFault::NoNul);
    }
    if !passes_texts::<T>(alloc, bytes, overlap)? {
        return Err(MoFault::BadText);
    }
    if !passes_forms::<T>(alloc, bytes, overlap)? {
        return Err(MoFault::Forms);
    }
    if !passes_order::<T>(alloc, bytes, overlap)? {
        return Err(MoFault::Order);
    }
    if !passes_charset::<T>(bytes) {
        return Err(MoFault::Charset);
    }
    if overlap {
        return Err(MoFault::Swollen);
    }
    Ok(())
}

/// Whether the file is little-endian: its words have their low byte first.
pub fn is_low_first(bytes: &[u8]) -> bool
    requires { header_len ≤ length bytes.now }
    ensures { IsTrue result ↔ (little_number 4 bytes.now ≡ magic_number) }
{
    LittleEndian::read_u32(bytes) == MAGIC
}

/// Checks a file in either byte order, and reports the first refusal that holds.
pub(crate) fn check_all(alloc: Global, bytes: &[u8]) -> Result<(), MoFault>
    ensures ok { OnOk result (PassesBelow (file_of bytes.now) 12) }
    ensures err { IfErr result (λ f. Refused bytes.now f) }
{
    if bytes.len() > MAX_LEN {
        return Err(MoFault::TooLarge);
    }
    if bytes.len() < HEADER_LEN {
        return Err(MoFault::Short);
    }
    if is_low_first(bytes) {
        return check_file::<LittleEndian>(alloc, bytes);
    }
    if BigEndian::read_u32(bytes) != MAGIC {
        return Err(MoFault::Magic);
    }
    check_file::<BigEndian>(alloc, bytes)
}

/// Checks whether bytes are an MO file, in either byte order and wherever the strings lie (GNU gettext manual, "MO
/// Files"). The error is the first refusal that holds, or `MoFault::Memory`.
pub fn check(alloc: Global, bytes: &[u8]) -> Result<(), MoFault>
    ensures ok { OnOk result (IsMoFile bytes.now) }
    ensures err { IfErr result (λ f. Refused bytes.now f) }
{
    check_all(alloc, bytes)
}
