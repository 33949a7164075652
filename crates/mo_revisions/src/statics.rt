//! The static messages of a file: those that have no segments.
ghost use Rattle.std.specs.Prelude.{◌≡◌, ◌↔◌, ◌+◌, ◌≤◌, length, IsTrue, IfOk, IfErr, OnOk};
ghost use Rattle.mo_image.specs.MoFile.{header_len, most_file};
ghost use Rattle.mo_image.specs.Tables.{string_at};
ghost use Rattle.mo_file.specs.MoReading.{file_by, table_at, Passes, StringLies, TableLies};
ghost use Rattle.mo_segments.specs.MessageStrings.{strings_of};
ghost use Rattle.mo_revisions.specs.Revisions.{static_messages, statics, IsStaticSound};
ghost use Rattle.mo_revisions.specs.Refusing.{IsStaticFault};

use crate::header::is_known_revision;
use byteorder::ByteOrder;
use mo_file::{MoFault, passes_bounds, passes_closing, passes_size};
use mo_image::{COUNT_AT, ORIGINALS_AT, ROW_LEN, TRANSLATIONS_AT};
use mo_segments::Strings;
use mo_tables::{keys_rise, string, word};
use std::alloc::{AllocError, Global};

/// Whether the keys rise.
fn passes_order<T: ByteOrder>(bytes: &[u8]) -> bool
    requires long { header_len ≤ length bytes.now }
    requires lies { Passes (file_by T.number_of bytes.now) MoFault.Bounds }
    ensures { IsTrue result ↔ Passes (file_by T.number_of bytes.now) MoFault.Order }
{
    let n = word::<T>(bytes, COUNT_AT);
    keys_rise::<T>(bytes, word::<T>(bytes, ORIGINALS_AT), n)
}

/// Checks the revision and the static tables. The size comes before the tests that read whole strings, so that bytes
/// which many strings share aren't read for each of them.
pub(crate) fn check_static<T: ByteOrder>(bytes: &[u8]) -> Result<(), MoFault>
    requires short { length bytes.now ≤ most_file }
    requires long { header_len ≤ length bytes.now }
    ensures ok { OnOk result (IsStaticSound (file_by T.number_of bytes.now)) }
    ensures err { IfErr result (IsStaticFault (file_by T.number_of bytes.now)) }
{
    if !is_known_revision::<T>(bytes) {
        return Err(MoFault::Revision);
    }
    if !passes_bounds::<T>(bytes) {
        return Err(MoFault::Bounds);
    }
    if !passes_size::<T>(bytes) {
        return Err(MoFault::Swollen);
    }
    if !passes_closing::<T>(bytes) {
        return Err(MoFault::NoNul);
    }
    if !passes_order::<T>(bytes) {
        return Err(MoFault::Order);
    }
    Ok(())
}

/// Copies the string of a row.
fn copy_string<T: ByteOrder>(alloc: Global, bytes: &[u8], row: usize) -> Result<Vec<u8>, AllocError>
    requires row { row + 8 ≤ length bytes.now }
    requires lies { StringLies T.number_of bytes.now row }
    ensures { IfOk result (λ v. v.items ≡ string_at T.number_of bytes.now row) }
{
    Vec::from_slice(alloc, string::<T>(bytes, row))
}

/// Copies the messages of two tables of `n` rows.
fn copy_rows<T: ByteOrder>(
    alloc: Global,
    bytes: &[u8],
    originals: usize,
    translations: usize,
    n: usize,
) -> Result<Vec<Strings>, AllocError>
    requires originals { TableLies (table_at T.number_of bytes.now originals n) }
    requires translations { TableLies (table_at T.number_of bytes.now translations n) }
    ensures { IfOk result (λ v. strings_of v.items
        ≡ static_messages T.number_of bytes.now originals translations n) }
{
    let mut messages = Vec::with_capacity(alloc, n)?;
    'rows: for i in 0..n {
        let original = copy_string::<T>(alloc, bytes, originals + ROW_LEN * i)?;
        let translation = copy_string::<T>(alloc, bytes, translations + ROW_LEN * i)?;
        messages.push(Strings {
            original,
            translation,
        })?;
    }
    Ok(messages)
}

/// Copies the static messages of a file.
pub(crate) fn static_messages<T: ByteOrder>(
    alloc: Global,
    bytes: &[u8],
) -> Result<Vec<Strings>, AllocError>
    requires long { header_len ≤ length bytes.now }
    requires lies { Passes (file_by T.number_of bytes.now) MoFault.Bounds }
    ensures { IfOk result (λ v. strings_of v.items ≡ statics (file_by T.number_of bytes.now)) }
{
    let n = word::<T>(bytes, COUNT_AT);
    let originals = word::<T>(bytes, ORIGINALS_AT);
    copy_rows::<T>(
        alloc,
        bytes,
        originals,
        word::<T>(bytes, TRANSLATIONS_AT),
        n,
    )
}
