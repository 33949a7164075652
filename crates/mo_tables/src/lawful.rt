//! The tests of two tables by a list of their rows, which can be sorted: for strings that may overlap.
ghost use Rattle.std.specs.Prelude.{◌↔◌, ◌≤◌, length, IsTrue, IfOk};
ghost use Rattle.mo_image.specs.MoFile.{most_file};
ghost use Rattle.mo_tables.specs.MoTables.{table_at, TableLies, AllHaveNul, AreOriginalTexts, AreTranslationTexts};
ghost use Rattle.mo_tables.specs.MoTables.{HaveLawfulForms, KeysRise};

use crate::claims::{all_hold, in_order, read_claims};
use crate::row_tests::{have_forms, have_texts};
use crate::rows::read_rows;
use byteorder::ByteOrder;
use std::alloc::{AllocError, Global};

/// Whether all strings are lawful texts: UTF-8, and a key holds byte 4 at most once. `overlap` says that strings may
/// overlap; the rows are then sorted, so that shared bytes aren't read for each string.
pub fn have_lawful_texts<T: ByteOrder>(
    alloc: Global,
    bytes: &[u8],
    originals: usize,
    translations: usize,
    n: usize,
    overlap: bool,
) -> Result<bool, AllocError>
    requires originals { TableLies (table_at T.number_of bytes.now originals n) }
    requires translations { TableLies (table_at T.number_of bytes.now translations n) }
    ensures { IfOk result (λ yes. IsTrue yes ↔ (AreOriginalTexts (table_at T.number_of bytes.now originals n)
        × AreTranslationTexts (table_at T.number_of bytes.now translations n))) }
{
    let rows = read_rows::<T>(alloc, bytes, originals, translations, n)?;
    Ok(have_texts(bytes, rows, overlap))
}

/// Whether every entry has lawful forms: at most one plural, and a single form if there is none. `overlap` is as for
/// `have_lawful_texts`.
pub fn have_lawful_forms<T: ByteOrder>(
    alloc: Global,
    bytes: &[u8],
    originals: usize,
    translations: usize,
    n: usize,
    overlap: bool,
) -> Result<bool, AllocError>
    requires originals { TableLies (table_at T.number_of bytes.now originals n) }
    requires translations { TableLies (table_at T.number_of bytes.now translations n) }
    ensures { IfOk result (λ yes. IsTrue yes ↔ HaveLawfulForms (table_at T.number_of bytes.now originals n)
        (table_at T.number_of bytes.now translations n)) }
{
    let rows = read_rows::<T>(alloc, bytes, originals, translations, n)?;
    have_forms(alloc, bytes, rows, overlap)
}

/// Whether each key is above the one before it, by bytes, for strings that may overlap: bytes that keys share at one
/// distance are compared once. `keys_rise` needs no memory, but compares each pair of keys.
pub fn overlapping_keys_rise<T: ByteOrder>(
    alloc: Global,
    bytes: &[u8],
    originals: usize,
    translations: usize,
    n: usize,
) -> Result<bool, AllocError>
    requires short { length bytes.now ≤ most_file }
    requires originals { TableLies (table_at T.number_of bytes.now originals n) }
    requires translations { TableLies (table_at T.number_of bytes.now translations n) }
    requires with_nul { AllHaveNul (table_at T.number_of bytes.now originals n) }
    ensures { IfOk result (λ yes. IsTrue yes ↔ KeysRise (table_at T.number_of bytes.now originals n)) }
{
    let rows = read_rows::<T>(alloc, bytes, originals, translations, n)?;
    let claims = in_order(read_claims(alloc, &rows)?);
    all_hold(alloc, bytes, &claims)
}
