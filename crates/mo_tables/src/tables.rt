//! The tests of the strings of one or two tables. Each scans the whole table.
ghost use Rattle.std.specs.Prelude.{◌≡◌, ◌↔◌, ◌^◌, ◌<◌, ◌≤◌, ◌*◌, length, IsTrue};
ghost use Rattle.mo_image.specs.MoFile.{most_file, pool};
ghost use Rattle.mo_image.specs.Tables.{strings};
ghost use Rattle.mo_tables.specs.MoTables.{table_at, TableLies, AllHaveNul, AreTranslationTexts, KeysRise};
ghost use Rattle.mo_tables.specs.MoTables.{HaveLawfulHeaders, Fits};

use crate::rows::{has_nul, string, string_lies, word};
use crate::texts::{before_nul, has_lawful_header, is_below};
use byteorder::ByteOrder;
use mo_image::{HEADER_LEN, MAX_LEN, ROW_LEN};

/// Whether a table and all its strings lie in the file.
pub fn table_lies<T: ByteOrder>(bytes: &[u8], table: usize, n: usize) -> bool
    requires table { table < 2 ^ 32 }
    requires count { n < 2 ^ 32 }
    ensures { IsTrue result ↔ TableLies (table_at T.number_of bytes.now table n) }
{
    if n == 0 {
        return true;
    }
    if bytes.len() < table + ROW_LEN * n {
        return false;
    }
    for i in 0..n {
        if !string_lies::<T>(bytes, table + ROW_LEN * i) {
            return false;
        }
    }
    true
}

/// Whether every string of a table is followed by a NUL.
pub fn all_have_nul<T: ByteOrder>(bytes: &[u8], table: usize, n: usize) -> bool
    requires { TableLies (table_at T.number_of bytes.now table n) }
    ensures { IsTrue result ↔ AllHaveNul (table_at T.number_of bytes.now table n) }
{
    for i in 0..n {
        if !has_nul::<T>(bytes, table + ROW_LEN * i) {
            return false;
        }
    }
    true
}

/// Whether each key is above the one before it, by bytes.
pub fn keys_rise<T: ByteOrder>(bytes: &[u8], table: usize, n: usize) -> bool
    requires { TableLies (table_at T.number_of bytes.now table n) }
    ensures { IsTrue result ↔ KeysRise (table_at T.number_of bytes.now table n) }
{
    if n == 0 {
        return true;
    }
    let mut key = before_nul(string::<T>(bytes, table));
    for i in 1..n {
        let next = before_nul(string::<T>(bytes, table + ROW_LEN * i));
        if !is_below(key, next) {
            return false;
        }
        key = next;
    }
    true
}

/// Whether the header, if there is one, names an accepted charset or none.
pub fn have_lawful_headers<T: ByteOrder>(
    bytes: &[u8],
    originals: usize,
    translations: usize,
    n: usize,
) -> bool
    requires originals { TableLies (table_at T.number_of bytes.now originals n) }
    requires translations { TableLies (table_at T.number_of bytes.now translations n) }
    requires texts { AreTranslationTexts (table_at T.number_of bytes.now translations n) }
    ensures { IsTrue result ↔ HaveLawfulHeaders (table_at T.number_of bytes.now originals n)
        (table_at T.number_of bytes.now translations n) }
{
    for i in 0..n {
        let original = string::<T>(bytes, originals + ROW_LEN * i);
        let translation = string::<T>(bytes, translations + ROW_LEN * i);
        if !has_lawful_header(original, translation) {
            return false;
        }
    }
    true
}

/// Returns the number of bytes that the strings of a table take if each is written once, with its NUL.
fn pool_len<T: ByteOrder>(bytes: &[u8], table: usize, n: usize) -> usize
    requires short { length bytes.now ≤ most_file }
    requires lies { TableLies (table_at T.number_of bytes.now table n) }
    requires count { n < 2 ^ 32 }
    ensures value { result ≡ length (pool (strings T.number_of bytes.now table n)) }
    ensures small { result ≤ n * 2 ^ 28 }
{
    let mut len = 0;
    for i in 0..n {
        len += word::<T>(bytes, table + ROW_LEN * i) + 1;
    }
    len
}

/// Whether the file that would be written of the strings has at most `MAX_LEN` bytes.
pub fn fits<T: ByteOrder>(bytes: &[u8], originals: usize, translations: usize, n: usize) -> bool
    requires short { length bytes.now ≤ most_file }
    requires originals { TableLies (table_at T.number_of bytes.now originals n) }
    requires translations { TableLies (table_at T.number_of bytes.now translations n) }
    requires count { n < 2 ^ 32 }
    ensures { IsTrue result ↔ Fits (table_at T.number_of bytes.now originals n)
        (table_at T.number_of bytes.now translations n) }
{
    HEADER_LEN
        + 2 * ROW_LEN * n
        + pool_len::<T>(bytes, originals, n)
        + pool_len::<T>(bytes, translations, n)
        <= MAX_LEN
}
