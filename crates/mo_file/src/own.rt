//! Recognises files in the layout that `write_mo` writes.
ghost use Rattle.std.specs.Prelude.{◌≡◌, ◌<◌, ◌≤◌, ◌^◌, length, IsTrue, IfSome};
ghost use Rattle.byteorder.specs.Endian.{little_number};
ghost use Rattle.catalogue.specs.MoFile.{header_len, most_file, spelling};
ghost use Rattle.mo_file.specs.Behind.{IsInOrder, StandBehind};
ghost use Rattle.mo_file.specs.Pairs.{named_in};
ghost use Rattle.mo_file.specs.MoReading.{table_at, file_by, TableLies, PassesBelow};

use byteorder::LittleEndian;
use mo_image::{
    COUNT_AT, HASH_SIZE_AT, HASH_TABLE_AT, HEADER_LEN, ORIGINALS_AT, ROW_LEN, TRANSLATIONS_AT,
};
use mo_tables::word;

/// Whether the tables of `n` rows directly follow the header, and there is no hash table.
fn is_in_order(bytes: &[u8], n: usize) -> bool
    requires long { header_len ≤ length bytes.now }
    requires count { n < 2 ^ 32 }
    ensures { IsTrue result → IsInOrder bytes.now n }
{
    word::<LittleEndian>(bytes, ORIGINALS_AT) == HEADER_LEN
        && word::<LittleEndian>(bytes, TRANSLATIONS_AT) == HEADER_LEN + ROW_LEN * n
        && word::<LittleEndian>(bytes, HASH_SIZE_AT) == 0
        && word::<LittleEndian>(bytes, HASH_TABLE_AT) == HEADER_LEN + 2 * ROW_LEN * n
}

/// Returns where the strings of a table's `n` rows end, if they follow one another from `start` on, each with one more
/// byte.
fn end_of_strings(bytes: &[u8], table: usize, n: usize, start: usize) -> Option<usize>
    requires lies { TableLies (table_at little_number bytes.now table n) }
    requires start { start ≤ length bytes.now }
    requires short { length bytes.now ≤ most_file }
    ensures within { IfSome result (λ end. end ≤ length bytes.now) }
    ensures behind { IfSome result (λ end. StandBehind bytes.now table n start end) }
{
    let mut end = start;
    for i in 0..n {
        let row = table + ROW_LEN * i;
        if word::<LittleEndian>(bytes, row + 4) != end {
            return None;
        }
        end += word::<LittleEndian>(bytes, row) + 1;
    }
    Some(end)
}

/// Whether a file is exactly what `write_mo` writes of its map: the header, the tables, and the strings one after
/// another, with nothing after them.
pub(crate) fn is_own(bytes: &[u8]) -> bool
    requires { PassesBelow (file_by little_number bytes.now) 12 }
    ensures { IsTrue result → bytes.now ≡ spelling (named_in little_number bytes.now) }
{
    let n = word::<LittleEndian>(bytes, COUNT_AT);
    if !is_in_order(bytes, n) {
        return false;
    }
    let translations = HEADER_LEN + ROW_LEN * n;
    let strings = translations + ROW_LEN * n;
    let Some(middle) = end_of_strings(bytes, HEADER_LEN, n, strings) else {
        return false;
    };
    match end_of_strings(bytes, translations, n, middle) {
        Some(end) => end == bytes.len(),
        None => false,
    }
}
