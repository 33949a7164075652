//! A single pass that accepts most lawful files: it tests each row against all refusals of strings at once.
ghost use Rattle.std.specs.Prelude.{◌≡◌, ⊤, length, IsTrue, MatchOption};
ghost use Rattle.mo_tables.specs.MoTables.{table_at, before_nul, HasLawfulForms, TableLies, AreSound};

use crate::rows::{read_span, word};
use crate::stretch::Stretch;
use crate::strings::Separators;
use crate::texts::{has_lawful_header, is_below};
use bstr::ByteSlice;
use byteorder::ByteOrder;
use mo_image::ROW_LEN;

/// Returns the key of an original, if it and its translation have lawful forms.
#[inline]
fn lawful_key<'a>(original: &'a [u8], translation: &[u8]) -> Option<&'a [u8]>
    ensures { MatchOption result ⊤
        (λ key. (key.now ≡ before_nul original.now) × HasLawfulForms original.now translation.now) }
{
    match original.find_byte(0) {
        Some(k) => {
            let plural = &original[k + 1..];
            match plural.find_byte(0) {
                Some(_) => None,
                None => Some(&original[..k]),
            }
        }
        None => match translation.find_byte(0) {
            Some(_) => None,
            None => Some(original),
        },
    }
}

/// Whether a NUL ends each string of two tables and they pass all their tests. `false` says nothing: the strings may
/// be in an order that a single pass can't follow.
pub fn are_sound<T: ByteOrder>(
    bytes: &[u8],
    originals: usize,
    translations: usize,
    n: usize,
) -> bool
    requires originals { TableLies (table_at T.number_of bytes.now originals n) }
    requires translations { TableLies (table_at T.number_of bytes.now translations n) }
    ensures { IsTrue result → AreSound (table_at T.number_of bytes.now originals n)
        (table_at T.number_of bytes.now translations n) }
{
    if n == 0 {
        return true;
    }
    let first = word::<T>(bytes, originals + 4);
    let second = word::<T>(bytes, translations + 4);
    let stretch = Stretch::to_end(bytes, first.min(second));
    let mut separators = Separators::searched(bytes, first, first.max(second));
    let mut last = &bytes[..0];
    for i in 0..n {
        let original = read_span::<T>(bytes, originals + ROW_LEN * i);
        let translation = read_span::<T>(bytes, translations + ROW_LEN * i);
        if !stretch.has(bytes, original) || !stretch.has(bytes, translation) {
            return false;
        }
        let (start, end) = (original.start(), original.end());
        if !separators.lacks(start, end) {
            let Some(next) = separators.after(bytes, start, end) else {
                return false;
            };
            separators = next;
        }
        let original = &bytes[start..end];
        let translation = &bytes[translation.start()..translation.end()];
        let Some(key) = lawful_key(original, translation) else {
            return false;
        };
        if i > 0 {
            if !is_below(last, key) {
                return false;
            }
        } else if !has_lawful_header(original, translation) {
            return false;
        }
        last = key;
    }
    true
}
