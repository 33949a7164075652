//! The key of an original, and the test of the header.
ghost use Rattle.std.specs.Prelude.{◌≡◌, ◌↔◌, [], IsTrue};
ghost use Rattle.std.specs.Ordering.{nat_cmp};
ghost use Rattle.std.specs.declared.cmp.Ordering.TheVariants.{Less};
ghost use Rattle.std.specs.Cmp.Lexicographic.{slice_cmp};
ghost use Rattle.std.specs.Str.{IsUtf8};
ghost use Rattle.mo_tables.specs.MoTables.{before_nul, HasLawfulHeader};

use bstr::ByteSlice;
use po_header::has_accepted_charset;
use std::cmp::Ordering;

/// Returns what precedes the first NUL: the key of an original, or the first form of a translation.
#[inline]
pub(crate) fn before_nul(text: &[u8]) -> &[u8]
    ensures { result.now ≡ before_nul text.now }
{
    let len = text.find_byte(0).unwrap_or(text.len());
    &text[..len]
}

/// Whether `key` is below `other`, by bytes.
#[inline]
pub(crate) fn is_below(key: &[u8], other: &[u8]) -> bool
    ensures { IsTrue result ↔ (slice_cmp nat_cmp key.now other.now ≡ Less) }
{
    key.cmp(other) == Ordering::Less
}

/// Whether the key of an original is empty, as that of the header is.
fn has_empty_key(original: &[u8]) -> bool
    ensures { IsTrue result ↔ (before_nul original.now ≡ []) }
{
    match original {
        [] => true,
        [first, ..] => *first == 0,
    }
}

/// Whether this isn't the header, or the header names an accepted charset or none.
pub(crate) fn has_lawful_header(original: &[u8], translation: &[u8]) -> bool
    requires { IsUtf8 (before_nul translation.now) }
    ensures { IsTrue result ↔ HasLawfulHeader original.now translation.now }
{
    if !has_empty_key(original) {
        return true;
    }
    match str::from_utf8(before_nul(translation)) {
        Ok(text) => has_accepted_charset(text),
        Err(_) => false,
    }
}
