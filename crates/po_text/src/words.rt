//! Scans for the end of a word. A keyword and what follows it are mostly longer than one vector, which finds the end
//! without a branch for each letter.
ghost use Rattle.std.specs.Prelude.{◌≡◌, ◌≤◌, length, take};
ghost use Rattle.std.specs.List.{prefix_len};
ghost use Rattle.po_text.specs.Spelling.{is_word_byte};

use crate::plain::LANES;
use byte_text::first_set;
use std::simd::prelude::*;

fn is_letter_digit(byte: u8) -> bool
    ensures { result ≡ is_word_byte byte }
{
    byte.is_ascii_alphanumeric() || byte == b'_'
}

/// The number of bytes of a word that the first vector begins with.
#[inline(always)]
fn word_lanes(text: &[u8]) -> usize
    requires { LANES ≤ length text.now }
    ensures { result ≡ prefix_len is_word_byte (take LANES text.now) }
{
    let bytes = u8x16::from_slice(text);
    let no_capital = bytes.simd_lt(u8x16::splat(b'A')) | bytes.simd_gt(u8x16::splat(b'Z'));
    let no_small = bytes.simd_lt(u8x16::splat(b'a')) | bytes.simd_gt(u8x16::splat(b'z'));
    let no_digit = bytes.simd_lt(u8x16::splat(b'0')) | bytes.simd_gt(u8x16::splat(b'9'));
    let stops = no_capital & no_small & no_digit & bytes.simd_ne(u8x16::splat(b'_'));
    first_set(stops.to_bitmask(), LANES)
}

/// The length of the longest word at the front, found one byte at a time.
fn word_bytes(text: &[u8]) -> usize
    ensures { result ≡ prefix_len is_word_byte text.now }
{
    text.iter()
        .take_while(|byte| is_letter_digit(**byte))
        .count()
}

/// The length of the longest word at the front, 0 if there is none.
pub(crate) fn word_len(text: &[u8]) -> usize
    ensures { result ≡ prefix_len is_word_byte text.now }
{
    if LANES <= text.len() {
        let len = word_lanes(text);
        if len < LANES {
            return len;
        }
    }
    word_bytes(text)
}
