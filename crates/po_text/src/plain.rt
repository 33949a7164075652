//! Scans for clean bytes one vector at a time: most strings end within a few vectors, where calling a search function
//! costs more than the bytes.
ghost use Rattle.std.specs.Prelude.{◌≡◌, ◌≢◌, ◌+◌, ◌<◌, ◌≤◌, drop, length, take, IsTrue};
ghost use Rattle.std.specs.List.{prefix_len};
ghost use Rattle.byte_text.specs.Lanes.{first_set};
ghost use Rattle.po_text.specs.Clean.{is_clean};
ghost use Rattle.po_text.specs.Lexing.{is_simple};
ghost use Rattle.po_text.specs.Spelling.{IsLawful};

use byte_text::first_set;
use std::simd::prelude::*;

/// The number of bytes in a vector.
pub(crate) const LANES: usize = 16;

/// The bytes that aren't clean, each at the index that its low four bits are. At the other indexes is 0, whose own
/// index is 0.
const STOPS: [u8; LANES] = [0, 0, b'"', 0, 4, 0, 0, 0, 0, 0, b'\n', 0, b'\\', 0, 0, 0];

/// Whether a byte stands for itself in a string, and is neither NUL nor byte 4.
pub(crate) fn is_clean_byte(byte: u8) -> bool
    ensures { result ≡ is_clean byte }
{
    !matches!(byte, b'"' | b'\\' | b'\n' | 0 | 4)
}

/// The bytes of the vector at `at` that aren't clean, a bit for each.
#[inline(always)]
fn stops_at(text: &[u8], at: usize) -> u64
    requires { at + LANES ≤ length text.now }
    ensures first { first_set result LANES ≡ prefix_len is_clean (take LANES (drop at text.now)) }
    ensures some { result ≢ 0 → prefix_len is_clean (take LANES (drop at text.now)) < LANES }
{
    let bytes = u8x16::from_slice(&text[at..]);
    let stops = u8x16::from_array(STOPS).swizzle_dyn(bytes & u8x16::splat(15));
    bytes.simd_eq(stops).to_bitmask()
}

/// The number of clean bytes at the front, found one byte at a time.
fn clean_bytes(text: &[u8]) -> usize
    ensures { result ≡ prefix_len is_clean text.now }
{
    text.iter().take_while(|byte| is_clean_byte(**byte)).count()
}

/// The number of clean bytes at the front.
pub(crate) fn clean_len(text: &[u8]) -> usize
    ensures { result ≡ prefix_len is_clean text.now }
{
    let mut len = 0;
    'vectors: while LANES <= text.len() - len {
        let stops = stops_at(text, len);
        if stops != 0 {
            return len + first_set(stops, LANES);
        }
        len += LANES;
    }
    len + clean_bytes(&text[len..])
}

fn is_simple_byte(byte: u8) -> bool
    ensures { result ≡ is_simple byte }
{
    1 <= byte && byte < 128
}

/// The number of simple bytes, ASCII other than NUL, that the vector at `at` begins with.
#[inline(always)]
fn simple_lanes(text: &[u8], at: usize) -> usize
    requires { at + LANES ≤ length text.now }
    ensures { result ≡ prefix_len is_simple (take LANES (drop at text.now)) }
{
    let bytes = u8x16::from_slice(&text[at..]);
    let stops = bytes.simd_eq(u8x16::splat(0)) | bytes.simd_ge(u8x16::splat(128));
    first_set(stops.to_bitmask(), LANES)
}

/// The number of simple bytes at the front, found one byte at a time.
fn simple_bytes(text: &[u8]) -> usize
    ensures { result ≡ prefix_len is_simple text.now }
{
    text.iter()
        .take_while(|byte| is_simple_byte(**byte))
        .count()
}

/// Whether all bytes are ASCII other than NUL. Such bytes are lawful without a search for NUL or a UTF-8 decoder. The
/// last vector may overlap the one before it.
pub(crate) fn are_simple(bytes: &[u8]) -> bool
    ensures { IsTrue result → IsLawful bytes.now }
{
    if bytes.len() < LANES {
        return simple_bytes(bytes) == bytes.len();
    }
    let last = bytes.len() - LANES;
    let mut at = 0;
    'vectors: while at < last {
        if simple_lanes(bytes, at) < LANES {
            return false;
        }
        at += LANES;
    }
    simple_lanes(bytes, last) == LANES
}
