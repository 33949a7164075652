//! Finds a byte one vector at a time: most texts end within a few vectors, where calling a search function costs more
//! than the bytes.
ghost use Rattle.std.specs.Prelude.{◌≡◌, ◌+◌, ◌<◌, ◌≤◌, ◌==◌, drop, length, not, take};
ghost use Rattle.std.specs.List.{prefix_len};
ghost use Rattle.bstr.specs.Find.{IsFirstByte, is_byte};
ghost use Rattle.byte_text.specs.Lanes.{first_set};

use std::simd::prelude::*;

/// The index of the lowest set bit, or the number of lanes if no bit is set.
#[inline(always)]
pub fn first_set(mask: u64, lanes: usize) -> usize
    ensures { result ≡ first_set mask lanes }
{
    if mask == 0 {
        lanes
    } else {
        mask.trailing_zeros() as usize
    }
}

/// The number of bytes before the first such one in the vector of N lanes at `at`; N if it isn't there.
#[inline(always)]
fn lanes_before<const N: usize>(bytes: &[u8], at: usize, byte: u8) -> usize
    requires few { N ≤ 64 }
    requires room { at + N ≤ length bytes.now }
    ensures { result ≡ prefix_len (λ b. not (b == byte)) (take N (drop at bytes.now)) }
{
    let lanes = Simd::<u8, N>::from_slice(&bytes[at..]);
    let found = lanes.simd_eq(Simd::<u8, N>::splat(byte));
    first_set(found.to_bitmask(), N)
}

/// The index of the first such byte, found by vectors of N lanes. The last vector may overlap the one before it.
#[inline(always)]
fn offset_by<const N: usize>(bytes: &[u8], byte: u8) -> Option<usize>
    requires some { 0 < N }
    requires few { N ≤ 64 }
    requires room { N ≤ length bytes.now }
    ensures { IsFirstByte (is_byte byte) bytes.now result }
{
    let last = bytes.len() - N;
    let mut at = 0;
    'vectors: while at < last {
        let run = lanes_before::<N>(bytes, at, byte);
        if run < N {
            return Some(at + run);
        }
        at += N;
    }
    let run = lanes_before::<N>(bytes, last, byte);
    if run < N { Some(last + run) } else { None }
}

/// The index of the first such byte, found one byte at a time.
fn offset_by_bytes(bytes: &[u8], byte: u8) -> Option<usize>
    ensures { IsFirstByte (is_byte byte) bytes.now result }
{
    for (i, other) in bytes.iter().enumerate() {
        if *other == byte {
            return Some(i);
        }
    }
    None
}

/// The index of the first such byte, if there is one.
pub(crate) fn offset_in(bytes: &[u8], byte: u8) -> Option<usize>
    ensures { IsFirstByte (is_byte byte) bytes.now result }
{
    if bytes.len() >= 16 {
        return offset_by::<16>(bytes, byte);
    }
    if bytes.len() >= 8 {
        return offset_by::<8>(bytes, byte);
    }
    offset_by_bytes(bytes, byte)
}
