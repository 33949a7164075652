//! Decoding.
ghost use Rattle.std.specs.Prelude.{◌≡◌, ◌<◌, ◌≤◌, IfSome, MatchResult, length};
ghost use Rattle.std.specs.String.{string_bytes};
ghost use Rattle.charsets.specs.Decoding.{IsDecoded, IsUnmapped, front, is_before_two, of_three, of_two};
ghost use Rattle.charsets.specs.Decoding.{code_with_size};
ghost use Rattle.std.specs.Char.{IsScalar};
ghost use Rattle.charsets.specs.declared.reading.DecodeFault.TheVariants.{Memory};

use crate::kinds::Charset;
use crate::pairs::code_of_two;
use crate::tables::table;
use euc_jp_rows::euc_jp_8f;
use std::alloc::{AllocError, Allocator};
use thiserror::Error;

/// Why bytes are not decoded.
#[derive(Clone, Copy, Debug, PartialEq, Eq, Error)]
pub enum DecodeFault {
    /// At this index the charset has no character: there are characters up to it, and the bytes from it on begin with
    /// none, as where they end within one.
    #[error("no character at byte {0}")]
    NoCharacter(usize),
    /// An allocation failed; this says nothing about the bytes.
    #[error("out of memory")]
    Memory,
}

impl From<AllocError> for DecodeFault {
    ghost from_gives = { λ _ e. e ≡ Memory };

    fn from(_error: AllocError) -> DecodeFault {
        DecodeFault::Memory
    }
}

/// The character of a code point, which isn't one if it is 0, and the size of its run of bytes.
fn sized(code: u16, size: usize) -> Option<(char, usize)>
    requires { IsScalar code }
    ensures { result ≡ code_with_size code size }
{
    if code == 0 {
        return None;
    }
    match char::from_u32(u32::from(code)) {
        Some(c) => Some((c, size)),
        None => None,
    }
}

/// The character of the byte 8F and two of these bytes.
fn of_three(bytes: &[u8]) -> Option<(char, usize)>
    ensures { result ≡ of_three bytes.now }
{
    match bytes {
        [second, third, ..] => sized(euc_jp_8f(*second, *third), 3),
        _ => None,
    }
}

/// The character of a first byte and one of these bytes.
fn of_two(charset: Charset, first: u8, bytes: &[u8]) -> Option<(char, usize)>
    ensures { result ≡ of_two charset first bytes.now }
{
    match bytes {
        [second, ..] => sized(code_of_two(charset, first, *second), 2),
        _ => None,
    }
}

/// Whether two more bytes follow this one.
fn is_before_two(charset: Charset, byte: u8) -> bool
    ensures { result ≡ is_before_two charset byte }
{
    match charset {
        Charset::EucJp => byte == 0x8F,
        _ => false,
    }
}

/// The character at the front of bytes and the number of its bytes, if the charset has one there.
pub fn front(charset: Charset, bytes: &[u8]) -> Option<(char, usize)>
    ensures value { result ≡ front charset bytes.now }
    ensures size { IfSome result (λ found. (0 < found.1) × (found.1 ≤ length bytes.now)) }
{
    let (first, bytes) = bytes.split_first()?;
    if *first < 128 {
        return Some((char::from(*first), 1));
    }
    let c = table(charset)[*first as usize - 128];
    if c != '\0' {
        Some((c, 1))
    } else if is_before_two(charset, *first) {
        of_three(bytes)
    } else {
        of_two(charset, *first, bytes)
    }
}

/// The bytes as UTF-8: their characters, in order.
pub fn decode<A: Allocator>(
    alloc: A,
    charset: Charset,
    bytes: &[u8],
) -> Result<String<A>, DecodeFault>
    ensures { MatchResult result (λ text. IsDecoded charset bytes.now (string_bytes text))
        (λ fault. IsUnmapped charset bytes.now fault) }
{
    let mut text = String::with_capacity(alloc, bytes.len())?;
    let mut at = 0;
    'characters: while at < bytes.len() {
        match front(charset, &bytes[at..]) {
            Some((c, size)) => {
                text.push(c)?;
                at += size;
            }
            None => return Err(DecodeFault::NoCharacter(at)),
        }
    }
    Ok(text)
}
