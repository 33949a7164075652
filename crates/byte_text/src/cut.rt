//! Splitting texts and bytes at a byte.
ghost use Rattle.std.specs.Prelude.{◌≡◌, ◌<◌, ◌≤◌, ◌↔◌, ◌∷◌, [], IsTrue, MatchOption, length, option_map};
ghost use Rattle.byte_text.specs.Cut.{cut, offset_of, IsCut};

use crate::offset::offset_in;

/// The index of the first such byte, or the length if there is none.
pub fn offset_of(bytes: &[u8], byte: u8) -> usize
    ensures offset { result ≡ offset_of byte bytes.now }
    ensures within { result ≤ length bytes.now }
{
    match offset_in(bytes, byte) {
        Some(at) => at,
        None => bytes.len(),
    }
}

/// Splits a text before and after its first such byte, given its index `at`; None if there is no such byte, in which
/// case `at` is the length of the text. The byte must be ASCII.
#[inline(always)]
pub fn split_at_offset(text: &str, byte: u8, at: usize) -> Option<(&str, &str)>
    requires ascii { byte < 128 }
    requires offset { at ≡ offset_of byte text.now }
    ensures cut { option_map (λ p. (p.0.now, p.1.now)) result ≡ cut byte text.now }
    ensures cases { MatchOption result (offset_of byte text.now ≡ length text.now)
        (λ p. IsCut byte text.now p.0.now p.1.now) }
{
    if at < text.len() {
        Some((&text[..at], &text[at + 1..]))
    } else {
        None
    }
}

/// Splits a text before and after its first such byte; None if there is none. The byte must be ASCII.
pub fn split_at_byte(text: &str, byte: u8) -> Option<(&str, &str)>
    requires { byte < 128 }
    ensures cut { option_map (λ p. (p.0.now, p.1.now)) result ≡ cut byte text.now }
    ensures cases { MatchOption result (offset_of byte text.now ≡ length text.now)
        (λ p. IsCut byte text.now p.0.now p.1.now) }
{
    split_at_offset(text, byte, offset_of(text.as_bytes(), byte))
}

/// Splits off the first byte; None if the text is empty.
pub fn split_byte(text: &[u8]) -> Option<(u8, &[u8])>
    ensures { MatchOption result (text.now ≡ []) (λ found. text.now ≡ found.0 ∷ found.1.now) }
{
    match text {
        [] => None,
        [first, rest @ ..] => Some((*first, rest)),
    }
}

/// Whether none of the bytes is this one.
pub fn lacks_byte(bytes: &[u8], byte: u8) -> bool
    ensures { IsTrue result ↔ (offset_of byte bytes.now ≡ length bytes.now) }
{
    offset_in(bytes, byte).is_none()
}
