//! The key of a text: the text with its front, the number that its first eight bytes spell.
ghost use Rattle.std.specs.Prelude.{◌≡◌, ◌≤◌, Some, drop, length, refl, slice_index, IsTrue};
ghost use Rattle.std.specs.Ordering.{nat_cmp};
ghost use Rattle.std.specs.Cmp.{partial_equiv_from_equiv};
ghost use Rattle.std.specs.Cmp.Lexicographic.{nat_list_cmp_total, nat_list_eq_equiv, slice_cmp, texts_po, texts_ties};
ghost use Rattle.std.specs.Str.{bytes_eq};
ghost use Rattle.byte_text.specs.Front.{IsFrontOf};

use byteorder::{BigEndian, ByteOrder};
use std::cmp::Ordering;
use std::marker::Model;

/// A text with its front, for fast comparisons. Contracts see it as the text's bytes.
#[derive(Drop)]
pub struct TextKey<'a> {
    text: &'a str,
    front: u64,
}

impl<'a> Model for TextKey<'a> {
    ghost use Rattle.std.specs.Prelude.{ℕ, List};

    ghost Value = { List ℕ };

    ghost use Rattle.byte_text.specs.Front.{IsFrontOf};

    ghost view = { λ key. key.text.now };

    ghost invariant = { λ key. IsFrontOf key.text.now key.front };
}

/// The number of bytes in a front.
const FRONT_LEN: usize = 8;

/// Whether two texts are equally long and no longer than a front.
fn are_short(text: &str, other: &str) -> bool
    ensures { IsTrue result → (length text.now ≡ length other.now) × (length text.now ≤ 8) }
{
    text.len() == other.len() && text.len() <= FRONT_LEN
}

/// The byte at index `i`, or 0 past the end.
fn byte_at(bytes: &[u8], i: usize) -> u8
    ensures { result ≡ slice_index bytes.now i }
{
    match bytes.get(i) {
        Some(byte) => *byte,
        None => 0,
    }
}

/// The front of a text, given its bytes.
fn front_in(bytes: &[u8]) -> u64
    ensures { IsFrontOf bytes.now result }
{
    if FRONT_LEN <= bytes.len() {
        return BigEndian::read_u64(bytes);
    }
    let first = [
        byte_at(bytes, 0),
        byte_at(bytes, 1),
        byte_at(bytes, 2),
        byte_at(bytes, 3),
        byte_at(bytes, 4),
        byte_at(bytes, 5),
        byte_at(bytes, 6),
        byte_at(bytes, 7),
    ];
    BigEndian::read_u64(&first)
}

/// The front of a text: its first eight bytes as a big-endian number, padded with zeros if the text is shorter.
pub fn front_of(text: &str) -> u64
    ensures { IsFrontOf text.now result }
{
    front_in(text.as_bytes())
}

/// The front of what follows a text's first eight bytes. Few texts have both numbers in common, so they tell nearly all
/// apart without reading the texts, which may be in no cache.
pub fn next_front_of(text: &str) -> u64
    ensures { IsFrontOf (drop 8 text.now) result }
{
    let bytes = text.as_bytes();
    front_in(&bytes[bytes.len().min(FRONT_LEN)..])
}

impl<'a> TextKey<'a> {
    /// The key of a text.
    pub fn new(text: &'a str) -> TextKey<'a>
        ensures { result ≡ text.now }
    {
        TextKey {
            text,
            front: front_of(text),
        }
    }

    /// The key of a text whose front, as [`front_of`] computes it, is already known.
    pub fn with_front(text: &'a str, front: u64) -> TextKey<'a>
        requires { IsFrontOf text.now front }
        ensures { result ≡ text.now }
    {
        TextKey { text, front }
    }

    /// The text.
    pub fn as_str(&self) -> &'a str
        ensures { result.now ≡ self.now }
    {
        self.text
    }
}

impl<'a> PartialEq for TextKey<'a> {
    ghost eq = { bytes_eq };

    ghost laws = { partial_equiv_from_equiv nat_list_eq_equiv };

    fn eq(&self, other: &TextKey<'a>) -> bool {
        self.front == other.front && self.text == other.text
    }
}

impl<'a> Eq for TextKey<'a> {
    ghost laws = { nat_list_eq_equiv };
}

impl<'a> PartialOrd for TextKey<'a> {
    ghost partial_cmp = { λ a b. Some (slice_cmp nat_cmp a b) };

    ghost laws = { texts_po };

    fn partial_cmp(&self, other: &TextKey<'a>) -> Option<Ordering> {
        Some(self.cmp(other))
    }
}

/// Texts are in the order of their bytes.
impl<'a> Ord for TextKey<'a> {
    ghost cmp = { slice_cmp nat_cmp };

    ghost total = { nat_list_cmp_total };

    ghost matches_partial_cmp = { λ a b. refl };

    ghost matches_eq = { λ a b. texts_ties a b };

    fn cmp(&self, other: &TextKey<'a>) -> Ordering {
        if self.front != other.front {
            return self.front.cmp(&other.front);
        }
        if are_short(self.text, other.text) {
            return Ordering::Equal;
        }
        self.as_str().cmp(other.as_str())
    }
}
