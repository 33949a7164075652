//! Where strings lie in an MO file.
ghost use Rattle.std.specs.Prelude.{◌≡◌, ◌+◌, ◌≤◌, length, IfNone, IfSome};
ghost use Rattle.byteorder.specs.Endian.{little_number};
ghost use Rattle.mo_image.specs.Tables.{word_at};
ghost use Rattle.mo_image.specs.Extents.{no_len, piece, text_extents, HoldsWithNul, HoldsPiece, IsNamedAt};
ghost use Rattle.mo_image.specs.MoFile.{with_nul};

use byteorder::{ByteOrder, LittleEndian};

/// The offset and the length of a string in an MO file.
#[derive(Clone, Copy, Debug)]
pub struct Extent {
    start: u32,
    len: u32,
}

/// Where the texts of an entry lie in an MO file.
#[derive(Clone, Copy, Debug)]
pub(crate) struct TextExtents {
    pub(crate) original: Extent,
    pub(crate) translation: Extent,
    /// The length of the key, with which the original begins.
    pub(crate) key_len: u32,
}

/// Where the texts of an entry lie in an MO file, in 12 bytes. Most texts are short enough for that. A longer entry is
/// given by its number, and its lengths are read from the tables.
#[derive(Clone, Copy, Debug)]
pub struct EntryExtents {
    /// Where the original starts; the entry's number if the lengths don't fit.
    original: u32,
    /// Where the translation starts.
    translation: u32,
    /// The length of the key; `NO_LEN` if the lengths don't fit.
    key_len: u8,
    /// The length of what follows the key in the original.
    rest_len: u8,
    translation_len: u16,
}

/// Stands in place of the length of a key if the lengths don't fit.
const NO_LEN: u8 = 255;

/// The least length of a long key.
const LONG_KEY: u32 = 255;

/// The least length of a long rest, which is what follows a key.
const LONG_REST: u32 = 256;

/// The least length of a long translation.
const LONG_TRANSLATION: u32 = 65_536;

impl EntryExtents {
    /// Packs the extents of the texts of the i-th entry.
    #[inline(always)]
    pub(crate) fn new(texts: &TextExtents, i: u32) -> EntryExtents
        requires { texts.now.key_len ≤ texts.now.original.len }
        ensures long { result.key_len ≡ no_len → result.original ≡ i }
        ensures short { (result.key_len ≡ no_len → ⊥) → text_extents result ≡ texts.now }
    {
        let key = texts.key_len;
        let rest = texts.original.len - key;
        let translation = texts.translation.len;
        if key < LONG_KEY && rest < LONG_REST && translation < LONG_TRANSLATION {
            EntryExtents {
                original: texts.original.start,
                translation: texts.translation.start,
                key_len: key as u8,
                rest_len: rest as u8,
                translation_len: translation as u16,
            }
        } else {
            EntryExtents {
                original: i,
                translation: texts.translation.start,
                key_len: NO_LEN,
                rest_len: 0,
                translation_len: 0,
            }
        }
    }

    /// The number of the entry, if its lengths don't fit.
    #[inline(always)]
    pub(crate) fn number(&self) -> Option<u32>
        ensures none { IfNone result (self.now.key_len ≡ no_len → ⊥) }
        ensures some { IfSome result (λ i. (self.now.key_len ≡ no_len) × (i ≡ self.now.original)) }
    {
        if self.key_len == NO_LEN {
            Some(self.original)
        } else {
            None
        }
    }

    /// Unpacks the extents of the texts.
    #[inline(always)]
    pub(crate) fn unpacked(&self) -> TextExtents
        ensures { result ≡ text_extents self.now }
    {
        let key_len = u32::from(self.key_len);
        TextExtents {
            original: Extent {
                start: self.original,
                len: key_len + u32::from(self.rest_len),
            },
            translation: Extent {
                start: self.translation,
                len: u32::from(self.translation_len),
            },
            key_len,
        }
    }
}

/// Reads a row of a table: the length and the offset of a string.
#[inline(always)]
pub(crate) fn extent_at(bytes: &[u8], offset: usize) -> Extent
    requires { offset + 8 ≤ length bytes.now }
    ensures { IsNamedAt bytes.now offset result }
{
    Extent {
        start: LittleEndian::read_u32(&bytes[offset + 4..]),
        len: LittleEndian::read_u32(&bytes[offset..]),
    }
}

/// Returns the text at this extent.
#[inline(always)]
pub(crate) fn text_in(bytes: &[u8], extent: Extent) -> &str
    requires { HoldsPiece bytes.now extent }
    ensures { result.now ≡ piece bytes.now extent }
{
    let start = extent.start as usize;
    let end = start + extent.len as usize;
    unsafe { str::from_utf8_unchecked(&bytes[start..end]) }
}

/// Returns the text at this extent, with the NUL after it.
#[inline(always)]
pub(crate) fn text_with_nul_in(bytes: &[u8], extent: Extent) -> &str
    requires { HoldsWithNul bytes.now extent }
    ensures { result.now ≡ with_nul (piece bytes.now extent) }
{
    let start = extent.start as usize;
    let end = start + extent.len as usize;
    unsafe { str::from_utf8_unchecked(&bytes[start..=end]) }
}
