//! The rows of a file's tables, and where the strings that they name lie.
ghost use Rattle.std.specs.Prelude.{◌≡◌, ◌↔◌, ◌+◌, ◌^◌, ◌<◌, ◌≤◌, length, IsTrue, IfOk};
ghost use Rattle.mo_tables.specs.Rows.{rows, span_at};
ghost use Rattle.mo_image.specs.Tables.{word_at, string_at};
ghost use Rattle.mo_tables.specs.MoTables.{table_at, StringLies, HasNul, TableLies};

use byteorder::ByteOrder;
use mo_image::ROW_LEN;
use std::alloc::{AllocError, Global};

/// Reads a word of 32 bits.
#[inline]
pub fn word<T: ByteOrder>(bytes: &[u8], offset: usize) -> usize
    requires { offset + 4 ≤ length bytes.now }
    ensures value { result ≡ word_at T.number_of bytes.now offset }
    ensures small { result < 2 ^ 32 }
{
    T::read_u32(&bytes[offset..]) as usize
}

/// Whether the string of the row at this offset, and one more byte after it, lie in the file.
pub(crate) fn string_lies<T: ByteOrder>(bytes: &[u8], offset: usize) -> bool
    requires { offset + 8 ≤ length bytes.now }
    ensures { IsTrue result ↔ StringLies T.number_of bytes.now offset }
{
    word::<T>(bytes, offset + 4) + word::<T>(bytes, offset) < bytes.len()
}

/// Whether the string of the row at this offset is followed by a NUL.
pub(crate) fn has_nul<T: ByteOrder>(bytes: &[u8], offset: usize) -> bool
    requires row { offset + 8 ≤ length bytes.now }
    requires lies { StringLies T.number_of bytes.now offset }
    ensures { IsTrue result ↔ HasNul T.number_of bytes.now offset }
{
    bytes[word::<T>(bytes, offset + 4) + word::<T>(bytes, offset)] == 0
}

/// Returns the string of the row at this offset.
#[inline]
pub fn string<T: ByteOrder>(bytes: &[u8], offset: usize) -> &[u8]
    requires row { offset + 8 ≤ length bytes.now }
    requires lies { StringLies T.number_of bytes.now offset }
    ensures { result.now ≡ string_at T.number_of bytes.now offset }
{
    let len = word::<T>(bytes, offset);
    let start = word::<T>(bytes, offset + 4);
    &bytes[start..start + len]
}

/// Where a string lies in a file: its offset and its length in bytes.
#[derive(Clone, Copy)]
pub(crate) struct Span {
    pub(crate) start: u32,
    pub(crate) len: u32,
}

impl Span {
    /// The offset of the string's first byte.
    #[inline(always)]
    pub(crate) fn start(self) -> usize
        ensures { result ≡ self.start }
    {
        self.start as usize
    }

    /// The offset just past the string's last byte.
    #[inline(always)]
    pub(crate) fn end(self) -> usize
        ensures { result ≡ self.start + self.len }
    {
        self.start as usize + self.len as usize
    }
}

/// Where an original and its translation lie.
#[derive(Clone, Copy)]
pub(crate) struct Row {
    pub(crate) original: Span,
    pub(crate) translation: Span,
}

/// Reads the row at this offset: where its string lies.
pub(crate) fn read_span<T: ByteOrder>(bytes: &[u8], offset: usize) -> Span
    requires { offset + 8 ≤ length bytes.now }
    ensures { result ≡ span_at T.number_of bytes.now offset }
{
    Span {
        start: T::read_u32(&bytes[offset + 4..]),
        len: T::read_u32(&bytes[offset..]),
    }
}

/// Reads the `n` rows of both tables, in their order.
pub(crate) fn read_rows<T: ByteOrder>(
    alloc: Global,
    bytes: &[u8],
    originals: usize,
    translations: usize,
    n: usize,
) -> Result<Vec<Row>, AllocError>
    requires originals { TableLies (table_at T.number_of bytes.now originals n) }
    requires translations { TableLies (table_at T.number_of bytes.now translations n) }
    ensures { IfOk result (λ v. v.items ≡ rows T.number_of bytes.now originals translations n) }
{
    let mut rows = Vec::with_capacity(alloc, n)?;
    for i in 0..n {
        rows.push(Row {
            original: read_span::<T>(bytes, originals + ROW_LEN * i),
            translation: read_span::<T>(bytes, translations + ROW_LEN * i),
        })?;
    }
    Ok(rows)
}
