//! The words of a file.
ghost use Rattle.std.specs.Prelude.{◌≡◌, ◌+◌, ◌^◌, ◌<◌, ◌≤◌, length};
ghost use Rattle.mo_image.specs.Tables.{word_at};

use byteorder::ByteOrder;

/// Reads a word of 32 bits.
#[inline]
pub(crate) fn word<T: ByteOrder>(bytes: &[u8], offset: usize) -> usize
    requires { offset + 4 ≤ length bytes.now }
    ensures value { result ≡ word_at T.number_of bytes.now offset }
    ensures small { result < 2 ^ 32 }
{
    T::read_u32(&bytes[offset..]) as usize
}
