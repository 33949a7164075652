//! White space, and the first byte and line of a slice.
ghost use Rattle.std.specs.Prelude.{◌≡◌, ◌≤◌, ◌++◌, length};
ghost use Rattle.std.specs.List.{take_while};
ghost use Rattle.po_text.specs.Spelling.{is_white, is_not_line_end};

use byte_text::offset_of;

/// White space: space, tab, LF, VT, FF or CR.
pub(crate) fn is_white_byte(byte: u8) -> bool
    ensures { result ≡ is_white byte }
{
    (9 <= byte && byte <= 13) || byte == b' '
}

/// The bytes before the next LF or the end, and the rest.
#[inline(always)]
pub(crate) fn split_line(text: &[u8]) -> (&[u8], &[u8])
    ensures line { result.0.now ≡ take_while is_not_line_end text.now }
    ensures rest { text.now ≡ result.0.now ++ result.1.now }
    ensures shorter { length result.1.now ≤ length text.now }
{
    text.split_at(offset_of(text, b'\n'))
}
