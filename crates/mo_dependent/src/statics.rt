//! The static messages of a file.
ghost use Rattle.std.specs.Prelude.{◌≡◌, ◌++◌, ◌<◌, ◌≤◌, ◌*◌, ◌+◌, ◌^◌, [], length, get_or, OnOk};
ghost use Rattle.mo_image.specs.MoFile.{pool, pairs};
ghost use Rattle.mo_dependent.specs.Layout.{strings};

use crate::words::push_word;
use byteorder::{ByteOrder, LittleEndian};
use mo_image::{HEADER_LEN, Image, ROW_LEN};
use std::alloc::AllocError;

/// The strings of the messages, each with a NUL after it: the originals, and then the translations.
pub(crate) fn string_pool(statics: &Image) -> &[u8]
    ensures { result.now ≡ pool (strings statics.now) }
{
    &statics.file()[HEADER_LEN + 2 * ROW_LEN * statics.len()..]
}

/// Reads the length of the i-th string.
fn string_len(statics: &Image, i: usize) -> usize
    requires { i < 2 * length statics.now }
    ensures { result ≡ length (get_or (strings statics.now) i []) }
{
    LittleEndian::read_u32(&statics.file()[HEADER_LEN + ROW_LEN * i..]) as usize
}

/// Appends the tables of the originals and of the translations, whose strings begin at the offset `at`.
pub(crate) fn push_strings(
    out: &mut Vec<u8>,
    statics: &Image,
    mut at: usize,
) -> Result<(), AllocError>
    requires { at + length (pool (strings statics.now)) < 2 ^ 32 }
    ensures { OnOk result (out.new.items ≡ out.old.items ++ pairs at (strings statics.now)) }
{
    'strings: for i in 0..2 * statics.len() {
        let len = string_len(statics, i);
        push_word(out, len)?;
        push_word(out, at)?;
        at += len + 1;
    }
    Ok(())
}
