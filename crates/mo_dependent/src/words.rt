//! The words of a file.
ghost use Rattle.std.specs.Prelude.{◌≡◌, ◌++◌, ◌^◌, ◌<◌, OnOk};
ghost use Rattle.mo_image.specs.MoFile.{word};

use byteorder::{ByteOrder, LittleEndian};
use std::alloc::AllocError;

/// Appends a little-endian word of 32 bits.
pub(crate) fn push_word(out: &mut Vec<u8>, n: usize) -> Result<(), AllocError>
    requires { n < 2 ^ 32 }
    ensures { OnOk result (out.new.items ≡ out.old.items ++ word n) }
{
    let mut bytes = [0; 4];
    LittleEndian::write_u32(&mut bytes, n as u32);
    out.extend_from_slice(&bytes)
}
