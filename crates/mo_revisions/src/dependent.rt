//! The system-dependent part of a file.
ghost use Rattle.std.specs.Prelude.{◌≡◌, ◌↔◌, ◌≤◌, length, IsTrue, IfOk, IfErr};
ghost use Rattle.mo_image.specs.MoFile.{header_len, most_file};
ghost use Rattle.mo_file.specs.MoReading.{file_by};
ghost use Rattle.mo_segments.specs.MessageStrings.{strings_of};
ghost use Rattle.mo_revisions.specs.Revisions.{statics, HasDependent, IsDependentThere};
ghost use Rattle.mo_revisions.specs.Refusing.{IsPartFault};

use crate::fault::AnyMoFault;
use crate::header::{LONG_HEADER_LEN, SEGMENT_COUNT_AT, SEGMENTS_AT};
use byteorder::ByteOrder;
use mo_image::ROW_LEN;
use mo_segments::{
    DEPENDENT_COUNT_AT, DEPENDENT_ORIGINALS_AT, DEPENDENT_TRANSLATIONS_AT, Strings, add_dependent,
    read_segments,
};
use mo_tables::word;
use std::alloc::Global;

/// The length of a row in the tables of system-dependent strings: a descriptor's offset.
const OFFSET_LEN: usize = 4;

/// Whether the header has its twelve words, and the three tables of the system-dependent part lie in the file.
fn is_dependent_there<T: ByteOrder>(bytes: &[u8]) -> bool
    ensures { IsTrue result ↔ IsDependentThere (file_by T.number_of bytes.now) }
{
    if bytes.len() < LONG_HEADER_LEN {
        return false;
    }
    let rows = OFFSET_LEN * word::<T>(bytes, DEPENDENT_COUNT_AT);
    let segments = ROW_LEN * word::<T>(bytes, SEGMENT_COUNT_AT);
    word::<T>(bytes, DEPENDENT_ORIGINALS_AT) + rows <= bytes.len()
        && word::<T>(bytes, DEPENDENT_TRANSLATIONS_AT) + rows <= bytes.len()
        && word::<T>(bytes, SEGMENTS_AT) + segments <= bytes.len()
}

/// Adds the system-dependent messages of a file to its static ones.
pub(crate) fn with_dependent<T: ByteOrder>(
    alloc: Global,
    bytes: &[u8],
    messages: Vec<Strings>,
) -> Result<Vec<Strings>, AnyMoFault>
    requires short { length bytes.now ≤ most_file }
    requires statics { strings_of messages.items ≡ statics (file_by T.number_of bytes.now) }
    ensures ok { IfOk result (λ v. HasDependent (file_by T.number_of bytes.now) (strings_of v.items)) }
    ensures err { IfErr result (IsPartFault (file_by T.number_of bytes.now)) }
{
    if !is_dependent_there::<T>(bytes) {
        return Err(AnyMoFault::Tables);
    }
    let table = word::<T>(bytes, SEGMENTS_AT);
    let n = word::<T>(bytes, SEGMENT_COUNT_AT);
    let values = read_segments::<T>(alloc, bytes, table, n)?;
    Ok(add_dependent::<T>(alloc, bytes, values.as_slice(), messages)?)
}
