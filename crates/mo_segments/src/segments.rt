//! The segments of a file: the names of what its system-dependent strings leave to the machine.
ghost use Rattle.std.specs.Prelude.{◌≡◌, ◌↔◌, ℕ, ◌+◌, ◌*◌, ◌<◌, ◌≤◌, length, IsTrue, IfOk, IfErr};
ghost use Rattle.mo_segments.specs.Descriptors.{IsSegment, segment_name, segment_values, texts_of};
ghost use Rattle.mo_segments.specs.Expanding.{AreSegments, LacksSomeSegment};

use crate::fault::DependentFault;
use crate::machine::{Value, value_of};
use crate::words::word;
use byte_text::offset_of;
use byteorder::ByteOrder;
use mo_image::ROW_LEN;
use std::alloc::Global;

/// Whether the segment of this row lies in the file and ends in a NUL.
fn is_segment<T: ByteOrder>(bytes: &[u8], row: usize) -> bool
    requires { row + 8 ≤ length bytes.now }
    ensures { IsTrue result ↔ IsSegment T.number_of bytes.now row }
{
    let len = word::<T>(bytes, row);
    let end = word::<T>(bytes, row + 4) + len;
    0 < len && end <= bytes.len() && bytes[end - 1] == 0
}

/// Returns the name of the segment of this row.
fn name<T: ByteOrder>(bytes: &[u8], row: usize) -> &[u8]
    requires row { row + 8 ≤ length bytes.now }
    requires segment { IsSegment T.number_of bytes.now row }
    ensures { result.now ≡ segment_name T.number_of bytes.now row }
{
    let start = word::<T>(bytes, row + 4);
    let string = &bytes[start..start + word::<T>(bytes, row)];
    &string[..offset_of(string, 0)]
}

/// Reads what the `n` segments of a table stand for.
pub fn read_segments<T: ByteOrder>(
    alloc: Global,
    bytes: &[u8],
    table: usize,
    n: usize,
) -> Result<Vec<Option<Value>>, DependentFault>
    requires { table + 8 * n ≤ length bytes.now }
    ensures values { IfOk result (λ v. texts_of v.items ≡ segment_values T.number_of bytes.now table n) }
    ensures ok { IfOk result (λ _. AreSegments T.number_of bytes.now table n) }
    ensures err { IfErr result (LacksSomeSegment T.number_of bytes.now table n) }
{
    let mut values = Vec::new(alloc);
    'segments: for i in 0..n {
        let row = table + ROW_LEN * i;
        if !is_segment::<T>(bytes, row) {
            return Err(DependentFault::Segment);
        }
        values.push(value_of(name::<T>(bytes, row)))?;
    }
    Ok(values)
}
