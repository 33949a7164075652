//! The text that a descriptor of a system-dependent string stands for on this machine.
ghost use Rattle.std.specs.Prelude.{◌≡◌, ◌^◌, ◌<◌, ◌≤◌, ◌+◌, ◌*◌, IfOk, IfErr, length};
ghost use Rattle.mo_image.specs.MoFile.{most_file};
ghost use Rattle.mo_segments.specs.Descriptors.{texts_of};
ghost use Rattle.mo_segments.specs.Expanding.{IsExpanded, HasFault};

use crate::fault::DependentFault;
use crate::machine::Value;
use crate::words::word;
use byteorder::ByteOrder;
use std::alloc::Global;

/// What follows the last piece of a text in place of a segment's number.
const NO_SEGMENT: usize = 0xffff_ffff;

/// The length of a descriptor's row: the length of a piece, and the number of a segment.
const ROW_LEN: usize = 8;

/// The text that a descriptor stands for.
#[derive(Drop)]
pub struct Expanded {
    /// The text, without the NUL at its end.
    pub text: Vec<u8>,
    /// Whether the machine knows each of its segments. If not, the text lacks what they stand for.
    pub known: bool,
    /// What the descriptor takes: the bytes of its text with the NUL, and those of its rows.
    pub cost: usize,
}

/// Reads the descriptor at `at`. The error is its first fault, or `Swollen` where it takes more than `room`.
pub fn expand<T: ByteOrder>(
    alloc: Global,
    bytes: &[u8],
    values: &[Option<Value>],
    at: usize,
    room: usize,
) -> Result<Expanded, DependentFault>
    requires short { length bytes.now ≤ most_file }
    requires at { at < 2 ^ 32 }
    ensures ok { IfOk result (IsExpanded T.number_of bytes.now (texts_of values.now) at room) }
    ensures err { IfErr result (HasFault T.number_of bytes.now (texts_of values.now) at room) }
{
    if bytes.len() < at + 4 + ROW_LEN {
        return Err(DependentFault::Descriptor);
    }
    let rows = (bytes.len() - at - 4) / ROW_LEN;
    let mut text = Vec::new(alloc);
    let mut start = word::<T>(bytes, at);
    let mut known = true;
    'rows: for k in 0..rows {
        let row = at + 4 + ROW_LEN * k;
        let len = word::<T>(bytes, row);
        if bytes.len() < start + len {
            return Err(DependentFault::Text);
        }
        let cost = text.len() + len + ROW_LEN * (k + 1);
        if room < cost {
            return Err(DependentFault::Swollen);
        }
        let piece = &bytes[start..start + len];
        text.extend_from_slice(piece)?;
        start += len;
        let segment = word::<T>(bytes, row + 4);
        if segment == NO_SEGMENT {
            if piece.last() != Some(&0) {
                return Err(DependentFault::OpenText);
            }
            text.pop();
            return Ok(Expanded { text, known, cost });
        }
        if values.len() <= segment {
            return Err(DependentFault::SegmentNumber);
        }
        match values[segment] {
            Some(value) => value.push_to(&mut text)?,
            None => known = false,
        }
    }
    Err(DependentFault::Descriptor)
}
