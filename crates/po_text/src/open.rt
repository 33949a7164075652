//! Whether a text can be read, and where its entries begin.
ghost use Rattle.std.specs.Prelude.{◌≡◌, ◌+◌, ◌<◌, ◌≤◌, ◌^◌, [], IfOk, IfErr, None, false, length};
ghost use Rattle.std.specs.Str.{IsUtf8};
ghost use Rattle.po_text.specs.Ends.{EndsText};
ghost use Rattle.po_text.specs.Outcome.{IsReadable, Refuses, body};
ghost use Rattle.po_text.specs.Progress.{HasRead, fault_of};
ghost use Rattle.po_text.specs.Spelling.{newlines};

use crate::fault::{PoFault, PoKind};
use crate::reader::EntryReader;
use simdutf8::compat::from_utf8;
use std::alloc::Global;

/// The line on which the text ends.
fn line_behind(text: &[u8]) -> u32
    requires { length text.now < 2 ^ 31 }
    ensures { result ≡ newlines text.now + 1 }
{
    text.iter().filter(|byte| **byte == b'\n').count() as u32 + 1
}

/// The text without its byte order mark, if it begins with one.
fn skip_mark(text: &[u8]) -> &[u8]
    ensures is { result.now ≡ body text.now }
    ensures shorter { length result.now ≤ length text.now }
    ensures ends { IsUtf8 text.now → EndsText result.now }
{
    let (front, rest) = text.split_at(text.len().min(3));
    if front == b"\xef\xbb\xbf".as_slice() {
        rest
    } else {
        text
    }
}

/// The maximum size of a PO text in bytes, its byte order mark included: 64 MiB (our choice).
pub const MAX_TEXT: usize = 67_108_864;

/// Opens a PO text for reading its entries; a byte order mark at the front is skipped.
///
/// Refuses a text of more than 67,108,864 bytes with `TooLarge` on line 0, and one that isn't UTF-8 with `NotUtf8` on
/// the line of the first byte that can't be decoded. Allocates nothing.
pub fn open_text(alloc: Global, text: &[u8]) -> Result<EntryReader, PoFault>
    ensures readable { IfOk result (λ _. IsReadable text.now) }
    ensures read { IfOk result (λ reader. HasRead (body text.now) [] reader) }
    ensures unfailed { IfOk result (λ reader. fault_of reader ≡ None) }
    ensures err { IfErr result (λ fault. Refuses text.now fault.kind fault.line) }
{
    if MAX_TEXT < text.len() {
        return Err(PoFault::new(PoKind::TooLarge, 0));
    }
    if let Err(error) = from_utf8(text) {
        let (decoded, _) = text.split_at(error.valid_up_to());
        return Err(PoFault::new(PoKind::NotUtf8, line_behind(decoded)));
    }
    Ok(EntryReader::new(alloc, skip_mark(text)))
}
