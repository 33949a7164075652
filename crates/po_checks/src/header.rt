//! The kept header of a PO text (GNU gettext manual, "Header Entry").
ghost use Rattle.std.specs.Prelude.{◌≡◌, ◌<◌, ◌&&◌, IfOk, IsTrue, length};
ghost use Rattle.po_checks.specs.Headers.{IsHeaderOf, own_header};
ghost use Rattle.po_checks.specs.Kept as Kept;

use crate::kept::{is_header, is_kept};
use crate::options::Options;
use po_text::EntryBuffer;
use std::alloc::{AllocError, Global};

/// A header's text and line.
#[derive(Drop)]
pub struct Header {
    /// The header's fields: the `msgstr` of the entry whose msgid is empty.
    pub text: String,
    /// The line of that `msgstr`, from 1.
    pub line: u32,
}

/// Whether an entry is the kept header.
fn is_kept_header(entry: &EntryBuffer, options: Options) -> bool
    ensures is { result ≡ (Kept.is_kept options entry.now && Kept.is_header entry.now) }
    ensures some { IsTrue result → 0 < length entry.now.forms }
{
    0 < entry.form_count() && is_kept(entry, options) && is_header(entry)
}

/// The entry as a header, if it is the one that a text compiled with these options keeps.
///
/// # Errors
/// Without memory for a copy of the text.
pub fn header_of(
    alloc: Global,
    entry: &EntryBuffer,
    options: Options,
) -> Result<Option<Header>, AllocError>
    ensures { IfOk result (λ header. IsHeaderOf (own_header options entry.now) header) }
{
    if !is_kept_header(entry, options) {
        return Ok(None);
    }
    let text = String::from_str(alloc, entry.form(0))?;
    Ok(Some(Header {
        text,
        line: entry.line(),
    }))
}
