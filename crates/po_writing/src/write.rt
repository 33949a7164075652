//! Writes the PO text of a catalogue.
ghost use Rattle.std.specs.Prelude.{◌≡◌, ◌≤◌, length, IfOk};
ghost use Rattle.po_text.specs.Outcome.{max_text};
ghost use Rattle.po_writing.specs.Laws.{Tells};
ghost use Rattle.po_writing.specs.Written.{po_of};

use crate::entries::push_entry;
use catalogue::Catalogue;
use std::alloc::{AllocError, Global};

/// Returns the PO text of a catalogue: its entries in the order of the MO file, as `msgunfmt --no-wrap` writes them
/// (GNU gettext manual, "msgunfmt Invocation"). The header comes first, since its key is the least.
///
/// With `escape`, bytes that aren't printable ASCII are written as octal escapes; otherwise only those are escaped that
/// C has a letter for. A header alone is written as any other entry, as `msgunfmt --force-po` does; no entries at all
/// make an empty text. The only error is a failed allocation.
pub fn write_po(alloc: Global, catalogue: &Catalogue, escape: bool) -> Result<Vec<u8>, AllocError>
    ensures text { IfOk result (λ v. v.items ≡ po_of escape catalogue.now) }

    // Read again, the text gives the entries of the catalogue and nothing else, unless it is too large to be read.
    ensures read { IfOk result (λ v. length v.items ≤ max_text → Tells v.items catalogue.now) }
{
    let mut out = Vec::new(alloc);
    for i in 0..catalogue.len() {
        if i > 0 {
            out.push(b'\n')?;
        }
        push_entry(&mut out, &catalogue.entry(i), escape)?;
    }
    Ok(out)
}
