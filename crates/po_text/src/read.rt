//! Reads all entries of a text at once.
ghost use Rattle.std.specs.Prelude.{◌≡◌, ℕ, ◌+◌, ◌<◌, ◌≤◌, ◌⊎◌, List, []};
ghost use Rattle.std.specs.Prelude.{◌∷◌, ◌++◌, length, map, IfOk, IfErr, OnOk, slice_get, Some};
ghost use Rattle.po_text.specs.declared.fault.PoKind.{PoKind as KindOfFault};
ghost use Rattle.po_text.specs.Faults.{out_of_memory};
ghost use Rattle.po_text.specs.Entries.{Entry};
ghost use Rattle.po_text.specs.Outcome.{Gives, Refuses};
ghost use Rattle.po_text.specs.Views.{AreCopies, content, entry_view};

use crate::buffer::EntryBuffer;
use crate::entry::PoEntry;
use crate::fault::PoFault;
use crate::open::open_text;
use std::alloc::{AllocError, Global};

/// Appends a copy of the entry in `buffer`.
fn push_copy(
    entries: &mut Vec<PoEntry>,
    alloc: Global,
    buffer: &EntryBuffer,
) -> Result<(), AllocError>
    ensures { OnOk result (map entry_view entries.new.items
        ≡ map entry_view entries.old.items ++ (content buffer.now ∷ [])) }
{
    let entry = buffer.to_entry(alloc)?;
    entries.push(entry)?;
    Ok(())
}

/// Reads all entries of a PO text (the GNU gettext manual, "PO Files"), in order.
///
/// Refuses a text of more than 67,108,864 bytes or one that isn't UTF-8. Otherwise the first lexical fault is returned,
/// or the first grammar fault if there is no lexical one. If memory runs out, the fault is `Memory`, on line 0.
pub fn read_po(alloc: Global, text: &[u8]) -> Result<Vec<PoEntry>, PoFault>
    ensures ok { IfOk result (λ copies.
        (entries : List Entry) × Gives text.now entries × AreCopies copies.items entries) }
    ensures err { IfErr result (λ fault.
        (fault ≡ out_of_memory) ⊎ Refuses text.now fault.kind fault.line) }
{
    let mut reader = open_text(alloc, text)?;
    let mut buffer = EntryBuffer::new(alloc);
    let mut entries = Vec::new(alloc);
    'entries: while reader.next_entry(&mut buffer)? {
        push_copy(&mut entries, alloc, &buffer)?;
    }
    Ok(entries)
}

/// A law, without code: every text either gives one list of entries or is refused with one kind of fault on one line,
/// never both. So the result of `read_po` is determined, unless memory runs out.
pub fn one_outcome()
    ensures entries { (text : List ℕ) (entries others : List Entry) →
        Gives text entries → Gives text others → entries ≡ others }
    ensures fault { (text : List ℕ) (kind other : KindOfFault) (line m : ℕ) →
        Refuses text kind line → Refuses text other m → (kind ≡ other) × (line ≡ m) }
    ensures either { (text : List ℕ) (entries : List Entry) (kind : KindOfFault) (line : ℕ) →
        Gives text entries → ¬ Refuses text kind line }
    ensures some { (text : List ℕ) → ((entries : List Entry) → ¬ Gives text entries) →
        ¬ ¬ ((kind : KindOfFault) × (line : ℕ) × Refuses text kind line) }
{}
