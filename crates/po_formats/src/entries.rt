//! The faults of the entries of a text.
ghost use Rattle.std.specs.Prelude.{◌≡◌, ◌⊎◌, List, IfOk, IfErr, OnOk, map};
ghost use Rattle.po_text.specs.Entries.{Entry as PoEntry};
ghost use Rattle.po_text.specs.Outcome.{Gives};
ghost use Rattle.po_checks.specs.Kept as Kept;
ghost use Rattle.po_formats.specs.Adding.{AddsIf};
ghost use Rattle.po_checks.specs.Refusal.{out_of_memory};
ghost use Rattle.format_checks.specs.FormatFaults.{AddsFaults, all_questions};
ghost use Rattle.po_formats.specs.EntryFaults.{AreAllFaults, checked_entry};
ghost use Rattle.po_formats.specs.PlainFaults.{RefusesText};

use format_checks::{Entry, Fault, add_faults};
use po_checks::{LoadFault, Options, is_kept};
use po_text::{EntryBuffer, open_text};
use std::alloc::{AllocError, Global};

/// The forms of an entry.
fn forms_of(alloc: Global, entry: &EntryBuffer) -> Result<Vec<&[u8]>, AllocError>
    ensures { IfOk result (λ forms. map (λ form. form.now) forms.items ≡ entry.now.forms) }
{
    let mut forms = Vec::new(alloc);
    'forms: for k in 0..entry.form_count() {
        forms.push(entry.form(k).as_bytes())?;
    }
    Ok(forms)
}

/// Adds the faults of one entry.
fn add_entry(
    faults: &mut Vec<Fault>,
    alloc: Global,
    entry: &EntryBuffer,
    often: &[bool],
) -> Result<(), AllocError>
    ensures { OnOk result (AddsFaults entry.now.form_line (all_questions (checked_entry entry.now) often.now)
        faults.old.items faults.new.items) }
{
    let forms = forms_of(alloc, entry)?;
    let plural = match entry.plural() {
        Some(plural) => Some(plural.as_bytes()),
        None => None,
    };
    let checked = Entry {
        line: entry.form_line(),
        flags: entry.formats(),
        id: entry.id().as_bytes(),
        plural,
        forms: forms.as_slice(),
    };
    add_faults(faults, alloc, checked, often)
}

/// Adds the faults of an entry, if it is kept.
fn add_if_kept(
    faults: &mut Vec<Fault>,
    alloc: Global,
    entry: &EntryBuffer,
    options: Options,
    often: &[bool],
) -> Result<(), AllocError>
    ensures { OnOk result (AddsIf (Kept.is_kept options entry.now) often.now entry.now faults.old.items
        faults.new.items) }
{
    if !is_kept(entry, options) {
        return Ok(());
    }
    add_entry(faults, alloc, entry, often)
}

/// The faults of the kept entries of a text, in their order.
pub(crate) fn faults_of_entries(
    alloc: Global,
    text: &[u8],
    options: Options,
    often: &[bool],
) -> Result<Vec<Fault>, LoadFault>
    ensures ok { IfOk result (λ faults. (entries : List PoEntry) × Gives text.now entries
        × AreAllFaults often.now (Kept.kept_entries options entries) faults.items) }
    ensures err { IfErr result (λ fault. (fault ≡ out_of_memory) ⊎ RefusesText text.now fault.kind fault.line) }
{
    let mut reader = open_text(alloc, text)?;
    let mut entry = EntryBuffer::new(alloc);
    let mut faults = Vec::new(alloc);
    'entries: while reader.next_entry(&mut entry)? {
        add_if_kept(&mut faults, alloc, &entry, options, often)?;
    }
    Ok(faults)
}
