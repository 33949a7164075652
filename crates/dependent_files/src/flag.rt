//! Whether a translation has a directive with the flag `I`.
ghost use Rattle.std.specs.Prelude.{◌≡◌, ◌↔◌, ◌⊎◌, IfOk, IsTrue, map, not};
ghost use Rattle.std.specs.List.{list_all, prefix_len};
ghost use Rattle.mo_image.specs.Entry.{translation};
ghost use Rattle.mo_image.specs.MoFile.{pool};
ghost use Rattle.c_macros.specs.MacroSplits.{is_macro};
ghost use Rattle.dependent_files.specs.DigitsFlag.{FormHasFlag, HasFlag, SomeHasFlag};
ghost use Rattle.dependent_files.specs.FlagScanning as spec;

use byteorder::{ByteOrder, LittleEndian};
use c_macros::{Side, Split, splits};
use catalogue::{Catalogue, EntryRef};
use format_arguments::next_directive;
use mo_image::{HEADER_LEN, ROW_LEN};
use std::alloc::{AllocError, Global};

/// Whether a byte can stand between the `%` of a directive and the flag, or is the flag.
fn is_in_front(byte: u8) -> bool
    ensures { result ≡ spec.is_in_front byte }
{
    match byte {
        b' ' | b'+' | b'-' | b'#' | b'\'' | b'I' | b'$' | b'0'..=b'9' => true,
        _ => false,
    }
}

/// The number of bytes at the front that can lead to the flag.
fn front_len(text: &[u8]) -> usize
    ensures { result ≡ prefix_len spec.is_in_front text.now }
{
    text.iter().take_while(|byte| is_in_front(**byte)).count()
}

/// Whether such bytes at the front of a text have the flag among them.
fn leads_to_flag(text: &[u8]) -> bool
    ensures { result ≡ spec.leads_to_flag text.now }
{
    text[..front_len(text)].contains(&b'I')
}

/// Whether a `%` in these bytes leads to the flag. Where none does, no format in them has it.
#[tactic(auto, using(crate::proofs::Flags::next, crate::proofs::Flags::none, crate::proofs::Flags::shorter))]
fn may_have_flag(text: &[u8]) -> bool
    ensures { result ≡ spec.may_have_flag text.now }
{
    let mut rest = text;
    'directives: while let Some(behind) = next_directive(rest, b'%') {
        if leads_to_flag(behind) {
            return true;
        }
        rest = behind;
    }
    false
}

/// The translations as they lie in the MO file of a catalogue: the string that the first row of their table names, and
/// all behind it.
fn translations(catalogue: &Catalogue) -> &[u8]
    ensures { result.now ≡ pool (map translation catalogue.now) }
{
    if catalogue.is_empty() {
        return &[];
    }
    let file = catalogue.file();
    let first_row = HEADER_LEN + ROW_LEN * catalogue.len();
    let start = LittleEndian::read_u32(&file[first_row + 4..]) as usize;
    &file[start..]
}

fn are_macros(parts: &[Split]) -> bool
    ensures { result ≡ list_all is_macro parts.now }
{
    parts.iter().all(|part| part.len != 1)
}

/// Whether a form is a format that has the flag. The only error is a failed allocation.
fn form_has_flag(alloc: Global, form: &str) -> Result<bool, AllocError>
    ensures { IfOk result (λ has. IsTrue has ↔ HasFlag form.now) }
{
    let parts = splits(alloc, form, Side::Translation)?;
    Ok(!are_macros(parts.as_slice()))
}

/// Whether some form of an entry has the flag. The only error is a failed allocation.
fn entry_has_flag(alloc: Global, entry: &EntryRef<'_>) -> Result<bool, AllocError>
    ensures { IfOk result (λ has. IsTrue has ↔ FormHasFlag entry.now) }
{
    if !may_have_flag(entry.translation().as_bytes()) {
        return Ok(false);
    }
    'forms: for k in 0..entry.form_count() {
        if form_has_flag(alloc, entry.form(k))? {
            return Ok(true);
        }
    }
    Ok(false)
}

/// Whether some translation of a catalogue is a C format that has the flag `I` in a directive, at which GNU msgfmt
/// splits it where the message is flagged `c-format`. The only error is a failed allocation.
///
/// Most catalogues have no such bytes at all, and then it is one pass over the `%` of their translations.
pub fn has_digits_flag(alloc: Global, catalogue: &Catalogue) -> Result<bool, AllocError>
    ensures { IfOk result (λ has. IsTrue has ↔ SomeHasFlag catalogue.now) }
{
    if !may_have_flag(translations(catalogue)) {
        return Ok(false);
    }
    'entries: for i in 0..catalogue.len() {
        if entry_has_flag(alloc, &catalogue.entry(i))? {
            return Ok(true);
        }
    }
    Ok(false)
}
