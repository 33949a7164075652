//! Whether the C formats of an entry agree, where they may name macros.
ghost use Rattle.std.specs.Prelude.{◌≡◌, ◌↔◌, ◌⊎◌, IsTrue, IfOk};
ghost use Rattle.std.specs.List.{Any};
ghost use Rattle.po_checks.specs.Checks.{format_original, strictness};
ghost use Rattle.dependent_po.specs.Formats.{Differs, FormsDiffer, HasOtherArguments};
ghost use Rattle.dependent_po.specs.Comparing.{FormDiffers, IsReadAs};

use c_macros::{Kind, MacroFault, agrees, signature};
use c_signature::Strictness;
use po_text::EntryBuffer;
use std::alloc::{AllocError, Global};

/// How a text reads as a format.
#[derive(Drop)]
pub(crate) enum Format {
    Arguments(Vec<Kind>),
    Invalid,
}

/// Reads a text as a format. The only error is a failed allocation.
fn read_format(alloc: Global, text: &str) -> Result<Format, AllocError>
    ensures { IfOk result (IsReadAs text.now) }
{
    match signature(alloc, text) {
        Ok(kinds) => Ok(Format::Arguments(kinds)),
        Err(MacroFault::Invalid) => Ok(Format::Invalid),
        Err(MacroFault::Memory) => Err(AllocError),
    }
}

/// Whether a form differs from its original.
fn differs(original: &[Kind], form: &Format, rule: Strictness) -> bool
    ensures { IsTrue result ↔ FormDiffers original.now form.now rule }
{
    match form {
        Format::Arguments(form) => !agrees(original, form.as_slice(), rule),
        Format::Invalid => true,
    }
}

/// Whether a form differs from its original, or one before it does.
fn differs_or(original: &[Kind], form: &Format, rule: Strictness, before: bool) -> bool
    ensures { IsTrue result ↔ (FormDiffers original.now form.now rule ⊎ IsTrue before) }
{
    differs(original, form, rule) || before
}

/// Whether some form of an entry differs from the original.
fn some_form_differs(
    alloc: Global,
    entry: &EntryBuffer,
    original: &[Kind],
    rule: Strictness,
) -> Result<bool, AllocError>
    ensures { IfOk result (λ some. IsTrue some ↔ Any (Differs original.now rule) entry.now.forms) }
{
    let mut some = false;
    'forms: for k in 0..entry.form_count() {
        let form = read_format(alloc, entry.form(k))?;
        some = differs_or(original, &form, rule, some);
    }
    Ok(some)
}

/// The text that the forms of an entry are compared with, and how strictly.
fn format_original(entry: &EntryBuffer) -> (&str, Strictness)
    ensures text { result.0.now ≡ format_original entry.now }
    ensures rule { result.1 ≡ strictness entry.now.plural }
{
    match entry.plural() {
        Some(plural) => (plural, Strictness::Prefix),
        None => (entry.id(), Strictness::Same),
    }
}

/// Whether some form of an entry differs from its original, as formats. The only error is a failed allocation.
fn flagged_differ(alloc: Global, entry: &EntryBuffer) -> Result<bool, AllocError>
    ensures { IfOk result (λ differ. IsTrue differ ↔ FormsDiffer entry.now) }
{
    let (original, rule) = format_original(entry);
    match read_format(alloc, original)? {
        Format::Arguments(kinds) => some_form_differs(alloc, entry, kinds.as_slice(), rule),
        Format::Invalid => Ok(false),
    }
}

/// Whether an entry is flagged `c-format`, and some form differs from its original.
pub(crate) fn has_other_arguments(alloc: Global, entry: &EntryBuffer) -> Result<bool, AllocError>
    ensures { IfOk result (λ differ. IsTrue differ ↔ HasOtherArguments entry.now) }
{
    if !entry.is_c_format() {
        return Ok(false);
    }
    flagged_differ(alloc, entry)
}
