//! The check of C formats: the arguments of a form have to be those of its original (GNU gettext manual, "c-format").
ghost use Rattle.std.specs.Prelude.{◌≡◌, ◌⊎◌, ◌↔◌, ◌||◌, false, IsTrue, IfOk, IfErr};
ghost use Rattle.std.specs.List.{Any};
ghost use Rattle.c_signature.specs.Signature.{IsSystemDependent};
ghost use Rattle.po_checks.specs.Checks.{text_if, texts, FormsDiffer, HasOtherArguments, HasSystemDependentText};
ghost use Rattle.po_checks.specs.Findings.{is_dependent, DiffersFrom, FormatsDiffer, IsReadAs, Strays};

use c_signature::{ArgKind, FormatFault, Strictness, agrees, have_same_arguments, signature};
use po_text::EntryBuffer;
use std::alloc::{AllocError, Global};

/// How a text reads as a format.
#[derive(Drop)]
pub(crate) enum Format {
    Arguments(Vec<ArgKind>),
    Invalid,
    SystemDependent,
}

/// What the formats of an entry are refused for.
#[derive(Clone, Copy)]
pub(crate) struct FormatFindings {
    /// Some text is system-dependent.
    pub(crate) system_dependent: bool,
    /// Some form differs from its original.
    pub(crate) mismatch: bool,
}

/// Reads a text as a format. The only error is a failed allocation.
fn read_format(alloc: Global, text: &str) -> Result<Format, AllocError>
    ensures { IfOk result (λ format. IsReadAs text.now format) }
{
    match signature(alloc, text) {
        Ok(kinds) => Ok(Format::Arguments(kinds)),
        Err(FormatFault::Invalid) => Ok(Format::Invalid),
        Err(FormatFault::SystemDependent) => Ok(Format::SystemDependent),
        Err(FormatFault::Memory) => Err(AllocError),
    }
}

fn is_system_dependent(format: &Format) -> bool
    ensures { result ≡ is_dependent format.now }
{
    match format {
        Format::SystemDependent => true,
        Format::Arguments(_) | Format::Invalid => false,
    }
}

/// Whether a form differs from its original. An original that isn't a valid format isn't compared.
fn differs(original: &Format, form: &Format, rule: Strictness) -> bool
    ensures { IsTrue result ↔ FormatsDiffer original.now form.now rule }
{
    match (original, form) {
        (Format::Arguments(original), Format::Arguments(form)) => !agrees(original, form, rule),
        (Format::Arguments(_), Format::Invalid) => true,
        _ => false,
    }
}

impl FormatFindings {
    /// Starts with no text read.
    fn none() -> FormatFindings
        ensures { result ≡ record { system_dependent = false; mismatch = false } }
    {
        FormatFindings {
            system_dependent: false,
            mismatch: false,
        }
    }

    /// Adds the findings of one more text.
    fn with_text(self, text: &Format) -> FormatFindings
        ensures dependent { result.system_dependent ≡ (is_dependent text.now || self.system_dependent) }
        ensures mismatch { result.mismatch ≡ self.mismatch }
    {
        FormatFindings {
            system_dependent: is_system_dependent(text) || self.system_dependent,
            mismatch: self.mismatch,
        }
    }

    /// Adds the findings of one more form, compared with its original.
    fn with_form(self, original: &Format, form: &Format, rule: Strictness) -> FormatFindings
        ensures dependent { result.system_dependent ≡ (is_dependent form.now || self.system_dependent) }
        ensures mismatch { IsTrue result.mismatch ↔ (FormatsDiffer original.now form.now rule ⊎ IsTrue self.mismatch) }
    {
        FormatFindings {
            system_dependent: is_system_dependent(form) || self.system_dependent,
            mismatch: differs(original, form, rule) || self.mismatch,
        }
    }
}

/// Compares the forms of an entry with their original.
fn form_faults(
    alloc: Global,
    entry: &EntryBuffer,
    original: &Format,
    rule: Strictness,
) -> Result<FormatFindings, AllocError>
    ensures dependent { IfOk result (λ faults. IsTrue faults.system_dependent ↔ Any IsSystemDependent entry.now.forms) }
    ensures mismatch { IfOk result (λ faults. IsTrue faults.mismatch
        ↔ Any (DiffersFrom original.now rule) entry.now.forms) }
{
    let mut faults = FormatFindings::none();
    'forms: for k in 0..entry.form_count() {
        let form = read_format(alloc, entry.form(k))?;
        faults = faults.with_form(original, &form, rule);
    }
    Ok(faults)
}

/// Whether the `msgid_plural`, if there is one, takes the arguments of the `msgid`. `false` says nothing.
fn plural_is_same(entry: &EntryBuffer) -> bool
    ensures { IsTrue result → ¬ Any (Strays entry.now.id) (text_if entry.now.plural) }
{
    match entry.plural() {
        Some(plural) => have_same_arguments(entry.id(), plural),
        None => true,
    }
}

/// Whether all forms take the arguments of the `msgid`. `false` says nothing.
fn forms_are_same(entry: &EntryBuffer) -> bool
    ensures { IsTrue result → ¬ Any (Strays entry.now.id) entry.now.forms }
{
    let id = entry.id();
    'forms: for k in 0..entry.form_count() {
        if !have_same_arguments(id, entry.form(k)) {
            return false;
        }
    }
    true
}

/// Whether all texts of an entry are formats with the same arguments, as in most entries. No memory is allocated to
/// find out. `false` says nothing.
fn texts_are_same(entry: &EntryBuffer) -> bool
    ensures dependent { IsTrue result → ¬ Any IsSystemDependent (texts entry.now) }
    ensures mismatch { IsTrue result → ¬ FormsDiffer entry.now }
{
    if entry.form_count() == 0 || !plural_is_same(entry) {
        return false;
    }
    forms_are_same(entry)
}

/// Checks the formats of an entry that is flagged `c-format`.
fn flagged_faults(alloc: Global, entry: &EntryBuffer) -> Result<FormatFindings, AllocError>
    ensures dependent { IfOk result
        (λ faults. IsTrue faults.system_dependent ↔ Any IsSystemDependent (texts entry.now)) }
    ensures mismatch { IfOk result (λ faults. IsTrue faults.mismatch ↔ FormsDiffer entry.now) }
{
    let id = read_format(alloc, entry.id())?;
    let Some(plural) = entry.plural() else {
        let faults = form_faults(alloc, entry, &id, Strictness::Same)?;
        return Ok(faults.with_text(&id));
    };
    let plural = read_format(alloc, plural)?;
    let faults = form_faults(alloc, entry, &plural, Strictness::Prefix)?;
    Ok(faults.with_text(&plural).with_text(&id))
}

/// Checks the formats of an entry. One that isn't flagged `c-format` is skipped.
pub(crate) fn format_faults(
    alloc: Global,
    entry: &EntryBuffer,
) -> Result<FormatFindings, AllocError>
    ensures dependent { IfOk result (λ faults. IsTrue faults.system_dependent ↔ HasSystemDependentText entry.now) }
    ensures mismatch { IfOk result (λ faults. IsTrue faults.mismatch ↔ HasOtherArguments entry.now) }
    ensures no_memory { IfErr result (λ _. IsTrue entry.now.c_format) }
{
    if !entry.is_c_format() {
        return Ok(FormatFindings::none());
    }
    if texts_are_same(entry) {
        Ok(FormatFindings::none())
    } else {
        flagged_faults(alloc, entry)
    }
}
