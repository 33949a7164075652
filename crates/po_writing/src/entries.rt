//! Entries of a PO text (GNU gettext manual, "PO Files").
ghost use Rattle.std.specs.Prelude.{◌≡◌, ◌<◌, ◌≤◌, ◌++◌, length, OnOk, option_map};
ghost use Rattle.po_writing.specs.Written.{indexed_keyword, written_context, written_entry, written_forms};
ghost use Rattle.po_writing.specs.Written.{written_string, written_translation};

use crate::literals::push_text;
use catalogue::EntryRef;
use itoa::Buffer;
use std::alloc::AllocError;

/// Appends a keyword and a string.
fn push_string(
    out: &mut Vec<u8>,
    keyword: &[u8],
    text: &str,
    escape: bool,
) -> Result<(), AllocError>
    ensures { OnOk result (out.new.items ≡ out.old.items ++ written_string escape keyword.now text.now) }
{
    out.extend_from_slice(keyword)?;
    push_text(out, text, escape)
}

/// Appends the plural form with this index.
fn push_form(out: &mut Vec<u8>, k: usize, form: &str, escape: bool) -> Result<(), AllocError>
    ensures { OnOk result (out.new.items ≡ out.old.items ++ written_string escape (indexed_keyword k) form.now) }
{
    let mut buffer = Buffer::new();
    out.extend_from_slice(b"msgstr[")?;
    out.extend_from_slice(buffer.format(k).as_bytes())?;
    out.push(b']')?;
    push_text(out, form, escape)
}

/// Appends the plural forms.
fn push_forms(out: &mut Vec<u8>, entry: &EntryRef<'_>, escape: bool) -> Result<(), AllocError>
    requires { length entry.now.forms ≤ 1_000_000_000 }
    ensures { OnOk result (out.new.items ≡ out.old.items ++ written_forms escape 0 entry.now.forms) }
{
    let mut k: usize = 0;
    let mut forms = entry.forms();
    'forms: while let Some(form) = forms.next() {
        push_form(out, k, form, escape)?;
        k += 1;
    }
    Ok(())
}

/// Appends the context, if the entry has one.
fn push_context(out: &mut Vec<u8>, context: Option<&str>, escape: bool) -> Result<(), AllocError>
    ensures { OnOk result (out.new.items
        ≡ out.old.items ++ written_context escape (option_map (λ s. s.now) context.entry)) }
{
    match context {
        Some(context) => push_string(out, b"msgctxt", context, escape),
        None => Ok(()),
    }
}

/// Appends the translation, or the plural and its forms.
fn push_translation(out: &mut Vec<u8>, entry: &EntryRef<'_>, escape: bool) -> Result<(), AllocError>
    requires some { 0 < length entry.now.forms }
    requires few { length entry.now.forms ≤ 1_000_000_000 }
    ensures { OnOk result (out.new.items
        ≡ out.old.items ++ written_translation escape entry.now.plural entry.now.forms) }
{
    match entry.plural() {
        Some(plural) => {
            push_string(out, b"msgid_plural", plural, escape)?;
            push_forms(out, entry, escape)
        }
        None => push_string(out, b"msgstr", entry.form(0), escape),
    }
}

/// Appends an entry.
pub(crate) fn push_entry(
    out: &mut Vec<u8>,
    entry: &EntryRef<'_>,
    escape: bool,
) -> Result<(), AllocError>
    requires some { 0 < length entry.now.forms }
    requires few { length entry.now.forms ≤ 1_000_000_000 }
    ensures { OnOk result (out.new.items ≡ out.old.items ++ written_entry escape entry.now) }
{
    push_context(out, entry.context(), escape)?;
    push_string(out, b"msgid", entry.id(), escape)?;
    push_translation(out, entry, escape)
}
