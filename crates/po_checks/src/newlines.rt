//! The check of newlines: the other texts of an entry have to begin and end with a newline exactly if the msgid does.
ghost use Rattle.std.specs.Prelude.{◌≡◌, ◌↔◌, IsTrue};
ghost use Rattle.std.specs.List.{Any};
ghost use Rattle.po_checks.specs.Checks.{text_if, begins_with_newline, ends_with_newline, HasOtherNewlines};
ghost use Rattle.po_checks.specs.Findings.{NewlinesDiffer};

use po_text::EntryBuffer;

fn begins(text: &str) -> bool
    ensures { result ≡ begins_with_newline text.now }
{
    match text.as_bytes().first() {
        Some(byte) => *byte == b'\n',
        None => false,
    }
}

fn ends(text: &str) -> bool
    ensures { result ≡ ends_with_newline text.now }
{
    match text.as_bytes().last() {
        Some(byte) => *byte == b'\n',
        None => false,
    }
}

/// Whether only one of the two texts begins with a newline, or only one ends with one.
fn differ(id: &str, text: &str) -> bool
    ensures { IsTrue result ↔ NewlinesDiffer id.now text.now }
{
    begins(id) != begins(text) || ends(id) != ends(text)
}

/// Whether some form differs from the msgid in its newlines.
fn form_differs(entry: &EntryBuffer) -> bool
    ensures { IsTrue result ↔ Any (NewlinesDiffer entry.now.id) entry.now.forms }
{
    'forms: for k in 0..entry.form_count() {
        if differ(entry.id(), entry.form(k)) {
            return true;
        }
    }
    false
}

/// Whether the plural, if there is one, differs from the msgid in its newlines.
fn plural_differs(entry: &EntryBuffer) -> bool
    ensures { IsTrue result ↔ Any (NewlinesDiffer entry.now.id) (text_if entry.now.plural) }
{
    match entry.plural() {
        Some(plural) => differ(entry.id(), plural),
        None => false,
    }
}

/// Whether some texts of an entry begin or end with a newline and others don't. An entry with the empty msgid isn't
/// checked.
pub(crate) fn newlines_differ(entry: &EntryBuffer) -> bool
    ensures { IsTrue result ↔ HasOtherNewlines entry.now }
{
    !entry.id().is_empty() && (plural_differs(entry) || form_differs(entry))
}
