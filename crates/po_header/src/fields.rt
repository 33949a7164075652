//! The fields of a header.
ghost use Rattle.std.specs.Prelude.{◌≡◌, ℕ, ◌≤◌, List, Option, length, is_none};
ghost use Rattle.std.specs.Option.{option_copied};
ghost use Rattle.po_header.specs.Tokens.{behind_blanks};
ghost use Rattle.po_header.specs.Fields.{field_value, line_value, missing};

use crate::token::blanks_len;

/// The fields that a header is expected to have, in the order in which missing ones are reported.
pub const FIELD_NAMES: [&str; 8] = [
    "Project-Id-Version",
    "PO-Revision-Date",
    "Last-Translator",
    "Language-Team",
    "MIME-Version",
    "Content-Type",
    "Content-Transfer-Encoding",
    "Language",
];

/// A text without its leading spaces and tabs.
fn trim_blanks(text: &str) -> &str
    ensures { result.now ≡ behind_blanks text.now }
{
    &text[blanks_len(text.as_bytes())..]
}

/// The value of a line that begins with the name and `:`; None for any other line.
fn value_in<'a>(line: &'a str, name: &str) -> Option<&'a str>
    ensures { option_copied result ≡ line_value name.now line.now }
{
    let after = line.strip_prefix(name)?;
    let value = after.strip_prefix(':')?;
    Some(trim_blanks(value))
}

/// The value of a field: what follows the name and `:` on the first line that begins with them, without leading spaces
/// and tabs (GNU gettext manual, "Header Entry"). None if no line does.
pub fn field<'a>(text: &'a str, name: &str) -> Option<&'a str>
    ensures { option_copied result ≡ field_value text.now name.now }
{
    let mut rest = text;
    'lines: while let Some((line, later)) = rest.split_once('\n') {
        if let Some(value) = value_in(line, name) {
            return Some(value);
        }
        rest = later;
    }
    value_in(rest, name)
}

/// Whether a header's text lacks a field.
fn lacks(text: &str, name: &str) -> bool
    ensures { result ≡ is_none (field_value text.now name.now) }
{
    field(text, name).is_none()
}

/// Which of [`FIELD_NAMES`] a header's text lacks, in their order.
pub fn missing_fields(text: &str) -> [bool; 8]
    ensures { result ≡ missing text.now }
{
    let [
        project,
        revision,
        translator,
        team,
        mime,
        content,
        encoding,
        language,
    ] = FIELD_NAMES;
    [
        lacks(text, project),
        lacks(text, revision),
        lacks(text, translator),
        lacks(text, team),
        lacks(text, mime),
        lacks(text, content),
        lacks(text, encoding),
        lacks(text, language),
    ]
}
