//! The charset that a header names.
ghost use Rattle.std.specs.Prelude.{◌≡◌, ℕ, ◌↔◌, IsTrue, List, Option};
ghost use Rattle.std.specs.List.{take_while};
ghost use Rattle.std.specs.Option.{option_copied};
ghost use Rattle.message.specs.Charset.{NamesCharset, IsAcceptedCharset, HasAcceptedCharset};
ghost use Rattle.po_header.specs.Searching.{is_charset_byte};

use crate::search::behind;
use memchr::memchr3;

/// The text up to the first space, tab or LF, or all of it.
fn before_white(text: &str) -> &str
    ensures { result.now ≡ take_while is_charset_byte text.now }
{
    match memchr3(b' ', b'\t', b'\n', text.as_bytes()) {
        Some(end) => &text[..end],
        None => text,
    }
}

/// The charset that a header's text names: what follows its first `charset=`, up to a space, a tab, LF or the end
/// (GNU gettext manual, "Header Entry"). None without a `charset=`.
pub fn charset_of(text: &str) -> Option<&str>
    ensures { NamesCharset text.now (option_copied result) }
{
    let after = behind(text, "charset=")?;
    Some(before_white(after))
}

/// Whether texts in this charset can be read: UTF-8, ASCII or the template's placeholder `CHARSET`, in any ASCII case.
pub fn charset_accepted(name: &str) -> bool
    ensures { IsTrue result ↔ IsAcceptedCharset name.now }
{
    name.eq_ignore_ascii_case("UTF-8")
        || name.eq_ignore_ascii_case("UTF8")
        || name.eq_ignore_ascii_case("US-ASCII")
        || name.eq_ignore_ascii_case("ASCII")
        || name.eq_ignore_ascii_case("CHARSET")
}

/// Whether a header's text names no charset, or one that [`charset_accepted`] accepts.
pub fn has_accepted_charset(text: &str) -> bool
    ensures { IsTrue result ↔ HasAcceptedCharset text.now }
{
    match charset_of(text) {
        Some(name) => charset_accepted(name),
        None => true,
    }
}
