//! Searching a text for a word.
ghost use Rattle.std.specs.Prelude.{◌≡◌, ◌<◌, List, Option, length};
ghost use Rattle.std.specs.Option.{option_copied};
ghost use Rattle.po_header.specs.Searching.{behind_first};

/// What follows the first occurrence of a word in a text.
pub(crate) fn behind<'a>(text: &'a str, word: &str) -> Option<&'a str>
    requires { 0 < length word.now }
    ensures { option_copied result ≡ behind_first word.now text.now }
{
    let (_, after) = text.split_once(word)?;
    Some(after)
}
