//! Decides which entries of a PO text are kept.
ghost use Rattle.std.specs.Prelude.{◌≡◌};
ghost use Rattle.po_text.specs.Lawful.{IsLawfulTexts};
ghost use Rattle.po_checks.specs.Kept as Kept;

use crate::Options;
use po_text::EntryBuffer;

/// Whether an entry is the header: no context and the empty msgid (GNU gettext manual, "Header Entry").
pub fn is_header(entry: &EntryBuffer) -> bool
    ensures { result ≡ Kept.is_header entry.now }
{
    entry.context().is_none() && entry.id().is_empty()
}

/// Whether an entry is untranslated: its first form is empty.
pub fn is_untranslated(entry: &EntryBuffer) -> bool
    ensures is { result ≡ Kept.is_untranslated entry.now }

    // Every entry in a buffer has lawful texts.
    ensures lawful { IsLawfulTexts entry.now }
{
    entry.form_count() == 0 || entry.form(0).is_empty()
}

/// Whether an entry goes into the catalogue: it is translated and, unless `use_fuzzy` is set or it is the header, it
/// isn't fuzzy.
pub fn is_kept(entry: &EntryBuffer, options: Options) -> bool
    ensures is { result ≡ Kept.is_kept options entry.now }

    // Every entry in a buffer has lawful texts.
    ensures lawful { IsLawfulTexts entry.now }
{
    !is_untranslated(entry) && (!entry.is_fuzzy() || options.use_fuzzy || is_header(entry))
}
