//! An entry as the checks see it.
ghost use Rattle.std.specs.Prelude.{◌≡◌};
ghost use Rattle.format_checks.specs.FormatViews.{entry_view};
ghost use Rattle.format_checks.specs.FlaggedEntries as spec;

use format_arguments::Strictness;
use format_flags::Flags;

/// An entry of a PO text, with the flags of its comments.
#[derive(Clone, Copy)]
pub struct Entry<'a> {
    /// The line of its `msgstr`.
    pub line: u32,
    pub flags: Flags,
    pub id: &'a [u8],
    pub plural: Option<&'a [u8]>,
    pub forms: &'a [&'a [u8]],
}

impl<'a> Entry<'a> {
    /// The text that the forms are compared with.
    pub(crate) fn original(self) -> &'a [u8]
        ensures { result.now ≡ spec.original (entry_view self.entry) }
    {
        match self.plural {
            Some(plural) => plural,
            None => self.id,
        }
    }
}

/// Whether a form is said to serve five numbers or more.
fn is_often(often: &[bool], form: usize) -> bool
    ensures { result ≡ spec.is_often often.now form }
{
    match often.get(form) {
        Some(is) => *is,
        None => false,
    }
}

/// How strictly a form is compared.
pub(crate) fn rule_for(entry: Entry<'_>, often: &[bool], form: usize) -> Strictness
    ensures { result ≡ spec.rule_for (entry_view entry.entry) often.now form }
{
    if entry.plural.is_none() || entry.forms.len() < 2 || is_often(often, form) {
        Strictness::Same
    } else {
        Strictness::Lenient
    }
}
