//! How an entry counts, and the texts that are kept of it.
ghost use Rattle.std.specs.Prelude.{◌≡◌, option_map};
ghost use Rattle.catalogue_drafts.specs.Shares.{joined_texts, kept_texts, texts_by};

use byte_text::split_at_byte;

/// Separates a plural from the forms, and a form from the next.
const NUL: u8 = 0;

/// How an entry counts in the statistics.
#[derive(Clone, Copy, PartialEq, Eq)]
pub enum Standing {
    /// The header, which isn't counted.
    Header,
    Untranslated,
    Fuzzy,
    Translated,
}

/// What is kept of an entry besides its key.
#[derive(Clone, Copy, PartialEq, Eq)]
pub enum Share {
    /// Nothing: the entry isn't kept.
    Dropped,
    /// Its only form.
    Plain,
    /// Its plural and its forms.
    Plural,
}

/// The texts that a catalogue keeps of an entry besides its key.
#[derive(Drop)]
pub struct Texts<'a> {
    pub plural: Option<&'a str>,
    /// The forms, with NUL between them.
    pub translation: &'a str,
}

/// Splits a plural from the forms after it. Inlined, it would make the writer's loop over all entries slower.
#[inline(never)]
fn split_plural(joined: &str) -> Texts<'_>
    ensures { kept_texts result ≡ joined_texts joined.now }
{
    match split_at_byte(joined, NUL) {
        Some((plural, translation)) => Texts {
            plural: Some(plural),
            translation,
        },
        None => Texts {
            plural: None,
            translation: joined,
        },
    }
}

/// Splits what is kept of an entry into its texts; `None` if nothing is.
#[inline(always)]
pub fn split_kept(share: Share, kept: &str) -> Option<Texts<'_>>
    ensures { option_map kept_texts result ≡ texts_by share kept.now }
{
    match share {
        Share::Dropped => None,
        Share::Plain => Some(Texts {
            plural: None,
            translation: kept,
        }),
        Share::Plural => Some(split_plural(kept)),
    }
}
