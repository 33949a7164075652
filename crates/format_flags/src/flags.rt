//! Which formats the texts of an entry are, by the flags in its comments.
ghost use Rattle.std.specs.Prelude.{◌≡◌, ◌^◌, option_map};
ghost use Rattle.format_flags.specs.FormatFlags as spec;
ghost use Rattle.format_flags.specs.Languages.{number as number_of};

use crate::languages::{Language, language_named, number};

/// The languages that an entry is flagged with. The last flag that names a language decides.
#[derive(Clone, Copy, Debug, PartialEq, Eq)]
pub struct Flags {
    /// The bit of each language that is set, by the number of the language.
    bits: u64,
}

/// What stands before `-format` in a flag, if the word is one.
fn stem(word: &[u8]) -> Option<&[u8]>
    ensures { option_map (λ text. text.now) result ≡ spec.stem word.now }
{
    word.strip_suffix(b"-format".as_slice())
}

/// What a flag says of the language that it names, by what stands before `-format`: whether it is set, and its name.
fn reading(stem: &[u8]) -> (bool, &[u8])
    ensures says { result.0 ≡ (spec.reading stem.now).0 }
    ensures name { result.1.now ≡ (spec.reading stem.now).1 }
{
    if let Some(name) = stem.strip_prefix(b"no-".as_slice()) {
        (false, name)
    } else if let Some(name) = stem.strip_prefix(b"impossible-".as_slice()) {
        (false, name)
    } else if let Some(name) = stem.strip_prefix(b"possible-".as_slice()) {
        (true, name)
    } else {
        (true, stem)
    }
}

/// The bit of a language.
fn bit(language: Language) -> u64
    ensures { result ≡ 2 ^ number_of language }
{
    1 << number(language)
}

impl Flags {
    /// No flag was read.
    pub const NONE: Flags = Flags { bits: 0 };

    /// No flag was read.
    pub fn none() -> Flags
        ensures { result ≡ spec.no_flags }
    {
        Flags::NONE
    }

    /// The flags after one more word of a comment `#, WORD, WORD ..`.
    pub fn with_word(self, word: &[u8]) -> Flags
        ensures { result ≡ spec.with_word self word.now }
    {
        match stem(word) {
            Some(stem) => self.with_stem(stem),
            None => self,
        }
    }

    /// The flags after one more flag, given what stands before `-format` in it.
    fn with_stem(self, stem: &[u8]) -> Flags
        ensures { result ≡ spec.with_stem self stem.now }
    {
        let (says, name) = reading(stem);
        match language_named(name) {
            Some(language) => self.with(*language, says),
            None => self,
        }
    }

    /// The flags after the language is set, or unset.
    fn with(self, language: Language, says: bool) -> Flags
        ensures { result ≡ spec.with_language self language says }
    {
        if says {
            Flags {
                bits: self.bits | bit(language),
            }
        } else {
            Flags {
                bits: self.bits & !bit(language),
            }
        }
    }

    /// Whether the texts are checked as formats of the language.
    pub fn has(self, language: Language) -> bool
        ensures { result ≡ spec.has self language }
    {
        self.bits & bit(language) != 0
    }
}
