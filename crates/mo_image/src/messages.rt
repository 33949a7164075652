//! The strings of an entry, as in an MO file.
ghost use Rattle.std.specs.Prelude.{◌≡◌, option_map, string_bytes};
ghost use Rattle.mo_image.specs.Entry.{key, translation};
ghost use Rattle.mo_image.specs.Parts.{entry_from};
ghost use Rattle.mo_image.specs.Stored.{stored_entry};

use std::marker::Model;

/// The borrowed strings of an entry, as in an MO file (GNU gettext manual, "MO Files"). Contracts see them as the entry
/// that they make up.
#[derive(Drop)]
pub struct EntryStrings<'a> {
    key: &'a str,
    plural: Option<&'a str>,
    translation: &'a str,
}

impl<'a> Model for EntryStrings<'a> {
    ghost use Rattle.mo_image.specs.Entry.{Entry};

    ghost Value = { Entry };

    ghost use Rattle.std.specs.Prelude.{option_map};
    ghost use Rattle.mo_image.specs.Parts.{entry_from};

    ghost view = { λ s. entry_from s.key.now (option_map (λ p. p.now) s.plural) s.translation.now };
}

impl<'a> EntryStrings<'a> {
    /// Makes the strings of an entry: its key, in which byte 4 separates a context from the msgid; its msgid_plural;
    /// and its forms, with NUL between them.
    pub fn new(key: &'a str, plural: Option<&'a str>, translation: &'a str) -> EntryStrings<'a>
        ensures { result ≡ entry_from key.now (option_map (λ p. p.now) plural.entry) translation.now }
    {
        EntryStrings {
            key,
            plural,
            translation,
        }
    }

    /// The entry's key.
    pub(crate) fn key(&self) -> &'a str
        ensures { result.now ≡ key self.now }
    {
        self.key
    }

    /// The msgid_plural, if the entry has a plural.
    pub(crate) fn plural(&self) -> Option<&'a str>
        ensures { option_map (λ s. s.now) result ≡ self.now.plural }
    {
        self.plural
    }

    /// The forms, with NUL between them.
    pub(crate) fn translation(&self) -> &'a str
        ensures { result.now ≡ translation self.now }
    {
        self.translation
    }

    /// Borrows the strings once more.
    pub(crate) fn again(&self) -> EntryStrings<'a>
        ensures { result ≡ self.now }
    {
        EntryStrings {
            key: self.key,
            plural: self.plural,
            translation: self.translation,
        }
    }
}

/// The strings of an entry that owns them.
#[derive(Drop)]
pub struct OwnedStrings {
    /// The entry's key.
    pub key: String,
    /// The msgid_plural, if the entry has a plural.
    pub plural: Option<String>,
    /// The forms, with NUL between them.
    pub translation: String,
}

impl OwnedStrings {
    fn plural(&self) -> Option<&str>
        ensures { option_map (λ s. s.now) result ≡ option_map (λ s. string_bytes s) self.now.plural }
    {
        match &self.plural {
            Some(plural) => Some(plural.as_str()),
            None => None,
        }
    }

    /// Borrows the strings.
    pub(crate) fn lend(&self) -> EntryStrings<'_>
        ensures { result ≡ stored_entry self.now }
    {
        EntryStrings::new(self.key.as_str(), self.plural(), self.translation.as_str())
    }
}
