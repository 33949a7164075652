//! The look-ups of gettext. They don't allocate; a result borrows from the catalogue or from an argument.
ghost use Rattle.std.specs.Prelude.{◌≡◌, ◌<◌, ℕ, List, length, slice_get, MatchOption, Some, None, option_map};
ghost use Rattle.mo_image.specs.Entry.{key_bytes};
ghost use Rattle.mo_image.specs.Map.{entry_at};
ghost use Rattle.catalogue_map.specs.Value.{IsAskedForm, IsCounted, IsFirstForm, IsFormFor, IsFoundAt, IsMapFormFor};
ghost use Rattle.catalogue_map.specs.Value.{IsFormWithNulFor, IsTranslated, IsTranslatedWithNul, text_by};
ghost use Rattle.po_header.specs.Rules.{rule_of};

use crate::Catalogue;
use mo_image::EntryRef;
use po_header::RuleRead;

/// Returns the index of the form that the rule selects for `n`, or 0 if the entry has no such form.
#[inline(always)]
fn form_index_by(entry: &EntryRef<'_>, rule: &RuleRead, n: u64) -> usize
    ensures within { result < length entry.now.forms }
    ensures form { (text : List ℕ) → slice_get entry.now.forms result ≡ Some text
        → IsFormFor (rule_of rule.now) n entry.now.forms text }
{
    let k = rule.form_index(n);
    if k < entry.form_count() as u64 {
        k as usize
    } else {
        0
    }
}

/// Returns the text to use if there is no translation: the msgid for 1, and the plural for any other number (GNU
/// gettext manual, "Plural forms").
pub fn untranslated<'a>(id: &'a str, plural: &'a str, n: u64) -> &'a str
    ensures { result.now ≡ text_by n id.now plural.now }
{
    if n == 1 { id } else { plural }
}

/// An entry that was found, and the catalogue that it is in.
pub type Found<'a> = (&'a Catalogue, EntryRef<'a>);

/// Returns the first form of the entry that was found, or the msgid if there is none.
#[inline(always)]
pub fn first_form<'a>(found: Option<Found<'a>>, id: &'a str) -> &'a str
    ensures { IsFirstForm (option_map (λ f. f.1) found.entry) id.now result.now }
{
    match found {
        Some((_, entry)) => entry.form(0),
        None => id,
    }
}

/// Returns the form for `n` of the entry that was found, by the plural rule of its catalogue. If there is none, returns
/// the msgid for 1 and the plural for any other number.
#[inline(always)]
pub fn counted<'a>(found: Option<Found<'a>>, id: &'a str, plural: &'a str, n: u64) -> &'a str
    ensures { MatchOption found.entry (result.now ≡ text_by n id.now plural.now)
        (λ f. IsMapFormFor f.0.now n f.1.forms result.now) }
{
    match found {
        Some((catalogue, entry)) => catalogue.form_for(&entry, n),
        None => untranslated(id, plural, n),
    }
}

impl Catalogue {
    /// Finds the entry of a key in this catalogue.
    #[inline(always)]
    fn found<'a>(&'a self, context: Option<&str>, id: &str) -> Option<Found<'a>>
        ensures { IsFoundAt self.now (key_bytes (option_map (λ s. s.now) context.entry) id.now) result }
    {
        match self.find(context, id) {
            Some(entry) => Some((self, entry)),
            None => None,
        }
    }

    /// Returns the form of an entry of this catalogue that the rule in the header selects for `n`, or the first form if
    /// the entry has no such form (GNU gettext manual, "Plural forms").
    #[inline(always)]
    pub fn form_for<'a>(&self, entry: &EntryRef<'a>, n: u64) -> &'a str
        ensures { IsMapFormFor self.now n entry.now.forms result.now }
    {
        entry.form(form_index_by(entry, self.rule(), n))
    }

    /// Translates a msgid: returns the first form of its entry, or the msgid itself if there is no entry (GNU gettext
    /// manual, "Interface to gettext").
    pub fn gettext<'a>(&'a self, id: &'a str) -> &'a str
        ensures { IsFirstForm (entry_at self.now (key_bytes None id.now)) id.now result.now }
    {
        first_form(self.found(None, id), id)
    }

    /// Translates a msgid in a context, or returns the msgid itself if there is no entry (GNU gettext manual,
    /// "Contexts").
    pub fn pgettext<'a>(&'a self, context: &str, id: &'a str) -> &'a str
        ensures { IsFirstForm (entry_at self.now (key_bytes (Some context.now) id.now)) id.now result.now }
    {
        first_form(self.found(Some(context), id), id)
    }

    /// Translates a message with a number: returns the form of its entry that the rule in the header selects for `n`,
    /// or the first form if the entry has no such form. If there is no entry, returns the msgid for 1 and the plural
    /// for any other number (GNU gettext manual, "Plural forms").
    pub fn ngettext<'a>(&'a self, id: &'a str, plural: &'a str, n: u64) -> &'a str
        ensures { IsCounted self.now (entry_at self.now (key_bytes None id.now)) n (text_by n id.now plural.now)
            result.now }
    {
        counted(self.found(None, id), id, plural, n)
    }

    /// Translates a message with a number in a context, as `ngettext` does without one.
    pub fn npgettext<'a>(&'a self, context: &str, id: &'a str, plural: &'a str, n: u64) -> &'a str
        ensures { IsCounted self.now (entry_at self.now (key_bytes (Some context.now) id.now)) n
            (text_by n id.now plural.now) result.now }
    {
        counted(self.found(Some(context), id), id, plural, n)
    }

    /// Returns the index of the form that is asked for: 0 without a number, else that of the form for the number.
    #[inline(always)]
    fn asked_form_index(&self, entry: &EntryRef<'_>, n: Option<u64>) -> usize
        requires { 0 < length entry.now.forms }
        ensures within { result < length entry.now.forms }
        ensures form { (text : List ℕ) → slice_get entry.now.forms result ≡ Some text
            → IsAskedForm self.now n entry.now.forms text }
    {
        match n {
            Some(n) => form_index_by(entry, self.rule(), n),
            None => 0,
        }
    }

    /// Translates a message in a context or in none: returns the first form of its entry or, with a number, the form
    /// that `npgettext` would return. `None` means that there is no such entry. The result borrows from the catalogue
    /// alone.
    pub fn translated(&self, context: Option<&str>, id: &str, n: Option<u64>) -> Option<&str>
        ensures { IsTranslated self.now (entry_at self.now (key_bytes (option_map (λ s. s.now) context.entry) id.now))
            n (option_map (λ s. s.now) result) }
    {
        let entry = self.find(context, id)?;
        Some(entry.form(self.asked_form_index(&entry, n)))
    }

    /// Returns a form of an entry of this catalogue, followed by a NUL, which makes it a C string: the first form or,
    /// with a number, the form that the rule selects.
    #[inline(always)]
    pub fn form_with_nul_for<'a>(&self, entry: &EntryRef<'a>, n: Option<u64>) -> &'a [u8]
        ensures { IsFormWithNulFor self.now n entry.now.forms result.now }
    {
        // Calling `translation` tells the prover that the entry is lawful, and so has a form.
        let _translation = entry.translation();
        entry.form_with_nul(self.asked_form_index(entry, n))
    }

    /// Translates a message by its bytes, which needn't be UTF-8, as `translated` does; the result is a C string.
    /// `None` means that there is no such entry, so an empty translation differs from none.
    #[inline(always)]
    pub fn translated_with_nul(
        &self,
        context: Option<&[u8]>,
        id: &[u8],
        n: Option<u64>,
    ) -> Option<&[u8]>
        ensures { IsTranslatedWithNul self.now
            (entry_at self.now (key_bytes (option_map (λ s. s.now) context.entry) id.now))
            n (option_map (λ s. s.now) result) }
    {
        let entry = self.find_bytes(context, id)?;
        Some(self.form_with_nul_for(&entry, n))
    }

    /// Translates a message as `translated_with_nul` does, whatever the hint is (`hint`).
    #[inline(always)]
    pub fn translated_with_nul_hinted(
        &self,
        context: Option<&[u8]>,
        id: &[u8],
        n: Option<u64>,
        hint: u64,
    ) -> Option<&[u8]>
        ensures { IsTranslatedWithNul self.now
            (entry_at self.now (key_bytes (option_map (λ s. s.now) context.entry) id.now))
            n (option_map (λ s. s.now) result) }
    {
        let entry = self.find_hinted(context, id, hint)?;
        Some(self.form_with_nul_for(&entry, n))
    }
}
