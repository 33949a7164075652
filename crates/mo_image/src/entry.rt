//! One entry of a catalogue, which borrows its texts.
ghost use Rattle.std.specs.Prelude.{◌≡◌, ◌<◌, ◌==◌, ◌∷◌, length, slice_get, Some, IfSome, option_map};
ghost use Rattle.std.specs.List.{count_by, slice_split};
ghost use Rattle.mo_image.specs.Entry.{IsLawfulEntry, key, translation};
ghost use Rattle.mo_image.specs.MoFile.{with_nul};
ghost use Rattle.byte_text.specs.Cut.{cut, offset_of};
ghost use Rattle.mo_image.specs.Parts.{forms_left};
ghost use Rattle.mo_image.specs.Pairs.{key_part, plural_part};
ghost use Rattle.mo_image.specs.Lent.{IsCutWithNul, IsFormWithNulOf, IsLent};

use byte_text::{offset_of, split_at_byte, split_at_offset};
use std::marker::Model;

/// Separates a key from its plural, and a form from the next.
const NUL: u8 = 0;

/// Separates a context from its msgid in a key: EOT.
const EOT: u8 = 4;

/// The number of NULs in a text.
fn nul_count(text: &str) -> usize
    ensures { result ≡ count_by (λ b. b == 0) text.now }
{
    text.bytes().filter(|byte| *byte == 0).count()
}

/// Splits a translation into its first form and the other forms, if there are any.
pub fn split_form(text: &str) -> (&str, Option<&str>)
    ensures { slice_split (λ b. b == 0) text.now ≡ result.0.now ∷ forms_left result.1 }
{
    match split_at_byte(text, NUL) {
        Some((form, others)) => (form, Some(others)),
        None => (text, None),
    }
}

/// Splits the first form off a text in which every form is followed by a NUL. The form keeps its NUL.
fn split_with_nul(forms: &str) -> (&[u8], &str)
    ensures { IfSome (cut 0 forms.now) (λ parts. IsCutWithNul parts result.0.now result.1.now) }
{
    match split_at_byte(forms, NUL) {
        Some((form, others)) => (&forms.as_bytes()[..=form.len()], others),
        None => (forms.as_bytes(), ""),
    }
}

/// An iterator over the forms of an entry. Contracts see it as the list of the forms that are left.
#[derive(Drop)]
pub struct Forms<'a> {
    /// The forms that are left, with NUL between them.
    left: Option<&'a str>,
}

impl<'a> Model for Forms<'a> {
    ghost use Rattle.std.specs.Prelude.{ℕ, List};

    ghost Value = { List (List ℕ) };

    ghost use Rattle.mo_image.specs.Parts.{forms_left};

    ghost view = { λ forms. forms_left forms.left };
}

impl<'a> Iterator for Forms<'a> {
    ghost use Rattle.std.specs.Iterator.{YieldsFirstRef, item_count};

    type Item = &'a str;

    ghost next_gives = { YieldsFirstRef (λ forms. forms) };

    ghost remaining = { item_count (λ forms. forms) };

    fn next(&mut self) -> Option<&'a str> {
        let (form, others) = split_form(self.left?);
        self.left = others;
        Some(form)
    }
}

/// Returns the form with this index, by scanning the forms before it.
fn form_at(translation: &str, k: usize) -> &str
    requires { k < length (slice_split (λ b. b == 0) translation.now) }
    ensures { slice_get (slice_split (λ b. b == 0) translation.now) k ≡ Some result.now }
{
    let mut forms = Forms {
        left: Some(translation),
    };
    'skipped: for _i in 0..k {
        let Some(_) = forms.next() else {
            unreachable!()
        };
    }
    let Some(form) = forms.next() else {
        unreachable!()
    };
    form
}

/// Returns the form with this index and its NUL, from a translation with its NUL, by scanning the forms before it.
fn form_with_nul_at(forms: &str, k: usize) -> &[u8]
    ensures { IsFormWithNulOf forms.now k result.now }
{
    let mut left = forms;
    'skipped: for _i in 0..k {
        let (_, others) = split_with_nul(left);
        left = others;
    }
    let (form, _) = split_with_nul(left);
    form
}

/// Returns the key of an original, given the key's length.
#[inline(always)]
fn key_within(original: &str, len: usize) -> &str
    requires { len ≡ offset_of 0 original.now }
    ensures { result.now ≡ key_part original.now }
{
    match split_at_offset(original, NUL, len) {
        Some((key, _)) => key,
        None => original,
    }
}

/// Returns the plural of an original, if it has one, given the length of the key.
#[inline(always)]
fn plural_behind(original: &str, len: usize) -> Option<&str>
    requires { len ≡ offset_of 0 original.now }
    ensures { option_map (λ s. s.now) result ≡ plural_part original.now }
{
    let (_, plural) = split_at_offset(original, NUL, len)?;
    Some(plural)
}

/// Returns the key of an original: what precedes its NUL, or all of it.
pub fn key_of(original: &str) -> &str
    ensures { result.now ≡ key_part original.now }
{
    key_within(original, offset_of(original.as_bytes(), NUL))
}

/// Splits a key at its first byte 4 into the context and the msgid. `None` means that the key has no context.
pub fn split_context(key: &str) -> Option<(&str, &str)>
    ensures { option_map (λ p. (p.0.now, p.1.now)) result ≡ cut 4 key.now }
{
    split_at_byte(key, EOT)
}

/// An entry of a catalogue. It borrows its texts from the catalogue.
#[derive(Drop)]
pub struct EntryRef<'a> {
    /// The key, followed by a NUL and the plural if there is one.
    original: &'a str,
    /// The length of the key, kept so that look-ups needn't search the original for its NUL.
    key_len: usize,
    /// The forms, with NUL between them.
    translation: &'a str,
    /// The translation with the NUL after it.
    with_nul: &'a str,
}

impl<'a> Model for EntryRef<'a> {
    ghost use Rattle.mo_image.specs.Entry.{Entry};

    ghost Value = { Entry };

    ghost use Rattle.mo_image.specs.Pairs.{entry_of};
    ghost use Rattle.mo_image.specs.Lent.{IsLent};

    ghost view = { λ e. entry_of e.original.now e.translation.now };

    ghost invariant = { λ e. IsLent e.original.now e.key_len e.translation.now e.with_nul.now };
}

impl<'a> EntryRef<'a> {
    ghost use Rattle.mo_image.specs.Pairs.{entry_of};

    /// Makes an entry of an original, the length of its key, and a translation, without and with the NUL after it.
    #[inline(always)]
    pub(crate) fn new(
        original: &'a str,
        key_len: usize,
        translation: &'a str,
        with_nul: &'a str,
    ) -> EntryRef<'a>
        requires { IsLent original.now key_len translation.now with_nul.now }
        ensures { result ≡ entry_of original.now translation.now }
    {
        EntryRef {
            original,
            key_len,
            translation,
            with_nul,
        }
    }

    /// The entry's key: the msgid or, if there is a context, the context, byte 4 and the msgid (GNU gettext manual, "MO
    /// Files").
    #[inline(always)]
    pub fn key(&self) -> &'a str
        ensures { result.now ≡ key self.now }
    {
        key_within(self.original, self.key_len)
    }

    /// The context (`msgctxt`), if the entry has one. It may be empty.
    pub fn context(&self) -> Option<&'a str>
        ensures { option_map (λ s. s.now) result ≡ self.now.context }
    {
        let (context, _) = split_context(key_within(self.original, self.key_len))?;
        Some(context)
    }

    /// The msgid.
    pub fn id(&self) -> &'a str
        ensures { result.now ≡ self.now.id }
    {
        let key = key_within(self.original, self.key_len);
        match split_context(key) {
            Some((_, id)) => id,
            None => key,
        }
    }

    /// The msgid_plural, if the entry has one.
    #[inline(always)]
    pub fn plural(&self) -> Option<&'a str>
        ensures { option_map (λ s. s.now) result ≡ self.now.plural }
    {
        plural_behind(self.original, self.key_len)
    }

    /// The forms, with NUL between them, as in an MO file.
    #[inline(always)]
    pub fn translation(&self) -> &'a str
        ensures joined { result.now ≡ translation self.now }

        // Every entry of a catalogue is lawful, and so has a form.
        ensures lawful { IsLawfulEntry self.now }
    {
        self.translation
    }

    /// Iterates over the forms without allocating. An entry of a catalogue has at least one.
    pub fn forms(&self) -> Forms<'a>
        ensures { result ≡ self.now.forms }
    {
        Forms {
            left: Some(self.translation),
        }
    }

    /// The number of forms: at least one, and exactly one without a plural.
    #[inline(always)]
    pub fn form_count(&self) -> usize
        ensures count { result ≡ length self.now.forms }

        // Every entry of a catalogue is lawful.
        ensures lawful { IsLawfulEntry self.now }
        ensures some { 0 < result }
    {
        nul_count(self.translation) + 1
    }

    /// Returns the form with this index, by scanning the forms before it. The only form of an entry without a plural is
    /// returned without reading it.
    #[inline(always)]
    pub fn form(&self, k: usize) -> &'a str
        requires { k < length self.now.forms }
        ensures { slice_get self.now.forms k ≡ Some result.now }
    {
        match self.plural() {
            Some(_) => form_at(self.translation, k),
            None => self.translation,
        }
    }

    /// Returns the form with this index, followed by a NUL: a C string. It is found as by `form`.
    #[inline(always)]
    pub fn form_with_nul(&self, k: usize) -> &'a [u8]
        requires { k < length self.now.forms }
        ensures { IfSome (slice_get self.now.forms k) (λ form. result.now ≡ with_nul form) }
    {
        match self.plural() {
            Some(_) => form_with_nul_at(self.with_nul, k),
            None => self.with_nul.as_bytes(),
        }
    }
}
