//! Look-ups in a catalogue that C holds, and what is listed of it.
ghost use Rattle.std.specs.Prelude.{◌≡◌, [], length, option_map, slice_get};
ghost use Rattle.std.specs.Arc.{arc_value};
ghost use Rattle.c_answers.specs.Answering.{IsClosedAnswer, context_of, map_of, number_of, question};
ghost use Rattle.c_answers.specs.Listing.{entry_number, entry_text, file_of, form_at, number, text};
ghost use Rattle.c_answers.specs.Numbers.{gettext};

use crate::numbers::{
    CONTEXT, COUNT, FAULT, FILE_BYTES, FORM, FORMS, FUZZY, GETTEXT, HAS_CONTEXT, HAS_PLURAL, LINE,
    MSGID, NGETTEXT, NPGETTEXT, PGETTEXT, PLURAL, TRANSLATED, UNTRANSLATED,
};
use crate::opened::Opened;
use catalogue::{AskedKey, Catalogue, EntryRef, NO_HINT};

/// The catalogue, unless opening the bytes failed.
#[inline(always)]
fn catalogue_of(opened: &Opened) -> Option<&Catalogue>
    ensures { option_map (λ c. c.now) result ≡ option_map (λ shared. arc_value shared) opened.now.catalogue }
{
    match &opened.catalogue {
        Some(catalogue) => Some(&**catalogue),
        None => None,
    }
}

/// The context, if the call has one.
#[inline(always)]
pub fn context_in(call: u32, context: &[u8]) -> Option<&[u8]>
    ensures { option_map (λ s. s.now) result ≡ context_of call context.now }
{
    match call {
        PGETTEXT | NPGETTEXT => Some(context),
        _ => None,
    }
}

/// The number, if the call has one.
#[inline(always)]
pub fn number_in(call: u32, n: u64) -> Option<u64>
    ensures { result ≡ number_of call n }
{
    match call {
        NGETTEXT | NPGETTEXT => Some(n),
        _ => None,
    }
}

/// Returns a hint for `answer`: where the index should have the entry that is asked for.
pub fn hint(opened: &Opened, context: &[u8], id: &[u8], call: u32) -> u64 {
    match catalogue_of(opened) {
        Some(catalogue) => catalogue.hint(&AskedKey::new(context_in(call, context), id)),
        None => NO_HINT,
    }
}

/// The string that answers a question, with its terminating NUL, or no bytes if there is none. The answer is the same
/// whatever the hint is; it takes the least time with that of `hint`.
#[inline(always)]
pub fn answer<'k>(
    opened: &'k Opened,
    context: &[u8],
    id: &[u8],
    call: u32,
    n: u64,
    hint: u64,
) -> &'k [u8]
    ensures { IsClosedAnswer (map_of opened.now) (question call context.now id.now n) result.now }
{
    let Some(catalogue) = catalogue_of(opened) else {
        return &[]
    };
    let (context, n) = (context_in(call, context), number_in(call, n));
    let found = if hint == NO_HINT {
        catalogue.translated_with_nul(context, id, n)
    } else {
        catalogue.translated_with_nul_hinted(context, id, n, hint)
    };
    match found {
        Some(text) => text,
        None => &[],
    }
}

/// The string that answers `gettext` of a msgid, with its terminating NUL, or no bytes if there is none.
pub fn gettext<'k>(opened: &'k Opened, id: &[u8]) -> &'k [u8]
    ensures { IsClosedAnswer (map_of opened.now) (question gettext [] id.now 0) result.now }
{
    answer(opened, &[], id, GETTEXT, 0, NO_HINT)
}

/// Entry `i` of the catalogue, if there is one.
fn entry_at<'k>(opened: &'k Opened, i: u64) -> Option<EntryRef<'k>>
    ensures { result ≡ slice_get (map_of opened.now) i }
{
    let catalogue = catalogue_of(opened)?;
    if i < catalogue.len() as u64 {
        Some(catalogue.entry(i as usize))
    } else {
        None
    }
}

/// The number of entries; 0 if opening failed.
fn count(opened: &Opened) -> u64
    ensures { result ≡ length (map_of opened.now) }
{
    match catalogue_of(opened) {
        Some(catalogue) => catalogue.len() as u64,
        None => 0,
    }
}

/// A number of an entry: how many `FORMS` it has, and whether it has a context or a plural.
fn entry_number(entry: &EntryRef<'_>, which: u32) -> u64
    ensures { result ≡ entry_number entry.now which }
{
    match which {
        FORMS => entry.form_count() as u64,
        HAS_CONTEXT => u64::from(entry.context().is_some()),
        HAS_PLURAL => u64::from(entry.plural().is_some()),
        _ => 0,
    }
}

/// A number of what was opened: its `FAULT`, the fault's `LINE`, the `COUNT` of its entries, or how many entries of its
/// PO text are `TRANSLATED`, `FUZZY` or `UNTRANSLATED`. Other numbers are those of entry `i` (`entry_number`).
pub fn number(opened: &Opened, which: u32, i: u64) -> u64
    ensures { result ≡ number opened.now which i }
{
    match which {
        FAULT => u64::from(opened.fault),
        LINE => u64::from(opened.line),
        COUNT => count(opened),
        TRANSLATED => u64::from(opened.stats.translated),
        FUZZY => u64::from(opened.stats.fuzzy),
        UNTRANSLATED => u64::from(opened.stats.untranslated),
        _ => match entry_at(opened, i) {
            Some(entry) => entry_number(&entry, which),
            None => 0,
        },
    }
}

/// Form `k` of an entry, or the empty string if there is none.
fn form_of<'k>(entry: &EntryRef<'k>, k: u64) -> &'k str
    ensures { result.now ≡ form_at entry.now k }
{
    if k < entry.form_count() as u64 {
        entry.form(k as usize)
    } else {
        ""
    }
}

/// A string of an entry: its context, msgid or plural, or its form `k`.
fn entry_text<'k>(entry: &EntryRef<'k>, part: u32, k: u64) -> &'k str
    ensures { result.now ≡ entry_text entry.now part k }
{
    match part {
        CONTEXT => entry.context().unwrap_or(""),
        MSGID => entry.id(),
        PLURAL => entry.plural().unwrap_or(""),
        FORM => form_of(entry, k),
        _ => "",
    }
}

/// The MO file of what was opened: its own if it has one, and otherwise that of the catalogue's map.
fn file_of(opened: &Opened) -> &[u8]
    ensures { result.now ≡ file_of opened.now }
{
    if let Some(file) = &opened.file {
        return file.as_slice();
    }
    match catalogue_of(opened) {
        Some(catalogue) => catalogue.file(),
        None => &[],
    }
}

/// A string of what was opened: its MO file (`FILE_BYTES`), or a string of entry `i` (`entry_text`).
pub fn text<'k>(opened: &'k Opened, part: u32, i: u64, k: u64) -> &'k [u8]
    ensures { result.now ≡ text opened.now part i k }
{
    if part == FILE_BYTES {
        return file_of(opened);
    }
    match entry_at(opened, i) {
        Some(entry) => entry_text(&entry, part, k).as_bytes(),
        None => &[],
    }
}
