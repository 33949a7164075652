//! Lists of languages that C looks at once, and look-ups at the places that they name.
ghost use Rattle.c_answers.specs.Answering.{question};
ghost use Rattle.c_sets.specs.NamedPlaces.{AreNamed, AreSetPlaces, IsAnswerAt, IsSetAnswerAt};

use crate::sets::{HeldSet, set_of};
use c_answers::{context_in, number_in};
use catalogue::NO_HINT;
use live_set::{CatalogueSet, Places};
use std::str::from_utf8;

/// The places that a list of languages names in a set.
fn places_in(set: &CatalogueSet, domain: &[u8], languages: &[u8]) -> Places
    ensures { AreNamed set.now domain.now languages.now result }
{
    let (Ok(domain), Ok(languages)) = (from_utf8(domain), from_utf8(languages)) else {
        return Places::new();
    };
    set.places(domain, languages)
}

/// Like `places_in`, for a set that C holds.
pub fn set_places(held: &HeldSet, domain: &[u8], languages: &[u8]) -> Places
    ensures { AreSetPlaces held.now domain.now languages.now result }
{
    match set_of(held) {
        Some(set) => places_in(set, domain, languages),
        None => Places::new(),
    }
}

/// Returns a hint for `set_answer_at`: where the index of the catalogue at the first place should have the entry.
pub fn set_hint(held: &HeldSet, places: &[u32], context: &[u8], id: &[u8], call: u32) -> u64 {
    match set_of(held) {
        Some(set) => set.hint_at(places, context_in(call, context), id),
        None => NO_HINT,
    }
}

/// The string that answers a question at places of a set, with its terminating NUL, or no bytes if there is none. The
/// answer is the same whatever the hint is.
#[inline(always)]
fn answer_at<'k>(
    set: &'k CatalogueSet,
    places: &[u32],
    context: &[u8],
    id: &[u8],
    call: u32,
    n: u64,
    hint: u64,
) -> &'k [u8]
    ensures { IsAnswerAt set.now places.now (question call context.now id.now n) result.now }
{
    let context = context_in(call, context);
    let n = number_in(call, n);
    let found = if hint == NO_HINT {
        set.translated_with_nul_at(places, context, id, n)
    } else {
        set.translated_with_nul_hinted(places, context, id, n, hint)
    };
    match found {
        Some(text) => text,
        None => &[],
    }
}

/// Like `answer_at`, for a set that C holds.
pub fn set_answer_at<'k>(
    held: &'k HeldSet,
    places: &[u32],
    context: &[u8],
    id: &[u8],
    call: u32,
    n: u64,
    hint: u64,
) -> &'k [u8]
    ensures { IsSetAnswerAt held.now places.now (question call context.now id.now n) result.now }
{
    match set_of(held) {
        Some(set) => answer_at(set, places, context, id, call, n, hint),
        None => &[],
    }
}
