//! The entries of a PO text on their way into a catalogue: sorted, checked for duplicates, and filtered.
ghost use Rattle.std.specs.Prelude.{◌≡◌, ◌<◌, ◌+◌, ◌^◌, ℕ, length, IfOk, option_map};
ghost use Rattle.std.specs.List.{filter_map, find};
ghost use Rattle.std.specs.Option.{option_map_or};
ghost use Rattle.std.specs.Ordering.{nat_cmp};
ghost use Rattle.std.specs.Cmp.Lexicographic.{slice_cmp};
ghost use Rattle.std.specs.List.Sorted.{IsPermutation, IsSortedBy};
ghost use Rattle.catalogue_drafts.specs.Drafts.{comes_before, drafts_entries, header_text_in, kept_entry, outline};
ghost use Rattle.catalogue_drafts.specs.Drafts.{outline_cmp, outline_if, outline_text, outlines, FirstRepeat};
ghost use Rattle.catalogue_drafts.specs.Drafts as Drafts;

use crate::draft::Draft;
use crate::texts::Standing;
use mo_image::{EntryList, EntryStrings, split_form};
use std::cmp::Ordering;

/// Whether a draft has this standing.
pub fn counts_as(draft: &Draft<'_>, standing: Standing) -> bool
    ensures { result ≡ Drafts.counts_as standing (outline draft.now) }
{
    draft.standing == standing
}

fn is_kept_header(draft: &Draft<'_>) -> bool
    ensures { result ≡ Drafts.is_kept_header (outline draft.now) }
{
    counts_as(draft, Standing::Header) && draft.is_kept()
}

fn kept_header<'d, 'a>(drafts: &'d [Draft<'a>]) -> Option<&'d Draft<'a>>
    ensures { option_map (λ d. d.now) result ≡ find (λ d. Drafts.is_kept_header (outline d)) drafts.now }
{
    drafts.iter().find(|draft| is_kept_header(draft))
}

/// Returns the line of the kept header, or 0 if there is none.
pub fn header_line(drafts: &[Draft<'_>]) -> u32
    ensures { result ≡ option_map_or (λ d. d.line) (find (λ d. Drafts.is_kept_header (outline d)) drafts.now) 0 }
{
    match kept_header(drafts) {
        Some(draft) => draft.line,
        None => 0,
    }
}

/// Returns the first form of a draft, if the draft is kept.
fn first_form_of<'a>(draft: &Draft<'a>) -> Option<&'a str>
    ensures { option_map (λ text. text.now) result ≡ outline_text (outline draft.now) }
{
    let texts = draft.texts()?;
    Some(split_form(texts.translation).0)
}

/// Returns the text of the kept header, if there is one.
pub fn header_text<'a>(drafts: &[Draft<'a>]) -> Option<&'a str>
    ensures { option_map (λ text. text.now) result ≡ header_text_in drafts.now }
{
    match kept_header(drafts) {
        Some(draft) => first_form_of(draft),
        None => None,
    }
}

/// Compares two drafts by key.
fn compare_keys(a: &Draft<'_>, b: &Draft<'_>) -> Ordering
    ensures { result ≡ slice_cmp nat_cmp (outline a.now).key (outline b.now).key }
{
    if a.front == b.front && a.next != b.next {
        return a.next.cmp(&b.next);
    }
    a.fronted_key().cmp(&b.fronted_key())
}

/// Compares two drafts by key, and those with equal keys by their order in the PO text.
fn compare(a: &Draft<'_>, b: &Draft<'_>) -> Ordering
    ensures { result ≡ outline_cmp (outline a.now) (outline b.now) }
{
    compare_keys(a, b).then(a.number.cmp(&b.number))
}

/// Sorts the drafts by key; those with equal keys stay in the order of the PO text.
pub fn sort(drafts: &mut Vec<Draft<'_>>)
    ensures same { IsPermutation drafts.old.items drafts.new.items }
    ensures sorted { IsSortedBy comes_before drafts.new.items }
{
    drafts.sort_unstable_by(|a, b| compare(a, b));
}

/// Whether the draft precedes the other one in the PO text, or there is no other one.
fn is_earlier(draft: &Draft<'_>, other: Option<&Draft<'_>>) -> bool
    ensures { result ≡ Drafts.is_earlier (outline draft.now) (outline_if other.entry) }
{
    match other {
        Some(other) => draft.number < other.number,
        None => true,
    }
}

/// Returns the first repeat so far, given one more pair of neighbours.
fn earlier<'d, 'a>(
    before: &Draft<'_>,
    draft: &'d Draft<'a>,
    first: Option<&'d Draft<'a>>,
) -> Option<&'d Draft<'a>>
    ensures { outline_if result ≡ Drafts.earlier_repeat (outline before.now) (outline draft.now)
        (outline_if first.entry) }
{
    if before.fronted_key() == draft.fronted_key() && is_earlier(draft, first) {
        Some(draft)
    } else {
        first
    }
}

/// Returns the first entry of the PO text that has the key of an earlier one. In sorted drafts, such an entry directly
/// follows one with its key.
pub fn first_repeat<'d, 'a>(drafts: &'d [Draft<'a>]) -> Option<&'d Draft<'a>>
    ensures { FirstRepeat (outlines drafts.now) (length drafts.now) (outline_if result) }
{
    let mut first = None;
    'pairs: for i in 1..drafts.len() {
        first = earlier(&drafts[i - 1], &drafts[i], first);
    }
    first
}

/// Drops the drafts that aren't kept.
pub fn keep(drafts: &mut Vec<Draft<'_>>)
    ensures { drafts_entries drafts.new.items ≡ filter_map kept_entry (outlines drafts.old.items) }
{
    drafts.retain(|draft| draft.is_kept());
}

/// The drafts that are kept, as the list of entries that a catalogue is made of.
#[derive(Drop)]
pub struct KeptDrafts<'a> {
    pub drafts: Vec<Draft<'a>>,
}

impl<'a> EntryList for KeptDrafts<'a> {
    ghost use Rattle.catalogue_drafts.specs.Drafts.{drafts_entries};

    ghost entries = { λ kept. drafts_entries kept.drafts.items };

    fn count(&self) -> usize {
        self.drafts.len()
    }

    fn strings_at(&self, i: usize) -> EntryStrings<'_> {
        let draft = &self.drafts[i];
        match draft.texts() {
            Some(texts) => EntryStrings::new(draft.key(), texts.plural, texts.translation),
            None => EntryStrings::new(draft.key(), None, ""),
        }
    }
}
