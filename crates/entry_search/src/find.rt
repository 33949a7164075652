//! The search for an entry by its key.
ghost use Rattle.std.specs.Prelude.{◌≡◌, ◌↔◌, IsTrue, ◌+◌, ◌-◌, ◌/◌, ◌<◌, length, slice_get, Some, IfSome, option_map};
ghost use Rattle.std.specs.Ordering.{nat_cmp};
ghost use Rattle.std.specs.Cmp.Lexicographic.{slice_cmp};
ghost use Rattle.std.specs.Str.{bytes_eq};
ghost use Rattle.mo_image.specs.Entry.{key, key_bytes, LacksByte};
ghost use Rattle.mo_image.specs.Map.{entry_at};
ghost use Rattle.mo_image.specs.Pairs.{key_part, HasNulAt};
ghost use Rattle.entry_search.specs.Search.{AtMostDigits};
ghost use Rattle.entry_search.specs.EntryIndex.{IsEntryIndexOf};
ghost use Rattle.entry_search.specs.Index.{IsIndex};

use crate::asked::has_key;
use crate::index::Index;
use crate::keys::cmp_in_context;
use crate::{AskedKey, Steps};
use byte_text::lacks_byte;
use mo_image::{EntryRef, Image, key_of};
use std::cmp::Ordering;
use std::marker::{Brand, Model};
use std::sync::ledger::{Blank, Ledger};

/// The key to look up by binary search. Contracts see it as its bytes.
#[derive(Drop)]
struct Sought<'a> {
    context: Option<&'a [u8]>,
    id: &'a [u8],
    /// The msgid has no NUL, which makes comparisons fast. No entry's msgid has one.
    is_text: bool,
}

impl<'a> Model for Sought<'a> {
    ghost use Rattle.std.specs.Prelude.{ℕ, List, IsTrue, option_map};
    ghost use Rattle.mo_image.specs.Entry.{key_bytes, LacksByte};

    ghost Value = { List ℕ };

    ghost view = { λ a. key_bytes (option_map (λ s. s.now) a.context) a.id.now };

    ghost invariant = { λ a. IsTrue a.is_text → LacksByte 0 a.id.now };
}

/// Whether an original has a NUL at this offset.
fn has_nul_at(original: &[u8], offset: usize) -> bool
    ensures { IsTrue result ↔ HasNulAt original.now offset }
{
    offset < original.len() && original[offset] == 0
}

/// Compares the key of an original with a msgid. The original is compared as a whole: a plural after the key changes
/// the result only if the key is the msgid itself.
fn cmp_id(original: &str, id: &[u8]) -> Ordering
    requires { LacksByte 0 id.now }
    ensures { result ≡ slice_cmp nat_cmp (key_part original.now) id.now }
{
    let order = original.as_bytes().cmp(id);
    if has_nul_at(original.as_bytes(), id.len()) {
        return key_of(original).as_bytes().cmp(id);
    }
    order
}

impl<'a> Sought<'a> {
    fn new(context: Option<&'a [u8]>, id: &'a [u8]) -> Sought<'a>
        ensures { result ≡ key_bytes (option_map (λ s. s.now) context.entry) id.now }
    {
        Sought {
            context,
            id,
            is_text: lacks_byte(id, 0),
        }
    }

    /// Compares the key of an original with this one.
    fn cmp_original(&self, original: &str) -> Ordering
        ensures { result ≡ slice_cmp nat_cmp (key_part original.now) self.now }
    {
        match self.context {
            Some(context) => cmp_in_context(key_of(original).as_bytes(), context, self.id),
            None if self.is_text => cmp_id(original, self.id),
            None => key_of(original).as_bytes().cmp(self.id),
        }
    }
}

/// Returns the index in the middle of those from `low` up to `high`.
fn middle(low: usize, high: usize) -> usize
    requires { low < high }
    ensures { result ≡ low + (high - low) / 2 }
{
    low + (high - low) / 2
}

/// Compares the key of an original with the one to look up, which counts as a step.
fn compare<L: Ledger>(original: &str, sought: &Sought<'_>, steps: &mut Steps<L>) -> Ordering
    ensures order { result ≡ slice_cmp nat_cmp (key_part original.now) sought.now }
    ensures step { steps.new ≡ steps.old + 1 }
{
    steps.tick();
    sought.cmp_original(original)
}

/// Whether the key of an entry is the one to look up, which counts as a step.
#[inline(always)]
fn is_same<L: Ledger>(entry: &EntryRef<'_>, asked: &AskedKey<'_>, count: &mut Steps<L>) -> bool
    ensures same { result ≡ bytes_eq (key entry.now) asked.now }
    ensures step { count.new ≡ count.old + 1 }
{
    count.tick();
    asked.is_key_of(entry)
}

/// Compares the i-th key with the one to look up, which counts as a step.
fn compare_at<L: Ledger>(
    image: &Image,
    i: usize,
    sought: &Sought<'_>,
    steps: &mut Steps<L>,
) -> Ordering
    requires { i < length image.now }
    ensures order { IfSome (slice_get image.now i) (λ e. result ≡ slice_cmp nat_cmp (key e) sought.now) }
    ensures step { steps.new ≡ steps.old + 1 }
{
    compare(image.original(i), sought, steps)
}

/// Finds the index of the entry with this key, by binary search. (It returns an index rather than an entry so that what
/// an index finds stays in registers.)
fn search<L: Ledger>(image: &Image, sought: &Sought<'_>, steps: &mut Steps<L>) -> Option<usize>
    ensures found { IsEntryIndexOf image.now sought.now result }
    ensures cost { AtMostDigits (length image.now) steps.old steps.new }
{
    let mut low = 0;
    let mut high = image.len();
    'halves: while low < high {
        let mid = middle(low, high);
        match compare_at(image, mid, sought, steps) {
            Ordering::Less => low = mid + 1,
            Ordering::Equal => return Some(mid),
            Ordering::Greater => high = mid,
        }
    }
    None
}

/// Finds the index of the entry of a msgid, in a context or in none, by binary search.
#[inline(never)]
fn entry_index_by_halves<L: Ledger>(
    image: &Image,
    context: Option<&[u8]>,
    id: &[u8],
    steps: &mut Steps<L>,
) -> Option<usize>
    ensures found { IsEntryIndexOf image.now (key_bytes (option_map (λ s. s.now) context.entry) id.now) result }
    ensures cost { AtMostDigits (length image.now) steps.old steps.new }
{
    search(image, &Sought::new(context, id), steps)
}

/// Finds the entry with this key, by binary search.
#[inline(always)]
fn search_by_halves<'a, L: Ledger>(
    image: &'a Image,
    asked: &AskedKey<'_>,
    steps: &mut Steps<L>,
) -> Option<EntryRef<'a>>
    ensures found { result ≡ entry_at image.now asked.now }
    ensures cost { AtMostDigits (length image.now) steps.old steps.new }
{
    let (context, id) = asked.texts();
    match entry_index_by_halves(image, context, id, steps) {
        Some(i) => Some(image.entry(i)),
        None => None,
    }
}

/// Finds the entry with this key by its slot in the index or, if several entries share the hash, by binary search.
#[inline(always)]
fn search_indexed<'a, L: Ledger>(
    image: &'a Image,
    index: &Index,
    asked: &AskedKey<'_>,
    steps: &mut Steps<L>,
) -> Option<EntryRef<'a>>
    requires { IsIndex image.now index.now }
    ensures found { result ≡ entry_at image.now asked.now }
    ensures cost { AtMostDigits (length image.now) steps.old steps.new }
{
    let hash = asked.hash();
    if index.is_shared(hash) {
        return search_by_halves(image, asked, steps);
    }
    let entry = image.entry_in(&index.slot_of(hash)?.extents);
    if is_same(&entry, asked, steps) {
        Some(entry)
    } else {
        None
    }
}

/// Finds the entry with this key, by the index if there is one.
#[inline(always)]
fn search_by<'a, L: Ledger>(
    image: &'a Image,
    index: Option<&Index>,
    asked: &AskedKey<'_>,
    steps: &mut Steps<L>,
) -> Option<EntryRef<'a>>
    requires { IfSome index (λ index. IsIndex image.now index.now) }
    ensures found { result ≡ entry_at image.now asked.now }
    ensures cost { AtMostDigits (length image.now) steps.old steps.new }
{
    match index {
        Some(index) => search_indexed(image, index, asked, steps),
        None => search_by_halves(image, asked, steps),
    }
}

/// Finds the entry with this key as `search_by` does, for a caller that doesn't count steps.
#[inline(always)]
fn search_uncounted<'a, L: Ledger>(
    image: &'a Image,
    index: Option<&Index>,
    asked: &AskedKey<'_>,
    blank: Blank,
) -> Option<EntryRef<'a>>
    requires index { IfSome index (λ index. IsIndex image.now index.now) }
    requires name { blank.name ≡ L.name }
    requires parts { blank.parts ≡ L.parts }
    requires some { 0 < L.parts }
    ensures { result ≡ entry_at image.now asked.now }
{
    let mut steps = Steps::<L>::new(blank);
    search_by(image, index, asked, &mut steps)
}

/// Finds the entry with this key, by the index if there is one.
#[inline(always)]
pub(crate) fn find_in<'a>(
    image: &'a Image,
    index: Option<&Index>,
    asked: &AskedKey<'_>,
) -> Option<EntryRef<'a>>
    requires { IfSome index (λ index. IsIndex image.now index.now) }
    ensures { result ≡ entry_at image.now asked.now }
{
    search_uncounted::<Brand>(image, index, asked, Blank::new(1))
}

/// Returns the entry whose slot has this index, if it is that of this msgid, in a context or in none.
#[inline(always)]
fn entry_at_slot<'a>(
    image: &'a Image,
    index: &Index,
    context: Option<&[u8]>,
    id: &[u8],
    slot_index: usize,
) -> Option<EntryRef<'a>>
    requires { IsIndex image.now index.now }
    ensures { IfSome result (λ e. entry_at image.now (key_bytes (option_map (λ s. s.now) context.entry) id.now)
        ≡ Some e) }
{
    let entry = image.entry_in(&index.at(slot_index)?.extents);
    if has_key(&entry, context, id) {
        Some(entry)
    } else {
        None
    }
}

/// Finds the entry of a msgid as `find_in` does. If there is an index, it first looks at the slot at `slot_index`.
#[inline(always)]
pub(crate) fn find_near<'a>(
    image: &'a Image,
    index: Option<&Index>,
    context: Option<&[u8]>,
    id: &[u8],
    slot_index: usize,
) -> Option<EntryRef<'a>>
    requires { IfSome index (λ index. IsIndex image.now index.now) }
    ensures { result ≡ entry_at image.now (key_bytes (option_map (λ s. s.now) context.entry) id.now) }
{
    if let Some(index) = index {
        if let Some(entry) = entry_at_slot(image, index, context, id, slot_index) {
            return Some(entry);
        }
    }
    find_in(image, index, &AskedKey::new(context, id))
}

/// Finds the entry with this key as `find_in` does, and counts the steps.
pub(crate) fn find_counted_in<'a, L: Ledger>(
    image: &'a Image,
    index: Option<&Index>,
    asked: &AskedKey<'_>,
    steps: &mut Steps<L>,
) -> Option<EntryRef<'a>>
    requires { IfSome index (λ index. IsIndex image.now index.now) }
    ensures found { result ≡ entry_at image.now asked.now }
    ensures cost { AtMostDigits (length image.now) steps.old steps.new }
{
    search_by(image, index, asked, steps)
}
