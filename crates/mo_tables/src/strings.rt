//! The tests of the strings that two tables name. Each scans all rows, in any order; if the rows are sorted by where
//! their strings begin, each byte is looked at once.
ghost use Rattle.std.specs.Prelude.{◌≡◌, ◌↔◌, ◌≤◌, ℕ, List, [], length, IsTrue, IfOk, MatchOption, All};
ghost use Rattle.std.specs.List.{filter_map};
ghost use Rattle.std.specs.Str.{IsUtf8};
ghost use Rattle.mo_tables.specs.FileParts.{part, IsPart, IsStretch, KnowsSeparators, HasFewSeparators};
ghost use Rattle.mo_tables.specs.Rows.{text_in, LiesIn, nuls, single_translation};

use crate::gap::{Gap, Twice};
use crate::rows::{Row, Span};
use crate::stretch::Stretch;
use std::alloc::{AllocError, Global};

/// Checks that all originals are UTF-8. Returns a stretch to go on from, or `None` if one isn't.
pub(crate) fn originals_utf8<'a>(
    bytes: &'a [u8],
    stretch: Stretch<'a>,
    rows: &[Row],
) -> Option<Stretch<'a>>
    requires stretch { IsStretch bytes.now stretch }
    requires lie { All (λ row. LiesIn bytes.now row.original) rows.now }
    ensures { MatchOption result (¬ All (λ row. IsUtf8 (text_in bytes.now row.original)) rows.now)
        (λ s. IsStretch bytes.now s × All (λ row. IsUtf8 (text_in bytes.now row.original)) rows.now) }
{
    let mut stretch = stretch;
    'rows: for row in rows {
        let original = row.original;
        let Some(next) = stretch.with(bytes, original.start(), original.end()) else {
            return None;
        };
        stretch = next;
    }
    Some(stretch)
}

/// Checks that all translations are UTF-8. Returns a stretch to go on from, or `None` if one isn't.
pub(crate) fn translations_utf8<'a>(
    bytes: &'a [u8],
    stretch: Stretch<'a>,
    rows: &[Row],
) -> Option<Stretch<'a>>
    requires stretch { IsStretch bytes.now stretch }
    requires lie { All (λ row. LiesIn bytes.now row.translation) rows.now }
    ensures { MatchOption result (¬ All (λ row. IsUtf8 (text_in bytes.now row.translation)) rows.now)
        (λ s. IsStretch bytes.now s × All (λ row. IsUtf8 (text_in bytes.now row.translation)) rows.now) }
{
    let mut stretch = stretch;
    'rows: for row in rows {
        let translation = row.translation;
        let Some(next) = stretch.with(bytes, translation.start(), translation.end()) else {
            return None;
        };
        stretch = next;
    }
    Some(stretch)
}

/// What is known of the separators (byte 4) and the NULs of a file.
#[derive(Clone, Copy)]
pub(crate) struct Separators {
    /// A part that holds no byte 4.
    none: Gap,
    /// A part that holds no NUL; its end bounds the last key.
    key: Gap,
    /// The first two bytes 4 of the last key that has one.
    offsets: Twice,
}

impl Separators {
    /// Starts with nothing known.
    fn new() -> Separators
        ensures { KnowsSeparators [] result }
    {
        Separators {
            none: Gap::new(),
            key: Gap::new(),
            offsets: Twice::new(),
        }
    }

    /// Searches for byte 4 from `start` up to `end`.
    pub(crate) fn searched(bytes: &[u8], start: usize, end: usize) -> Separators
        requires { IsPart bytes.now start end }
        ensures { KnowsSeparators bytes.now result }
    {
        Separators {
            none: Gap::new().searched(bytes, 4, start, end),
            ..Separators::new()
        }
    }

    /// Whether the part from `start` to `end` is known to hold no byte 4.
    #[inline(always)]
    pub(crate) fn lacks(&self, start: usize, end: usize) -> bool
        ensures { (bytes : List ℕ) → KnowsSeparators bytes self.now → IsPart bytes start end → IsTrue result
            → HasFewSeparators (part bytes start end) }
    {
        self.none.covers(start, end)
    }

    /// Looks at the original from `start` to `end`. Returns `None` if its key holds byte 4 twice or more.
    pub(crate) fn after(self, bytes: &[u8], start: usize, end: usize) -> Option<Separators>
        requires known { KnowsSeparators bytes.now self }
        requires part { IsPart bytes.now start end }
        ensures { MatchOption result (¬ HasFewSeparators (part bytes.now start end))
            (λ s. KnowsSeparators bytes.now s × HasFewSeparators (part bytes.now start end)) }
    {
        let none = self.none.searched(bytes, 4, start, end);
        if end <= none.to() {
            return Some(Separators { none, ..self });
        }
        let key = self.key.searched(bytes, 0, start, end);
        let key_end = end.min(key.to());
        let offsets = self.offsets.searched(bytes, 4, start, key_end);
        if offsets.count(key_end) < 2 {
            Some(Separators { none, key, offsets })
        } else {
            None
        }
    }
}

/// Whether every key holds byte 4 at most once.
pub(crate) fn keys_have_few_separators(bytes: &[u8], rows: &[Row]) -> bool
    requires { All (λ row. LiesIn bytes.now row.original) rows.now }
    ensures { IsTrue result ↔ All (λ row. HasFewSeparators (text_in bytes.now row.original)) rows.now }
{
    let mut known = Separators::new();
    'rows: for row in rows {
        let Some(next) = known.after(bytes, row.original.start(), row.original.end()) else {
            return false;
        };
        known = next;
    }
    true
}

/// Returns the translations of the originals without a plural, or `None` if an original holds NUL twice or more.
pub(crate) fn without_plural(
    alloc: Global,
    bytes: &[u8],
    rows: &[Row],
) -> Result<Option<Vec<Span>>, AllocError>
    requires { All (λ row. LiesIn bytes.now row.original) rows.now }
    ensures { IfOk result (λ found. MatchOption found
        (¬ All (λ row. nuls (text_in bytes.now row.original) ≤ 1) rows.now)
        (λ spans. All (λ row. nuls (text_in bytes.now row.original) ≤ 1) rows.now
        × (spans.items ≡ filter_map (single_translation bytes.now) rows.now))) }
{
    let mut singular = Vec::new(alloc);
    let mut offsets = Twice::new();
    'rows: for row in rows {
        let end = row.original.end();
        offsets = offsets.searched(bytes, 0, row.original.start(), end);
        let count = offsets.count(end);
        if count == 2 {
            return Ok(None);
        }
        if count == 0 {
            singular.push(row.translation)?;
        }
    }
    Ok(Some(singular))
}

/// Whether no string holds a NUL, so that each is a single form.
pub(crate) fn have_one_form(bytes: &[u8], spans: &[Span]) -> bool
    requires { All (LiesIn bytes.now) spans.now }
    ensures { IsTrue result ↔ All (λ span. nuls (text_in bytes.now span) ≡ 0) spans.now }
{
    let mut gap = Gap::new();
    'spans: for span in spans {
        let end = span.end();
        gap = gap.searched(bytes, 0, span.start(), end);
        if gap.to() < end {
            return false;
        }
    }
    true
}
