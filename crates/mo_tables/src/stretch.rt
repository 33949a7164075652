//! Checks strings for UTF-8 by way of a part of the file that is known to be UTF-8.
ghost use Rattle.std.specs.Prelude.{◌≡◌, ◌↔◌, ◌+◌, ◌-◌, ◌≤◌, length, slice_index, IsTrue, MatchOption};
ghost use Rattle.std.specs.Str.{IsUtf8};
ghost use Rattle.mo_tables.specs.FileParts.{part, IsStretch, IsPart};
ghost use Rattle.mo_tables.specs.Rows.{text_in, LiesIn};

use crate::rows::Span;
use simdutf8::basic::from_utf8;

/// A part of a file that is UTF-8. A string in it is UTF-8 if it begins and ends on character boundaries, so bytes that
/// overlapping strings share are checked once.
#[derive(Clone, Copy)]
pub(crate) struct Stretch<'a> {
    start: usize,
    text: &'a str,
}

/// Whether the part of a text from `start` to `end` is UTF-8: it is empty, or both ends are character boundaries.
fn is_text(text: &str, start: usize, end: usize) -> bool
    requires { IsPart text.now start end }
    ensures { IsTrue result ↔ IsUtf8 (part text.now start end) }
{
    start == end || text.is_char_boundary(start) && text.is_char_boundary(end)
}

impl<'a> Stretch<'a> {
    /// Returns the rest of the file from `start` on if it is UTF-8, else an empty stretch.
    pub(crate) fn to_end(bytes: &'a [u8], start: usize) -> Stretch<'a>
        requires { start ≤ length bytes.now }
        ensures { IsStretch bytes.now result }
    {
        let text = from_utf8(&bytes[start..]).unwrap_or("");
        Stretch { start, text }
    }

    /// Whether a string lies in the stretch, is UTF-8 and is followed by a NUL.
    #[inline(always)]
    pub(crate) fn has(&self, bytes: &[u8], span: Span) -> bool
        requires stretch { IsStretch bytes.now self.now }
        requires lies { LiesIn bytes.now span }
        ensures { IsTrue result → IsUtf8 (text_in bytes.now span) × (slice_index bytes.now (span.start + span.len)
            ≡ 0) }
    {
        let (start, end) = (span.start(), span.end());
        if start < self.start || self.start + self.text.len() <= end || bytes[end] != 0 {
            return false;
        }
        self.text.is_char_boundary(start - self.start)
    }

    /// Returns the string from `start` to `end` as a stretch, if it is UTF-8.
    fn of(bytes: &'a [u8], start: usize, end: usize) -> Option<Stretch<'a>>
        requires { IsPart bytes.now start end }
        ensures { MatchOption result (¬ IsUtf8 (part bytes.now start end))
            (λ s. IsStretch bytes.now s × IsUtf8 (part bytes.now start end)) }
    {
        match from_utf8(&bytes[start..end]) {
            Ok(text) => Some(Stretch { start, text }),
            Err(_) => None,
        }
    }

    /// Extends the stretch by a string that begins in it and ends past it, if that string is UTF-8. Only the new bytes
    /// are checked.
    fn grown(self, bytes: &'a [u8], start: usize, end: usize) -> Option<Stretch<'a>>
        requires stretch { IsStretch bytes.now self }
        requires part { IsPart bytes.now start end }
        requires begins { (self.start ≤ start) × (start ≤ self.start + length self.text.now) }
        requires ends { self.start + length self.text.now ≤ end }
        ensures { MatchOption result (¬ IsUtf8 (part bytes.now start end))
            (λ s. IsStretch bytes.now s × IsUtf8 (part bytes.now start end)) }
    {
        let known = self.text.len();
        if !is_text(self.text, start - self.start, known) {
            return None;
        }
        let Ok(_) = from_utf8(&bytes[self.start + known..end]) else {
            return None;
        };
        let text = unsafe { str::from_utf8_unchecked(&bytes[self.start..end]) };
        Some(Stretch { text, ..self })
    }

    /// Returns a stretch that holds the string from `start` to `end`, if that string is UTF-8.
    pub(crate) fn with(self, bytes: &'a [u8], start: usize, end: usize) -> Option<Stretch<'a>>
        requires stretch { IsStretch bytes.now self }
        requires part { IsPart bytes.now start end }
        ensures { MatchOption result (¬ IsUtf8 (part bytes.now start end))
            (λ s. IsStretch bytes.now s × IsUtf8 (part bytes.now start end)) }
    {
        let known = self.start + self.text.len();
        if start < self.start || known < start {
            return Stretch::of(bytes, start, end);
        }
        if known < end {
            return self.grown(bytes, start, end);
        }
        if is_text(self.text, start - self.start, end - self.start) {
            Some(self)
        } else {
            None
        }
    }
}
