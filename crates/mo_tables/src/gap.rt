//! Searches for a byte that remember where the byte isn't.
ghost use Rattle.std.specs.Prelude.{◌≡◌, ◌↔◌, ℕ, ◌≤◌, ◌<◌, ◌==◌, List, length, min, IsTrue, count_by};
ghost use Rattle.mo_tables.specs.FileParts.{part, IsGap, IsPart, Ends, AreGaps, Counts};

use bstr::ByteSlice;

/// A part of a file, from `from` up to `to`, that lacks a byte. It is kept from string to string, so bytes that
/// overlapping strings share are searched once.
#[derive(Clone, Copy)]
pub(crate) struct Gap {
    from: usize,
    to: usize,
}

impl Gap {
    /// Starts with nothing known: an empty part.
    pub(crate) fn new() -> Gap
        ensures { result ≡ record { from = 0; to = 0 } }
    {
        Gap { from: 0, to: 0 }
    }

    /// The end of the gap: the first offset of the byte from the start of the last search on, if that is before the
    /// search's end.
    pub(crate) fn to(self) -> usize
        ensures { result ≡ self.to }
    {
        self.to
    }

    /// Whether the part from `start` to `end` lies in the gap.
    #[inline(always)]
    pub(crate) fn covers(&self, start: usize, end: usize) -> bool
        ensures { IsTrue result ↔ ((self.now.from ≤ start) × (end ≤ self.now.to)) }
    {
        self.from <= start && end <= self.to
    }

    /// Returns `self` if it touches this offset, else an empty gap there.
    fn around(self, offset: usize) -> Gap
        ensures around { (result.from ≤ offset) × (offset ≤ result.to) }
        ensures known { (bytes : List ℕ) (byte : ℕ) → IsGap bytes byte self → offset ≤ length bytes
            → IsGap bytes byte result }
    {
        if self.from <= offset && offset <= self.to {
            return self;
        }
        Gap {
            from: offset,
            to: offset,
        }
    }

    /// Searches for the byte from `start` up to `end`. The gap that results ends at the first occurrence, or else at
    /// `end` or later.
    pub(crate) fn searched(self, bytes: &[u8], byte: u8, start: usize, end: usize) -> Gap
        requires gap { IsGap bytes.now byte self }
        requires part { IsPart bytes.now start end }
        ensures { Ends bytes.now byte start end result }
    {
        let gap = self.around(start);
        if end <= gap.to {
            return gap;
        }
        let rest = &bytes[gap.to..end];
        match rest.find_byte(byte) {
            Some(k) => Gap {
                to: gap.to + k,
                ..gap
            },
            None => Gap { to: end, ..gap },
        }
    }
}

/// The first two occurrences of a byte in a part of a file, remembered as gaps.
#[derive(Clone, Copy)]
pub(crate) struct Twice {
    first: Gap,
    second: Gap,
}

impl Twice {
    /// Starts with nothing known.
    pub(crate) fn new() -> Twice
        ensures { result ≡ record { first = record { from = 0; to = 0 }; second = record { from = 0; to = 0 } } }
    {
        Twice {
            first: Gap::new(),
            second: Gap::new(),
        }
    }

    /// Searches for the first two occurrences of the byte from `start` up to `end`.
    pub(crate) fn searched(self, bytes: &[u8], byte: u8, start: usize, end: usize) -> Twice
        requires gaps { AreGaps bytes.now byte self }
        requires part { IsPart bytes.now start end }
        ensures gaps { AreGaps bytes.now byte result }
        ensures counts { Counts bytes.now byte start end result }
    {
        let first = self.first.searched(bytes, byte, start, end);
        if end <= first.to() {
            return Twice { first, ..self };
        }
        let second = self.second.searched(bytes, byte, first.to() + 1, end);
        Twice { first, second }
    }

    /// Counts the occurrences in the part that was searched, which ends at `end`. Returns 2 for two or more.
    pub(crate) fn count(self, end: usize) -> usize
        ensures { (bytes : List ℕ) (byte start : ℕ) → Counts bytes byte start end self → IsPart bytes start end
            → result ≡ min (count_by (λ b. b == byte) (part bytes start end)) 2 }
    {
        if end <= self.first.to() {
            0
        } else if end <= self.second.to() {
            1
        } else {
            2
        }
    }
}
