//! The header of a file with a system-dependent part.
ghost use Rattle.std.specs.Prelude.{◌≡◌, ◌++◌, ◌<◌, ◌≤◌, ◌+◌, ◌*◌, ◌^◌, OnOk, MatchOption};
ghost use Rattle.mo_image.specs.MoFile.{most_file};
ghost use Rattle.mo_dependent.specs.Layout.{header, slots_at, segments_at, pointers_at, descriptors_at};

use crate::words::push_word;
use mo_image::{MAGIC, MAX_LEN, ROW_LEN};
use std::alloc::AllocError;

/// The length of the header: twelve words.
const HEADER_LEN: usize = 48;

/// The length of a slot, and of a descriptor's offset in its table.
const WORD_LEN: usize = 4;

/// The revision 0.1, and what is added to it for the major revision 1.
const MINOR: usize = 1;

const MAJOR: usize = 65_536;

/// How many of each there are in a file.
#[derive(Clone, Copy)]
pub(crate) struct Sizes {
    pub(crate) statics: usize,
    pub(crate) slots: usize,
    pub(crate) segments: usize,
    pub(crate) dependents: usize,
}

impl Sizes {
    fn slots_at(self) -> usize
        requires { descriptors_at self < 2 ^ 32 }
        ensures { result ≡ slots_at self }
    {
        HEADER_LEN + 2 * ROW_LEN * self.statics
    }

    fn segments_at(self) -> usize
        requires { descriptors_at self < 2 ^ 32 }
        ensures { result ≡ segments_at self }
    {
        self.slots_at() + WORD_LEN * self.slots
    }

    fn pointers_at(self) -> usize
        requires { descriptors_at self < 2 ^ 32 }
        ensures { result ≡ pointers_at self }
    {
        self.segments_at() + ROW_LEN * self.segments
    }

    /// Where the descriptors begin.
    pub(crate) fn descriptors_at(self) -> usize
        requires { descriptors_at self < 2 ^ 32 }
        ensures { result ≡ descriptors_at self }
    {
        self.pointers_at() + 2 * WORD_LEN * self.dependents
    }
}

/// The length of a file, if it is at most that of the largest one. `parts` is the length of the descriptors and the
/// static strings, `names` and `texts` those of the other strings.
pub(crate) fn file_len(sizes: Sizes, parts: usize, names: usize, texts: usize) -> Option<usize>
    requires statics { 16 * sizes.statics ≤ most_file }
    requires slots { 4 * sizes.slots ≤ most_file }
    requires dependents { 8 * sizes.dependents ≤ most_file }
    requires parts { parts ≤ 2 * most_file }
    ensures { MatchOption result (most_file < descriptors_at sizes + parts + names + texts)
        (λ n. (n ≡ descriptors_at sizes + parts + names + texts) × (n ≤ most_file)) }
{
    if MAX_LEN < sizes.segments {
        return None;
    }
    if MAX_LEN < names {
        return None;
    }
    if MAX_LEN < texts {
        return None;
    }
    let len = sizes.descriptors_at() + parts + names + texts;
    if MAX_LEN < len {
        return None;
    }
    Some(len)
}

/// Appends the header.
pub(crate) fn push_header(out: &mut Vec<u8>, sizes: Sizes, has_flag: bool) -> Result<(), AllocError>
    requires { descriptors_at sizes < 2 ^ 32 }
    ensures { OnOk result (out.new.items ≡ out.old.items ++ header sizes has_flag) }
{
    push_word(out, MAGIC as usize)?;
    push_word(out, if has_flag { MAJOR + MINOR } else { MINOR })?;
    push_word(out, sizes.statics)?;
    push_word(out, HEADER_LEN)?;
    push_word(out, HEADER_LEN + ROW_LEN * sizes.statics)?;
    push_word(out, sizes.slots)?;
    push_word(out, sizes.slots_at())?;
    push_word(out, sizes.segments)?;
    push_word(out, sizes.segments_at())?;
    push_word(out, sizes.dependents)?;
    push_word(out, sizes.pointers_at())?;
    push_word(out, sizes.pointers_at() + WORD_LEN * sizes.dependents)
}
