//! The flags of an entry, and how comments set them.
ghost use Rattle.std.specs.Prelude.{◌≡◌, ◌∷◌, [], map};
ghost use Rattle.std.specs.List.{prefix_len, slice_split};
ghost use Rattle.po_text.specs.Building.{flags_over};
ghost use Rattle.po_text.specs.Lexing.{is_no_separator};
ghost use Rattle.po_text.specs.Spelling.{comment_marks, flag_mark, is_separator};

use crate::scan::is_white_byte;
use byte_text::split_byte;

/// The flags of an entry.
#[derive(Clone, Copy)]
pub(crate) struct Flags {
    pub(crate) fuzzy: bool,
    pub(crate) c_format: bool,
    /// The formats of other languages than C.
    pub(crate) formats: format_flags::Flags,
}

impl Flags {
    pub(crate) const NONE: Flags = Flags {
        fuzzy: false,
        c_format: false,
        formats: format_flags::Flags::NONE,
    };
}

fn is_separator_byte(byte: u8) -> bool
    ensures { result ≡ is_separator byte }
{
    byte == b',' || is_white_byte(byte)
}

/// The length of the front up to the first separator.
fn flag_len(words: &[u8]) -> usize
    ensures { result ≡ prefix_len is_no_separator words.now }
{
    words
        .iter()
        .take_while(|byte| !is_separator_byte(**byte))
        .count()
}

/// Applies one word of a flag line to the flags.
fn flag_word(word: &[u8], flags: &mut Flags)
    ensures { flags.new ≡ flags_over flags.old (flag_mark word.now ∷ []) }
{
    if word == b"fuzzy".as_slice() {
        flags.fuzzy = true;
    } else if word == b"c-format".as_slice() {
        flags.c_format = true;
    } else {
        flags.formats = flags.formats.with_word(word);
    }
}

/// Applies the words of a flag line to the flags.
fn flag_words(words: &[u8], flags: &mut Flags)
    ensures { flags.new ≡ flags_over flags.old (map flag_mark (slice_split is_separator words.now)) }
{
    let mut rest = words;
    'words: loop {
        let (word, after) = rest.split_at(flag_len(rest));
        flag_word(word, flags);
        let Some((_, later)) = split_byte(after) else {
            return
        };
        rest = later;
    }
}

/// Applies a comment to the flags, given what follows its `#`.
#[inline(always)]
pub(crate) fn comment_flags(comment: &[u8], flags: &mut Flags)
    ensures { flags.new ≡ flags_over flags.old (comment_marks comment.now) }
{
    match split_byte(comment) {
        Some((b',', words)) => flag_words(words, flags),
        Some((b'~', _)) => *flags = Flags::NONE,
        _ => {}
    }
}
