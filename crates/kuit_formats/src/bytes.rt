//! Bytes of markup, and what follows them.
ghost use Rattle.std.specs.Prelude.{◌≡◌, ◌≤◌, length, option_map, IfSome};
ghost use Rattle.std.specs.List.{prefix_len};
ghost use Rattle.format_arguments.specs.Bytes.{behind, run};
ghost use Rattle.kuit_formats.specs.KuitBytes as spec;

use byte_text::split_byte;

/// What bytes can be.
#[derive(Clone, Copy)]
pub(crate) enum Class {
    Blank,
    /// a part of a name, if all of it is one
    Name,
    Digit,
    HexDigit,
}

fn is_blank(byte: u8) -> bool
    ensures { result ≡ spec.is_blank byte }
{
    byte == b' ' || byte == b'\t' || byte == b'\n' || byte == b'\r'
}

fn is_name_byte(byte: u8) -> bool
    ensures { result ≡ spec.is_name_byte byte }
{
    byte.is_ascii_alphanumeric()
        || byte == b'-'
        || byte == b'.'
        || byte == b':'
        || byte == b'_'
        || byte >= 128
}

fn is_in(class: Class, byte: u8) -> bool
    ensures { result ≡ spec.is_in class byte }
{
    match class {
        Class::Blank => is_blank(byte),
        Class::Name => is_name_byte(byte),
        Class::Digit => byte.is_ascii_digit(),
        Class::HexDigit => byte.is_ascii_hexdigit(),
    }
}

fn run_len(class: Class, text: &[u8]) -> usize
    ensures { result ≡ prefix_len (spec.is_in class) text.now }
{
    text.iter().take_while(|byte| is_in(class, **byte)).count()
}

/// Splits off the bytes of a class at the front.
pub(crate) fn split_run(class: Class, text: &[u8]) -> (&[u8], &[u8])
    ensures front { result.0.now ≡ run (spec.is_in class) text.now }
    ensures back { result.1.now ≡ behind (spec.is_in class) text.now }
    ensures within { length result.1.now ≤ length text.now }
{
    text.split_at(run_len(class, text))
}

/// What follows the blanks at the front.
pub(crate) fn skip_blanks(text: &[u8]) -> &[u8]
    ensures rest { result.now ≡ spec.behind_blanks text.now }
    ensures within { length result.now ≤ length text.now }
{
    let (_, rest) = split_run(Class::Blank, text);
    rest
}

/// Whether the text begins with a blank.
pub(crate) fn begins_blank(text: &[u8]) -> bool
    ensures { result ≡ spec.begins_blank text.now }
{
    match split_byte(text) {
        Some((byte, _)) => is_blank(byte),
        None => false,
    }
}

/// What follows the word, if the text begins with it.
pub(crate) fn after_word<'a>(word: &[u8], text: &'a [u8]) -> Option<&'a [u8]>
    ensures rest { option_map (λ rest. rest.now) result ≡ spec.behind_word word.now text.now }
    ensures within { IfSome result (λ rest. length rest.now ≤ length text.now) }
{
    if text.starts_with(word) {
        Some(&text[word.len()..])
    } else {
        None
    }
}

/// What follows the first place where the text has this word.
pub(crate) fn after_mark<'a>(mark: &[u8], text: &'a [u8]) -> Option<&'a [u8]>
    ensures rest { option_map (λ rest. rest.now) result ≡ spec.behind_mark mark.now text.now }
    ensures within { IfSome result (λ rest. length rest.now ≤ length text.now) }
{
    let mut rest = text;
    'bytes: while let Some((_, after)) = split_byte(rest) {
        if let Some(found) = after_word(mark, rest) {
            return Some(found);
        }
        rest = after;
    }
    None
}
