//! The parts of directives that languages share. Each reader takes the text from where its part may begin, and returns
//! the part and the rest.
ghost use Rattle.std.specs.Prelude.{◌≡◌, option_map};
ghost use Rattle.std.specs.List.{prefix_len};
ghost use Rattle.format_arguments.specs.Bytes.{behind};
ghost use Rattle.script_formats.specs.ScriptParts as spec;

use crate::directive::argument;
use byte_text::split_byte;
use numbered_arguments::{Kind, Request, Size, number_of, skip_digits, split_digits};

/// What follows a second `%`, if there is one.
pub(crate) fn after_percent(text: &[u8]) -> Option<&[u8]>
    ensures { option_map (λ rest. rest.now) result ≡ spec.behind_percent text.now }
{
    match split_byte(text) {
        Some((b'%', rest)) => Some(rest),
        _ => None,
    }
}

/// Reads digits and a `$`: the number, and what follows.
pub(crate) fn read_number(text: &[u8]) -> Option<(u32, &[u8])>
    ensures { option_map (λ found. (found.0, found.1.now)) result ≡ spec.number_at text.now }
{
    let (digits, behind) = split_digits(text);
    match split_byte(behind) {
        Some((b'$', rest)) => Some((number_of(digits), rest)),
        _ => None,
    }
}

/// Reads `m$`, which may be left out: the number, and what follows. None: m is 0, modulo 2^32.
pub fn read_index(text: &[u8]) -> Option<(Option<u32>, &[u8])>
    ensures { option_map (λ found. (found.0, found.1.now)) result ≡ spec.index_at text.now }
{
    match read_number(text) {
        Some((0, _)) => None,
        Some((number, rest)) => Some((Some(number), rest)),
        None => Some((None, text)),
    }
}

/// The number that follows, modulo 2^32.
pub(crate) fn following(number: u32) -> u32
    ensures { result ≡ spec.following_number number }
{
    number.wrapping_add(1)
}

fn flags_len(text: &[u8]) -> usize
    ensures { result ≡ prefix_len spec.is_flag text.now }
{
    text.iter()
        .take_while(|byte| matches!(byte, b' ' | b'+' | b'-' | b'#' | b'0'))
        .count()
}

/// Skips the flags of most languages.
pub(crate) fn skip_flags(text: &[u8]) -> &[u8]
    ensures { result.now ≡ behind spec.is_flag text.now }
{
    let (_, rest) = text.split_at(flags_len(text));
    rest
}

/// Reads a star, which asks for an integer of this number, or digits, or nothing.
pub(crate) fn read_amount(number: Option<u32>, text: &[u8]) -> (Option<Request>, &[u8])
    ensures request { result.0 ≡ (spec.amount number text.now).0 }
    ensures rest { result.1.now ≡ (spec.amount number text.now).1 }
{
    match split_byte(text) {
        Some((b'*', rest)) => (argument(number, Some(Kind::Integer(Size::Plain))), rest),
        _ => (None, skip_digits(text)),
    }
}

/// Skips a dot and digits, or nothing.
pub fn skip_precision(text: &[u8]) -> &[u8]
    ensures { result.now ≡ spec.behind_precision text.now }
{
    match split_byte(text) {
        Some((b'.', rest)) => skip_digits(rest),
        _ => text,
    }
}
