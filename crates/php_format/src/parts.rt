//! The parts of a directive. Each reader takes the text from where its part may begin, and returns the part and the
//! rest.
ghost use Rattle.std.specs.Prelude.{◌≡◌, ℕ, List, Option, MatchOption, option_map};
ghost use Rattle.php_format.specs.PhpPieces as spec;

use byte_text::split_byte;
use format_arguments::after_byte;
use numbered_arguments::{Kind, Size, number_of, split_digits};

/// Reads `m$`, an argument number, which may be left out. None: the number is 0.
pub(crate) fn read_number(text: &[u8]) -> Option<(Option<u32>, &[u8])>
    ensures { MatchOption result
        ((number : Option ℕ) (rest : List ℕ) → ¬ spec.NumberAt number text.now rest)
        (λ found. spec.NumberAt found.0 text.now found.1.now) }
{
    let (digits, behind) = split_digits(text);
    let Some(rest) = after_byte(behind, b'$') else {
        return Some((None, text))
    };
    let number = number_of(digits);
    if number == 0 {
        return None;
    }
    Some((Some(number), rest))
}

fn is_flag(byte: u8) -> bool
    ensures { result ≡ spec.is_flag byte }
{
    matches!(byte, b'-' | b' ' | b'0')
}

/// What follows the first byte, if there is one.
fn after_any(text: &[u8]) -> Option<&[u8]>
    ensures { option_map (λ rest. rest.now) result ≡ spec.behind_any text.now }
{
    match split_byte(text) {
        Some((_, rest)) => Some(rest),
        None => None,
    }
}

/// What follows a flag, if the text begins with one.
fn after_flag(text: &[u8]) -> Option<&[u8]>
    ensures { option_map (λ rest. rest.now) result ≡ spec.behind_flag text.now }
{
    match split_byte(text) {
        Some((b'\'', rest)) => after_any(rest),
        Some((first, rest)) => if is_flag(first) { Some(rest) } else { None },
        None => None,
    }
}

/// Skips the flags at the front.
pub(crate) fn skip_flags(text: &[u8]) -> &[u8]
    ensures { spec.FlagsAt text.now result.now }
{
    let mut rest = text;
    'flags: while let Some(after) = after_flag(rest) {
        rest = after;
    }
    rest
}

/// What follows digits, if the text begins with one.
fn after_digits(text: &[u8]) -> Option<&[u8]>
    ensures { option_map (λ rest. rest.now) result ≡ spec.behind_digits text.now }
{
    let (digits, rest) = split_digits(text);
    if digits.is_empty() { None } else { Some(rest) }
}

/// Skips a dot and digits, which may be left out.
pub(crate) fn skip_precision(text: &[u8]) -> &[u8]
    ensures { result.now ≡ spec.behind_precision text.now }
{
    match split_byte(text) {
        Some((b'.', rest)) => match after_digits(rest) {
            Some(after) => after,
            None => text,
        },
        _ => text,
    }
}

/// Skips an `l`, which may be left out.
pub(crate) fn skip_size(text: &[u8]) -> &[u8]
    ensures { result.now ≡ spec.behind_size text.now }
{
    match text {
        [b'l', rest @ ..] => rest,
        _ => text,
    }
}

/// The kind of argument that a conversion takes, if there is such a conversion.
pub(crate) fn kind_of(conversion: u8) -> Option<Kind>
    ensures { result ≡ spec.kind_of conversion }
{
    match conversion {
        b'b' | b'd' | b'u' | b'o' | b'x' | b'X' => Some(Kind::Integer(Size::Plain)),
        b'e' | b'f' => Some(Kind::Float(Size::Plain)),
        b's' => Some(Kind::Text),
        b'c' => Some(Kind::Character),
        _ => None,
    }
}
