//! The parts of a directive. Each reader takes the text from where its part may begin, and returns the part and the
//! rest.
ghost use Rattle.std.specs.Prelude.{◌≡◌, ◌<◌, ◌≢◌, ℕ, ◌∷◌, ◌++◌, [], List, MatchOption, Option, Some, option_map};
ghost use Rattle.std.specs.Prelude.{take, length, get_or};
ghost use Rattle.std.specs.List.{prefix_len};
ghost use Rattle.std.specs.Char.{is_ascii_digit};
ghost use Rattle.format_arguments.specs.Bytes.{behind, run};
ghost use Rattle.python_format.specs.PythonPieces.{AmountAt, IsBalanced, NameAt, PrecisionAt};
ghost use Rattle.python_format.specs.PythonPieces.{close_parenthesis, is_flag, is_modifier, is_zero};
ghost use Rattle.python_format.specs.PythonPieces as pieces;

use byte_text::split_byte;
use format_arguments::{Kind, after_byte};

/// How a width or a precision is given.
#[derive(Clone, Copy)]
pub(crate) enum Amount {
    /// `*`: it takes the next argument.
    Star,
    /// Left out or in digits: whether there are digits, all of them 0.
    Fixed(bool),
}

/// The length of the name at the front, up to the `)` that closes it.
fn name_len(text: &[u8]) -> Option<usize>
    ensures { MatchOption result
        ((name rest : List ℕ) → text.now ≡ name ++ close_parenthesis ∷ rest → ¬ IsBalanced name)
        (λ n. (n < length text.now) × (get_or text.now n 0 ≡ close_parenthesis) × IsBalanced (take n text.now)) }
{
    let mut depth: usize = 0;
    let mut offset: usize = 0;
    'bytes: while offset < text.len() {
        let byte = text[offset];
        if byte == b'(' {
            depth += 1;
        } else if byte == b')' {
            if depth == 0 {
                return Some(offset);
            }
            depth -= 1;
        }
        offset += 1;
    }
    None
}

/// Reads `(name)`, which may be left out. None: a name begins, but doesn't end.
pub(crate) fn read_name(text: &[u8]) -> Option<(Option<&[u8]>, &[u8])>
    ensures { MatchOption result
        ((name : Option (List ℕ)) (rest : List ℕ) → ¬ NameAt name text.now rest)
        (λ found. NameAt (option_map (λ n. n.now) found.0) text.now found.1.now) }
{
    let Some(inner) = after_byte(text, b'(') else {
        return Some((None, text))
    };
    let len = name_len(inner)?;
    Some((Some(&inner[..len]), &inner[len + 1..]))
}

fn is_flag_byte(byte: u8) -> bool
    ensures { result ≡ is_flag byte }
{
    matches!(byte, b'-' | b'+' | b' ' | b'#' | b'0')
}

fn flags_len(text: &[u8]) -> usize
    ensures { result ≡ prefix_len is_flag text.now }
{
    text.iter().take_while(|byte| is_flag_byte(**byte)).count()
}

/// Skips the flags at the front.
pub(crate) fn skip_flags(text: &[u8]) -> &[u8]
    ensures { result.now ≡ behind is_flag text.now }
{
    let (_, rest) = text.split_at(flags_len(text));
    rest
}

fn digits_len(text: &[u8]) -> usize
    ensures { result ≡ prefix_len is_ascii_digit text.now }
{
    text.iter().take_while(|byte| byte.is_ascii_digit()).count()
}

/// Splits off the digits at the front.
fn split_digits(text: &[u8]) -> (&[u8], &[u8])
    ensures front { result.0.now ≡ run is_ascii_digit text.now }
    ensures back { result.1.now ≡ behind is_ascii_digit text.now }
{
    text.split_at(digits_len(text))
}

fn is_all_zeros(digits: &[u8]) -> bool
    ensures { result ≡ is_zero digits.now }
{
    !digits.is_empty() && digits.iter().all(|digit| *digit == b'0')
}

/// Reads a width, or a precision behind its dot.
pub(crate) fn read_amount(text: &[u8]) -> (Amount, &[u8])
    ensures { AmountAt result.0 text.now result.1.now }
{
    if let Some(rest) = after_byte(text, b'*') {
        return (Amount::Star, rest);
    }
    let (digits, rest) = split_digits(text);
    (Amount::Fixed(is_all_zeros(digits)), rest)
}

/// Reads a precision, which may be left out.
pub(crate) fn read_precision(text: &[u8]) -> (Amount, &[u8])
    ensures { PrecisionAt result.0 text.now result.1.now }
{
    match after_byte(text, b'.') {
        Some(after) => read_amount(after),
        None => (Amount::Fixed(false), text),
    }
}

fn is_modifier_byte(byte: u8) -> bool
    ensures { result ≡ is_modifier byte }
{
    matches!(byte, b'h' | b'l' | b'L')
}

/// Skips a length modifier, which may be left out.
pub(crate) fn skip_modifier(text: &[u8]) -> &[u8]
    ensures { result.now ≡ pieces.behind_modifier text.now }
{
    match split_byte(text) {
        Some((byte, rest)) => if is_modifier_byte(byte) { rest } else { text },
        None => text,
    }
}

fn text_kind(precision: Amount) -> Kind
    ensures { result ≡ pieces.text_kind precision }
{
    match precision {
        Amount::Fixed(true) => Kind::Any,
        _ => Kind::Text,
    }
}

/// The kind of argument that a conversion takes, if there is such a conversion.
pub(crate) fn kind_of(conversion: u8, precision: Amount) -> Option<Kind>
    ensures { result ≡ pieces.kind_of conversion precision }
{
    match conversion {
        b'd' | b'i' | b'o' | b'u' | b'x' | b'X' => Some(Kind::Integer),
        b'e' | b'E' | b'f' | b'g' | b'G' => Some(Kind::Float),
        b's' | b'r' => Some(text_kind(precision)),
        b'c' => Some(Kind::Character),
        b'%' => Some(Kind::Percent),
        _ => None,
    }
}
