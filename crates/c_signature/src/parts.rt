//! The parts of a directive, from after the `%` to the length modifier. Each reader takes the text from where its part
//! may begin, and returns the part and the rest.
ghost use Rattle.std.specs.Prelude.{◌≡◌, ◌≢◌, ◌↔◌, IsTrue, ℕ, ◌∷◌, [], List, true, MatchOption};
ghost use Rattle.std.specs.List.{list_all, prefix_len};
ghost use Rattle.std.specs.Char.{is_ascii_digit};
ghost use Rattle.c_signature.specs.Pieces.{Longest, NumberForm, FlagsForm, WidthForm};
ghost use Rattle.c_signature.specs.Pieces.{PrecisionForm, ModifierForm, is_flag};
ghost use Rattle.c_signature.specs.FormatScanning.{BeginsNumber, IsNumberOf};
ghost use Rattle.c_signature.specs.Readers.{IsRun, amount_view, modifier_view};

use crate::Size;
use byte_text::split_byte;

/// How a width or a precision is given.
#[derive(Clone, Copy)]
pub enum Amount {
    /// Left out or in digits: it takes no argument.
    Fixed,
    /// `*` or `*m$`: it takes the next argument, or the one with this number.
    Asked(Option<u32>),
}

/// A length modifier.
#[derive(Clone, Copy)]
pub enum Modifier {
    /// A modifier of integers, or none.
    Of(Size),
    /// `L`
    LongDouble,
}

/// What follows this byte, if the text begins with it.
pub(crate) fn after_byte(text: &[u8], byte: u8) -> Option<&[u8]>
    ensures { MatchOption result ((rest : List ℕ) → text.now ≢ byte ∷ rest)
        (λ rest. text.now ≡ byte ∷ rest.now) }
{
    let (first, rest) = split_byte(text)?;
    if first == byte { Some(rest) } else { None }
}

/// The number of digits at the front.
fn digits_len(text: &[u8]) -> usize
    ensures { result ≡ prefix_len is_ascii_digit text.now }
{
    text.iter().take_while(|byte| byte.is_ascii_digit()).count()
}

/// Splits off the digits at the front.
fn split_digits(text: &[u8]) -> (&[u8], &[u8])
    ensures { IsRun is_ascii_digit text.now result.0.now result.1.now }
{
    text.split_at(digits_len(text))
}

/// The number that digits spell, if it can be an argument number.
fn number_of(digits: &[u8]) -> Option<u32>
    requires { list_all is_ascii_digit digits.now ≡ true }
    ensures { IsNumberOf digits.now result }
{
    if digits.is_empty() || 9 < digits.len() || digits[0] == b'0' {
        return None;
    }
    let mut number: u32 = 0;
    for digit in digits {
        number = number * 10 + u32::from(*digit - b'0');
    }
    Some(number)
}

/// Reads `m$`, an argument number (POSIX), if there is one; `m` has at most 9 digits and no leading 0.
pub fn read_number(text: &[u8]) -> (Option<u32>, &[u8])
    ensures { Longest NumberForm result.0 text.now result.1.now }
{
    let (digits, after) = split_digits(text);
    let Some(rest) = after_byte(after, b'$') else {
        return (None, text)
    };
    match number_of(digits) {
        Some(number) => (Some(number), rest),
        None => (None, text),
    }
}

/// Whether this is a flag (C standard, 7.21.6.1, 6; `'` is POSIX's, `I` is glibc's).
fn is_flag_byte(byte: u8) -> bool
    ensures { result ≡ is_flag byte }
{
    matches!(byte, b' ' | b'+' | b'-' | b'#' | b'0' | b'\'' | b'I')
}

/// The number of flags at the front.
fn flags_len(text: &[u8]) -> usize
    ensures { result ≡ prefix_len is_flag text.now }
{
    text.iter().take_while(|byte| is_flag_byte(**byte)).count()
}

/// Splits off the flags at the front.
pub fn split_flags(text: &[u8]) -> (&[u8], &[u8])
    ensures { Longest FlagsForm result.0.now text.now result.1.now }
{
    text.split_at(flags_len(text))
}

/// Whether a number without a leading 0 is at the front.
fn begins_number(text: &[u8]) -> bool
    ensures { IsTrue result ↔ BeginsNumber text.now }
{
    match split_byte(text) {
        Some((byte, _)) => b'1' <= byte && byte <= b'9',
        None => false,
    }
}

/// Reads a width, which may be left out.
pub fn read_width(text: &[u8]) -> (Amount, &[u8])
    ensures { Longest WidthForm (amount_view result.0) text.now result.1.now }
{
    if let Some(after) = after_byte(text, b'*') {
        let (number, rest) = read_number(after);
        return (Amount::Asked(number), rest);
    }
    if !begins_number(text) {
        return (Amount::Fixed, text);
    }
    let (_, rest) = split_digits(text);
    (Amount::Fixed, rest)
}

/// Reads a precision, which may be left out.
pub fn read_precision(text: &[u8]) -> (Amount, &[u8])
    ensures { Longest PrecisionForm (amount_view result.0) text.now result.1.now }
{
    let Some(behind) = after_byte(text, b'.') else {
        return (Amount::Fixed, text)
    };
    if let Some(after) = after_byte(behind, b'*') {
        let (number, rest) = read_number(after);
        return (Amount::Asked(number), rest);
    }
    let (_, rest) = split_digits(behind);
    (Amount::Fixed, rest)
}

/// Reads a length modifier, which may be left out.
pub fn read_modifier(text: &[u8]) -> (Modifier, &[u8])
    ensures { Longest ModifierForm (modifier_view result.0) text.now result.1.now }
{
    let Some((letter, after)) = split_byte(text) else {
        return (Modifier::Of(Size::Plain), text)
    };
    match letter {
        b'h' => match after_byte(after, b'h') {
            Some(rest) => (Modifier::Of(Size::Byte), rest),
            None => (Modifier::Of(Size::Short), after),
        },
        b'l' => match after_byte(after, b'l') {
            Some(rest) => (Modifier::Of(Size::LongLong), rest),
            None => (Modifier::Of(Size::Long), after),
        },
        b'q' => (Modifier::Of(Size::LongLong), after),
        b'L' => (Modifier::LongDouble, after),
        b'j' => (Modifier::Of(Size::Max), after),
        b'z' => (Modifier::Of(Size::SizeT), after),
        b't' => (Modifier::Of(Size::PtrDiff), after),
        _ => (Modifier::Of(Size::Plain), text),
    }
}
