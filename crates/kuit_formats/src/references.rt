//! References to characters by their numbers.
ghost use Rattle.std.specs.Prelude.{◌≡◌, ◌<◌, ◌≤◌};
ghost use Rattle.kuit_formats.specs.KuitReferences as spec;

use crate::bytes::{Class, split_run};
use crate::characters::is_character;
use byte_text::split_byte;

/// What comes after all characters.
const BEYOND: u32 = 0x11_0000;

/// What a digit stands for, or 0.
fn digit_value(byte: u8) -> u32
    ensures is { result ≡ spec.digit_value byte }
    ensures small { result < 16 }
{
    if byte.is_ascii_digit() {
        u32::from(byte - b'0')
    } else if b'a' <= byte && byte <= b'f' {
        u32::from(byte - b'a') + 10
    } else if b'A' <= byte && byte <= b'F' {
        u32::from(byte - b'A') + 10
    } else {
        0
    }
}

/// The number that the digits spell; `BEYOND` stands for all numbers above it.
fn number_of(base: u32, digits: &[u8]) -> u32
    requires { base ≤ 16 }
    ensures { result ≡ spec.number_of base digits.now }
{
    let mut number = 0;
    'digits: for digit in digits {
        number = (number * base + digit_value(*digit)).min(BEYOND);
    }
    number
}

/// Whether a `;` follows the digits, and their number is no character's.
fn is_no_reference(base: u32, digits: &[u8], rest: &[u8]) -> bool
    requires { base ≤ 16 }
    ensures { result ≡ spec.is_no_reference base digits.now rest.now }
{
    match split_byte(rest) {
        Some((b';', _)) => !is_character(number_of(base, digits)),
        _ => false,
    }
}

/// Whether the text, which follows `&#`, goes on as a reference to no character.
fn number_is_none(text: &[u8]) -> bool
    ensures { result ≡ spec.number_is_none text.now }
{
    match split_byte(text) {
        Some((b'x', more)) => {
            let (digits, rest) = split_run(Class::HexDigit, more);
            is_no_reference(16, digits, rest)
        }
        Some((digit, _)) if digit.is_ascii_digit() => {
            let (digits, rest) = split_run(Class::Digit, text);
            is_no_reference(10, digits, rest)
        }
        _ => false,
    }
}

/// Whether the text, which follows a `&`, goes on as a reference to no character.
pub(crate) fn refers_to_none(text: &[u8]) -> bool
    ensures { result ≡ spec.refers_to_none text.now }
{
    match split_byte(text) {
        Some((b'#', rest)) => number_is_none(rest),
        _ => false,
    }
}
