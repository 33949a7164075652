//! Field names, and what a field accesses. Each reader takes the text from where its part may begin, and returns the
//! rest.
ghost use Rattle.std.specs.Prelude.{◌≡◌, ℕ, List, MatchOption, option_map};
ghost use Rattle.std.specs.List.{prefix_len};
ghost use Rattle.std.specs.Char.{is_ascii_digit};
ghost use Rattle.format_arguments.specs.Bytes.{behind};
ghost use Rattle.python_brace_format.specs.BraceFields as spec;

use byte_text::split_byte;
use format_arguments::after_byte;

fn is_letter(byte: u8) -> bool
    ensures { result ≡ spec.is_letter byte }
{
    byte.is_ascii_alphabetic() || byte == b'_'
}

fn is_word(byte: u8) -> bool
    ensures { result ≡ spec.is_word byte }
{
    byte.is_ascii_alphanumeric() || byte == b'_'
}

fn word_len(text: &[u8]) -> usize
    ensures { result ≡ prefix_len spec.is_word text.now }
{
    text.iter().take_while(|byte| is_word(**byte)).count()
}

fn skip_word(text: &[u8]) -> &[u8]
    ensures { result.now ≡ behind spec.is_word text.now }
{
    let (_, rest) = text.split_at(word_len(text));
    rest
}

fn digits_len(text: &[u8]) -> usize
    ensures { result ≡ prefix_len is_ascii_digit text.now }
{
    text.iter().take_while(|byte| byte.is_ascii_digit()).count()
}

/// Skips the digits at the front.
pub(crate) fn skip_digits(text: &[u8]) -> &[u8]
    ensures { result.now ≡ behind is_ascii_digit text.now }
{
    let (_, rest) = text.split_at(digits_len(text));
    rest
}

/// What follows a name, if the text begins with one.
fn after_name(text: &[u8]) -> Option<&[u8]>
    ensures { option_map (λ rest. rest.now) result ≡ spec.behind_name text.now }
{
    match split_byte(text) {
        Some((first, rest)) => if is_letter(first) {
            Some(skip_word(rest))
        } else {
            None
        },
        None => None,
    }
}

fn after_number(text: &[u8]) -> Option<&[u8]>
    ensures { option_map (λ rest. rest.now) result ≡ spec.behind_number text.now }
{
    match split_byte(text) {
        Some((first, rest)) => if first.is_ascii_digit() {
            Some(skip_digits(rest))
        } else {
            None
        },
        None => None,
    }
}

/// What follows a name or a number, if the text begins with one.
fn after_key(text: &[u8]) -> Option<&[u8]>
    ensures { option_map (λ rest. rest.now) result ≡ spec.behind_key text.now }
{
    match after_name(text) {
        Some(rest) => Some(rest),
        None => after_number(text),
    }
}

/// What follows a key in brackets, from after the opening one.
fn after_element(text: &[u8]) -> Option<&[u8]>
    ensures { option_map (λ rest. rest.now) result ≡ spec.behind_element text.now }
{
    match after_key(text) {
        Some(rest) => after_byte(rest, b']'),
        None => None,
    }
}

/// What follows an attribute or an element, if the text begins with one.
fn after_access(text: &[u8]) -> Option<&[u8]>
    ensures { option_map (λ rest. rest.now) result ≡ spec.behind_access text.now }
{
    match split_byte(text) {
        Some((b'.', rest)) => after_name(rest),
        Some((b'[', rest)) => after_element(rest),
        _ => None,
    }
}

fn skip_accesses(text: &[u8]) -> &[u8]
    ensures { spec.AccessesAt text.now result.now }
{
    let mut rest = text;
    'accesses: while let Some(after) = after_access(rest) {
        rest = after;
    }
    rest
}

/// What follows a field name with all that it accesses, if the text begins with one.
pub(crate) fn after_field(text: &[u8]) -> Option<&[u8]>
    ensures { MatchOption result ((rest : List ℕ) → ¬ spec.FieldAt text.now rest)
        (λ rest. spec.FieldAt text.now rest.now) }
{
    match after_key(text) {
        Some(rest) => Some(skip_accesses(rest)),
        None => None,
    }
}
