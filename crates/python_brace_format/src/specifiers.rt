//! Format specifiers, which stand behind a field's colon. Each reader takes the text from where its part may begin, and
//! returns the rest.
ghost use Rattle.std.specs.Prelude.{◌≡◌, ℕ, List, MatchOption};
ghost use Rattle.format_arguments.specs.Bytes.{behind_one};
ghost use Rattle.python_brace_format.specs.BraceSpecifiers as spec;

use crate::fields::{after_field, skip_digits};
use format_arguments::after_byte;

fn is_align(byte: u8) -> bool
    ensures { result ≡ spec.is_align byte }
{
    matches!(byte, b'<' | b'>' | b'=' | b'^')
}

fn is_sign(byte: u8) -> bool
    ensures { result ≡ spec.is_sign byte }
{
    matches!(byte, b'+' | b'-' | b' ')
}

fn is_type(byte: u8) -> bool
    ensures { result ≡ spec.is_type byte }
{
    matches!(
        byte,
        b'b' | b'c'
            | b'd'
            | b'o'
            | b'x'
            | b'X'
            | b'n'
            | b'e'
            | b'E'
            | b'f'
            | b'F'
            | b'g'
            | b'G'
            | b'%'
    )
}

/// Skips an alignment, which may be left out.
fn skip_align(text: &[u8]) -> &[u8]
    ensures { result.now ≡ behind_one spec.is_align text.now }
{
    match text {
        [first, rest @ ..] => if is_align(*first) { rest } else { text },
        [] => text,
    }
}

/// Skips a fill character and an alignment; the character or both may be left out.
fn skip_filled_align(text: &[u8]) -> &[u8]
    ensures { result.now ≡ spec.behind_filled_align text.now }
{
    match text {
        [_, second, rest @ ..] => if is_align(*second) {
            rest
        } else {
            skip_align(text)
        },
        _ => skip_align(text),
    }
}

/// Skips a sign, which may be left out.
fn skip_sign(text: &[u8]) -> &[u8]
    ensures { result.now ≡ behind_one spec.is_sign text.now }
{
    match text {
        [first, rest @ ..] => if is_sign(*first) { rest } else { text },
        [] => text,
    }
}

/// Skips a `#`, which may be left out.
fn skip_hash(text: &[u8]) -> &[u8]
    ensures { result.now ≡ behind_one spec.is_hash text.now }
{
    match text {
        [b'#', rest @ ..] => rest,
        _ => text,
    }
}

/// Skips a dot and digits, which may be left out.
fn skip_precision(text: &[u8]) -> &[u8]
    ensures { result.now ≡ spec.behind_precision text.now }
{
    match text {
        [b'.', rest @ ..] => skip_digits(rest),
        _ => text,
    }
}

/// Skips a type, which may be left out.
fn skip_type(text: &[u8]) -> &[u8]
    ensures { result.now ≡ behind_one spec.is_type text.now }
{
    match text {
        [first, rest @ ..] => if is_type(*first) { rest } else { text },
        [] => text,
    }
}

/// Skips a standard format specifier, each of whose parts may be left out.
fn skip_standard(text: &[u8]) -> &[u8]
    ensures { result.now ≡ spec.behind_standard text.now }
{
    let rest = skip_hash(skip_sign(skip_filled_align(text)));
    skip_type(skip_precision(skip_digits(rest)))
}

/// What follows a field in braces, or two opening braces, from after the first one.
fn after_nested(text: &[u8]) -> Option<&[u8]>
    ensures { MatchOption result ((rest : List ℕ) → ¬ spec.NestedAt text.now rest)
        (λ rest. spec.NestedAt text.now rest.now) }
{
    if let Some(rest) = after_byte(text, b'{') {
        return Some(rest);
    }
    let closing = after_field(text)?;
    after_byte(closing, b'}')
}

/// What follows a format specifier.
fn after_specifier(text: &[u8]) -> Option<&[u8]>
    ensures { MatchOption result ((rest : List ℕ) → ¬ spec.SpecifierAt text.now rest)
        (λ rest. spec.SpecifierAt text.now rest.now) }
{
    match after_byte(text, b'{') {
        Some(inner) => after_nested(inner),
        None => Some(skip_standard(text)),
    }
}

/// What follows a colon and a format specifier, which may be left out.
pub(crate) fn after_format(text: &[u8]) -> Option<&[u8]>
    ensures { MatchOption result ((rest : List ℕ) → ¬ spec.FormatAt text.now rest)
        (λ rest. spec.FormatAt text.now rest.now) }
{
    match after_byte(text, b':') {
        Some(rest) => after_specifier(rest),
        None => Some(text),
    }
}
