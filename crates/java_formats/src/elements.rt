//! What stands between the braces of an element.
ghost use Rattle.std.specs.Prelude.{◌≡◌, option_map};
ghost use Rattle.java_formats.specs.JavaElements as spec;

use crate::decimals::is_number_style;
use byte_text::split_byte;
use numbered_arguments::{Kind, Numbered, number_of, split_digits};

/// The type of a format.
#[derive(Clone, Copy)]
pub(crate) enum FormatType {
    Date,
    Number,
    Choice,
}

/// What follows the word, if the text begins with it.
pub(crate) fn after_word<'a>(word: &[u8], text: &'a [u8]) -> Option<&'a [u8]>
    ensures { option_map (λ rest. rest.now) result ≡ spec.behind_word word.now text.now }
{
    if text.starts_with(word) {
        Some(&text[word.len()..])
    } else {
        None
    }
}

/// Reads a comma and a type.
fn read_type(text: &[u8]) -> Option<(FormatType, &[u8])>
    ensures { option_map (λ found. (found.0, found.1.now)) result ≡ spec.type_at text.now }
{
    if let Some(rest) = after_word(b",time", text) {
        Some((FormatType::Date, rest))
    } else if let Some(rest) = after_word(b",date", text) {
        Some((FormatType::Date, rest))
    } else if let Some(rest) = after_word(b",number", text) {
        Some((FormatType::Number, rest))
    } else if let Some(rest) = after_word(b",choice", text) {
        Some((FormatType::Choice, rest))
    } else {
        None
    }
}

fn kind_of(format_type: FormatType) -> Kind
    ensures { result ≡ spec.kind_of format_type }
{
    match format_type {
        FormatType::Date => Kind::Date,
        FormatType::Number | FormatType::Choice => Kind::Number,
    }
}

/// The kind of an element with a style, and its choices. None: the type has no such style.
fn with_style(format_type: FormatType, style: &[u8]) -> Option<(Kind, Option<&[u8]>)>
    ensures { option_map (λ found. (found.0, option_map (λ text. text.now) found.1)) result
        ≡ spec.with_style format_type style.now }
{
    match format_type {
        FormatType::Date => Some((Kind::Date, None)),
        FormatType::Number => if is_number_style(style) {
            Some((Kind::Number, None))
        } else {
            None
        },
        FormatType::Choice => Some((Kind::Number, Some(style))),
    }
}

/// Reads what stands behind a type: nothing, or a comma and a style.
fn read_style(format_type: FormatType, text: &[u8]) -> Option<(Kind, Option<&[u8]>)>
    ensures { option_map (λ found. (found.0, option_map (λ text. text.now) found.1)) result
        ≡ spec.behind_type format_type text.now }
{
    match split_byte(text) {
        None => Some((kind_of(format_type), None)),
        Some((b',', style)) => with_style(format_type, style),
        Some(_) => None,
    }
}

/// Reads what stands behind the number: nothing, or a type.
fn read_format(text: &[u8]) -> Option<(Kind, Option<&[u8]>)>
    ensures { option_map (λ found. (found.0, option_map (λ text. text.now) found.1)) result
        ≡ spec.format_at text.now }
{
    if text.is_empty() {
        return Some((Kind::Object, None));
    }
    match read_type(text) {
        Some((format_type, rest)) => read_style(format_type, rest),
        None => None,
    }
}

/// Reads an element: its argument, and its choices, if it has any.
pub(crate) fn read_element(inner: &[u8]) -> Option<(Numbered, Option<&[u8]>)>
    ensures { option_map (λ found. (found.0, option_map (λ text. text.now) found.1)) result
        ≡ spec.element inner.now }
{
    let (digits, rest) = split_digits(inner);
    if digits.is_empty() {
        return None;
    }
    let number = number_of(digits);
    match read_format(rest) {
        Some((kind, choices)) => Some((Numbered { number, kind }, choices)),
        None => None,
    }
}
