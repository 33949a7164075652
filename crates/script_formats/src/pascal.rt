//! Directives of Object Pascal's `Format`, read part by part. Each reader takes the text from where its part may begin,
//! and returns the part and the rest.
ghost use Rattle.std.specs.Prelude.{◌≡◌, option_map};
ghost use Rattle.format_arguments.specs.Bytes.{behind_one};
ghost use Rattle.script_formats.specs.PascalDirectives as spec;

use crate::directive::{Directive, argument, printed};
use crate::parts::{after_percent, following, read_amount};
use byte_text::split_byte;
use numbered_arguments::{Kind, Request, Size, number_of, split_digits};

/// Which argument a conversion takes.
#[derive(Clone, Copy)]
pub enum Index {
    /// the next one
    Next,
    /// the one of this number
    Own(u32),
    /// the one whose index an argument gives
    Given,
}

fn after_colon(text: &[u8]) -> Option<&[u8]>
    ensures { option_map (λ rest. rest.now) result ≡ spec.behind_colon text.now }
{
    match split_byte(text) {
        Some((b':', rest)) => Some(rest),
        _ => None,
    }
}

/// What follows `*:`.
fn after_given(text: &[u8]) -> Option<&[u8]>
    ensures { option_map (λ rest. rest.now) result ≡ spec.behind_given text.now }
{
    match split_byte(text) {
        Some((b'*', rest)) => after_colon(rest),
        _ => None,
    }
}

/// Reads digits and a colon: the number of the argument, and what follows.
fn read_own(text: &[u8]) -> Option<(u32, &[u8])>
    ensures { option_map (λ found. (found.0, found.1.now)) result ≡ spec.own_index text.now }
{
    let (digits, behind) = split_digits(text);
    match after_colon(behind) {
        Some(rest) => Some((following(number_of(digits)), rest)),
        None => None,
    }
}

fn read_index(text: &[u8]) -> (Index, &[u8])
    ensures index { result.0 ≡ (spec.index text.now).0 }
    ensures rest { result.1.now ≡ (spec.index text.now).1 }
{
    match after_given(text) {
        Some(rest) => (Index::Given, rest),
        None => match read_own(text) {
            Some((number, rest)) => (Index::Own(number), rest),
            None => (Index::Next, text),
        },
    }
}

fn skip_minus(text: &[u8]) -> &[u8]
    ensures { result.now ≡ behind_one spec.is_minus text.now }
{
    match split_byte(text) {
        Some((b'-', rest)) => rest,
        _ => text,
    }
}

/// Reads a star or at least one digit.
fn read_amount_there(text: &[u8]) -> Option<(Option<Request>, &[u8])>
    ensures { option_map (λ found. (found.0, found.1.now)) result ≡ spec.amount_there text.now }
{
    match split_byte(text) {
        Some((first, _)) => if first == b'*' || first.is_ascii_digit() {
            Some(read_amount(None, text))
        } else {
            None
        },
        None => None,
    }
}

fn read_precision(text: &[u8]) -> Option<(Option<Request>, &[u8])>
    ensures { option_map (λ found. (found.0, found.1.now)) result ≡ spec.precision text.now }
{
    match split_byte(text) {
        Some((b'.', rest)) => read_amount_there(rest),
        _ => Some((None, text)),
    }
}

/// What a conversion asks for, if there is such a conversion.
fn asked_by(conversion: u8) -> Option<Kind>
    ensures { result ≡ spec.asked_by conversion }
{
    match conversion {
        b'd' | b'D' | b'u' | b'U' | b'x' | b'X' => Some(Kind::Integer(Size::Plain)),
        b'e' | b'E' | b'f' | b'F' | b'g' | b'G' | b'n' | b'N' | b'm' | b'M' => {
            Some(Kind::Float(Size::Plain))
        }
        b's' | b'S' => Some(Kind::Text),
        b'p' | b'P' => Some(Kind::Pointer),
        _ => None,
    }
}

/// A directive of these parts.
fn directive(
    index: Index,
    width: Option<Request>,
    precision: Option<Request>,
    kind: Kind,
) -> Directive
    ensures { result ≡ spec.directive_of index width precision kind }
{
    match index {
        Index::Next => printed(width, precision, argument(None, Some(kind))),
        Index::Own(number) => printed(width, precision, argument(Some(number), Some(kind))),
        Index::Given => Directive {
            index: argument(None, Some(Kind::Integer(Size::Plain))),
            separator: None,
            vector: None,
            width,
            precision,
            argument: None,
        },
    }
}

/// Reads what stands behind the precision.
fn read_conversion(
    index: Index,
    width: Option<Request>,
    precision: Option<Request>,
    text: &[u8],
) -> Option<(Directive, &[u8])>
    ensures { option_map (λ found. (found.0, found.1.now)) result ≡ spec.conversion_at index width precision text.now }
{
    let (conversion, rest) = split_byte(text)?;
    let kind = asked_by(conversion)?;
    Some((directive(index, width, precision, kind), rest))
}

/// Reads what stands behind the index.
fn read_back(index: Index, text: &[u8]) -> Option<(Directive, &[u8])>
    ensures { option_map (λ found. (found.0, found.1.now)) result ≡ spec.back index text.now }
{
    let (width, behind_width) = read_amount(None, skip_minus(text));
    let (precision, behind_precision) = read_precision(behind_width)?;
    read_conversion(index, width, precision, behind_precision)
}

/// Reads a directive, from after its `%`.
pub(crate) fn read(text: &[u8]) -> Option<(Directive, &[u8])>
    ensures { option_map (λ found. (found.0, found.1.now)) result ≡ spec.directive text.now }
{
    match after_percent(text) {
        Some(rest) => Some((printed(None, None, None), rest)),
        None => {
            let (index, rest) = read_index(text);
            read_back(index, rest)
        }
    }
}
