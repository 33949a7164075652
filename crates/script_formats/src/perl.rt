//! Directives of Perl's `sprintf`, read part by part. Each reader takes the text from where its part may begin, and
//! returns the part and the rest.
ghost use Rattle.std.specs.Prelude.{◌≡◌, option_map};
ghost use Rattle.script_formats.specs.PerlDirectives as spec;

use crate::directive::{Directive, argument};
use crate::parts::{read_number, skip_flags};
use byte_text::split_byte;
use numbered_arguments::{Kind, Request, Size, skip_digits};

fn is_first_digit(byte: u8) -> bool
    ensures { result ≡ spec.is_first_digit byte }
{
    byte.is_ascii_digit() && byte != b'0'
}

/// Reads `m$`, where m doesn't begin with 0.
fn read_written(text: &[u8]) -> Option<(u32, &[u8])>
    ensures { option_map (λ found. (found.0, found.1.now)) result ≡ spec.number_with_dollar text.now }
{
    match split_byte(text) {
        Some((first, _)) => if is_first_digit(first) {
            read_number(text)
        } else {
            None
        },
        None => None,
    }
}

/// The argument of this number; the next one, if it is 0.
fn own(number: u32) -> Option<u32>
    ensures { result ≡ spec.own_number number }
{
    if number == 0 { None } else { Some(number) }
}

/// Reads a number of its own, which may be left out.
fn read_index(text: &[u8]) -> (Option<u32>, &[u8])
    ensures number { result.0 ≡ (spec.index_at text.now).0 }
    ensures rest { result.1.now ≡ (spec.index_at text.now).1 }
{
    match read_written(text) {
        Some((number, rest)) => (own(number), rest),
        None => (None, text),
    }
}

/// Reads a `v`, behind a `*` and this number.
fn read_separator(number: Option<u32>, text: &[u8]) -> Option<(Option<Request>, &[u8])>
    ensures { option_map (λ found. (found.0, found.1.now)) result ≡ spec.separator number text.now }
{
    match split_byte(text) {
        Some((b'v', rest)) => Some((argument(number, Some(Kind::Vector)), rest)),
        _ => None,
    }
}

/// Reads `v` or `m$v`, behind a `*`.
fn read_joined(text: &[u8]) -> Option<(Option<Request>, &[u8])>
    ensures { option_map (λ found. (found.0, found.1.now)) result ≡ spec.behind_star text.now }
{
    match read_written(text) {
        Some((number, rest)) => read_separator(Some(number), rest),
        None => read_separator(None, text),
    }
}

/// Reads `v`, `*v` or `*m$v`.
fn read_vector(text: &[u8]) -> Option<(Option<Request>, &[u8])>
    ensures { option_map (λ found. (found.0, found.1.now)) result ≡ spec.vector text.now }
{
    match split_byte(text) {
        Some((b'v', rest)) => Some((None, rest)),
        Some((b'*', rest)) => read_joined(rest),
        _ => None,
    }
}

/// Reads `*` or `*m$`.
fn read_star(text: &[u8]) -> Option<(Option<Request>, &[u8])>
    ensures { option_map (λ found. (found.0, found.1.now)) result ≡ spec.star text.now }
{
    match split_byte(text) {
        Some((b'*', behind)) => {
            let (number, rest) = read_index(behind);
            Some((argument(number, Some(Kind::Integer(Size::Plain))), rest))
        }
        _ => None,
    }
}

/// Reads a star or digits, or nothing.
fn read_amount(text: &[u8]) -> (Option<Request>, &[u8])
    ensures request { result.0 ≡ (spec.amount text.now).0 }
    ensures rest { result.1.now ≡ (spec.amount text.now).1 }
{
    match read_star(text) {
        Some((request, rest)) => (request, rest),
        None => (None, skip_digits(text)),
    }
}

fn read_width(text: &[u8]) -> (Option<Request>, &[u8])
    ensures request { result.0 ≡ (spec.width text.now).0 }
    ensures rest { result.1.now ≡ (spec.width text.now).1 }
{
    match split_byte(text) {
        Some((b'0', _)) => (None, text),
        _ => read_amount(text),
    }
}

fn read_precision(text: &[u8]) -> (Option<Request>, &[u8])
    ensures request { result.0 ≡ (spec.precision text.now).0 }
    ensures rest { result.1.now ≡ (spec.precision text.now).1 }
{
    match split_byte(text) {
        Some((b'.', rest)) => read_amount(rest),
        _ => (None, text),
    }
}

/// Reads a second `l`, behind the first.
fn read_long(text: &[u8]) -> (Size, &[u8])
    ensures size { result.0 ≡ (spec.behind_long text.now).0 }
    ensures rest { result.1.now ≡ (spec.behind_long text.now).1 }
{
    match split_byte(text) {
        Some((b'l', rest)) => (Size::LongLong, rest),
        _ => (Size::Long, text),
    }
}

fn read_size(text: &[u8]) -> (Size, &[u8])
    ensures size { result.0 ≡ (spec.size text.now).0 }
    ensures rest { result.1.now ≡ (spec.size text.now).1 }
{
    match split_byte(text) {
        Some((b'h', rest)) => (Size::Short, rest),
        Some((b'l', rest)) => read_long(rest),
        Some((b'L' | b'q', rest)) => (Size::LongLong, rest),
        Some((b'V', rest)) => (Size::Native, rest),
        _ => (Size::Plain, text),
    }
}

/// The kind of a number with a fraction. None: it has no such size.
fn float(size: Size) -> Option<Option<Kind>>
    ensures { result ≡ spec.float size }
{
    match size {
        Size::Short | Size::Long => None,
        _ => Some(Some(Kind::Float(size))),
    }
}

/// What a conversion asks for, if there is such a conversion.
fn asked_by(conversion: u8, size: Size) -> Option<Option<Kind>>
    ensures { result ≡ spec.asked_by conversion size }
{
    match conversion {
        b'%' => Some(None),
        b'c' => Some(Some(Kind::Character)),
        b's' => Some(Some(Kind::Text)),
        b'_' => Some(Some(Kind::Vector)),
        b'p' => Some(Some(Kind::Pointer)),
        b'd' | b'i' => Some(Some(Kind::Integer(size))),
        b'D' => Some(Some(Kind::Integer(Size::Native))),
        b'u' | b'b' | b'o' | b'x' | b'X' => Some(Some(Kind::Unsigned(size))),
        b'U' | b'O' => Some(Some(Kind::Unsigned(Size::Native))),
        b'e' | b'E' | b'f' | b'F' | b'g' | b'G' => float(size),
        b'n' => Some(Some(Kind::Count(size))),
        _ => None,
    }
}

/// What stands before the width.
#[derive(Clone, Copy)]
pub struct Front {
    pub number: Option<u32>,
    /// whether the conversion is of each number of a vector
    pub is_vector: bool,
    pub separator: Option<Request>,
}

fn read_front(text: &[u8]) -> (Front, &[u8])
    ensures front { result.0 ≡ (spec.front text.now).0 }
    ensures rest { result.1.now ≡ (spec.front text.now).1 }
{
    let (number, behind_number) = read_index(text);
    let behind_flags = skip_flags(behind_number);
    match read_vector(behind_flags) {
        Some((separator, rest)) => (
            Front {
                number,
                is_vector: true,
                separator,
            },
            rest,
        ),
        None => (
            Front {
                number,
                is_vector: false,
                separator: None,
            },
            behind_flags,
        ),
    }
}

/// A directive of these parts.
fn directive(
    front: Front,
    width: Option<Request>,
    precision: Option<Request>,
    kind: Option<Kind>,
) -> Directive
    ensures { result ≡ spec.directive_of front width precision kind }
{
    let (vector, scalar) = if front.is_vector {
        (Some(Kind::Vector), None)
    } else {
        (None, kind)
    };
    Directive {
        index: None,
        separator: front.separator,
        vector: argument(front.number, vector),
        width,
        precision,
        argument: argument(front.number, scalar),
    }
}

/// Reads what stands behind the front.
fn read_back(front: Front, text: &[u8]) -> Option<(Directive, &[u8])>
    ensures { option_map (λ found. (found.0, found.1.now)) result ≡ spec.back front text.now }
{
    let (width, behind_width) = read_width(text);
    let (precision, behind_precision) = read_precision(behind_width);
    let (size, behind_size) = read_size(behind_precision);
    match split_byte(behind_size) {
        Some((conversion, rest)) => match asked_by(conversion, size) {
            Some(kind) => Some((directive(front, width, precision, kind), rest)),
            None => None,
        },
        None => None,
    }
}

/// Reads a directive, from after its `%`.
pub(crate) fn read(text: &[u8]) -> Option<(Directive, &[u8])>
    ensures { option_map (λ found. (found.0, found.1.now)) result ≡ spec.directive text.now }
{
    let (front, behind) = read_front(text);
    read_back(front, behind)
}
